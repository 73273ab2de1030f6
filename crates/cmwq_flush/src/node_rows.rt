ghost use Rattle.std.specs.Prelude.{◌≡◌, ◌<◌, length, slice_set, IfOk};
ghost use Rattle.cmwq_flush.specs.Openings.{node_row};

use crate::openings::{Colour, Row};
use cmwq_model::Number;
use std::alloc::{AllocError, Global};
use std::marker::Model;

/// Of each node the open queueing for which it stands, or the last for which it did. It takes nine bytes a node, where
/// rows beside one another would take sixteen.
#[derive(Drop)]
pub(crate) struct NodeRows {
    numbers: Vec<Number>,
    colours: Vec<Colour>,
}

impl Model for NodeRows {
    ghost use Rattle.std.specs.Prelude.{◌≡◌, List, length};
    ghost use Rattle.cmwq_flush.specs.declared.openings.Row.{Row};
    ghost use Rattle.cmwq_flush.specs.NodeRows.{node_rows_from};

    ghost Value = { List Row };

    ghost view = { λ r. node_rows_from r.numbers.items r.colours.items };

    ghost invariant = { λ r. length r.colours.items ≡ length r.numbers.items };
}

impl NodeRows {
    /// A row for each node, of whatever queueing. No later call takes memory.
    pub(crate) fn new(alloc: Global, nodes: u32) -> Result<Self, AllocError>
        ensures { IfOk result (λ rows. length rows ≡ nodes) }
    {
        Ok(NodeRows {
            numbers: vec![in alloc; 0; nodes as usize]?,
            colours: vec![in alloc; 0; nodes as usize]?,
        })
    }

    /// Makes these rows a copy of the others, which are of as many nodes.
    pub(crate) fn copy_from(&mut self, other: &NodeRows)
        requires { length self.old ≡ length other.now }
        ensures { self.new ≡ other.now }
    {
        self.numbers.copy_from_slice(&other.numbers);
        self.colours.copy_from_slice(&other.colours);
    }

    /// The row of a node.
    pub(crate) fn at(&self, node: u32) -> Row
        requires { node < length self.now }
        ensures { result ≡ node_row self.now node }
    {
        let number = self.numbers[node as usize];
        let colour = self.colours[node as usize];
        Row { number, colour }
    }

    /// Puts a row in place of a node's.
    pub(crate) fn put(&mut self, node: u32, row: Row)
        requires { node < length self.old }
        ensures { self.new ≡ slice_set self.old node row }
    {
        self.numbers[node as usize] = row.number;
        self.colours[node as usize] = row.colour;
    }
}
