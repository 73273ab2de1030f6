ghost use Rattle.std.specs.Prelude.{◌≡◌, ℕ, ◌+◌, ◌*◌, ◌<◌, ◌↔◌, [], if◌then◌else◌, All, Contains, IfOk, IsTrue, find};
ghost use Rattle.std.specs.Prelude.{length, replicate, slice_get};
ghost use Rattle.cmwq_flush.specs.ItemNumbers.{is_up_to, numbers_open};
ghost use Rattle.cmwq_flush.specs.Numbers.{AreRising};
ghost use Rattle.cmwq_flush.specs.Rows.{row_numbers, rows_at, open_rows_with, open_rows_without};
ghost use Rattle.cmwq_flush.specs.Openings.{node_has_number, is_node_listed, node_number, numbers_in};

use crate::node_rows::NodeRows;
use cmwq_list::Lists;
use cmwq_model::{ItemId, Number, QueueId};
use std::alloc::{AllocError, Global};
use std::marker::Model;

/// A colour, below 16.
pub(crate) type Colour = u8;

/// An open queueing.
#[derive(Clone, Copy)]
pub(crate) struct Row {
    pub(crate) number: Number,
    pub(crate) colour: Colour,
}

/// What is open of an item: its run and its unstarted queueing, the older one first.
#[derive(Clone, Copy)]
pub(crate) enum Open {
    Nothing,
    One(Number),
    Two(Number, Number),
}

impl Open {
    /// The least number up to this one.
    pub(crate) fn first_up_to(self, ticket: Number) -> Option<Number>
        ensures { result ≡ find (is_up_to ticket) (numbers_in self) }
    {
        match self {
            Open::Nothing => None,
            Open::One(run) => (run <= ticket).then_some(run),
            Open::Two(run, _) if run <= ticket => Some(run),
            Open::Two(_, next) => (next <= ticket).then_some(next),
        }
    }
}

/// The open queueings, in a list for each queue, by rising number. An item has two nodes, for its run and its unstarted
/// queueing.
#[derive(Drop)]
pub(crate) struct Openings {
    items: u16,
    lists: Lists,
    /// What each node that is in a list stands for.
    rows: NodeRows,
}

impl Model for Openings {
    ghost use Rattle.cmwq_flush.specs.Rows.{OpenRows};
    ghost use Rattle.cmwq_flush.specs.Openings.{AreOpenings, opened_by, rows_of_nodes};

    ghost Value = { OpenRows };

    ghost view = { λ o. record {
      rows = rows_of_nodes o.lists.lists o.rows;
      opened = opened_by o.lists.lists o.rows o.items;
    } };

    ghost invariant = { λ o. AreOpenings o.items o.lists o.rows };
}

impl Openings {
    /// Nothing open of so many queues and items. No later call takes memory.
    pub(crate) fn new(alloc: Global, queues: u16, items: u16) -> Result<Self, AllocError>
        ensures { IfOk result
            (λ openings. openings ≡ record { rows = replicate queues []; opened = replicate items [] }) }
    {
        let nodes = 2 * u32::from(items);
        Ok(Openings {
            items,
            lists: Lists::new(alloc, queues, nodes)?,
            rows: NodeRows::new(alloc, nodes)?,
        })
    }

    /// Makes these a copy of the others, which are of as many queues and items.
    pub(crate) fn copy_from(&mut self, other: &Openings)
        requires queues { length self.old.rows ≡ length other.now.rows }
        requires items { length self.old.opened ≡ length other.now.opened }
        ensures { self.new ≡ other.now }
    {
        self.items = other.items;
        self.lists.copy_from(&other.lists);
        self.rows.copy_from(&other.rows);
    }

    /// A queueing of the item is open on the queue, with the latest of all numbers.
    pub(crate) fn open(&mut self, queue: QueueId, item: ItemId, row: Row)
        requires queue { queue.0 < length self.old.rows }
        requires item { item.0 < length self.old.opened }
        requires free { length (numbers_open self.old.opened item.0) < 2 }
        requires latest { (q : ℕ) → All (λ r. r.number < row.number) (rows_at self.old.rows q) }
        ensures { self.new ≡ open_rows_with self.old queue.0 item.0 row }
    {
        let node = free_node(&self.lists, item);
        self.rows.put(node, row);
        self.lists.push_back(u16::from(queue.0), node);
    }

    /// The item's queueing of this number is open no more. Its colour is answered.
    pub(crate) fn close(&mut self, item: ItemId, number: Number) -> Colour
        requires { Contains (numbers_open self.old.opened item.0) number }
        ensures closed { (q : ℕ) → Contains (row_numbers (rows_at self.old.rows q)) number
            → self.new ≡ open_rows_without self.old q item.0 number }
        ensures colour { (q : ℕ) → Contains (row_numbers (rows_at self.old.rows q)) number
            → Contains (rows_at self.old.rows q) (record { number = number; colour = result }) }
    {
        let node = node_of(&self.lists, &self.rows, item, number);
        self.lists.remove(node);
        self.rows.at(node).colour
    }

    /// The least open number of a queue.
    pub(crate) fn first(&self, queue: QueueId) -> Option<Number>
        requires { queue.0 < length self.now.rows }
        ensures { result ≡ slice_get (row_numbers (rows_at self.now.rows queue.0)) 0 }
    {
        let node = self.lists.first(u16::from(queue.0))?;
        Some(self.rows.at(node).number)
    }

    /// Whether nothing is open of a queue.
    pub(crate) fn is_empty(&self, queue: QueueId) -> bool
        requires { queue.0 < length self.now.rows }
        ensures { IsTrue result ↔ (rows_at self.now.rows queue.0 ≡ []) }
    {
        self.lists.len(u16::from(queue.0)) == 0
    }

    /// What is open of an item.
    pub(crate) fn of_item(&self, item: ItemId) -> Open
        requires { item.0 < length self.now.opened }
        ensures numbers { numbers_in result ≡ numbers_open self.now.opened item.0 }
        ensures rise { AreRising (numbers_in result) }
    {
        let node = 2 * u32::from(item.0);
        match (
            number_at(&self.lists, &self.rows, node),
            number_at(&self.lists, &self.rows, node + 1),
        ) {
            (None, None) => Open::Nothing,
            (Some(one), None) => Open::One(one),
            (None, Some(other)) => Open::One(other),
            (Some(one), Some(other)) if one < other => Open::Two(one, other),
            (Some(one), Some(other)) => Open::Two(other, one),
        }
    }
}

/// The first of an item's two nodes that is in no list, if one of them is in none.
fn free_node(lists: &Lists, item: ItemId) -> u32
    requires { 2 * item.0 < lists.now.items }
    ensures { result ≡ (if is_node_listed lists.now.lists (2 * item.0) then 2 * item.0 + 1 else 2 * item.0) }
{
    let node = 2 * u32::from(item.0);
    if lists.list_of(node).is_some() {
        node + 1
    } else {
        node
    }
}

/// The one of an item's two nodes that is in a list with this number, if one of them is.
fn node_of(lists: &Lists, rows: &NodeRows, item: ItemId, number: Number) -> u32
    requires there { 2 * item.0 < lists.now.items }
    requires many { length rows.now ≡ lists.now.items }
    ensures { result
        ≡ (if node_has_number lists.now.lists rows.now (2 * item.0) number then 2 * item.0 else 2 * item.0 + 1) }
{
    let node = 2 * u32::from(item.0);
    if number_at(lists, rows, node) == Some(number) {
        node
    } else {
        node + 1
    }
}

/// The number of a node that is in a list.
fn number_at(lists: &Lists, rows: &NodeRows, node: u32) -> Option<Number>
    requires there { node < lists.now.items }
    requires many { length rows.now ≡ lists.now.items }
    ensures { result ≡ node_number lists.now.lists rows.now node }
{
    if lists.list_of(node).is_some() {
        Some(rows.at(node).number)
    } else {
        None
    }
}
