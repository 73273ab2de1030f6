//! Calls whose steps are made while they are read, and whose entries are kept.

ghost use Rattle.std.specs.Prelude.{◌≡◌};
ghost use Rattle.cmwq_model.specs.Prelude.{past_of};
ghost use Rattle.cmwq_cmd_history.specs.Live.{live_steps};

use crate::stepping::Stepping;
use cmwq_base::{Call, Entry, Gather, NoMemory, Shape, Who};
use std::alloc::Global;
use std::marker::Model;

/// For so many entries memory is taken at first; for more, which only a file of calls of format 3 makes, as they come.
const FIRST_ROOM: u64 = 1_000_000;

/// Makes the steps of the calls of a file as they come, and keeps their entries. What makes them is boxed, since the
/// reader hands what gathers on by value before and after its lines.
#[derive(Drop)]
pub struct Recording {
    stepping: Box<Stepping>,
    history: Vec<Entry>,
}

impl Model for Recording {
    ghost use Rattle.cmwq_cmd_history.specs.Live.{Stepped, AreRecorded};

    ghost Value = { Stepped };

    ghost view = { λ r. r.stepping.value };

    ghost invariant = { λ r. AreRecorded r.stepping.value r.history.items };
}

impl Recording {
    /// The history of the calls that had room.
    pub fn history(&self) -> &[Entry]
        ensures { past_of result.now ≡ (live_steps self.now.layout self.now.calls).steps.past }
    {
        &self.history
    }

    /// How many calls had none.
    pub fn left_out(&self) -> u64
        ensures { result ≡ (live_steps self.now.layout self.now.calls).steps.left_out }
    {
        self.stepping.left_out()
    }
}

impl Gather for Recording {
    type Item = (Who, Call);

    ghost layout = { λ r. r.layout };

    ghost items = { λ r. r.calls };

    fn begin(alloc: Global, shape: Shape) -> Result<Self, NoMemory> {
        let room = shape.counts().room.min(FIRST_ROOM);
        let history = Vec::with_capacity(alloc, room as usize)?;
        let stepping = Stepping::begin(alloc, shape)?;
        let stepping = Box::new(alloc, stepping).ok().ok_or(NoMemory)?;
        Ok(Recording { stepping, history })
    }

    fn shape(&self) -> &Shape {
        self.stepping.shape()
    }

    fn len(&self) -> u64 {
        self.stepping.len()
    }

    #[tactic(auto, using(crate::proofs::Lived::recorded_made, crate::proofs::Lived::recorded_left))]
    fn take(&mut self, item: (Who, Call)) -> Result<(), NoMemory> {
        self.history.reserve(1)?;
        self.stepping.take(item)?;
        match self.stepping.made() {
            Some(entry) => self.history.push_reserved(entry),
            None => {}
        }
        Ok(())
    }
}
