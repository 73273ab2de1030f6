//! Calls whose steps are made while they are read.

ghost use Rattle.std.specs.Prelude.{◌≡◌, ◌<◌, ◌++◌, ◌∷◌, [], true, is_ok, length, IsTrue};
ghost use Rattle.cmwq_model.specs.Prelude.{fits};
ghost use Rattle.cmwq_text.specs.Formats.{most_lines};
ghost use Rattle.cmwq_base.specs.Kinds.{calls_kind};
ghost use Rattle.cmwq_base.specs.Lines.{IsNextLine};
ghost use Rattle.cmwq_cmd_history.specs.Live.{live_steps};

use cmwq_base::{Call, Entry, Gather, NoMemory, Shape, Who};
use cmwq_core::{Execution, Full};
use cmwq_state::Trail;
use std::alloc::Global;
use std::marker::Model;

/// Makes the steps of the calls of a file as they come, and keeps of all entries the last alone. The execution is
/// boxed, since the reader hands what gathers on by value before and after its lines.
#[derive(Drop)]
pub struct Stepping {
    shape: Shape,
    execution: Box<Execution>,
    left_out: u64,
    made: Option<Entry>,
    all: Trail<(Who, Call)>,
}

impl Model for Stepping {
    ghost use Rattle.cmwq_cmd_history.specs.Live.{Stepped, IsStepping};

    ghost Value = { Stepped };

    ghost view = { λ s. record { layout = s.shape; calls = s.all } };

    ghost invariant = { λ s. IsStepping s.shape s.all s.execution.value s.left_out s.made };
}

impl Stepping {
    /// The entry of the last call, if it had room.
    pub fn made(&self) -> Option<Entry>
        ensures { result ≡ (live_steps self.now.layout self.now.calls).made }
    {
        self.made
    }

    /// How many entries the calls made.
    pub fn entries(&self) -> u64
        ensures { result ≡ length (live_steps self.now.layout self.now.calls).steps.past }
    {
        self.execution.len()
    }

    /// How many calls had no room.
    pub fn left_out(&self) -> u64
        ensures { result ≡ (live_steps self.now.layout self.now.calls).steps.left_out }
    {
        self.left_out
    }
}

impl Gather for Stepping {
    type Item = (Who, Call);

    ghost layout = { λ s. s.layout };

    ghost items = { λ s. s.calls };

    fn begin(alloc: Global, shape: Shape) -> Result<Self, NoMemory> {
        let room = shape.counts().room;
        let execution = Execution::new(alloc, &shape, room)?;
        let execution = Box::new(alloc, execution).ok().ok_or(NoMemory)?;
        let all = Trail::new();
        Ok(Stepping {
            shape,
            execution,
            left_out: 0,
            made: None,
            all,
        })
    }

    fn shape(&self) -> &Shape {
        &self.shape
    }

    fn len(&self) -> u64 {
        self.all.len()
    }

    #[tactic(auto, using(crate::proofs::Lived::stepped, crate::proofs::Lived::left))]
    fn take(&mut self, item: (Who, Call)) -> Result<(), NoMemory>
        requires said { IsNextLine calls_kind (length self.old.calls) item }
        requires fits { IsTrue (fits self.old.layout item.0 item.1) }
        requires few { length self.old.calls < most_lines }
        ensures done { is_ok result ≡ true }
        ensures shape { self.new.layout ≡ self.old.layout }
        ensures item { self.new.calls ≡ self.old.calls ++ item ∷ [] }
    {
        let (who, call) = item;
        match self.execution.next(who, call) {
            Ok(entry) => {
                self.made = Some(entry);
                self.all.push(&item);
            }
            Err(Full) => {
                self.made = None;
                self.left_out += 1;
                self.all.push(&item);
            }
        }
        Ok(())
    }
}
