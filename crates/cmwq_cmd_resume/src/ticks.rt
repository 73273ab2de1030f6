//! What is known of the calls of a history that was read.

ghost use Rattle.cmwq_resume.specs.Leavings.{HasTicks};

use cmwq_base::{Call, NoMemory, Shape};
use cmwq_history::{Fold, Step};
use std::alloc::Global;

/// It shows that the ticks of a call are in the range of their type.
fn note_ticks(call: Call)
    ensures { HasTicks call }
{
    match call {
        Call::Delay { ticks, .. } | Call::Modify { ticks, .. } => {
            let _ticks = ticks;
        }
        _ => {}
    }
}

/// Nothing is made. Contracts see that the ticks of each call are in the range of their type.
#[derive(Debug, Drop)]
pub struct Ticks;

impl Fold for Ticks {
    ghost use Rattle.cmwq_resume.specs.Leavings.{HaveTicks};

    type Told = ();

    ghost is_of = { λ s past ticks. HaveTicks past };

    fn begin(_: Global, _: &Shape) -> Result<Self, NoMemory> {
        Ok(Ticks)
    }

    fn take(&mut self, step: &Step<'_, ()>) -> Result<(), NoMemory> {
        note_ticks(step.entry().call);
        Ok(())
    }
}
