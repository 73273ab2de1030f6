//! How many waits runs left out.
ghost use Rattle.std.specs.Prelude.{◌≡◌};
ghost use Rattle.cmwq_rt.specs.Sums.{no_waits, plus};
ghost use Rattle.cmwq_rt.specs.Waiting.{left_out_after};

use crate::wait_fault::WaitFault;
use cmwq_model::Reply;
use cmwq_monitor::RunFault;

/// How many waits runs left out, by why. A count goes up to the greatest number and stays there.
#[derive(Clone, Copy, Debug, PartialEq, Eq)]
pub struct LeftOut {
    /// They were refused: `Itself`, `Deadlock` or `NoCaller`.
    pub refused: u64,
    /// There was no room for them.
    pub without_room: u64,
}

impl LeftOut {
    /// No wait.
    pub fn none() -> LeftOut
        ensures { result ≡ no_waits }
    {
        LeftOut {
            refused: 0,
            without_room: 0,
        }
    }

    /// These and the others.
    pub fn plus(self, other: LeftOut) -> LeftOut
        ensures { result ≡ plus self other }
    {
        LeftOut {
            refused: self.refused.saturating_add(other.refused),
            without_room: self.without_room.saturating_add(other.without_room),
        }
    }

    /// These, and the wait that was answered so, if it was left out.
    pub(crate) fn after(self, answer: &Result<Reply, WaitFault>) -> LeftOut
        ensures { result ≡ left_out_after answer.now self }
    {
        match answer {
            Ok(_) => self,
            Err(WaitFault::Itself | WaitFault::Deadlock | WaitFault::NoCaller) => LeftOut {
                refused: self.refused.saturating_add(1),
                without_room: self.without_room,
            },
            Err(
                WaitFault::Run {
                    fault: RunFault::Full,
                },
            ) => LeftOut {
                refused: self.refused,
                without_room: self.without_room.saturating_add(1),
            },
            Err(WaitFault::Run { .. }) => self,
        }
    }
}
