//! Why a run did not wait.

ghost use Rattle.std.specs.Prelude.{◌≡◌, Some, true};
ghost use Rattle.cmwq_rt.specs.Waiting.{is_refusal, stuck_of};

use cmwq_monitor::{RunFault, Stuck};
use thiserror::Error;

/// Why a run's wait was refused, or failed. Except for `Run`, it made no entry.
#[derive(Clone, Copy, Debug, PartialEq, Eq, Error)]
pub enum WaitFault {
    /// It would wait for its own run to end.
    #[error("a run that waits for itself")]
    Itself,
    /// It would wait for what cannot end or start before this run, or runs that wait for it, have ended.
    #[error("runs that wait for one another")]
    Deadlock,
    /// All callers that are lent to runs wait, or there are none (`HubParts::lending_from`).
    #[error("no caller to wait by")]
    NoCaller,
    /// A fault of the hub. The run may have slept and woken.
    #[error("{fault}")]
    Run { fault: RunFault },
}

pub(crate) fn fault_of(stuck: Stuck) -> WaitFault
    ensures refusal { is_refusal result ≡ true }
    ensures stuck { stuck_of result ≡ Some stuck }
{
    match stuck {
        Stuck::Itself => WaitFault::Itself,
        Stuck::Circle => WaitFault::Deadlock,
    }
}
