//! Why a run wrote no history, or not all of it, and what is told of that.
ghost use Rattle.std.specs.Prelude.{◌≡◌};
ghost use Rattle.cmwq_cmd_run.specs.declared.failure.Failure.TheVariants as failure;
ghost use Rattle.cmwq_json.specs.declared.fault.Fault.TheVariants as fault;
ghost use Rattle.cmwq_cmd_run.specs.Run.{failure_status, failed_run};

use crate::lock_fault::LockFault;
use arrayvec::ArrayString;
use cmwq_json::{Fault, fault_status};
use cmwq_rt::RunFault;
use std::alloc::AllocError;
use thiserror::Error;

/// The name of a gate: at most 16 bytes.
pub type GateName = ArrayString<16>;

/// Why a run wrote no history, or not all of it.
#[derive(Clone, Copy, Debug, PartialEq, Eq, Error)]
pub enum Failure {
    /// The input was refused, memory ran out, or reading or writing failed.
    #[error("{0}")]
    Input(Fault),
    /// The run ended by the fault with this number: 2 full, 3 an active queueing was open after all threads had ended,
    /// 4 no place for a caller, 5 closed, 6 a stranger, 7 no thread.
    #[error("run fault {number}")]
    Run { number: u8 },
    /// A run or a caller looked at this gate in vain, and so many calls were left out for lack of room.
    #[error("gate {name} was not opened")]
    Gate { name: GateName, left_out: u64 },
    /// This went wrong at a lock.
    #[error("{0}")]
    Lock(LockFault),
}

impl From<Fault> for Failure {
    ghost from_gives = { λ of f. f ≡ failure.Input of };

    fn from(fault: Fault) -> Failure {
        Failure::Input(fault)
    }
}

impl From<AllocError> for Failure {
    ghost from_gives = { λ _ f. f ≡ failure.Input fault.NoMemory };

    fn from(_error: AllocError) -> Failure {
        Failure::Input(Fault::NoMemory)
    }
}

impl From<RunFault> for Failure {
    ghost from_gives = { λ of f. f ≡ failed_run of };

    fn from(fault: RunFault) -> Failure {
        let number = match fault {
            RunFault::NoMemory { .. } => return Failure::Input(Fault::NoMemory),
            RunFault::Full => 2,
            RunFault::Unfinished => 3,
            RunFault::NoPlace => 4,
            RunFault::Closed => 5,
            RunFault::Stranger { .. } => 6,
            RunFault::NoThread => 7,
        };
        Failure::Run { number }
    }
}

/// The exit status of a run that failed so.
pub fn failure_status_of(failure: Failure) -> u8
    ensures { result ≡ failure_status failure }
{
    match failure {
        Failure::Input(fault) => fault_status(fault),
        Failure::Run { .. } => 5,
        Failure::Gate { .. } | Failure::Lock(_) => 1,
    }
}
