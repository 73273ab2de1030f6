//! Why a file isn't taken, or a text isn't written.

ghost use Rattle.std.specs.Prelude.{◌≡◌};
ghost use Rattle.cmwq_base.specs.declared.refusal.Refusal.TheVariants.{NoMemory, ReadFault, WriteFault};

use std::alloc::{AllocError, AllocFailed};
use thiserror::Error;

/// Why a file was refused, or what failed. The first refusal in the order of the bytes is given; within a line a line
/// of another form comes before a number that the shape doesn't have. Lines are counted from 1.
#[derive(Clone, Copy, Debug, PartialEq, Eq, Error)]
pub enum Refusal {
    /// Memory ran out.
    #[error("no memory")]
    NoMemory,
    /// This line is not one of the format, or the last one has no line feed.
    #[error("line {0}: not a line of this format")]
    BadLine(u64),
    /// This line of the shape is malformed or missing, or passes a limit.
    #[error("line {0}: bad shape")]
    BadShape(u64),
    /// This line names an item, a queue, a CPU, a caller or a worker that the shape doesn't have.
    #[error("line {0}: no such number")]
    NoSuchId(u64),
    /// A line has more than 120 bytes, or there are more lines after the queues than the format allows.
    #[error("input too long")]
    TooLong,
    /// The source failed.
    #[error("read fault")]
    ReadFault,
    /// The sink failed.
    #[error("write fault")]
    WriteFault,
}

impl From<AllocError> for Refusal {
    ghost from_gives = { λ _ e. e ≡ NoMemory };

    fn from(_error: AllocError) -> Refusal {
        Refusal::NoMemory
    }
}

impl<T: Drop> From<AllocFailed<T>> for Refusal {
    ghost from_gives = { λ _ e. e ≡ NoMemory };

    fn from(_error: AllocFailed<T>) -> Refusal {
        Refusal::NoMemory
    }
}

impl From<cmwq_model::NoMemory> for Refusal {
    ghost from_gives = { λ _ e. e ≡ NoMemory };

    fn from(_error: cmwq_model::NoMemory) -> Refusal {
        Refusal::NoMemory
    }
}

impl From<cmwq_io::ReadFault> for Refusal {
    ghost from_gives = { λ _ e. e ≡ ReadFault };

    fn from(_error: cmwq_io::ReadFault) -> Refusal {
        Refusal::ReadFault
    }
}

impl From<cmwq_io::WriteFault> for Refusal {
    ghost from_gives = { λ _ e. e ≡ WriteFault };

    fn from(_error: cmwq_io::WriteFault) -> Refusal {
        Refusal::WriteFault
    }
}
