//! Why a call failed.
ghost use Rattle.cmwq_io.specs.Counts.{CountsTrouble};

use std::error::Error;
use std::fmt;

/// Why one call of a source or a sink failed.
#[derive(Clone, Copy, Debug, PartialEq, Eq)]
pub enum Trouble {
    /// The call was interrupted and may be made again.
    Interrupted,
    /// The call failed for good.
    Failed,
}

/// A read failed, or was interrupted 1,001 times in a row.
#[derive(Clone, Copy, Debug, PartialEq, Eq)]
pub struct ReadFault;

/// A write or a flush failed, or was interrupted 1,001 times in a row.
#[derive(Clone, Copy, Debug, PartialEq, Eq)]
pub struct WriteFault;

impl fmt::Display for ReadFault {
    fn fmt<W: fmt::Write>(&self, f: &mut fmt::Formatter<W>) -> fmt::Result {
        write!(f, "read fault")
    }
}

impl fmt::Display for WriteFault {
    fn fmt<W: fmt::Write>(&self, f: &mut fmt::Formatter<W>) -> fmt::Result {
        write!(f, "write fault")
    }
}

impl Error for ReadFault {}

impl Error for WriteFault {}

/// The count of troubles after a call that gave this answer.
pub(crate) fn count_after<T>(troubles: u64, answer: &Result<T, Trouble>) -> u64
    ensures { CountsTrouble troubles result answer.now }
{
    match answer {
        Ok(_) => troubles,
        Err(_) => troubles.saturating_add(1),
    }
}
