//! Why a journal broke off.

use cmwq_monitor::RunFault;
use thiserror::Error;

/// Why a history isn't written any further.
#[derive(Clone, Copy, Debug, PartialEq, Eq, Error)]
pub enum JournalFault {
    /// The journal began late: so many entries had been handed over before it. Nothing was written.
    #[error("late: {0} entries are missing")]
    Late(u64),
    /// The sink failed. The lines of the first so many entries were written whole, unless that is 0: then not even the
    /// head may be.
    #[error("write fault after entry {written}")]
    Write { written: u64 },
    /// The hub answered a fault. The lines of the first so many entries, which are all that the journal has, were
    /// written whole.
    #[error("{fault}, after entry {written}")]
    Hub { fault: RunFault, written: u64 },
}

/// Why the history of a run was not written to its end.
#[derive(Clone, Copy, Debug, PartialEq, Eq, Error)]
pub enum Unwritten {
    /// The sink failed.
    #[error("write fault")]
    Sink,
    /// The run ended by a fault.
    #[error("{0}")]
    Run(RunFault),
}
