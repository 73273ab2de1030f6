//! How far trials have come.

use crate::failure::{Failure, Tried};
use crate::party::Role;
use std::time::Duration;

/// How far the trials have come.
#[derive(Clone, Copy, Debug, PartialEq, Eq)]
pub enum Progress {
    /// The trial under this seed came to its end, after so many entries and turns.
    Ended {
        seed: u64,
        entries: u64,
        turns: u64,
    },
    /// It got stuck after so many entries.
    Stuck {
        seed: u64,
        entries: u64,
    },
    /// It stopped by a fault after so many entries.
    Stopped {
        seed: u64,
        entries: u64,
    },
    /// The party that has the turn has done nothing for so long: it waits by other means than the library's, or runs
    /// on. The trial can't end.
    Hangs {
        seed: u64,
        time: Duration,
        mover: Role,
    },
}

impl Progress {
    /// How far a trial has come that has ended.
    pub(crate) fn of(seed: u64, outcome: &Result<Tried, Failure>) -> Progress {
        match outcome {
            Ok(tried) => Progress::Ended {
                seed,
                entries: tried.history.len() as u64,
                turns: tried.turns,
            },
            Err(Failure::Stuck { history, .. }) => Progress::Stuck {
                seed,
                entries: history.len() as u64,
            },
            Err(Failure::Stopped { history, .. }) => Progress::Stopped {
                seed,
                entries: history.len() as u64,
            },
        }
    }
}
