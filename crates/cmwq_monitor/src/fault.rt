//! Why a call made no entry, or broke off.

use cmwq_model::Number;
use thiserror::Error;

/// Why a call of a hub isn't answered. Unless it says so, the call has made no entry.
#[derive(Clone, Copy, Debug, PartialEq, Eq, Error)]
pub enum RunFault {
    /// Memory ran out, now or before: the hub has failed, and all its calls answer this. A ticket is one that this call
    /// began and could not end.
    #[error("no memory")]
    NoMemory { ticket: Option<Number> },
    /// There is no room for the call's first entry and for what would be owed then.
    #[error("full")]
    Full,
    /// After all threads had ended an active queueing was open.
    #[error("unfinished")]
    Unfinished,
    /// All callers, or all workers, are given out.
    #[error("no place")]
    NoPlace,
    /// The hub is closed; or it lends this caller to runs, and takes no other calls of it; or a run would wait, and its
    /// worker was given none of the callers that the hub lends.
    #[error("closed")]
    Closed,
    /// The hub has another count of this caller's or worker's entries than it has itself, or a shorter history than it
    /// has seen.
    #[error("stranger: {own} of its own, {book} of the hub")]
    Stranger { own: u64, book: u64 },
    /// A thread could not be made: the hub has failed.
    #[error("no thread")]
    NoThread,
}

/// What was short for an entry.
#[derive(Clone, Copy)]
pub enum Shortage {
    Room,
    Memory,
}
