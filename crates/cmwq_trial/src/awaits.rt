//! What one waits for, in words.

use thiserror::Error;

/// A wait for a queue.
#[derive(Clone, Copy, Debug, PartialEq, Eq, Error)]
pub enum Wanted {
    #[error("flush")]
    Flush,
    #[error("drain")]
    Drain,
    #[error("destruction")]
    Destroy,
}

/// What one waits for.
#[derive(Clone, Copy, Debug, PartialEq, Eq, Error)]
pub enum Awaits {
    /// The end of an item's queueings, or of its run.
    #[error("item {0}")]
    Item(u16),
    /// A queue, for this queueing among others, of this item.
    #[error("the {wanted} of queue {queue}, which waits for queueing {number} of item {item}")]
    Queue {
        wanted: Wanted,
        queue: u8,
        number: u64,
        item: u16,
    },
    /// A queue, for another wait.
    #[error("the {wanted} of queue {queue}")]
    Turn {
        wanted: Wanted,
        queue: u8,
    },
    /// All callers of the service to end.
    #[error("the callers to end")]
    Callers,
    #[error("a completion")]
    Completion,
    /// A time that never comes, since time goes by and nobody does anything else.
    #[error("a time")]
    Time,
    #[error("space in the history")]
    Space,
    /// Something to run.
    #[error("something to start")]
    Work,
}
