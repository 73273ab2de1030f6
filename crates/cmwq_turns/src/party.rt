//! Who takes turns, and what each of them is about to do.

use cmwq_model::{Call, CallerId, Number, Who};

/// What one who sleeps is woken by.
#[derive(Clone, Copy, Debug)]
pub enum Awaited {
    /// The end of the wait that this call began, by this caller or by one that is lent to a run.
    Ticket {
        caller: CallerId,
        call: Call,
        ticket: Number,
    },
    /// A queueing that it may start.
    Work,
    /// Space for an entry.
    Space,
    /// A completion.
    Completion,
    /// A time.
    Time,
}

/// What a party is about to do.
#[derive(Clone, Copy, Debug)]
pub enum Standing {
    /// Its thread has not come yet.
    Absent,
    /// It has the turn.
    Moves,
    /// It wants a turn.
    Wants,
    /// It is woken by this, or at this time at the latest, in nanoseconds.
    Sleeps {
        awaited: Awaited,
        until: Option<u64>,
    },
    /// It takes no turn any more.
    Gone,
}

/// One who takes turns: a caller, a worker, or the one that closes the hub when all callers have gone.
#[derive(Clone, Copy, Debug)]
pub struct Party {
    /// The caller or the worker.
    pub who: Option<Who>,
    pub standing: Standing,
}
