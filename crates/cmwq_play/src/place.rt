//! Where callers and workers of a script stand.

ghost use Rattle.std.specs.Prelude.{◌≡◌};
ghost use Rattle.cmwq_play.specs.Stands as spec;

use cmwq_model::{Call, CallerId, ItemId, Number, WorkerId};

/// A wait that has begun: its ticket, and the call that it is of.
#[derive(Clone, Copy, Debug)]
pub struct Ticketed {
    pub ticket: Number,
    pub call: Call,
}

/// A caller, which action of its script is next, and the wait that it is in.
#[derive(Clone, Copy, Debug)]
pub struct CallerAt {
    pub id: CallerId,
    pub next: usize,
    pub wait: Option<Ticketed>,
}

/// What a run is doing.
#[derive(Clone, Copy, Debug)]
pub enum Doing {
    /// It does its next action, or ends.
    Acts,
    /// It waits at a gate, asleep unless there was no room for that.
    AtGate { gate: u8, slept: bool },
    /// It waits for a lock, asleep unless there was no room for that.
    AtLock { lock: u8, slept: bool },
    /// It waits by a caller, which is lent to it.
    Waits { caller: u8, wait: Ticketed },
}

/// A run of an item: which action is next, or under way.
#[derive(Clone, Copy, Debug)]
pub struct RunAt {
    pub item: ItemId,
    pub next: usize,
    pub doing: Doing,
}

/// A worker, and what it runs.
#[derive(Clone, Copy, Debug)]
pub struct WorkerAt {
    pub id: WorkerId,
    pub run: Option<RunAt>,
}

/// The place after this one.
pub(crate) fn next_place(place: usize) -> usize
    ensures { result ≡ spec.next_place place }
{
    if place < usize::MAX { place + 1 } else { place }
}

/// The run after its action.
pub(crate) fn after_action(run: RunAt) -> RunAt
    ensures { result ≡ spec.after_action run }
{
    RunAt {
        next: next_place(run.next),
        doing: Doing::Acts,
        ..run
    }
}
