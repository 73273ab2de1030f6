//! For a layer above that runs the threads of a hub, which take turns in a trial. In a hub that is in no trial nothing
//! here does anything.

use crate::caller::Caller;
use crate::hub::Hub;
use crate::worker::Worker;
use cmwq_publish::HubName;
pub use cmwq_turns::{Awaited, Party, Schedule, Seat, Standing, Turnstile};
use std::sync::Wait;

/// The thread of this caller has come. It waits for its first turn, and does all in its turns from then on.
pub fn caller_comes<N: HubName, R: Wait>(rt: &R, hub: &Hub<N>, caller: &Caller<N>) {
    hub.comes(rt, caller.participant().who());
}

/// The thread of this worker has come. It waits for its first turn, and does all in its turns from then on.
pub fn worker_comes<N: HubName, R: Wait>(rt: &R, hub: &Hub<N>, worker: &Worker<N>) {
    hub.comes(rt, worker.participant().who());
}

/// The thread that has the turn is done, and takes no further one.
pub fn goes<N: HubName, R: Wait>(rt: &R, hub: &Hub<N>) {
    hub.goes(rt);
}

/// Lets others move before the thread that has the turn.
pub fn turn<N: HubName, R: Wait>(rt: &R, hub: &Hub<N>) {
    if let Some(turns) = &hub.turns {
        turns.turn(rt);
    }
}

/// All go on without turns, as a thread is missing that was to come.
pub fn open<N: HubName, R: Wait>(rt: &R, hub: &Hub<N>) {
    if let Some(turns) = &hub.turns {
        turns.open(rt);
    }
}
