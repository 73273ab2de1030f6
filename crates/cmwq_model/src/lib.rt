//! What callers, workers and histories of the runtime speak of: numbers, calls, replies, entries, shapes,
//! and in `specs/` the definitions of every call's one right answer.
#![tactic(auto)]

mod call;
mod entry;
mod error;
mod id;
mod record;
mod reply;
mod shape;
mod verdict;

pub use call::Call;
pub use entry::{Entry, Mark};
pub use error::NoMemory;
pub use id::{CallerId, CpuId, ItemId, Number, PoolId, QueueId, Who, WorkerId};
pub use record::{Booking, Place, Queueing, Start, Ticket};
pub use reply::Reply;
pub use shape::{
    Counts, MOST_ACTIVE, MOST_CALLERS, MOST_CPUS, MOST_ITEMS, MOST_QUEUES, MOST_ROOM, MOST_WORKERS,
    QueueShape, Shape,
};
pub use verdict::{Illegal, Wanted, all_fit};
