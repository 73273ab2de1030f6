//! A hub: an execution shared by threads. Callers make calls, workers run what is queued, and all of it stands in one
//! history.
//!
//! Whoever uses a hub needs this crate alone: it passes on the types of calls, entries and shapes, and `check` with its
//! test `all_fit`. The words that the contracts cite are in `specs::Prelude`.
#![tactic(auto)]

mod batch;
mod caller;
mod calls;
mod completion;
mod condvars;
pub mod ending;
mod follow;
mod gates;
mod hold;
mod hub;
mod left_out;
mod lent;
mod participants;
mod parts;
mod schedule;
pub mod turns;
mod wait_fault;
mod waiting;
mod work;
mod worker;

pub use batch::BatchFault;
pub use caller::{Caller, HubCaller};
pub use calls::{CallerCalls, Calls, RunCalls};
pub use cmwq_core::check;
pub use cmwq_model::{
    Call, CallerId, Counts, CpuId, Entry, Illegal, ItemId, NoMemory, Number, PoolId, QueueId,
    QueueShape, Reply, Shape, Wanted, Who, WorkerId, all_fit,
};
pub use cmwq_monitor::{Journal, Rest, RunFault};
pub use cmwq_publish::HubName;
pub use completion::Completion;
pub use gates::{Gate, Gates};
pub use hub::Hub;
pub use left_out::LeftOut;
pub use lent::{Lent, LentCaller};
pub use participants::Participants;
pub use parts::HubParts;
pub use wait_fault::WaitFault;
pub use work::{RunCtx, Work};
pub use worker::{Worked, Worker};
