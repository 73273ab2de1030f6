//! The decisions of a hub: what its calls return, who sleeps, and who is to be woken. Nothing here waits or takes
//! a lock.
#![tactic(auto)]

mod asking;
mod dispatch;
mod laws;
mod pools;
mod reach;
mod resting;
mod sleepers;
mod waiters;
mod wakes;
mod worker_set;

pub use cmwq_waits::Stuck;
pub use dispatch::{Dispatch, EndPlan, Firing, Sleep};
pub use laws::at_rest_nobody_goes_on;
pub use wakes::{Named, Wakes};
