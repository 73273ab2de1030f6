//! What a hub keeps under its lock, and the participants of its callers and workers.
#![tactic(auto)]

mod fault;
mod journal;
mod monitor;
mod participant;

pub use cmwq_dispatch::{Dispatch, Firing, Named, Sleep, Stuck, Wakes};
pub use fault::{RunFault, Shortage};
pub use journal::{Journal, Rest};
pub use monitor::{Ended, MOST_FIRES, Monitor, Next};
pub use participant::Participant;
