//! Which runs wait, and for what, so that a wait that could never end is found.
#![tactic(auto)]

mod calls;
mod deadlock;
mod laws;
mod look;
mod run_wait;
mod search;
mod waits;

pub use laws::refusals_are_exact;
pub use run_wait::RunWait;
pub use search::Search;
pub use waits::{RunWaits, Stuck};
