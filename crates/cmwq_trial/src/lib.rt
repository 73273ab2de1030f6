//! Trials of a service: its threads move one at a time, in an order that follows from a seed.
//!
//! `trial` runs a service once, and `trials` under many seeds. It is the service that runs on threads, unchanged, and
//! what `run_with_waits` promises holds of each trial. The same seed gives the same history. Where nobody may move any
//! more, the trial tells who waits for what.
#![tactic(auto)]

mod awaits;
mod counting;
mod failure;
mod party;
mod progress;
mod seeds;
mod trying;
mod watch;

pub use awaits::{Awaits, Wanted};
pub use cmwq_history::write_history;
pub use cmwq_turns::Schedule;
pub use counting::Trials;
pub use failure::{Failure, Tried};
pub use party::{Doing, Party, Role};
pub use progress::Progress;
pub use seeds::trials;
pub use trying::{Setup, UNIFORM, trial, trial_with};
