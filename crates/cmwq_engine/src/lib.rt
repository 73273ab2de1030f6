//! Runs callers and workers of a hub on threads, and ends the hub when they have ended.
//!
//! A `Crew` says which callers have a thread, what each does, and which are lent to runs that wait; a `Work` says what
//! items do. `run` starts all threads, joins them, and returns what the hub kept of its history, and how many entries
//! all count as theirs. The module
//! `beside` is for a layer above that takes the history while it is made.
#![tactic(auto)]

pub mod beside;
mod crew;
mod ends;
mod gather;
mod running;
mod start;

pub use crew::{Crew, Roster, Shared, lending_for};
pub use ends::{CallerEnd, Calls, RunsWork, WorkerEnd};
pub use gather::{Ends, Tally};
pub use running::run;
