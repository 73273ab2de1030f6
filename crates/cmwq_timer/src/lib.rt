//! The timers of delayed items: which item is booked on which queue for when, and which fires first.
#![tactic(auto)]

mod candidate;
mod timer;
mod timers;
mod tournament;

pub use timer::Timer;
pub use timers::Timers;
