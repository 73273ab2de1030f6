//! What waits to become active, with the active counts and the pass over it.
#![tactic(auto)]

mod pass;
mod pwqs;
mod rows;
mod waiting;

pub use pass::width_by;
pub use pwqs::Pwqs;
