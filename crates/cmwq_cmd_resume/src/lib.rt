//! The subcommand `resume`: the calls by which a new history takes over what an old one left.
#![tactic(auto)]

mod resume;
mod spelling;
mod ticks;
mod told;

pub use resume::run_resume;
pub use ticks::Ticks;
