//! The subcommand `step`: the calls of a file are made, and their history is written, at the end or live.
#![tactic(auto)]

mod live;
mod recording;
mod step;
mod stepping;

pub use live::run_step_live;
pub use step::run_step;
