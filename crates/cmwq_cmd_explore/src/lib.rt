//! The subcommand `explore`, over any source of bytes and any sinks.
#![tactic(auto)]

mod all;
mod explore;
mod history;
mod path;
mod report;
mod seeds;
mod verdict;
mod watching;

pub use explore::{Seeding, Task, never_both, run_explore, run_follow, run_path};
