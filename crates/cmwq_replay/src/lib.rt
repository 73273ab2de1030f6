//! The subcommand `replay`, over any source of bytes and any sinks, and what it reads: a scenario in JSON, or which
//! member of it is refused first.
#![tactic(auto)]

mod replay;
mod scenario;

pub use replay::run_replay;
pub use scenario::{MOST_MS, MOST_PARTS, ScenarioWithNames, read_scenario};
