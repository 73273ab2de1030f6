//! Runs scripts on threads: a thread for each caller, which follows its script, and one for each worker. The history is
//! handed out at the end, or written while it is made.
#![tactic(auto)]

mod crew;
mod run;
mod tested;

pub use cmwq_rt_journal::{Tally as Written, Unwritten};
pub use crew::{CallLists, Scripts, ScriptsCrew};
pub use run::{Report, run_scripts, run_scripts_lending, run_scripts_with_journal};
pub use tested::are_scripts;
