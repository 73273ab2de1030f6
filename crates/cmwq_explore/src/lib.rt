//! The schedules of a script, in one thread: whose move comes next is chosen by a seed, or all choices are tried.
#![tactic(auto)]

mod chance;
mod finding;
mod progress;
mod returns;
mod search;
mod seeds;
mod seen;

pub use chance::{Chooser, play_by};
pub use finding::{Finding, Way};
pub use progress::{Progress, Watch};
pub use returns::{Return, first_return};
pub use search::{Limits, MOST_MOVES, all_end_or_one_is_stuck, search_all, stuck_are_long};
pub use seeds::{Seeds, StuckSeed, Tally, play_seeds};
