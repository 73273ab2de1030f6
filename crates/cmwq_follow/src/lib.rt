//! Which schedule of a script left a history.
#![tactic(auto)]

mod same;
mod search;

pub use search::{Followed, follow};
