//! What waits are for, and what they still wait for.
#![tactic(auto)]

mod waits;

pub use waits::{Goal, WaitedFor, goal_of, waited_for};
