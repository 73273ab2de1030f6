//! Calls and replies as numbers.
#![tactic(auto)]

mod numbers;

pub use numbers::{is_same_call, numbers_of_call, numbers_of_reply};
