//! A script whose every schedule ends cannot leave the threads of a hub asleep for ever. These are theorems over the
//! definitions alone, which no running code needs.
#![tactic(auto)]

mod laws;

pub use laws::{
    no_caller_is_left_asleep, premises_are_needed, sleepers_are_done, sleepers_are_stuck,
    sleepers_may_not_move, some_sleep_for_ever,
};
