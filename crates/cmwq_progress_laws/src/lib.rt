//! A script whose every schedule ends comes to its end, if somebody moves whenever somebody may. These are theorems
//! over the definitions alone, which no running code needs.
#![tactic(auto)]

mod laws;

pub use laws::{
    all_must_end, ended_moved_on, fair_turns_end, moves_are_few, moving_on_ends, premises_may_hold,
    somebody_must_move,
};
