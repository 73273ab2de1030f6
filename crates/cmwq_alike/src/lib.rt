//! Histories that are alike but for the numbers of their entries. These are theorems over the definitions alone, which
//! no running code needs.
#![tactic(auto)]

mod alike;

pub use alike::{
    alike_go_on, answers_are_alike, others_are_alike, room_is_alike, waits_go_on_alike,
};
