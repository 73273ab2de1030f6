//! A schedule of a script that ends leaves a history which the threads of a run of this script may leave. This is a
//! theorem over the definitions alone, which no running code needs.
#![tactic(auto)]

mod laws;

pub use laws::{
    boards_fire_as_schedules, histories_tell_calls_left_out, schedules_leave_histories,
    scripts_leave_histories,
};
