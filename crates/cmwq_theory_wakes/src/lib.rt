//! Which entries let those who sleep go on: a caller whose wait may end, or a worker that may start something. These
//! are theorems over the definitions alone, which no running code needs.
#![tactic(auto)]

mod pools;
mod rest;
mod steps;
mod waits;

pub use pools::{
    idle_workers_start_alike, pools_stay_attended, runners_are_enlisted,
    starts_are_allowed_by_touches,
};
pub use rest::at_rest_nobody_goes_on;
pub use steps::{none_is_forgotten, reach_suffices};
pub use waits::{flushes_get_ready_in_order, waits_get_ready_by_endings};
