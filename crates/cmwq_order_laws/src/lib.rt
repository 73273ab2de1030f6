//! In which order a pool starts what is active, and that what keeps a queueing is why it does not start. These are
//! theorems over the definitions alone, which no running code needs.
#![tactic(auto)]

mod laws;
mod reasons;

pub use laws::{
    active_stand, as_many_may_start, few_start_before, items_stay_free, none_overtakes,
    nothing_comes_between, premises_are_needed, starts_take_first,
};
pub use reasons::{
    lacking_start_nothing, nothing_keeps_what_starts, what_is_ahead_starts,
    what_is_kept_does_not_start,
};
