//! Laws of histories that a user of the runtime relies on: theorems over the definitions alone, which no running code
//! needs.
#![tactic(auto)]

mod before;
mod destroys;
mod fidelity;
mod fitting;
mod headline;
mod illegal;
mod room;
mod sanity;
mod verdicts;

pub use before::{active_are_as_before, legal_are_as_before, none_gone_before};
pub use destroys::{gone_stay_empty, gone_stay_gone};
pub use fidelity::{
    active_are_first, queueings_stand_by_number, replies_name_themselves, runs_are_items,
    tickets_wait_for_least, worklists_are_in_order,
};
pub use fitting::{entries_fit, legal_histories_fit};
pub use headline::{
    active_are_within_width, cancel_syncs_settle, cancelled_stay_idle,
    flushes_end_after_all_before, items_run_in_one_worker, numbers_start_once, only_active_start,
    queueings_start, runs_are_active,
};
pub use illegal::illegal_histories_break_laws;
pub use room::{promised_are_never_full, short_have_time, steps_are_within_room};
pub use sanity::{
    calls_have_one_entry, cancelled_never_start, items_have_one_run, queueings_end_once,
    serials_count_up, steps_are_legal,
};
pub use verdicts::{first_wrong_is_one, wrong_are_illegal};
