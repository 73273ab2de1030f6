//! Which runs wait, as a function of the history alone, and that a hub does not hang by itself. These are theorems over
//! the definitions, which no running code needs.
#![tactic(auto)]

mod laws;

pub use laws::{
    allowed_asleep_too, allowed_trap_none, at_rest_none_runs, at_rest_waits_are_deadlock,
    deadlocks_last, entries_go_on, entries_may_trap, entries_trap_none, frozen_premises_are_needed,
    hub_never_hangs, hubs_never_hang, lent_premises_are_needed, lent_tickets_are_waits,
    no_deadlock_comes_up, none_open_all_ready, only_frozen_are_open, over_premises_are_needed,
    over_stays_over, pairs_add_one, premises_are_met, premises_are_needed, refusals_are_refused,
    refused_never_end, sleeps_add_none, unready_stay_unready, waits_are_apart, waits_are_asleep,
    waits_are_few, waits_are_waiting, who_waits,
};
