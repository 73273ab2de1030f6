//! Laws that no running code needs: of the shapes of a history that charts and traces show, over the definitions alone;
//! that what one subcommand writes another takes; and that waits which are refused would never have ended.
#![tactic(auto)]

mod bars;
mod checks;
mod levels;
mod sleeps;
mod waits;

pub use bars::{bars_are_of_starts, bars_of_a_lane_are_apart, starts_have_one_bar};
pub use checks::{
    legal_histories_are_checked, step_is_checked, steps_pass_check, upgrade_is_checked,
    upgrades_pass_check,
};
pub use levels::{levels_are_alone, levels_are_true, places_have_levels, used_places_are_shown};
pub use sleeps::sleepers_are_asleep;
pub use waits::{circles_never_end, runs_hold_waits, waits_of_a_row_are_apart};
