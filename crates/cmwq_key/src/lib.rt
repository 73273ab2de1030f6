//! When two states of a play have the same schedules, and the key by which a search knows such states.
#![tactic(auto)]

mod alike;
mod key;

pub use alike::{
    alike_stands_end_alike, alike_stands_move_alike, loops_never_end, more_moves_end,
    scripts_lead_to_stands, stands_are_alike_to_themselves,
};
pub use key::{Key, KeyWriter, same_keys_are_alike};
