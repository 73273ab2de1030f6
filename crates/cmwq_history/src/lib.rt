//! Histories that are judged while they are read, and what is made of the legal ones.
#![tactic(auto)]

mod check;
mod fold;
mod following;
mod output;
mod step;
mod told;
mod upgrade;
mod verdict;
mod view;

pub use check::{run_check, run_front_check};
pub use fold::{Fold, Kept, Nothing};
pub use following::{Following, Legal};
pub use output::write_history;
pub use step::Step;
pub use told::{refusal_status, tell_full, tell_illegal, tell_no_room};
pub use upgrade::{newest_stay, run_upgrade};
pub use verdict::check_status;
pub use view::{View, run_front_view, run_view};
