//! Why what is queued has not started.
#![tactic(auto)]

mod firsts;
mod keeper;
mod obstacle;
mod places;

pub use firsts::Firsts;
pub use keeper::keeper_of;
pub use obstacle::{Obstacle, obstacle_of};
