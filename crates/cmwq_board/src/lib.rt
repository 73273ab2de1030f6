//! A hub without threads, as a shell in another language needs it. A shell locks, makes one call, unlocks, and wakes
//! those who are named. It decides nothing.
#![tactic(auto)]

mod beginning;
mod board;
mod calls;
mod entering;
mod fault;
mod firing;
mod item_state;
mod laws;
mod left;
mod lending;
mod news;
mod runs;

pub use board::{Begun, Board, Ended, Finish, Start};
pub use fault::{BoardFault, WaitFault};
pub use item_state::{ItemState, Pending};
pub use laws::waits_that_were_left_refuse_nothing;
pub use lending::Lending;
pub use news::News;
