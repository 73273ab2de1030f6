//! Turns: of the threads of a hub one moves at a time, in an order that follows from a seed.
//!
//! No contract speaks of who moves when: what the threads do is right in any order. Tests try that an order comes again
//! under its seed.
#![tactic(auto)]

mod bell;
mod chooser;
mod party;
mod seat;
mod turns;
mod turnstile;

pub use chooser::Schedule;
pub use party::{Awaited, Party, Standing};
pub use seat::Seat;
pub use turnstile::Turnstile;
