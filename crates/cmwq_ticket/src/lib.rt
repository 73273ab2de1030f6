//! The unended tickets of all callers: who waits by which call, and what is being cancelled, drained or destroyed.
#![tactic(auto)]

mod counts;
mod row;
mod tickets;

pub use tickets::Tickets;
