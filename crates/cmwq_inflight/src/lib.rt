//! The queueings in flight: of each item the one that runs, and the one that hasn't started.
#![tactic(auto)]

mod flights;
mod key;

pub use flights::Flights;
