//! The figures of a history, kept while its entries come: none of them looks back.
#![tactic(auto)]

mod activity;
mod counter;
mod counters;
mod givings;
mod key;
mod kind;
mod openings;
mod peaks;
mod span;
mod start_waits;
mod summary;
mod tally;
mod ticket_waits;
mod waits;

pub use activity::Spent;
pub use counter::Counter;
pub use kind::{CALL_KINDS, REPLY_KINDS};
pub use span::Span;
pub use summary::Summary;
pub use waits::{Total, Waited};
