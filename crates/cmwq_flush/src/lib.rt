//! What flushes and drains wait for: the flush books of queues, and what is open of each item.
#![tactic(auto)]

mod books;
mod flushes;
mod limits;
mod node_rows;
mod openings;
mod overflow;
mod served;

pub use books::FlushBooks;
pub use limits::{MOST_SERVED, TICKETS_OF_CALLER};
pub use served::Served;
