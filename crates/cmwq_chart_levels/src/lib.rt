//! The shapes of a legal history, of what is kept while it is read: its entries, and its levels, which are what is open
//! and active of each queue on each CPU.
#![tactic(auto)]

mod affected;
mod heights;
mod levels;
mod seen;
mod shapes;

pub use seen::Seen;
pub use shapes::shapes_of;
