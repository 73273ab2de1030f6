//! The books of a work queue runtime: `Book` keeps its history to the end, `TailBook` until its entries are given away.
#![tactic(auto)]

mod answers;
mod book;
mod effects;
mod entering;
mod execution;
mod judge;
mod marks;
mod plan;
mod tail_book;
mod workers;

pub use book::Book;
pub use cmwq_state::{Effect, those_who_fit_are_there};
pub use entering::Told;
pub use execution::{Execution, Full};
pub use judge::{Judge, check};
pub use plan::Plan;
pub use tail_book::{TailBook, Unmade};
