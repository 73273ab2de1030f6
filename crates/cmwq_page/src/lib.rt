//! The page of a history: an HTML file which shows it, with its entries and its shapes as rows of numbers.
#![tactic(auto)]

mod entry;
mod page;
mod row;
mod rows;
mod source;

pub use page::write_page;
