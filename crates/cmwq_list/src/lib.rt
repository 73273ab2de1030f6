//! Doubly linked lists of numbered items, by index: an item is in one list at most, and is put in and taken out in a
//! fixed number of steps, however many items and lists there are.
#![tactic(auto)]

mod links;
mod lists;

pub use lists::Lists;
