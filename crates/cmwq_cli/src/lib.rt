//! The command line of `cmwq`: which words there are, what is told of each, and which word a command line asks for.
#![tactic(auto)]

mod command;
mod help;
mod options;
mod table;
mod unclear;
mod word;

pub use word::{Asked, Schedules, Word, word_of};
