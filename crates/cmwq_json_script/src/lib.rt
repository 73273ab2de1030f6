//! Reads what a JSON value says of a run on threads: its shape, what each item does and the scripts of its callers, or
//! which member of it is refused first.
#![tactic(auto)]

mod action;
mod argument;
mod caller;
mod item;
mod limits;
mod names;
mod numbering;
mod parts;
mod queue;
mod script;
mod top;
mod used;
mod word;

pub use action::{Action, Actor, Holder};
pub use limits::{callers_in, cpus_in, most_waits, room_in, workers_in};
pub use numbering::MOST_NAMES;
pub use script::{Script, read_script};
pub use top::MOST_KEPT;
pub use word::{Argument, WORDS, Word, word_of};
