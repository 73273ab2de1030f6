//! Names of items, queues and callers, in place of their numbers in a text.
#![tactic(auto)]

mod escape;
mod form;
mod kind;
mod label;
mod page;
mod texts;

pub use form::Form;
pub use page::with_script;
pub use texts::named;
