//! The word `run`, over any source of bytes and any sinks.
#![tactic(auto)]

mod batch;
mod caller;
mod failure;
mod interpreter;
mod lock_fault;
mod locks;
mod refusals;
mod room;
mod run;

pub use interpreter::Interpreter;
pub use run::run_run;
