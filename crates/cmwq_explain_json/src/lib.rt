//! What `--explain` tells after a refused scenario or script: which member is wrong, what stands there, and what was
//! expected.
#![tactic(auto)]

mod actions;
mod inputs;
mod members;
mod objects;
mod scripts;
mod used;
mod world;

pub use inputs::{explain_scenario, explain_script};
