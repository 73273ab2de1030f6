//! The state of a work queue runtime: its history, and the parts that answer without looking back. Beside it the lists
//! that run on: `Trail`, which keeps its length alone, and `Tail`, which keeps its last items until they are given
//! away.
#![tactic(auto)]

mod apply;
mod effect;
mod new;
mod state;
mod tables;
mod tail;
mod trail;

pub use effect::Effect;
pub use state::State;
pub use tables::those_who_fit_are_there;
pub use tail::Tail;
pub use trail::Trail;
