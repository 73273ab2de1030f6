//! Why a wait that is refused could never have ended. These are theorems over the definitions alone, which no running
//! code needs.
#![tactic(auto)]

mod laws;

pub use laws::{deadlocks_last, refused_asleep_too, refused_waits_never_end, waits_may_be_let_go};
