//! A script while it is played in one thread: where its parties stand, who may move, and what a move does.
#![tactic(auto)]

mod machine;
mod noted;
mod parties;
mod place;
mod play;
mod setup;
mod waiting;

pub use noted::{ActionId, Misuse, Noted, Unwaited};
pub use parties::{Party, PartyName, Refused};
pub use place::{CallerAt, Doing, RunAt, Ticketed, WorkerAt};
pub use play::{Play, Standing};
pub use setup::Setup;
