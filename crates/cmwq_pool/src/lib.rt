//! The worker pools of all CPUs (the kernel's `worker_pool`): their worklists, their workers, and what these run.
#![tactic(auto)]

mod counts;
mod listing;
mod note;
mod notes;
mod pool_workers;
mod pools;
mod reserve;
mod slot;
mod task;

pub use pools::Pools;
pub use slot::Slot;
pub use task::Task;
