//! Services over a hub, for who writes no proofs.
//!
//! A service says what its items do, what each of its callers does, and what comes at the end (`Service`). `run` starts
//! the hub and all threads, joins them, and answers the history. A call whose numbers aren't inside the shape answers a
//! fault and makes no entry, so its caller proves nothing of them.
#![tactic(auto)]

mod builder;
mod client;
mod context;
pub mod crew;
mod fault;
mod outside;
mod running;
mod service;
mod signal;
mod start;
mod writing;

pub use builder::{Misfit, PLAIN, ShapeBuilder};
pub use client::Client;
pub use cmwq_core::check;
pub use cmwq_io::{BufferedSink, FromStd, Memory, Sink, Trouble};
pub use cmwq_model::{
    Call, Counts, CpuId, Entry, ItemId, NoMemory, Number, QueueId, QueueShape, Reply, Shape,
    all_fit,
};
pub use cmwq_rt::{BatchFault, CallerCalls, Calls, Completion, RunCalls, RunFault};
pub use context::Context;
pub use fault::{Awaited, Fault, Stopped};
pub use outside::{Asked, Limit, Outside};
pub use running::{run, run_dropping, run_dropping_with_waits, run_with_waits};
pub use service::Service;
pub use writing::{Unwritten, run_writing, run_writing_with_waits};
