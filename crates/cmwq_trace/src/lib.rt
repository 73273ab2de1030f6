//! The trace of a history: its shapes as trace events, which are texts in JSON.
#![tactic(auto)]

mod calls;
mod event;
mod events;
mod trace;

pub use event::Event;
pub use events::events_of;
pub use trace::write_trace;
