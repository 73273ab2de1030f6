//! Writes the history of a hub that runs on as text, batch after batch, while it is made.
#![tactic(auto)]

mod beside;
mod fault;
mod keep;
mod lines;
mod run;

pub use cmwq_engine::Tally;
pub use cmwq_io::Sink;
pub use cmwq_monitor::{Journal, Rest, RunFault};
pub use cmwq_publish::HubName;
pub use cmwq_rt::Hub;
pub use fault::{JournalFault, Unwritten};
pub use keep::{drop_journal, end_journal, keep_journal};
pub use run::run_with_journal;
