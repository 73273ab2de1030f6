//! The subcommands that show a history: `chart`, `page`, `trace`, `summary` and `open`, over any source of bytes and
//! any sinks.
#![tactic(auto)]

mod beginnings;
mod chart;
mod deed;
mod history_page;
mod lent;
mod name;
mod number;
mod open;
mod page;
mod progress;
mod row;
mod rows;
mod since;
mod standing;
mod summary;
mod table;
mod trace;
mod write;

pub use chart::run_chart;
pub use cmwq_chart_text::Window;
pub use history_page::run_page;
pub use name::kinds_are_named;
pub use open::run_open;
pub use summary::run_summary;
pub use trace::run_trace;
