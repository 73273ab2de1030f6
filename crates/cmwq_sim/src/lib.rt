//! Scenarios: what a few items on one CPU do, millisecond by millisecond.
#![tactic(auto)]

mod execution;
mod laws;
mod scenario;
mod tables;
mod text;
mod times;

pub use execution::replay;
pub use laws::{all_items_end, each_ends_once};
pub use scenario::{LineKind, Scenario, SimItem, SimQueue, TableLine};
pub use tables::{
    tables_with_intensive, tables_with_one_active, tables_with_three_active, tables_with_two_active,
};
pub use text::spell_lines;
