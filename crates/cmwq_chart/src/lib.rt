//! What a picture of a history shows: shapes, each of which one entry and the history that it stands in tell.
#![tactic(auto)]

mod bars;
mod callers;
mod entries;
mod intervals;
mod levels;
mod marks;
mod shapes;
mod signs;
mod sleeps;
mod waits;
mod workers;

pub use bars::Bar;
pub use callers::CallerShapes;
pub use intervals::Intervals;
pub use levels::{Height, Level};
pub use marks::mark;
pub use shapes::Shapes;
pub use signs::{Sign, SignKind};
pub use sleeps::Sleep;
pub use waits::{CallerLane, CallerWait, WaitSign};
