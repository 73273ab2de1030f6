//! All that is shown of a history.

use crate::bars::Bar;
use crate::callers::CallerShapes;
use crate::levels::Level;
use crate::signs::Sign;
use crate::sleeps::Sleep;
use cmwq_model::{Place, WorkerId};

/// All that is shown of a history: what its callers did, the workers that have entries, what they did, the queues on
/// CPUs that had queueings, and how high these stood.
#[derive(Drop)]
pub struct Shapes {
    pub callers: CallerShapes,
    pub lanes: Vec<WorkerId>,
    pub bars: Vec<Bar>,
    pub sleeps: Vec<Sleep>,
    pub signs: Vec<Sign>,
    pub places: Vec<Place>,
    pub levels: Vec<Level>,
}
