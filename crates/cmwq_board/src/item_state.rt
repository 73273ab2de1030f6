//! What an item does.

use cmwq_model::{Number, Place, Start};

/// Whether an item is pending, and where.
#[derive(Clone, Copy, Debug)]
pub enum Pending {
    No,
    /// It is delayed, and due at this tick.
    Booked { place: Place, due: u64 },
    /// It is queued, and its queueing has this number.
    Queued { place: Place, number: Number },
}

/// What an item does.
#[derive(Clone, Copy, Debug)]
pub struct ItemState {
    pub pending: Pending,
    /// The worker that runs it, and the number of the queueing that is run.
    pub run: Option<Start>,
}
