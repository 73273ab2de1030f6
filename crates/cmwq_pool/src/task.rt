use cmwq_model::{ItemId, Number};

/// A queueing as its pool sees it: active, and listed until it starts.
#[derive(Clone, Copy)]
pub struct Task {
    pub number: Number,
    pub item: ItemId,
    /// Whether its queue is CPU intensive, so that its run holds nobody back.
    pub intensive: bool,
}
