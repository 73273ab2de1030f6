use crate::call::Call;
use crate::id::{CallerId, CpuId, ItemId, Number, QueueId, WorkerId};

/// Where an item is to run.
#[derive(Clone, Copy, Debug)]
pub struct Place {
    pub queue: QueueId,
    pub cpu: CpuId,
}

/// An item that is delayed until a tick. It has the number of its entry.
#[derive(Clone, Copy, Debug)]
pub struct Booking {
    pub item: ItemId,
    pub place: Place,
    pub due: u64,
    pub number: Number,
}

/// An item that was queued. It has the number of its entry.
#[derive(Clone, Copy, Debug)]
pub struct Queueing {
    pub item: ItemId,
    pub place: Place,
    pub number: Number,
}

/// A worker that started a queueing.
#[derive(Clone, Copy, Debug)]
pub struct Start {
    pub worker: WorkerId,
    pub number: Number,
}

/// A wait that a caller began by this call. It has the number of its entry.
#[derive(Clone, Copy, Debug)]
pub struct Ticket {
    pub caller: CallerId,
    pub call: Call,
    pub number: Number,
}
