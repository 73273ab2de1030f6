/// A work item (the kernel's `work_struct`).
#[derive(Clone, Copy, Debug, PartialEq, Eq)]
pub struct ItemId(pub u16);

/// A workqueue (the kernel's `workqueue_struct`).
#[derive(Clone, Copy, Debug, PartialEq, Eq)]
pub struct QueueId(pub u8);

/// A CPU. It is a number: no thread is bound to a processor.
#[derive(Clone, Copy, Debug, PartialEq, Eq)]
pub struct CpuId(pub u8);

/// One of the callers that share the runtime.
#[derive(Clone, Copy, Debug, PartialEq, Eq)]
pub struct CallerId(pub u8);

/// The position of an entry in the history, from 0. A queueing or a ticket has the number of the entry that made it.
pub type Number = u64;

/// One of the two worker pools of a CPU (the kernel's `worker_pool`).
#[derive(Clone, Copy, Debug, PartialEq, Eq)]
pub struct PoolId {
    pub cpu: CpuId,
    /// Whether it is the pool of high priority.
    pub high: bool,
}

/// A worker, by its pool and its index there.
#[derive(Clone, Copy, Debug, PartialEq, Eq)]
pub struct WorkerId {
    pub pool: PoolId,
    pub index: u8,
}

/// Who made a call: a caller, or a worker, also for the function that it runs.
#[derive(Clone, Copy, Debug, PartialEq, Eq)]
pub enum Who {
    Caller(CallerId),
    Worker(WorkerId),
}
