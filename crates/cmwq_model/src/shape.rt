ghost use Rattle.std.specs.Prelude.{◌≡◌, length, nat_lt, IfOk, IfSome, IsTrue, is_some};
ghost use Rattle.std.specs.List.{list_all};
ghost use Rattle.cmwq_model.specs.Layout.{Layout, are_counts, is_queue, are_queues, is_layout, has_numbers, may_make};
ghost use Rattle.cmwq_model.specs.Layout.{fits};

use crate::call::Call;
use crate::error::NoMemory;
use crate::id::{CpuId, ItemId, QueueId, Who};
use std::alloc::Global;
use std::marker::Model;

/// How many CPUs a shape may have.
pub const MOST_CPUS: u8 = 64;

/// How many workers each of its pools may have.
pub const MOST_WORKERS: u8 = 64;

/// How many callers a shape may have.
pub const MOST_CALLERS: u8 = 255;

/// How many items a shape may have.
pub const MOST_ITEMS: u16 = 65_535;

/// How many queues a shape may have.
pub const MOST_QUEUES: usize = 255;

/// How great a queue's max_active may be (`WQ_MAX_ACTIVE`).
pub const MOST_ACTIVE: u16 = 512;

/// How great the room of a shape may be, in entries: 2^62.
pub const MOST_ROOM: u64 = 4_611_686_018_427_387_904;

/// The settings of one queue (the arguments of `alloc_workqueue`).
#[derive(Clone, Copy, Debug, PartialEq, Eq)]
pub struct QueueShape {
    /// The greatest number of active queueings on one CPU.
    pub max_active: u16,
    /// Whether its items run in the pools of high priority (`WQ_HIGHPRI`).
    pub high: bool,
    /// Whether its runs let others start beside them (`WQ_CPU_INTENSIVE`).
    pub intensive: bool,
    /// Whether a freeze stops it (`WQ_FREEZABLE`).
    pub freezable: bool,
}

/// The numbers of CPUs, of workers in each pool, of callers and of items, and the room of a history in entries.
#[derive(Clone, Copy, Debug, PartialEq, Eq)]
pub struct Counts {
    pub cpus: u8,
    pub workers: u8,
    pub callers: u8,
    pub items: u16,
    pub room: u64,
}

impl Counts {
    /// Whether there is one CPU, worker, caller and item at least, and each number is inside its limit, the room too.
    pub fn are_allowed(&self) -> bool
        ensures { result ≡ are_counts self.now.cpus self.now.workers self.now.callers self.now.items self.now.room }
    {
        (1..=MOST_CPUS).contains(&self.cpus)
            && (1..=MOST_WORKERS).contains(&self.workers)
            && (1..=MOST_CALLERS).contains(&self.callers)
            && (1..=MOST_ITEMS).contains(&self.items)
            && self.room <= MOST_ROOM
    }
}

impl QueueShape {
    /// Whether max_active is 1 to `MOST_ACTIVE`.
    pub fn is_allowed(&self) -> bool
        ensures { result ≡ is_queue self.now }
    {
        (1..=MOST_ACTIVE).contains(&self.max_active)
    }
}

/// Whether there is one queue at least and `MOST_QUEUES` at most, each inside its limits.
fn are_allowed(queues: &[QueueShape]) -> bool
    ensures { result ≡ are_queues queues.now }
{
    (1..=MOST_QUEUES).contains(&queues.len()) && are_queues_allowed(queues)
}

fn are_queues_allowed(queues: &[QueueShape]) -> bool
    ensures { result ≡ list_all is_queue queues.now }
{
    queues.iter().all(|queue| queue.is_allowed())
}

/// What a system is made of. Each value keeps the limits.
#[derive(Debug, Drop)]
pub struct Shape {
    counts: Counts,
    queues: Vec<QueueShape>,
}

impl Model for Shape {
    ghost use Rattle.std.specs.Prelude.{IsTrue};
    ghost use Rattle.cmwq_model.specs.Layout.{Layout, layout_of, is_layout};

    ghost Value = { Layout };

    ghost view = { λ a. layout_of a.counts a.queues.items };

    ghost invariant = { λ a. IsTrue (is_layout (layout_of a.counts a.queues.items)) };
}

impl Shape {
    ghost use Rattle.cmwq_model.specs.Layout.{layout_of};

    /// The shape of these counts and queues, if they are inside the limits: the counts', 1 to `MOST_QUEUES` queues, and
    /// each queue's.
    pub fn new(counts: Counts, queues: Vec<QueueShape>) -> Option<Shape>
        ensures allowed { is_some result ≡ is_layout (layout_of counts queues.items) }
        ensures made { IfSome result (λ shape. shape ≡ layout_of counts queues.items) }
    {
        if counts.are_allowed() && are_allowed(&queues) {
            Some(Shape { counts, queues })
        } else {
            None
        }
    }

    /// The numbers that the shape is made of. Like the queues they are inside their limits.
    pub fn counts(&self) -> Counts
        ensures counts { layout_of result self.now.queues ≡ self.now }
        ensures limits { IsTrue (is_layout self.now) }
    {
        self.counts
    }

    /// The settings of each queue, by its number.
    pub fn queues(&self) -> &[QueueShape]
        ensures { result.now ≡ self.now.queues }
    {
        &self.queues
    }

    /// The same shape once more. The error says that memory ran out.
    pub fn copy(&self, alloc: Global) -> Result<Shape, NoMemory>
        ensures { IfOk result (λ shape. shape ≡ self.now) }
    {
        Ok(Shape {
            counts: self.counts,
            queues: self.queues.to_vec(alloc)?,
        })
    }

    fn has_item(&self, item: ItemId) -> bool
        ensures { result ≡ nat_lt item.0 self.now.items }
    {
        item.0 < self.counts.items
    }

    fn has_queue(&self, queue: QueueId) -> bool
        ensures { result ≡ nat_lt queue.0 (length self.now.queues) }
    {
        usize::from(queue.0) < self.queues.len()
    }

    fn has_cpu(&self, cpu: CpuId) -> bool
        ensures { result ≡ nat_lt cpu.0 self.now.cpus }
    {
        cpu.0 < self.counts.cpus
    }

    /// Whether the numbers that stand in a call are inside the shape.
    pub fn has_numbers(&self, call: Call) -> bool
        ensures { result ≡ has_numbers self.now call }
    {
        match call {
            Call::Queue { item, queue, cpu }
            | Call::Delay {
                item,
                queue,
                cpu,
                ..
            }
            | Call::Modify {
                item,
                queue,
                cpu,
                ..
            } => self.has_item(item) && self.has_queue(queue) && self.has_cpu(cpu),
            Call::Cancel { item }
            | Call::FlushItem { item }
            | Call::FlushDelayed { item }
            | Call::CancelSync { item } => self.has_item(item),
            Call::Flush { queue } | Call::Drain { queue } | Call::Destroy { queue } =>
                self.has_queue(queue),
            Call::SetMax { queue, max_active } => self.has_queue(queue) && max_active >= 1,
            Call::Tick { .. }
            | Call::Fire
            | Call::End { .. }
            | Call::Take
            | Call::Finish
            | Call::Sleep
            | Call::Wake
            | Call::Retire
            | Call::Freeze
            | Call::Thaw => true,
        }
    }

    /// Whether the who is inside the shape and makes such calls.
    fn has_who(&self, who: Who, call: Call) -> bool
        ensures { result ≡ may_make self.now who call }
    {
        match who {
            Who::Caller(caller) => caller.0 < self.counts.callers && call.is_callers(),
            Who::Worker(worker) => {
                worker.pool.cpu.0 < self.counts.cpus
                    && worker.index < self.counts.workers
                    && call.is_workers()
            }
        }
    }

    /// Whether this who and every number of the call are inside the shape, and the call is one that such a who makes.
    pub fn fits(&self, who: Who, call: Call) -> bool
        ensures { result ≡ fits self.now who call }
    {
        self.has_who(who, call) && self.has_numbers(call)
    }
}
