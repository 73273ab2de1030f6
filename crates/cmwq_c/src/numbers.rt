//! Shapes, callers, calls, replies and entries as C writes them.
ghost use Rattle.std.specs.Prelude.{◌≡◌, map, IfOk};
ghost use Rattle.cmwq_c.specs.Numbers.{counts_of_numbers, queue_of_numbers, worker_of_numbers, who_of_numbers};
ghost use Rattle.cmwq_c.specs.Numbers.{call_of_numbers, asked_of, worker_meant};

use cmwq_model::{
    Call, CallerId, Counts, CpuId, ItemId, NoMemory, PoolId, QueueId, QueueShape, Who, WorkerId,
};
use std::alloc::Global;
use std::mem::size_of;

/// The numbers of a shape; `keep` is how many entries are kept at once at most.
#[repr(C)]
#[derive(Clone, Copy)]
pub struct ShapeNumbers {
    pub room: u64,
    pub keep: u32,
    pub items: u16,
    pub cpus: u8,
    pub workers: u8,
    pub callers: u8,
}

/// The settings of a queue. A flag is set where it isn't 0.
#[repr(C)]
#[derive(Clone, Copy)]
pub struct QueueNumbers {
    pub max_active: u16,
    pub high: u8,
    pub intensive: u8,
    pub freezable: u8,
}

/// Who calls: caller `index`, or a worker of `cpu`'s normal or high pool.
#[repr(C)]
#[derive(Clone, Copy)]
pub struct WhoNumbers {
    pub kind: u8,
    pub index: u8,
    pub cpu: u8,
}

/// A call. What a kind doesn't need isn't read.
#[repr(C)]
#[derive(Clone, Copy)]
pub struct CallNumbers {
    pub ticket: u64,
    pub number: u32,
    pub item: u16,
    pub kind: u8,
    pub queue: u8,
    pub cpu: u8,
    pub who: WhoNumbers,
}

/// A reply. What a kind doesn't have is 0.
#[repr(C)]
#[derive(Clone, Copy)]
pub struct ReplyNumbers {
    pub number: u64,
    pub other: u64,
    pub item: u16,
    pub kind: u8,
}

/// An entry.
#[repr(C)]
#[derive(Clone, Copy)]
pub struct EntryNumbers {
    pub serial: u64,
    pub call: CallNumbers,
    pub reply: ReplyNumbers,
}

/// Whom to wake. Those that are named stand first, and the first that is nobody ends them.
#[repr(C)]
#[derive(Clone, Copy)]
pub struct WakesNumbers {
    pub workers: [WhoNumbers; 8],
    pub callers: [u8; 8],
    pub all_workers: u8,
    pub all_callers: u8,
    pub clock: u8,
}

/// What an item does. What it doesn't have is 0.
#[repr(C)]
#[derive(Clone, Copy)]
pub struct ItemNumbers {
    pub number: u64,
    pub run: u64,
    pub pending: u8,
    pub queue: u8,
    pub cpu: u8,
    pub runs: u8,
    pub worker: WhoNumbers,
}

// the sizes that cmwq.h asserts too
const _: () = prove!(size_of::<ShapeNumbers>() == 24);

const _: () = prove!(size_of::<QueueNumbers>() == 6);

const _: () = prove!(size_of::<WhoNumbers>() == 3);

const _: () = prove!(size_of::<CallNumbers>() == 24);

const _: () = prove!(size_of::<ReplyNumbers>() == 24);

const _: () = prove!(size_of::<EntryNumbers>() == 56);

const _: () = prove!(size_of::<WakesNumbers>() == 35);

const _: () = prove!(size_of::<ItemNumbers>() == 24);

impl QueueNumbers {
    fn shape(&self) -> QueueShape
        ensures { result ≡ queue_of_numbers self.now }
    {
        QueueShape {
            max_active: self.max_active,
            high: self.high != 0,
            intensive: self.intensive != 0,
            freezable: self.freezable != 0,
        }
    }
}

/// The queues of these numbers. The error says that memory ran out.
pub fn queues_of(alloc: Global, queues: &[QueueNumbers]) -> Result<Vec<QueueShape>, NoMemory>
    ensures { IfOk result (λ made. made.items ≡ map queue_of_numbers queues.now) }
{
    let mut made = Vec::with_capacity(alloc, queues.len())?;
    for queue in queues {
        made.push_reserved(queue.shape());
    }
    Ok(made)
}

impl ShapeNumbers {
    /// The counts of a shape.
    pub fn counts(&self) -> Counts
        ensures { result ≡ counts_of_numbers self.now }
    {
        Counts {
            cpus: self.cpus,
            workers: self.workers,
            callers: self.callers,
            items: self.items,
            room: self.room,
        }
    }
}

impl WhoNumbers {
    fn worker(&self, high: bool) -> Who
        ensures { result ≡ worker_of_numbers high self.now }
    {
        let cpu = CpuId(self.cpu);
        let pool = PoolId { cpu, high };
        Who::Worker(WorkerId {
            pool,
            index: self.index,
        })
    }

    /// The worker that these numbers mean, if they mean one.
    pub fn worker_meant(&self) -> Option<WorkerId>
        ensures { result ≡ worker_meant self.now }
    {
        match self.who() {
            Some(Who::Worker(worker)) => Some(worker),
            _ => None,
        }
    }

    /// Who these numbers mean, if they mean one.
    pub fn who(&self) -> Option<Who>
        ensures { result ≡ who_of_numbers self.now }
    {
        match self.kind {
            0 => Some(Who::Caller(CallerId(self.index))),
            1 => Some(self.worker(false)),
            2 => Some(self.worker(true)),
            _ => None,
        }
    }
}

impl CallNumbers {
    /// Which call these numbers mean, if they mean one.
    #[tactic(auto, unfolding(crate::specs::Numbers::call_of_numbers))]
    pub fn call(&self) -> Option<Call>
        ensures { result ≡ call_of_numbers self.now }
    {
        let item = ItemId(self.item);
        let queue = QueueId(self.queue);
        let cpu = CpuId(self.cpu);
        let ticks = self.number;
        match self.kind {
            0 => Some(Call::Queue { item, queue, cpu }),
            1 => Some(Call::Delay {
                item,
                queue,
                cpu,
                ticks,
            }),
            2 => Some(Call::Modify {
                item,
                queue,
                cpu,
                ticks,
            }),
            3 => Some(Call::Cancel { item }),
            4 => Some(Call::Tick { ticks }),
            5 => Some(Call::Fire),
            6 => Some(Call::Flush { queue }),
            7 => Some(Call::Drain { queue }),
            8 => Some(Call::FlushItem { item }),
            9 => Some(Call::FlushDelayed { item }),
            10 => Some(Call::CancelSync { item }),
            11 => Some(Call::End {
                ticket: self.ticket,
            }),
            12 => Some(Call::Take),
            13 => Some(Call::Finish),
            14 => Some(Call::Sleep),
            15 => Some(Call::Wake),
            16 => Some(Call::Retire),
            17 => Some(Call::SetMax {
                queue,
                max_active: ticks,
            }),
            18 => Some(Call::Freeze),
            19 => Some(Call::Thaw),
            20 => Some(Call::Destroy { queue }),
            _ => None,
        }
    }

    /// Who calls what, if the numbers mean a call.
    pub fn asked(&self) -> Option<(Who, Call)>
        ensures { result ≡ asked_of self.now }
    {
        match (self.who.who(), self.call()) {
            (Some(who), Some(call)) => Some((who, call)),
            _ => None,
        }
    }
}
