ghost use Rattle.std.specs.Prelude.{◌≡◌, ◌<◌, ◌^◌};

use crate::id::{CpuId, ItemId, Number, QueueId};
use crate::record::{Booking, Place};

/// What a caller or a worker asks of the runtime. Ticks are the unit of time, which callers hand in.
#[derive(Clone, Copy, Debug)]
pub enum Call {
    /// Queues an item (`queue_work_on`).
    Queue {
        item: ItemId,
        queue: QueueId,
        cpu: CpuId,
    },
    /// Queues an item after so many ticks (`queue_delayed_work_on`).
    Delay {
        item: ItemId,
        queue: QueueId,
        cpu: CpuId,
        ticks: u32,
    },
    /// Queues or delays an item anew, whether or not it is pending (`mod_delayed_work_on`).
    Modify {
        item: ItemId,
        queue: QueueId,
        cpu: CpuId,
        ticks: u32,
    },
    /// Takes a pending item back (`cancel_work`, `cancel_delayed_work`).
    Cancel {
        item: ItemId,
    },
    /// Lets so many ticks go by.
    Tick {
        ticks: u32,
    },
    /// Queues the first delayed item that is due (a timer that runs out).
    Fire,
    /// Begins to wait for all that is queued on a queue (`flush_workqueue`).
    Flush {
        queue: QueueId,
    },
    /// Begins to wait until a queue is empty (`drain_workqueue`).
    Drain {
        queue: QueueId,
    },
    /// Begins to wait for the queueings of an item (`flush_work`).
    FlushItem {
        item: ItemId,
    },
    /// The same, after queueing the item at once if it is delayed (`flush_delayed_work`).
    FlushDelayed {
        item: ItemId,
    },
    /// Takes an item back and begins to wait for its run (`cancel_work_sync`).
    CancelSync {
        item: ItemId,
    },
    /// Ends a wait, if it may end (the return of a call that waits).
    End {
        ticket: Number,
    },
    /// Starts the next queueing of the worker's pool (`process_one_work`).
    Take,
    /// Ends the worker's run.
    Finish,
    /// The worker's run sleeps (`wq_worker_sleeping`).
    Sleep,
    /// The worker's run goes on (`wq_worker_running`).
    Wake,
    /// The idle worker asks to leave (`idle_worker_timeout`).
    Retire,
    /// Sets how many queueings of a queue may be active on one CPU (`workqueue_set_max_active`).
    SetMax {
        queue: QueueId,
        max_active: u32,
    },
    /// Lets nothing more become active on freezable queues (`freeze_workqueues_begin`).
    Freeze,
    /// Ends that (`thaw_workqueues`).
    Thaw,
    /// Begins to wait until a queue is empty, which is then gone (`destroy_workqueue`).
    Destroy {
        queue: QueueId,
    },
}

impl Call {
    ghost use Rattle.cmwq_model.specs.Layout.{is_callers, is_workers};
    ghost use Rattle.cmwq_model.specs.Scripted.{is_whole};
    ghost use Rattle.cmwq_model.specs.Calls.{is_drain, is_tick, item_called, item_number, ticks_told};
    ghost use Rattle.cmwq_model.specs.Queueings.{place_called};
    ghost use Rattle.cmwq_model.specs.Bookings.{booked_by};

    /// The item that stands in it.
    pub fn item(self) -> Option<ItemId>
        ensures { item_number result ≡ item_called self }
    {
        match self {
            Call::Queue { item, .. }
            | Call::Delay { item, .. }
            | Call::Modify { item, .. }
            | Call::Cancel { item }
            | Call::FlushItem { item }
            | Call::FlushDelayed { item }
            | Call::CancelSync { item } => Some(item),
            _ => None,
        }
    }

    /// The queue and the CPU that stand in it, of a call that queues or delays.
    pub fn place_called(self) -> Option<Place>
        ensures { result ≡ place_called self }
    {
        match self {
            Call::Queue { queue, cpu, .. }
            | Call::Delay { queue, cpu, .. }
            | Call::Modify { queue, cpu, .. } => Some(Place { queue, cpu }),
            _ => None,
        }
    }

    /// The ticks that it lets go by.
    pub fn ticks(self) -> u32
        ensures ticks { result ≡ ticks_told self }
        ensures small { ticks_told self < 2 ^ 32 }
    {
        match self {
            Call::Tick { ticks } => ticks,
            _ => 0,
        }
    }

    /// The booking that it makes for this tick, as the entry of this number.
    pub fn booked_by(self, number: Number, due: u64) -> Option<Booking>
        ensures { result ≡ booked_by self number due }
    {
        match self {
            Call::Delay {
                item,
                queue,
                cpu,
                ..
            }
            | Call::Modify {
                item,
                queue,
                cpu,
                ..
            } => Some(Booking {
                item,
                place: Place { queue, cpu },
                due,
                number,
            }),
            _ => None,
        }
    }

    /// Whether a script may hold such a call: callers make it, and it neither ends a wait nor fires a timer, which a
    /// whole call does itself.
    pub fn is_whole(&self) -> bool
        ensures { result ≡ is_whole self.now }
    {
        !matches!(self, Call::End { .. } | Call::Fire) && self.is_callers()
    }

    /// Whether it lets time go by.
    pub fn is_tick(self) -> bool
        ensures { result ≡ is_tick self }
    {
        matches!(self, Call::Tick { .. })
    }

    /// Whether it waits until a queue is empty, which is then as before.
    pub fn is_drain(self) -> bool
        ensures { result ≡ is_drain self }
    {
        matches!(self, Call::Drain { .. })
    }

    /// Whether callers make such a call.
    pub fn is_callers(&self) -> bool
        ensures { result ≡ is_callers self.now }
    {
        !matches!(
            self,
            Call::Take | Call::Finish | Call::Sleep | Call::Wake | Call::Retire
        )
    }

    /// Whether workers make such a call.
    pub fn is_workers(&self) -> bool
        ensures { result ≡ is_workers self.now }
    {
        matches!(
            self,
            Call::Queue { .. }
                | Call::Delay { .. }
                | Call::Modify { .. }
                | Call::Cancel { .. }
                | Call::Take
                | Call::Finish
                | Call::Sleep
                | Call::Wake
                | Call::Retire
        )
    }
}
