//! The calls of a hub, as methods.
use cmwq_model::{Call, CpuId, ItemId, Number, QueueId, Reply};

/// Makes calls of a hub: a caller with its hub (`HubCaller`), a run (`RunCtx`), and the client and the context of a
/// service do. These methods are the calls that all of them make; `CallerCalls` and `RunCalls` have the others. Each
/// method makes its call by `make` or by `wait`, and promises what that promises. An implementation says which calls it
/// may make, and what they leave of it.
///
/// # Errors
/// A call of one entry fails as `make` does, and a call that waits as `wait` does.
pub trait Calls {
    ghost use Rattle.std.specs.Prelude.{Result};
    ghost use Rattle.cmwq_model.specs.declared.call.Call.{Call};
    ghost use Rattle.cmwq_model.specs.declared.call.Call.TheVariants as calls;
    ghost use Rattle.cmwq_model.specs.declared.reply.Reply.{Reply};

    /// Why a call of one entry fails.
    type Fault;

    /// Why a call that waits fails.
    type WaitFault;

    /// The calls of one entry that it may make.
    ghost may_make: { Call → Type 0 };

    /// The calls by which it may wait.
    ghost may_wait: { Call → Type 0 };

    /// What a call of one entry leaves, as a relation of the state before, the call, its result, and the state after.
    ghost made: { Self → Call → Result Reply Self.Fault → Self → Type 0 };

    /// What a call that waits leaves, as such a relation.
    ghost waited: { Self → Call → Result Reply Self.WaitFault → Self → Type 0 };

    /// Makes a call of one entry. It waits for nothing.
    fn make(&mut self, call: Call) -> Result<Reply, Self::Fault>
        requires { may_make call }
        ensures { made self.old call result self.new };

    /// Makes a whole call: its entry, and those that belong to it. It waits if the reply gives a ticket.
    fn wait(&mut self, call: Call) -> Result<Reply, Self::WaitFault>
        requires { may_wait call }
        ensures { waited self.old call result self.new };

    // Calls of one entry.

    /// Queues an item (`queue_work_on`).
    final fn queue(
        &mut self,
        item: ItemId,
        queue: QueueId,
        cpu: CpuId,
    ) -> Result<Reply, Self::Fault>
        requires { may_make (calls.Queue item queue cpu) }
        ensures { made self.old (calls.Queue item queue cpu) result self.new }
    {
        self.make(Call::Queue { item, queue, cpu })
    }

    /// Queues an item after so many ticks (`queue_delayed_work_on`).
    final fn delay(
        &mut self,
        item: ItemId,
        queue: QueueId,
        cpu: CpuId,
        ticks: u32,
    ) -> Result<Reply, Self::Fault>
        requires { may_make (calls.Delay item queue cpu ticks) }
        ensures { made self.old (calls.Delay item queue cpu ticks) result self.new }
    {
        self.make(Call::Delay {
            item,
            queue,
            cpu,
            ticks,
        })
    }

    /// Queues or delays an item anew (`mod_delayed_work_on`).
    final fn modify(
        &mut self,
        item: ItemId,
        queue: QueueId,
        cpu: CpuId,
        ticks: u32,
    ) -> Result<Reply, Self::Fault>
        requires { may_make (calls.Modify item queue cpu ticks) }
        ensures { made self.old (calls.Modify item queue cpu ticks) result self.new }
    {
        self.make(Call::Modify {
            item,
            queue,
            cpu,
            ticks,
        })
    }

    /// Takes a pending item back (`cancel_work`, `cancel_delayed_work`).
    final fn cancel(&mut self, item: ItemId) -> Result<Reply, Self::Fault>
        requires { may_make (calls.Cancel item) }
        ensures { made self.old (calls.Cancel item) result self.new }
    {
        self.make(Call::Cancel { item })
    }

    // Calls that wait. A run waits for other items and queues than its own.

    /// Waits until the queueings of an item that are open have ended (`flush_work`).
    final fn flush_item(&mut self, item: ItemId) -> Result<Reply, Self::WaitFault>
        requires { may_wait (calls.FlushItem item) }
        ensures { waited self.old (calls.FlushItem item) result self.new }
    {
        self.wait(Call::FlushItem { item })
    }

    /// The same, after queueing the item at once if it is delayed (`flush_delayed_work`).
    final fn flush_delayed(&mut self, item: ItemId) -> Result<Reply, Self::WaitFault>
        requires { may_wait (calls.FlushDelayed item) }
        ensures { waited self.old (calls.FlushDelayed item) result self.new }
    {
        self.wait(Call::FlushDelayed { item })
    }

    /// Takes an item back and waits until it doesn't run (`cancel_work_sync`, `cancel_delayed_work_sync`).
    final fn cancel_sync(&mut self, item: ItemId) -> Result<Reply, Self::WaitFault>
        requires { may_wait (calls.CancelSync item) }
        ensures { waited self.old (calls.CancelSync item) result self.new }
    {
        self.wait(Call::CancelSync { item })
    }

    /// Waits until all that was queued on a queue before has ended (`flush_workqueue`).
    final fn flush(&mut self, queue: QueueId) -> Result<Reply, Self::WaitFault>
        requires { may_wait (calls.Flush queue) }
        ensures { waited self.old (calls.Flush queue) result self.new }
    {
        self.wait(Call::Flush { queue })
    }

    /// Waits until a queue is empty (`drain_workqueue`), and then fires what is due.
    final fn drain(&mut self, queue: QueueId) -> Result<Reply, Self::WaitFault>
        requires { may_wait (calls.Drain queue) }
        ensures { waited self.old (calls.Drain queue) result self.new }
    {
        self.wait(Call::Drain { queue })
    }
}

/// The calls that callers alone make. They fail as those of `Calls` do.
pub trait CallerCalls: Calls {
    ghost use Rattle.cmwq_model.specs.declared.call.Call.TheVariants as calls;

    // Calls of one entry.

    /// Begins to wait for all that is queued on a queue, and doesn't wait: the reply gives the ticket.
    final fn flush_begin(&mut self, queue: QueueId) -> Result<Reply, Self::Fault>
        requires { Self.may_make (calls.Flush queue) }
        ensures { Self.made self.old (calls.Flush queue) result self.new }
    {
        self.make(Call::Flush { queue })
    }

    /// Ends a ticket if it may end (`done`), and else says what it waits for.
    final fn flush_try(&mut self, ticket: Number) -> Result<Reply, Self::Fault>
        requires { Self.may_make (calls.End ticket) }
        ensures { Self.made self.old (calls.End ticket) result self.new }
    {
        self.make(Call::End { ticket })
    }

    /// Sets how many queueings of a queue may be active on one CPU (`workqueue_set_max_active`).
    final fn set_max(&mut self, queue: QueueId, max_active: u32) -> Result<Reply, Self::Fault>
        requires { Self.may_make (calls.SetMax queue max_active) }
        ensures { Self.made self.old (calls.SetMax queue max_active) result self.new }
    {
        self.make(Call::SetMax { queue, max_active })
    }

    /// Lets nothing more become active on freezable queues (`freeze_workqueues_begin`).
    final fn freeze(&mut self) -> Result<Reply, Self::Fault>
        requires { Self.may_make calls.Freeze }
        ensures { Self.made self.old calls.Freeze result self.new }
    {
        self.make(Call::Freeze)
    }

    /// Ends that (`thaw_workqueues`).
    final fn thaw(&mut self) -> Result<Reply, Self::Fault>
        requires { Self.may_make calls.Thaw }
        ensures { Self.made self.old calls.Thaw result self.new }
    {
        self.make(Call::Thaw)
    }

    // Calls of several entries.

    /// Lets so many ticks go by, and then fires what is due: the tick's entry and those of the fires, until there is
    /// nothing to fire or no room, but at most as many as there are items. Others may make entries between the fires if
    /// there are many. The reply is the tick's. Time is the sum of the ticks of all callers and of a service's clock.
    final fn tick(&mut self, ticks: u32) -> Result<Reply, Self::WaitFault>
        requires { Self.may_wait (calls.Tick ticks) }
        ensures { Self.waited self.old (calls.Tick ticks) result self.new }
    {
        self.wait(Call::Tick { ticks })
    }

    /// Waits until a queue is empty, which is then gone (`destroy_workqueue`).
    final fn destroy(&mut self, queue: QueueId) -> Result<Reply, Self::WaitFault>
        requires { Self.may_wait (calls.Destroy queue) }
        ensures { Self.waited self.old (calls.Destroy queue) result self.new }
    {
        self.wait(Call::Destroy { queue })
    }
}

/// The calls that runs alone make, of one entry each. They fail as those of `Calls` do.
pub trait RunCalls: Calls {
    ghost use Rattle.cmwq_model.specs.declared.call.Call.TheVariants as calls;

    /// The run sleeps from now on, so that others of its pool may start (`wq_worker_sleeping`).
    final fn sleep(&mut self) -> Result<Reply, Self::Fault>
        requires { Self.may_make calls.Sleep }
        ensures { Self.made self.old calls.Sleep result self.new }
    {
        self.make(Call::Sleep)
    }

    /// The run goes on (`wq_worker_running`).
    final fn wake(&mut self) -> Result<Reply, Self::Fault>
        requires { Self.may_make calls.Wake }
        ensures { Self.made self.old calls.Wake result self.new }
    {
        self.make(Call::Wake)
    }
}
