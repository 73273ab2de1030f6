//! What is read off the other parts, in the words of the definitions.

ghost use Rattle.std.specs.Prelude.{◌≡◌, ◌<◌, Contains, find, length, slice_get};
ghost use Rattle.cmwq_model.specs.declared.id.Who.TheVariants.{Worker};
ghost use Rattle.cmwq_model.specs.Prelude.{IsLegal, past_of, is_active, is_booked_on, is_shut, may_call};
ghost use Rattle.cmwq_model.specs.Prelude.{runs_on, still_open};
ghost use Rattle.cmwq_model.specs.Bookings as bookings;
ghost use Rattle.cmwq_model.specs.Queueings as queueings;
ghost use Rattle.cmwq_model.specs.Runs as runs;
ghost use Rattle.cmwq_model.specs.Tickets as waits;
ghost use Rattle.cmwq_model.specs.Widths as widths;
ghost use Rattle.std.specs.List.{list_any};
ghost use Rattle.cmwq_theory_steps.specs.ItemQueueings.{queueing_run};
ghost use Rattle.cmwq_refinement.specs.Tickets.{tickets_held};
ghost use Rattle.cmwq_refinement.specs.Timers.{item_due, timer_row};
ghost use Rattle.cmwq_state.specs.Flights.{run_open};
ghost use Rattle.cmwq_state.specs.History.{ticket_has_number};
ghost use Rattle.cmwq_state.specs.Pwqs.{AreActiveCounts};
ghost use Rattle.cmwq_state.specs.Tables as tables;

use crate::state::State;
use cmwq_model::{CallerId, ItemId, Number, QueueId, Queueing, Ticket, Who, WorkerId};
use cmwq_pwq::width_by;
use cmwq_timer::Timer;

impl State {
    /// The number of the next entry.
    pub fn number(&self) -> Number
        ensures { result ≡ length (past_of self.now.entries) }
    {
        self.entries.len()
    }

    /// Whether the system is frozen.
    pub fn is_frozen(&self) -> bool
        ensures { result ≡ widths.is_frozen (past_of self.now.entries) }
    {
        self.frozen
    }

    /// How wide a queue is.
    pub fn width(&self, queue: QueueId) -> u32
        requires { queue.0 < length self.now.layout.queues }
        ensures { result ≡ widths.width self.now.layout (past_of self.now.entries) queue.0 }
    {
        width_by(&self.queues, &self.most, self.frozen, queue)
    }

    /// `max_active` of a queue: how wide it is, or will be once it is thawed.
    pub fn max_active(&self, queue: QueueId) -> u32
        requires { queue.0 < length self.now.layout.queues }
        ensures { result ≡ widths.max_active self.now.layout (past_of self.now.entries) queue.0 }
    {
        let most: &[u32] = &self.most;
        most[usize::from(queue.0)]
    }

    /// How many queueings of each queue are active on each CPU: `MOST_CPUS` numbers a queue.
    pub fn active_counts(&self) -> &[u32]
        ensures { AreActiveCounts self.now.layout (past_of self.now.entries) result.now }
    {
        self.pwqs.counts()
    }

    /// Whether an open queueing is active, and so may start or runs. One that isn't waits until fewer are active than
    /// its queue's `max_active` (`inactive_works`).
    pub fn is_active(&self, queueing: Queueing) -> bool
        requires { Contains (still_open (past_of self.now.entries)) queueing }
        ensures { result ≡ is_active self.now.layout (past_of self.now.entries) queueing }
    {
        !self.pwqs.waits(queueing)
    }

    /// What an item runs.
    #[inline(always)]
    pub fn item_run(&self, item: ItemId) -> Option<Queueing>
        requires { item.0 < self.now.layout.items }
        ensures is { result ≡ run_open (past_of self.now.entries) item.0 }
        ensures legal { IsLegal self.now.layout (past_of self.now.entries) }
    {
        self.flights.run(item)
    }

    /// The queueing of an item that hasn't started.
    #[inline(always)]
    pub fn unstarted(&self, item: ItemId) -> Option<Queueing>
        requires { item.0 < self.now.layout.items }
        ensures { result ≡ queueings.unstarted_queueing (past_of self.now.entries) item.0 }
    {
        self.flights.unstarted(item)
    }

    /// The timer of an item's booking.
    pub fn timer(&self, item: ItemId) -> Option<Timer>
        requires { item.0 < self.now.layout.items }
        ensures is { result ≡ timer_row (past_of self.now.entries) item.0 }
        ensures legal { IsLegal self.now.layout (past_of self.now.entries) }
    {
        self.timers.timer(item)
    }

    /// Whether the item is booked.
    pub fn is_booked(&self, item: ItemId) -> bool
        requires { item.0 < self.now.layout.items }
        ensures { result ≡ bookings.is_booked (past_of self.now.entries) item.0 }
    {
        self.timer(item).is_some()
    }

    /// Whether the item is booked, or has a queueing that hasn't started.
    pub fn is_pending(&self, item: ItemId) -> bool
        requires { item.0 < self.now.layout.items }
        ensures { result ≡ queueings.is_pending (past_of self.now.entries) item.0 }
    {
        self.is_booked(item) || self.unstarted(item).is_some()
    }

    /// Whether the item runs on another queue.
    pub fn runs_elsewhere(&self, item: ItemId, queue: QueueId) -> bool
        requires { item.0 < self.now.layout.items }
        ensures { result ≡ queueings.runs_elsewhere (past_of self.now.entries) item.0 queue.0 }
    {
        match self.item_run(item) {
            Some(queueing) => queueing.place.queue.0 != queue.0,
            None => false,
        }
    }

    /// Whether a queueing of the item is open.
    pub fn is_item_open(&self, item: ItemId) -> bool
        requires { item.0 < self.now.layout.items }
        ensures { result ≡ queueings.is_item_open (past_of self.now.entries) item.0 }
    {
        self.item_run(item).is_some() || self.unstarted(item).is_some()
    }

    /// Whether the item runs.
    pub fn is_running(&self, item: ItemId) -> bool
        requires { item.0 < self.now.layout.items }
        ensures { result ≡ runs.item_runs (past_of self.now.entries) item.0 }
    {
        self.item_run(item).is_some()
    }

    /// What a worker runs.
    #[inline(always)]
    pub fn queueing_run(&self, worker: WorkerId) -> Option<Queueing>
        requires { tables.IsThere self.now.layout (Worker worker) }
        ensures { result ≡ queueing_run (past_of self.now.entries) (Worker worker) }
    {
        match self.slot(worker).run {
            Some(task) => self.item_run(task.item),
            None => None,
        }
    }

    /// Whether the queue is gone.
    pub fn is_gone(&self, queue: QueueId) -> bool
        requires { queue.0 < length self.now.layout.queues }
        ensures { result ≡ waits.is_gone (past_of self.now.entries) queue.0 }
    {
        self.gone[usize::from(queue.0)]
    }

    /// Whether a cancel_sync of the item is unended.
    pub fn is_cancelling(&self, item: ItemId) -> bool
        requires { item.0 < self.now.layout.items }
        ensures { result ≡ waits.is_cancelling (past_of self.now.entries) item.0 }
    {
        self.tickets.is_cancelling(item)
    }

    /// Whether a destroy of the queue is unended.
    pub fn is_being_destroyed(&self, queue: QueueId) -> bool
        requires { queue.0 < length self.now.layout.queues }
        ensures { result ≡ waits.is_being_destroyed (past_of self.now.entries) queue.0 }
    {
        self.tickets.is_being_destroyed(queue)
    }

    /// Whether 64 tickets of the caller are unended, as many as it may have.
    pub fn is_crowded(&self, who: Who) -> bool
        requires { tables.IsThere self.now.layout who }
        ensures { result ≡ waits.is_crowded (past_of self.now.entries) who }
    {
        match who {
            Who::Caller(caller) => self.tickets.is_crowded(caller),
            Who::Worker(_) => false,
        }
    }

    /// The unended ticket with this number, where it is this caller's.
    #[inline(always)]
    pub fn ticket_of(&self, who: Who, number: Number) -> Option<Ticket>
        requires { tables.IsThere self.now.layout who }
        ensures is { result ≡ waits.ticket_of (past_of self.now.entries) who number }
        ensures legal { IsLegal self.now.layout (past_of self.now.entries) }
    {
        match who {
            Who::Caller(caller) => self.tickets.find(caller, number),
            Who::Worker(_) => None,
        }
    }

    /// The unended ticket of a caller at this index, in the order in which they were given. None: it has no more.
    pub fn unended(&self, caller: CallerId, index: usize) -> Option<Ticket>
        requires { caller.0 < self.now.layout.callers }
        ensures { result ≡ slice_get (tickets_held (waits.unended_tickets (past_of self.now.entries)) caller.0) index }
    {
        self.tickets.get(caller, index)
    }

    /// The unended ticket with this number.
    pub fn ticket(&self, number: Number) -> Option<Ticket>
        ensures is { result ≡ find (ticket_has_number number) (waits.unended_tickets (past_of self.now.entries)) }
        ensures legal { IsLegal self.now.layout (past_of self.now.entries) }
    {
        self.tickets.any(number)
    }

    /// The item that fires next: of those that are due, on queues that don't drain, the first.
    pub fn first_due(&self) -> Option<ItemId>
        ensures { result ≡ item_due (past_of self.now.entries) }
    {
        self.timers.first_due(self.time, self.tickets.drains())
    }

    /// Whether a drain or a destroy of the queue is unended.
    pub fn is_draining(&self, queue: QueueId) -> bool
        requires { queue.0 < length self.now.layout.queues }
        ensures { result ≡ waits.is_draining (past_of self.now.entries) queue.0 }
    {
        self.tickets.is_draining(queue)
    }

    /// A worker may call only from a run that is awake.
    #[inline(always)]
    pub fn may_call(&self, who: Who) -> bool
        requires { tables.IsThere self.now.layout who }
        ensures { result ≡ may_call (past_of self.now.entries) who }
    {
        match who {
            Who::Caller(_) => true,
            Who::Worker(worker) => self.runs_awake(worker),
        }
    }

    /// Whether it is a worker that runs a queueing of this queue.
    #[inline(always)]
    pub fn runs_on(&self, who: Who, queue: QueueId) -> bool
        requires { tables.IsThere self.now.layout who }
        ensures { result ≡ runs_on (past_of self.now.entries) who queue.0 }
    {
        match who {
            Who::Caller(_) => false,
            Who::Worker(worker) => match self.queueing_run(worker) {
                Some(queueing) => queueing.place.queue.0 == queue.0,
                None => false,
            },
        }
    }

    /// Whether a drain of the queue refuses the call.
    #[inline(always)]
    pub fn is_shut(&self, who: Who, queue: QueueId, ticks: u32) -> bool
        requires there { tables.IsThere self.now.layout who }
        requires queue { queue.0 < length self.now.layout.queues }
        ensures { result ≡ is_shut (past_of self.now.entries) who queue.0 ticks }
    {
        self.is_draining(queue) && (!self.runs_on(who, queue) || 0 < ticks)
    }

    /// Whether an item is booked on the queue.
    pub fn is_booked_on(&self, queue: QueueId) -> bool
        requires { queue.0 < length self.now.layout.queues }
        ensures { result ≡ list_any (is_booked_on queue.0) (bookings.standing_bookings (past_of self.now.entries)) }
    {
        self.timers.is_booked_on(queue)
    }
}
