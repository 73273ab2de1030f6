ghost use Rattle.std.specs.Prelude.{◌≡◌, IsTrue, is_some};

use crate::call::Call;
use crate::id::{ItemId, Number};

/// What a call is answered. Where a number is that of the entry itself, the variant says so by `k`.
#[derive(Clone, Copy, Debug)]
pub enum Reply {
    /// Queued, as queueing `k`.
    Yes(Number),
    /// Delayed until this tick.
    Booked(u64),
    /// Was pending, and is queued anew as queueing `k`.
    Again(Number),
    /// Was pending, and is delayed anew until this tick.
    Rebooked(u64),
    /// Nothing was done: the item is pending, or isn't, as the call wants it.
    No,
    /// The item runs on another queue.
    Foreign,
    /// The queue is being drained.
    Draining,
    /// The call can't be made at this point.
    Misuse,
    /// This queueing, which hadn't started, is cancelled.
    Cancelled(Number),
    /// The delay is cancelled.
    Unbooked,
    /// The tick that it is now.
    Now(u64),
    /// The delayed item is queued, as queueing `k`.
    Fired(ItemId, Number),
    /// There is nothing to do.
    Nothing,
    /// Ticket `k`.
    Ticket(Number),
    /// Ticket `k`, and the delayed item is queued as queueing `k`.
    TicketQueued(Number),
    /// Ticket `k`, and this queueing is cancelled.
    TicketCancelled(Number, Number),
    /// Ticket `k`, and the delay is cancelled.
    TicketUnbooked(Number),
    /// Ticket `k`, and nothing was cancelled.
    TicketNo(Number),
    /// There is nothing to wait for.
    Idle,
    /// The caller has as many unended tickets as it may have.
    Crowded,
    /// The wait has ended.
    Done,
    /// This queueing is still open.
    Waiting(Number),
    /// This queueing starts.
    Started(Number),
    /// This queueing starts, and the worker of this index is enlisted.
    StartedEnlist(Number, u8),
    /// Another run holds the pool.
    Held,
    /// This queueing has finished.
    Finished(Number),
    /// The run sleeps.
    Slept,
    /// The run goes on.
    Woke,
    /// The worker went back to the reserve.
    Retired,
    /// The worker stays.
    Kept,
    /// The queue's max_active is this now.
    Width(u32),
    /// Freezable queues are frozen.
    Frozen,
    /// They are no more.
    Thawed,
    /// The queue is destroyed.
    Gone,
    /// An item is delayed on the queue.
    Timers,
}

impl Reply {
    ghost use Rattle.cmwq_model.specs.Bookings.{is_nothing, settles};
    ghost use Rattle.cmwq_model.specs.Queueings.{opens};
    ghost use Rattle.cmwq_model.specs.Tickets.{gives_ticket, is_done, ticket_told};
    ghost use Rattle.cmwq_model.specs.Widths.{keeps_widths};
    ghost use Rattle.cmwq_model.specs.Workers.{is_retired};
    ghost use Rattle.cmwq_model.specs.Fate.{number_started, number_finished};
    ghost use Rattle.cmwq_model.specs.Kernel.{queue_returns, modify_returns, cancel_returns, cancel_sync_returns};
    ghost use Rattle.cmwq_model.specs.Kernel.{flush_item_returns, kernel_returns};

    /// Whether the entry's item is booked anew, or no more, after it.
    pub fn settles(self) -> bool
        ensures { result ≡ settles self }
    {
        matches!(
            self,
            Reply::Yes(_)
                | Reply::Booked(_)
                | Reply::Again(_)
                | Reply::Rebooked(_)
                | Reply::Unbooked
                | Reply::Fired(_, _)
                | Reply::TicketQueued(_)
                | Reply::TicketUnbooked(_)
        )
    }

    /// Whether the entry opens a queueing.
    pub fn opens(self) -> bool
        ensures { result ≡ opens self }
    {
        matches!(
            self,
            Reply::Yes(_) | Reply::Again(_) | Reply::Fired(_, _) | Reply::TicketQueued(_)
        )
    }

    /// Whether the entry gives a ticket.
    pub fn gives_ticket(self) -> bool
        ensures { result ≡ gives_ticket self }
    {
        matches!(
            self,
            Reply::Ticket(_)
                | Reply::TicketQueued(_)
                | Reply::TicketCancelled(_, _)
                | Reply::TicketUnbooked(_)
                | Reply::TicketNo(_)
        )
    }

    /// The ticket that it gives.
    pub fn ticket(self) -> Option<Number>
        ensures { result ≡ ticket_told self }
    {
        match self {
            Reply::Ticket(ticket)
            | Reply::TicketQueued(ticket)
            | Reply::TicketCancelled(ticket, _)
            | Reply::TicketUnbooked(ticket)
            | Reply::TicketNo(ticket) => Some(ticket),
            _ => None,
        }
    }

    /// Whether a wait has ended.
    pub fn is_done(self) -> bool
        ensures { result ≡ is_done self }
    {
        matches!(self, Reply::Done)
    }

    /// Whether there was nothing to fire.
    pub fn is_nothing(self) -> bool
        ensures { result ≡ is_nothing self }
    {
        matches!(self, Reply::Nothing)
    }

    /// Whether the worker went back to the reserve.
    pub fn is_retired(self) -> bool
        ensures { result ≡ is_retired self }
    {
        matches!(self, Reply::Retired)
    }

    /// Whether the entry changes no queue's width.
    pub fn keeps_widths(self) -> bool
        ensures { result ≡ keeps_widths self }
    {
        !matches!(self, Reply::Width(_) | Reply::Frozen | Reply::Thawed)
    }

    /// The queueing that starts.
    pub fn number_started(self) -> Option<Number>
        ensures { result ≡ number_started self }
    {
        match self {
            Reply::Started(number) | Reply::StartedEnlist(number, _) => Some(number),
            _ => None,
        }
    }

    /// Whether the entry finishes a queueing.
    pub fn is_finish(self) -> bool
        ensures { result ≡ is_some (number_finished self) }
    {
        matches!(self, Reply::Finished(_))
    }

    /// What the kernel's function returns where this is the reply to the call: for queue and delay whether the item was
    /// not pending, for modify, cancel and cancel_sync whether it was, for flush_item and flush_delayed whether there
    /// was something to wait for. None of all other calls and replies.
    pub fn kernel(&self, call: Call) -> Option<bool>
        ensures { result ≡ kernel_returns call self.now }
    {
        match call {
            Call::Queue { .. } | Call::Delay { .. } => self.as_queued(),
            Call::Modify { .. } => self.as_modified(),
            Call::Cancel { .. } => self.as_cancelled(),
            Call::CancelSync { .. } => self.as_cancelled_sync(),
            Call::FlushItem { .. } | Call::FlushDelayed { .. } => self.as_flushed(),
            _ => None,
        }
    }

    /// Whether the other reply is this one.
    pub fn is_same(self, other: Reply) -> bool
        ensures same { IsTrue result → self ≡ other }
        ensures differs { self ≡ other → IsTrue result }
    {
        match self {
            Reply::Yes(k) => matches!(other, Reply::Yes(n) if n == k),
            Reply::Booked(due) => matches!(other, Reply::Booked(tick) if tick == due),
            Reply::Again(k) => matches!(other, Reply::Again(n) if n == k),
            Reply::Rebooked(due) => matches!(other, Reply::Rebooked(tick) if tick == due),
            Reply::No => matches!(other, Reply::No),
            Reply::Foreign => matches!(other, Reply::Foreign),
            Reply::Draining => matches!(other, Reply::Draining),
            Reply::Misuse => matches!(other, Reply::Misuse),
            Reply::Cancelled(n) => matches!(other, Reply::Cancelled(m) if m == n),
            Reply::Unbooked => matches!(other, Reply::Unbooked),
            Reply::Now(now) => matches!(other, Reply::Now(tick) if tick == now),
            Reply::Fired(item, k) => matches!(other, Reply::Fired(i, n) if i.0 == item.0 && n == k),
            Reply::Nothing => matches!(other, Reply::Nothing),
            Reply::Ticket(k) => matches!(other, Reply::Ticket(n) if n == k),
            Reply::TicketQueued(k) => matches!(other, Reply::TicketQueued(n) if n == k),
            Reply::TicketCancelled(k, n) => {
                matches!(other, Reply::TicketCancelled(j, m) if j == k && m == n)
            }
            Reply::TicketUnbooked(k) => matches!(other, Reply::TicketUnbooked(n) if n == k),
            Reply::TicketNo(k) => matches!(other, Reply::TicketNo(n) if n == k),
            Reply::Idle => matches!(other, Reply::Idle),
            Reply::Crowded => matches!(other, Reply::Crowded),
            Reply::Done => matches!(other, Reply::Done),
            Reply::Waiting(n) => matches!(other, Reply::Waiting(m) if m == n),
            Reply::Started(n) => matches!(other, Reply::Started(m) if m == n),
            Reply::StartedEnlist(n, index) => {
                matches!(other, Reply::StartedEnlist(m, i) if m == n && i == index)
            }
            Reply::Held => matches!(other, Reply::Held),
            Reply::Finished(n) => matches!(other, Reply::Finished(m) if m == n),
            Reply::Slept => matches!(other, Reply::Slept),
            Reply::Woke => matches!(other, Reply::Woke),
            Reply::Retired => matches!(other, Reply::Retired),
            Reply::Kept => matches!(other, Reply::Kept),
            Reply::Width(n) => matches!(other, Reply::Width(width) if width == n),
            Reply::Frozen => matches!(other, Reply::Frozen),
            Reply::Thawed => matches!(other, Reply::Thawed),
            Reply::Gone => matches!(other, Reply::Gone),
            Reply::Timers => matches!(other, Reply::Timers),
        }
    }

    fn as_queued(&self) -> Option<bool>
        ensures { result ≡ queue_returns self.now }
    {
        match self {
            Reply::Yes(_) | Reply::Booked(_) => Some(true),
            Reply::No => Some(false),
            _ => None,
        }
    }

    fn as_modified(&self) -> Option<bool>
        ensures { result ≡ modify_returns self.now }
    {
        match self {
            Reply::Again(_) | Reply::Rebooked(_) => Some(true),
            Reply::Yes(_) | Reply::Booked(_) => Some(false),
            _ => None,
        }
    }

    fn as_cancelled(&self) -> Option<bool>
        ensures { result ≡ cancel_returns self.now }
    {
        match self {
            Reply::Cancelled(_) | Reply::Unbooked => Some(true),
            Reply::No => Some(false),
            _ => None,
        }
    }

    fn as_cancelled_sync(&self) -> Option<bool>
        ensures { result ≡ cancel_sync_returns self.now }
    {
        match self {
            Reply::TicketCancelled(_, _) | Reply::TicketUnbooked(_) => Some(true),
            Reply::TicketNo(_) => Some(false),
            _ => None,
        }
    }

    fn as_flushed(&self) -> Option<bool>
        ensures { result ≡ flush_item_returns self.now }
    {
        match self {
            Reply::Ticket(_) | Reply::TicketQueued(_) => Some(true),
            Reply::Idle => Some(false),
            _ => None,
        }
    }
}
