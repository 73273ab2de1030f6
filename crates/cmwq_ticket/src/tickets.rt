ghost use Rattle.std.specs.Prelude.{◌≡◌, ℕ, ◌<◌, ◌≤◌, ◌↔◌, [], IfOk, IsSome, IsTrue, length, nat_lt, replicate};
ghost use Rattle.std.specs.Prelude.{slice_get, slice_index};
ghost use Rattle.cmwq_ticket.specs.Rows.{any_ticket, count, new_tickets, tickets_without, tickets_with, any_destroys};
ghost use Rattle.cmwq_ticket.specs.Rows.{any_cancels, is_row_crowded, any_drains, may_give, ticket_of_caller};
ghost use Rattle.cmwq_ticket.specs.Rows.{tickets_of_caller};
ghost use Rattle.cmwq_ticket.specs.declared.row.TheConstants.{TICKETS_OF_CALLER};

use crate::counts::{Counts, has_some};
use crate::row::{Row, TICKETS_OF_CALLER};
use cmwq_model::{CallerId, ItemId, NoMemory, Number, QueueId, Ticket};
use std::alloc::Global;
use std::marker::Model;

/// The unended tickets of all callers, a row for each, in the order of their numbers. A caller has 64 at most.
/// Only `new` takes memory.
#[derive(Drop)]
pub struct Tickets {
    items: u16,
    queues: usize,
    rows: Vec<Row>,
    counts: Counts,
    len: u32,
}

impl Model for Tickets {
    ghost use Rattle.cmwq_ticket.specs.Rows.{TicketBook};
    ghost use Rattle.cmwq_ticket.specs.Upkeep.{AreKept};

    ghost Value = { TicketBook };

    ghost view = { λ t. record { items = t.items; queues = t.queues; rows = t.rows.items } };

    ghost invariant = { λ t. AreKept t.items t.queues t.rows.items t.counts t.len };
}

impl Tickets {
    /// No ticket of so many callers, whose calls speak of so many items and queues. The error says that memory ran out.
    pub fn new(alloc: Global, callers: u8, items: u16, queues: usize) -> Result<Self, NoMemory>
        ensures { IfOk result (λ tickets. tickets ≡ new_tickets callers items queues) }
    {
        let counts = Counts::new(alloc, items, queues)?;
        Ok(Tickets {
            items,
            queues,
            rows: new_rows(alloc, callers)?,
            counts,
            len: 0,
        })
    }

    /// Makes these a copy of the others. There are as many callers, items and queues of both, so that no memory is
    /// taken.
    pub fn copy_from(&mut self, other: &Tickets)
        requires callers { length self.old.rows ≡ length other.now.rows }
        requires items { self.old.items ≡ other.now.items }
        requires queues { self.old.queues ≡ other.now.queues }
        ensures { self.new ≡ other.now }
    {
        copy_rows(&mut self.rows, &other.rows);
        self.counts.copy_from(&other.counts);
        self.len = other.len;
    }

    /// How many callers there are. Their numbers are below it.
    pub fn callers(&self) -> u8
        ensures { result ≡ length self.now.rows }
    {
        self.rows.len() as u8
    }

    /// Whether a caller has 64 unended tickets, so that it can be given no more.
    pub fn is_crowded(&self, caller: CallerId) -> bool
        requires { caller.0 < length self.now.rows }
        ensures { result ≡ is_row_crowded self.now.rows caller.0 }
    {
        let row = &self.rows[usize::from(caller.0)];
        row.len() >= TICKETS_OF_CALLER
    }

    /// A caller's unended ticket with this number.
    pub fn find(&self, caller: CallerId, number: Number) -> Option<Ticket>
        requires { caller.0 < length self.now.rows }
        ensures { result ≡ ticket_of_caller self.now.rows caller.0 number }
    {
        let row = &self.rows[usize::from(caller.0)];
        row.find(number)
    }

    /// A caller's unended ticket at this index, in the order of their numbers. None: it has no more.
    pub fn get(&self, caller: CallerId, index: usize) -> Option<Ticket>
        requires { caller.0 < length self.now.rows }
        ensures { result ≡ slice_get (tickets_of_caller self.now.rows caller.0) index }
    {
        let row = &self.rows[usize::from(caller.0)];
        row.get(index)
    }

    /// The unended ticket with this number, of whichever caller.
    pub fn any(&self, number: Number) -> Option<Ticket>
        ensures { result ≡ any_ticket self.now.rows number }
    {
        for row in &self.rows {
            let ticket = row.find(number);
            if ticket.is_some() {
                return ticket;
            }
        }
        None
    }

    /// Whether a cancel_sync of the item is unended (`cancel_work_sync` before its return).
    pub fn is_cancelling(&self, item: ItemId) -> bool
        ensures { result ≡ any_cancels self.now.rows item.0 }
    {
        has_some(self.counts.cancels(), usize::from(item.0))
    }

    /// Whether a destroy of the queue is unended (`__WQ_DESTROYING`).
    pub fn is_being_destroyed(&self, queue: QueueId) -> bool
        ensures { result ≡ any_destroys self.now.rows queue.0 }
    {
        has_some(self.counts.destroys(), usize::from(queue.0))
    }

    /// Whether a drain or a destroy of the queue is unended (`__WQ_DRAINING`).
    pub fn is_draining(&self, queue: QueueId) -> bool
        ensures { result ≡ any_drains self.now.rows queue.0 }
    {
        has_some(self.counts.drains(), usize::from(queue.0))
    }

    /// Of each queue, how many of its drains and destroys are unended.
    pub fn drains(&self) -> &[u16]
        ensures { (q : ℕ) → nat_lt 0 (slice_index result.now q) ≡ any_drains self.now.rows q }
    {
        self.counts.drains()
    }

    /// How many unended tickets there are, of all callers.
    pub fn len(&self) -> u32
        ensures { result ≡ count self.now.rows }
    {
        self.len
    }

    /// Whether no ticket is unended.
    pub fn is_empty(&self) -> bool
        ensures { IsTrue result ↔ (count self.now.rows ≡ 0) }
    {
        self.len == 0
    }

    /// Gives a ticket to its caller, which begins to wait (`flush_workqueue`, `cancel_work_sync` and the like, up to
    /// their wait).
    pub fn give(&mut self, ticket: Ticket)
        requires { IsTrue (may_give self.old ticket) }
        ensures { self.new ≡ tickets_with self.old ticket }
    {
        let row = &mut self.rows[usize::from(ticket.caller.0)];
        row.push(ticket);
        self.counts.raise(ticket.call);
        self.len += 1;
    }

    /// Ends a caller's unended ticket with this number (the return of the call that waits).
    pub fn end(&mut self, caller: CallerId, number: Number)
        requires { IsSome (ticket_of_caller self.old.rows caller.0 number) }
        ensures { self.new ≡ tickets_without self.old caller.0 number }
    {
        let row = &mut self.rows[usize::from(caller.0)];
        let ticket = row.find(number).unwrap();
        row.remove(number);
        self.counts.lower(ticket.call);
        self.len -= 1;
    }
}

/// An empty row for each caller.
fn new_rows(alloc: Global, callers: u8) -> Result<Vec<Row>, NoMemory>
    ensures { IfOk result (λ rows. rows.items ≡ replicate callers []) }
{
    let mut rows = Vec::with_capacity(alloc, usize::from(callers))?;
    for _ in 0..callers {
        rows.push_reserved(Row::new(alloc)?);
    }
    Ok(rows)
}

/// Makes each row a copy of another.
fn copy_rows(rows: &mut [Row], others: &[Row])
    requires many { length rows.old ≡ length others.now }
    requires few { (c : ℕ) → length (tickets_of_caller others.now c) ≤ TICKETS_OF_CALLER }
    ensures { rows.new ≡ others.now }
{
    for caller in 0..rows.len() {
        rows[caller].copy_from(&others[caller]);
    }
}
