//! What a ticket still waits for.

ghost use Rattle.std.specs.Prelude.{◌≡◌, ◌<◌, Contains, is_some, length, true};
ghost use Rattle.cmwq_model.specs.declared.call.Call.TheVariants as call;
ghost use Rattle.cmwq_model.specs.Prelude.{has_numbers, holds_up, past_of, is_flush_of, unended_tickets};
ghost use Rattle.cmwq_model.specs.Prelude.{serving_from, waits_for};
ghost use Rattle.cmwq_state.specs.Waits.{IsOpenOrNext, IsUnendedOrNext};

use crate::state::State;
use cmwq_model::{Call, ItemId, Number, QueueId, Queueing, Ticket};

impl State {
    fn flush_waits_for(&self, queue: QueueId, ticket: Ticket) -> Option<Number>
        requires queue { queue.0 < length self.now.layout.queues }
        requires flush { is_flush_of queue.0 ticket ≡ true }
        requires unended { Contains (unended_tickets (past_of self.now.entries)) ticket }
        ensures { result ≡ waits_for (past_of self.now.entries) ticket.number (call.Flush queue) }
    {
        if self.books.ready(queue, ticket.number) {
            None
        } else {
            self.books.least_open(queue)
        }
    }

    /// The same of a flush of the queue.
    fn flush_is_held_up(&self, queue: QueueId, ticket: Ticket, queueing: Queueing) -> bool
        requires queue { queue.0 < length self.now.layout.queues }
        requires flush { is_flush_of queue.0 ticket ≡ true }
        requires unended { IsUnendedOrNext (past_of self.now.entries) ticket }
        requires open { IsOpenOrNext (past_of self.now.entries) queueing }
        ensures { result ≡ holds_up (past_of self.now.entries) ticket.number (call.Flush queue) queueing }
    {
        queueing.place.queue.0 == queue.0
            && (ticket.number == self.number()
                || self
                    .books
                    .is_waited_for(queue, ticket.number, queueing.number))
    }

    /// Whether an unended ticket waits for an open queueing, where the ticket may be the next to be given, and the
    /// queueing the next to be opened. What a cancel_sync waits for is the item's run.
    pub fn holds_up(&self, ticket: Ticket, queueing: Queueing) -> bool
        requires there { has_numbers self.now.layout ticket.call ≡ true }
        requires unended { IsUnendedOrNext (past_of self.now.entries) ticket }
        requires open { IsOpenOrNext (past_of self.now.entries) queueing }
        ensures { result ≡ holds_up (past_of self.now.entries) ticket.number ticket.call queueing }
    {
        match ticket.call {
            Call::Flush { queue } => self.flush_is_held_up(queue, ticket, queueing),
            Call::Drain { queue } | Call::Destroy { queue } => { queueing.place.queue.0 == queue.0 }
            Call::FlushItem { item } | Call::FlushDelayed { item } => {
                queueing.item.0 == item.0 && queueing.number <= ticket.number
            }
            _ => false,
        }
    }

    /// Whether an unended flush of the queue is served. Else it is in overflow.
    pub fn is_flush_served(&self, queue: QueueId, ticket: Ticket) -> bool
        requires queue { queue.0 < length self.now.layout.queues }
        requires flush { is_flush_of queue.0 ticket ≡ true }
        requires unended { Contains (unended_tickets (past_of self.now.entries)) ticket }
        ensures { result ≡ is_some (serving_from (past_of self.now.entries) queue.0 ticket.number) }
    {
        self.books.is_served(queue, ticket.number)
    }

    /// The number of what an item runs.
    fn run_number(&self, item: ItemId) -> Option<Number>
        requires { item.0 < self.now.layout.items }
        ensures { result ≡ waits_for (past_of self.now.entries) 0 (call.CancelSync item) }
    {
        match self.item_run(item) {
            Some(queueing) => Some(queueing.number),
            None => None,
        }
    }

    /// What an unended ticket still waits for.
    pub fn waits_for(&self, ticket: Ticket) -> Option<Number>
        requires there { has_numbers self.now.layout ticket.call ≡ true }
        requires unended { Contains (unended_tickets (past_of self.now.entries)) ticket }
        ensures { result ≡ waits_for (past_of self.now.entries) ticket.number ticket.call }
    {
        match ticket.call {
            Call::Flush { queue } => self.flush_waits_for(queue, ticket),
            Call::Drain { queue } | Call::Destroy { queue } => self.books.least_open(queue),
            Call::FlushItem { item } | Call::FlushDelayed { item } => {
                self.books.item_waits_for(item, ticket.number)
            }
            Call::CancelSync { item } => self.run_number(item),
            _ => None,
        }
    }
}
