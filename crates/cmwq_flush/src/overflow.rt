ghost use Rattle.std.specs.Prelude.{◌≡◌, ◌+◌, ◌<◌, ◌^◌, ◌↔◌, ◌++◌, ◌∷◌, [], All, Contains, IfOk, IsTrue, length};
ghost use Rattle.std.specs.Prelude.{replicate, slice_get};
ghost use Rattle.std.specs.List.{sum_by};
ghost use Rattle.cmwq_list.specs.Lists.{AreListedOnce, lists_with, lists_without};
ghost use Rattle.cmwq_flush.specs.FlushBook.{without_oldest};
ghost use Rattle.cmwq_flush.specs.Numbers.{AreRising, without};
ghost use Rattle.cmwq_flush.specs.Overflow.{first_from, tickets_at, with_tickets};

use cmwq_list::Lists;
use cmwq_model::{Number, QueueId};
use std::alloc::{AllocError, Global};
use std::marker::Model;

/// The list of the nodes that are free.
const FREE: u16 = 0;

/// The flushes in overflow of all queues, in a list for each queue, by age.
#[derive(Drop)]
pub(crate) struct Overflow {
    lists: Lists,
    /// The ticket of each node that isn't free.
    tickets: Vec<Number>,
}

impl Model for Overflow {
    ghost use Rattle.std.specs.Prelude.{length};
    ghost use Rattle.cmwq_flush.specs.Overflow.{AreNodes, OverflowLists, overflow_of};

    ghost Value = { OverflowLists };

    ghost view = { λ o. record { room = length o.tickets.items; queues = overflow_of o.lists.lists o.tickets.items } };

    ghost invariant = { λ o. AreNodes o.lists o.tickets.items };
}

impl Overflow {
    /// No flush of so many queues, and room for so many in all. No later call takes memory.
    pub(crate) fn new(alloc: Global, queues: u16, room: u32) -> Result<Self, AllocError>
        requires queues { queues < 65535 }
        requires nodes { queues + room + 1 < 2 ^ 32 }
        ensures { IfOk result (λ overflow. overflow ≡ record { room = room; queues = replicate queues [] }) }
    {
        let tickets = vec![in alloc; 0; room as usize]?;
        let mut lists = Lists::new(alloc, queues + 1, room)?;
        for place in 0..room {
            lists.push_back(FREE, place);
        }
        Ok(Overflow { lists, tickets })
    }

    /// Makes these flushes a copy of the others, which are of as many queues, with as much room.
    pub(crate) fn copy_from(&mut self, other: &Overflow)
        requires room { self.old.room ≡ other.now.room }
        requires queues { length self.old.queues ≡ length other.now.queues }
        ensures { self.new ≡ other.now }
    {
        self.lists.copy_from(&other.lists);
        self.tickets.copy_from_slice(&other.tickets);
    }

    /// A flush of the queue is in overflow, the youngest of them.
    pub(crate) fn push_back(&mut self, queue: QueueId, ticket: Number)
        requires queue { queue.0 < length self.old.queues }
        requires room { sum_by length self.old.queues < self.old.room }
        ensures { self.new ≡ with_tickets self.old queue.0 (tickets_at self.old.queues queue.0 ++ ticket ∷ []) }
    {
        let node = self.lists.first(FREE).unwrap();
        self.lists.remove(node);
        self.tickets[node as usize] = ticket;
        self.lists.push_back(list_of(queue), node);
    }

    /// Takes out the oldest flush of the queue.
    pub(crate) fn pop_front(&mut self, queue: QueueId) -> Option<Number>
        requires { queue.0 < length self.old.queues }
        ensures oldest { result ≡ slice_get (tickets_at self.old.queues queue.0) 0 }
        ensures rest { self.new ≡ with_tickets self.old queue.0 (without_oldest (tickets_at self.old.queues queue.0)) }
    {
        let node = self.lists.first(list_of(queue))?;
        free(&mut self.lists, node);
        Some(self.tickets[node as usize])
    }

    /// Takes out the queue's flush with this ticket.
    pub(crate) fn remove(&mut self, queue: QueueId, ticket: Number)
        requires queue { queue.0 < length self.old.queues }
        requires rise { AreRising (tickets_at self.old.queues queue.0) }
        requires stands { Contains (tickets_at self.old.queues queue.0) ticket }
        ensures { self.new ≡ with_tickets self.old queue.0 (without ticket (tickets_at self.old.queues queue.0)) }
    {
        let node = first_from(&self.lists, &self.tickets, list_of(queue), ticket).unwrap();
        free(&mut self.lists, node);
    }
}

/// The list of a queue.
fn list_of(queue: QueueId) -> u16
    ensures { result ≡ queue.0 + 1 }
{
    u16::from(queue.0) + 1
}

/// Puts a node among those that are free.
fn free(lists: &mut Lists, node: u32)
    requires node { node < lists.old.items }
    requires some { 0 < length lists.old.lists }
    ensures freed { lists.new ≡ lists_with (lists_without lists.old node) 0 node }
    ensures once { AreListedOnce lists.old }
{
    lists.remove(node);
    lists.push_back(FREE, node);
}

/// The node of the first flush of a list whose ticket isn't before this one.
fn first_from(lists: &Lists, tickets: &[Number], list: u16, ticket: Number) -> Option<u32>
    requires list { list < length lists.now.lists }
    requires many { length tickets.now ≡ lists.now.items }
    ensures first { result ≡ first_from lists.now.lists tickets.now list ticket }
    ensures once { AreListedOnce lists.now }
{
    let mut at = lists.first(list);
    for index in 0..lists.len(list) {
        let node = at?;
        if ticket <= tickets[node as usize] {
            return Some(node);
        }
        at = lists.next(node);
    }
    None
}
