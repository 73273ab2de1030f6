ghost use Rattle.std.specs.List.{list_all};
ghost use Rattle.std.specs.Prelude.{◌≡◌, [], ◌*◌, ◌<◌, ◌≤◌, nat_le, ◌↔◌, ℕ, All, Contains, IfOk, IfSome, IsTrue};
ghost use Rattle.std.specs.Prelude.{is_some, length, replicate, slice_get};
ghost use Rattle.cmwq_flush.specs.ItemNumbers.{IsItemReady, item_waits_for, numbers_open};
ghost use Rattle.cmwq_flush.specs.Colouring.{IsToldByColours};
ghost use Rattle.cmwq_flush.specs.FlushBook.{IsReady, flush_tickets, flushes_with_wait, flushes_without_wait};
ghost use Rattle.cmwq_flush.specs.FlushBook.{is_waited_for, new_book, served_of};
ghost use Rattle.cmwq_flush.specs.Queues.{AreKeptAs, AreQueuesRight, HaveFewServed, HaveServedRoom, books_by};
ghost use Rattle.cmwq_flush.specs.FlushBooks.{CanBegin, CanOpenOn, IsOpenOn, book_in, new_flush_state, with_book};
ghost use Rattle.cmwq_flush.specs.FlushBooks.{with_open, without_open};

use crate::flushes::Flushes;
use crate::limits::TICKETS_OF_CALLER;
use crate::openings::{Openings, Row};
use crate::overflow::Overflow;
use cmwq_model::{ItemId, NoMemory, Number, QueueId};
use std::alloc::{AllocError, Global};
use std::marker::Model;

/// What flushes and drains of all queues wait for, and flushes of items: the open queueings, and the flush book of each
/// queue.
#[derive(Drop)]
pub struct FlushBooks {
    openings: Openings,
    overflow: Overflow,
    queues: Vec<Flushes>,
}

impl Model for FlushBooks {
    ghost use Rattle.std.specs.Prelude.{◌<◌, length};
    ghost use Rattle.cmwq_flush.specs.FlushBooks.{FlushState};
    ghost use Rattle.cmwq_flush.specs.Queues.{AreQueuesRight, books_by};

    ghost Value = { FlushState };

    ghost view = { λ b. record {
      room = b.overflow.room;
      books =
          books_by (length b.openings.opened) b.openings.rows b.overflow.queues b.queues.items;
      opened =
          b.openings.opened;
    } };

    ghost invariant = { λ b. AreQueuesRight (length b.openings.opened) b.openings.rows b.overflow.queues b.queues.items
        × (length b.openings.opened < 65536) };
}

impl FlushBooks {
    /// No open queueing and no flush, of so many queues and items, with room for 64 tickets for each of so many
    /// callers. No later call takes memory; the error says that it ran out.
    pub fn new(alloc: Global, queues: usize, items: u16, callers: u8) -> Result<Self, NoMemory>
        requires { queues < 65535 }
        ensures { IfOk result (λ books. books ≡ new_flush_state queues items callers) }
    {
        let room = TICKETS_OF_CALLER * u32::from(callers);
        Ok(FlushBooks {
            queues: new_queues(alloc, queues)?,
            overflow: Overflow::new(alloc, queues as u16, room)?,
            openings: Openings::new(alloc, queues as u16, items)?,
        })
    }

    /// Makes these books a copy of the others. There are as many queues and items of both, and as much room for flushes
    /// in overflow, so that no memory is taken.
    pub fn copy_from(&mut self, other: &FlushBooks)
        requires room { self.old.room ≡ other.now.room }
        requires queues { length self.old.books ≡ length other.now.books }
        requires items { length self.old.opened ≡ length other.now.opened }
        ensures { self.new ≡ other.now }
    {
        self.openings.copy_from(&other.openings);
        self.overflow.copy_from(&other.overflow);
        copy_queues(&mut self.queues, &other.queues);
    }

    /// A queueing of the item was opened on the queue (`insert_work`, which gives it the current colour).
    pub fn opened(&mut self, queue: QueueId, item: ItemId, number: Number)
        requires can { CanOpenOn self.old queue.0 item.0 number }
        requires few { number < 9223372036854775808 }
        ensures { self.new ≡ with_open self.old queue.0 item.0 number }
    {
        let colour = self.queues[usize::from(queue.0)].opened(number);
        self.openings.open(queue, item, Row { number, colour });
    }

    /// An open queueing of the item has ended (`pwq_dec_nr_in_flight`).
    pub fn ended(&mut self, queue: QueueId, item: ItemId, number: Number)
        requires { IsOpenOn self.old queue.0 item.0 number }
        ensures { self.new ≡ without_open self.old queue.0 item.0 number }
    {
        let colour = self.openings.close(item, number);
        self.queues[usize::from(queue.0)].ended(colour);
    }

    /// The least number that is open of a queue.
    pub fn least_open(&self, queue: QueueId) -> Option<Number>
        requires { queue.0 < length self.now.books }
        ensures first { result ≡ slice_get (book_in self.now.books queue.0).opened 0 }
        ensures least { IfSome result (λ n. All (λ m. n ≤ m) (book_in self.now.books queue.0).opened) }
    {
        self.openings.first(queue)
    }

    /// A flush of the queue begins (`__flush_workqueue` up to its wait): it is served, or in overflow.
    pub fn begin(&mut self, queue: QueueId, ticket: Number)
        requires queue { queue.0 < length self.old.books }
        requires can { CanBegin self.old queue.0 ticket }
        ensures { self.new ≡ with_book self.old queue.0 (flushes_with_wait (book_in self.old.books queue.0) ticket) }
    {
        self.queues[usize::from(queue.0)].begin(&mut self.overflow, queue, ticket);
    }

    /// Whether a flush may end: nothing is open that it waits for. Of a served one that is so exactly where the counts
    /// of its colour and of all older ones are 0 (`nr_in_flight`, of which the kernel waits for one colour after the
    /// other).
    pub fn ready(&self, queue: QueueId, ticket: Number) -> bool
        requires queue { queue.0 < length self.now.books }
        requires stands { Contains (flush_tickets (book_in self.now.books queue.0)) ticket }
        ensures bound { IsTrue result ↔ IsReady (book_in self.now.books queue.0) ticket }
        ensures colours { IsToldByColours (book_in self.now.books queue.0) ticket result }
    {
        let is_empty = self.openings.is_empty(queue);
        self.queues[usize::from(queue.0)].ready(ticket, is_empty)
    }

    /// Whether a flush that stands waits for this number, if that is open of the queue: a served one for what was
    /// opened before it was served, one in overflow for all.
    pub fn is_waited_for(&self, queue: QueueId, ticket: Number, number: Number) -> bool
        requires { queue.0 < length self.now.books }
        ensures { result ≡ is_waited_for (book_in self.now.books queue.0) ticket number }
    {
        self.queues[usize::from(queue.0)].waits_for(ticket, number)
    }

    /// Whether a flush is served. One that stands and isn't is in overflow.
    pub fn is_served(&self, queue: QueueId, ticket: Number) -> bool
        requires { queue.0 < length self.now.books }
        ensures { result ≡ is_some (served_of (book_in self.now.books queue.0) ticket) }
    {
        self.queues[usize::from(queue.0)].is_served(ticket)
    }

    /// A flush that is ready ends (`__flush_workqueue` after its wait). Where it was served, the oldest of the overflow
    /// is served from now on.
    pub fn end(&mut self, queue: QueueId, ticket: Number)
        requires queue { queue.0 < length self.old.books }
        requires stands { Contains (flush_tickets (book_in self.old.books queue.0)) ticket }
        requires is_ready { IsReady (book_in self.old.books queue.0) ticket }
        ensures { self.new ≡ with_book self.old queue.0 (flushes_without_wait (book_in self.old.books queue.0) ticket) }
    {
        self.queues[usize::from(queue.0)].end(&mut self.overflow, queue, ticket);
    }

    /// The least open number that a flush of the item with this ticket waits for: one up to the ticket
    /// (`insert_wq_barrier`).
    pub fn item_waits_for(&self, item: ItemId, ticket: Number) -> Option<Number>
        requires { item.0 < length self.now.opened }
        ensures value { result ≡ item_waits_for self.now.opened item.0 ticket }
        ensures least { IfSome result (λ n. All (λ m. n ≤ m) (numbers_open self.now.opened item.0)) }
    {
        self.openings.of_item(item).first_up_to(ticket)
    }
}

/// What is kept of each queue at first.
fn new_queues(alloc: Global, queues: usize) -> Result<Vec<Flushes>, AllocError>
    ensures { (items : ℕ)
        → IfOk result (λ made. AreQueuesRight items (replicate queues []) (replicate queues []) made.items
        × (books_by items (replicate queues []) (replicate queues []) made.items ≡ replicate queues (new_book items))) }
{
    let mut made = Vec::with_capacity(alloc, queues)?;
    for index in 0..queues {
        made.push_reserved(Flushes::new(alloc)?);
    }
    Ok(made)
}

/// Makes what is kept of each queue a copy of what is kept of another.
fn copy_queues(queues: &mut [Flushes], others: &[Flushes])
    requires many { length queues.old ≡ length others.now }
    requires few { HaveFewServed others.now }
    requires room { HaveServedRoom queues.old }
    ensures { AreKeptAs queues.new others.now }
{
    for index in 0..queues.len() {
        queues[index].copy_from(&others[index]);
    }
}
