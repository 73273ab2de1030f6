ghost use Rattle.std.specs.Prelude.{◌≡◌, ℕ, ◌+◌, List, ◌∷◌, ◌++◌, [], ◌<◌, ◌≤◌, ◌==◌, ◌↔◌, All, Contains, IfOk, IsTrue};
ghost use Rattle.std.specs.Prelude.{is_some, length, slice_index, take, vec_capacity, vec_len};
ghost use Rattle.std.specs.List.{list_all, remove, sum_by};
ghost use Rattle.std.specs.List.Sorted.{IsNonDecreasingBy};
ghost use Rattle.cmwq_flush.specs.declared.openings.Row.{Row};
ghost use Rattle.cmwq_flush.specs.FlushBook.{CanOpen, IsLatestFlush, IsReady, flush_tickets, flushes_with_open};
ghost use Rattle.cmwq_flush.specs.FlushBook.{flushes_with_wait, flushes_without_open, flushes_without_wait, new_book};
ghost use Rattle.cmwq_flush.specs.FlushBook.{is_waited_for, served_of, served_with_oldest, without_oldest};
ghost use Rattle.cmwq_flush.specs.Colouring.{AreUnused, IsColouring, IsToldByColours, WaitsForNothing};
ghost use Rattle.cmwq_flush.specs.Overflow.{tickets_at, with_tickets};
ghost use Rattle.cmwq_flush.specs.Rows.{IsTally, without_row};
ghost use Rattle.cmwq_flush.specs.Served.{bound_of};

use crate::limits::{COLOURS, MOST_SERVED};
use crate::openings::Colour;
use crate::overflow::Overflow;
use crate::served::{Served, find_served};
use cmwq_model::{Number, QueueId};
use std::alloc::{AllocError, Global};

/// The flushes of a queue that are served, with how many of its open queueings have each colour. At most 15 flushes are
/// served at once; others are in overflow until an older one ends.
#[derive(Drop)]
pub(crate) struct Flushes {
    pub(crate) next: u64,
    pub(crate) counts: [u32; COLOURS],
    pub(crate) served: Vec<Served>,
    /// The colours of the served flushes, then the current one, then those that are free.
    pub(crate) colours: [Colour; COLOURS],
}

impl Flushes {
    ghost use Rattle.cmwq_flush.specs.Queues.{IsKeptAs, IsQueueRight, book_by};
    ghost use Rattle.cmwq_flush.specs.declared.limits.TheConstants.{MOST_SERVED};

    /// No flush.
    pub(crate) fn new(alloc: Global) -> Result<Self, AllocError>
        ensures { (items : ℕ)
            → IfOk result (λ f. IsQueueRight items [] [] f × (book_by items [] [] f ≡ new_book items)) }
    {
        Ok(Flushes {
            next: 0,
            counts: [0; COLOURS],
            served: Vec::with_capacity(alloc, MOST_SERVED)?,
            colours: [0, 1, 2, 3, 4, 5, 6, 7, 8, 9, 10, 11, 12, 13, 14, 15],
        })
    }

    /// Makes these a copy of another queue's. There is room for as many served flushes as there may be.
    pub(crate) fn copy_from(&mut self, other: &Flushes)
        requires few { length other.now.served.items ≤ MOST_SERVED }
        requires room { MOST_SERVED ≤ vec_capacity self.old.served }
        ensures { IsKeptAs self.new other.now }
    {
        self.next = other.next;
        self.counts = other.counts;
        self.served.clear();
        self.served.extend_from_slice(&other.served).unwrap();
        self.colours = other.colours;
    }

    /// A queueing of this number was opened. It has the current colour, which is answered.
    pub(crate) fn opened(&mut self, number: Number) -> Colour
        requires { (items : ℕ) × (rows : List Row) × (overflow : List ℕ) × IsQueueRight items rows overflow self.old
            × CanOpen (book_by items rows overflow self.old) number × (items < 65536) × (number < 9223372036854775808) }
        ensures { (items : ℕ) (rows : List Row) (overflow : List ℕ) → IsQueueRight items rows overflow self.old
            → CanOpen (book_by items rows overflow self.old) number
            → IsQueueRight items (rows ++ (record { number = number; colour = result }) ∷ []) overflow self.new
            × (book_by items (rows ++ (record { number = number; colour = result }) ∷ []) overflow self.new
            ≡ flushes_with_open (book_by items rows overflow self.old) number) }
    {
        let colour = self.colours[self.served.len()];
        self.counts[usize::from(colour)] += 1;
        self.next = number + 1;
        colour
    }

    /// An open queueing of this colour has ended.
    pub(crate) fn ended(&mut self, colour: Colour)
        requires { (items : ℕ) × (rows : List Row) × (overflow : List ℕ) × (n : ℕ)
            × IsQueueRight items rows overflow self.old × Contains rows (record { number = n; colour = colour }) }
        ensures { (items : ℕ) (rows : List Row) (overflow : List ℕ) (n : ℕ) → IsQueueRight items rows overflow self.old
            → Contains rows (record { number = n; colour = colour })
            → IsQueueRight items (without_row n rows) overflow self.new
            × (book_by items (without_row n rows) overflow self.new
            ≡ flushes_without_open (book_by items rows overflow self.old) n) }
    {
        self.counts[usize::from(colour)] -= 1;
    }

    /// A flush of this queue begins: it is served, or in overflow.
    pub(crate) fn begin(&mut self, overflow: &mut Overflow, queue: QueueId, ticket: Number)
        requires queue { queue.0 < length overflow.old.queues }
        requires room { sum_by length overflow.old.queues < overflow.old.room }
        requires right { (items : ℕ) × (rows : List Row)
            × IsQueueRight items rows (tickets_at overflow.old.queues queue.0) self.old
            × IsLatestFlush (book_by items rows (tickets_at overflow.old.queues queue.0) self.old) ticket }
        ensures others { overflow.new ≡ with_tickets overflow.old queue.0 (tickets_at overflow.new.queues queue.0) }
        ensures right { (items : ℕ) (rows : List Row)
            → IsQueueRight items rows (tickets_at overflow.old.queues queue.0) self.old
            → IsLatestFlush (book_by items rows (tickets_at overflow.old.queues queue.0) self.old) ticket
            → IsQueueRight items rows (tickets_at overflow.new.queues queue.0) self.new
            × (book_by items rows (tickets_at overflow.new.queues queue.0) self.new
            ≡ flushes_with_wait (book_by items rows (tickets_at overflow.old.queues queue.0) self.old) ticket) }
    {
        if self.served.len() < MOST_SERVED {
            self.served.push_reserved(Served {
                ticket,
                bound: self.next,
            });
        } else {
            overflow.push_back(queue, ticket);
        }
    }

    /// Whether a flush may end, where it is known whether nothing is open.
    pub(crate) fn ready(&self, ticket: Number, is_empty: bool) -> bool
        requires { (items : ℕ) × (rows : List Row) × (overflow : List ℕ) × IsQueueRight items rows overflow self.now
            × Contains (flush_tickets (book_by items rows overflow self.now)) ticket }
        ensures bound { (items : ℕ) (rows : List Row) (overflow : List ℕ) → IsQueueRight items rows overflow self.now
            → Contains (flush_tickets (book_by items rows overflow self.now)) ticket → IsTrue is_empty ↔ (rows ≡ [])
            → IsTrue result ↔ IsReady (book_by items rows overflow self.now) ticket }
        ensures colours { (items : ℕ) (rows : List Row) (overflow : List ℕ) → IsQueueRight items rows overflow self.now
            → IsToldByColours (book_by items rows overflow self.now) ticket result }
    {
        match find_served(&self.served, ticket) {
            Some(place) => is_served_ready(&self.counts, &self.colours, &self.served, place),
            None => is_empty,
        }
    }

    /// Whether a flush waits for this number, if that is open.
    pub(crate) fn waits_for(&self, ticket: Number, number: Number) -> bool
        requires { (items : ℕ) × (rows : List Row) × (overflow : List ℕ) × IsQueueRight items rows overflow self.now }
        ensures { (items : ℕ) (rows : List Row) (overflow : List ℕ) → IsQueueRight items rows overflow self.now
            → result ≡ is_waited_for (book_by items rows overflow self.now) ticket number }
    {
        match find_served(&self.served, ticket) {
            Some(place) => number < self.served[place].bound,
            None => true,
        }
    }

    /// Whether a flush is served.
    pub(crate) fn is_served(&self, ticket: Number) -> bool
        requires { (items : ℕ) × (rows : List Row) × (overflow : List ℕ) × IsQueueRight items rows overflow self.now }
        ensures { (items : ℕ) (rows : List Row) (overflow : List ℕ) → IsQueueRight items rows overflow self.now
            → result ≡ is_some (served_of (book_by items rows overflow self.now) ticket) }
    {
        match find_served(&self.served, ticket) {
            Some(_) => true,
            None => false,
        }
    }

    /// A flush of this queue that is ready ends. Where it was served, the oldest of the overflow is served from now on.
    pub(crate) fn end(&mut self, overflow: &mut Overflow, queue: QueueId, ticket: Number)
        requires queue { queue.0 < length overflow.old.queues }
        requires right { (items : ℕ) × (rows : List Row)
            × IsQueueRight items rows (tickets_at overflow.old.queues queue.0) self.old
            × Contains (flush_tickets (book_by items rows (tickets_at overflow.old.queues queue.0) self.old)) ticket
            × IsReady (book_by items rows (tickets_at overflow.old.queues queue.0) self.old) ticket }
        ensures others { overflow.new ≡ with_tickets overflow.old queue.0 (tickets_at overflow.new.queues queue.0) }
        ensures right { (items : ℕ) (rows : List Row)
            → IsQueueRight items rows (tickets_at overflow.old.queues queue.0) self.old
            → Contains (flush_tickets (book_by items rows (tickets_at overflow.old.queues queue.0) self.old)) ticket
            → IsReady (book_by items rows (tickets_at overflow.old.queues queue.0) self.old) ticket
            → IsQueueRight items rows (tickets_at overflow.new.queues queue.0) self.new
            × (book_by items rows (tickets_at overflow.new.queues queue.0) self.new
            ≡ flushes_without_wait (book_by items rows (tickets_at overflow.old.queues queue.0) self.old) ticket) }
    {
        match find_served(&self.served, ticket) {
            Some(place) => {
                self.served.remove(place);
                free_colour(&mut self.colours, place);
                serve_oldest(&mut self.served, overflow, queue, self.next);
            }
            None => overflow.remove(queue, ticket),
        }
    }
}

/// Whether the counts of these colours are 0.
fn are_clear(counts: &[u32; COLOURS], colours: &[Colour]) -> bool
    requires { All (λ c. c < COLOURS) colours.now }
    ensures { result ≡ list_all (λ c. slice_index counts.now c == 0) colours.now }
{
    colours.iter().all(|&colour| is_clear(counts, colour))
}

/// Whether the count of this colour is 0.
fn is_clear(counts: &[u32; COLOURS], colour: Colour) -> bool
    requires { colour < COLOURS }
    ensures { result ≡ (slice_index counts.now colour == 0) }
{
    counts[usize::from(colour)] == 0
}

/// Whether the served flush at this place may end: the counts of its colour and of all older ones are 0, so nothing is
/// open below its bound.
fn is_served_ready(
    counts: &[u32; COLOURS],
    colours: &[Colour; COLOURS],
    served: &[Served],
    place: usize,
) -> bool
    requires place { place < length served.now }
    requires few { length served.now ≤ MOST_SERVED }
    requires rise { IsNonDecreasingBy bound_of served.now }
    requires of { (rows : List Row) × IsTally rows counts.now × IsColouring colours.now served.now rows }
    ensures colours { (rows : List Row) → IsTally rows counts.now → IsColouring colours.now served.now rows
        → IsTrue result ↔ AreUnused rows (take (place + 1) colours.now) }
    ensures bound { (rows : List Row) → IsTally rows counts.now → IsColouring colours.now served.now rows
        → IsTrue result ↔ WaitsForNothing rows served.now place }
{
    are_clear(counts, &colours[..place + 1])
}

/// Adds the colour at this place after all others: it is free.
fn free_colour(colours: &mut [Colour; COLOURS], place: usize)
    requires { place < COLOURS }
    ensures { colours.new ≡ remove colours.old place ++ slice_index colours.old place ∷ [] }
{
    colours[place..].rotate_left(1);
}

/// Serves the oldest flush of the queue in overflow, if there is one.
fn serve_oldest(served: &mut Vec<Served>, overflow: &mut Overflow, queue: QueueId, bound: u64)
    requires fits { vec_len served.old < vec_capacity served.old }
    requires queue { queue.0 < length overflow.old.queues }
    ensures served { served.new.items
        ≡ served_with_oldest served.old.items (tickets_at overflow.old.queues queue.0) bound }
    ensures capacity { vec_capacity served.new ≡ vec_capacity served.old }
    ensures overflow { overflow.new
        ≡ with_tickets overflow.old queue.0 (without_oldest (tickets_at overflow.old.queues queue.0)) }
{
    if let Some(ticket) = overflow.pop_front(queue) {
        served.push_reserved(Served { ticket, bound });
    }
}
