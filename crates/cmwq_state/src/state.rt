//! The state, the reads of workers and counts, and the entry that is appended.

ghost use Rattle.std.specs.Prelude.{◌≡◌, ◌<◌, ◌≤◌, ◌+◌, ◌&&◌, [], true, length, count_by, nat_le, IfOk};
ghost use Rattle.cmwq_model.specs.Prelude.{is_layout, layout_of, most_room, past_of, IsLegal, still_open, room_needed};
ghost use Rattle.cmwq_model.specs.Prelude.{owed, has_time, most_time, is_active};
ghost use Rattle.cmwq_model.specs.Calls as calls;
ghost use Rattle.cmwq_state.specs.Tables as tables;
ghost use Rattle.cmwq_state.specs.Effects.{IsEffect};
ghost use Rattle.cmwq_state.specs.History.{past_in, with_entry};

mod copies;
mod reads;
mod waits;
mod workers;

use crate::apply::{
    apply_books, apply_flights, apply_gone, apply_pools, apply_pwqs, apply_serials, apply_tickets,
    apply_timers, apply_widths,
};
use crate::effect::Effect;
use crate::new::{new_flush_parts, new_item_parts, new_queue_parts};
use crate::tables::who_place;
use crate::trail::Trail;
use cmwq_flush::FlushBooks;
use cmwq_inflight::Flights;
use cmwq_model::{Call, Counts, Entry, NoMemory, QueueShape, Shape, Who};
use cmwq_pool::Pools;
use cmwq_pwq::Pwqs;
use cmwq_ticket::Tickets;
use cmwq_timer::Timers;
use std::alloc::Global;
use std::marker::Model;
use std::mem::drop;

/// The time that a history may come to: 2^62 ticks.
const MOST_TIME: u64 = 4_611_686_018_427_387_904;

/// The parts that answer without looking back at a history, of whose entries none is kept. Contracts see the whole
/// history, with its shape and its room.
#[derive(Drop)]
pub struct State {
    counts: Counts,
    queues: Vec<QueueShape>,
    room: u64,
    entries: Trail<Entry>,
    pools: Pools,
    books: FlushBooks,
    timers: Timers,
    time: u64,
    serials: Vec<u64>,
    flights: Flights,
    tickets: Tickets,
    gone: Vec<bool>,
    pwqs: Pwqs,
    most: Vec<u32>,
    frozen: bool,
    owing: u64,
}

impl Model for State {
    ghost use Rattle.cmwq_model.specs.Prelude.{layout_of};
    ghost use Rattle.cmwq_state.specs.History.{History};
    ghost use Rattle.cmwq_state.specs.State.{IsState};

    ghost Value = { History };

    ghost view = { λ s. record { layout = layout_of s.counts s.queues.items; room = s.room; entries = s.entries } };

    ghost invariant = { λ s. IsState (layout_of s.counts s.queues.items) s.room s.entries
        (record {
          pools = s.pools;
          books = s.books;
          timers = s.timers;
          time = s.time;
          serials = s.serials.items;
          flights = s.flights;
          tickets = s.tickets;
          gone = s.gone.items;
          pwqs = s.pwqs;
          most = s.most.items;
          frozen = s.frozen;
          owing = s.owing;
        }) };
}

impl State {
    /// A state with no entries, and room for so many. No later call takes memory, except `copy_from`.
    ///
    /// # Errors
    /// `NoMemory` where it ran out.
    pub fn new(alloc: Global, shape: &Shape, room: u64) -> Result<State, NoMemory>
        requires { room ≤ most_room }
        ensures { IfOk result (λ state. state ≡ record { layout = shape.now; room = room; entries = [] }) }
    {
        State::start(alloc, shape.counts(), shape.queues(), room)
    }

    /// Lets the state go. That all its parts are let go is proved here, and not wherever one is.
    pub fn end(self) {
        drop(self);
    }

    fn start(
        alloc: Global,
        counts: Counts,
        queues: &[QueueShape],
        room: u64,
    ) -> Result<State, NoMemory>
        requires inside { is_layout (layout_of counts queues.now) ≡ true }
        requires few { room ≤ most_room }
        ensures { IfOk result
            (λ state. state ≡ record { layout = layout_of counts queues.now; room = room; entries = [] }) }
    {
        let entries = Trail::new();
        let of_items = new_item_parts(alloc, counts)?;
        let of_flushes = new_flush_parts(alloc, counts, queues.len())?;
        let of_queues = new_queue_parts(alloc, queues, counts.items)?;
        Ok(State {
            counts,
            queues: of_queues.queues,
            room,
            entries,
            pools: of_items.pools,
            books: of_flushes.books,
            timers: of_items.timers,
            time: 0,
            serials: of_items.serials,
            flights: of_items.flights,
            tickets: of_flushes.tickets,
            gone: of_queues.gone,
            pwqs: of_queues.pwqs,
            most: of_queues.most,
            frozen: false,
            owing: 0,
        })
    }

    /// How many entries there are.
    pub fn len(&self) -> u64
        ensures len { result ≡ length self.now.entries }
        ensures within { length self.now.entries ≤ self.now.room }
        ensures needed { room_needed self.now.layout (past_in self.now) ≤ self.now.room }
        ensures few { self.now.room ≤ most_room }
        ensures legal { IsLegal self.now.layout (past_in self.now) }
    {
        self.entries.len()
    }

    /// The serial of the next entry of this caller or worker: how many entries it has.
    pub fn serial(&self, who: Who) -> u64
        requires { tables.IsThere self.now.layout who }
        ensures is { result ≡ calls.serial_of (past_of self.now.entries) who }
        ensures legal { IsLegal self.now.layout (past_of self.now.entries) }
    {
        self.serials[who_place(who)]
    }

    /// The tick that it is.
    pub fn time(&self) -> u64
        ensures time { result ≡ calls.now (past_of self.now.entries) }
        ensures small { result ≤ most_time }
    {
        self.time
    }

    /// Whether the time after this call is within its room.
    pub fn has_time(&self, call: Call) -> bool
        ensures { result ≡ has_time (past_of self.now.entries) call }
    {
        match call {
            Call::Tick { ticks } => self.time + u64::from(ticks) <= MOST_TIME,
            _ => true,
        }
    }

    /// Whether one more entry of this call and what is owed then are within the room, and the time after it within its
    /// own.
    pub fn has_room(&self, call: Call, owing: u64) -> bool
        ensures { result
            ≡ (has_time (past_of self.now.entries) call && nat_le (length self.now.entries + 1 + owing) self.now.room) }
    {
        self.has_time(call) && owing < self.room - self.entries.len()
    }

    /// Appends an entry for which there is room and time: it is applied to each part.
    #[inline(always)]
    pub fn append(&mut self, effect: Effect)
        requires is { IsEffect self.old.layout (past_of self.old.entries) effect }
        requires room { length self.old.entries + 1 + effect.owing ≤ self.old.room }
        requires time { has_time (past_of self.old.entries) effect.entry.call ≡ true }
        ensures { self.new ≡ with_entry self.old effect.entry }
    {
        self.frozen = apply_widths(&mut self.most, self.frozen, &effect);
        apply_pwqs(
            &mut self.pwqs,
            &self.queues,
            &self.most,
            self.frozen,
            &effect,
        );
        apply_pools(
            &mut self.pools,
            &self.queues,
            self.pwqs.activated(),
            &effect,
        );
        apply_books(&mut self.books, &effect);
        apply_flights(&mut self.flights, &effect);
        apply_tickets(&mut self.tickets, &effect);
        apply_gone(&mut self.gone, &effect);
        apply_timers(&mut self.timers, &effect);
        apply_serials(&mut self.serials, &effect);
        self.time += u64::from(effect.entry.call.ticks());
        self.owing = effect.owing;
        self.entries.push(&effect.entry);
    }

    /// How many queueings are open.
    pub fn open_count(&self) -> u32
        ensures { result ≡ length (still_open (past_in self.now)) }
    {
        self.flights.open_count()
    }

    /// How many of them are active.
    pub fn active_count(&self) -> u32
        ensures { result ≡ count_by (is_active self.now.layout (past_in self.now)) (still_open (past_in self.now)) }
    {
        self.flights.open_count() - self.pwqs.len()
    }

    /// How many entries are owed.
    pub fn owing(&self) -> u64
        ensures is { result ≡ owed self.now.layout (past_of self.now.entries) }
        ensures few { result ≤ most_room }
        ensures legal { IsLegal self.now.layout (past_of self.now.entries) }
    {
        self.owing
    }
}
