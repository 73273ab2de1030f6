ghost use Rattle.std.specs.Prelude.{◌≡◌, ◌<◌, Some, None, IfOk, IfSome, IfNone, length, replicate, slice_set};
ghost use Rattle.cmwq_timer.specs.Rows.{timer_of, due_of, any_timer_on, timer_counts_with, timer_counts_without};
ghost use Rattle.cmwq_timer.specs.Rows.{HasCountOf, HasRoomFor, NoneMayFire, IsFirstToFire};

use crate::timer::Timer;
use crate::tournament::Tournament;
use cmwq_model::{ItemId, NoMemory, Number, Place, QueueId};
use std::alloc::Global;
use std::marker::Model;

/// How many queues a `QueueId` can name.
pub(crate) const QUEUES: usize = 256;

/// The timers of all items of a runtime. An item has one at most.
#[derive(Drop)]
pub struct Timers {
    timers: Tournament,
    /// Of each queue, how many items are booked on it.
    booked: Vec<u16>,
}

impl Model for Timers {
    ghost use Rattle.cmwq_timer.specs.Rows.{TimerRows, AreCounted};

    ghost Value = { TimerRows };

    ghost view = { λ t. t.timers };

    ghost invariant = { λ t. AreCounted t.timers t.booked.items };
}

impl Timers {
    /// Timers for so many items, none of which is booked. No later call takes memory; the error says that it ran out.
    pub fn new(alloc: Global, items: u16) -> Result<Self, NoMemory>
        ensures { IfOk result (λ timers. timers ≡ replicate items None) }
    {
        Ok(Timers {
            timers: Tournament::new(alloc, items)?,
            booked: vec![in alloc; 0; QUEUES]?,
        })
    }

    /// Makes these a copy of the others, which are of as many items. No memory is taken.
    pub fn copy_from(&mut self, other: &Timers)
        requires { length self.old ≡ length other.now }
        ensures { self.new ≡ other.now }
    {
        for number in 0..other.items() {
            let item = ItemId(number);
            self.set(item, other.timer(item));
        }
    }

    /// How many items there are. Their numbers are below it.
    pub fn items(&self) -> u16
        ensures { result ≡ length self.now }
    {
        self.timers.len()
    }

    /// Books an item for the tick `due`, to be queued at this place, instead of any booking that it had
    /// (`add_timer_on`, `mod_timer`). `at` is the number of the entry that books it.
    pub fn book(&mut self, item: ItemId, place: Place, due: u64, at: Number)
        requires { item.0 < length self.old }
        ensures { self.new ≡ slice_set self.old item.0 (Some (record { place = place; due = due; number = at })) }
    {
        let number = at;
        self.write(item, Some(Timer { place, due, number }));
    }

    /// Takes an item's booking back, if it has one (`del_timer`).
    pub fn unbook(&mut self, item: ItemId)
        requires { item.0 < length self.old }
        ensures { self.new ≡ slice_set self.old item.0 None }
    {
        // most items that this is asked of aren't booked, and to write one costs more than to look
        if self.timers.timer(item).is_some() {
            self.write(item, None);
        }
    }

    /// Sets this timer for an item, or none.
    fn set(&mut self, item: ItemId, timer: Option<Timer>)
        requires { item.0 < length self.old }
        ensures { self.new ≡ slice_set self.old item.0 timer }
    {
        match timer {
            Some(_) => self.write(item, timer),
            None => self.unbook(item),
        }
    }

    fn write(&mut self, item: ItemId, timer: Option<Timer>)
        requires { item.0 < length self.old }
        ensures { self.new ≡ slice_set self.old item.0 timer }
    {
        lower(&mut self.booked, self.timers.timer(item));
        raise(&mut self.booked, timer);
        self.timers.set(item, timer);
    }

    /// The timer that is set for an item, if it is booked: where it is to be queued, when, and by which entry.
    pub fn timer(&self, item: ItemId) -> Option<Timer>
        requires { item.0 < length self.now }
        ensures { result ≡ timer_of self.now item.0 }
    {
        self.timers.timer(item)
    }

    /// Whether any item is booked on a queue.
    pub fn is_booked_on(&self, queue: QueueId) -> bool
        ensures { result ≡ any_timer_on self.now queue.0 }
    {
        self.booked[usize::from(queue.0)] > 0
    }

    /// The tick at which an item is due, if it is booked (`timer_pending`, `timer_list.expires`).
    pub fn booked(&self, item: ItemId) -> Option<u64>
        requires { item.0 < length self.now }
        ensures { result ≡ due_of self.now item.0 }
    {
        self.timers.timer(item).map(|timer| timer.due)
    }

    /// The item whose timer fires first at the tick `now` (`__run_timers`): one that is due on a queue that isn't held
    /// back, and that no other such item comes before, by its tick and then by its entry. `holds` says of each queue
    /// how much holds it back.
    pub fn first_due(&self, now: u64, holds: &[u16]) -> Option<ItemId>
        ensures found { IfSome result (λ item. IsFirstToFire now holds.now self.now item.0) }
        ensures none { IfNone result (NoneMayFire now holds.now self.now) }
    {
        let first = self.timers.first_due(now, holds)?;
        Some(first.item)
    }
}

/// One item less is booked on the queue of this timer.
fn lower(counts: &mut Vec<u16>, timer: Option<Timer>)
    requires { HasCountOf timer counts.old.items }
    ensures { counts.new.items ≡ timer_counts_without timer counts.old.items }
{
    if let Some(timer) = timer {
        counts[usize::from(timer.place.queue.0)] -= 1;
    }
}

/// One item more is booked on the queue of this timer.
fn raise(counts: &mut Vec<u16>, timer: Option<Timer>)
    requires { HasRoomFor timer counts.old.items }
    ensures { counts.new.items ≡ timer_counts_with timer counts.old.items }
{
    if let Some(timer) = timer {
        counts[usize::from(timer.place.queue.0)] += 1;
    }
}
