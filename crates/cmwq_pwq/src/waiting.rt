//! What waits to become active, by number and by pool workqueue.

ghost use Rattle.std.specs.Prelude.{◌≡◌, ℕ, ◌+◌, ◌≤◌, All, ◌<◌, [], ◌∷◌, ◌++◌, Some, None, false, true, take, drop};
ghost use Rattle.std.specs.Prelude.{filter, length, option_and_then, slice_get, IfNone, IfOk, IfSome};
ghost use Rattle.std.specs.List.{AllByRecursion, list_any};
ghost use Rattle.cmwq_model.specs.declared.record.Queueing.{Queueing};
ghost use Rattle.cmwq_model.specs.Prelude.{has_number, is_of, most_cpus};
ghost use Rattle.cmwq_theory_steps.specs.Places.{is_on};
ghost use Rattle.cmwq_pwq.specs.Pwqs.{IsNumberOfItem, is_other_waiting, place_of};
ghost use Rattle.cmwq_pwq.specs.Waiting.{IsFirstTaken, is_of_other};

use crate::pass::place_of;
use crate::rows::Rows;
use cmwq_list::Lists;
use cmwq_model::{ItemId, NoMemory, Place, Queueing};
use std::alloc::Global;
use std::marker::Model;

/// What waits to become active: of each item at most one queueing. Each is put in and taken out in a fixed number of
/// steps.
#[derive(Drop)]
pub(crate) struct Waiting {
    /// Of each item the queueing that waits, or the last that did.
    rows: Rows,
    /// The items of which one waits, by its number: one list.
    all: Lists,
    /// Those of each pool workqueue, by number: a list at each place (the kernel's `inactive_works`).
    pwqs: Lists,
}

impl Model for Waiting {
    ghost use Rattle.std.specs.Prelude.{length, map};
    ghost use Rattle.cmwq_list.specs.Lists.{list_at};
    ghost use Rattle.cmwq_pwq.specs.Waiting.{AreWaitingKept, WaitingState, row_of};

    ghost Value = { WaitingState };

    ghost view = { λ w. record {
      items = length w.rows;
      places = length w.pwqs.lists;
      queueings =
          map (row_of w.rows) (list_at w.all.lists 0);
    } };

    ghost invariant = { λ w. AreWaitingKept w.rows w.all w.pwqs };
}

/// The row of an item, if there is one.
fn row(rows: &Rows, item: Option<u32>) -> Option<Queueing>
    ensures { result ≡ option_and_then (slice_get rows.now) item }
{
    match item {
        Some(item) => rows.get(item),
        None => None,
    }
}

impl Waiting {
    /// Nothing waits, of so many items and at so many places. The error says that memory ran out.
    pub(crate) fn new(alloc: Global, places: u16, items: u16) -> Result<Waiting, NoMemory>
        ensures { IfOk result (λ waiting. waiting ≡ record { items = items; places = places; queueings = [] }) }
    {
        Ok(Waiting {
            rows: Rows::new(alloc, items)?,
            all: Lists::new(alloc, 1, u32::from(items))?,
            pwqs: Lists::new(alloc, places, u32::from(items))?,
        })
    }

    /// Makes this a copy of what waits of as many items and at as many places.
    pub(crate) fn copy_from(&mut self, other: &Waiting)
        requires items { self.old.items ≡ other.now.items }
        requires places { self.old.places ≡ other.now.places }
        ensures { self.new ≡ other.now }
    {
        self.rows.copy_from(&other.rows);
        self.all.copy_from(&other.all);
        self.pwqs.copy_from(&other.pwqs);
    }

    /// How many wait.
    pub(crate) fn len(&self) -> u32
        ensures len { result ≡ length self.now.queueings }
        ensures few { length self.now.queueings ≤ self.now.items }
        ensures known { All (λ x. x.item.0 < self.now.items) self.now.queueings }
    {
        self.all.len(0)
    }

    /// A queueing of an item of which none waits is put after all others.
    pub(crate) fn push_back(&mut self, queueing: Queueing)
        requires item { queueing.item.0 < self.old.items }
        requires cpu { queueing.place.cpu.0 < most_cpus }
        requires place { place_of queueing.place.queue.0 queueing.place.cpu.0 < self.old.places }
        requires free { list_any (is_of queueing.item.0) self.old.queueings ≡ false }
        ensures { self.new ≡ record self.old { queueings = self.old.queueings ++ queueing ∷ [] } }
    {
        let item = queueing.item.0;
        self.rows.put(queueing);
        self.all.push_back(0, u32::from(item));
        self.pwqs
            .push_back(place_of(queueing.place) as u16, u32::from(item));
    }

    /// Takes out what waits of an item.
    pub(crate) fn unlink(&mut self, item: ItemId)
        requires { item.0 < self.old.items }
        ensures rest { self.new ≡ record self.old { queueings = filter (is_of_other item.0) self.old.queueings } }
        ensures by_index { (k : ℕ) (x : Queueing) → slice_get self.old.queueings k ≡ Some x → x.item.0 ≡ item.0
            → self.new.queueings ≡ take k self.old.queueings ++ drop (k + 1) self.old.queueings }
    {
        let item = u32::from(item.0);
        self.all.remove(item);
        self.pwqs.remove(item);
    }

    /// Whether a queueing waits: it is then what waits of its item.
    pub(crate) fn waits(&self, queueing: Queueing) -> bool
        requires item { queueing.item.0 < self.now.items }
        requires number { IsNumberOfItem queueing self.now.queueings }
        ensures waits { result ≡ list_any (has_number queueing.number) self.now.queueings }
        ensures others { result ≡ true → filter (is_of_other queueing.item.0) self.now.queueings
            ≡ filter (is_other_waiting queueing.number) self.now.queueings }
    {
        let item = u32::from(queueing.item.0);
        self.rows.at(item).number == queueing.number && self.all.list_of(item).is_some()
    }

    /// Takes a queueing out, and answers whether it waited.
    pub(crate) fn take(&mut self, queueing: Queueing) -> bool
        requires item { queueing.item.0 < self.old.items }
        requires number { IsNumberOfItem queueing self.old.queueings }
        ensures waited { result ≡ list_any (has_number queueing.number) self.old.queueings }
        ensures rest { self.new
            ≡ record self.old { queueings = filter (is_other_waiting queueing.number) self.old.queueings } }
    {
        let waits = self.waits(queueing);
        if waits {
            self.unlink(queueing.item);
        }
        waits
    }

    /// Takes out the first that waits at a place.
    pub(crate) fn take_first(&mut self, place: Place) -> Option<Queueing>
        requires cpu { place.cpu.0 < most_cpus }
        requires place { place_of place.queue.0 place.cpu.0 < self.old.places }
        ensures taken { IfSome result (IsFirstTaken place.queue.0 place.cpu.0 self.old.queueings self.new.queueings) }
        ensures none { IfNone result (AllByRecursion
            (λ x. is_on place.queue.0 place.cpu.0 x ≡ false) self.old.queueings) }
        ensures same { IfNone result (self.new ≡ self.old) }
        ensures others { self.new ≡ record self.old { queueings = self.new.queueings } }
    {
        let item = self.pwqs.first(place_of(place) as u16)?;
        let queueing = self.rows.at(item);
        self.unlink(queueing.item);
        Some(queueing)
    }

    /// The first of all that wait.
    pub(crate) fn first(&self) -> Option<Queueing>
        ensures { result ≡ slice_get self.now.queueings 0 }
    {
        row(&self.rows, self.all.first(0))
    }

    /// What waits after one that waits.
    pub(crate) fn next(&self, queueing: Queueing) -> Option<Queueing>
        requires { queueing.item.0 < self.now.items }
        ensures { (k : ℕ) → slice_get self.now.queueings k ≡ Some queueing
            → result ≡ slice_get self.now.queueings (k + 1) }
    {
        row(&self.rows, self.all.next(u32::from(queueing.item.0)))
    }
}
