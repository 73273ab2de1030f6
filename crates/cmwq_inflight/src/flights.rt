ghost use Rattle.std.specs.Prelude.{◌≡◌, ◌<◌, Some, None, IfOk, IfSome, IsSome, length, replicate, slice_set};
ghost use Rattle.cmwq_inflight.specs.Flights.{no_flight, flight_at, open_count, flights_with_open};
ghost use Rattle.cmwq_inflight.specs.Flights.{flights_without_open, flights_with_run, flights_without_run};
ghost use Rattle.cmwq_inflight.specs.Flights.{with_flight, with_unstarted};

use crate::key::Key;
use cmwq_model::{ItemId, NoMemory, Queueing};
use slab::Slab;
use std::alloc::Global;
use std::marker::Model;

/// A slab that has room for more has keys past those of a row. One that is asked for room for two of each item never
/// does, but says only that it has room for so many or more.
const MOST_KEYS: usize = u32::MAX as usize;

/// Where an item's queueings stand: their keys in the slab.
#[derive(Clone, Copy)]
struct Keys {
    run: Key,
    unstarted: Key,
}

/// The queueings in flight of all items of a runtime. An item has at most one that runs and one that hasn't started.
#[derive(Drop)]
pub struct Flights {
    /// All that are open. There is room for two of each item.
    queueings: Slab<Queueing>,
    /// For each item, which of them are its own.
    rows: Vec<Keys>,
}

impl Model for Flights {
    ghost use Rattle.std.specs.Prelude.{List};
    ghost use Rattle.cmwq_inflight.specs.Flights.{Flight};
    ghost use Rattle.cmwq_inflight.specs.Keeping.{flights_by, AreFlightsKept};

    ghost Value = { List Flight };

    ghost view = { λ f. flights_by f.queueings f.rows.items };

    ghost invariant = { λ f. AreFlightsKept f.queueings f.rows.items };
}

impl Flights {
    /// No queueings, of so many items. No later call takes memory; the error says that it ran out.
    pub fn new(alloc: Global, items: u16) -> Result<Flights, NoMemory>
        ensures { IfOk result (λ flights. flights ≡ replicate items no_flight) }
    {
        let items = usize::from(items);
        let queueings = Slab::with_capacity(alloc, 2 * items)?;
        if queueings.capacity() > MOST_KEYS {
            return Err(NoMemory);
        }
        let keys = Keys {
            run: Key::none(),
            unstarted: Key::none(),
        };
        let rows = vec![in alloc; keys; items]?;
        Ok(Flights { queueings, rows })
    }

    /// Makes these a copy of the others, which are of as many items. No memory is taken.
    pub fn copy_from(&mut self, other: &Flights)
        requires { length self.old ≡ length other.now }
        ensures { self.new ≡ other.now }
    {
        self.clear();
        for number in 0..other.items() {
            let item = ItemId(number);
            self.put_run(item, other.run(item));
            self.put_unstarted(item, other.unstarted(item));
        }
    }

    /// Lets all queueings go.
    fn clear(&mut self)
        ensures { self.new ≡ replicate (length self.old) no_flight }
    {
        self.queueings.clear();
        self.rows.fill(Keys {
            run: Key::none(),
            unstarted: Key::none(),
        });
    }

    /// An item without queueings runs this one, if there is one.
    fn put_run(&mut self, item: ItemId, run: Option<Queueing>)
        requires there { item.0 < length self.old }
        requires of_item { IfSome run (λ queueing. queueing.item.0 ≡ item.0) }
        requires none { flight_at self.old item.0 ≡ no_flight }
        ensures { self.new ≡ slice_set self.old item.0 (record { run = run; unstarted = None }) }
    {
        if let Some(queueing) = run {
            self.open(queueing);
            self.start(item);
        }
    }

    /// An item without an unstarted queueing gets this one, if there is one.
    fn put_unstarted(&mut self, item: ItemId, unstarted: Option<Queueing>)
        requires there { item.0 < length self.old }
        requires of_item { IfSome unstarted (λ queueing. queueing.item.0 ≡ item.0) }
        requires none { (flight_at self.old item.0).unstarted ≡ None }
        ensures { self.new ≡ with_flight (with_unstarted unstarted) item.0 self.old }
    {
        if let Some(queueing) = unstarted {
            self.open(queueing);
        }
    }

    /// How many items there are. Their numbers are below it.
    pub fn items(&self) -> u16
        ensures { result ≡ length self.now }
    {
        self.rows.len() as u16
    }

    /// The queueing of an item that runs (the kernel's `worker.current_work`).
    #[inline(always)]
    pub fn run(&self, item: ItemId) -> Option<Queueing>
        requires { item.0 < length self.now }
        ensures run { result ≡ (flight_at self.now item.0).run }
        ensures of_item { IfSome result (λ queueing. queueing.item.0 ≡ item.0) }
    {
        let key = self.rows[usize::from(item.0)].run.get()?;
        self.queueings.get(key).copied()
    }

    /// The queueing of an item that hasn't started (the kernel's `WORK_STRUCT_PENDING_BIT`).
    #[inline(always)]
    pub fn unstarted(&self, item: ItemId) -> Option<Queueing>
        requires { item.0 < length self.now }
        ensures unstarted { result ≡ (flight_at self.now item.0).unstarted }
        ensures of_item { IfSome result (λ queueing. queueing.item.0 ≡ item.0) }
    {
        let key = self.rows[usize::from(item.0)].unstarted.get()?;
        self.queueings.get(key).copied()
    }

    /// How many queueings are open: those that run, and those that haven't started.
    pub fn open_count(&self) -> u32
        ensures { result ≡ open_count self.now }
    {
        self.queueings.len() as u32
    }

    /// An item without an unstarted queueing is queued (the kernel's `insert_work`).
    #[inline(always)]
    pub fn open(&mut self, queueing: Queueing)
        requires known { queueing.item.0 < length self.old }
        requires none { (flight_at self.old queueing.item.0).unstarted ≡ None }
        ensures { self.new ≡ flights_with_open self.old queueing }
    {
        let key = self.queueings.insert_reserved(queueing);
        self.rows[usize::from(queueing.item.0)].unstarted = Key::some(key);
    }

    /// An item's unstarted queueing is cancelled or replaced, if it has one (the kernel's `try_to_grab_pending`).
    #[inline(always)]
    pub fn take_back(&mut self, item: ItemId)
        requires { item.0 < length self.old }
        ensures { self.new ≡ flights_without_open self.old item.0 }
    {
        if let Some(key) = self.rows[usize::from(item.0)].unstarted.take() {
            self.queueings.remove(key);
        }
    }

    /// An item's unstarted queueing starts; the item doesn't run yet (the kernel's `process_one_work`).
    #[inline(always)]
    pub fn start(&mut self, item: ItemId)
        requires free { (flight_at self.old item.0).run ≡ None }
        requires unstarted { IsSome (flight_at self.old item.0).unstarted }
        ensures { self.new ≡ flights_with_run self.old item.0 }
    {
        let row = &mut self.rows[usize::from(item.0)];
        row.run = row.unstarted;
        row.unstarted = Key::none();
    }

    /// An item's run ends.
    #[inline(always)]
    pub fn finish(&mut self, item: ItemId)
        requires { IsSome (flight_at self.old item.0).run }
        ensures { self.new ≡ flights_without_run self.old item.0 }
    {
        let run = self.rows[usize::from(item.0)].run.take().unwrap();
        self.queueings.remove(run);
    }
}
