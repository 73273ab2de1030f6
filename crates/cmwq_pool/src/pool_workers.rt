ghost use Rattle.std.specs.Prelude.{◌≡◌, ℕ, ◌<◌, [], length, map, replicate, slice_index_or, slice_set};
ghost use Rattle.std.specs.Prelude.{IsSome, IfOk, IfSome, Some};
ghost use Rattle.std.specs.List.{range_with_len};
ghost use Rattle.cmwq_pool.specs.Slots.{new_slot, slot_at, slots_runnable, slots_run_item, slots_enlisted_by};
ghost use Rattle.cmwq_pool.specs.Slots.{slots_started, slot_may_retire, slot_asleep, slot_awake, slot_free};
ghost use Rattle.cmwq_pool.specs.Slots.{slot_is_idle, slot_retired, with_enlisted, with_slot};

use crate::counts::WorkerCounts;
use crate::reserve::{first_reserve, new_reserve, reserve_after};
use crate::slot::Slot;
use crate::task::Task;
use std::alloc::{AllocError, Global};
use std::marker::Model;

/// The workers of one pool: their slots, and what is asked of all of them. Only `new` takes memory.
#[derive(Drop)]
pub(crate) struct PoolWorkers {
    slots: Vec<Slot>,
    counts: WorkerCounts,
    /// Which of the first 64 are of the reserve, a bit for each.
    reserve: u64,
}

impl Model for PoolWorkers {
    ghost use Rattle.std.specs.Prelude.{List};
    ghost use Rattle.cmwq_pool.specs.declared.slot.Slot.{Slot};
    ghost use Rattle.cmwq_pool.specs.Workers.{AreWorkersKept};

    ghost Value = { List Slot };

    ghost view = { λ a. a.slots.items };

    ghost invariant = { λ a. AreWorkersKept a.slots.items a.counts a.reserve };
}

impl PoolWorkers {
    /// Worker 0 is enlisted, and the others are its reserve.
    pub(crate) fn new(alloc: Global, workers: u8) -> Result<PoolWorkers, AllocError>
        ensures { IfOk result (λ made. made ≡ map new_slot (range_with_len 0 workers)) }
    {
        let slots = new_slots(alloc, workers)?;
        Ok(PoolWorkers {
            slots,
            counts: WorkerCounts::new(workers),
            reserve: new_reserve(workers),
        })
    }

    /// Makes these workers a copy of the others, which are as many.
    pub(crate) fn copy_from(&mut self, other: &PoolWorkers)
        requires { length self.old ≡ length other.now }
        ensures { self.new ≡ other.now }
    {
        self.slots.copy_from_slice(&other.slots);
        self.counts = other.counts;
        self.reserve = other.reserve;
    }

    pub(crate) fn len(&self) -> u8
        ensures { result ≡ length self.now }
    {
        self.slots.len() as u8
    }

    pub(crate) fn slot(&self, worker: u8) -> Slot
        requires { worker < length self.now }
        ensures { result ≡ slot_at self.now worker }
    {
        let index = usize::from(worker);
        self.slots[index]
    }

    /// Puts another slot in a worker's place.
    #[inline(always)]
    fn put(&mut self, worker: u8, slot: Slot)
        requires { worker < length self.old }
        ensures { self.new ≡ slice_set self.old worker slot }
    {
        self.reserve = reserve_after(self.reserve, &self.slots, worker, &slot);
        self.counts = self.counts.after(&self.slots, worker, &slot);
        self.slots[usize::from(worker)] = slot;
    }

    /// How many runs are awake and not CPU intensive.
    #[inline(always)]
    pub(crate) fn runnable(&self) -> u32
        ensures { result ≡ slots_runnable self.now }
    {
        u32::from(self.counts.holding)
    }

    /// Whether one of them runs this item. Where none has a run, no slot is looked at.
    pub(crate) fn run_item(&self, item: u32) -> bool
        ensures { result ≡ slots_run_item self.now item }
    {
        self.counts.running > 0 && self.slots.iter().any(|slot| slot.runs(item))
    }

    /// Whether there is such a worker, and it is idle.
    fn is_idle(&self, worker: u8) -> bool
        ensures { result ≡ slot_is_idle (slot_at self.now worker) }
    {
        worker < self.len() && self.slot(worker).is_idle()
    }

    /// The worker that a start of this one would enlist: where no other is idle, the first of the reserve.
    #[inline(always)]
    pub(crate) fn would_enlist(&self, worker: u8) -> Option<u8>
        ensures { result ≡ slots_enlisted_by self.now worker }
    {
        if self.counts.idle > u8::from(self.is_idle(worker)) {
            None
        } else {
            first_reserve(self.reserve, &self.slots)
        }
    }

    /// A worker is enlisted, if there is one to enlist.
    fn enlist(&mut self, worker: Option<u8>)
        requires { IfSome worker (λ x. x < length self.old) }
        ensures { self.new ≡ with_enlisted worker self.old }
    {
        if let Some(index) = worker {
            let mut slot = self.slot(index);
            slot.enlisted = true;
            self.put(index, slot);
        }
    }

    /// A worker runs a task, which is awake at first. Answers whom it enlists.
    #[inline(always)]
    pub(crate) fn start(&mut self, worker: u8, task: Task) -> Option<u8>
        requires { worker < length self.old }
        ensures started { self.new ≡ slots_started self.old worker task }
        ensures enlisted { result ≡ slots_enlisted_by self.old worker }
    {
        let enlisted = self.would_enlist(worker);
        let mut slot = self.slot(worker);
        slot.run = Some(task);
        slot.asleep = false;
        self.put(worker, slot);
        self.enlist(enlisted);
        enlisted
    }

    pub(crate) fn sleep(&mut self, worker: u8)
        requires { worker < length self.old }
        ensures { self.new ≡ with_slot slot_asleep worker self.old }
    {
        let mut slot = self.slot(worker);
        slot.asleep = true;
        self.put(worker, slot);
    }

    pub(crate) fn wake(&mut self, worker: u8)
        requires { worker < length self.old }
        ensures { self.new ≡ with_slot slot_awake worker self.old }
    {
        let mut slot = self.slot(worker);
        slot.asleep = false;
        self.put(worker, slot);
    }

    /// A worker has no run any more. Answers the one that it had.
    #[inline(always)]
    pub(crate) fn finish(&mut self, worker: u8) -> Task
        requires { IsSome (slot_at self.old worker).run }
        ensures run { (slot_at self.old worker).run ≡ Some result }
        ensures free { self.new ≡ with_slot slot_free worker self.old }
    {
        let slot = self.slot(worker);
        self.put(worker, Slot { run: None, ..slot });
        slot.run.unwrap()
    }

    /// Whether a worker is idle, and so many are that it may go back to the reserve: more than two, and those past two
    /// are a quarter of the occupied ones or more.
    pub(crate) fn may_retire(&self, worker: u8) -> bool
        requires { worker < length self.now }
        ensures { result ≡ slot_may_retire self.now worker }
    {
        let idle = usize::from(self.counts.idle);
        self.slot(worker).is_idle()
            && idle > 2
            && usize::from(self.counts.occupied) <= (idle - 2) * 4
    }

    pub(crate) fn retire(&mut self, worker: u8)
        requires { worker < length self.old }
        ensures { self.new ≡ with_slot slot_retired worker self.old }
    {
        let mut slot = self.slot(worker);
        slot.enlisted = false;
        self.put(worker, slot);
    }
}

/// The slots of a new pool.
fn new_slots(alloc: Global, workers: u8) -> Result<Vec<Slot>, AllocError>
    ensures { IfOk result (λ slots. slots.items ≡ map new_slot (range_with_len 0 workers)) }
{
    (0..workers).map(Slot::new).collect(alloc)
}

/// New workers for so many pools.
pub(crate) fn new_workers(
    alloc: Global,
    pools: u16,
    workers: u8,
) -> Result<Vec<PoolWorkers>, AllocError>
    ensures { IfOk result (λ made. made.items ≡ replicate pools (map new_slot (range_with_len 0 workers))) }
{
    let many = usize::from(pools);
    let mut made = Vec::with_capacity(alloc, many)?;
    for index in 0..many {
        made.push_reserved(PoolWorkers::new(alloc, workers)?);
    }
    Ok(made)
}

/// Makes the workers of so many pools a copy of others, of which each pool has as many.
pub(crate) fn copy_workers(workers: &mut [PoolWorkers], others: &[PoolWorkers])
    requires many { length workers.old ≡ length others.now }
    requires each { (p : ℕ) → length (slice_index_or workers.old p []) ≡ length (slice_index_or others.now p []) }
    ensures { workers.new ≡ others.now }
{
    for pool in 0..workers.len() {
        workers[pool].copy_from(&others[pool]);
    }
}
