ghost use Rattle.std.specs.Prelude.{◌≡◌, ℕ, ◌+◌, ◌<◌, length, replicate, slice_get, IsTrue, IsSome, IfSome, IfOk};
ghost use Rattle.std.specs.Prelude.{Some};
ghost use Rattle.cmwq_pool.specs.declared.task.Task.{Task};
ghost use Rattle.cmwq_pool.specs.Slots.{slot_at, slot_is_idle, slot_runs_awake, slot_runs_asleep, run_number};
ghost use Rattle.cmwq_pool.specs.Slots.{slots_runnable, slots_enlisted_by, slot_may_retire, slot_asleep, slot_awake};
ghost use Rattle.cmwq_pool.specs.Slots.{slot_free, slot_retired};
ghost use Rattle.cmwq_pool.specs.PoolState.{new_pool_state, task, pool_with_task, pool_without_task, next_task};
ghost use Rattle.cmwq_pool.specs.PoolState.{next_number, pool_with_run, with_slot_again};
ghost use Rattle.cmwq_pool.specs.Pools.{pool_numbered, with_pool, may_list, AreOfOneShape};

use crate::listing::{first_free, first_task, is_listed, task_after, task_of};
use crate::note::Note;
use crate::notes::Notes;
use crate::pool_workers::{PoolWorkers, copy_workers, new_workers};
use crate::slot::Slot;
use crate::task::Task;
use cmwq_list::Lists;
use cmwq_model::{ItemId, NoMemory, Number};
use std::alloc::Global;
use std::marker::Model;

/// The worker pools of all CPUs (the kernel's `worker_pool`), numbered from 0. A contract sees what each of them lists,
/// and each worker's slot. An item is listed in one pool at most. Only `new` takes memory.
#[derive(Drop)]
pub struct Pools {
    /// The items that each pool lists, in their order.
    lists: Lists,
    /// What is kept of each item that is listed.
    notes: Notes,
    workers: Vec<PoolWorkers>,
}

impl Model for Pools {
    ghost use Rattle.std.specs.Prelude.{List};
    ghost use Rattle.cmwq_pool.specs.PoolState.{PoolState};
    ghost use Rattle.cmwq_pool.specs.Upkeep.{pools_seen, ArePoolsKept};

    ghost Value = { List PoolState };

    ghost view = { λ a. pools_seen a.lists a.notes a.workers.items };

    ghost invariant = { λ a. ArePoolsKept a.lists a.notes a.workers.items };
}

impl Pools {
    /// So many pools for these items, each with so many workers: nothing is listed, and of each pool worker 0 is
    /// enlisted. The error says that memory ran out.
    pub fn new(alloc: Global, pools: u16, items: u16, workers: u8) -> Result<Pools, NoMemory>
        ensures { IfOk result (λ made. made ≡ replicate pools (new_pool_state items workers)) }
    {
        let lists = Lists::new(alloc, pools, u32::from(items))?;
        let notes = Notes::new(alloc, items)?;
        let workers = new_workers(alloc, pools, workers)?;
        Ok(Pools {
            lists,
            notes,
            workers,
        })
    }

    /// Makes these pools a copy of the others. There are as many pools, items and workers of both, so that no memory is
    /// taken.
    pub fn copy_from(&mut self, other: &Pools)
        requires { AreOfOneShape self.old other.now }
        ensures { self.new ≡ other.now }
    {
        // where there is no pool, there is nothing to copy
        if !self.workers.is_empty() {
            self.lists.copy_from(&other.lists);
            self.notes.copy_from(&other.notes);
            copy_workers(&mut self.workers, &other.workers);
        }
    }

    /// How many pools there are. Their numbers are below it.
    pub fn len(&self) -> usize
        ensures { result ≡ length self.now }
    {
        self.workers.len()
    }

    /// Lists a queueing that became active in its pool, after all others (the kernel's `insert_work`).
    #[inline(always)]
    pub fn add(&mut self, pool: u16, number: Number, item: ItemId, intensive: bool)
        requires pool { pool < length self.old }
        requires free { IsTrue (may_list self.old pool item.0) }
        ensures { self.new ≡ with_pool (λ l. pool_with_task l (task number item.0 intensive)) pool self.old }
    {
        self.notes
            .set(usize::from(item.0), Note { number, intensive });
        self.lists.push_back(pool, u32::from(item.0));
    }

    /// Takes a queueing that was cancelled from the list of its pool, if it stands there.
    #[inline(always)]
    pub fn remove(&mut self, pool: u16, number: Number, item: ItemId)
        requires { pool < length self.old }
        ensures { self.new ≡ with_pool (λ l. pool_without_task l number item.0) pool self.old }
    {
        if is_listed(&self.lists, &self.notes, pool, number, item) {
            self.lists.remove(u32::from(item.0));
        }
    }

    /// The first task that a pool lists.
    pub fn first(&self, pool: u16) -> Option<Task>
        requires { pool < length self.now }
        ensures { result ≡ slice_get (pool_numbered self.now pool).listed 0 }
    {
        first_task(&self.lists, &self.notes, pool)
    }

    /// The task that a pool lists after that of an item. Where it lists none of the item, any task or none.
    pub fn after(&self, pool: u16, item: ItemId) -> Option<Task>
        requires pool { pool < length self.now }
        requires item { item.0 < (pool_numbered self.now pool).items }
        ensures next { (k : ℕ) (task : Task) → slice_get (pool_numbered self.now pool).listed k ≡ Some task
            → task.item.0 ≡ item.0 → result ≡ slice_get (pool_numbered self.now pool).listed (k + 1) }
        ensures known { IfSome result (λ task. task.item.0 < (pool_numbered self.now pool).items) }
    {
        task_after(&self.lists, &self.notes, pool, u32::from(item.0))
    }

    /// The task that a pool would start next: the first whose item has no run there.
    #[inline(always)]
    pub fn next_task(&self, pool: u16) -> Option<Task>
        requires { pool < length self.now }
        ensures { result ≡ next_task (pool_numbered self.now pool) }
    {
        let workers = &self.workers[usize::from(pool)];
        let item = first_free(&self.lists, pool, workers)?;
        Some(task_of(&self.notes, item))
    }

    /// The number of the next queueing to start: the first of the list whose item has no run there.
    #[inline(always)]
    pub fn next(&self, pool: u16) -> Option<Number>
        requires { pool < length self.now }
        ensures { result ≡ next_number (pool_numbered self.now pool) }
    {
        self.next_task(pool).map(|task| task.number)
    }

    /// How many runs are awake and not CPU intensive (the kernel's `nr_running`). While there is one, nothing may
    /// start.
    #[inline(always)]
    pub fn runnable(&self, pool: u16) -> u32
        requires { pool < length self.now }
        ensures { result ≡ slots_runnable (pool_numbered self.now pool).slots }
    {
        self.workers[usize::from(pool)].runnable()
    }

    /// How many workers the pool has. Their indices are below it.
    pub fn workers(&self, pool: u16) -> u8
        requires { pool < length self.now }
        ensures { result ≡ length (pool_numbered self.now pool).slots }
    {
        self.workers[usize::from(pool)].len()
    }

    /// The slot of a worker: whether it is enlisted, what it runs, and whether that sleeps.
    pub fn slot(&self, pool: u16, worker: u8) -> Slot
        requires pool { pool < length self.now }
        requires worker { worker < length (pool_numbered self.now pool).slots }
        ensures { result ≡ slot_at (pool_numbered self.now pool).slots worker }
    {
        self.workers[usize::from(pool)].slot(worker)
    }

    /// The worker that a start of this one would enlist: where no other is idle, the first of the reserve.
    #[inline(always)]
    pub fn would_enlist(&self, pool: u16, worker: u8) -> Option<u8>
        requires { pool < length self.now }
        ensures { result ≡ slots_enlisted_by (pool_numbered self.now pool).slots worker }
    {
        self.workers[usize::from(pool)].would_enlist(worker)
    }

    /// An idle worker starts the pool's next queueing, which no run holds back. Answers the worker that this enlists:
    /// where no other idle one is left, the first of the reserve.
    #[inline(always)]
    pub fn start(&mut self, pool: u16, worker: u8) -> Option<u8>
        requires pool { pool < length self.old }
        requires idle { IsTrue (slot_is_idle (slot_at (pool_numbered self.old pool).slots worker)) }
        requires next { IsSome (next_number (pool_numbered self.old pool)) }
        requires free { slots_runnable (pool_numbered self.old pool).slots ≡ 0 }
        ensures started { IfSome (next_task (pool_numbered self.old pool))
            (λ t. self.new ≡ with_pool (λ l. pool_with_run l worker t) pool self.old) }
        ensures enlisted { result ≡ slots_enlisted_by (pool_numbered self.old pool).slots worker }
    {
        let workers = &mut self.workers[usize::from(pool)];
        let item = first_free(&self.lists, pool, workers).unwrap();
        self.lists.remove(item);
        workers.start(worker, task_of(&self.notes, item))
    }

    /// A worker's run goes to sleep (the kernel's `wq_worker_sleeping`).
    pub fn sleep(&mut self, pool: u16, worker: u8)
        requires pool { pool < length self.old }
        requires awake { IsTrue (slot_runs_awake (slot_at (pool_numbered self.old pool).slots worker)) }
        ensures { self.new ≡ with_pool (λ l. with_slot_again slot_asleep l worker) pool self.old }
    {
        self.workers[usize::from(pool)].sleep(worker);
    }

    /// A worker's run wakes up (the kernel's `wq_worker_running`).
    pub fn wake(&mut self, pool: u16, worker: u8)
        requires pool { pool < length self.old }
        requires asleep { IsTrue (slot_runs_asleep (slot_at (pool_numbered self.old pool).slots worker)) }
        ensures { self.new ≡ with_pool (λ l. with_slot_again slot_awake l worker) pool self.old }
    {
        self.workers[usize::from(pool)].wake(worker);
    }

    /// A worker ends its run, which is awake. Answers the number of that.
    #[inline(always)]
    pub fn finish(&mut self, pool: u16, worker: u8) -> Number
        requires pool { pool < length self.old }
        requires awake { IsTrue (slot_runs_awake (slot_at (pool_numbered self.old pool).slots worker)) }
        ensures free { self.new ≡ with_pool (λ l. with_slot_again slot_free l worker) pool self.old }
        ensures number { run_number (slot_at (pool_numbered self.old pool).slots worker) ≡ Some result }
    {
        let task = self.workers[usize::from(pool)].finish(worker);
        task.number
    }

    /// Whether a worker is idle and may go back to the reserve: more than two are idle, and those past two are a
    /// quarter of the enlisted workers with a run, or more (the kernel's `too_many_workers`).
    pub fn may_retire(&self, pool: u16, worker: u8) -> bool
        requires pool { pool < length self.now }
        requires worker { worker < length (pool_numbered self.now pool).slots }
        ensures { result ≡ slot_may_retire (pool_numbered self.now pool).slots worker }
    {
        self.workers[usize::from(pool)].may_retire(worker)
    }

    /// An idle worker that may retire goes back to the reserve.
    pub fn retire(&mut self, pool: u16, worker: u8)
        requires pool { pool < length self.old }
        requires may { IsTrue (slot_may_retire (pool_numbered self.old pool).slots worker) }
        ensures { self.new ≡ with_pool (λ l. with_slot_again slot_retired l worker) pool self.old }
    {
        self.workers[usize::from(pool)].retire(worker);
    }
}
