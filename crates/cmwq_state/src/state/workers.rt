//! What pools and workers do, read off the pools.

ghost use Rattle.std.specs.Prelude.{◌≡◌, ℕ, ◌+◌, ◌<◌, ◌&&◌, Some, option_map, slice_get};
ghost use Rattle.cmwq_model.specs.declared.id.Who.TheVariants.{Worker};
ghost use Rattle.cmwq_model.specs.Prelude.{past_of, IsLegal};
ghost use Rattle.cmwq_model.specs.Runs as runs;
ghost use Rattle.cmwq_model.specs.Workers as workers;
ghost use Rattle.cmwq_model.specs.Active as active;
ghost use Rattle.cmwq_pool.specs.PoolState.{next_task};
ghost use Rattle.cmwq_refinement.specs.Pools.{IsSlotOf, pool_of, run_task};
ghost use Rattle.cmwq_refinement.specs.ByNumber.{number_of_queueing};
ghost use Rattle.cmwq_state.specs.Tables as tables;

use crate::state::State;
use crate::tables::pool_place;
use cmwq_model::{Number, PoolId, Queueing, WorkerId};
use cmwq_pool::{Slot, Task};

impl State {
    /// The slot of a worker in its pool.
    #[inline(always)]
    pub(crate) fn slot(&self, worker: WorkerId) -> Slot
        requires { tables.IsThere self.now.layout (Worker worker) }
        ensures is { IsSlotOf (past_of self.now.entries) worker result }
        ensures task { result.run ≡ run_task self.now.layout (past_of self.now.entries) worker }
        ensures legal { IsLegal self.now.layout (past_of self.now.entries) }
    {
        self.pools.slot(pool_place(worker.pool), worker.index)
    }

    /// Whether the worker has a run and is awake.
    pub fn runs_awake(&self, worker: WorkerId) -> bool
        requires { tables.IsThere self.now.layout (Worker worker) }
        ensures { result ≡ runs.runs_awake (past_of self.now.entries) worker }
    {
        self.slot(worker).runs_awake()
    }

    /// Whether the worker has a run and sleeps.
    pub fn runs_asleep(&self, worker: WorkerId) -> bool
        requires { tables.IsThere self.now.layout (Worker worker) }
        ensures { result ≡ runs.runs_asleep (past_of self.now.entries) worker }
    {
        self.slot(worker).runs_asleep()
    }

    /// Whether the worker sleeps: of its answers started, slept and woke, the last is slept.
    pub fn is_asleep(&self, worker: WorkerId) -> bool
        requires { tables.IsThere self.now.layout (Worker worker) }
        ensures { result ≡ runs.is_asleep (past_of self.now.entries) worker }
    {
        self.slot(worker).asleep
    }

    /// Whether the worker has a run.
    pub fn has_run(&self, worker: WorkerId) -> bool
        requires { tables.IsThere self.now.layout (Worker worker) }
        ensures { result ≡ runs.has_run (past_of self.now.entries) worker }
    {
        self.slot(worker).run.is_some()
    }

    /// Whether the worker is enlisted.
    pub fn is_enlisted(&self, worker: WorkerId) -> bool
        requires { tables.IsThere self.now.layout (Worker worker) }
        ensures { result ≡ workers.is_enlisted (past_of self.now.entries) worker }
    {
        self.slot(worker).enlisted
    }

    /// Whether the worker is idle and may go back to the reserve.
    pub fn may_retire(&self, worker: WorkerId) -> bool
        requires { tables.IsThere self.now.layout (Worker worker) }
        ensures { result
            ≡ (workers.is_idle (past_of self.now.entries) worker.pool worker.index
            && workers.may_retire self.now.layout (past_of self.now.entries) worker.pool) }
    {
        self.pools.may_retire(pool_place(worker.pool), worker.index)
    }

    /// The number of the next queueing to start.
    #[inline(always)]
    pub fn next(&self, pool: PoolId) -> Option<Number>
        requires { pool.cpu.0 < self.now.layout.cpus }
        ensures { result ≡ option_map number_of_queueing (active.next self.now.layout (past_of self.now.entries) pool) }
    {
        self.pools.next(pool_place(pool))
    }

    /// How many runs hold the pool: those that are awake, but for those of CPU intensive queues.
    #[inline(always)]
    pub fn runnable(&self, pool: PoolId) -> u32
        requires { pool.cpu.0 < self.now.layout.cpus }
        ensures { result ≡ workers.runnable self.now.layout (past_of self.now.entries) pool }
    {
        self.pools.runnable(pool_place(pool))
    }

    /// The worker of the reserve that is enlisted where this one starts a queueing.
    #[inline(always)]
    pub fn enlisted_by(&self, worker: WorkerId) -> Option<u8>
        requires { tables.IsThere self.now.layout (Worker worker) }
        ensures { result ≡ workers.enlisted_by self.now.layout (past_of self.now.entries) worker }
    {
        self.pools
            .would_enlist(pool_place(worker.pool), worker.index)
    }

    /// The number of what the worker runs.
    #[inline(always)]
    pub fn run(&self, worker: WorkerId) -> Option<Number>
        requires { tables.IsThere self.now.layout (Worker worker) }
        ensures { result ≡ runs.run (past_of self.now.entries) worker }
    {
        match self.slot(worker).run {
            Some(task) => Some(task.number),
            None => None,
        }
    }

    /// The task that the pool would start next.
    #[inline(always)]
    pub(crate) fn next_task(&self, pool: PoolId) -> Option<Task>
        requires { pool.cpu.0 < self.now.layout.cpus }
        ensures is { result ≡ next_task (pool_of self.now.layout (past_of self.now.entries) pool) }
        ensures legal { IsLegal self.now.layout (past_of self.now.entries) }
    {
        self.pools.next_task(pool_place(pool))
    }

    /// What the pool would start next.
    #[inline(always)]
    pub fn next_queueing(&self, pool: PoolId) -> Option<Queueing>
        requires { pool.cpu.0 < self.now.layout.cpus }
        ensures { result ≡ active.next self.now.layout (past_of self.now.entries) pool }
    {
        match self.next_task(pool) {
            Some(task) => self.unstarted(task.item),
            None => None,
        }
    }

    /// The first queueing of the pool's worklist.
    pub fn first_listed(&self, pool: PoolId) -> Option<Queueing>
        requires { pool.cpu.0 < self.now.layout.cpus }
        ensures { result ≡ slice_get (active.worklist self.now.layout (past_of self.now.entries) pool) 0 }
    {
        match self.pools.first(pool_place(pool)) {
            Some(task) => self.unstarted(task.item),
            None => None,
        }
    }

    /// What stands after a queueing in the pool's worklist. Where the queueing isn't listed there, any one or none.
    pub fn listed_after(&self, pool: PoolId, queueing: Queueing) -> Option<Queueing>
        requires pool { pool.cpu.0 < self.now.layout.cpus }
        requires item { queueing.item.0 < self.now.layout.items }
        ensures { (k : ℕ)
            → slice_get (active.worklist self.now.layout (past_of self.now.entries) pool) k ≡ Some queueing
            → result ≡ slice_get (active.worklist self.now.layout (past_of self.now.entries) pool) (k + 1) }
    {
        match self.pools.after(pool_place(pool), queueing.item) {
            Some(task) => self.unstarted(task.item),
            None => None,
        }
    }
}
