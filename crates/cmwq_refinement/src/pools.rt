//! Where a pool is that of some entries, the calls for one more entry make it that of the longer history, and what it
//! answers is what the definitions say.

ghost use Rattle.cmwq_refinement.specs.Pools.{PoolsAtFirst, PoolsRefine, NextsAreNext, RunnablesAreRunnable};
ghost use Rattle.cmwq_refinement.specs.Pools.{StartsEnlistAlike, IdleRetireAlike, SlotsAreWorkers, RepliesApplyToPools};
ghost use Rattle.cmwq_refinement.specs.Pools.{ActiveMayBeAdded, SlotsForWorkers, ItemsAreListedOnce};

/// Where a pool is that of some entries, the calls for one more entry make it that of the longer history, and what it
/// answers is what the definitions say.
pub fn pools_refine()
    ensures pools_at_first { PoolsAtFirst }
    ensures pools_refine { PoolsRefine }
    ensures nexts_are_next { NextsAreNext }
    ensures runnables_are_runnable { RunnablesAreRunnable }
    ensures starts_enlist_alike { StartsEnlistAlike }
    ensures idle_retire_alike { IdleRetireAlike }
    ensures slots_for_workers { SlotsForWorkers }
    ensures slots_are_workers { SlotsAreWorkers }
    ensures replies_apply_to_pools { RepliesApplyToPools }
    ensures active_may_be_added { ActiveMayBeAdded }
    ensures items_are_listed_once { ItemsAreListedOnce }
{}
