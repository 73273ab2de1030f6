//! The workers of all pools that rest.

ghost use Rattle.std.specs.Prelude.{◌≡◌, ◌<◌, ◌≤◌, ◌*◌, ◌∷◌, List, drop, length};
ghost use Rattle.cmwq_core.specs.History.{past_in};
ghost use Rattle.cmwq_model.specs.Prelude.{IsLegal, Layout};
ghost use Rattle.cmwq_model.specs.declared.entry.Entry.{Entry as Entered};
ghost use Rattle.cmwq_model.specs.declared.id.PoolId.{PoolId as Pool};
ghost use Rattle.cmwq_theory_steps.specs.Endings.{ending};
ghost use Rattle.cmwq_theory_wakes.specs.Reach.{Reaches, reach_by_ending, reach_by_reply};
ghost use Rattle.cmwq_dispatch.specs.Reached.{IsReachWithin, reach_as};
ghost use Rattle.cmwq_dispatch.specs.Pools.{AllEmpty, AllRecorded, IsAttendedAt, LeavesNamed, OthersSame, OwnIsUp};
ghost use Rattle.cmwq_dispatch.specs.Pools.{RestSame, pool_number};

use crate::reach::{Reach, reach_by_ending, reach_by_reply};
use crate::resting::RestingWorkers;
use crate::wakes::Wakes;
use cmwq_core::Execution;
use cmwq_model::{CpuId, Entry, PoolId, Queueing, Shape, Who, WorkerId};

/// The number of a pool, which is its place.
pub(crate) fn place_of(pool: PoolId) -> usize
    ensures { result ≡ pool_number pool }
{
    2 * usize::from(pool.cpu.0) + if pool.high { 1 } else { 0 }
}

fn pool_at(place: usize) -> PoolId
    requires { place < 128 }
    ensures number { pool_number result ≡ place }
    ensures cpu { 2 * result.cpu.0 ≤ place }
{
    PoolId {
        cpu: CpuId((place / 2) as u8),
        high: place % 2 == 1,
    }
}

/// No worker of any pool rests.
pub(crate) fn clear_all(pools: &mut [RestingWorkers])
    ensures { AllEmpty pools.new }
{
    for place in 0..pools.len() {
        pools[place] = RestingWorkers::NONE;
    }
}

/// Names one of the pool's resting workers, if it would start something.
fn look_in(pools: &mut [RestingWorkers], execution: &Execution, pool: PoolId, wakes: &mut Wakes)
    requires cpu { pool.cpu.0 < execution.now.layout.cpus }
    requires recorded { AllRecorded (past_in execution.now) pools.old }
    ensures recorded { AllRecorded (past_in execution.now) pools.new }
    ensures attended { IsAttendedAt execution.now.layout (past_in execution.now) pools.new pool }
    ensures others { OthersSame pool pools.old pools.new }
    ensures named { LeavesNamed pools.old pools.new wakes.old wakes.new }
{
    let place = place_of(pool);
    if place >= pools.len() {
        return;
    }
    let mut workers = pools[place];
    let named = workers.name_one(execution, pool);
    pools[place] = workers;
    if let Some(index) = named {
        wakes.add_worker(WorkerId { pool, index });
    }
}

/// The same of all pools.
fn look_everywhere(pools: &mut [RestingWorkers], execution: &Execution, wakes: &mut Wakes)
    requires few { length pools.old ≤ 128 }
    requires cpus { length pools.old ≤ 2 * execution.now.layout.cpus }
    requires recorded { AllRecorded (past_in execution.now) pools.old }
    ensures recorded { AllRecorded (past_in execution.now) pools.new }
    ensures attended { (p : Pool) → IsAttendedAt execution.now.layout (past_in execution.now) pools.new p }
    ensures named { LeavesNamed pools.old pools.new wakes.old wakes.new }
{
    for place in 0..pools.len() {
        look_in(pools, execution, pool_at(place), wakes);
    }
}

/// The same of those that are reached.
fn look(pools: &mut [RestingWorkers], execution: &Execution, reach: Reach, wakes: &mut Wakes)
    requires few { length pools.old ≤ 128 }
    requires cpus { length pools.old ≤ 2 * execution.now.layout.cpus }
    requires reach { IsReachWithin execution.now.layout.cpus (reach_as reach) }
    requires recorded { AllRecorded (past_in execution.now) pools.old }
    ensures recorded { AllRecorded (past_in execution.now) pools.new }
    ensures attended { (p : Pool) → Reaches (reach_as reach) p
        → IsAttendedAt execution.now.layout (past_in execution.now) pools.new p }
    ensures kept { (p : Pool) → IsAttendedAt execution.now.layout (past_in execution.now) pools.old p
        → IsAttendedAt execution.now.layout (past_in execution.now) pools.new p }
    ensures named { LeavesNamed pools.old pools.new wakes.old wakes.new }
{
    match reach {
        Reach::Nowhere => {}
        Reach::Only(pool) => look_in(pools, execution, pool, wakes),
        Reach::Everywhere => look_everywhere(pools, execution, wakes),
    }
}

/// After an entry of one that does not rest: who is enlisted by it is of the reserve no more.
fn enlist(pools: &mut [RestingWorkers], entry: &Entry)
    requires { OwnIsUp entry.now pools.old }
    ensures recorded { (s : Layout) (past : List Entered) → IsLegal s (entry.now ∷ past) → AllRecorded past pools.old
        → AllRecorded (entry.now ∷ past) pools.new }
    ensures same { RestSame pools.old pools.new }
{
    let Who::Worker(worker) = entry.who else {
        return;
    };
    let place = place_of(worker.pool);
    if place >= pools.len() {
        return;
    }
    let mut workers = pools[place];
    workers.entered(entry, worker.pool);
    pools[place] = workers;
}

/// After an entry that ended this queueing, of one that does not rest: in each pool that it reaches a worker is named,
/// if one would start something.
pub(crate) fn look_after(
    pools: &mut [RestingWorkers],
    execution: &Execution,
    shape: &Shape,
    entry: &Entry,
    ended: &Option<Queueing>,
    wakes: &mut Wakes,
)
    requires past { past_in execution.now ≡ entry.now ∷ drop 1 (past_in execution.now) }
    requires legal { IsLegal execution.now.layout (past_in execution.now) }
    requires shape { shape.now ≡ execution.now.layout }
    requires ended { ended.now ≡ ending (drop 1 (past_in execution.now)) entry.now }
    requires few { length pools.old ≤ 128 }
    requires cpus { length pools.old ≤ 2 * execution.now.layout.cpus }
    requires own { OwnIsUp entry.now pools.old }
    requires recorded { AllRecorded (drop 1 (past_in execution.now)) pools.old }
    requires attended { (p : Pool) → IsAttendedAt execution.now.layout (drop 1 (past_in execution.now)) pools.old p }
    ensures recorded { AllRecorded (past_in execution.now) pools.new }
    ensures attended { (p : Pool) → IsAttendedAt execution.now.layout (past_in execution.now) pools.new p }
    ensures named { LeavesNamed pools.old pools.new wakes.old wakes.new }
{
    enlist(pools, entry);
    look(
        pools,
        execution,
        reach_by_ending(shape, entry, ended),
        wakes,
    );
    look(pools, execution, reach_by_reply(shape, entry), wakes);
}
