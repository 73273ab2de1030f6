//! What takes the places of a queue on a CPU.

ghost use Rattle.std.specs.Prelude.{◌≡◌, ◌<◌, IfSome, find};
ghost use Rattle.cmwq_model.specs.Active.{same_place};
ghost use Rattle.cmwq_model.specs.Prelude.{indices, past_of};
ghost use Rattle.cmwq_refinement.specs.Places.{IsQueueingThere};
ghost use Rattle.cmwq_state.specs.Pwqs.{active_on};
ghost use Rattle.cmwq_obstacle.specs.Firsts.{AreFirsts, IsPlaceThere};
ghost use Rattle.cmwq_obstacle.specs.Obstacles as spec;

use crate::firsts::Firsts;
use cmwq_model::{ItemId, MOST_CPUS, Place, PoolId, Queueing, Shape, WorkerId};
use cmwq_state::State;

/// How many CPUs a shape has at most.
const CPUS: usize = MOST_CPUS as usize;

/// Whether they are the same queue and CPU.
fn is_same(place: Place, other: Place) -> bool
    ensures { result ≡ same_place place other }
{
    place.queue.0 == other.queue.0 && place.cpu.0 == other.cpu.0
}

/// Whether this worker runs a queueing at the place.
fn runs_there(state: &State, place: Place, worker: WorkerId) -> bool
    requires cpu { worker.pool.cpu.0 < state.now.layout.cpus }
    requires index { worker.index < state.now.layout.workers }
    ensures { result ≡ spec.runs_there (past_of state.now.entries) place worker.pool worker.index }
{
    match state.queueing_run(worker) {
        Some(run) => is_same(place, run.place),
        None => false,
    }
}

/// The first worker of the pool that runs a queueing at the place.
fn runner(state: &State, shape: &Shape, place: Place, pool: PoolId) -> Option<u8>
    requires shape { shape.now ≡ state.now.layout }
    requires cpu { pool.cpu.0 < state.now.layout.cpus }
    ensures is { result
        ≡ find (spec.runs_there (past_of state.now.entries) place pool) (indices state.now.layout) }
    ensures there { IfSome result (λ index. index < state.now.layout.workers) }
{
    for index in 0..shape.counts().workers {
        if runs_there(state, place, WorkerId { pool, index }) {
            return Some(index);
        }
    }
    None
}

/// The first queueing that is active at a place of this pool.
pub(crate) fn first_active(
    state: &State,
    shape: &Shape,
    firsts: &Firsts,
    place: Place,
    pool: PoolId,
) -> Option<Queueing>
    requires shape { shape.now ≡ state.now.layout }
    requires firsts { AreFirsts state.now.layout (past_of state.now.entries) firsts.now }
    requires place { IsPlaceThere state.now.layout place }
    requires cpu { pool.cpu.0 < state.now.layout.cpus }
    ensures { result ≡ spec.first_active state.now.layout (past_of state.now.entries) place pool }
{
    if let Some(index) = runner(state, shape, place, pool) {
        return state.queueing_run(WorkerId { pool, index });
    }
    match firsts.at(state, shape, place) {
        Some(item) => state.unstarted(ItemId(item)),
        None => None,
    }
}

/// How many queueings are active where this one is queued.
pub(crate) fn active_beside(state: &State, shape: &Shape, queueing: Queueing) -> u32
    requires shape { shape.now ≡ state.now.layout }
    requires there { IsQueueingThere state.now.layout queueing }
    ensures { result
        ≡ active_on state.now.layout (past_of state.now.entries) queueing.place.queue.0 queueing.place.cpu.0 }
{
    // it shows that the CPU is one of those of which numbers are kept
    let _counts = shape.counts();
    let counts = state.active_counts();
    counts[CPUS * usize::from(queueing.place.queue.0) + usize::from(queueing.place.cpu.0)]
}
