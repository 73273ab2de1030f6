//! What keeps a queueing that has not started.

ghost use Rattle.std.specs.Prelude.{◌≡◌, ◌<◌, not, Contains, find};
ghost use Rattle.std.specs.List.{list_any};
ghost use Rattle.cmwq_model.specs.Prelude.{indices, is_holding, is_idle, is_intensive, past_of, pool_at, still_open};
ghost use Rattle.cmwq_refinement.specs.Places.{IsQueueingThere};
ghost use Rattle.cmwq_obstacle.specs.Firsts.{AreFirsts};
ghost use Rattle.cmwq_obstacle.specs.Obstacles as spec;

use crate::firsts::Firsts;
use crate::places::{active_beside, first_active};
use cmwq_model::{ItemId, PoolId, Queueing, Shape, WorkerId};
use cmwq_state::State;

/// Why a queueing has not started.
#[derive(Clone, Copy, Debug)]
pub enum Obstacle {
    /// Its queue is frozen.
    Frozen,
    /// As many queueings of its queue are active on its CPU as may be.
    NoPlace {
        /// The first of them.
        first: Option<Queueing>,
        /// How many there are.
        active: u32,
    },
    /// Its item runs.
    ItemRuns,
    /// A run that is awake holds the pool: that of this worker.
    Held(WorkerId),
    /// Each enlisted worker of the pool has a run.
    NoWorker,
    /// Another queueing of the pool is the next to start.
    Behind(Queueing),
}

/// Whether the runs of this queue hold their pool.
fn holds_its_pool(shape: &Shape, queue: u8) -> bool
    ensures { result ≡ not (is_intensive shape.now queue) }
{
    match shape.queues().get(usize::from(queue)) {
        Some(queue) => !queue.intensive,
        None => true,
    }
}

/// Whether this worker's run holds its pool.
fn holds(state: &State, shape: &Shape, worker: WorkerId) -> bool
    requires shape { shape.now ≡ state.now.layout }
    requires cpu { worker.pool.cpu.0 < state.now.layout.cpus }
    requires index { worker.index < state.now.layout.workers }
    ensures { result ≡ is_holding state.now.layout (past_of state.now.entries) worker.pool worker.index }
{
    if !state.runs_awake(worker) {
        return false;
    }
    match state.queueing_run(worker) {
        Some(run) => holds_its_pool(shape, run.place.queue.0),
        None => true,
    }
}

/// The first worker of a pool whose run holds it.
fn holder(state: &State, shape: &Shape, pool: PoolId) -> Option<u8>
    requires shape { shape.now ≡ state.now.layout }
    requires cpu { pool.cpu.0 < state.now.layout.cpus }
    ensures { result ≡ find (is_holding state.now.layout (past_of state.now.entries) pool) (indices state.now.layout) }
{
    for index in 0..shape.counts().workers {
        if holds(state, shape, WorkerId { pool, index }) {
            return Some(index);
        }
    }
    None
}

/// Whether this worker is enlisted and has no run.
fn is_idle(state: &State, worker: WorkerId) -> bool
    requires cpu { worker.pool.cpu.0 < state.now.layout.cpus }
    requires index { worker.index < state.now.layout.workers }
    ensures { result ≡ is_idle (past_of state.now.entries) worker.pool worker.index }
{
    state.is_enlisted(worker) && !state.has_run(worker)
}

/// Whether an enlisted worker of a pool has no run.
fn is_any_idle(state: &State, shape: &Shape, pool: PoolId) -> bool
    requires shape { shape.now ≡ state.now.layout }
    requires cpu { pool.cpu.0 < state.now.layout.cpus }
    ensures { result ≡ list_any (is_idle (past_of state.now.entries) pool) (indices state.now.layout) }
{
    for index in 0..shape.counts().workers {
        if is_idle(state, WorkerId { pool, index }) {
            return true;
        }
    }
    false
}

/// The pool in which this queueing runs.
pub(crate) fn pool_of(shape: &Shape, queueing: Queueing) -> PoolId
    ensures { result ≡ pool_at shape.now queueing.place }
{
    let high = match shape.queues().get(usize::from(queueing.place.queue.0)) {
        Some(queue) => queue.high,
        None => false,
    };
    PoolId {
        cpu: queueing.place.cpu,
        high,
    }
}

/// What keeps an active queueing in this pool.
fn of_pool(state: &State, shape: &Shape, queueing: Queueing, pool: PoolId) -> Option<Obstacle>
    requires shape { shape.now ≡ state.now.layout }
    requires cpu { pool.cpu.0 < state.now.layout.cpus }
    ensures { result ≡ spec.of_pool state.now.layout (past_of state.now.entries) queueing pool }
{
    if let Some(index) = holder(state, shape, pool) {
        return Some(Obstacle::Held(WorkerId { pool, index }));
    }
    if !is_any_idle(state, shape, pool) {
        return Some(Obstacle::NoWorker);
    }
    match state.next_queueing(pool) {
        Some(next) if next.number != queueing.number => Some(Obstacle::Behind(next)),
        _ => None,
    }
}

/// What keeps an open queueing that is not active.
fn of_inactive(state: &State, shape: &Shape, firsts: &Firsts, queueing: Queueing) -> Obstacle
    requires shape { shape.now ≡ state.now.layout }
    requires firsts { AreFirsts state.now.layout (past_of state.now.entries) firsts.now }
    requires there { IsQueueingThere state.now.layout queueing }
    ensures { result ≡ spec.of_inactive state.now.layout (past_of state.now.entries) queueing }
{
    if state.width(queueing.place.queue) == 0 {
        return Obstacle::Frozen;
    }
    Obstacle::NoPlace {
        first: first_active(
            state,
            shape,
            firsts,
            queueing.place,
            pool_of(shape, queueing),
        ),
        active: active_beside(state, shape, queueing),
    }
}

/// What keeps an open queueing.
pub(crate) fn of_queueing(
    state: &State,
    shape: &Shape,
    firsts: &Firsts,
    queueing: Queueing,
) -> Option<Obstacle>
    requires shape { shape.now ≡ state.now.layout }
    requires firsts { AreFirsts state.now.layout (past_of state.now.entries) firsts.now }
    requires open { Contains (still_open (past_of state.now.entries)) queueing }
    requires there { IsQueueingThere state.now.layout queueing }
    ensures { result ≡ spec.obstacle state.now.layout (past_of state.now.entries) queueing }
{
    if !state.is_active(queueing) {
        return Some(of_inactive(state, shape, firsts, queueing));
    }
    if state.is_running(queueing.item) {
        return Some(Obstacle::ItemRuns);
    }
    of_pool(state, shape, queueing, pool_of(shape, queueing))
}

/// Why what an item has queued has not started. None if nothing of it is queued, or if an idle worker of its pool would
/// start it next.
pub fn obstacle_of(state: &State, shape: &Shape, firsts: &Firsts, item: ItemId) -> Option<Obstacle>
    requires shape { shape.now ≡ state.now.layout }
    requires firsts { AreFirsts state.now.layout (past_of state.now.entries) firsts.now }
    requires item { item.0 < state.now.layout.items }
    ensures { result ≡ spec.obstacle_of state.now.layout (past_of state.now.entries) item.0 }
{
    // it shows that the history is legal, so that what is queued fits its shape
    let _owing = state.owing();
    let queueing = state.unstarted(item)?;
    of_queueing(state, shape, firsts, queueing)
}
