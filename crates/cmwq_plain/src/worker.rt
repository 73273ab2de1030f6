ghost use Rattle.std.specs.Prelude.{◌≡◌, ◌≤◌, false, count_by, find};
ghost use Rattle.std.specs.List.{list_any};
ghost use Rattle.std.specs.Option.{option_map_or};
ghost use Rattle.cmwq_model.specs.Prelude.{indices, is_intensive, run_queue, worker_at, is_in_pool, enlists};
ghost use Rattle.cmwq_model.specs.Prelude.{is_enlisted, is_occupied, is_idle};
ghost use Rattle.cmwq_model.specs.Prelude.{is_reserve, is_holding, runnable, is_other_idle, enlisted_by, may_retire};

use crate::entries::{is_by, is_same_pool};
use crate::layout::{is_intensive, workers};
use crate::past::Past;
use crate::queueings::run_queue;
use crate::runs::{has_run, runs_awake};
use cmwq_model::{Entry, PoolId, Reply, Shape, Who, WorkerId};

fn worker_at(pool: PoolId, index: u8) -> WorkerId
    ensures { result ≡ worker_at pool index }
{
    WorkerId { pool, index }
}

fn is_in_pool(pool: PoolId, who: Who) -> bool
    ensures { result ≡ is_in_pool pool who }
{
    match who {
        Who::Caller(_) => false,
        Who::Worker(worker) => is_same_pool(worker.pool, pool),
    }
}

/// Whether the entry enlists the worker.
fn enlists(entry: &Entry, worker: WorkerId) -> bool
    ensures { result ≡ enlists entry.now worker }
{
    is_in_pool(worker.pool, entry.who)
        && matches!(entry.reply, Reply::StartedEnlist(_, index) if index == worker.index)
}

/// Whether the worker is enlisted: worker 0 is at first.
#[tactic(auto, using(crate::proofs::Parts::ends, crate::proofs::Steps::enlisted_steps))]
pub fn is_enlisted(past: &Past<'_>, worker: WorkerId) -> bool
    ensures { result ≡ is_enlisted past.now worker }
{
    let mut enlisted = worker.index == 0;
    for k in 0..past.len() {
        let entry = past.at(k);
        let leaves = is_by(Who::Worker(worker), &entry) && matches!(entry.reply, Reply::Retired);
        enlisted = enlists(&entry, worker) || (!leaves && enlisted);
    }
    enlisted
}

fn is_occupied(past: &Past<'_>, pool: PoolId, index: u8) -> bool
    ensures { result ≡ is_occupied past.now pool index }
{
    let worker = worker_at(pool, index);
    is_enlisted(past, worker) && has_run(past, worker)
}

fn is_idle(past: &Past<'_>, pool: PoolId, index: u8) -> bool
    ensures { result ≡ is_idle past.now pool index }
{
    let worker = worker_at(pool, index);
    is_enlisted(past, worker) && !has_run(past, worker)
}

/// Whether the worker's run keeps others of its pool from starting.
fn is_holding(shape: &Shape, past: &Past<'_>, pool: PoolId, index: u8) -> bool
    ensures { result ≡ is_holding shape.now past.now pool index }
{
    let worker = worker_at(pool, index);
    runs_awake(past, worker) && !is_run_intensive(shape, past, worker)
}

fn is_run_intensive(shape: &Shape, past: &Past<'_>, worker: WorkerId) -> bool
    ensures { result ≡ option_map_or (is_intensive shape.now) (run_queue past.now worker) false }
{
    match run_queue(past, worker) {
        Some(queue) => is_intensive(shape, queue),
        None => false,
    }
}

/// How many runs of the pool keep others from starting.
#[tactic(auto, unfolding(cmwq_model::specs::Workers::runnable))]
pub fn runnable(shape: &Shape, past: &Past<'_>, pool: PoolId) -> usize
    ensures { result ≡ runnable shape.now past.now pool }
{
    (0..workers(shape))
        .filter(|index| is_holding(shape, past, pool, *index))
        .count()
}

fn has_other_idle(shape: &Shape, past: &Past<'_>, worker: WorkerId) -> bool
    ensures { result ≡ list_any (is_other_idle past.now worker) (indices shape.now) }
{
    (0..workers(shape)).any(|index| index != worker.index && is_idle(past, worker.pool, index))
}

fn is_reserve(past: &Past<'_>, pool: PoolId, index: u8) -> bool
    ensures { result ≡ is_reserve past.now pool index }
{
    !is_enlisted(past, worker_at(pool, index))
}

fn find_reserve(shape: &Shape, past: &Past<'_>, pool: PoolId) -> Option<u8>
    ensures { result ≡ find (is_reserve past.now pool) (indices shape.now) }
{
    (0..workers(shape)).find(|index| is_reserve(past, pool, *index))
}

/// The worker that a start by this one enlists.
#[tactic(auto, unfolding(cmwq_model::specs::Workers::enlisted_by))]
pub fn enlisted_by(shape: &Shape, past: &Past<'_>, worker: WorkerId) -> Option<u8>
    ensures { result ≡ enlisted_by shape.now past.now worker }
{
    if has_other_idle(shape, past, worker) {
        return None;
    }
    find_reserve(shape, past, worker.pool)
}

fn count_idle(shape: &Shape, past: &Past<'_>, pool: PoolId) -> usize
    ensures count { result ≡ count_by (is_idle past.now pool) (indices shape.now) }
    ensures small { result ≤ 256 }
{
    (0..workers(shape))
        .filter(|index| is_idle(past, pool, *index))
        .count()
}

fn count_occupied(shape: &Shape, past: &Past<'_>, pool: PoolId) -> usize
    ensures { result ≡ count_by (is_occupied past.now pool) (indices shape.now) }
{
    (0..workers(shape))
        .filter(|index| is_occupied(past, pool, *index))
        .count()
}

/// Whether an idle worker of the pool may go back to the reserve.
#[tactic(auto, unfolding(cmwq_model::specs::Workers::may_retire))]
pub fn may_retire(shape: &Shape, past: &Past<'_>, pool: PoolId) -> bool
    ensures { result ≡ may_retire shape.now past.now pool }
{
    let idle = count_idle(shape, past, pool);
    let occupied = count_occupied(shape, past, pool);
    2 < idle && occupied <= (idle - 2) * 4
}
