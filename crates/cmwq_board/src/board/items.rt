//! What an item does.

ghost use Rattle.std.specs.Prelude.{◌≡◌, ◌<◌, ℕ, IfSome, None, false, is_some, nat_lt, true};
ghost use Rattle.cmwq_core.specs.History.{past_in};
ghost use Rattle.cmwq_dispatch.specs.Dispatched.{past_now};
ghost use Rattle.cmwq_model.specs.Prelude.{booking, is_at, item_run, pool_at, run, unstarted_queueing};
ghost use Rattle.cmwq_state.specs.Tables as tables;
ghost use Rattle.cmwq_model.specs.declared.id.Who.TheVariants as who;
ghost use Rattle.cmwq_board.specs.Boarded.{layout_of, past_of_board};
ghost use Rattle.cmwq_board.specs.Items.{item_state, pending_of};

use crate::board::Board;
use crate::item_state::{ItemState, Pending};
use cmwq_dispatch::Dispatch;
use cmwq_model::{ItemId, Number, Place, PoolId, Shape, Start, WorkerId};
use cmwq_state::State;

/// Whether the item is queued or booked, and where.
fn pending(dispatch: &Dispatch, item: ItemId) -> Pending
    requires { item.0 < dispatch.now.history.layout.items }
    ensures { result ≡ pending_of (unstarted_queueing (past_now dispatch.now) item.0)
        (booking (past_now dispatch.now) item.0) }
{
    let state = dispatch.execution().state();
    if let Some(queueing) = state.unstarted(item) {
        return Pending::Queued {
            place: queueing.place,
            number: queueing.number,
        };
    }
    match state.timer(item) {
        Some(timer) => Pending::Booked {
            place: timer.place,
            due: timer.due,
        },
        None => Pending::No,
    }
}

/// The pool in which a queueing at this place runs.
fn pool_of(shape: &Shape, place: Place) -> PoolId
    ensures { result ≡ pool_at shape.now place }
{
    let high = match shape.queues().get(usize::from(place.queue.0)) {
        Some(queue) => queue.high,
        None => false,
    };
    PoolId {
        cpu: place.cpu,
        high,
    }
}

/// Whether the worker runs the queueing of this number.
fn runs(state: &State, worker: WorkerId, number: Number) -> bool
    requires { tables.IsThere state.now.layout (who.Worker worker) }
    ensures { result ≡ is_at (run (past_in state.now) worker) number }
{
    match state.run(worker) {
        Some(runs) => runs == number,
        None => false,
    }
}

/// The worker of this pool that runs the queueing of this number.
fn runner(state: &State, workers: u8, pool: PoolId, number: Number) -> Option<WorkerId>
    requires workers { workers ≡ state.now.layout.workers }
    requires cpu { pool.cpu.0 < state.now.layout.cpus }
    ensures runs { IfSome result (λ worker. is_at (run (past_in state.now) worker) number ≡ true) }
    ensures none { result ≡ None
        → (k : ℕ) → k < workers → is_at (run (past_in state.now) (record { pool = pool; index = k })) number ≡ false }
{
    for index in 0..workers {
        let worker = WorkerId { pool, index };
        if runs(state, worker, number) {
            return Some(worker);
        }
    }
    None
}

/// The worker that runs the item, and the number of what it runs.
fn run_of(dispatch: &Dispatch, item: ItemId) -> Option<Start>
    requires { item.0 < dispatch.now.history.layout.items }
    ensures { result ≡ item_run (past_now dispatch.now) item.0 }
{
    let _legal = dispatch.execution().len();
    let shape = dispatch.shape();
    let state = dispatch.execution().state();
    let queueing = state.item_run(item)?;
    let pool = pool_of(shape, queueing.place);
    let worker = runner(state, shape.counts().workers, pool, queueing.number)?;
    Some(Start {
        worker,
        number: queueing.number,
    })
}

impl Board {
    /// Whether the item is pending, where, and which worker runs it. None where the shape has no such item.
    pub fn item(&self, item: ItemId) -> Option<ItemState>
        ensures there { is_some result ≡ nat_lt item.0 (layout_of self.now).items }
        ensures state { IfSome result (λ state. state ≡ item_state (past_of_board self.now) item.0) }
    {
        if item.0 >= self.dispatch.shape().counts().items {
            return None;
        }
        Some(ItemState {
            pending: pending(&self.dispatch, item),
            run: run_of(&self.dispatch, item),
        })
    }
}
