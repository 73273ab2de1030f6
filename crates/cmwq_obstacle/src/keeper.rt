//! Which queueing alone keeps another from its start.

ghost use Rattle.std.specs.Prelude.{◌≡◌, ◌<◌};
ghost use Rattle.cmwq_model.specs.Prelude.{past_of};
ghost use Rattle.cmwq_refinement.specs.Places.{IsQueueingThere};
ghost use Rattle.cmwq_obstacle.specs.Firsts.{AreFirsts};
ghost use Rattle.cmwq_obstacle.specs.Obstacles as spec;

use crate::firsts::Firsts;
use crate::obstacle::{Obstacle, of_queueing, pool_of};
use cmwq_model::{ItemId, Queueing, Shape, WorkerId};
use cmwq_state::State;

/// The queueing that alone keeps one for which this is the obstacle.
fn keeper(
    state: &State,
    shape: &Shape,
    queueing: Queueing,
    why: Option<Obstacle>,
) -> Option<Queueing>
    requires shape { shape.now ≡ state.now.layout }
    requires there { IsQueueingThere state.now.layout queueing }
    ensures { result ≡ spec.keeper state.now.layout (past_of state.now.entries) queueing why }
{
    let pool = pool_of(shape, queueing);
    match why {
        Some(Obstacle::NoPlace { first, active }) if active == 1 => first,
        Some(Obstacle::NoWorker) if shape.counts().workers == 1 => {
            state.queueing_run(WorkerId { pool, index: 0 })
        }
        _ => None,
    }
}

/// The queueing that alone keeps what an item has queued from its start: if its queue has no place left and only one is
/// active on its CPU, that one; if no worker is idle and its pool has only one, what that runs.
pub fn keeper_of(state: &State, shape: &Shape, firsts: &Firsts, item: ItemId) -> Option<Queueing>
    requires shape { shape.now ≡ state.now.layout }
    requires firsts { AreFirsts state.now.layout (past_of state.now.entries) firsts.now }
    requires item { item.0 < state.now.layout.items }
    ensures { result ≡ spec.keeper_of state.now.layout (past_of state.now.entries) item.0 }
{
    // it shows that the history is legal, so that what is queued fits its shape
    let _owing = state.owing();
    let queueing = state.unstarted(item)?;
    keeper(
        state,
        shape,
        queueing,
        of_queueing(state, shape, firsts, queueing),
    )
}
