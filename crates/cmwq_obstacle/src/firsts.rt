//! The first item that takes a place of each queue on each CPU. It is found once for all, since to look for it at each
//! item that waits would take the square of the items.

ghost use Rattle.std.specs.Prelude.{◌≡◌, ◌*◌, ◌<◌, ◌≤◌, ◌∷◌, ℕ, List, Contains, find, length, replicate, IfOk, IfSome};
ghost use Rattle.std.specs.Prelude.{None};
ghost use Rattle.std.specs.List.{range_with_len};
ghost use Rattle.cmwq_model.specs.Prelude.{most_cpus, past_of, still_open};
ghost use Rattle.cmwq_obstacle.specs.Firsts.{AreFirsts, AreFirstsOf, IsPlaceThere, active_place, listed_at, row_of};
ghost use Rattle.cmwq_obstacle.specs.Obstacles.{is_listed_there};

use cmwq_model::{ItemId, MOST_CPUS, NoMemory, Place, Queueing, Shape};
use cmwq_state::State;
use std::alloc::Global;
use std::marker::Model;

/// How many CPUs a shape has at most.
const CPUS: usize = MOST_CPUS as usize;

/// For each queue and CPU the first item whose queueing has not started and is active there, at one moment.
#[derive(Drop)]
pub struct Firsts {
    rows: Vec<Option<u16>>,
}

impl Model for Firsts {
    ghost use Rattle.std.specs.Prelude.{ℕ, List, Option};

    ghost Value = { List (Option ℕ) };

    ghost view = { λ firsts. firsts.rows.items };
}

/// The row of a place.
fn row_of(place: Place) -> usize
    ensures { result ≡ row_of place }
{
    CPUS * usize::from(place.queue.0) + usize::from(place.cpu.0)
}

/// Where a queueing is active.
fn active_place(state: &State, queueing: Queueing) -> Option<Place>
    requires { Contains (still_open (past_of state.now.entries)) queueing }
    ensures { result ≡ active_place state.now.layout (past_of state.now.entries) queueing }
{
    if state.is_active(queueing) {
        Some(queueing.place)
    } else {
        None
    }
}

/// Where what the item has queued, and has not started, is active.
fn listed_at(state: &State, item: ItemId) -> Option<Place>
    requires { item.0 < state.now.layout.items }
    ensures is { result ≡ listed_at state.now.layout (past_of state.now.entries) item.0 }
    ensures there { IfSome result (λ place. IsPlaceThere state.now.layout place) }
{
    // it shows that the history is legal, so that what is queued fits its shape
    let _owing = state.owing();
    match state.unstarted(item) {
        Some(queueing) => active_place(state, queueing),
        None => None,
    }
}

/// One item more, which comes before the others.
fn put(rows: &mut Vec<Option<u16>>, state: &State, item: ItemId)
    requires item { item.0 < state.now.layout.items }
    requires cpus { state.now.layout.cpus ≤ most_cpus }
    requires many { length rows.old.items ≡ most_cpus * length state.now.layout.queues }
    ensures { (items : List ℕ) → AreFirstsOf state.now.layout (past_of state.now.entries) items rows.old.items
        → AreFirstsOf state.now.layout (past_of state.now.entries) (item.0 ∷ items) rows.new.items }
{
    if let Some(place) = listed_at(state, item) {
        rows[row_of(place)] = Some(item.0);
    }
}

/// A table of so many rows, of which no item is.
fn new_rows(alloc: Global, rows: usize) -> Result<Vec<Option<u16>>, NoMemory>
    ensures { IfOk result (λ table. table.items ≡ replicate rows None) }
{
    Ok(vec![in alloc; None; rows]?)
}

impl Firsts {
    /// Those of this moment.
    ///
    /// # Errors
    /// `NoMemory` where it ran out.
    pub fn new(alloc: Global, state: &State, shape: &Shape) -> Result<Firsts, NoMemory>
        requires { shape.now ≡ state.now.layout }
        ensures { IfOk result (λ firsts. AreFirsts state.now.layout (past_of state.now.entries) firsts) }
    {
        let items = shape.counts().items;
        let mut rows = new_rows(alloc, CPUS * shape.queues().len())?;
        // from the last item down, so that the first one is what stays
        for put_so_far in 0..items {
            put(&mut rows, state, ItemId(items - 1 - put_so_far));
        }
        Ok(Firsts { rows })
    }

    /// The first item of a place.
    pub(crate) fn at(&self, state: &State, shape: &Shape, place: Place) -> Option<u16>
        requires shape { shape.now ≡ state.now.layout }
        requires place { IsPlaceThere state.now.layout place }
        requires firsts { AreFirsts state.now.layout (past_of state.now.entries) self.now }
        ensures is { result
            ≡ find (is_listed_there state.now.layout (past_of state.now.entries) place)
            (range_with_len 0 state.now.layout.items) }
        ensures there { IfSome result (λ item. item < state.now.layout.items) }
    {
        // it shows that the CPU is one of those of which rows are kept
        let _counts = shape.counts();
        self.rows[row_of(place)]
    }
}
