//! The bits of items, and the mark of an entry: the item that it may change, with the bits after it.

ghost use Rattle.std.specs.Prelude.{◌≡◌, ◌+◌, ◌<◌, ◌∷◌, Some, if◌then◌else◌, is_some};
ghost use Rattle.cmwq_model.specs.Prelude.{is_booked, is_at, bits, past_of};
ghost use Rattle.cmwq_theory_steps.specs.Marks.{item_marked};
ghost use Rattle.cmwq_state.specs.Effects.{IsEffect};
ghost use Rattle.cmwq_model.specs.Prelude.{item_number};
ghost use Rattle.cmwq_refinement.specs.Flights.{flight_of};
ghost use Rattle.cmwq_core.specs.Flights.{ended_at, opened_at, flight_standing, started_at};
ghost use Rattle.cmwq_core.specs.History.{IsMark};

use cmwq_model::{ItemId, Mark, Queueing, Reply};
use cmwq_state::{Effect, State};

/// 1 if it is pending, plus 2 if it runs.
#[inline(always)]
pub(crate) fn bits_of(is_pending: bool, is_running: bool) -> u8
    ensures { result ≡ (if is_pending then 1 else 0) + (if is_running then 2 else 0) }
{
    let pending = if is_pending { 1 } else { 0 };
    let running = if is_running { 2 } else { 0 };
    pending + running
}

/// Whether an item runs, and whether it has a queueing that hasn't started.
#[derive(Clone, Copy)]
pub(crate) struct Standing {
    runs: bool,
    waits: bool,
}

#[inline(always)]
fn ended_at(reply: Reply, ended: Option<Queueing>, item: ItemId, standing: Standing) -> Standing
    ensures { result ≡ ended_at reply ended item.0 standing }
{
    match ended {
        Some(queueing) if queueing.item.0 == item.0 => {
            if matches!(reply, Reply::Finished(_)) {
                Standing {
                    runs: false,
                    waits: standing.waits,
                }
            } else {
                Standing {
                    runs: standing.runs,
                    waits: false,
                }
            }
        }
        _ => standing,
    }
}

#[inline(always)]
fn started_at(started: Option<Queueing>, item: ItemId, standing: Standing) -> Standing
    ensures { result ≡ started_at started item.0 standing }
{
    match started {
        Some(queueing) if queueing.item.0 == item.0 => Standing {
            runs: standing.waits,
            waits: false,
        },
        _ => standing,
    }
}

#[inline(always)]
fn opened_at(opened: Option<Queueing>, item: ItemId, standing: Standing) -> Standing
    ensures { result ≡ opened_at opened item.0 standing }
{
    match opened {
        Some(queueing) if queueing.item.0 == item.0 => Standing {
            runs: standing.runs,
            waits: true,
        },
        _ => standing,
    }
}

/// Whether an item is booked after an effect.
#[inline(always)]
fn booked_after(effect: Effect, item: ItemId, is_booked: bool) -> bool
    ensures { result ≡ (if is_at (item_number effect.settled) item.0 then is_some effect.booked else is_booked) }
{
    match effect.settled {
        Some(settled) if settled.0 == item.0 => effect.booked.is_some(),
        _ => is_booked,
    }
}

#[inline(always)]
fn item_standing(state: &State, item: ItemId) -> Standing
    requires { item.0 < state.now.layout.items }
    ensures { result ≡ flight_standing (flight_of (past_of state.now.entries) item.0) }
{
    Standing {
        runs: state.item_run(item).is_some(),
        waits: state.unstarted(item).is_some(),
    }
}

/// How an item stands after an effect.
#[inline(always)]
fn standing_after(state: &State, effect: Effect, item: ItemId) -> Standing
    requires there { item.0 < state.now.layout.items }
    requires is { IsEffect state.now.layout (past_of state.now.entries) effect }
    ensures { result ≡ flight_standing (flight_of (effect.entry ∷ past_of state.now.entries) item.0) }
{
    let ended = ended_at(
        effect.entry.reply,
        effect.ended,
        item,
        item_standing(state, item),
    );
    opened_at(effect.opened, item, started_at(effect.started, item, ended))
}

#[inline(always)]
fn is_booked_after(state: &State, effect: Effect, item: ItemId) -> bool
    requires there { item.0 < state.now.layout.items }
    requires is { IsEffect state.now.layout (past_of state.now.entries) effect }
    ensures { result ≡ is_booked (effect.entry ∷ past_of state.now.entries) item.0 }
{
    booked_after(effect, item, state.is_booked(item))
}

#[inline(always)]
fn bits_after(state: &State, effect: Effect, item: ItemId) -> u8
    requires there { item.0 < state.now.layout.items }
    requires is { IsEffect state.now.layout (past_of state.now.entries) effect }
    ensures { result ≡ bits (effect.entry ∷ past_of state.now.entries) item.0 }
{
    let standing = standing_after(state, effect, item);
    bits_of(
        is_booked_after(state, effect, item) | standing.waits,
        standing.runs,
    )
}

/// The item that the effect may change: that of its entry, or of what the entry starts or finishes.
#[inline(always)]
fn marked(state: &State, effect: Effect) -> Option<ItemId>
    requires { IsEffect state.now.layout (past_of state.now.entries) effect }
    ensures is { item_number result ≡ item_marked (past_of state.now.entries) effect.entry }
    ensures there { (item : ItemId) → result ≡ Some item → item.0 < state.now.layout.items }
{
    match effect.entry.item() {
        Some(item) => Some(item),
        None => match effect.started.or(effect.ended) {
            Some(queueing) => Some(queueing.item),
            None => None,
        },
    }
}

#[inline(always)]
pub(crate) fn mark(state: &State, effect: Effect) -> Mark
    requires { IsEffect state.now.layout (past_of state.now.entries) effect }
    ensures { IsMark state.now effect.entry.who effect.entry.call result }
{
    match marked(state, effect) {
        None => Mark {
            entry: effect.entry,
            item: None,
            bits: 0,
        },
        Some(item) => Mark {
            entry: effect.entry,
            item: Some(item),
            bits: bits_after(state, effect, item),
        },
    }
}
