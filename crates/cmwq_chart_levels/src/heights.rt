//! How high a level is.
ghost use Rattle.std.specs.Prelude.{◌≡◌, ◌+◌, ◌≤◌};
ghost use Rattle.cmwq_theory_steps.specs.Histories.{one};
ghost use Rattle.cmwq_history.specs.Steps.{after};
ghost use Rattle.cmwq_chart.specs.Levels as spec;
ghost use Rattle.cmwq_chart_levels.specs.Turns.{is_one_of_place, may_change};

use cmwq_chart::Height;
use cmwq_history::Step;
use cmwq_model::{MOST_CPUS, Place, Queueing, Reply};
use cmwq_state::Effect;

/// Whether there is a queueing, and it is of this place.
fn is_of_place(place: Place, queueing: Option<Queueing>) -> bool
    ensures { result ≡ is_one_of_place place queueing }
{
    match queueing {
        Some(queueing) => {
            place.queue.0 == queueing.place.queue.0 && place.cpu.0 == queueing.place.cpu.0
        }
        None => false,
    }
}

/// How many are open after an entry.
fn open_after(before: u32, is_opened: bool, is_ended: bool) -> u32
    requires few { before + one is_opened ≤ 4294967295 + one is_ended }
    requires some { one is_ended ≤ before + one is_opened }
    ensures { result + one is_ended ≡ before + one is_opened }
{
    match (is_opened, is_ended) {
        (true, false) => before + 1,
        (false, true) => before - 1,
        _ => before,
    }
}

/// How many queueings of this place are open after an entry.
fn open_at(step: &Step<'_, Effect>, before: u32, place: Place) -> u32
    requires { before ≡ spec.open_at step.now.past place }
    ensures { result ≡ spec.open_at (after step.now) place }
{
    // it shows that they are few
    let _all = step.state().open_count();
    let effect = step.told();
    let is_opened = is_of_place(place, effect.opened);
    let is_ended = is_of_place(place, effect.ended);
    open_after(before, is_opened, is_ended)
}

/// How many of them are active.
#[tactic(auto, using(crate::proofs::Counts::active_count_is))]
fn active_at(step: &Step<'_, Effect>, place: Place) -> u32
    requires { spec.IsPlaceOf step.now.layout place }
    ensures { result ≡ spec.active_at step.now.layout (after step.now) place }
{
    let cpus = usize::from(MOST_CPUS);
    step.state().active_counts()[cpus * usize::from(place.queue.0) + usize::from(place.cpu.0)]
}

/// The height of a place after an entry, of which that before it is known.
pub(crate) fn height_after(step: &Step<'_, Effect>, before: Height, place: Place) -> Height
    requires before { before ≡ spec.height_at step.now.layout step.now.past place }
    requires inside { spec.IsPlaceOf step.now.layout place }
    ensures { result ≡ spec.height_at step.now.layout (after step.now) place }
{
    Height {
        open_count: open_at(step, before.open_count, place),
        active_count: active_at(step, place),
        width: step.state().width(place.queue),
    }
}

/// Whether an entry that does this may change the height of a place.
pub(crate) fn may_change(effect: &Effect, place: Place) -> bool
    ensures { result ≡ may_change effect.now place }
{
    matches!(
        effect.entry.reply,
        Reply::Width(_) | Reply::Frozen | Reply::Thawed
    ) || is_of_place(place, effect.opened)
        || is_of_place(place, effect.ended)
}

/// Whether after so many entries the one height makes another level than the other.
pub(crate) fn is_changed(entries: usize, before: &Height, after: &Height) -> bool
    ensures { result ≡ spec.is_changed entries before.now after.now }
{
    entries > 0
        && !(before.open_count == after.open_count
            && before.active_count == after.active_count
            && before.width == after.width)
}
