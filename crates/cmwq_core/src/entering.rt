//! An entry is planned, and made.

ghost use Rattle.std.specs.Prelude.{◌≡◌, ◌∷◌, is_ok, IfOk, OnErr, OnOk};
ghost use Rattle.cmwq_model.specs.Prelude.{IsLegal};
ghost use Rattle.cmwq_core.specs.History.{next_entry, past_in, takes, with_entry};
ghost use Rattle.cmwq_core.specs.Plans.{IsPlan};

use crate::effects::effect_of;
use crate::execution::Full;
use crate::marks::mark;
use crate::plan::Plan;
use cmwq_model::{Entry, Reply};
use cmwq_state::{Effect, State};

/// What is told of an entry that is made: nothing, as `()`, or its `Effect`. An effect is large, so that copies of it
/// cost more than making it, where nobody reads it.
pub trait Told: Sized {
    ghost use Rattle.std.specs.Prelude.{List};
    ghost use Rattle.cmwq_model.specs.Prelude.{Layout};
    ghost use Rattle.cmwq_model.specs.declared.entry.Entry.{Entry};
    ghost use Rattle.cmwq_state.specs.Effects.{IsEffect};

    /// It tells of this entry after this past.
    ghost tells: { Layout → List Entry → Entry → Self → Type 0 };

    /// What is told of an entry with this effect.
    fn of(effect: Effect) -> Self
        ensures { (s : Layout) (past : List Entry) → IsEffect s past effect → tells s past effect.entry result };
}

impl Told for () {
    ghost tells = { λ s past e told. Unit {0} };

    #[inline(always)]
    fn of(_: Effect) -> Self {}
}

impl Told for Effect {
    ghost use Rattle.std.specs.Prelude.{◌≡◌};
    ghost use Rattle.cmwq_state.specs.Effects.{IsEffect};

    ghost tells = { λ s past e effect. (effect.entry ≡ e) × IsEffect s past effect };

    #[inline(always)]
    fn of(effect: Effect) -> Self {
        effect
    }
}

/// Makes the entry that its call gets next, if there is room, and returns what is told of its effect.
#[inline(always)]
fn make<T: Told>(state: &mut State, entry: &Entry) -> Result<T, Full>
    requires next { entry.now ≡ next_entry state.old entry.now.who entry.now.call }
    requires legal { IsLegal state.old.layout (entry.now ∷ past_in state.old) }
    ensures room { is_ok result ≡ takes state.old entry.now.who entry.now.call }
    ensures told { IfOk result (T.tells state.old.layout (past_in state.old) entry.now) }
    ensures made { OnOk result (state.new ≡ with_entry state.old entry.now) }
    ensures full { OnErr result (state.new ≡ state.old) }
{
    let effect = effect_of(state, *entry);
    if state.has_room(entry.call, effect.owing) {
        state.append(effect);
        Ok(T::of(effect))
    } else {
        Err(Full)
    }
}

/// The same. What an entry does follows from its reply, so each of the replies that come most has code of its own,
/// where the compiler knows what isn't done.
#[inline(always)]
pub(crate) fn enter<T: Told>(state: &mut State, entry: &Entry) -> Result<T, Full>
    requires next { entry.now ≡ next_entry state.old entry.now.who entry.now.call }
    requires legal { IsLegal state.old.layout (entry.now ∷ past_in state.old) }
    ensures room { is_ok result ≡ takes state.old entry.now.who entry.now.call }
    ensures told { IfOk result (T.tells state.old.layout (past_in state.old) entry.now) }
    ensures made { OnOk result (state.new ≡ with_entry state.old entry.now) }
    ensures full { OnErr result (state.new ≡ state.old) }
{
    match entry.reply {
        Reply::Yes(_) => make(state, entry),
        Reply::Started(_) => make(state, entry),
        Reply::StartedEnlist(_, _) => make(state, entry),
        Reply::Finished(_) => make(state, entry),
        Reply::Slept => make(state, entry),
        Reply::Woke => make(state, entry),
        Reply::Ticket(_) => make(state, entry),
        Reply::Done => make(state, entry),
        Reply::Booked(_) => make(state, entry),
        Reply::Rebooked(_) => make(state, entry),
        Reply::Now(_) => make(state, entry),
        Reply::Fired(_, _) => make(state, entry),
        Reply::Nothing => make(state, entry),
        _ => make(state, entry),
    }
}

/// The entry that its call gets next, with the bits that it leaves, if there is room.
#[inline(always)]
fn plan_one(state: &State, entry: &Entry) -> Result<Plan, Full>
    requires next { entry.now ≡ next_entry state.now entry.now.who entry.now.call }
    requires legal { IsLegal state.now.layout (entry.now ∷ past_in state.now) }
    ensures room { is_ok result ≡ takes state.now entry.now.who entry.now.call }
    ensures plan { IfOk result (λ plan. IsPlan state.now entry.now.who entry.now.call plan) }
{
    let effect = effect_of(state, *entry);
    if state.has_room(entry.call, effect.owing) {
        let mark = mark(state, effect);
        Ok(Plan { mark })
    } else {
        Err(Full)
    }
}

/// The same, with code of its own for each of the replies that come most.
#[inline(always)]
pub(crate) fn plan(state: &State, entry: &Entry) -> Result<Plan, Full>
    requires next { entry.now ≡ next_entry state.now entry.now.who entry.now.call }
    requires legal { IsLegal state.now.layout (entry.now ∷ past_in state.now) }
    ensures room { is_ok result ≡ takes state.now entry.now.who entry.now.call }
    ensures plan { IfOk result (λ plan. IsPlan state.now entry.now.who entry.now.call plan) }
{
    match entry.reply {
        Reply::Yes(_) => plan_one(state, entry),
        Reply::Started(_) => plan_one(state, entry),
        Reply::StartedEnlist(_, _) => plan_one(state, entry),
        Reply::Finished(_) => plan_one(state, entry),
        Reply::Slept => plan_one(state, entry),
        Reply::Woke => plan_one(state, entry),
        Reply::Ticket(_) => plan_one(state, entry),
        Reply::Done => plan_one(state, entry),
        Reply::Booked(_) => plan_one(state, entry),
        Reply::Rebooked(_) => plan_one(state, entry),
        Reply::Now(_) => plan_one(state, entry),
        Reply::Fired(_, _) => plan_one(state, entry),
        Reply::Nothing => plan_one(state, entry),
        Reply::Waiting(_) => plan_one(state, entry),
        Reply::Held => plan_one(state, entry),
        Reply::Kept => plan_one(state, entry),
        _ => plan_one(state, entry),
    }
}
