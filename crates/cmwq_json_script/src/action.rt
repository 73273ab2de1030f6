//! What an item or a caller does: its actions in turn.

ghost use Rattle.std.specs.Prelude.{◌≡◌, IfOk, map, option_map, if◌then◌else◌, Some, None};
ghost use Rattle.std.specs.List.{list_any};
ghost use Rattle.serde_json.specs.View.{view, items_view};
ghost use Rattle.cmwq_json_script.specs.Arguments.{action_of};
ghost use Rattle.cmwq_json_script.specs.Actions as spec;

use crate::argument::{Given, read_arguments};
use crate::names::Names;
use crate::parts::word_in;
use crate::used::Used;
use crate::word::Word;
use cmwq_model::{Call, CallerId, ItemId};
use serde_json::Value;
use std::alloc::{AllocError, Global};

/// What a caller, or the function of an item, does, one after the other.
#[derive(Clone, Copy, Debug)]
pub enum Action {
    /// Makes a call. A run makes Queue, Delay, Modify or Cancel; and it waits by FlushItem, FlushDelayed, CancelSync,
    /// Flush or Drain.
    Call(Call),
    /// Opens a gate.
    Open { gate: u8 },
    /// Passes a gate once it is open. A run sleeps before, and wakes after.
    SleepAt { gate: u8 },
    /// Takes a lock once nobody holds it. A run that has to wait for it sleeps before, and wakes after.
    Lock { lock: u8 },
    /// Lets a lock go. One that somebody else holds, or nobody, stays as it is.
    Unlock { lock: u8 },
}

/// Who holds a lock: a caller, or the run of an item, of which there is one at most.
#[derive(Clone, Copy, Debug, PartialEq, Eq)]
pub enum Holder {
    Caller(CallerId),
    Run(ItemId),
}

impl Action {
    /// Whether a run waits by it: it is a call that workers don't make.
    fn is_wait(self) -> bool
        ensures { result ≡ spec.is_wait self }
    {
        match self {
            Action::Call(call) => !call.is_workers(),
            _ => false,
        }
    }
}

fn has_wait(actions: &[Action]) -> bool
    ensures { result ≡ list_any spec.is_wait actions.now }
{
    actions.iter().any(|action| action.is_wait())
}

/// Whether an item waits.
pub fn any_waits(does: &[Vec<Action>]) -> bool
    ensures { result ≡ list_any (list_any spec.is_wait) (map (λ actions. actions.items) does.now) }
{
    does.iter().any(|actions| has_wait(actions))
}

/// Whose actions are read.
#[derive(Clone, Copy)]
pub enum Actor {
    Item,
    Caller,
}

impl Actor {
    /// The greatest number of its actions.
    pub fn most_actions(self) -> usize
        ensures { result ≡ spec.most_actions self }
    {
        match self {
            Actor::Item => 64,
            Actor::Caller => 1_000,
        }
    }
}

/// What is done by this word, with what its arguments say.
#[tactic(auto, unfolding(crate::specs::Arguments::action_of))]
fn action_of(word: Word, given: Given) -> Action
    ensures { result ≡ action_of word given }
{
    let Given {
        item,
        queue,
        cpu,
        ticks,
        max_active,
        gate,
        lock,
    } = given;
    match word {
        Word::Queue => Action::Call(Call::Queue { item, queue, cpu }),
        Word::Delay => Action::Call(Call::Delay {
            item,
            queue,
            cpu,
            ticks,
        }),
        Word::Modify => Action::Call(Call::Modify {
            item,
            queue,
            cpu,
            ticks,
        }),
        Word::Cancel => Action::Call(Call::Cancel { item }),
        Word::CancelSync => Action::Call(Call::CancelSync { item }),
        Word::Tick => Action::Call(Call::Tick { ticks }),
        Word::Flush => Action::Call(Call::Flush { queue }),
        Word::Drain => Action::Call(Call::Drain { queue }),
        Word::Destroy => Action::Call(Call::Destroy { queue }),
        Word::FlushItem => Action::Call(Call::FlushItem { item }),
        Word::FlushDelayed => Action::Call(Call::FlushDelayed { item }),
        Word::SetMax => Action::Call(Call::SetMax { queue, max_active }),
        Word::Freeze => Action::Call(Call::Freeze),
        Word::Thaw => Action::Call(Call::Thaw),
        Word::Open => Action::Open { gate },
        Word::SleepAt | Word::Wait => Action::SleepAt { gate },
        Word::Lock => Action::Lock { lock },
        Word::Unlock => Action::Unlock { lock },
    }
}

/// The action after its word.
fn action_after(
    alloc: Global,
    actor: Actor,
    names: &Names,
    used: &mut Used,
    word: Word,
    parts: &[Value],
) -> Result<Option<Action>, AllocError>
    ensures { IfOk result (λ r. option_map (λ action. (action, used.new)) r
        ≡ spec.action_after actor names.now word used.old (items_view parts.now)) }
{
    if !word.is_done_by(actor) {
        return Ok(None);
    }
    let mut given = Given::nothing();
    if read_arguments(alloc, names, used, &mut given, word.arguments(), parts)? {
        Ok(Some(action_of(word, given)))
    } else {
        Ok(None)
    }
}

fn read_action(
    alloc: Global,
    actor: Actor,
    names: &Names,
    used: &mut Used,
    value: &Value,
) -> Result<Option<Action>, AllocError>
    ensures { IfOk result (λ r. option_map (λ action. (action, used.new)) r
        ≡ spec.action_said actor names.now used.old (view value.now)) }
{
    let Some(list) = value.as_array() else {
        return Ok(None);
    };
    match word_in(list) {
        Some((word, parts)) => action_after(alloc, actor, names, used, word, parts),
        None => Ok(None),
    }
}

fn add_action(
    alloc: Global,
    actor: Actor,
    names: &Names,
    used: &mut Used,
    actions: &mut Vec<Action>,
    value: &Value,
) -> Result<bool, AllocError>
    ensures { IfOk result
        (λ added. spec.add_action actor names.now (record { actions = actions.old.items; used = used.old })
        (view value.now)
        ≡ (if added then Some (record { actions = actions.new.items; used = used.new }) else None)) }
{
    let Some(action) = read_action(alloc, actor, names, used, value)? else {
        return Ok(false);
    };
    if actions.len() >= actor.most_actions() {
        return Ok(false);
    }
    actions.push(action)?;
    Ok(true)
}

/// The actions of an item, of which there are at most 64, or of a caller, of which there are at most 1,000.
pub fn read_actions(
    alloc: Global,
    actor: Actor,
    names: &Names,
    used: &mut Used,
    value: &Value,
) -> Result<Option<Vec<Action>>, AllocError>
    ensures { IfOk result (λ r. option_map (λ actions. record { actions = actions.items; used = used.new }) r
        ≡ spec.does_said actor names.now used.old (view value.now)) }
{
    let Some(parts) = value.as_array() else {
        return Ok(None);
    };
    let mut actions = Vec::new(alloc);
    for part in parts {
        if !add_action(alloc, actor, names, used, &mut actions, part)? {
            return Ok(None);
        }
    }
    Ok(Some(actions))
}
