//! Callers: the lists of their actions.

ghost use Rattle.std.specs.Prelude.{◌≡◌, IfOk, Ok, Err, Some, None, if◌then◌else◌, length};
ghost use Rattle.std.specs.Option.{option_map_or};
ghost use Rattle.serde_json.specs.View.{view, items_view};
ghost use Rattle.cmwq_json.specs.InTurn.{in_turn};
ghost use Rattle.cmwq_json.specs.Parts as refused;
ghost use Rattle.cmwq_json.specs.Readings.{map_ok};
ghost use Rattle.cmwq_json_script.specs.Callers as spec;
ghost use Rattle.cmwq_json_script.specs.Runs.{some_of};
ghost use Rattle.cmwq_json_script.specs.Views.{crew_of};

use crate::action::{Action, Actor, read_actions};
use crate::names::Names;
use crate::used::Used;
use cmwq_json::{Part, Refused};
use serde_json::Value;
use std::alloc::{AllocError, Global};

/// What each caller does, and the gates and locks that callers and items use.
#[derive(Drop)]
pub struct Callers {
    pub scripts: Vec<Vec<Action>>,
    pub used: Used,
}

impl Callers {
    /// No caller, after this is used.
    fn new(alloc: Global, used: Used) -> Callers
        ensures { crew_of result ≡ spec.no_crew used }
    {
        Callers {
            scripts: Vec::new(alloc),
            used,
        }
    }
}

/// Adds a caller, where there are fewer than `most`.
fn add_caller(
    alloc: Global,
    most: usize,
    names: &Names,
    callers: &mut Callers,
    value: &Value,
) -> Result<bool, AllocError>
    ensures { IfOk result (λ added. spec.add_caller most names.now (crew_of callers.old) (view value.now)
        ≡ (if added then Some (crew_of callers.new) else None)) }
{
    match read_actions(alloc, Actor::Caller, names, &mut callers.used, value)? {
        Some(actions) if callers.scripts.len() < most => {
            callers.scripts.push(actions)?;
            Ok(true)
        }
        _ => Ok(false),
    }
}

/// Adds the callers, of whom there is at least one. Some: the first that is refused.
fn add_callers(
    alloc: Global,
    most: usize,
    names: &Names,
    callers: &mut Callers,
    values: &[Value],
) -> Result<Option<Refused>, AllocError>
    ensures { IfOk result
        (λ r. some_of refused.callers (λ c. length c.scripts)
        (in_turn (spec.add_caller most names.now) 0 (crew_of callers.old) (items_view values.now))
        ≡ option_map_or Err r (Ok (crew_of callers.new))) }
{
    for (index, value) in values.iter().enumerate() {
        if !add_caller(alloc, most, names, callers, value)? {
            return Ok(Some(Refused {
                part: Part::Callers,
                index,
            }));
        }
    }
    if callers.scripts.is_empty() {
        Ok(Some(Refused {
            part: Part::Callers,
            index: 0,
        }))
    } else {
        Ok(None)
    }
}

/// The callers, of whom there is at least one and `most` at most, or the first that is refused. Their gates and locks
/// are numbered after those that are used already.
pub fn read_callers(
    alloc: Global,
    most: usize,
    names: &Names,
    used: Used,
    values: &[Value],
) -> Result<Result<Callers, Refused>, AllocError>
    ensures { IfOk result
        (λ r. map_ok crew_of r
        ≡ some_of refused.callers (λ c. length c.scripts)
        (in_turn (spec.add_caller most names.now) 0 (spec.no_crew used) (items_view values.now))) }
{
    let mut callers = Callers::new(alloc, used);
    match add_callers(alloc, most, names, &mut callers, values)? {
        Some(refused) => Ok(Err(refused)),
        None => Ok(Ok(callers)),
    }
}
