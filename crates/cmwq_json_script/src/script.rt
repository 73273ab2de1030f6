//! A script of a run, as a JSON value names it.

ghost use Rattle.std.specs.Prelude.{◌≡◌, ◌<◌, IfOk, Ok};
ghost use Rattle.serde_json.specs.View.{view};
ghost use Rattle.cmwq_json.specs.Members.{named_of};
ghost use Rattle.cmwq_json.specs.Readings.{map_ok};
ghost use Rattle.cmwq_json_script.specs.Limits.{callers_in};
ghost use Rattle.cmwq_json_script.specs.Runs as spec;
ghost use Rattle.cmwq_json_script.specs.Scripts.{run_of, IsRunWithin, MayRun};
ghost use Rattle.cmwq_json_script.specs.Views.{top_of, queues_of, named_actions_of, work_of, crew_of};

use crate::action::{Action, any_waits};
use crate::caller::{Callers, read_callers};
use crate::item::{Items, read_items};
use crate::limits::{callers_in, items_in, queues_in};
use crate::names::Names;
use crate::queue::read_queues;
use crate::top::Top;
use cmwq_json::{Members, Part, Refused, in_order};
use cmwq_model::{Counts, QueueShape, Shape};
use serde_json::Value;
use std::alloc::{AllocError, Global};

/// What a run does: its shape, the names of the items and what the function of each does, the names of the gates and of
/// the locks, what each caller does, how many runs may wait at once, and how its history is written.
#[derive(Drop)]
pub struct Script {
    pub shape: Shape,
    /// The name of each item, by its number.
    pub names: Vec<String>,
    /// The actions of each item, by its number.
    pub does: Vec<Vec<Action>>,
    /// The name of each gate, by its number.
    pub gates: Vec<String>,
    /// The name of each lock, by its number.
    pub locks: Vec<String>,
    /// The actions of each caller, by its number.
    pub callers: Vec<Vec<Action>>,
    /// How many runs may wait at once: so many callers come after those.
    pub waits: u8,
    /// The format of the history: 2 or 3.
    pub version: u8,
    /// How many entries are kept at a time, where the history is written as it is made: in format 3 then.
    pub journal: Option<u32>,
}

/// How many runs may wait at once.
fn waits_in(top: &Top<'_>, items: &Members<Vec<Action>>) -> u8
    ensures is { result ≡ spec.waits_in (top_of top.now) (named_actions_of items.now) }
    ensures few { result < callers_in top.now.version }
{
    match top.waits {
        Some(waits) => waits,
        None if any_waits(&items.values) => 1,
        None => 0,
    }
}

/// The script of parts that are inside the limits.
fn script_of(
    alloc: Global,
    top: &Top<'_>,
    queues: Vec<QueueShape>,
    items: Members<Vec<Action>>,
    callers: Callers,
    waits: u8,
) -> Result<Script, AllocError>
    requires within { IsRunWithin
        (spec.run_in (top_of top.now) queues.items (named_actions_of items) (crew_of callers)) }
    requires waits { waits ≡ spec.waits_in (top_of top.now) (named_actions_of items) }
    ensures says { IfOk result
        (λ script. run_of script
        ≡ spec.run_in (top_of top.now) queues.items (named_actions_of items) (crew_of callers)) }
    ensures within { IfOk result MayRun }
{
    let Members {
        names,
        values: does,
    } = items;
    let Callers { scripts, used } = callers;
    let counts = Counts {
        cpus: top.cpus,
        workers: top.workers,
        callers: scripts.len() as u8 + waits,
        items: does.len() as u16,
        room: top.room,
    };
    let shape = Shape::new(counts, queues).unwrap();
    let names = in_order(alloc, names)?;
    let gates = used.gates.into_names(alloc)?;
    let locks = used.locks.into_names(alloc)?;
    Ok(Script {
        shape,
        names,
        does,
        gates,
        locks,
        callers: scripts,
        waits,
        version: top.version,
        journal: top.journal,
    })
}

/// The script of these queues and items, and of the callers, which are read now.
fn with_items(
    alloc: Global,
    top: &Top<'_>,
    names: &Names,
    queues: Vec<QueueShape>,
    items: Items,
) -> Result<Result<Script, Refused>, AllocError>
    requires known { names.now ≡ spec.known_in (top_of top.now) (queues_of names.now queues) }
    requires queues { spec.queues_said (top_of top.now) ≡ Ok (queues_of names.now queues) }
    requires items { spec.items_said names.now (top_of top.now) ≡ Ok (work_of items) }
    ensures says { IfOk result
        (λ r. map_ok run_of r ≡ spec.with_callers (top_of top.now) (queues_of names.now queues) (work_of items)
        (spec.callers_said names.now (top_of top.now) (work_of items))) }
    ensures within { IfOk result (λ r. IfOk r MayRun) }
{
    let Items { members, used } = items;
    let waits = waits_in(top, &members);
    let most = usize::from(callers_in(top.version) - waits);
    match read_callers(alloc, most, names, used, top.callers)? {
        Ok(callers) => {
            let script = script_of(alloc, top, queues, members, callers, waits)?;
            Ok(Ok(script))
        }
        Err(refused) => Ok(Err(refused)),
    }
}

/// The script of these queues, and of the items and the callers, which are read in turn.
fn with_names(
    alloc: Global,
    top: &Top<'_>,
    names: &Names,
    queues: Vec<QueueShape>,
) -> Result<Result<Script, Refused>, AllocError>
    requires known { names.now ≡ spec.known_in (top_of top.now) (queues_of names.now queues) }
    requires queues { spec.queues_said (top_of top.now) ≡ Ok (queues_of names.now queues) }
    ensures says { IfOk result
        (λ r. map_ok run_of r ≡ spec.with_queues (top_of top.now) (Ok (queues_of names.now queues))) }
    ensures within { IfOk result (λ r. IfOk r MayRun) }
{
    match read_items(alloc, items_in(top.version), names, top.items)? {
        Ok(items) => with_items(alloc, top, names, queues, items),
        Err(refused) => Ok(Err(refused)),
    }
}

/// The script of the queues that were read, by whose names calls may name them.
fn with_queues(
    alloc: Global,
    top: &Top<'_>,
    queues: Members<QueueShape>,
) -> Result<Result<Script, Refused>, AllocError>
    requires { spec.queues_said (top_of top.now) ≡ Ok (named_of queues) }
    ensures says { IfOk result (λ r. map_ok run_of r ≡ spec.with_queues (top_of top.now) (Ok (named_of queues))) }
    ensures within { IfOk result (λ r. IfOk r MayRun) }
{
    let Members { names, values } = queues;
    let names = Names::new(alloc, items_in(top.version), top.items, names, top.cpus)?;
    with_names(alloc, top, &names, values)
}

/// The script of the lists of a top.
fn read_lists(alloc: Global, top: &Top<'_>) -> Result<Result<Script, Refused>, AllocError>
    ensures says { IfOk result
        (λ r. map_ok run_of r ≡ spec.with_queues (top_of top.now) (spec.queues_said (top_of top.now))) }
    ensures within { IfOk result (λ r. IfOk r MayRun) }
{
    match read_queues(alloc, queues_in(top.version), top.queues)? {
        Ok(queues) => with_queues(alloc, top, queues),
        Err(refused) => Ok(Err(refused)),
    }
}

/// The script of a run that a value names, or the first member that is refused: first the keys, their types and the
/// numbers of the top, then the queues in order, then the items, then the callers. An Err is want of memory.
pub fn read_script(alloc: Global, value: &Value) -> Result<Result<Script, Refused>, AllocError>
    ensures says { IfOk result (λ r. map_ok run_of r ≡ spec.run_said (view value.now)) }
    ensures within { IfOk result (λ r. IfOk r MayRun) }
{
    match Top::read(value) {
        Some(top) => read_lists(alloc, &top),
        None => Ok(Err(Refused {
            part: Part::Top,
            index: 0,
        })),
    }
}
