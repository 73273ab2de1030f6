//! A scenario, as a JSON value names it.

ghost use Rattle.std.specs.Prelude.{◌≡◌, ◌≤◌, length, IfOk, Ok, Some, None, option_map, option_and_then, if◌then◌else◌};
ghost use Rattle.std.specs.Prelude.{map, string_bytes, codes};
ghost use Rattle.serde_json.specs.Find.{get, as_array};
ghost use Rattle.serde_json.specs.View.{view, items_view};
ghost use Rattle.cmwq_sim.specs.Plan.{plan_item};
ghost use Rattle.cmwq_json.specs.InTurn.{in_turn};
ghost use Rattle.cmwq_json.specs.Names.{name_said, nobody};
ghost use Rattle.cmwq_json.specs.Members.{named_of};
ghost use Rattle.cmwq_json.specs.Readings.{map_ok};
ghost use Rattle.cmwq_replay.specs.Scenarios as spec;
ghost use Rattle.cmwq_replay.specs.Readings.{named_items, with_names_of, HasLimits};

use cmwq_json::{
    Members, Part, Refused, array_at, has_keys, in_order, number_of, read_name, read_number,
    read_parts,
};
use cmwq_sim::{Scenario, SimItem, SimQueue};
use indexmap::IndexSet;
use serde_json::Value;
use std::alloc::{AllocError, Global};

/// The most burns and sleeps of an item.
pub const MOST_PARTS: usize = 8;

/// The longest burn or sleep, in milliseconds.
pub const MOST_MS: u64 = 1_000;

/// A scenario, and the names of its items.
#[derive(Drop)]
pub struct ScenarioWithNames {
    pub scenario: Scenario,
    pub names: Vec<String>,
}

/// A queue: an object with a name, a max_active, and whether it is CPU intensive.
fn read_queue(value: &Value) -> Option<(&str, SimQueue)>
    ensures { option_map (λ r. (r.0.now, r.1)) result ≡ spec.sim_queue_said (view value.now) }
{
    if !has_keys(value, &["intensive", "max_active", "name"]) {
        return None;
    }
    let (name, max_active, intensive) = read_parts(value)?;
    Some((
        name,
        SimQueue {
            max_active,
            intensive,
        },
    ))
}

fn if_few(ms: Vec<u16>) -> Option<Vec<u16>>
    ensures { option_map (λ ms. ms.items) result ≡ spec.if_few (Ok ms.items) }
{
    if (1..=MOST_PARTS).contains(&ms.len()) {
        Some(ms)
    } else {
        None
    }
}

/// The burns and sleeps of an item: 1 to 8 whole numbers from 1 to 1000.
fn read_ms(alloc: Global, value: &Value) -> Result<Option<Vec<u16>>, AllocError>
    ensures { IfOk result (λ r. option_map (λ ms. ms.items) r ≡ spec.ms_said (view value.now)) }
{
    let Some(parts) = value.as_array() else {
        return Ok(None);
    };
    let mut ms = Vec::new(alloc);
    for part in parts {
        let Some(number) = read_number(part, 1, MOST_MS) else {
            return Ok(None);
        };
        ms.push(number as u16)?;
    }
    Ok(if_few(ms))
}

/// The name that a value has.
fn name_of(value: &Value) -> Option<&str>
    ensures { option_map (λ name. name.now) result ≡ option_and_then name_said (get (codes "name") (view value.now)) }
{
    read_name(value.get("name")?)
}

/// The number of the queue that a value names.
fn read_queue_number(names: &IndexSet<String>, value: &Value) -> Option<u8>
    requires { length names.now.keys ≤ 8 }
    ensures { result ≡ option_and_then (spec.queue_number (map string_bytes names.now.keys))
        (get (codes "queue") (view value.now)) }
{
    let number = number_of(names, value.get("queue")?.as_str()?)?;
    Some(number as u8)
}

/// An item: an object with a name, the name of a queue, and its burns and sleeps.
fn read_item<'v>(
    alloc: Global,
    queue_names: &IndexSet<String>,
    value: &'v Value,
) -> Result<Option<(&'v str, SimItem)>, AllocError>
    requires { length queue_names.now.keys ≤ 8 }
    ensures { IfOk result (λ r. option_map (λ x. (x.0.now, plan_item x.1)) r
        ≡ spec.sim_item_said (map string_bytes queue_names.now.keys) (view value.now)) }
{
    if !has_keys(value, &["ms", "name", "queue"]) {
        return Ok(None);
    }
    let (Some(name), Some(queue), Some(ms)) = (
        name_of(value),
        read_queue_number(queue_names, value),
        value.get("ms"),
    ) else {
        return Ok(None);
    };
    match read_ms(alloc, ms)? {
        Some(ms) => Ok(Some((name, SimItem { queue, ms }))),
        None => Ok(None),
    }
}

fn add_queue(
    alloc: Global,
    queues: &mut Members<SimQueue>,
    value: &Value,
) -> Result<bool, AllocError>
    ensures { IfOk result (λ added. spec.add_sim_queue (named_of queues.old) (view value.now)
        ≡ (if added then Some (named_of queues.new) else None)) }
{
    match read_queue(value) {
        Some((name, queue)) => queues.add(alloc, 8, name, queue),
        None => Ok(false),
    }
}

fn add_item(
    alloc: Global,
    queue_names: &IndexSet<String>,
    items: &mut Members<SimItem>,
    value: &Value,
) -> Result<bool, AllocError>
    requires { length queue_names.now.keys ≤ 8 }
    ensures { IfOk result
        (λ added. spec.add_sim_item (map string_bytes queue_names.now.keys) (named_items items.old) (view value.now)
        ≡ (if added then Some (named_items items.new) else None)) }
{
    match read_item(alloc, queue_names, value)? {
        Some((name, item)) => items.add(alloc, 8, name, item),
        None => Ok(false),
    }
}

/// The queues in turn, or the place of the first that is refused.
fn read_queues(
    alloc: Global,
    values: &[Value],
) -> Result<Result<Members<SimQueue>, usize>, AllocError>
    ensures { IfOk result (λ r. map_ok named_of r ≡ in_turn spec.add_sim_queue 0 nobody (items_view values.now)) }
{
    let mut queues = Members::new(alloc);
    for (index, value) in values.iter().enumerate() {
        if !add_queue(alloc, &mut queues, value)? {
            return Ok(Err(index));
        }
    }
    Ok(Ok(queues))
}

/// The items in turn, or the place of the first that is refused.
fn read_items(
    alloc: Global,
    queue_names: &IndexSet<String>,
    values: &[Value],
) -> Result<Result<Members<SimItem>, usize>, AllocError>
    requires { length queue_names.now.keys ≤ 8 }
    ensures { IfOk result
        (λ r. map_ok named_items r ≡ in_turn (spec.add_sim_item (map string_bytes queue_names.now.keys)) 0 nobody
        (items_view values.now)) }
{
    let mut items = Members::new(alloc);
    for (index, value) in values.iter().enumerate() {
        if !add_item(alloc, queue_names, &mut items, value)? {
            return Ok(Err(index));
        }
    }
    Ok(Ok(items))
}

fn read_lists(
    alloc: Global,
    queues: &[Value],
    items: &[Value],
) -> Result<Result<ScenarioWithNames, Refused>, AllocError>
    ensures says { IfOk result (λ r. map_ok with_names_of r
        ≡ spec.items_then (items_view items.now) (in_turn spec.add_sim_queue 0 nobody (items_view queues.now))) }
    ensures within_limits { IfOk result (λ r. IfOk r HasLimits) }
{
    let queues = match read_queues(alloc, queues)? {
        Ok(queues) => queues,
        Err(index) => return Ok(Err(Refused {
            part: Part::Queues,
            index,
        })),
    };
    if queues.values.is_empty() {
        return Ok(Err(Refused {
            part: Part::Queues,
            index: 0,
        }));
    }
    let items = match read_items(alloc, &queues.names, items)? {
        Ok(items) => items,
        Err(index) => return Ok(Err(Refused {
            part: Part::Items,
            index,
        })),
    };
    let names = in_order(alloc, items.names)?;
    Ok(Ok(ScenarioWithNames {
        scenario: Scenario {
            queues: queues.values,
            items: items.values,
        },
        names,
    }))
}

/// The scenario that a value names, or the first member that is refused: the keys and their types first, then the
/// queues in order, then the items. An Err is want of memory.
pub fn read_scenario(
    alloc: Global,
    value: &Value,
) -> Result<Result<ScenarioWithNames, Refused>, AllocError>
    ensures says { IfOk result (λ r. map_ok with_names_of r ≡ spec.scenario_of (view value.now)) }
    ensures within_limits { IfOk result (λ r. IfOk r HasLimits) }
{
    const TOP: Refused = Refused {
        part: Part::Top,
        index: 0,
    };
    if !has_keys(value, &["items", "queues"]) {
        return Ok(Err(TOP));
    }
    match (array_at(value, "queues"), array_at(value, "items")) {
        (Some(queues), Some(items)) => read_lists(alloc, queues, items),
        _ => Ok(Err(TOP)),
    }
}
