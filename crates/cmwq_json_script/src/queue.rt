//! Queues: their names, max_active and flags.

ghost use Rattle.std.specs.Prelude.{◌≡◌, IfOk, Ok, Err, Some, None, option_map, if◌then◌else◌, length};
ghost use Rattle.std.specs.Option.{option_map_or};
ghost use Rattle.serde_json.specs.View.{view, items_view};
ghost use Rattle.cmwq_json.specs.InTurn.{in_turn};
ghost use Rattle.cmwq_json.specs.Names.{nobody};
ghost use Rattle.cmwq_json.specs.Members.{named_of};
ghost use Rattle.cmwq_json.specs.Parts as refused;
ghost use Rattle.cmwq_json.specs.Readings.{map_ok};
ghost use Rattle.cmwq_json_script.specs.Queues as spec;
ghost use Rattle.cmwq_json_script.specs.Runs.{some_of};

use cmwq_json::{Members, Part, Refused, has_keys_with_optional, read_parts};
use cmwq_model::QueueShape;
use serde_json::Value;
use std::alloc::{AllocError, Global};

fn has_queue_keys(value: &Value) -> bool
    ensures { result ≡ spec.has_queue_keys (view value.now) }
{
    has_keys_with_optional(
        value,
        &["high", "intensive", "max_active", "name"],
        &["freezable"],
    )
}

fn read_freezable(value: &Value) -> Option<bool>
    ensures { result ≡ spec.freezable_said (view value.now) }
{
    match value.get("freezable") {
        Some(flag) => flag.as_bool(),
        None => Some(false),
    }
}

/// A queue: an object with a name, a max_active and its flags.
fn read_queue(value: &Value) -> Option<(&str, QueueShape)>
    ensures { option_map (λ r. (r.0.now, r.1)) result ≡ spec.queue_said (view value.now) }
{
    if !has_queue_keys(value) {
        return None;
    }
    let (name, max_active, intensive) = read_parts(value)?;
    let high = value.get("high")?.as_bool()?;
    let freezable = read_freezable(value)?;
    Some((
        name,
        QueueShape {
            max_active,
            high,
            intensive,
            freezable,
        },
    ))
}

/// Adds a queue, where there are fewer than `most`.
fn add_queue(
    alloc: Global,
    most: usize,
    queues: &mut Members<QueueShape>,
    value: &Value,
) -> Result<bool, AllocError>
    ensures { IfOk result (λ added. spec.add_queue most (named_of queues.old) (view value.now)
        ≡ (if added then Some (named_of queues.new) else None)) }
{
    match read_queue(value) {
        Some((name, queue)) => queues.add(alloc, most, name, queue),
        None => Ok(false),
    }
}

/// Adds the queues, of which there is at least one. Some: the first that is refused.
fn add_queues(
    alloc: Global,
    most: usize,
    queues: &mut Members<QueueShape>,
    values: &[Value],
) -> Result<Option<Refused>, AllocError>
    ensures { IfOk result
        (λ r. some_of refused.queues (λ qs. length qs.values)
        (in_turn (spec.add_queue most) 0 (named_of queues.old) (items_view values.now))
        ≡ option_map_or Err r (Ok (named_of queues.new))) }
{
    for (index, value) in values.iter().enumerate() {
        if !add_queue(alloc, most, queues, value)? {
            return Ok(Some(Refused {
                part: Part::Queues,
                index,
            }));
        }
    }
    if queues.values.is_empty() {
        Ok(Some(Refused {
            part: Part::Queues,
            index: 0,
        }))
    } else {
        Ok(None)
    }
}

/// The queues, of which there is at least one and `most` at most, or the first that is refused.
pub fn read_queues(
    alloc: Global,
    most: usize,
    values: &[Value],
) -> Result<Result<Members<QueueShape>, Refused>, AllocError>
    ensures { IfOk result
        (λ r. map_ok named_of r
        ≡ some_of refused.queues (λ qs. length qs.values)
        (in_turn (spec.add_queue most) 0 nobody (items_view values.now))) }
{
    let mut queues = Members::new(alloc);
    match add_queues(alloc, most, &mut queues, values)? {
        Some(refused) => Ok(Err(refused)),
        None => Ok(Ok(queues)),
    }
}
