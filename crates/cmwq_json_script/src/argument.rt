//! The arguments of actions, after the word that each begins with.

ghost use Rattle.std.specs.Prelude.{◌≡◌, Some, None, IfOk, false, option_map, if◌then◌else◌};
ghost use Rattle.serde_json.specs.View.{view, items_view};
ghost use Rattle.cmwq_json_script.specs.Calls.{number_from};
ghost use Rattle.cmwq_json_script.specs.Arguments as spec;

use crate::names::Names;
use crate::parts::first_in;
use crate::used::Used;
use crate::word::Argument;
use cmwq_json::read_number;
use cmwq_model::{CpuId, ItemId, QueueId};
use serde_json::Value;
use std::alloc::{AllocError, Global};

/// What the arguments of an action say. What none of them says is 0.
#[derive(Clone, Copy)]
pub struct Given {
    pub item: ItemId,
    pub queue: QueueId,
    pub cpu: CpuId,
    pub ticks: u32,
    pub max_active: u32,
    pub gate: u8,
    pub lock: u8,
}

impl Given {
    /// What no argument says.
    pub fn nothing() -> Given
        ensures { result ≡ spec.nothing }
    {
        Given {
            item: ItemId(0),
            queue: QueueId(0),
            cpu: CpuId(0),
            ticks: 0,
            max_active: 0,
            gate: 0,
            lock: 0,
        }
    }
}

/// A number of 32 bits, `least` at least.
fn read_count(value: &Value, least: u32) -> Option<u32>
    ensures { result ≡ number_from least (view value.now) }
{
    let number = read_number(value, u64::from(least), 4_294_967_295)?;
    Some(number as u32)
}

/// Puts what was read in its place, if anything was.
fn put<T: Copy>(place: &mut T, read: Option<T>) -> bool
    ensures read { (if result then Some place.new else None) ≡ read }
    ensures unread { result ≡ false → place.new ≡ place.old }
{
    match read {
        Some(value) => {
            *place = value;
            true
        }
        None => false,
    }
}

/// Reads an argument.
fn read_argument(
    alloc: Global,
    names: &Names,
    used: &mut Used,
    given: &mut Given,
    argument: Argument,
    value: &Value,
) -> Result<bool, AllocError>
    ensures { IfOk result
        (λ is_read. spec.argument_said names.now (given.old, used.old) argument (view value.now)
        ≡ (if is_read then Some (given.new, used.new) else None)) }
{
    Ok(match argument {
        Argument::Item => put(&mut given.item, names.item(value)),
        Argument::Queue => put(&mut given.queue, names.queue(value)),
        Argument::Cpu => put(&mut given.cpu, names.cpu(value)),
        Argument::Ticks => put(&mut given.ticks, read_count(value, 0)),
        Argument::MaxActive => put(&mut given.max_active, read_count(value, 1)),
        Argument::Gate => put(&mut given.gate, used.read_gate(alloc, value)?),
        Argument::Lock => put(&mut given.lock, used.read_lock(alloc, value)?),
    })
}

/// Reads the arguments, of which there are exactly as many as these.
pub fn read_arguments(
    alloc: Global,
    names: &Names,
    used: &mut Used,
    given: &mut Given,
    arguments: &[Argument],
    values: &[Value],
) -> Result<bool, AllocError>
    ensures { IfOk result
        (λ are_read. spec.arguments_said names.now arguments.now (given.old, used.old) (items_view values.now)
        ≡ (if are_read then Some (given.new, used.new) else None)) }
{
    match (arguments.split_first(), first_in(values)) {
        (Some((argument, arguments)), Some((value, values))) => {
            Ok(
                read_argument(alloc, names, used, given, *argument, value)?
                    && read_arguments(alloc, names, used, given, arguments, values)?,
            )
        }
        (None, None) => Ok(true),
        _ => Ok(false),
    }
}
