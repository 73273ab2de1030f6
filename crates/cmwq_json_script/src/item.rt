//! Items: their names, and what each does.

ghost use Rattle.std.specs.Prelude.{◌≡◌, IfOk, Ok, Err, Some, None, option_map, if◌then◌else◌, length};
ghost use Rattle.std.specs.Option.{option_map_or};
ghost use Rattle.serde_json.specs.View.{view, items_view};
ghost use Rattle.cmwq_json.specs.InTurn.{in_turn};
ghost use Rattle.cmwq_json.specs.Parts as refused;
ghost use Rattle.cmwq_json.specs.Readings.{map_ok};
ghost use Rattle.cmwq_json_script.specs.Items as spec;
ghost use Rattle.cmwq_json_script.specs.Runs.{some_of};
ghost use Rattle.cmwq_json_script.specs.Views.{work_of};

use crate::action::{Action, Actor, read_actions};
use crate::names::{Names, name_at};
use crate::used::Used;
use cmwq_json::{Members, Part, Refused, has_keys};
use serde_json::Value;
use std::alloc::{AllocError, Global};

/// Items, and the gates and locks that they use.
#[derive(Drop)]
pub struct Items {
    pub members: Members<Vec<Action>>,
    pub used: Used,
}

impl Items {
    /// No item.
    fn new(alloc: Global) -> Items
        ensures { work_of result ≡ spec.no_work }
    {
        Items {
            members: Members::new(alloc),
            used: Used::new(alloc),
        }
    }
}

/// An item: an object with a name, and what it does.
fn read_item<'v>(
    alloc: Global,
    names: &Names,
    used: &mut Used,
    value: &'v Value,
) -> Result<Option<(&'v str, Vec<Action>)>, AllocError>
    ensures { IfOk result (λ r. option_map (λ x. (x.0.now, record { actions = x.1.items; used = used.new })) r
        ≡ spec.item_said names.now used.old (view value.now)) }
{
    if !has_keys(value, &["does", "name"]) {
        return Ok(None);
    }
    let (Some(name), Some(actions)) = (name_at(value), value.get("does")) else {
        return Ok(None);
    };
    match read_actions(alloc, Actor::Item, names, used, actions)? {
        Some(actions) => Ok(Some((name, actions))),
        None => Ok(None),
    }
}

/// Adds an item, where there are fewer than `most`.
fn add_item(
    alloc: Global,
    most: usize,
    names: &Names,
    items: &mut Items,
    value: &Value,
) -> Result<bool, AllocError>
    ensures { IfOk result (λ added. spec.add_item most names.now (work_of items.old) (view value.now)
        ≡ (if added then Some (work_of items.new) else None)) }
{
    match read_item(alloc, names, &mut items.used, value)? {
        Some((name, actions)) => items.members.add(alloc, most, name, actions),
        None => Ok(false),
    }
}

/// Adds the items, of which there is at least one. Some: the first that is refused.
fn add_items(
    alloc: Global,
    most: usize,
    names: &Names,
    items: &mut Items,
    values: &[Value],
) -> Result<Option<Refused>, AllocError>
    ensures { IfOk result
        (λ r. some_of refused.items (λ w. length w.items.values)
        (in_turn (spec.add_item most names.now) 0 (work_of items.old) (items_view values.now))
        ≡ option_map_or Err r (Ok (work_of items.new))) }
{
    for (index, value) in values.iter().enumerate() {
        if !add_item(alloc, most, names, items, value)? {
            return Ok(Some(Refused {
                part: Part::Items,
                index,
            }));
        }
    }
    if items.members.values.is_empty() {
        Ok(Some(Refused {
            part: Part::Items,
            index: 0,
        }))
    } else {
        Ok(None)
    }
}

/// The items, of which there is at least one and `most` at most, or the first that is refused.
pub fn read_items(
    alloc: Global,
    most: usize,
    names: &Names,
    values: &[Value],
) -> Result<Result<Items, Refused>, AllocError>
    ensures { IfOk result
        (λ r. map_ok work_of r
        ≡ some_of refused.items (λ w. length w.items.values)
        (in_turn (spec.add_item most names.now) 0 spec.no_work (items_view values.now))) }
{
    let mut items = Items::new(alloc);
    match add_items(alloc, most, names, &mut items, values)? {
        Some(refused) => Ok(Err(refused)),
        None => Ok(Ok(items)),
    }
}
