//! The gates and the locks that items and callers name.

use crate::world::{World, say_place};
use cmwq_explain::Text;
use cmwq_json::{Part, Refused};
use cmwq_json_script::{Argument, MOST_NAMES, word_of};
use serde_json::Value;
use std::alloc::AllocError;

/// Tells that an item or a caller names one gate or one lock more than there may be. False: there are no more.
pub fn tell_used(text: &mut Text, world: World<'_>, place: Refused) -> Result<bool, AllocError> {
    for (kind, plural) in [(Argument::Gate, "gates "), (Argument::Lock, "locks ")] {
        let count = names_until(world, kind, place)?.len();
        if count > MOST_NAMES {
            say_place(text, place);
            text.say(": ");
            text.say(plural);
            text.number(count as u64);
            text.say(": at most ");
            text.number(MOST_NAMES as u64);
            return Ok(true);
        }
    }
    Ok(false)
}

/// The names that are used up to this item or caller, each once. Items come before callers.
fn names_until<'a>(
    world: World<'a>,
    kind: Argument,
    place: Refused,
) -> Result<Vec<&'a str>, AllocError> {
    let mut names = Vec::new(world.alloc);
    for (index, item) in world.members(Part::Items).iter().enumerate() {
        if place.part == Part::Callers || place.part == Part::Items && index <= place.index {
            if let Some(actions) = item.get("does") {
                add_names(&mut names, kind, actions)?;
            }
        }
    }
    for (index, caller) in world.members(Part::Callers).iter().enumerate() {
        if place.part == Part::Callers && index <= place.index {
            add_names(&mut names, kind, caller)?;
        }
    }
    Ok(names)
}

/// Adds the names that actions use, each once.
fn add_names<'a>(
    names: &mut Vec<&'a str>,
    kind: Argument,
    actions: &'a Value,
) -> Result<(), AllocError> {
    if let Value::Array(actions) = actions {
        for action in actions {
            if let Some(name) = name_in(kind, action) {
                if !names.as_slice().contains(&name) {
                    names.push(name)?;
                }
            }
        }
    }
    Ok(())
}

/// The name of this kind that an action uses.
fn name_in(kind: Argument, action: &Value) -> Option<&str> {
    let word = word_of(action.get(0)?.as_str()?)?;
    match (kind, word.arguments()) {
        (Argument::Gate, [Argument::Gate]) | (Argument::Lock, [Argument::Lock]) => {
            action.get(1)?.as_str()
        }
        _ => None,
    }
}
