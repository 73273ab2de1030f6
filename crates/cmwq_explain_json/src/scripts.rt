//! The first member of an input that is refused, of each part.

use crate::actions::tell_actions;
use crate::objects::tell_object;
use crate::used::tell_used;
use crate::world::{World, key_of, name_of, say_place};
use cmwq_explain::Text;
use cmwq_json::{Part, Refused};
use cmwq_json_script::{Actor, callers_in};
use serde_json::Value;
use std::alloc::AllocError;

/// Tells what is wrong with a refused member: by itself, or because of those before it.
pub fn tell_refused(text: &mut Text, world: World<'_>, place: Refused) -> Result<(), AllocError> {
    let members = world.members(place.part);
    let (is_told, is_caller) = match (place.part, members.get(place.index)) {
        (Part::Top, _) => {
            let _told = tell_object(text, world, place, world.whole)?;
            return Ok(());
        }
        (_, None) => {
            text.say(key_of(place.part));
            text.say(": there is none; expected at least one");
            return Ok(());
        }
        (Part::Callers, Some(caller)) => (tell_caller(text, world, place, caller)?, true),
        (_, Some(member)) => {
            let is_told = tell_object(text, world, place, member)?
                || tell_twice(text, place, members, member);
            (is_told, false)
        }
    };
    if !is_told && !tell_used(text, world, place)? {
        say_place(text, place);
        text.say(": one too many; at most ");
        text.number(place.index as u64);
        if is_caller {
            say_waits(
                text,
                usize::from(callers_in(world.version())).saturating_sub(place.index),
            );
        }
    }
    Ok(())
}

/// Says how many runs may wait at once, if any may: there are fewer callers then.
fn say_waits(text: &mut Text, waits: usize) {
    if waits > 0 {
        text.say(", as ");
        text.number(waits as u64);
        text.say(if waits == 1 {
            " run may wait"
        } else {
            " runs may wait"
        });
    }
}

/// Tells a name that a member before has too.
fn tell_twice(text: &mut Text, place: Refused, members: &[Value], member: &Value) -> bool {
    let Some(name) = name_of(member) else {
        return false;
    };
    for (index, other) in members.iter().take(place.index).enumerate() {
        if name_of(other) == Some(name) {
            say_place(text, place);
            text.say(", name ");
            text.quoted(name.as_bytes());
            text.say(": it is the name of ");
            text.say(key_of(place.part));
            text.say(" ");
            text.number(index as u64);
            text.say(" too");
            return true;
        }
    }
    false
}

/// Tells that a caller is no list, that it has too many actions, or the first that is wrong.
fn tell_caller(
    text: &mut Text,
    world: World<'_>,
    place: Refused,
    caller: &Value,
) -> Result<bool, AllocError> {
    match caller.as_array() {
        Some(actions) => tell_actions(text, world, Actor::Caller, place, actions),
        None => {
            say_place(text, place);
            text.say(": ");
            world.say_value(text, caller)?;
            text.say(": expected a list of actions");
            Ok(true)
        }
    }
}
