//! The first member of an object that is wrong.

use crate::actions::tell_actions;
use crate::members::{Kind, Member, Quantity, limits, members_of};
use crate::world::{World, say_place};
use cmwq_explain::{Text, say_limit, say_names};
use cmwq_json::{Part, Refused, is_name};
use cmwq_json_script::Actor;
use cmwq_replay::{MOST_MS, MOST_PARTS};
use serde_json::Value;
use std::alloc::AllocError;

/// The format that allows the most.
const NEWEST: u8 = 3;

/// Tells the first key or value of an object that is wrong. False: each is right by itself.
pub fn tell_object(
    text: &mut Text,
    world: World<'_>,
    place: Refused,
    value: &Value,
) -> Result<bool, AllocError> {
    let members = members_of(world.grammar, place.part);
    let Some(object) = value.as_object() else {
        say_place(text, place);
        text.say(": ");
        world.say_value(text, value)?;
        text.say(" is not an object");
        return Ok(true);
    };
    for key in object.keys() {
        if !members.iter().any(|(other, _, _)| *other == key.as_str()) {
            tell_key(text, world, place, members, key.as_str())?;
            return Ok(true);
        }
    }
    for (key, _, is_needed) in members {
        if *is_needed && value.get(*key).is_none() {
            say_place(text, place);
            text.say(": the key \"");
            text.say(key);
            text.say("\" is missing");
            return Ok(true);
        }
    }
    for member in members {
        if let Some(found) = value.get(member.0) {
            if tell_member(text, world, place, *member, found)? {
                return Ok(true);
            }
        }
    }
    Ok(false)
}

/// Tells a key that there isn't.
fn tell_key(
    text: &mut Text,
    world: World<'_>,
    place: Refused,
    members: &[Member],
    key: &str,
) -> Result<(), AllocError> {
    let mut keys = Vec::new(world.alloc);
    for (other, _, _) in members {
        keys.push(*other)?;
    }
    say_place(text, place);
    text.say(": ");
    text.quoted(key.as_bytes());
    text.say(" is not a key");
    say_names(text, &keys, key.as_bytes());
    Ok(())
}

/// Tells the value at a key, if it is wrong.
fn tell_member(
    text: &mut Text,
    world: World<'_>,
    place: Refused,
    member: Member,
    found: &Value,
) -> Result<bool, AllocError> {
    let (key, kind, _) = member;
    match (kind, found.as_array()) {
        (Kind::List, Some(_)) => return Ok(false),
        (Kind::Parts, Some(parts)) => return tell_parts(text, world, place, key, parts),
        (Kind::Actions, Some(actions)) => {
            return tell_actions(text, world, Actor::Item, place, actions);
        }
        _ => {}
    }
    if is_right(world, kind, found)? {
        return Ok(false);
    }
    say_place(text, place);
    text.say(", ");
    text.say(key);
    text.say(" ");
    world.say_value(text, found)?;
    match kind {
        Kind::List | Kind::Parts | Kind::Actions => text.say(": expected a list"),
        Kind::Name => text.say(": expected a name of 1 to 16 letters, digits and _"),
        Kind::Flag => text.say(": expected true or false"),
        Kind::Number(quantity) => say_number(text, world, quantity, found.as_u64()),
        Kind::Queue => {
            let names = world.names(Part::Queues)?;
            text.say(": there is no such queue");
            say_names(text, &names, found.as_str().unwrap_or("").as_bytes());
        }
    }
    Ok(true)
}

/// Whether a value that is no list is what it must be.
fn is_right(world: World<'_>, kind: Kind, found: &Value) -> Result<bool, AllocError> {
    Ok(match kind {
        Kind::List | Kind::Parts | Kind::Actions => false,
        Kind::Name => found.as_str().is_some_and(|name| is_name(name)),
        Kind::Flag => found.as_bool().is_some(),
        Kind::Number(quantity) => {
            let (least, most) = limits(world, world.version(), quantity);
            found
                .as_u64()
                .is_some_and(|number| least <= number && number <= most)
        }
        Kind::Queue => {
            let names = world.names(Part::Queues)?;
            names.as_slice().contains(&found.as_str().unwrap_or(""))
        }
    })
}

/// Says which limit a number passes, or that there is none.
fn say_number(text: &mut Text, world: World<'_>, quantity: Quantity, number: Option<u64>) {
    let (least, most) = limits(world, world.version(), quantity);
    let Some(number) = number else {
        text.say(": expected a whole number, ");
        text.number(least);
        text.say(" to ");
        text.number(most);
        return;
    };
    say_limit(text, Some(number), least, most);
    let (_, newest) = limits(world, NEWEST, quantity);
    if most < number && number <= newest {
        text.say("; \"format\":3 allows ");
        text.number(newest);
    }
}

/// Tells that an item of a scenario has too few or too many parts, or the first that is wrong.
fn tell_parts(
    text: &mut Text,
    world: World<'_>,
    place: Refused,
    key: &str,
    parts: &[Value],
) -> Result<bool, AllocError> {
    if parts.is_empty() || parts.len() > MOST_PARTS {
        let count = parts.len() as u64;
        say_place(text, place);
        text.say(", ");
        text.say(key);
        text.say(": ");
        text.number(count);
        text.say(" of them");
        say_limit(text, Some(count), 1, MOST_PARTS as u64);
        return Ok(true);
    }
    for (index, part) in parts.iter().enumerate() {
        let number = part.as_u64();
        if !number.is_some_and(|number| 1 <= number && number <= MOST_MS) {
            say_place(text, place);
            text.say(", part ");
            text.number(index as u64);
            text.say(": ");
            world.say_value(text, part)?;
            match number {
                Some(_) => say_limit(text, number, 1, MOST_MS),
                None => text.say(" is not a whole number"),
            }
            return Ok(true);
        }
    }
    Ok(false)
}
