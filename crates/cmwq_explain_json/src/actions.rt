//! Actions of callers and of items: a list of a word and its arguments.

use crate::world::{World, say_place};
use cmwq_explain::{Text, say_count, say_limit, say_names};
use cmwq_json::{Part, Refused, is_name};
use cmwq_json_script::{Actor, Argument, WORDS, word_of};
use serde_json::Value;
use std::alloc::AllocError;

/// What is expected where an argument should stand.
fn wanted(argument: Argument) -> &'static str {
    match argument {
        Argument::Item => "an item's name",
        Argument::Queue => "a queue's name",
        Argument::Cpu => "a CPU's number",
        Argument::Ticks => "how many ticks",
        Argument::MaxActive => "a max_active",
        Argument::Gate => "a gate's name",
        Argument::Lock => "a lock's name",
    }
}

/// The words of the actions that this one does.
fn words_of(world: World<'_>, actor: Actor) -> Result<Vec<&'static str>, AllocError> {
    let mut words = Vec::new(world.alloc);
    for word in WORDS.iter() {
        if word.is_done_by(actor) {
            words.push(word.text())?;
        }
    }
    Ok(words)
}

/// Where an action stands: whose it is, in which member, and at which place there.
#[derive(Clone, Copy)]
struct Site {
    actor: Actor,
    place: Refused,
    index: usize,
}

impl Site {
    /// Says it.
    fn say(self, text: &mut Text) {
        say_place(text, self.place);
        text.say(", action ");
        text.number(self.index as u64);
        text.say(": ");
    }
}

/// Tells that there are too many actions, or the first that is wrong.
pub fn tell_actions(
    text: &mut Text,
    world: World<'_>,
    actor: Actor,
    place: Refused,
    actions: &[Value],
) -> Result<bool, AllocError> {
    let most = actor.most_actions();
    if actions.len() > most {
        say_place(text, place);
        text.say(": ");
        text.number(actions.len() as u64);
        text.say(" actions: at most ");
        text.number(most as u64);
        return Ok(true);
    }
    for (index, action) in actions.iter().enumerate() {
        let site = Site {
            actor,
            place,
            index,
        };
        if tell_action(text, world, site, action)? {
            return Ok(true);
        }
    }
    Ok(false)
}

/// Tells what is wrong with an action.
fn tell_action(
    text: &mut Text,
    world: World<'_>,
    site: Site,
    action: &Value,
) -> Result<bool, AllocError> {
    let parts = match action.as_array() {
        Some(parts) => parts.as_slice(),
        None => &[],
    };
    let Some((Value::String(word), arguments)) = parts.split_first() else {
        site.say(text);
        world.say_value(text, action)?;
        text.say(match site.actor {
            Actor::Caller => ": expected an action, as [\"flush\",\"q0\"]",
            Actor::Item => ": expected an action, as [\"cancel\",\"A\"]",
        });
        return Ok(true);
    };
    match word_of(word.as_str()) {
        Some(known) if known.is_done_by(site.actor) => {
            tell_arguments(text, world, site, known.arguments(), arguments)
        }
        _ => {
            let words = words_of(world, site.actor)?;
            site.say(text);
            text.quoted(word.as_str().as_bytes());
            text.say(" is not an action");
            say_names(text, &words, word.as_str().as_bytes());
            Ok(true)
        }
    }
}

/// Tells the first argument of an action that is wrong, or that there are too few or too many.
fn tell_arguments(
    text: &mut Text,
    world: World<'_>,
    site: Site,
    expected: &[Argument],
    arguments: &[Value],
) -> Result<bool, AllocError> {
    for (index, argument) in arguments.iter().enumerate() {
        let is_told = match expected.get(index) {
            Some(kind) => tell_argument(text, world, site, *kind, argument)?,
            None => {
                site.say(text);
                world.say_value(text, argument)?;
                text.say(": the action should end before it");
                true
            }
        };
        if is_told {
            return Ok(true);
        }
    }
    match expected.get(arguments.len()) {
        Some(kind) => {
            site.say(text);
            text.say("the action ends here; expected ");
            text.say(wanted(*kind));
            Ok(true)
        }
        None => Ok(false),
    }
}

/// Tells an argument that is wrong.
fn tell_argument(
    text: &mut Text,
    world: World<'_>,
    site: Site,
    kind: Argument,
    argument: &Value,
) -> Result<bool, AllocError> {
    match kind {
        Argument::Item => tell_name(text, world, site, Part::Items, " is not an item", argument),
        Argument::Queue => tell_name(text, world, site, Part::Queues, " is not a queue", argument),
        Argument::Gate | Argument::Lock => tell_new_name(text, world, site, argument),
        Argument::Cpu => tell_cpu(text, world, site, argument),
        Argument::Ticks => tell_number(text, world, site, "ticks ", 0, argument),
        Argument::MaxActive => tell_number(text, world, site, "max_active ", 1, argument),
    }
}

/// Tells a name that no member of a list has.
fn tell_name(
    text: &mut Text,
    world: World<'_>,
    site: Site,
    part: Part,
    is_none: &str,
    argument: &Value,
) -> Result<bool, AllocError> {
    let names = world.names(part)?;
    let name = argument.as_str().unwrap_or("");
    if is_name(name) && names.as_slice().contains(&name) {
        return Ok(false);
    }
    site.say(text);
    world.say_value(text, argument)?;
    text.say(is_none);
    say_names(text, &names, name.as_bytes());
    Ok(true)
}

/// Tells the name of a gate or a lock that is none.
fn tell_new_name(
    text: &mut Text,
    world: World<'_>,
    site: Site,
    argument: &Value,
) -> Result<bool, AllocError> {
    if argument.as_str().is_some_and(|name| is_name(name)) {
        return Ok(false);
    }
    site.say(text);
    world.say_value(text, argument)?;
    text.say(": expected a name of 1 to 16 letters, digits and _");
    Ok(true)
}

/// Tells a CPU that there isn't.
fn tell_cpu(
    text: &mut Text,
    world: World<'_>,
    site: Site,
    argument: &Value,
) -> Result<bool, AllocError> {
    let cpus = world.whole.get("cpus").and_then(Value::as_u64).unwrap_or(0);
    if argument.as_u64().is_some_and(|cpu| cpu < cpus) {
        return Ok(false);
    }
    site.say(text);
    text.say("CPU ");
    world.say_value(text, argument)?;
    say_count(text, cpus);
    Ok(true)
}

/// Tells a number of ticks or a max_active that is wrong.
fn tell_number(
    text: &mut Text,
    world: World<'_>,
    site: Site,
    name: &str,
    least: u64,
    argument: &Value,
) -> Result<bool, AllocError> {
    let most = u64::from(u32::MAX);
    let number = argument.as_u64();
    if number.is_some_and(|number| least <= number && number <= most) {
        return Ok(false);
    }
    site.say(text);
    text.say(name);
    world.say_value(text, argument)?;
    match number {
        Some(_) => say_limit(text, number, least, most),
        None => text.say(" is not a whole number"),
    }
    Ok(true)
}
