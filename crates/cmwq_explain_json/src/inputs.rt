//! What is told of a refused scenario or script.

ghost use Rattle.cmwq_explain.specs.Written.{WritesLittle};

use crate::scripts::tell_refused;
use crate::world::{Grammar, World};
use arrayvec::ArrayString;
use cmwq_explain::{Text, tell_text};
use cmwq_io::Sink;
use cmwq_json::{MOST_BYTES, Refused};
use cmwq_json_script::read_script;
use cmwq_replay::read_scenario;
use serde_json::{Error, Value};
use std::alloc::{AllocError, Global};
use std::fmt;
use std::fmt::Write;

/// The status of a refused input.
const REFUSED: u8 = 1;

/// Tells why a scenario was refused, where the word ended with this status, as one line. Where there is nothing to
/// tell, as of want of memory, nothing is written. A failing sink changes nothing.
pub fn explain_scenario<E: Sink>(alloc: Global, status: u8, bytes: &[u8], errors: &mut E)
    ensures { WritesLittle (E.written errors.old) (E.written errors.new) }
{
    let mut text = Text::new();
    if status == REFUSED {
        text = told(alloc, Grammar::Scenario, bytes);
    }
    tell_text(errors, &text);
}

/// Tells why a script was refused, in the same way.
pub fn explain_script<E: Sink>(alloc: Global, status: u8, bytes: &[u8], errors: &mut E)
    ensures { WritesLittle (E.written errors.old) (E.written errors.new) }
{
    let mut text = Text::new();
    if status == REFUSED {
        text = told(alloc, Grammar::Script, bytes);
    }
    tell_text(errors, &text);
}

/// What is told of a refused input; nothing where memory ran out, as half of it might be untrue.
fn told(alloc: Global, grammar: Grammar, bytes: &[u8]) -> Text {
    let mut text = Text::new();
    match tell_input(&mut text, alloc, grammar, bytes) {
        Ok(()) => text,
        Err(AllocError) => Text::new(),
    }
}

/// Tells why an input was refused, if it was.
fn tell_input(
    text: &mut Text,
    alloc: Global,
    grammar: Grammar,
    bytes: &[u8],
) -> Result<(), AllocError> {
    if bytes.len() > MOST_BYTES {
        text.say("the input has at most ");
        text.number(MOST_BYTES as u64);
        text.say(" bytes");
        return Ok(());
    }
    let value = match Value::from_slice(alloc, bytes) {
        Ok(value) => value,
        Err(error) => {
            tell_json(text, bytes, &error);
            return Ok(());
        }
    };
    if let Some(refused) = refused_in(alloc, grammar, &value)? {
        let world = World {
            alloc,
            grammar,
            whole: &value,
        };
        tell_refused(text, world, refused)?;
    }
    Ok(())
}

/// The first member that a reader refuses.
fn refused_in(
    alloc: Global,
    grammar: Grammar,
    value: &Value,
) -> Result<Option<Refused>, AllocError> {
    Ok(match grammar {
        Grammar::Script => read_script(alloc, value)?.err(),
        Grammar::Scenario => read_scenario(alloc, value)?.err(),
    })
}

/// Tells where bytes are not JSON, and what the reader says of it; of calls and histories what reads them.
fn tell_json(text: &mut Text, bytes: &[u8], error: &Error) {
    if error.is_memory() {
        return;
    }
    let is_shape = bytes.starts_with(b"shape ");
    if is_shape || bytes.starts_with(b"calls ") || bytes.starts_with(b"history ") {
        text.say("this is not JSON; step reads calls, and check reads a history");
        return;
    }
    if let Ok(said) = spell(error) {
        text.say(said.as_str());
    }
}

fn spell(error: &Error) -> Result<ArrayString<200>, fmt::Error> {
    let mut said = ArrayString::new();
    write!(said, "{error}")?;
    Ok(said)
}
