//! What has no room: calls, and inputs that are too long.

ghost use Rattle.std.specs.Prelude.{◌≡◌};

use crate::place::line_of;
use crate::text::Text;
use cmwq_base::{Call, Listed, Who};
use cmwq_core::{Execution, Full};
use cmwq_io::LINE_LIMIT;
use std::alloc::Global;

/// How many lines stand before the first call or entry, in this format with so many queues.
pub fn head_lines(version: u8, queues: usize) -> u64 {
    let first = if version > 1 { 2 } else { 1 };
    (queues as u64).saturating_add(first)
}

/// Tells the first call of a file for which there was no room, if there is one.
pub fn tell_no_room(
    alloc: Global,
    text: &mut Text,
    bytes: &[u8],
    version: u8,
    file: &Listed<(Who, Call)>,
) {
    let Some(at) = first_full(alloc, file) else {
        return;
    };
    let number = head_lines(version, file.shape.queues().len())
        .saturating_add(at)
        .saturating_add(1);
    if let Some(place) = line_of(bytes, number) {
        text.place(number, 0);
        text.quoted(place.bytes);
        text.say(" is the first call without room; room ");
        text.number(file.shape.counts().room);
        text.say(" counts the entries too that end what has begun");
    }
}

/// Which call of a file is the first that has no room. None: all have, or memory ran out.
fn first_full(alloc: Global, file: &Listed<(Who, Call)>) -> Option<u64> {
    let room = file.shape.counts().room;
    let mut execution = Execution::new(alloc, &file.shape, room).ok()?;
    let full = first_full_of(&mut execution, file);
    execution.end();
    full
}

/// The same, of an execution without entries.
fn first_full_of(execution: &mut Execution, file: &Listed<(Who, Call)>) -> Option<u64>
    requires { execution.old.layout ≡ file.now.shape }
{
    let mut at = 0u64;
    for (who, call) in &file.items {
        if !file.shape.fits(*who, *call) {
            return None;
        }
        if let Err(Full) = execution.next(*who, *call) {
            return Some(at);
        }
        at = at.saturating_add(1);
    }
    None
}

/// Tells the first line of an input that is too long, or that there are too many.
pub fn tell_long(text: &mut Text, bytes: &[u8]) {
    let mut number = 1u64;
    let mut length = 0usize;
    for byte in bytes {
        if *byte == b'\n' {
            number = number.saturating_add(1);
            length = 0;
        } else {
            length = length.saturating_add(1);
        }
        if length > LINE_LIMIT {
            break;
        }
    }
    if length > LINE_LIMIT {
        text.place(number, LINE_LIMIT);
        text.say("a line has at most ");
        text.number(LINE_LIMIT as u64);
        text.say(" bytes");
    } else {
        text.say("there are more lines after the queues than the format has");
    }
}
