//! What is told of a refused file of calls or a refused history.

ghost use Rattle.cmwq_explain.specs.Written.{WritesLittle};

use crate::kept::MOST_KEPT;
use crate::looks::tell_bytes;
use crate::numbers::Sizes;
use crate::place::{InputLine, line_of, stage_before};
use crate::rooms::{tell_long, tell_no_room};
use crate::text::Text;
use crate::told::tell_text;
use crate::verdict::tell_verdict;
use crate::words::word_at;
use crate::wrong::{RefusedLine, tell_line};
use cmwq_base::{
    Call, Entry, FileLine, Gather, Listed, Memory, Refusal, Sink, Stage, Who, read_file,
};
use cmwq_text::{
    Form, begins_queue, is_calls_line, is_version_line, read_call_of_format, read_entry_of_format,
};
use std::alloc::Global;

/// The status of a refused input.
const REFUSED: u8 = 1;

/// The status of an illegal history.
const ILLEGAL: u8 = 3;

/// The status of calls without room, and of want of memory.
const FULL: u8 = 4;

/// The status of a fault of reading, writing or running.
const FAULT: u8 = 5;

/// What kind of file a subcommand reads, and its name.
#[derive(Clone, Copy)]
struct Reading<'a> {
    form: Form,
    word: &'a str,
}

impl Reading<'_> {
    /// Whether it reads calls.
    fn is_calls(self) -> bool {
        matches!(self.form, Form::Call)
    }

    /// Tells at the beginning of a line that a file is another, and what the subcommand reads.
    fn tell(self, text: &mut Text, number: u64, what: &str) {
        text.place(number, 0);
        text.say(what);
        text.say(self.word);
        text.say(if self.is_calls() {
            " reads calls"
        } else {
            " reads a history"
        });
    }
}

/// Tells why a file of calls was refused by a word that ended with this status, or which of its calls had no room
/// first, as one line. Where there is nothing to tell, as of want of memory, nothing is written. A failing sink changes
/// nothing.
pub fn explain_calls<E: Sink>(alloc: Global, word: &str, status: u8, bytes: &[u8], errors: &mut E)
    ensures { WritesLittle (E.written errors.old) (E.written errors.new) }
{
    let mut text = Text::new();
    match read_file::<Listed<(Who, Call)>, Memory<&[u8]>>(
        alloc,
        &mut Memory::reader(bytes),
        false,
    ) {
        Ok(file) if status == FULL => {
            tell_no_room(alloc, &mut text, bytes, file.version, &file.all);
        }
        Err(refusal) if status == FULL => tell_front(alloc, &mut text, bytes, refusal),
        Err(refusal) if status == REFUSED => {
            let form = Form::Call;
            tell_refusal::<(Who, Call)>(alloc, &mut text, bytes, refusal, Reading { form, word });
        }
        Ok(_) | Err(_) => {}
    }
    tell_text(errors, &text);
}

/// Tells, where a word ended with this status, that its input was too long to be kept, so that nothing is told of it.
/// At a fault, of which nothing would be told anyway, nothing is written.
pub fn explain_unkept<E: Sink>(status: u8, errors: &mut E)
    ensures { WritesLittle (E.written errors.old) (E.written errors.new) }
{
    let mut text = Text::new();
    if status != FAULT {
        text.say("no more is told: of the input at most ");
        text.number(MOST_KEPT as u64);
        text.say(" bytes are kept, as far as there is memory");
    }
    tell_text(errors, &text);
}

/// Tells the first call without room of those before a line that is refused or not there yet: it ended the word before
/// it came to that.
fn tell_front(alloc: Global, text: &mut Text, bytes: &[u8], refusal: Refusal) {
    if let Refusal::BadLine(number) | Refusal::NoSuchId(number) = refusal {
        if let Some(Stage::Body { version, all }) = stage_before::<(Who, Call)>(
            alloc, bytes, number,
        ) {
            tell_no_room(alloc, text, bytes, version, &all);
        }
    }
}

/// Tells why a history was refused by a word that ended with this status, or which entry it should have in the place of
/// its first that is wrong, as one line; of a front where `is_front` says so. Where there is nothing to tell, as of
/// want of memory, nothing is written. A failing sink changes nothing.
pub fn explain_history<E: Sink>(
    alloc: Global,
    word: &str,
    status: u8,
    bytes: &[u8],
    is_front: bool,
    errors: &mut E,
)
    ensures { WritesLittle (E.written errors.old) (E.written errors.new) }
{
    let mut text = Text::new();
    match read_file::<Listed<Entry>, Memory<&[u8]>>(alloc, &mut Memory::reader(bytes), is_front) {
        Ok(file) if status == ILLEGAL => {
            tell_verdict(alloc, &mut text, file.version, &file.all);
        }
        Err(refusal) if status == REFUSED => {
            let form = Form::Entry;
            tell_refusal::<Entry>(alloc, &mut text, bytes, refusal, Reading { form, word });
        }
        Ok(_) | Err(_) => {}
    }
    tell_text(errors, &text);
}

/// Tells why a file was refused.
fn tell_refusal<T: FileLine + Drop>(
    alloc: Global,
    text: &mut Text,
    bytes: &[u8],
    refusal: Refusal,
    reading: Reading<'_>,
) {
    if begins_json(bytes) {
        let what = "this is JSON; run and explore read scripts, replay reads scenarios, and ";
        reading.tell(text, 1, what);
        return;
    }
    match refusal {
        Refusal::BadLine(number) | Refusal::BadShape(number) | Refusal::NoSuchId(number) => {
            if let Some(stage) = stage_before::<T>(alloc, bytes, number) {
                match line_of(bytes, number) {
                    Some(line) => tell_place(text, line, &stage, reading),
                    None => tell_end(text, number, &stage, reading),
                }
            }
        }
        Refusal::TooLong => tell_long(text, bytes),
        Refusal::NoMemory | Refusal::ReadFault | Refusal::WriteFault => {}
    }
}

/// Whether an input begins as a script or a scenario does.
fn begins_json(bytes: &[u8]) -> bool {
    let first = bytes.iter().find(|byte| !byte.is_ascii_whitespace());
    first == Some(&b'{')
}

/// Tells what is missing where a file ends.
fn tell_end<T: FileLine + Drop>(
    text: &mut Text,
    number: u64,
    stage: &Stage<Listed<T>>,
    reading: Reading<'_>,
) {
    let (before, missing) = match stage {
        Stage::Begin | Stage::Opened { .. } => (0, "the shape, as \"shape 1 2 1 3 100\""),
        Stage::Head { queues, .. } if queues.is_empty() => (0, "the first queue, as \"wq 1 -\""),
        Stage::Body { all, .. } if !reading.is_calls() => (all.len(), ""),
        Stage::Head { .. } if !reading.is_calls() => (0, ""),
        Stage::Head { .. } | Stage::Body { .. } | Stage::Ended { .. } => (0, "another line"),
    };
    text.place(number, 0);
    text.say("the input ends here; expected ");
    text.say(missing);
    if missing.is_empty() {
        say_last(text, before);
    }
}

/// Says the last line of a history with so many entries.
fn say_last(text: &mut Text, entries: u64) {
    text.say("\"end ");
    text.number(entries);
    text.say("\"");
}

/// Tells what is wrong with a line, by what stands before it.
fn tell_place<T: FileLine + Drop>(
    text: &mut Text,
    place: InputLine<'_>,
    stage: &Stage<Listed<T>>,
    reading: Reading<'_>,
) {
    let InputLine { number, bytes, .. } = place;
    if let Stage::Ended { .. } = stage {
        text.place(number, 0);
        text.say("nothing may stand after the last line");
        return;
    }
    if tell_bytes(text, number, bytes) {
        return;
    }
    if !place.is_ended {
        text.place(number, bytes.len());
        text.say("the last line has no line feed");
        return;
    }
    let (version, sizes, before) = match stage {
        Stage::Head {
            version,
            counts,
            queues,
        } => (*version, Some((*counts, queues.len())), 0),
        Stage::Body { version, all } | Stage::Ended { version, all } => {
            (
                *version,
                Some((all.shape.counts(), all.shape.queues().len())),
                all.len(),
            )
        }
        Stage::Opened { version } => (*version, None, 0),
        Stage::Begin => (1, None, 0),
    };
    let line = RefusedLine {
        number,
        bytes,
        form: Form::Shape,
        version,
        sizes: None,
    };
    match (sizes, stage) {
        (None, _) => tell_shape(text, line, reading),
        (Some((_, queues)), Stage::Head { .. }) if queues == 0 || begins_queue(bytes) => {
            tell_queue(text, line, queues, reading);
        }
        (Some((counts, queues)), _) => {
            let sizes = Some(Sizes { counts, queues });
            let form = reading.form;
            tell_item(
                text,
                RefusedLine {
                    form,
                    sizes,
                    ..line
                },
                before,
                reading,
            );
        }
    }
}

/// Tells what is wrong with a line where that of the shape should stand.
fn tell_shape(text: &mut Text, line: RefusedLine<'_>, reading: Reading<'_>) {
    let RefusedLine { number, bytes, .. } = line;
    let is_history = is_version_line(2, bytes) || is_version_line(3, bytes);
    if reading.is_calls() && is_history {
        reading.tell(text, number, "this is a history; ");
    } else if !reading.is_calls() && is_calls_line(3, bytes) {
        reading.tell(text, number, "these are calls; ");
    } else if bytes.starts_with(b"history ") || bytes.starts_with(b"calls ") {
        text.place(number, 0);
        text.quoted(bytes);
        text.say(if reading.is_calls() {
            " is not a first line of calls; there is \"calls 3\", or none"
        } else {
            " is not a first line of a history; there are \"history 2\" and \"history 3\", or none"
        });
    } else {
        let _ = tell_line(text, line);
    }
}

/// Tells what is wrong with the line of a queue, where so many stand before it.
fn tell_queue(text: &mut Text, line: RefusedLine<'_>, queues: usize, reading: Reading<'_>) {
    let form = if reading.is_calls() {
        Form::CallsQueue
    } else {
        Form::Queue
    };
    if !begins_queue(line.bytes) {
        text.place(line.number, 0);
        text.quoted(line.bytes);
        text.say(": expected the first queue, as \"wq 1 -\"");
    } else if !tell_line(text, RefusedLine { form, ..line }) {
        text.place(line.number, 0);
        text.say("one queue too many: at most ");
        text.number(queues as u64);
    }
}

/// Tells what is wrong with a line after the queues, where so many stand before it.
fn tell_item(text: &mut Text, line: RefusedLine<'_>, before: u64, reading: Reading<'_>) {
    let RefusedLine { number, bytes, .. } = line;
    if begins_queue(bytes) {
        text.place(number, 0);
        text.say("a queue may not stand after the first ");
        text.say(if reading.is_calls() { "call" } else { "entry" });
    } else if reading.is_calls() && read_entry_of_format(3, bytes).is_some() {
        reading.tell(text, number, "this is an entry of a history; ");
    } else if !reading.is_calls() && read_call_of_format(3, bytes).is_some() {
        reading.tell(text, number, "this is a call; ");
    } else if word_at(bytes, 0) == Some(b"end".as_slice()) {
        text.place(number, 0);
        text.quoted(bytes);
        if reading.is_calls() || line.version < 3 {
            text.say(": only a history of format 3 has a last line");
        } else {
            text.say("; expected ");
            say_last(text, before);
            text.say(", after so many entries");
        }
    } else {
        let _ = tell_line(text, line);
    }
}
