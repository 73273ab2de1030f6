//! The first word of a line that can't stand there, and what can.

use crate::nearest::say_names;
use crate::numbers::{Sizes, names_of, say_count, say_limit};
use crate::text::Text;
use crate::words::{front_of, start_of, word_at};
use arrayvec::ArrayVec;
use cmwq_model::Who;
use cmwq_text::{
    Expected, Form, KEYWORDS, Keyword, NumberOf, expected_after, is_new_at, limits,
    read_call_of_format, read_entry_of_format, read_number,
};

/// The format that allows the most.
const NEWEST: u8 = 3;

/// How many keywords there are.
const KEYWORD_COUNT: usize = KEYWORDS.len();

/// The keywords after `ticket <k>`, in the order in which they are told.
const AFTER_TICKET: [Keyword; 4] = [
    Keyword::Queued,
    Keyword::Cancelled,
    Keyword::Unbooked,
    Keyword::No,
];

/// A line that was refused: its number, its bytes, what it should be in which format, and the sizes of what it names,
/// where they are known.
#[derive(Clone, Copy)]
pub struct RefusedLine<'a> {
    pub number: u64,
    pub bytes: &'a [u8],
    pub form: Form,
    pub version: u8,
    pub sizes: Option<Sizes>,
}

impl RefusedLine<'_> {
    /// Says where a word of it is.
    pub fn say_place(self, text: &mut Text, index: usize) {
        text.place(self.number, start_of(self.bytes, index));
    }

    /// Who is in it, if it is right but for what the shape has.
    fn who(self) -> Option<Who> {
        match self.form {
            Form::Call => Some(read_call_of_format(self.version, self.bytes)?.0),
            Form::Entry => Some(read_entry_of_format(self.version, self.bytes)?.who),
            Form::Shape | Form::CallsQueue | Form::Queue => None,
        }
    }
}

/// Tells what is wrong with a line: who is in it if there is no such, or the first word that can't stand there, and
/// what can. False: nothing is.
pub fn tell_line(text: &mut Text, line: RefusedLine<'_>) -> bool {
    if tell_who(text, line) {
        return true;
    }
    let mut before = expected_after(line.form, b"");
    for index in 0..=line.bytes.len() {
        let after = expected_after(line.form, front_of(line.bytes, index));
        if tell_at(text, line, index, before, after) {
            return true;
        }
        before = after;
    }
    false
}

/// Tells what is wrong at a word of a line or at its end, by what its reader expects before the word and after it.
/// False: nothing is.
fn tell_at(
    text: &mut Text,
    line: RefusedLine<'_>,
    index: usize,
    before: Result<Expected, Expected>,
    after: Result<Expected, Expected>,
) -> bool {
    let is_line = before.is_ok();
    let (Ok(expected) | Err(expected)) = before;
    match (expected, word_at(line.bytes, index)) {
        (Expected::OtherWho, _) => tell_maker(text, line),
        (_, None) if is_line => false,
        (_, None) => tell_end(text, line, index, expected),
        (Expected::Number(number), Some(word)) => tell_number(text, line, index, number, word),
        (_, Some(word)) => {
            let is_read = after != Err(expected);
            tell_word(text, line, index, expected, word, is_read)
        }
    }
}

/// Tells a caller or a worker that there isn't.
fn tell_who(text: &mut Text, line: RefusedLine<'_>) -> bool {
    let (Some(who), Some(Sizes { counts, .. })) = (line.who(), line.sizes) else {
        return false;
    };
    let (name, value, count) = match who {
        Who::Caller(caller) => ("caller ", caller.0, counts.callers),
        Who::Worker(worker) if worker.pool.cpu.0 >= counts.cpus => {
            ("CPU ", worker.pool.cpu.0, counts.cpus)
        }
        Who::Worker(worker) => ("worker ", worker.index, counts.workers),
    };
    if value < count {
        return false;
    }
    line.say_place(text, 0);
    text.say(name);
    if value == u8::MAX {
        text.say("255 or more");
    } else {
        text.number(u64::from(value));
    }
    say_count(text, u64::from(count));
    true
}

/// Tells that who is there doesn't make the call.
fn tell_maker(text: &mut Text, line: RefusedLine<'_>) -> bool {
    let index = if matches!(line.form, Form::Entry) {
        2
    } else {
        1
    };
    let who = word_at(line.bytes, 0).unwrap_or(b"");
    line.say_place(text, index);
    text.raw(word_at(line.bytes, index).unwrap_or(b""));
    let (makes, is) = match who.first() {
        Some(b'c') => (" is a worker's call, and ", " is a caller"),
        _ => (" is a caller's call, and ", " is a worker"),
    };
    text.say(makes);
    text.raw(who);
    text.say(is);
    true
}

/// Tells that a line ends too early.
fn tell_end(text: &mut Text, line: RefusedLine<'_>, index: usize, expected: Expected) -> bool {
    line.say_place(text, index);
    text.say("the line ends here");
    say_expected(text, line, expected, b"");
    true
}

/// Tells a word that stands where a number should, if it is none that may. False: it may stand there.
fn tell_number(
    text: &mut Text,
    line: RefusedLine<'_>,
    index: usize,
    number: NumberOf,
    word: &[u8],
) -> bool {
    let (least, most) = limits(line.form, line.version, number);
    let count = line.sizes.and_then(|sizes| sizes.count_of(number));
    let value = read_number(word);
    let is_within = value.is_some_and(|value| least <= value && value <= most);
    let is_there = match (value, count) {
        (Some(value), Some(count)) => value < count,
        _ => true,
    };
    if is_within && is_there {
        return false;
    }
    line.say_place(text, index);
    let (name, wanted) = names_of(number);
    let digits = word
        .strip_prefix(b"+")
        .or(word.strip_prefix(b"-"))
        .unwrap_or(word);
    if digits.is_empty() || !digits.iter().all(|byte| byte.is_ascii_digit()) {
        text.quoted(word);
        text.say(" is not a number; expected ");
        text.say(wanted);
        return true;
    }
    text.say(name);
    text.say(" ");
    text.raw(word);
    match (word, count) {
        ([b'+' | b'-', ..], _) => text.say(": a number has no sign"),
        ([b'0', _, ..], _) => text.say(": a number begins with no zero"),
        (_, Some(count)) if is_within => say_count(text, count),
        _ => {
            say_limit(text, value, least, most);
            say_newest(text, line, number, value);
        }
    }
    true
}

/// Says the limit of a number in the newest format, if it is within that.
fn say_newest(text: &mut Text, line: RefusedLine<'_>, number: NumberOf, value: Option<u64>) {
    let (least, most) = limits(line.form, NEWEST, number);
    if line.version < NEWEST && value.is_some_and(|value| least <= value && value <= most) {
        text.say("; format 3 allows ");
        text.number(most);
    }
}

/// Tells a word that stands where a name should, or nothing, and whether the reader goes on after it. False: it may
/// stand there.
fn tell_word(
    text: &mut Text,
    line: RefusedLine<'_>,
    index: usize,
    expected: Expected,
    word: &[u8],
    is_read: bool,
) -> bool {
    let is_new = is_read && line.version == 1 && came_later(line.form, expected, word);
    if is_read && !is_new {
        return false;
    }
    line.say_place(text, index);
    text.quoted(word);
    if is_new {
        text.say(" came with format 2, and this is format 1");
        return true;
    }
    let role = match expected {
        Expected::Shape => " is not a shape",
        Expected::Queue => " is not a queue",
        Expected::Flags => {
            if let Some(flags) = flags_meant(word) {
                text.say(": flags stand in the order of \"hif\"; did you mean \"");
                text.say(flags);
                text.say("\"?");
                return true;
            }
            " is not valid as flags of a queue"
        }
        Expected::Who => " is not a caller or a worker",
        Expected::Call => " is not a call",
        Expected::Equals => " is not a word of a call",
        Expected::Reply | Expected::AfterTicket | Expected::AfterStarted => " is not a reply",
        Expected::End | Expected::OtherWho | Expected::Number(_) => {
            text.say(": the line should end before it");
            return true;
        }
    };
    text.say(role);
    say_expected(text, line, expected, word);
    true
}

/// Whether a word that may stand there came with format 2.
fn came_later(form: Form, expected: Expected, word: &[u8]) -> bool {
    match (form, expected) {
        (Form::Queue, Expected::Flags) => word.contains(&b'f'),
        (Form::Entry, _) => KEYWORDS.iter().copied().any(|keyword| {
            keyword.text().as_bytes() == word && is_new_at(expected, keyword) == Some(true)
        }),
        _ => false,
    }
}

/// The flags whose letters a word has in another order.
fn flags_meant(word: &[u8]) -> Option<&'static str> {
    ["hi", "hf", "if", "hif"].iter().copied().find(|flags| {
        flags.len() == word.len() && flags.as_bytes().iter().all(|letter| word.contains(letter))
    })
}

/// Says what may stand where this is expected, or which of that is likely meant by the word there.
fn say_expected(text: &mut Text, line: RefusedLine<'_>, expected: Expected, word: &[u8]) {
    let mut names: ArrayVec<&'static str, KEYWORD_COUNT> = ArrayVec::new();
    if let Some(name) = name_expected(expected) {
        let _ = names.try_push(name);
    }
    for number in 0..KEYWORD_COUNT {
        if let Some(name) = keyword_expected(line, expected, number) {
            let _ = names.try_push(name);
        }
    }
    say_names(text, names.as_slice(), word);
}

/// What may stand where this is expected, if it is no keyword.
fn name_expected(expected: Expected) -> Option<&'static str> {
    match expected {
        Expected::Shape => Some("shape"),
        Expected::Queue => Some("wq"),
        Expected::Flags => Some("-, or some of h, i and f in this order"),
        Expected::Who => Some("a caller, as c0, or a worker, as w0n0 or w0h0"),
        Expected::Equals => Some("="),
        Expected::Number(number) => Some(names_of(number).1),
        _ => None,
    }
}

/// The text of the keyword with this number in the order in which keywords are told, if it may stand where this is
/// expected.
fn keyword_expected(
    line: RefusedLine<'_>,
    expected: Expected,
    number: usize,
) -> Option<&'static str> {
    let keyword = match expected {
        Expected::AfterTicket => AFTER_TICKET.get(number).copied()?,
        _ => KEYWORDS
            .iter()
            .copied()
            .find(|keyword| *keyword as usize == number)?,
    };
    let is_new = is_new_at(expected, keyword)?;
    if is_new && line.version == 1 && matches!(line.form, Form::Entry) {
        return None;
    }
    Some(keyword.text())
}
