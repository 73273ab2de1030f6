//! What a line may have after its first words, for explanations of lines that are refused. The readers note it while
//! they read.
ghost use Rattle.std.specs.Prelude.{◌≡◌, is_some, is_ok};
ghost use Rattle.cmwq_text.specs.Words.{words_of};
ghost use Rattle.cmwq_text.specs.Formats.{of_version};
ghost use Rattle.cmwq_text.specs.Expected.{are_of_form, call_of_ones, reply_of_ones, is_new_at, least_of, most_of};

use crate::call::{call_after, call_of_words};
use crate::entry::entry_of_words;
use crate::format::{
    GREATEST_SHORT, LONG, MOST_TIME, OLD_CALLERS, OLD_CPUS, OLD_ITEMS, OLD_WORKERS, is_old_call,
    is_old_reply, room_limit,
};
use crate::keyword::Keyword;
use crate::reply::{reply_after, started_with, ticket_with};
use crate::shape::{counts_of_words, queue_line_of_words};
use crate::word::{GREATEST_NUMBER, Words};
use cmwq_model::{Call, MOST_ACTIVE, MOST_CALLERS, MOST_CPUS, MOST_ITEMS, MOST_WORKERS, Reply};

/// What a number of a line is.
#[derive(Clone, Copy, PartialEq, Eq)]
pub enum NumberOf {
    Item,
    Queue,
    Cpu,
    Ticks,
    MaxActive,
    Ticket,
    Serial,
    Entry,
    Time,
    /// The time after `now`.
    Now,
    Worker,
    Width,
    Cpus,
    Workers,
    Callers,
    Items,
    Room,
}

/// What a word of a line should be.
#[derive(Clone, Copy, PartialEq, Eq)]
pub enum Expected {
    /// None should be there.
    End,
    /// The word `shape`.
    Shape,
    /// The word `wq`.
    Queue,
    Flags,
    Who,
    /// The keyword of a call.
    Call,
    /// Who is there doesn't make the call before it.
    OtherWho,
    /// The word `=`.
    Equals,
    /// The keyword of a reply.
    Reply,
    /// The keyword after `ticket <k>`, or none.
    AfterTicket,
    /// The keyword after `started <n>`, or none.
    AfterStarted,
    Number(NumberOf),
}

/// What a line is.
#[derive(Clone, Copy)]
pub enum Form {
    Shape,
    /// A queue of a file of calls.
    CallsQueue,
    /// A queue of a history.
    Queue,
    Call,
    Entry,
}

/// What may stand after a reply.
fn after_reply(reply: Reply) -> Expected {
    match reply {
        Reply::Ticket(_) => Expected::AfterTicket,
        Reply::Started(_) => Expected::AfterStarted,
        _ => Expected::End,
    }
}

/// Reads a line of a form, and returns what may stand after it. None: the words aren't such a line.
fn read_form(form: Form, words: &mut Words<'_>) -> Option<Expected>
    ensures { is_some result ≡ are_of_form form words.old }
{
    match form {
        Form::Shape => {
            let _ = counts_of_words(words)?;
            Some(Expected::End)
        }
        Form::CallsQueue | Form::Queue => {
            let _ = queue_line_of_words(words)?;
            Some(Expected::End)
        }
        Form::Call => {
            let _ = call_of_words(words)?;
            Some(Expected::End)
        }
        Form::Entry => Some(after_reply(entry_of_words(words)?.reply)),
    }
}

/// What may stand after these words, if they are a line of a form. Err: they are none, and where its reader stopped, it
/// expected this.
pub fn expected_after(form: Form, front: &[u8]) -> Result<Expected, Expected>
    ensures { is_ok result ≡ are_of_form form (words_of front.now) }
{
    let mut words = Words::of(front);
    match read_form(form, &mut words) {
        Some(expected) => Ok(expected),
        None => Err(words.expected()),
    }
}

/// The call after its keyword, where each number after that is 1.
fn call_of_ones(keyword: Keyword) -> Option<Call>
    ensures { result ≡ call_of_ones keyword }
{
    call_after(keyword, &mut Words::of(b"1 1 1 1"))
}

/// The reply, in the same way.
fn reply_of_ones(keyword: Keyword) -> Option<Reply>
    ensures { result ≡ reply_of_ones keyword }
{
    match reply_after(keyword, &mut Words::of(b"1")) {
        Some(reply) => Some(reply),
        None => reply_after(keyword, &mut Words::of(b"1 1")),
    }
}

/// Whether a keyword came with format 2. None: it may not stand where this is expected. It may if the reader goes on
/// after it.
pub fn is_new_at(expected: Expected, keyword: Keyword) -> Option<bool>
    ensures { result ≡ is_new_at expected keyword }
{
    let one = &mut Words::of(b"1");
    let is_old = match expected {
        Expected::Call => is_old_call(call_of_ones(keyword)?),
        Expected::Reply => is_old_reply(reply_of_ones(keyword)?),
        Expected::AfterTicket => is_old_reply(ticket_with(1, keyword, one)?),
        Expected::AfterStarted => is_old_reply(started_with(1, keyword, one)?),
        _ => return None,
    };
    Some(!is_old)
}

/// What an older format has at most, or a newer one.
#[tactic(auto, unfolding(crate::specs::Formats::of_version))]
fn of_version(old: u64, new: u64, version: u8) -> u64
    ensures { result ≡ of_version old new version }
{
    if version >= LONG { new } else { old }
}

fn least_of(form: Form, number: NumberOf) -> u64
    ensures { result ≡ least_of form number }
{
    match number {
        NumberOf::MaxActive => match form {
            Form::CallsQueue => 0,
            _ => 1,
        },
        NumberOf::Cpus | NumberOf::Workers | NumberOf::Callers | NumberOf::Items => 1,
        _ => 0,
    }
}

fn most_of(form: Form, version: u8, number: NumberOf) -> u64
    ensures { result ≡ most_of form version number }
{
    match number {
        NumberOf::MaxActive => match form {
            Form::Queue => u64::from(MOST_ACTIVE),
            _ => u64::from(u32::MAX),
        },
        NumberOf::Ticket | NumberOf::Serial | NumberOf::Entry => {
            of_version(GREATEST_SHORT, GREATEST_NUMBER, version)
        }
        NumberOf::Now => of_version(u64::MAX, MOST_TIME, version),
        NumberOf::Time => u64::MAX,
        NumberOf::Cpus => of_version(u64::from(OLD_CPUS), u64::from(MOST_CPUS), version),
        NumberOf::Workers => of_version(u64::from(OLD_WORKERS), u64::from(MOST_WORKERS), version),
        NumberOf::Callers => of_version(u64::from(OLD_CALLERS), u64::from(MOST_CALLERS), version),
        NumberOf::Items => of_version(u64::from(OLD_ITEMS), u64::from(MOST_ITEMS), version),
        NumberOf::Room => room_limit(version),
        _ => u64::from(u32::MAX),
    }
}

/// The least and the greatest number that may stand in a line of this form in this format.
pub fn limits(form: Form, version: u8, number: NumberOf) -> (u64, u64)
    ensures least { result.0 ≡ least_of form number }
    ensures most { result.1 ≡ most_of form version number }
{
    (least_of(form, number), most_of(form, version, number))
}
