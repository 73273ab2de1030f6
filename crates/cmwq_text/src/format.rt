//! The three formats of histories.
ghost use Rattle.std.specs.Prelude.{◌≡◌, ◌≤◌};
ghost use Rattle.cmwq_text.specs.Formats.{is_version_line, is_calls_line, is_old_call, is_old_reply, is_short};
ghost use Rattle.cmwq_text.specs.Formats.{is_short_call, is_short_reply, is_short_entry, is_timely, allows_call};
ghost use Rattle.cmwq_text.specs.Formats.{call_of_format, most_lines, line_limit, room_limit, queue_limit};
ghost use Rattle.cmwq_text.specs.Formats.{are_old_counts, allows_numbers, allows_counts, needs_end, allows_queue};
ghost use Rattle.cmwq_text.specs.Formats.{allows_entry, counts_of_format, queue_of_format, entry_of_format};

use crate::call::read_call;
use crate::entry::read_entry;
use crate::shape::{read_counts, read_queue_of_history};
use cmwq_model::{Call, Counts, Entry, MOST_QUEUES, MOST_ROOM, Number, QueueShape, Reply, Who};

/// The format that has the whole grammar, up to a million lines.
const WHOLE: u8 = 2;

/// The format that has it with greater limits.
pub const LONG: u8 = 3;

/// The greatest number of an entry in the formats before that.
pub const GREATEST_SHORT: Number = 4_294_967_295;

/// The most CPUs in the formats before 3, which has the limits of every shape; so with the numbers below.
pub const OLD_CPUS: u8 = 4;

/// The most workers of a pool in the formats before 3.
pub const OLD_WORKERS: u8 = 8;

/// The most callers in the formats before 3.
pub const OLD_CALLERS: u8 = 64;

/// The most items in the formats before 3.
pub const OLD_ITEMS: u16 = 256;

/// The most queues in the formats before 3.
pub const OLD_QUEUES: usize = 64;

/// The greatest room in the formats before 3, in entries.
pub const OLD_ROOM: u64 = 1_000_000;

/// The greatest numbers of lines after the queues: in the formats before it, and in it.
const OLD_LINES: u64 = 1_000_000;

const MOST_LINES: u64 = 4_611_686_018_426_387_904;

/// The greatest time of an entry in the format with greater limits.
pub const MOST_TIME: u64 = 4_611_686_018_427_387_904;

/// Whether this is the first line of a history of this format, which is 2 or 3, without its line feed.
pub fn is_version_line(version: u8, line: &[u8]) -> bool
    ensures { result ≡ is_version_line version line.now }
{
    if version == LONG {
        line == b"history 3".as_slice()
    } else {
        line == b"history 2".as_slice()
    }
}

/// Whether this is the first line of a file of calls of this format, without its line feed. Only 3 has one.
pub fn is_calls_line(version: u8, line: &[u8]) -> bool
    ensures { result ≡ is_calls_line version line.now }
{
    version == LONG && line == b"calls 3".as_slice()
}

/// The greatest number of lines after the queues in this format.
#[tactic(auto, unfolding(crate::specs::Formats::of_version))]
pub fn line_limit(version: u8) -> u64
    ensures is { result ≡ line_limit version }
    ensures most { line_limit version ≤ most_lines }
{
    if version >= LONG {
        MOST_LINES
    } else {
        OLD_LINES
    }
}

/// The greatest room in this format.
#[tactic(auto, unfolding(crate::specs::Formats::of_version))]
pub fn room_limit(version: u8) -> u64
    ensures { result ≡ room_limit version }
{
    if version >= LONG { MOST_ROOM } else { OLD_ROOM }
}

/// The greatest number of queues in this format.
#[tactic(auto, unfolding(crate::specs::Formats::of_version))]
pub fn queue_limit(version: u8) -> usize
    ensures { result ≡ queue_limit version }
{
    if version >= LONG {
        MOST_QUEUES
    } else {
        OLD_QUEUES
    }
}

/// Whether a history of this format has a last line, which says how many entries stand before it.
pub fn needs_end(version: u8) -> bool
    ensures { result ≡ needs_end version }
{
    version > WHOLE
}

fn are_old_counts(counts: &Counts) -> bool
    ensures { result ≡ are_old_counts counts.now }
{
    counts.cpus <= OLD_CPUS
        && counts.workers <= OLD_WORKERS
        && counts.callers <= OLD_CALLERS
        && counts.items <= OLD_ITEMS
}

fn allows_numbers(version: u8, counts: &Counts) -> bool
    ensures { result ≡ allows_numbers version counts.now }
{
    version >= LONG || are_old_counts(counts)
}

fn allows_counts(version: u8, counts: &Counts) -> bool
    ensures { result ≡ allows_counts version counts.now }
{
    counts.room <= room_limit(version) && allows_numbers(version, counts)
}

pub fn is_old_call(call: Call) -> bool
    ensures { result ≡ is_old_call call }
{
    !matches!(
        call,
        Call::SetMax { .. } | Call::Freeze | Call::Thaw | Call::Destroy { .. }
    )
}

pub fn is_old_reply(reply: Reply) -> bool
    ensures { result ≡ is_old_reply reply }
{
    !matches!(
        reply,
        Reply::Width(_) | Reply::Frozen | Reply::Thawed | Reply::Gone | Reply::Timers
    )
}

fn is_short(number: Number) -> bool
    ensures { result ≡ is_short number }
{
    number <= GREATEST_SHORT
}

fn is_short_call(call: Call) -> bool
    ensures { result ≡ is_short_call call }
{
    match call {
        Call::End { ticket } => is_short(ticket),
        _ => true,
    }
}

fn is_short_reply(reply: Reply) -> bool
    ensures { result ≡ is_short_reply reply }
{
    match reply {
        Reply::Yes(n)
        | Reply::Again(n)
        | Reply::Cancelled(n)
        | Reply::Fired(_, n)
        | Reply::Ticket(n)
        | Reply::TicketQueued(n)
        | Reply::TicketUnbooked(n)
        | Reply::TicketNo(n)
        | Reply::Waiting(n)
        | Reply::Started(n)
        | Reply::StartedEnlist(n, _)
        | Reply::Finished(n) => is_short(n),
        Reply::TicketCancelled(n, m) => is_short(n) && is_short(m),
        _ => true,
    }
}

fn is_short_entry(entry: &Entry) -> bool
    ensures { result ≡ is_short_entry entry.now }
{
    is_short(entry.serial) && is_short_call(entry.call) && is_short_reply(entry.reply)
}

fn is_timely(reply: Reply) -> bool
    ensures { result ≡ is_timely reply }
{
    match reply {
        Reply::Now(time) => time <= MOST_TIME,
        _ => true,
    }
}

fn allows_queue(version: u8, queue: &QueueShape) -> bool
    ensures { result ≡ allows_queue version queue.now }
{
    version >= WHOLE || !queue.freezable
}

fn allows_entry(version: u8, entry: &Entry) -> bool
    ensures { result ≡ allows_entry version entry.now }
{
    if version >= LONG {
        is_timely(entry.reply)
    } else {
        is_short_entry(entry)
            && (version >= WHOLE || is_old_call(entry.call) && is_old_reply(entry.reply))
    }
}

/// The counts of the shape line of a history of this format, without its line feed. None: it is no such line, or a
/// number is outside its limits.
#[tactic(auto, unfolding(crate::specs::Formats::counts_of_format))]
pub fn read_counts_of_format(version: u8, line: &[u8]) -> Option<Counts>
    ensures { result ≡ counts_of_format version line.now }
{
    let counts = read_counts(line)?;
    if allows_counts(version, &counts) {
        Some(counts)
    } else {
        None
    }
}

/// The queue of a line in a history of this format, without its line feed. None: it is no line of a queue in a
/// history, or the format is 1 and the queue is freezable.
#[tactic(auto, unfolding(crate::specs::Formats::queue_of_format))]
pub fn read_queue_of_format(version: u8, line: &[u8]) -> Option<QueueShape>
    ensures { result ≡ queue_of_format version line.now }
{
    let queue = read_queue_of_history(line)?;
    if allows_queue(version, &queue) {
        Some(queue)
    } else {
        None
    }
}

/// The entry of a line of a history of this format, without its line feed. None: it is no line of an entry, or the
/// format is 1 and the call or the reply came with format 2.
#[tactic(auto, unfolding(crate::specs::Formats::entry_of_format))]
pub fn read_entry_of_format(version: u8, line: &[u8]) -> Option<Entry>
    ensures { result ≡ entry_of_format version line.now }
{
    let entry = read_entry(line)?;
    if allows_entry(version, &entry) {
        Some(entry)
    } else {
        None
    }
}

fn allows_call(version: u8, call: Call) -> bool
    ensures { result ≡ allows_call version call }
{
    version >= LONG || is_short_call(call)
}

/// The who and the call of a line in a file of calls of this format, without its line feed. None: it is no line of a
/// call, or its ticket is above 4,294,967,295 and the format isn't 3.
#[tactic(auto, unfolding(crate::specs::Formats::call_of_format))]
pub fn read_call_of_format(version: u8, line: &[u8]) -> Option<(Who, Call)>
    ensures { result ≡ call_of_format version line.now }
{
    let (who, call) = read_call(line)?;
    if allows_call(version, call) {
        Some((who, call))
    } else {
        None
    }
}
