//! How shapes, queues, calls and entries are spelled.
ghost use Rattle.std.specs.Prelude.{◌≡◌, ◌+◌, ◌≤◌, ◌++◌, length, Some, slice_get};
ghost use Rattle.cmwq_text.specs.Words.{space_words};
ghost use Rattle.cmwq_text.specs.Keywords.{keyword_text};
ghost use Rattle.cmwq_text.specs.IdText.{who_text};
ghost use Rattle.cmwq_text.specs.CallText.{call_words};
ghost use Rattle.cmwq_text.specs.ReplyText.{reply_words};
ghost use Rattle.cmwq_text.specs.EntryText.{entry_text};
ghost use Rattle.cmwq_text.specs.HistoryText.{version_text};
ghost use Rattle.cmwq_text.specs.ShapeText.{flags_in, flags_text, counts_text, queue_text};

use crate::keyword::Keyword;
use crate::line::LineText;
use cmwq_model::{Call, Counts, Entry, QueueShape, Reply, Who};

#[inline]
fn push_who(line: &mut LineText, who: Who)
    requires { length line.old + 42 ≤ 240 }
    ensures exact { line.new ≡ line.old ++ who_text who }
    ensures short { length line.new ≤ length line.old + 42 }
{
    match who {
        Who::Caller(caller) => {
            line.push("c");
            line.push_number(caller.0.into());
        }
        Who::Worker(worker) => {
            line.push("w");
            line.push_number(worker.pool.cpu.0.into());
            line.push(if worker.pool.high { "h" } else { "n" });
            line.push_number(worker.index.into());
        }
    }
}

/// The keyword that a call begins with.
#[tactic(auto, unfolding(crate::specs::CallText::call_words))]
#[inline]
fn call_keyword(call: Call) -> Keyword
    ensures { slice_get (call_words call) 0 ≡ Some (keyword_text result) }
{
    match call {
        Call::Queue { .. } => Keyword::Queue,
        Call::Delay { .. } => Keyword::Delay,
        Call::Modify { .. } => Keyword::Modify,
        Call::Cancel { .. } => Keyword::Cancel,
        Call::Tick { .. } => Keyword::Tick,
        Call::Fire => Keyword::Fire,
        Call::Flush { .. } => Keyword::Flush,
        Call::Drain { .. } => Keyword::Drain,
        Call::FlushItem { .. } => Keyword::FlushItem,
        Call::FlushDelayed { .. } => Keyword::FlushDelayed,
        Call::CancelSync { .. } => Keyword::CancelSync,
        Call::End { .. } => Keyword::End,
        Call::Take => Keyword::Take,
        Call::Finish => Keyword::Finish,
        Call::Sleep => Keyword::Sleep,
        Call::Wake => Keyword::Wake,
        Call::Retire => Keyword::Retire,
        Call::SetMax { .. } => Keyword::SetMax,
        Call::Freeze => Keyword::Freeze,
        Call::Thaw => Keyword::Thaw,
        Call::Destroy { .. } => Keyword::Destroy,
    }
}

/// Each word after a space.
#[tactic(auto, unfolding(crate::specs::CallText::call_words))]
#[inline]
fn push_call(line: &mut LineText, call: Call)
    requires { length line.old + 98 ≤ 240 }
    ensures exact { line.new ≡ line.old ++ space_words (call_words call) }
    ensures short { length line.new ≤ length line.old + 98 }
{
    let keyword = call_keyword(call);
    match call {
        Call::Queue { item, queue, cpu } => {
            line.push_phrase(keyword, &[item.0.into(), queue.0.into(), cpu.0.into()]);
        }
        Call::Delay {
            item,
            queue,
            cpu,
            ticks,
        }
        | Call::Modify {
            item,
            queue,
            cpu,
            ticks,
        } => {
            line.push_phrase(
                keyword,
                &[item.0.into(), queue.0.into(), cpu.0.into(), ticks.into()],
            );
        }
        Call::Cancel { item }
        | Call::FlushItem { item }
        | Call::FlushDelayed { item }
        | Call::CancelSync { item } => line.push_phrase(keyword, &[item.0.into()]),
        Call::Flush { queue } | Call::Drain { queue } | Call::Destroy { queue } => {
            line.push_phrase(keyword, &[queue.0.into()]);
        }
        Call::SetMax { queue, max_active } => {
            line.push_phrase(keyword, &[queue.0.into(), max_active.into()]);
        }
        Call::Tick { ticks } => line.push_phrase(keyword, &[ticks.into()]),
        Call::End { ticket } => line.push_phrase(keyword, &[ticket]),
        _ => line.push_phrase(keyword, &[]),
    }
}

/// The keyword that a reply begins with.
#[tactic(auto, unfolding(crate::specs::ReplyText::reply_words))]
#[inline]
fn reply_keyword(reply: Reply) -> Keyword
    ensures { slice_get (reply_words reply) 0 ≡ Some (keyword_text result) }
{
    match reply {
        Reply::Yes(_) => Keyword::Yes,
        Reply::Booked(_) => Keyword::Booked,
        Reply::Again(_) => Keyword::Again,
        Reply::Rebooked(_) => Keyword::Rebooked,
        Reply::No => Keyword::No,
        Reply::Foreign => Keyword::Foreign,
        Reply::Draining => Keyword::Draining,
        Reply::Misuse => Keyword::Misuse,
        Reply::Cancelled(_) => Keyword::Cancelled,
        Reply::Unbooked => Keyword::Unbooked,
        Reply::Now(_) => Keyword::Now,
        Reply::Fired(..) => Keyword::Fired,
        Reply::Nothing => Keyword::Nothing,
        Reply::Ticket(_)
        | Reply::TicketQueued(_)
        | Reply::TicketCancelled(..)
        | Reply::TicketUnbooked(_)
        | Reply::TicketNo(_) => Keyword::Ticket,
        Reply::Idle => Keyword::Idle,
        Reply::Crowded => Keyword::Crowded,
        Reply::Done => Keyword::Done,
        Reply::Waiting(_) => Keyword::Waiting,
        Reply::Started(_) | Reply::StartedEnlist(..) => Keyword::Started,
        Reply::Held => Keyword::Held,
        Reply::Finished(_) => Keyword::Finished,
        Reply::Slept => Keyword::Slept,
        Reply::Woke => Keyword::Woke,
        Reply::Retired => Keyword::Retired,
        Reply::Kept => Keyword::Kept,
        Reply::Width(_) => Keyword::Width,
        Reply::Frozen => Keyword::Frozen,
        Reply::Thawed => Keyword::Thawed,
        Reply::Gone => Keyword::Gone,
        Reply::Timers => Keyword::Timers,
    }
}

/// Each word after a space.
#[tactic(auto, unfolding(crate::specs::ReplyText::reply_words))]
#[inline]
pub(crate) fn push_reply(line: &mut LineText, reply: Reply)
    requires { length line.old + 70 ≤ 240 }
    ensures exact { line.new ≡ line.old ++ space_words (reply_words reply) }
    ensures short { length line.new ≤ length line.old + 70 }
{
    let keyword = reply_keyword(reply);
    match reply {
        Reply::Yes(n)
        | Reply::Again(n)
        | Reply::Cancelled(n)
        | Reply::Ticket(n)
        | Reply::Waiting(n)
        | Reply::Started(n)
        | Reply::Finished(n) => line.push_phrase(keyword, &[n]),
        Reply::Width(width) => line.push_phrase(keyword, &[width.into()]),
        Reply::Booked(time) | Reply::Rebooked(time) | Reply::Now(time) => {
            line.push_phrase(keyword, &[time]);
        }
        Reply::Fired(item, k) => line.push_phrase(keyword, &[item.0.into(), k]),
        Reply::TicketQueued(k) => line.push_phrases(keyword, k, Keyword::Queued, &[]),
        Reply::TicketCancelled(k, n) => {
            line.push_phrases(keyword, k, Keyword::Cancelled, &[n]);
        }
        Reply::TicketUnbooked(k) => line.push_phrases(keyword, k, Keyword::Unbooked, &[]),
        Reply::TicketNo(k) => line.push_phrases(keyword, k, Keyword::No, &[]),
        Reply::StartedEnlist(n, index) => {
            line.push_phrases(keyword, n, Keyword::Enlist, &[index.into()]);
        }
        _ => line.push_phrase(keyword, &[]),
    }
}

/// Spells the line of an entry, with its line feed, in the place of what the line holds.
#[tactic(auto, unfolding(crate::specs::EntryText::entry_text))]
#[inline]
pub fn spell_entry(line: &mut LineText, entry: &Entry)
    ensures { line.new ≡ entry_text entry.now }
{
    line.clear();
    push_who(line, entry.who);
    line.push_numbers(&[entry.serial]);
    push_call(line, entry.call);
    line.push(" =");
    push_reply(line, entry.reply);
    line.push("\n");
}

/// The line of an entry, with its line feed.
pub fn entry_line(entry: &Entry) -> LineText
    ensures { result ≡ entry_text entry.now }
{
    let mut line = LineText::new();
    spell_entry(&mut line, entry);
    line
}

/// The first line of a history of this format, with its line feed.
pub fn version_line(version: u8) -> LineText
    requires { 2 ≤ version }
    ensures { result ≡ version_text version }
{
    let mut line = LineText::new();
    line.push(if version == 3 {
        "history 3\n"
    } else {
        "history 2\n"
    });
    line
}

/// The line of a shape's counts, with its line feed.
#[tactic(auto, unfolding(crate::specs::ShapeText::counts_text))]
pub fn counts_line(counts: &Counts) -> LineText
    ensures { result ≡ counts_text counts.now }
{
    let mut line = LineText::new();
    line.push("shape");
    line.push_numbers(&[
        counts.cpus.into(),
        counts.workers.into(),
        counts.callers.into(),
        counts.items.into(),
        counts.room,
    ]);
    line.push("\n");
    line
}

fn flags_text(queue: &QueueShape) -> &'static str
    ensures exact { result.now ≡ flags_text (flags_in queue.now) }
    ensures short { length result.now ≤ 3 }
{
    match (queue.high, queue.intensive, queue.freezable) {
        (false, false, false) => "-",
        (true, false, false) => "h",
        (false, true, false) => "i",
        (true, true, false) => "hi",
        (false, false, true) => "f",
        (true, false, true) => "hf",
        (false, true, true) => "if",
        (true, true, true) => "hif",
    }
}

/// The line of a queue, with its line feed.
#[tactic(auto, unfolding(crate::specs::ShapeText::queue_text))]
pub fn queue_line(queue: &QueueShape) -> LineText
    ensures { result ≡ queue_text queue.now }
{
    let mut line = LineText::new();
    line.push("wq");
    line.push_numbers(&[queue.max_active.into()]);
    line.push(" ");
    line.push(flags_text(queue));
    line.push("\n");
    line
}
