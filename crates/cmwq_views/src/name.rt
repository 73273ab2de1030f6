//! The names of the kinds of calls and replies: the keywords with which they begin in a history's line.
ghost use Rattle.std.specs.Prelude.{◌≡◌, ◌<◌, ◌≤◌, length};
ghost use Rattle.cmwq_summary.specs.Kinds.{call_kinds, reply_kinds};
ghost use Rattle.cmwq_views.specs.Names.{call_name, reply_name, CallsAreNamed, RepliesAreNamed};

use cmwq_summary::{CALL_KINDS, REPLY_KINDS};
use cmwq_text::Keyword;

/// The keyword of each kind of calls.
const CALLS: [Keyword; CALL_KINDS] = [
    Keyword::Queue,
    Keyword::Delay,
    Keyword::Modify,
    Keyword::Cancel,
    Keyword::Tick,
    Keyword::Fire,
    Keyword::Flush,
    Keyword::Drain,
    Keyword::FlushItem,
    Keyword::FlushDelayed,
    Keyword::CancelSync,
    Keyword::End,
    Keyword::Take,
    Keyword::Finish,
    Keyword::Sleep,
    Keyword::Wake,
    Keyword::Retire,
    Keyword::SetMax,
    Keyword::Freeze,
    Keyword::Thaw,
    Keyword::Destroy,
];

/// The keyword of each kind of replies.
const REPLIES: [Keyword; REPLY_KINDS] = [
    Keyword::Yes,
    Keyword::Booked,
    Keyword::Again,
    Keyword::Rebooked,
    Keyword::No,
    Keyword::Foreign,
    Keyword::Draining,
    Keyword::Misuse,
    Keyword::Cancelled,
    Keyword::Unbooked,
    Keyword::Now,
    Keyword::Fired,
    Keyword::Nothing,
    Keyword::Ticket,
    Keyword::Idle,
    Keyword::Crowded,
    Keyword::Done,
    Keyword::Waiting,
    Keyword::Started,
    Keyword::Held,
    Keyword::Finished,
    Keyword::Slept,
    Keyword::Woke,
    Keyword::Retired,
    Keyword::Kept,
    Keyword::Width,
    Keyword::Frozen,
    Keyword::Thawed,
    Keyword::Gone,
    Keyword::Timers,
];

/// The name of a kind of calls.
pub(crate) fn call_name(kind: usize) -> &'static str
    requires { kind < call_kinds }
    ensures exact { result.now ≡ call_name kind }
    ensures short { length result.now ≤ 13 }
{
    CALLS[kind].text()
}

/// The name of a kind of replies.
pub(crate) fn reply_name(kind: usize) -> &'static str
    requires { kind < reply_kinds }
    ensures exact { result.now ≡ reply_name kind }
    ensures short { length result.now ≤ 13 }
{
    REPLIES[kind].text()
}

/// A call has the name of its first word in a history's line, and so has a reply.
pub fn kinds_are_named()
    ensures calls { CallsAreNamed }
    ensures replies { RepliesAreNamed }
{}
