//! The kinds of calls and replies, as small numbers.
ghost use Rattle.std.specs.Prelude.{◌≡◌};
ghost use Rattle.cmwq_summary.specs.Kinds.{call_kind, reply_kind};

use cmwq_model::{Call, Reply};

/// How many kinds of calls there are.
pub const CALL_KINDS: usize = 21;

/// How many kinds of replies there are.
pub const REPLY_KINDS: usize = 30;

/// The kind of a call.
#[tactic(auto, unfolding(crate::specs::Kinds::call_kind))]
pub(crate) fn call_kind(call: Call) -> usize
    ensures { result ≡ call_kind call }
{
    match call {
        Call::Queue { .. } => 0,
        Call::Delay { .. } => 1,
        Call::Modify { .. } => 2,
        Call::Cancel { .. } => 3,
        Call::Tick { .. } => 4,
        Call::Fire => 5,
        Call::Flush { .. } => 6,
        Call::Drain { .. } => 7,
        Call::FlushItem { .. } => 8,
        Call::FlushDelayed { .. } => 9,
        Call::CancelSync { .. } => 10,
        Call::End { .. } => 11,
        Call::Take => 12,
        Call::Finish => 13,
        Call::Sleep => 14,
        Call::Wake => 15,
        Call::Retire => 16,
        Call::SetMax { .. } => 17,
        Call::Freeze => 18,
        Call::Thaw => 19,
        Call::Destroy { .. } => 20,
    }
}

/// The kind of a reply: those of one first word are of one kind.
#[tactic(auto, unfolding(crate::specs::Kinds::reply_kind))]
pub(crate) fn reply_kind(reply: Reply) -> usize
    ensures { result ≡ reply_kind reply }
{
    match reply {
        Reply::Yes(_) => 0,
        Reply::Booked(_) => 1,
        Reply::Again(_) => 2,
        Reply::Rebooked(_) => 3,
        Reply::No => 4,
        Reply::Foreign => 5,
        Reply::Draining => 6,
        Reply::Misuse => 7,
        Reply::Cancelled(_) => 8,
        Reply::Unbooked => 9,
        Reply::Now(_) => 10,
        Reply::Fired(..) => 11,
        Reply::Nothing => 12,
        Reply::Ticket(_)
        | Reply::TicketQueued(_)
        | Reply::TicketCancelled(..)
        | Reply::TicketUnbooked(_)
        | Reply::TicketNo(_) => 13,
        Reply::Idle => 14,
        Reply::Crowded => 15,
        Reply::Done => 16,
        Reply::Waiting(_) => 17,
        Reply::Started(_) | Reply::StartedEnlist(..) => 18,
        Reply::Held => 19,
        Reply::Finished(_) => 20,
        Reply::Slept => 21,
        Reply::Woke => 22,
        Reply::Retired => 23,
        Reply::Kept => 24,
        Reply::Width(_) => 25,
        Reply::Frozen => 26,
        Reply::Thawed => 27,
        Reply::Gone => 28,
        Reply::Timers => 29,
    }
}
