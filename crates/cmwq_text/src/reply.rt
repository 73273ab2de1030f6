//! Replies in a text.
ghost use Rattle.std.specs.Prelude.{◌≡◌, true};
ghost use Rattle.cmwq_model.specs.Prelude.{reply_fits};
ghost use Rattle.cmwq_text.specs.Words.{with_left};
ghost use Rattle.cmwq_text.specs.ReplyText.{keyword_has_number, keyword_has_time, ticket_with, ticket_after};
ghost use Rattle.cmwq_text.specs.ReplyText.{started_with, started_after, reply_after, reply_in};

use crate::expected::{Expected, NumberOf};
use crate::id::item_in;
use crate::keyword::{Keyword, keyword_in};
use crate::word::{Words, byte_in, long_in, number_in, wide_in};
use cmwq_model::{Number, Reply, Shape};

#[tactic(auto, unfolding(crate::specs::ReplyText::ticket_with))]
pub fn ticket_with(k: Number, keyword: Keyword, words: &mut Words<'_>) -> Option<Reply>
    ensures { with_left result words.new ≡ ticket_with k keyword words.old }
{
    match keyword {
        Keyword::Queued => Some(Reply::TicketQueued(k)),
        Keyword::Cancelled => {
            words.note(Expected::Number(NumberOf::Entry));
            Some(Reply::TicketCancelled(k, wide_in(words)?))
        }
        Keyword::Unbooked => Some(Reply::TicketUnbooked(k)),
        Keyword::No => Some(Reply::TicketNo(k)),
        _ => None,
    }
}

/// The reply after `ticket <k>`.
#[tactic(auto, unfolding(crate::specs::ReplyText::ticket_after))]
#[inline(always)]
fn ticket_after(k: Number, words: &mut Words<'_>) -> Option<Reply>
    ensures { with_left result words.new ≡ ticket_after k words.old }
{
    if words.is_end() {
        return Some(Reply::Ticket(k));
    }
    words.note(Expected::AfterTicket);
    let keyword = keyword_in(words)?;
    ticket_with(k, keyword, words)
}

#[tactic(auto, unfolding(crate::specs::ReplyText::started_with))]
#[inline(always)]
pub fn started_with(n: Number, keyword: Keyword, words: &mut Words<'_>) -> Option<Reply>
    ensures { with_left result words.new ≡ started_with n keyword words.old }
{
    match keyword {
        Keyword::Enlist => {
            words.note(Expected::Number(NumberOf::Worker));
            Some(Reply::StartedEnlist(n, byte_in(words)?))
        }
        _ => None,
    }
}

/// The reply after `started <n>`.
#[tactic(auto, unfolding(crate::specs::ReplyText::started_after))]
#[inline(always)]
fn started_after(n: Number, words: &mut Words<'_>) -> Option<Reply>
    ensures { with_left result words.new ≡ started_after n words.old }
{
    if words.is_end() {
        return Some(Reply::Started(n));
    }
    words.note(Expected::AfterStarted);
    let keyword = keyword_in(words)?;
    started_with(n, keyword, words)
}

/// The reply after a keyword that a number follows.
#[tactic(auto, unfolding(crate::specs::ReplyText::reply_after))]
#[inline(always)]
fn number_reply_after(keyword: Keyword, words: &mut Words<'_>) -> Option<Reply>
    requires { keyword_has_number keyword ≡ true }
    ensures { with_left result words.new ≡ reply_after keyword words.old }
{
    words.note(Expected::Number(NumberOf::Entry));
    let n = wide_in(words)?;
    match keyword {
        Keyword::Yes => Some(Reply::Yes(n)),
        Keyword::Again => Some(Reply::Again(n)),
        Keyword::Cancelled => Some(Reply::Cancelled(n)),
        Keyword::Ticket => ticket_after(n, words),
        Keyword::Waiting => Some(Reply::Waiting(n)),
        Keyword::Started => started_after(n, words),
        Keyword::Finished => Some(Reply::Finished(n)),
        _ => None,
    }
}

/// The reply after a keyword that a time follows.
#[tactic(auto, unfolding(crate::specs::ReplyText::reply_after))]
#[inline(always)]
fn time_reply_after(keyword: Keyword, words: &mut Words<'_>) -> Option<Reply>
    requires { keyword_has_time keyword ≡ true }
    ensures { with_left result words.new ≡ reply_after keyword words.old }
{
    let time = long_in(words)?;
    match keyword {
        Keyword::Booked => Some(Reply::Booked(time)),
        Keyword::Rebooked => Some(Reply::Rebooked(time)),
        Keyword::Now => Some(Reply::Now(time)),
        _ => None,
    }
}

/// The reply after its keyword.
#[tactic(auto, unfolding(crate::specs::ReplyText::reply_after))]
#[inline(always)]
pub fn reply_after(keyword: Keyword, words: &mut Words<'_>) -> Option<Reply>
    ensures { with_left result words.new ≡ reply_after keyword words.old }
{
    match keyword {
        Keyword::Yes
        | Keyword::Again
        | Keyword::Cancelled
        | Keyword::Ticket
        | Keyword::Waiting
        | Keyword::Started
        | Keyword::Finished => number_reply_after(keyword, words),
        Keyword::Width => {
            words.note(Expected::Number(NumberOf::Width));
            Some(Reply::Width(number_in(words)?))
        }
        Keyword::Booked | Keyword::Rebooked => {
            words.note(Expected::Number(NumberOf::Time));
            time_reply_after(keyword, words)
        }
        Keyword::Now => {
            words.note(Expected::Number(NumberOf::Now));
            time_reply_after(keyword, words)
        }
        Keyword::Fired => {
            let item = item_in(words)?;
            words.note(Expected::Number(NumberOf::Entry));
            Some(Reply::Fired(item, wide_in(words)?))
        }
        Keyword::No => Some(Reply::No),
        Keyword::Foreign => Some(Reply::Foreign),
        Keyword::Draining => Some(Reply::Draining),
        Keyword::Misuse => Some(Reply::Misuse),
        Keyword::Unbooked => Some(Reply::Unbooked),
        Keyword::Nothing => Some(Reply::Nothing),
        Keyword::Idle => Some(Reply::Idle),
        Keyword::Crowded => Some(Reply::Crowded),
        Keyword::Done => Some(Reply::Done),
        Keyword::Held => Some(Reply::Held),
        Keyword::Slept => Some(Reply::Slept),
        Keyword::Woke => Some(Reply::Woke),
        Keyword::Retired => Some(Reply::Retired),
        Keyword::Kept => Some(Reply::Kept),
        Keyword::Frozen => Some(Reply::Frozen),
        Keyword::Thawed => Some(Reply::Thawed),
        Keyword::Gone => Some(Reply::Gone),
        Keyword::Timers => Some(Reply::Timers),
        _ => None,
    }
}

/// A reply.
#[inline(always)]
pub fn reply_in(words: &mut Words<'_>) -> Option<Reply>
    ensures { with_left result words.new ≡ reply_in words.old }
{
    words.note(Expected::Reply);
    let keyword = keyword_in(words)?;
    reply_after(keyword, words)
}

/// Whether the item or the index of a worker that stands in a reply is inside the shape.
#[inline]
pub fn reply_fits(shape: &Shape, reply: Reply) -> bool
    ensures { result ≡ reply_fits shape.now reply }
{
    match reply {
        Reply::Fired(item, _) => item.0 < shape.counts().items,
        Reply::StartedEnlist(_, index) => index < shape.counts().workers,
        _ => true,
    }
}
