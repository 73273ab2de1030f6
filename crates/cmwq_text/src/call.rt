//! Calls in a text.
ghost use Rattle.std.specs.Prelude.{◌≡◌, true};
ghost use Rattle.cmwq_text.specs.Words.{with_left};
ghost use Rattle.cmwq_text.specs.CallText.{is_queueing, has_item_alone, has_queue, call_read_after, call_in};
ghost use Rattle.cmwq_text.specs.CallText.{is_of_kind, may_say, call_of_words, call_read};

use crate::expected::{Expected, NumberOf};
use crate::id::{cpu_in, item_in, queue_in, who_in};
use crate::keyword::{Keyword, keyword_in};
use crate::word::{Words, number_in, wide_in};
use cmwq_model::{Call, Who};

/// The call after a keyword that queues an item.
#[tactic(auto, unfolding(crate::specs::CallText::call_read_after))]
#[inline(always)]
fn queueing_after(keyword: Keyword, words: &mut Words<'_>) -> Option<Call>
    requires { is_queueing keyword ≡ true }
    ensures { with_left result words.new ≡ call_read_after keyword words.old }
{
    let item = item_in(words)?;
    let queue = queue_in(words)?;
    let cpu = cpu_in(words)?;
    match keyword {
        Keyword::Queue => Some(Call::Queue { item, queue, cpu }),
        Keyword::Delay => {
            words.note(Expected::Number(NumberOf::Ticks));
            let ticks = number_in(words)?;
            Some(Call::Delay {
                item,
                queue,
                cpu,
                ticks,
            })
        }
        Keyword::Modify => {
            words.note(Expected::Number(NumberOf::Ticks));
            let ticks = number_in(words)?;
            Some(Call::Modify {
                item,
                queue,
                cpu,
                ticks,
            })
        }
        _ => None,
    }
}

/// The call after a keyword that an item follows, and nothing else.
#[tactic(auto, unfolding(crate::specs::CallText::call_read_after))]
#[inline(always)]
fn item_call_after(keyword: Keyword, words: &mut Words<'_>) -> Option<Call>
    requires { has_item_alone keyword ≡ true }
    ensures { with_left result words.new ≡ call_read_after keyword words.old }
{
    let item = item_in(words)?;
    match keyword {
        Keyword::Cancel => Some(Call::Cancel { item }),
        Keyword::FlushItem => Some(Call::FlushItem { item }),
        Keyword::FlushDelayed => Some(Call::FlushDelayed { item }),
        Keyword::CancelSync => Some(Call::CancelSync { item }),
        _ => None,
    }
}

/// The call after a keyword that a queue follows.
#[tactic(auto, unfolding(crate::specs::CallText::call_read_after))]
#[inline(always)]
fn queue_call_after(keyword: Keyword, words: &mut Words<'_>) -> Option<Call>
    requires { has_queue keyword ≡ true }
    ensures { with_left result words.new ≡ call_read_after keyword words.old }
{
    let queue = queue_in(words)?;
    match keyword {
        Keyword::Flush => Some(Call::Flush { queue }),
        Keyword::Drain => Some(Call::Drain { queue }),
        Keyword::SetMax => {
            words.note(Expected::Number(NumberOf::MaxActive));
            let max_active = number_in(words)?;
            Some(Call::SetMax { queue, max_active })
        }
        Keyword::Destroy => Some(Call::Destroy { queue }),
        _ => None,
    }
}

/// The call after its keyword.
#[tactic(auto, unfolding(crate::specs::CallText::call_read_after))]
#[inline(always)]
pub fn call_after(keyword: Keyword, words: &mut Words<'_>) -> Option<Call>
    ensures { with_left result words.new ≡ call_read_after keyword words.old }
{
    match keyword {
        Keyword::Queue | Keyword::Delay | Keyword::Modify => queueing_after(keyword, words),
        Keyword::Cancel | Keyword::FlushItem | Keyword::FlushDelayed | Keyword::CancelSync => {
            item_call_after(keyword, words)
        }
        Keyword::Flush | Keyword::Drain | Keyword::SetMax | Keyword::Destroy => {
            queue_call_after(keyword, words)
        }
        Keyword::Tick => {
            words.note(Expected::Number(NumberOf::Ticks));
            let ticks = number_in(words)?;
            Some(Call::Tick { ticks })
        }
        Keyword::End => {
            words.note(Expected::Number(NumberOf::Ticket));
            let ticket = wide_in(words)?;
            Some(Call::End { ticket })
        }
        Keyword::Fire => Some(Call::Fire),
        Keyword::Take => Some(Call::Take),
        Keyword::Finish => Some(Call::Finish),
        Keyword::Sleep => Some(Call::Sleep),
        Keyword::Wake => Some(Call::Wake),
        Keyword::Retire => Some(Call::Retire),
        Keyword::Freeze => Some(Call::Freeze),
        Keyword::Thaw => Some(Call::Thaw),
        _ => None,
    }
}

/// A call.
#[inline(always)]
pub fn call_in(words: &mut Words<'_>) -> Option<Call>
    ensures { with_left result words.new ≡ call_in words.old }
{
    words.note(Expected::Call);
    let keyword = keyword_in(words)?;
    call_after(keyword, words)
}

/// Whether such a who makes such calls.
#[inline(always)]
fn is_of_kind(who: Who, call: Call) -> bool
    ensures { result ≡ is_of_kind who call }
{
    match who {
        Who::Caller(_) => call.is_callers(),
        Who::Worker(_) => call.is_workers(),
    }
}

/// Whether a line may say so: such a who makes such calls, and a max_active that is set is at least 1.
#[inline(always)]
pub fn may_say(who: Who, call: Call) -> bool
    ensures { result ≡ may_say who call }
{
    is_of_kind(who, call) && !matches!(call, Call::SetMax { max_active: 0, .. })
}

/// Notes what should follow a call, or that such a who doesn't make it.
#[inline(always)]
pub fn note_after_call(who: Who, call: Call, expected: Expected, words: &mut Words<'_>)
    ensures { words.new ≡ words.old }
{
    words.note(if is_of_kind(who, call) {
        expected
    } else {
        Expected::OtherWho
    });
}

/// The who and the call of all words.
#[inline(always)]
pub fn call_of_words(words: &mut Words<'_>) -> Option<(Who, Call)>
    ensures { result ≡ call_of_words words.old }
{
    let who = who_in(words)?;
    let call = call_in(words)?;
    note_after_call(who, call, Expected::End, words);
    if words.is_end() && may_say(who, call) {
        Some((who, call))
    } else {
        None
    }
}

/// The who and the call of a line of calls, without its line feed. None: it is no such line, the who isn't of the
/// kind that makes this call, or a max_active is set to 0. An id that its type can't hold is read as the greatest of
/// the type, which no shape has.
#[tactic(auto, unfolding(crate::specs::CallText::call_read))]
pub fn read_call(line: &[u8]) -> Option<(Who, Call)>
    ensures { result ≡ call_read line.now }
{
    call_of_words(&mut Words::of(line))
}
