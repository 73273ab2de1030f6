//! Entries in a text.
ghost use Rattle.std.specs.Prelude.{◌≡◌};
ghost use Rattle.cmwq_model.specs.Prelude.{entry_fits};
ghost use Rattle.cmwq_text.specs.EntryText.{entry_of_words, entry_of};

use crate::call::{call_in, may_say, note_after_call};
use crate::expected::{Expected, NumberOf};
use crate::id::who_in;
use crate::reply::{reply_fits, reply_in};
use crate::word::{Words, wide_in};
use cmwq_model::{Entry, Shape};

/// The entry of all words.
#[inline(always)]
pub fn entry_of_words(words: &mut Words<'_>) -> Option<Entry>
    ensures { result ≡ entry_of_words words.old }
{
    let who = who_in(words)?;
    words.note(Expected::Number(NumberOf::Serial));
    let serial = wide_in(words)?;
    let call = call_in(words)?;
    note_after_call(who, call, Expected::Equals, words);
    words.after(b"=")?;
    let reply = reply_in(words)?;
    words.note(Expected::End);
    if words.is_end() && may_say(who, call) {
        Some(Entry {
            who,
            serial,
            call,
            reply,
        })
    } else {
        None
    }
}

/// The entry of a line of a history, without its line feed. None: it is no such line, the who isn't of the kind that
/// makes this call, or a max_active is set to 0. Any reply may follow any call. An id that its type can't hold is read
/// as the greatest of the type, which no shape has.
#[tactic(auto, unfolding(crate::specs::EntryText::entry_of))]
pub fn read_entry(line: &[u8]) -> Option<Entry>
    ensures { result ≡ entry_of line.now }
{
    entry_of_words(&mut Words::of(line))
}

/// Whether who, call and reply of an entry are inside the shape.
#[inline]
pub fn entry_fits(shape: &Shape, entry: &Entry) -> bool
    ensures { result ≡ entry_fits shape.now entry.now }
{
    shape.fits(entry.who, entry.call) && reply_fits(shape, entry.reply)
}
