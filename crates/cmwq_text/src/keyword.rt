ghost use Rattle.std.specs.Prelude.{◌≡◌, ◌≤◌, length, find};
ghost use Rattle.cmwq_text.specs.Words.{with_left};
ghost use Rattle.cmwq_text.specs.Keywords.{keyword_text, is_keyword_text, keyword_of, keyword_in};

use crate::word::Words;

/// A word that names a call or a reply, or stands inside a reply.
#[derive(Clone, Copy)]
pub enum Keyword {
    Queue,
    Delay,
    Modify,
    Cancel,
    Tick,
    Fire,
    Flush,
    Drain,
    FlushItem,
    FlushDelayed,
    CancelSync,
    End,
    Take,
    Finish,
    Sleep,
    Wake,
    Retire,
    SetMax,
    Freeze,
    Thaw,
    Destroy,
    Yes,
    Booked,
    Again,
    Rebooked,
    No,
    Foreign,
    Draining,
    Misuse,
    Cancelled,
    Unbooked,
    Now,
    Fired,
    Nothing,
    Ticket,
    Queued,
    Idle,
    Crowded,
    Done,
    Waiting,
    Started,
    Enlist,
    Held,
    Finished,
    Slept,
    Woke,
    Retired,
    Kept,
    Width,
    Frozen,
    Thawed,
    Gone,
    Timers,
}

/// Every keyword, those that are read most before others with the same first letter.
pub const KEYWORDS: [Keyword; 53] = [
    Keyword::Take,
    Keyword::Finish,
    Keyword::Finished,
    Keyword::Started,
    Keyword::Wake,
    Keyword::Woke,
    Keyword::Flush,
    Keyword::Fire,
    Keyword::Fired,
    Keyword::Ticket,
    Keyword::Tick,
    Keyword::Delay,
    Keyword::Done,
    Keyword::Crowded,
    Keyword::Rebooked,
    Keyword::Now,
    Keyword::Queue,
    Keyword::Modify,
    Keyword::Cancel,
    Keyword::Drain,
    Keyword::FlushItem,
    Keyword::FlushDelayed,
    Keyword::CancelSync,
    Keyword::End,
    Keyword::Sleep,
    Keyword::Retire,
    Keyword::SetMax,
    Keyword::Freeze,
    Keyword::Thaw,
    Keyword::Destroy,
    Keyword::Yes,
    Keyword::Booked,
    Keyword::Again,
    Keyword::No,
    Keyword::Foreign,
    Keyword::Draining,
    Keyword::Misuse,
    Keyword::Cancelled,
    Keyword::Unbooked,
    Keyword::Nothing,
    Keyword::Queued,
    Keyword::Idle,
    Keyword::Waiting,
    Keyword::Enlist,
    Keyword::Held,
    Keyword::Slept,
    Keyword::Retired,
    Keyword::Kept,
    Keyword::Width,
    Keyword::Frozen,
    Keyword::Thawed,
    Keyword::Gone,
    Keyword::Timers,
];

/// Those with the same first letter, where these are many.
const WITH_C: [Keyword; 4] = [
    Keyword::Crowded,
    Keyword::Cancel,
    Keyword::CancelSync,
    Keyword::Cancelled,
];

const WITH_D: [Keyword; 5] = [
    Keyword::Delay,
    Keyword::Done,
    Keyword::Drain,
    Keyword::Destroy,
    Keyword::Draining,
];

const WITH_F: [Keyword; 10] = [
    Keyword::Finish,
    Keyword::Finished,
    Keyword::Flush,
    Keyword::Fire,
    Keyword::Fired,
    Keyword::FlushItem,
    Keyword::FlushDelayed,
    Keyword::Freeze,
    Keyword::Foreign,
    Keyword::Frozen,
];

const WITH_R: [Keyword; 3] = [Keyword::Rebooked, Keyword::Retire, Keyword::Retired];

const WITH_S: [Keyword; 4] = [
    Keyword::Started,
    Keyword::Sleep,
    Keyword::SetMax,
    Keyword::Slept,
];

const WITH_T: [Keyword; 6] = [
    Keyword::Take,
    Keyword::Ticket,
    Keyword::Tick,
    Keyword::Thaw,
    Keyword::Thawed,
    Keyword::Timers,
];

const WITH_W: [Keyword; 4] = [
    Keyword::Wake,
    Keyword::Woke,
    Keyword::Waiting,
    Keyword::Width,
];

impl Keyword {
    /// How it is written.
    #[tactic(auto, unfolding(crate::specs::Keywords::keyword_text))]
    #[inline(always)]
    pub fn text(self) -> &'static str
        ensures exact { result.now ≡ keyword_text self }
        ensures short { length result.now ≤ 13 }
    {
        match self {
            Keyword::Queue => "queue",
            Keyword::Delay => "delay",
            Keyword::Modify => "modify",
            Keyword::Cancel => "cancel",
            Keyword::Tick => "tick",
            Keyword::Fire => "fire",
            Keyword::Flush => "flush",
            Keyword::Drain => "drain",
            Keyword::FlushItem => "flush_item",
            Keyword::FlushDelayed => "flush_delayed",
            Keyword::CancelSync => "cancel_sync",
            Keyword::End => "end",
            Keyword::Take => "take",
            Keyword::Finish => "finish",
            Keyword::Sleep => "sleep",
            Keyword::Wake => "wake",
            Keyword::Retire => "retire",
            Keyword::SetMax => "set_max",
            Keyword::Freeze => "freeze",
            Keyword::Thaw => "thaw",
            Keyword::Destroy => "destroy",
            Keyword::Yes => "yes",
            Keyword::Booked => "booked",
            Keyword::Again => "again",
            Keyword::Rebooked => "rebooked",
            Keyword::No => "no",
            Keyword::Foreign => "foreign",
            Keyword::Draining => "draining",
            Keyword::Misuse => "misuse",
            Keyword::Cancelled => "cancelled",
            Keyword::Unbooked => "unbooked",
            Keyword::Now => "now",
            Keyword::Fired => "fired",
            Keyword::Nothing => "nothing",
            Keyword::Ticket => "ticket",
            Keyword::Queued => "queued",
            Keyword::Idle => "idle",
            Keyword::Crowded => "crowded",
            Keyword::Done => "done",
            Keyword::Waiting => "waiting",
            Keyword::Started => "started",
            Keyword::Enlist => "enlist",
            Keyword::Held => "held",
            Keyword::Finished => "finished",
            Keyword::Slept => "slept",
            Keyword::Woke => "woke",
            Keyword::Retired => "retired",
            Keyword::Kept => "kept",
            Keyword::Width => "width",
            Keyword::Frozen => "frozen",
            Keyword::Thawed => "thawed",
            Keyword::Gone => "gone",
            Keyword::Timers => "timers",
        }
    }
}

#[inline(always)]
fn is_written(keyword: Keyword, word: &[u8]) -> bool
    ensures { result ≡ is_keyword_text word.now keyword }
{
    keyword.text().as_bytes() == word
}

fn keyword_in_list(keywords: &[Keyword], word: &[u8]) -> Option<Keyword>
    ensures { result ≡ find (is_keyword_text word.now) keywords.now }
{
    keywords
        .iter()
        .copied()
        .find(|keyword| is_written(*keyword, word))
}

/// The first of these that is written so. The first two are looked at by themselves, as they are read most.
#[inline(always)]
fn keyword_among(keywords: &[Keyword], word: &[u8]) -> Option<Keyword>
    ensures { result ≡ find (is_keyword_text word.now) keywords.now }
{
    match keywords {
        [first, ..] if is_written(*first, word) => Some(*first),
        [_, second, ..] if is_written(*second, word) => Some(*second),
        [_, _, rest @ ..] => keyword_in_list(rest, word),
        _ => None,
    }
}

/// The keyword that is written so. Only those with its first letter are looked at.
#[tactic(auto, unfolding(crate::specs::Keywords::keyword_of))]
#[inline(always)]
fn keyword_of(word: &[u8]) -> Option<Keyword>
    ensures { result ≡ keyword_of word.now }
{
    match *word.first()? {
        b'a' => keyword_among(&[Keyword::Again], word),
        b'b' => keyword_among(&[Keyword::Booked], word),
        b'c' => keyword_among(&WITH_C, word),
        b'd' => keyword_among(&WITH_D, word),
        b'e' => keyword_among(&[Keyword::End, Keyword::Enlist], word),
        b'f' => keyword_among(&WITH_F, word),
        b'g' => keyword_among(&[Keyword::Gone], word),
        b'h' => keyword_among(&[Keyword::Held], word),
        b'i' => keyword_among(&[Keyword::Idle], word),
        b'k' => keyword_among(&[Keyword::Kept], word),
        b'm' => keyword_among(&[Keyword::Modify, Keyword::Misuse], word),
        b'n' => keyword_among(&[Keyword::Now, Keyword::No, Keyword::Nothing], word),
        b'q' => keyword_among(&[Keyword::Queue, Keyword::Queued], word),
        b'r' => keyword_among(&WITH_R, word),
        b's' => keyword_among(&WITH_S, word),
        b't' => keyword_among(&WITH_T, word),
        b'u' => keyword_among(&[Keyword::Unbooked], word),
        b'w' => keyword_among(&WITH_W, word),
        b'y' => keyword_among(&[Keyword::Yes], word),
        _ => None,
    }
}

/// The keyword that the first word is.
#[inline(always)]
pub fn keyword_in(words: &mut Words<'_>) -> Option<Keyword>
    ensures { with_left result words.new ≡ keyword_in words.old }
{
    keyword_of(words.first()?)
}
