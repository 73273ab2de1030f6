//! The grammar of actions: the word that each begins with, who does it, and its arguments.

ghost use Rattle.std.specs.Prelude.{◌≡◌, find};
ghost use Rattle.cmwq_json_script.specs.Words.{word_text, is_word_text, word_of};
ghost use Rattle.cmwq_json_script.specs.Arguments.{is_done_by, arguments_of};

use crate::action::Actor;

/// A word that an action begins with.
#[derive(Clone, Copy)]
pub enum Word {
    Queue,
    Delay,
    Modify,
    Cancel,
    Tick,
    Flush,
    FlushItem,
    FlushDelayed,
    CancelSync,
    Drain,
    SetMax,
    Freeze,
    Thaw,
    Destroy,
    Open,
    SleepAt,
    Wait,
    Lock,
    Unlock,
}

/// Every word, in the order in which they are listed to a reader.
pub const WORDS: [Word; 19] = [
    Word::Queue,
    Word::Delay,
    Word::Modify,
    Word::Cancel,
    Word::CancelSync,
    Word::Tick,
    Word::Flush,
    Word::Drain,
    Word::Destroy,
    Word::FlushItem,
    Word::FlushDelayed,
    Word::SetMax,
    Word::Freeze,
    Word::Thaw,
    Word::Open,
    Word::SleepAt,
    Word::Wait,
    Word::Lock,
    Word::Unlock,
];

/// What an argument is.
#[derive(Clone, Copy)]
pub enum Argument {
    /// An item's name.
    Item,
    /// A queue's name.
    Queue,
    /// A CPU's number.
    Cpu,
    Ticks,
    MaxActive,
    /// A gate's name.
    Gate,
    /// A lock's name.
    Lock,
}

impl Word {
    /// How it is written.
    #[tactic(auto, unfolding(crate::specs::Words::word_text))]
    pub fn text(self) -> &'static str
        ensures { result.now ≡ word_text self }
    {
        match self {
            Word::Queue => "queue",
            Word::Delay => "delay",
            Word::Modify => "modify",
            Word::Cancel => "cancel",
            Word::Tick => "tick",
            Word::Flush => "flush",
            Word::FlushItem => "flush_item",
            Word::FlushDelayed => "flush_delayed",
            Word::CancelSync => "cancel_sync",
            Word::Drain => "drain",
            Word::SetMax => "set_max",
            Word::Freeze => "freeze",
            Word::Thaw => "thaw",
            Word::Destroy => "destroy",
            Word::Open => "open",
            Word::SleepAt => "sleep_at",
            Word::Wait => "wait",
            Word::Lock => "lock",
            Word::Unlock => "unlock",
        }
    }

    /// Whether this actor does it. Items make fewer calls than callers, and sleep at a gate where callers wait at it.
    #[tactic(auto, unfolding(crate::specs::Arguments::is_done_by))]
    pub fn is_done_by(self, actor: Actor) -> bool
        ensures { result ≡ is_done_by self actor }
    {
        match self {
            Word::Tick | Word::SetMax | Word::Freeze | Word::Thaw | Word::Destroy | Word::Wait =>
                matches!(actor, Actor::Caller),
            Word::SleepAt => matches!(actor, Actor::Item),
            _ => true,
        }
    }

    /// The arguments that stand after it.
    #[tactic(auto, unfolding(crate::specs::Arguments::arguments_of))]
    pub fn arguments(self) -> &'static [Argument]
        ensures { result.now ≡ arguments_of self }
    {
        match self {
            Word::Queue => &[Argument::Item, Argument::Queue, Argument::Cpu],
            Word::Delay | Word::Modify => &[
                Argument::Item,
                Argument::Queue,
                Argument::Cpu,
                Argument::Ticks,
            ],
            Word::Cancel | Word::CancelSync | Word::FlushItem | Word::FlushDelayed => {
                &[Argument::Item]
            }
            Word::Tick => &[Argument::Ticks],
            Word::Flush | Word::Drain | Word::Destroy => &[Argument::Queue],
            Word::SetMax => &[Argument::Queue, Argument::MaxActive],
            Word::Freeze | Word::Thaw => &[],
            Word::Open | Word::SleepAt | Word::Wait => &[Argument::Gate],
            Word::Lock | Word::Unlock => &[Argument::Lock],
        }
    }
}

fn word_among(words: &[Word], text: &[u8]) -> Option<Word>
    ensures { result ≡ find (is_word_text text.now) words.now }
{
    words
        .iter()
        .copied()
        .find(|word| word.text().as_bytes() == text)
}

/// The word that is written so.
#[tactic(auto, unfolding(crate::specs::Words::word_of))]
pub fn word_of(text: &str) -> Option<Word>
    ensures { result ≡ word_of text.now }
{
    word_among(&WORDS, text.as_bytes())
}
