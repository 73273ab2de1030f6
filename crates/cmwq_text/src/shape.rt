//! Shapes in a text.
ghost use Rattle.std.specs.Prelude.{◌≡◌};
ghost use Rattle.cmwq_text.specs.ShapeText.{counts_of_words, counts_read, begins_queue, flags_of, queue_line_of_words};
ghost use Rattle.cmwq_text.specs.ShapeText.{queue_line_of, queue_of_calls, queue_of_history, width_taken};

use crate::expected::{Expected, NumberOf};
use crate::word::{Words, byte_count_in, number_in, short_count_in, wide_in};
use cmwq_model::{Counts, QueueShape};

/// The flags of a queue.
#[derive(Clone, Copy)]
pub struct Flags {
    pub high: bool,
    pub intensive: bool,
    pub freezable: bool,
}

/// What a queue's line says.
#[derive(Clone, Copy)]
pub struct QueueLine {
    pub max_active: u32,
    pub flags: Flags,
}

/// The counts of all words, which are those of a shape line.
pub fn counts_of_words(words: &mut Words<'_>) -> Option<Counts>
    ensures { result ≡ counts_of_words words.old }
{
    words.note(Expected::Shape);
    words.after(b"shape")?;
    words.note(Expected::Number(NumberOf::Cpus));
    let cpus = byte_count_in(words)?;
    words.note(Expected::Number(NumberOf::Workers));
    let workers = byte_count_in(words)?;
    words.note(Expected::Number(NumberOf::Callers));
    let callers = byte_count_in(words)?;
    words.note(Expected::Number(NumberOf::Items));
    let items = short_count_in(words)?;
    words.note(Expected::Number(NumberOf::Room));
    let room = wide_in(words)?;
    words.note(Expected::End);
    let counts = Counts {
        cpus,
        workers,
        callers,
        items,
        room,
    };
    if words.is_end() && counts.are_allowed() {
        Some(counts)
    } else {
        None
    }
}

/// The counts of a shape line, without its line feed. None: it is no such line, or a number is outside its limits.
#[tactic(auto, unfolding(crate::specs::ShapeText::counts_read))]
pub fn read_counts(line: &[u8]) -> Option<Counts>
    ensures { result ≡ counts_read line.now }
{
    counts_of_words(&mut Words::of(line))
}

/// Whether a line begins as that of a queue does, with `wq` and a space.
pub fn begins_queue(line: &[u8]) -> bool
    ensures { result ≡ begins_queue line.now }
{
    line.starts_with(b"wq ")
}

/// `-` for none of the flags, or one to three of `h`, `i` and `f`, in this order.
fn flags_of(word: &[u8]) -> Option<Flags>
    ensures { result ≡ flags_of word.now }
{
    let (high, intensive, freezable) = match word {
        b"-" => (false, false, false),
        b"h" => (true, false, false),
        b"i" => (false, true, false),
        b"hi" => (true, true, false),
        b"f" => (false, false, true),
        b"hf" => (true, false, true),
        b"if" => (false, true, true),
        b"hif" => (true, true, true),
        _ => return None,
    };
    Some(Flags {
        high,
        intensive,
        freezable,
    })
}

/// What all words say, which are those of a queue's line.
pub fn queue_line_of_words(words: &mut Words<'_>) -> Option<QueueLine>
    ensures { result ≡ queue_line_of_words words.old }
{
    words.note(Expected::Queue);
    words.after(b"wq")?;
    words.note(Expected::Number(NumberOf::MaxActive));
    let max_active = number_in(words)?;
    words.note(Expected::Flags);
    let flags = flags_of(words.first()?)?;
    words.note(Expected::End);
    if words.is_end() {
        Some(QueueLine { max_active, flags })
    } else {
        None
    }
}

#[tactic(auto, unfolding(crate::specs::ShapeText::queue_line_of))]
fn queue_line_of(line: &[u8]) -> Option<QueueLine>
    ensures { result ≡ queue_line_of line.now }
{
    queue_line_of_words(&mut Words::of(line))
}

/// What a max_active in a file of calls is taken as: 0 as 256, and more than 512 as 512.
fn width_taken(max_active: u32) -> u16
    ensures { result ≡ width_taken max_active }
{
    if max_active == 0 {
        256
    } else {
        max_active.min(512) as u16
    }
}

/// The queue of a line in a file of calls, without its line feed. Its max_active may be any number: 0 is taken as 256,
/// and more than 512 as 512. None: it is no such line.
#[tactic(auto, unfolding(crate::specs::ShapeText::queue_of_calls))]
pub fn read_queue_of_calls(line: &[u8]) -> Option<QueueShape>
    ensures { result ≡ queue_of_calls line.now }
{
    let QueueLine { max_active, flags } = queue_line_of(line)?;
    Some(QueueShape {
        max_active: width_taken(max_active),
        high: flags.high,
        intensive: flags.intensive,
        freezable: flags.freezable,
    })
}

/// The queue of a line in a history, without its line feed. None: it is no such line, or its max_active isn't 1 to 512.
#[tactic(auto, unfolding(crate::specs::ShapeText::queue_of_history))]
pub fn read_queue_of_history(line: &[u8]) -> Option<QueueShape>
    ensures { result ≡ queue_of_history line.now }
{
    let QueueLine { max_active, flags } = queue_line_of(line)?;
    if (1..=512).contains(&max_active) {
        Some(QueueShape {
            max_active: max_active as u16,
            high: flags.high,
            intensive: flags.intensive,
            freezable: flags.freezable,
        })
    } else {
        None
    }
}
