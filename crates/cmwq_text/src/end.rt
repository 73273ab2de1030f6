//! The last line of a history.
ghost use Rattle.std.specs.Prelude.{◌≡◌};
ghost use Rattle.cmwq_text.specs.EndText.{end_text, end_of};

use crate::line::LineText;
use crate::word::{Words, wide_in};

/// How many entries the last line of a history says, without its line feed. None: it is no such line, or the number is
/// above 9,223,372,036,854,775,807.
#[tactic(auto, unfolding(crate::specs::EndText::end_of))]
pub fn read_end(line: &[u8]) -> Option<u64>
    ensures { result ≡ end_of line.now }
{
    let mut words = Words::of(line);
    words.after(b"end")?;
    let entries = wide_in(&mut words)?;
    if words.is_end() { Some(entries) } else { None }
}

/// The last line of a history with so many entries, with its line feed.
#[tactic(auto, unfolding(crate::specs::EndText::end_text))]
pub fn end_line(entries: u64) -> LineText
    ensures { result ≡ end_text entries }
{
    let mut line = LineText::new();
    line.push("end");
    line.push_numbers(&[entries]);
    line.push("\n");
    line
}
