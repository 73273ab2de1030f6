//! Rows that are spelled, in a buffer of their own.
ghost use Rattle.std.specs.Prelude.{◌≡◌, ◌+◌, ◌≤◌, [], ◌++◌, length};
ghost use Rattle.cmwq_views.specs.Page.{line_of_entries, named_number};

use arrayvec::ArrayString;
use itoa::Buffer;
use std::marker::Model;

/// The text of a row, which takes no memory but its own.
#[derive(Drop)]
pub(crate) struct Row {
    text: ArrayString<512>,
}

impl Model for Row {
    ghost use Rattle.std.specs.Prelude.{ℕ, List};

    ghost Value = { List ℕ };

    ghost view = { λ row. row.text.bytes };
}

impl Row {
    /// A row without text.
    pub(crate) fn new() -> Row
        ensures { result ≡ [] }
    {
        Row {
            text: ArrayString::new(),
        }
    }

    /// Its bytes.
    pub(crate) fn as_bytes(&self) -> &[u8]
        ensures { result.now ≡ self.now }
    {
        self.text.as_bytes()
    }

    /// Spells a text.
    pub(crate) fn push(&mut self, text: &str)
        requires { length self.old + length text.now ≤ 512 }
        ensures exact { self.new ≡ self.old ++ text.now }
        ensures len { length self.new ≡ length self.old + length text.now }
    {
        self.text.push_str(text);
    }

    /// Spells a name and a number after it.
    pub(crate) fn push_figure(&mut self, name: &str, number: u64)
        requires { length self.old + (length name.now + 20) ≤ 512 }
        ensures exact { self.new ≡ self.old ++ named_number name.now number }
        ensures short { length self.new ≤ length self.old + (length name.now + 20) }
    {
        self.push(name);
        self.push(Buffer::new().format(number));
    }

    /// Spells a name and a sum after it.
    pub(crate) fn push_sum(&mut self, name: &str, sum: u128)
        requires { length self.old + (length name.now + 40) ≤ 512 }
        ensures exact { self.new ≡ self.old ++ named_number name.now sum }
        ensures short { length self.new ≤ length self.old + (length name.now + 40) }
    {
        self.push(name);
        self.push(Buffer::new().format(sum));
    }
}

/// The line of so many entries and ticks.
pub(crate) fn head(entries: u64, ticks: u64) -> Row
    ensures { result ≡ line_of_entries entries ticks }
{
    let mut row = Row::new();
    row.push_figure("entries ", entries);
    row.push_figure(", ticks ", ticks);
    row.push("\n");
    row
}
