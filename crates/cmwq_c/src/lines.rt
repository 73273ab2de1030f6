//! Entries that were handed out, until they are written as lines of text.
ghost use Rattle.std.specs.Prelude.{◌≡◌, ◌≢◌, ◌≤◌, [], IfOk, length, vec_capacity};
ghost use Rattle.cmwq_board.specs.Boarded.{handed_out, kept_in};
ghost use Rattle.cmwq_c.specs.BoardStatuses.{hand_out_status, write_status};
ghost use Rattle.cmwq_c.specs.Lined.{AreWritten, WritesLines, no_lines, with_left};

use crate::status::{DONE, REFUSED, SHORT};
use crate::taken::put;
use cmwq_board::Board;
use cmwq_model::{Entry, NoMemory};
use cmwq_text::entry_line;
use std::alloc::Global;
use std::marker::Model;

/// How many lines were written, and how many bytes they have.
struct Written {
    lines: usize,
    bytes: usize,
}

/// Writes as many whole lines as the buffer holds.
fn write_lines(entries: &[Entry], out: &mut [u8]) -> Written
    ensures written { AreWritten entries.now result.lines result.bytes out.old out.new }
    ensures many { result.lines ≤ length entries.now }
{
    let mut lines = 0;
    let mut bytes = 0;
    for entry in entries {
        match put(entry_line(entry).as_bytes(), &mut out[bytes..]) {
            Some(more) => {
                lines += 1;
                bytes += more;
            }
            None => return Written { lines, bytes },
        }
    }
    Written { lines, bytes }
}

/// Entries that were handed out. Contracts see those that are not written yet, and how many can be taken at once.
#[derive(Drop)]
pub struct Lines {
    entries: Vec<Entry>,
    written: usize,
}

impl Model for Lines {
    ghost use Rattle.std.specs.Prelude.{◌≤◌, length, vec_capacity};
    ghost use Rattle.cmwq_c.specs.Lined.{Lined, lined_of};

    ghost Value = { Lined };

    ghost view = { λ l. lined_of l.entries.items l.written (vec_capacity l.entries) };

    ghost invariant = { λ l. l.written ≤ length l.entries.items };
}

impl Lines {
    /// No lines, and space for so many. The error says that memory ran out.
    pub fn new(alloc: Global, holds: u32) -> Result<Lines, NoMemory>
        ensures { IfOk result (λ lines. lines ≡ no_lines holds) }
    {
        let entries = Vec::with_capacity(alloc, holds as usize)?;
        Ok(Lines {
            entries,
            written: 0,
        })
    }

    /// What is not written yet.
    #[tactic(auto, using(crate::proofs::Growing::all_of))]
    fn left(&self) -> &[Entry]
        ensures { result.now ≡ self.now.left }
    {
        &self.entries[self.written..]
    }

    /// Takes all that the board keeps.
    pub fn take(&mut self, board: &mut Board) -> u32
        ensures status { result ≡ hand_out_status board.old self.old }
        ensures board { result ≡ 0 → board.new ≡ handed_out board.old }
        ensures left { result ≡ 0 → self.new.left ≡ kept_in board.old }
        ensures holds { result ≡ 0 → board.old.keeps ≤ self.new.holds }
        ensures kept { result ≢ 0 → (board.new ≡ board.old) × (self.new ≡ self.old) }
    {
        if !self.left().is_empty() || self.entries.capacity() < board.keeps() as usize {
            return REFUSED;
        }
        self.entries.clear();
        self.written = 0;
        match board.hand_out(&mut self.entries) {
            Ok(()) => DONE,
            Err(_) => REFUSED,
        }
    }

    /// Writes as many whole lines as the buffer holds.
    pub fn write(&mut self, out: &mut [u8], written: &mut usize) -> u32
        ensures status { result ≡ write_status self.old.left (length out.old) }
        ensures lines { result ≡ 0 → WritesLines self.old self.new written.new out.old out.new }
        ensures kept { result ≢ 0 → (self.new ≡ self.old) × (out.new ≡ out.old) × (written.new ≡ written.old) }
    {
        let Written { lines, bytes } = write_lines(self.left(), out);
        if lines == 0 && !self.left().is_empty() {
            return SHORT;
        }
        self.written += lines;
        *written = bytes;
        DONE
    }

    /// Forgets what is left.
    pub fn forget(&mut self)
        ensures { self.new ≡ with_left self.old [] }
    {
        self.entries.clear();
        self.written = 0;
    }
}
