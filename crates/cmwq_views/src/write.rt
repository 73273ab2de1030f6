//! Writes rows that are found by their numbers.
ghost use Rattle.std.specs.Prelude.{◌≤◌, OnOk, OnErr};
ghost use Rattle.std.specs.Io.KnownBytes.{Appends};
ghost use Rattle.cmwq_io.specs.Counts.{Rises};
ghost use Rattle.cmwq_io.specs.Moves.{AppendsFront};
ghost use Rattle.cmwq_views.specs.Page.{rows_text};

use crate::row::Row;
use cmwq_base::{Sink, WriteFault, write_all};

/// Rows, each of which is found by its number.
pub(crate) trait Rows {
    ghost use Rattle.std.specs.Prelude.{◌≡◌, ◌<◌, ℕ, List};

    /// How many there are.
    ghost count: { Self → ℕ };

    /// The text of each.
    ghost row_of: { Self → ℕ → List ℕ };

    fn len(&self) -> usize
        ensures { result ≡ count self.now };

    fn row(&self, at: usize) -> Row
        requires { at < count self.now }
        ensures { result ≡ row_of self.now at };
}

/// Writes rows, in their order. Takes no memory.
///
/// # Errors
/// `WriteFault` where the sink fails; a front of the rows has been written then.
pub(crate) fn write_rows<R: Rows, W: Sink>(sink: &mut W, rows: &R) -> Result<(), WriteFault>
    ensures ok { OnOk result
        (Appends (W.written sink.old) (W.written sink.new) (rows_text (R.row_of rows.now) (R.count rows.now))) }
    ensures err { OnErr result
        (AppendsFront (W.written sink.old) (W.written sink.new) (rows_text (R.row_of rows.now) (R.count rows.now))) }
    ensures grown { W.troubles sink.old ≤ W.troubles sink.new }
    ensures fault { OnErr result (Rises (W.troubles sink.old) (W.troubles sink.new)) }
{
    for at in 0..rows.len() {
        write_all(sink, rows.row(at).as_bytes())?;
    }
    Ok(())
}
