//! Rows of numbers.
ghost use Rattle.std.specs.Prelude.{◌≤◌, OnOk, OnErr};
ghost use Rattle.std.specs.Io.KnownBytes.{Appends};
ghost use Rattle.cmwq_io.specs.Counts.{Rises};
ghost use Rattle.cmwq_io.specs.Moves.{AppendsFront};
ghost use Rattle.cmwq_page.specs.Row.{row_text, rows_text};

use cmwq_base::{Sink, WriteFault};
use cmwq_chart_text::write_filled;

/// What has a row of numbers.
pub(crate) trait Row {
    ghost use Rattle.std.specs.Prelude.{◌≡◌, ℕ, List};

    /// The row, with a hole for each number.
    ghost template_of: { Self → List ℕ };

    /// What stands for the holes, and 0 beyond.
    ghost numbers_of: { Self → List ℕ };

    fn template(&self) -> &'static str
        ensures { result.now ≡ template_of self.now };

    fn numbers(&self) -> [u64; 6]
        ensures { result ≡ numbers_of self.now };
}

/// Writes a row.
fn write_row<R: Row, W: Sink>(sink: &mut W, row: &R) -> Result<(), WriteFault>
    ensures ok { OnOk result
        (Appends (W.written sink.old) (W.written sink.new) (row_text R.template_of R.numbers_of row.now)) }
    ensures err { OnErr result
        (AppendsFront (W.written sink.old) (W.written sink.new) (row_text R.template_of R.numbers_of row.now)) }
    ensures grown { W.troubles sink.old ≤ W.troubles sink.new }
    ensures fault { OnErr result (Rises (W.troubles sink.old) (W.troubles sink.new)) }
{
    write_filled(sink, row.template(), &row.numbers())
}

/// Writes rows, one after the other.
pub(crate) fn write_rows<R: Row, W: Sink>(sink: &mut W, rows: &[R]) -> Result<(), WriteFault>
    ensures ok { OnOk result
        (Appends (W.written sink.old) (W.written sink.new) (rows_text R.template_of R.numbers_of rows.now)) }
    ensures err { OnErr result
        (AppendsFront (W.written sink.old) (W.written sink.new) (rows_text R.template_of R.numbers_of rows.now)) }
    ensures grown { W.troubles sink.old ≤ W.troubles sink.new }
    ensures fault { OnErr result (Rises (W.troubles sink.old) (W.troubles sink.new)) }
{
    for row in rows {
        write_row(sink, row)?;
    }
    Ok(())
}
