//! What is written and flushed at once.

ghost use Rattle.std.specs.Prelude.{◌≡◌, ◌≤◌, ◌++◌, OnOk, OnErr};
ghost use Rattle.std.specs.Io.KnownBytes.{Appends};
ghost use Rattle.cmwq_io.specs.Counts.{Rises};
ghost use Rattle.cmwq_io.specs.Moves.{AppendsFront};
ghost use Rattle.cmwq_text.specs.HistoryText.{entries_text, head_text, last_text};

use cmwq_base::{Refusal, flush_all, write_end, write_entries, write_shape};
use cmwq_io::Sink;
use cmwq_model::{Entry, Shape};

/// What stands before the entries, in format 3.
pub(crate) fn write_head<O: Sink>(output: &mut O, shape: &Shape) -> Result<(), Refusal>
    ensures ok { OnOk result (Appends (O.written output.old) (O.written output.new) (head_text 3 shape.now)) }
    ensures err { OnErr result (AppendsFront (O.written output.old) (O.written output.new) (head_text 3 shape.now)) }
    ensures grown { O.troubles output.old ≤ O.troubles output.new }
    ensures fault { OnErr result (Rises (O.troubles output.old) (O.troubles output.new)) }
{
    write_shape(output, 3, shape)?;
    flush_all(output)?;
    Ok(())
}

/// The lines of entries.
pub(crate) fn write_batch<O: Sink>(output: &mut O, batch: &[Entry]) -> Result<(), Refusal>
    ensures ok { OnOk result (Appends (O.written output.old) (O.written output.new) (entries_text batch.now)) }
    ensures err { OnErr result (AppendsFront (O.written output.old) (O.written output.new) (entries_text batch.now)) }
    ensures flushed { OnOk result (O.held output.new ≡ 0) }
    ensures grown { O.troubles output.old ≤ O.troubles output.new }
    ensures fault { OnErr result (Rises (O.troubles output.old) (O.troubles output.new)) }
{
    write_entries(output, batch)?;
    flush_all(output)?;
    Ok(())
}

/// The last lines: those of these entries, and the one that says how many `all` are.
pub(crate) fn write_last<O: Sink>(output: &mut O, last: &[Entry], all: u64) -> Result<(), Refusal>
    ensures ok { OnOk result
        (Appends (O.written output.old) (O.written output.new) (entries_text last.now ++ last_text 3 all)) }
    ensures err { OnErr result
        (AppendsFront (O.written output.old) (O.written output.new) (entries_text last.now ++ last_text 3 all)) }
    ensures flushed { OnOk result (O.held output.new ≡ 0) }
    ensures grown { O.troubles output.old ≤ O.troubles output.new }
    ensures fault { OnErr result (Rises (O.troubles output.old) (O.troubles output.new)) }
{
    write_entries(output, last)?;
    write_end(output, 3, all)?;
    flush_all(output)?;
    Ok(())
}
