//! Writes shapes and entries.

ghost use Rattle.std.specs.Prelude.{◌≡◌, ◌≤◌, flat_map, OnOk, OnErr, IfErr};
ghost use Rattle.std.specs.Io.KnownBytes.{Appends};
ghost use Rattle.cmwq_io.specs.Counts.{Rises};
ghost use Rattle.cmwq_io.specs.Moves.{AppendsFront};
ghost use Rattle.cmwq_text.specs.EntryText.{entry_text};
ghost use Rattle.cmwq_text.specs.HistoryText.{entries_text, head_text, last_text};
ghost use Rattle.cmwq_text.specs.ShapeText.{queue_text};

use crate::refusal::Refusal;
use cmwq_io::{Sink, WriteFault, write_all};
use cmwq_model::{Entry, QueueShape, Shape};
use cmwq_text::{
    LineText, counts_line, end_line, needs_end, queue_line, spell_entry, version_line,
};

/// Spells the line of an entry in this text, and writes it.
#[inline]
fn write_spelled<W: Sink>(
    sink: &mut W,
    line: &mut LineText,
    entry: &Entry,
) -> Result<(), WriteFault>
    ensures ok { OnOk result (Appends (W.written sink.old) (W.written sink.new) (entry_text entry.now)) }
    ensures err { OnErr result (AppendsFront (W.written sink.old) (W.written sink.new) (entry_text entry.now)) }
    ensures grown { W.troubles sink.old ≤ W.troubles sink.new }
    ensures fault { OnErr result (Rises (W.troubles sink.old) (W.troubles sink.new)) }
{
    spell_entry(line, entry);
    write_all(sink, line.as_bytes())
}

/// Writes the line of an entry. Takes no memory.
///
/// # Errors
/// `WriteFault` where the sink fails; a front of the line has been written then.
#[inline]
pub fn write_entry<W: Sink>(sink: &mut W, entry: &Entry) -> Result<(), Refusal>
    ensures ok { OnOk result (Appends (W.written sink.old) (W.written sink.new) (entry_text entry.now)) }
    ensures err { OnErr result (AppendsFront (W.written sink.old) (W.written sink.new) (entry_text entry.now)) }
    ensures only { IfErr result (λ e. e ≡ Refusal.WriteFault) }
    ensures grown { W.troubles sink.old ≤ W.troubles sink.new }
    ensures fault { OnErr result (Rises (W.troubles sink.old) (W.troubles sink.new)) }
{
    let mut line = LineText::new();
    write_spelled(sink, &mut line, entry)?;
    Ok(())
}

/// Writes the lines of entries. Takes no memory.
///
/// # Errors
/// `WriteFault` where the sink fails; a front of the lines has been written then.
pub fn write_entries<W: Sink>(sink: &mut W, entries: &[Entry]) -> Result<(), Refusal>
    ensures ok { OnOk result (Appends (W.written sink.old) (W.written sink.new) (entries_text entries.now)) }
    ensures err { OnErr result (AppendsFront (W.written sink.old) (W.written sink.new) (entries_text entries.now)) }
    ensures only { IfErr result (λ e. e ≡ Refusal.WriteFault) }
    ensures grown { W.troubles sink.old ≤ W.troubles sink.new }
    ensures fault { OnErr result (Rises (W.troubles sink.old) (W.troubles sink.new)) }
{
    let mut line = LineText::new();
    for entry in entries {
        write_spelled(sink, &mut line, entry)?;
    }
    Ok(())
}

/// Writes the head of a history of format 2 or 3: the line that says its format, the shape line and a line for each
/// queue. Takes no memory.
///
/// # Errors
/// `WriteFault` where the sink fails; a front of the lines has been written then.
pub fn write_shape<W: Sink>(sink: &mut W, version: u8, shape: &Shape) -> Result<(), Refusal>
    requires { 2 ≤ version }
    ensures ok { OnOk result (Appends (W.written sink.old) (W.written sink.new) (head_text version shape.now)) }
    ensures err { OnErr result (AppendsFront (W.written sink.old) (W.written sink.new) (head_text version shape.now)) }
    ensures only { IfErr result (λ e. e ≡ Refusal.WriteFault) }
    ensures grown { W.troubles sink.old ≤ W.troubles sink.new }
    ensures fault { OnErr result (Rises (W.troubles sink.old) (W.troubles sink.new)) }
{
    write_all(sink, version_line(version).as_bytes())?;
    write_all(sink, counts_line(&shape.counts()).as_bytes())?;
    write_queues(sink, shape.queues())?;
    Ok(())
}

/// Writes the last line of a history of this format with so many entries, and of a format without one nothing. Takes no
/// memory.
///
/// # Errors
/// `WriteFault` where the sink fails; a front of the line has been written then.
pub fn write_end<W: Sink>(sink: &mut W, version: u8, entries: u64) -> Result<(), Refusal>
    ensures ok { OnOk result (Appends (W.written sink.old) (W.written sink.new) (last_text version entries)) }
    ensures err { OnErr result (AppendsFront (W.written sink.old) (W.written sink.new) (last_text version entries)) }
    ensures only { IfErr result (λ e. e ≡ Refusal.WriteFault) }
    ensures grown { W.troubles sink.old ≤ W.troubles sink.new }
    ensures fault { OnErr result (Rises (W.troubles sink.old) (W.troubles sink.new)) }
{
    if needs_end(version) {
        write_all(sink, end_line(entries).as_bytes())?;
    }
    Ok(())
}

fn write_queues<W: Sink>(sink: &mut W, queues: &[QueueShape]) -> Result<(), WriteFault>
    ensures ok { OnOk result (Appends (W.written sink.old) (W.written sink.new) (flat_map queue_text queues.now)) }
    ensures err { OnErr result
        (AppendsFront (W.written sink.old) (W.written sink.new) (flat_map queue_text queues.now)) }
    ensures grown { W.troubles sink.old ≤ W.troubles sink.new }
    ensures fault { OnErr result (Rises (W.troubles sink.old) (W.troubles sink.new)) }
{
    for queue in queues {
        write_all(sink, queue_line(queue).as_bytes())?;
    }
    Ok(())
}
