//! Writes the page of a summary.
ghost use Rattle.std.specs.Prelude.{◌≡◌, ◌≤◌, length, flat_map, OnOk, OnErr, IfErr};
ghost use Rattle.std.specs.Io.KnownBytes.{Appends};
ghost use Rattle.cmwq_model.specs.Prelude.{now, past_of};
ghost use Rattle.cmwq_io.specs.Counts.{Rises};
ghost use Rattle.cmwq_io.specs.Moves.{AppendsFront};
ghost use Rattle.cmwq_views.specs.Page.{line_of_entries, rows_of_table, page_text};
ghost use Rattle.cmwq_views.specs.declared.table.TheConstants as constants;

use crate::progress::Progress;
use crate::row::{Row, head};
use crate::rows::TableRows;
use crate::table::TABLES;
use crate::write::write_rows;
use cmwq_base::{Refusal, Sink, WriteFault, flush_all, write_all};

/// The line of how many entries there are, and how many ticks went by.
fn first_row(progress: &Progress<'_>) -> Row
    ensures { result ≡ line_of_entries (length (past_of progress.now.entries)) (now (past_of progress.now.entries)) }
{
    let summary = progress.summary();
    head(summary.len(), summary.time())
}

fn write_tables<W: Sink>(sink: &mut W, progress: &Progress<'_>) -> Result<(), WriteFault>
    ensures ok { OnOk result
        (Appends (W.written sink.old) (W.written sink.new)
        (flat_map (rows_of_table progress.now.layout (past_of progress.now.entries)) constants.TABLES)) }
    ensures err { OnErr result
        (AppendsFront (W.written sink.old) (W.written sink.new)
        (flat_map (rows_of_table progress.now.layout (past_of progress.now.entries)) constants.TABLES)) }
    ensures grown { W.troubles sink.old ≤ W.troubles sink.new }
    ensures fault { OnErr result (Rises (W.troubles sink.old) (W.troubles sink.new)) }
{
    for table in &TABLES {
        let rows = TableRows {
            progress,
            table: *table,
        };
        write_rows(sink, &rows)?;
    }
    Ok(())
}

/// Writes the page of a summary, and flushes. Takes no memory.
///
/// # Errors
/// `WriteFault` where the sink fails, also at the flush; a front of the page has been written then.
pub(crate) fn write_page<W: Sink>(sink: &mut W, progress: &Progress<'_>) -> Result<(), Refusal>
    ensures ok { OnOk result
        (Appends (W.written sink.old) (W.written sink.new)
        (page_text progress.now.layout (past_of progress.now.entries))) }
    ensures err { OnErr result
        (AppendsFront (W.written sink.old) (W.written sink.new)
        (page_text progress.now.layout (past_of progress.now.entries))) }
    ensures flushed { OnOk result (W.held sink.new ≡ 0) }
    ensures only { IfErr result (λ e. e ≡ Refusal.WriteFault) }
    ensures fault { OnErr result (Rises (W.troubles sink.old) (W.troubles sink.new)) }
{
    write_all(sink, first_row(progress).as_bytes())?;
    write_tables(sink, progress)?;
    flush_all(sink)?;
    Ok(())
}
