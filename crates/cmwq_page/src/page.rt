//! The text of a page.
ghost use Rattle.std.specs.Prelude.{◌≡◌, ◌≤◌, length, OnOk, OnErr};
ghost use Rattle.std.specs.Io.KnownBytes.{Appends};
ghost use Rattle.cmwq_io.specs.Counts.{Rises};
ghost use Rattle.cmwq_io.specs.Moves.{AppendsFront};
ghost use Rattle.cmwq_page.specs.PageText as spec;

use crate::entry::write_entries;
use crate::row::write_rows;
use crate::source::{HEAD, TAIL};
use cmwq_base::{Sink, WriteFault, flush_all, write_all};
use cmwq_chart::{Bar, CallerWait, Level, Shapes, Sleep};
use cmwq_chart_text::{Window, write_filled};
use cmwq_model::{Entry, QueueShape, Shape};

/// How much there is of everything, and which entries are shown first.
fn first_numbers(shape: &Shape, entries: usize, shapes: &Shapes, window: Window) -> [u64; 12]
    ensures { result
        ≡ spec.first_numbers shape.now.cpus shape.now.workers shape.now.callers shape.now.items
        (length shape.now.queues) entries shapes.now.callers.waits.items shapes.now.bars.items
        shapes.now.sleeps.items shapes.now.levels.items window }
{
    let counts = shape.counts();
    let entries = entries as u64;
    let from = window.from.min(entries);
    [
        counts.cpus.into(),
        counts.workers.into(),
        counts.callers.into(),
        counts.items.into(),
        shape.queues().len() as u64,
        entries,
        shapes.callers.waits.len() as u64,
        shapes.bars.len() as u64,
        shapes.sleeps.len() as u64,
        shapes.levels.len() as u64,
        from,
        window.to.min(entries).max(from),
    ]
}

/// Writes the rows of waits, runs, sleeps and levels.
fn write_shapes<W: Sink>(sink: &mut W, shapes: &Shapes) -> Result<(), WriteFault>
    ensures ok { OnOk result
        (Appends (W.written sink.old) (W.written sink.new)
        (spec.shapes_text shapes.now.callers.waits.items shapes.now.bars.items shapes.now.sleeps.items
        shapes.now.levels.items)) }
    ensures err { OnErr result
        (AppendsFront (W.written sink.old) (W.written sink.new)
        (spec.shapes_text shapes.now.callers.waits.items shapes.now.bars.items shapes.now.sleeps.items
        shapes.now.levels.items)) }
    ensures grown { W.troubles sink.old ≤ W.troubles sink.new }
    ensures fault { OnErr result (Rises (W.troubles sink.old) (W.troubles sink.new)) }
{
    write_rows::<CallerWait, W>(sink, &shapes.callers.waits)?;
    write_rows::<Bar, W>(sink, &shapes.bars)?;
    write_rows::<Sleep, W>(sink, &shapes.sleeps)?;
    write_rows::<Level, W>(sink, &shapes.levels)?;
    Ok(())
}

/// The first row, with a hole for each number.
fn first_template() -> &'static str
    ensures { result.now ≡ spec.first_template }
{
    "$ $ $ $ $ $ $ $ $ $ $ $\n"
}

/// Writes the first row: how much there is of everything.
fn write_first<W: Sink>(
    sink: &mut W,
    shape: &Shape,
    entries: usize,
    shapes: &Shapes,
    window: Window,
) -> Result<(), WriteFault>
    ensures ok { OnOk result
        (Appends (W.written sink.old) (W.written sink.new)
        (spec.first_text shape.now entries shapes.now.callers.waits.items shapes.now.bars.items
        shapes.now.sleeps.items shapes.now.levels.items window)) }
    ensures err { OnErr result
        (AppendsFront (W.written sink.old) (W.written sink.new)
        (spec.first_text shape.now entries shapes.now.callers.waits.items shapes.now.bars.items
        shapes.now.sleeps.items shapes.now.levels.items window)) }
    ensures grown { W.troubles sink.old ≤ W.troubles sink.new }
    ensures fault { OnErr result (Rises (W.troubles sink.old) (W.troubles sink.new)) }
{
    write_filled(
        sink,
        first_template(),
        &first_numbers(shape, entries, shapes, window),
    )
}

/// Writes all rows.
#[tactic(auto, unfolding(crate::specs::PageText::history_text))]
fn write_history<W: Sink>(
    sink: &mut W,
    shape: &Shape,
    entries: &[Entry],
    shapes: &Shapes,
    window: Window,
) -> Result<(), WriteFault>
    ensures ok { OnOk result
        (Appends (W.written sink.old) (W.written sink.new)
        (spec.history_text shape.now entries.now shapes.now.callers.waits.items shapes.now.bars.items
        shapes.now.sleeps.items shapes.now.levels.items window)) }
    ensures err { OnErr result
        (AppendsFront (W.written sink.old) (W.written sink.new)
        (spec.history_text shape.now entries.now shapes.now.callers.waits.items shapes.now.bars.items
        shapes.now.sleeps.items shapes.now.levels.items window)) }
    ensures grown { W.troubles sink.old ≤ W.troubles sink.new }
    ensures fault { OnErr result (Rises (W.troubles sink.old) (W.troubles sink.new)) }
{
    write_first(sink, shape, entries.len(), shapes, window)?;
    write_rows::<QueueShape, W>(sink, shape.queues())?;
    write_entries(sink, entries)?;
    write_shapes(sink, shapes)?;
    Ok(())
}

/// Writes the page of a history of this shape, with these entries and the shapes of those, and flushes. It opens at the
/// entries of the window. Takes no memory.
///
/// # Errors
/// `WriteFault` if the sink fails, also at the flush; a front of the page was written then.
#[tactic(auto, unfolding(crate::specs::PageText::page_text))]
pub fn write_page<W: Sink>(
    sink: &mut W,
    shape: &Shape,
    entries: &[Entry],
    shapes: &Shapes,
    window: Window,
) -> Result<(), WriteFault>
    ensures ok { OnOk result
        (Appends (W.written sink.old) (W.written sink.new)
        (spec.page_text shape.now entries.now shapes.now.callers.waits.items shapes.now.bars.items
        shapes.now.sleeps.items shapes.now.levels.items window)) }
    ensures err { OnErr result
        (AppendsFront (W.written sink.old) (W.written sink.new)
        (spec.page_text shape.now entries.now shapes.now.callers.waits.items shapes.now.bars.items
        shapes.now.sleeps.items shapes.now.levels.items window)) }
    ensures flushed { OnOk result (W.held sink.new ≡ 0) }
    ensures fault { OnErr result (Rises (W.troubles sink.old) (W.troubles sink.new)) }
{
    write_all(sink, HEAD.as_bytes())?;
    write_history(sink, shape, entries, shapes, window)?;
    write_all(sink, TAIL.as_bytes())?;
    flush_all(sink)?;
    Ok(())
}
