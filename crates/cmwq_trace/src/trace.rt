//! The text of a trace.
ghost use Rattle.std.specs.Prelude.{◌≡◌, ◌≤◌, OnOk, OnErr};
ghost use Rattle.std.specs.Io.KnownBytes.{Appends};
ghost use Rattle.cmwq_io.specs.Counts.{Rises};
ghost use Rattle.cmwq_io.specs.Moves.{AppendsFront};
ghost use Rattle.cmwq_trace.specs.TraceText as spec;

use crate::event::{Event, write_event};
use cmwq_base::{Sink, WriteFault, flush_all};

/// Writes events, one after the other.
fn write_events<W: Sink>(sink: &mut W, end: u64, events: &[Event]) -> Result<(), WriteFault>
    ensures ok { OnOk result (Appends (W.written sink.old) (W.written sink.new) (spec.events_text end events.now)) }
    ensures err { OnErr result
        (AppendsFront (W.written sink.old) (W.written sink.new) (spec.events_text end events.now)) }
    ensures grown { W.troubles sink.old ≤ W.troubles sink.new }
    ensures fault { OnErr result (Rises (W.troubles sink.old) (W.troubles sink.new)) }
{
    for event in events {
        write_event(sink, end, event)?;
    }
    Ok(())
}

/// Writes the events of a history of so many entries, and flushes. Takes no memory.
///
/// # Errors
/// `WriteFault` if the sink fails, also at the flush; a front of the text was written then.
pub fn write_trace<W: Sink>(sink: &mut W, end: u64, events: &[Event]) -> Result<(), WriteFault>
    ensures ok { OnOk result (Appends (W.written sink.old) (W.written sink.new) (spec.events_text end events.now)) }
    ensures err { OnErr result
        (AppendsFront (W.written sink.old) (W.written sink.new) (spec.events_text end events.now)) }
    ensures flushed { OnOk result (W.held sink.new ≡ 0) }
    ensures fault { OnErr result (Rises (W.troubles sink.old) (W.troubles sink.new)) }
{
    write_events(sink, end, events)?;
    flush_all(sink)?;
    Ok(())
}
