//! Writes a text.

ghost use Rattle.std.specs.Prelude.{◌≡◌, OnOk, OnErr};
ghost use Rattle.std.specs.Io.KnownBytes.{Appends};
ghost use Rattle.cmwq_io.specs.Counts.{Rises};
ghost use Rattle.cmwq_io.specs.Moves.{AppendsFront};

use cmwq_io::{Sink, WriteFault, flush_all, write_all};

/// Writes a text, and flushes. Takes no memory.
///
/// # Errors
/// Where the sink fails, also at the flush; a front of the text has been written then.
pub fn write_text<W: Sink>(sink: &mut W, text: &str) -> Result<(), WriteFault>
    ensures ok { OnOk result (Appends (W.written sink.old) (W.written sink.new) text.now) }
    ensures err { OnErr result (AppendsFront (W.written sink.old) (W.written sink.new) text.now) }
    ensures flushed { OnOk result (W.held sink.new ≡ 0) }
    ensures fault { OnErr result (Rises (W.troubles sink.old) (W.troubles sink.new)) }
{
    write_all(sink, text.as_bytes())?;
    flush_all(sink)?;
    Ok(())
}
