//! The verdict of a history, as a line and as an exit status.

ghost use Rattle.std.specs.Prelude.{◌≡◌, OnOk, OnErr, IfErr};
ghost use Rattle.std.specs.Io.KnownBytes.{Appends};
ghost use Rattle.cmwq_io.specs.Counts.{Rises};
ghost use Rattle.cmwq_io.specs.Moves.{AppendsFront};
ghost use Rattle.cmwq_history.specs.Verdicts.{check_status, verdict_line_text};

use crate::told::refusal_status;
use cmwq_base::{Illegal, Refusal, Sink, flush_all, write_all};
use cmwq_text::{LineText, illegal_line, legal_line};

fn verdict_line(entries: u64, illegal: Option<Illegal>) -> LineText
    ensures { result ≡ verdict_line_text entries illegal }
{
    match illegal {
        None => legal_line(entries),
        Some(illegal) => illegal_line(&illegal),
    }
}

/// Writes the verdict of a history with this many entries, and flushes. Takes no memory.
///
/// # Errors
/// `WriteFault` where the sink fails, also at the flush; a front of the line has been written then.
pub(crate) fn write_verdict<W: Sink>(
    sink: &mut W,
    entries: u64,
    illegal: Option<Illegal>,
) -> Result<(), Refusal>
    ensures ok { OnOk result (Appends (W.written sink.old) (W.written sink.new) (verdict_line_text entries illegal)) }
    ensures err { OnErr result
        (AppendsFront (W.written sink.old) (W.written sink.new) (verdict_line_text entries illegal)) }
    ensures flushed { OnOk result (W.held sink.new ≡ 0) }
    ensures only { IfErr result (λ e. e ≡ Refusal.WriteFault) }
    ensures fault { OnErr result (Rises (W.troubles sink.old) (W.troubles sink.new)) }
{
    write_all(sink, verdict_line(entries, illegal).as_bytes())?;
    flush_all(sink)?;
    Ok(())
}

/// The exit status of a run that ended so.
pub fn check_status(ended: &Result<Option<Illegal>, Refusal>) -> u8
    ensures { result ≡ check_status ended.now }
{
    match ended {
        Ok(None) => 0,
        Ok(Some(_)) => 3,
        Err(refusal) => refusal_status(*refusal),
    }
}
