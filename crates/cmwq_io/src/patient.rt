//! Reads, writes and flushes that are tried again when they are interrupted.
ghost use Rattle.std.specs.Prelude.{◌≡◌, ◌+◌, ◌<◌, ◌≤◌, length, OnOk, OnErr};
ghost use Rattle.std.specs.Io.{ReadsAtMost};
ghost use Rattle.std.specs.Io.KnownBytes.{ReadConsumes, Appends, WriteAppends, Keeps};
ghost use Rattle.cmwq_io.specs.Counts.{Rises, Tries};
ghost use Rattle.cmwq_io.specs.Outcomes.{EndsAtFault};
ghost use Rattle.cmwq_io.specs.Moves.{TakesPart, AppendsFront};

use crate::sink::Sink;
use crate::source::Source;
use crate::trouble::{ReadFault, Trouble, WriteFault};

/// How many times in a row an interrupted call is made again.
const RETRIES: u32 = 1_000;

/// Reads once, as `Source::read`. A call that is interrupted is made again at most 1,000 times; the 1,001st
/// interruption in a row is the fault. On `Err` nothing was read.
pub fn read_some<S: Source>(source: &mut S, buf: &mut [u8]) -> Result<usize, ReadFault>
    requires { 0 < length buf.old }
    ensures bound { ReadsAtMost result buf.new }
    ensures bytes { ReadConsumes (S.left source.old) (S.left source.new) result buf.new }
    ensures count { Tries (S.troubles source.old) (S.troubles source.new) result }
    ensures calls { EndsAtFault (S.outcomes source.old) (S.outcomes source.new) result }
{
    for _read in 0..=RETRIES {
        match source.read(buf) {
            Ok(count) => return Ok(count),
            Err(Trouble::Interrupted) => {}
            Err(Trouble::Failed) => return Err(ReadFault),
        }
    }
    Err(ReadFault)
}

/// Writes once, as `Sink::write`, and tries again as `read_some` does. On `Err` nothing was written.
fn write_some<W: Sink>(sink: &mut W, bytes: &[u8]) -> Result<usize, WriteFault>
    requires { 0 < length bytes.now }
    ensures bound { TakesPart result bytes.now }
    ensures bytes { WriteAppends (W.written sink.old) (W.written sink.new) result bytes.now }
    ensures count { Tries (W.troubles sink.old) (W.troubles sink.new) result }
    ensures calls { EndsAtFault (W.outcomes sink.old) (W.outcomes sink.new) result }
{
    for _write in 0..=RETRIES {
        match sink.write(bytes) {
            Ok(count) => return Ok(count),
            Err(Trouble::Interrupted) => {}
            Err(Trouble::Failed) => return Err(WriteFault),
        }
    }
    Err(WriteFault)
}

/// Writes all of `bytes`. Each call that is interrupted is made again at most 1,000 times; the 1,001st
/// interruption in a row is the fault. On `Err` a front of the bytes has been written.
#[tactic(auto, using(crate::proofs::Calls::none_made))]
pub fn write_all<W: Sink>(sink: &mut W, bytes: &[u8]) -> Result<(), WriteFault>
    ensures ok { OnOk result (Appends (W.written sink.old) (W.written sink.new) bytes.now) }
    ensures err { OnErr result (AppendsFront (W.written sink.old) (W.written sink.new) bytes.now) }
    ensures grown { W.troubles sink.old ≤ W.troubles sink.new }
    ensures fault { OnErr result (Rises (W.troubles sink.old) (W.troubles sink.new)) }
    ensures calls { EndsAtFault (W.outcomes sink.old) (W.outcomes sink.new) result }
{
    let mut done = 0;
    while done < bytes.len() {
        done += write_some(sink, &bytes[done..])?;
    }
    Ok(())
}

/// Flushes, as `Sink::flush`, and tries again as `write_all` does.
pub fn flush_all<W: Sink>(sink: &mut W) -> Result<(), WriteFault>
    ensures bytes { Keeps (W.written sink.old) (W.written sink.new) }
    ensures empty { OnOk result (W.held sink.new ≡ 0) }
    ensures count { Tries (W.troubles sink.old) (W.troubles sink.new) result }
    ensures calls { EndsAtFault (W.outcomes sink.old) (W.outcomes sink.new) result }
{
    for _flush in 0..=RETRIES {
        match sink.flush() {
            Ok(()) => return Ok(()),
            Err(Trouble::Interrupted) => {}
            Err(Trouble::Failed) => return Err(WriteFault),
        }
    }
    Err(WriteFault)
}
