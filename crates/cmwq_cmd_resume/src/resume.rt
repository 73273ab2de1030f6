//! The subcommand `resume`.

ghost use Rattle.std.specs.Prelude.{◌≡◌, Option, Result, IfErr, IfSome, OnOk, OnErr};
ghost use Rattle.std.specs.Io.KnownBytes.{Appends};
ghost use Rattle.cmwq_model.specs.declared.verdict.Illegal.{Illegal as TheIllegal};
ghost use Rattle.cmwq_io.specs.Counts.{Rises};
ghost use Rattle.cmwq_io.specs.Moves.{AppendsFront};
ghost use Rattle.cmwq_base.specs.declared.refusal.Refusal.{Refusal as TheRefusal};
ghost use Rattle.cmwq_history.specs.Faults.{FaultsAreTrue};
ghost use Rattle.cmwq_history.specs.Verdicts.{check_status};
ghost use Rattle.cmwq_history.specs.Views.{FrontViewEnds, IsFlushed};
ghost use Rattle.cmwq_resume.specs.Leavings.{is_again};
ghost use Rattle.cmwq_cmd_resume.specs.Resumed.{resumed_text};

use crate::spelling::spelled;
use crate::ticks::Ticks;
use crate::told::{tell_left, tell_left_out};
use cmwq_base::{Illegal, Refusal, Shape, Sink, Source, flush_all, read_file, tell, write_all};
use cmwq_core::Judge;
use cmwq_history::{Following, View, check_status, tell_illegal};
use cmwq_resume::resume_calls;
use std::alloc::Global;

fn write_text<W: Sink>(sink: &mut W, text: &[u8]) -> Result<(), Refusal>
    ensures ok { OnOk result (Appends (W.written sink.old) (W.written sink.new) text.now) }
    ensures err { OnErr result (AppendsFront (W.written sink.old) (W.written sink.new) text.now) }
    ensures flushed { OnOk result (W.held sink.new ≡ 0) }
    ensures only { IfErr result (λ e. e ≡ Refusal.WriteFault) }
    ensures fault { OnErr result (Rises (W.troubles sink.old) (W.troubles sink.new)) }
{
    write_all(sink, text)?;
    flush_all(sink)?;
    Ok(())
}

/// The calls that resume the history, but for the runs of the items whose flags are set.
#[derive(Clone, Copy)]
struct Resuming<'a> {
    left_out: &'a [bool],
}

impl<W: Sink> View<W> for Resuming<'_> {
    type Made = Ticks;

    ghost text_of = { λ view. resumed_text (is_again view.left_out.now) };

    fn write(
        &self,
        alloc: Global,
        _: &Ticks,
        shape: &Shape,
        judge: &Judge,
        version: u8,
        sink: &mut W,
    ) -> Result<(), Refusal> {
        let calls = resume_calls(alloc, shape, judge.state(), self.left_out)?;
        let text = spelled(alloc, version, shape, &calls)?;
        write_text(sink, &text)
    }
}

/// Reads a history, or of a front its whole lines, and writes the calls that resume it, if it is legal. Returns its
/// first wrong entry, if there is one.
fn resume<S: Source, O: Sink, E: Sink>(
    alloc: Global,
    input: &mut S,
    output: &mut O,
    errors: &mut E,
    is_front: bool,
    left_out: &[bool],
) -> Result<Option<Illegal>, Refusal>
    ensures ends { IfSome (S.left input.old)
        (λ text. FrontViewEnds (resumed_text (is_again left_out.now)) is_front text (O.written output.old)
        (O.written output.new) result) }
    ensures flushed { IsFlushed result (O.held output.new) }
    ensures faults { FaultsAreTrue result S.troubles input.old input.new O.troubles output.old output.new }
{
    let file = read_file::<Following<Ticks>, S>(alloc, input, is_front)?;
    match file.all.legal()? {
        Ok(legal) => {
            Resuming { left_out }.write(
                alloc,
                legal.made,
                legal.shape,
                legal.judge,
                file.version,
                output,
            )?;
            tell_left_out(errors, file.left_out);
            tell_left(errors, legal.shape, legal.judge.state(), left_out);
            Ok(None)
        }
        Err(illegal) => {
            tell_left_out(errors, file.left_out);
            Ok(Some(illegal))
        }
    }
}

/// Reads all of a history of any format, or where `is_front` says so of a history of which a front was written, as
/// `run_front_check` reads it, and writes the calls that resume it if it is legal, and nothing else: a file of calls of
/// the first caller, with the shape of the history, that `run_step` takes as it is. A run that was broken off is not
/// queued again if the flag of its item in `left_out` is set.
///
/// Of each run that was broken off it is told on `errors` what becomes of it, and of each wait that it is over. How
/// many bytes of an unfinished last line were left out is told there too, as is the verdict of an illegal history, and
/// what went wrong; that its own writes fail changes nothing. Returns the exit status: 0 written, 1 refused input, 3
/// illegal, 4 no memory, 5 a fault of reading or writing. At a fault of writing a front of the calls is written, and at
/// each other status but 0 nothing.
pub fn run_resume<S: Source, O: Sink, E: Sink>(
    alloc: Global,
    input: &mut S,
    output: &mut O,
    errors: &mut E,
    is_front: bool,
    left_out: &[bool],
) -> u8
    ensures ends { (ended : Result (Option TheIllegal) TheRefusal)
        × (result ≡ check_status ended)
        × IfSome (S.left input.old)
        (λ text. FrontViewEnds (resumed_text (is_again left_out.now)) is_front text (O.written output.old)
        (O.written output.new) ended)
        × IsFlushed ended (O.held output.new)
        × FaultsAreTrue ended S.troubles input.old input.new O.troubles output.old output.new }
{
    let ended = resume(alloc, input, output, errors, is_front, left_out);
    match ended {
        Ok(None) => {}
        Ok(Some(illegal)) => tell_illegal(errors, illegal),
        Err(refusal) => tell(errors, refusal),
    }
    check_status(&ended)
}
