//! What is written of a legal history.

ghost use Rattle.std.specs.Prelude.{◌≡◌, Option, Result, IfSome};
ghost use Rattle.cmwq_model.specs.declared.verdict.Illegal.{Illegal as TheIllegal};
ghost use Rattle.cmwq_base.specs.declared.refusal.Refusal.{Refusal as TheRefusal};
ghost use Rattle.cmwq_history.specs.Faults.{FaultsAreTrue};
ghost use Rattle.cmwq_history.specs.Verdicts.{check_status};
ghost use Rattle.cmwq_history.specs.Views.{FrontViewEnds, IsFlushed, ViewEnds};

use crate::fold::Fold;
use crate::following::Following;
use crate::told::{tell_illegal, tell_left_out};
use crate::verdict::check_status;
use cmwq_base::{Illegal, Refusal, Shape, Sink, Source, read_file, tell};
use cmwq_core::Judge;
use std::alloc::Global;

/// A text of a legal history, which is written of what is made while the history is read.
pub trait View<W: Sink> {
    ghost use Rattle.std.specs.Prelude.{◌≡◌, ◌≤◌, ℕ, List, OnOk, IsErrOf};
    ghost use Rattle.cmwq_io.specs.Counts.{Rises};
    ghost use Rattle.cmwq_model.specs.declared.entry.Entry.{Entry};
    ghost use Rattle.cmwq_base.specs.Files.{File};
    ghost use Rattle.cmwq_history.specs.Views.{IsMadeOf, WriteEnds, file_in};

    /// What is made of the history.
    type Made: Fold + Drop;

    /// The text of a legal history that was read.
    ghost text_of: { Self → File Entry → List ℕ };

    /// Writes the text of the history of which this was made, which a judge has seen, and flushes. All memory is taken
    /// before the first byte is written.
    ///
    /// # Errors
    /// `NoMemory`, and then nothing was written; or `WriteFault` if the sink fails, also at the flush, and then a front
    /// of the text was written.
    fn write(
        &self,
        alloc: Global,
        made: &Self::Made,
        shape: &Shape,
        judge: &Judge,
        version: u8,
        sink: &mut W,
    ) -> Result<(), Refusal>
        requires version { 1 ≤ version }
        requires made { IsMadeOf Self.Made.is_of shape.now judge.now made.now }
        ensures ends { WriteEnds (W.written sink.old) (W.written sink.new)
            (text_of self.now (file_in version judge.now)) result }
        ensures flushed { OnOk result (W.held sink.new ≡ 0) }
        ensures fault { IsErrOf result Refusal.WriteFault → Rises (W.troubles sink.old) (W.troubles sink.new) };
}

/// Reads a history, or of a front its whole lines, and writes its view if it is legal. How much of a front was left out
/// is told. Returns its first wrong entry, if there is one.
fn write_view<S: Source, O: Sink, E: Sink, V: View<O>>(
    alloc: Global,
    view: &V,
    input: &mut S,
    output: &mut O,
    errors: &mut E,
    is_front: bool,
) -> Result<Option<Illegal>, Refusal>
    ensures ends { IfSome (S.left input.old)
        (λ text. FrontViewEnds (V.text_of view.now) is_front text (O.written output.old) (O.written output.new)
        result) }
    ensures flushed { IsFlushed result (O.held output.new) }
    ensures faults { FaultsAreTrue result S.troubles input.old input.new O.troubles output.old output.new }
{
    let file = read_file::<Following<V::Made>, S>(alloc, input, is_front)?;
    match file.all.legal()? {
        Ok(legal) => {
            view.write(
                alloc,
                legal.made,
                legal.shape,
                legal.judge,
                file.version,
                output,
            )?;
            tell_left_out(errors, file.left_out);
            Ok(None)
        }
        Err(illegal) => {
            tell_left_out(errors, file.left_out);
            Ok(Some(illegal))
        }
    }
}

/// Reads all of a history of any format, and writes the view of a legal one, and nothing else. For an illegal one
/// nothing is written, and its verdict is told on `errors`, as the line that `run_check` writes. What went wrong is
/// told there too; that its own writes fail changes nothing. Returns the exit status: 0 written, 1 refused input, 3
/// illegal, 4 no memory, 5 a fault of reading or writing. At a fault of writing a front of the view is written, and at
/// each other status but 0 nothing.
pub fn run_view<S: Source, O: Sink, E: Sink, V: View<O>>(
    alloc: Global,
    view: &V,
    input: &mut S,
    output: &mut O,
    errors: &mut E,
) -> u8
    ensures ends { (ended : Result (Option TheIllegal) TheRefusal)
        × (result ≡ check_status ended)
        × IfSome (S.left input.old)
        (λ text. ViewEnds (V.text_of view.now) text (O.written output.old) (O.written output.new) ended)
        × IsFlushed ended (O.held output.new)
        × FaultsAreTrue ended S.troubles input.old input.new O.troubles output.old output.new }
{
    run_front_view(alloc, view, input, output, errors, false)
}

/// As `run_view`, but where `is_front` says so of a history of which a front was written, as `run_front_check` reads
/// it. How many bytes of an unfinished last line were left out, if any were, is told on `errors`, after the view or
/// before the verdict.
pub fn run_front_view<S: Source, O: Sink, E: Sink, V: View<O>>(
    alloc: Global,
    view: &V,
    input: &mut S,
    output: &mut O,
    errors: &mut E,
    is_front: bool,
) -> u8
    ensures ends { (ended : Result (Option TheIllegal) TheRefusal)
        × (result ≡ check_status ended)
        × IfSome (S.left input.old)
        (λ text. FrontViewEnds (V.text_of view.now) is_front text (O.written output.old) (O.written output.new) ended)
        × IsFlushed ended (O.held output.new)
        × FaultsAreTrue ended S.troubles input.old input.new O.troubles output.old output.new }
{
    let ended = write_view(alloc, view, input, output, errors, is_front);
    match ended {
        Ok(None) => {}
        Ok(Some(illegal)) => tell_illegal(errors, illegal),
        Err(refusal) => tell(errors, refusal),
    }
    check_status(&ended)
}
