//! The word `check`.

ghost use Rattle.std.specs.Prelude.{◌≡◌, true, Option, Result, IfSome, OnOk};
ghost use Rattle.cmwq_model.specs.declared.verdict.Illegal.{Illegal as TheIllegal};
ghost use Rattle.cmwq_base.specs.declared.refusal.Refusal.{Refusal as TheRefusal};
ghost use Rattle.cmwq_history.specs.Verdicts.{check_status};
ghost use Rattle.cmwq_history.specs.Check.{CheckEnds, FrontEnds};
ghost use Rattle.cmwq_history.specs.Faults.{FaultsAreTrue};

use crate::fold::Nothing;
use crate::following::Following;
use crate::told::tell_left_out;
use crate::verdict::{check_status, write_verdict};
use cmwq_base::{Illegal, Refusal, Sink, Source, read_file, tell};
use std::alloc::Global;

/// Judges a history while it is read, and then writes its verdict. Keeps no entry. Where `is_front` says that more was
/// to be written after what is there, a rest without a line feed is left out, and the last line of the format may be
/// missing; else these are refused. How much was left out is told. Answers its first entry that is wrong, if one is.
fn judge<S: Source, O: Sink, E: Sink>(
    alloc: Global,
    input: &mut S,
    output: &mut O,
    errors: &mut E,
    is_front: bool,
) -> Result<Option<Illegal>, Refusal>
    ensures ends { IfSome (S.left input.old)
        (λ text. FrontEnds is_front text (O.written output.old) (O.written output.new) result) }
    ensures flushed { OnOk result (O.held output.new ≡ 0) }
    ensures faults { FaultsAreTrue result S.troubles input.old input.new O.troubles output.old output.new }
{
    let file = read_file::<Following<Nothing>, S>(alloc, input, is_front)?;
    let verdict = file.all.verdict()?;
    write_verdict(output, file.all.entries(), verdict)?;
    tell_left_out(errors, file.left_out);
    Ok(verdict)
}

/// Reads all of a history, and then writes its verdict, and nothing else: `legal <entries>`, or the first entry that
/// isn't the one that its call gets at that point, as `illegal at <position>: serial <serial>` or, where the serial is
/// right, `illegal at <position>: reply <reply>`, with what should stand there. What went wrong is told on `errors`,
/// whose own failing changes nothing. Answers the exit status: 0 legal, 1 refused input, 3 illegal, 4 no memory, 5 a
/// fault of reading or writing. At 1, at want of memory and at a fault of reading nothing is written to `output`; at a
/// fault of writing a front of the line is.
pub fn run_check<S: Source, O: Sink, E: Sink>(
    alloc: Global,
    input: &mut S,
    output: &mut O,
    errors: &mut E,
) -> u8
    ensures ends { (ended : Result (Option TheIllegal) TheRefusal)
        × (result ≡ check_status ended)
        × IfSome (S.left input.old) (λ text. CheckEnds text (O.written output.old) (O.written output.new) ended)
        × OnOk ended (O.held output.new ≡ 0)
        × FaultsAreTrue ended S.troubles input.old input.new O.troubles output.old output.new }
{
    let ended = judge(alloc, input, output, errors, false);
    if let Err(refusal) = ended {
        tell(errors, refusal);
    }
    check_status(&ended)
}

/// As `run_check`, but of a history of which a front was written, as a process leaves it that died while it wrote: a
/// rest of at most 120 bytes without a line feed is left out, but after the last line, and the last line of the format
/// may be missing. The verdict is that of the whole lines that are there, and is written as `run_check` does: `legal
/// <entries>`, or the first entry that isn't the one that its call gets at that point, as `illegal at <position>:
/// serial <serial>` or, where the serial is right, `illegal at <position>: reply <reply>`, with what should stand
/// there. How many bytes were left out, if any were, and what went wrong is told on `errors`, whose own failing changes
/// nothing. Answers the exit status: 0 legal, 1 refused input, 3 illegal, 4 no memory, 5 a fault of reading or writing.
/// At 1, at want of memory and at a fault of reading nothing is written to `output`; at a fault of writing a front of
/// the line is.
pub fn run_front_check<S: Source, O: Sink, E: Sink>(
    alloc: Global,
    input: &mut S,
    output: &mut O,
    errors: &mut E,
) -> u8
    ensures ends { (ended : Result (Option TheIllegal) TheRefusal)
        × (result ≡ check_status ended)
        × IfSome (S.left input.old) (λ text. FrontEnds true text (O.written output.old) (O.written output.new) ended)
        × OnOk ended (O.held output.new ≡ 0)
        × FaultsAreTrue ended S.troubles input.old input.new O.troubles output.old output.new }
{
    let ended = judge(alloc, input, output, errors, true);
    if let Err(refusal) = ended {
        tell(errors, refusal);
    }
    check_status(&ended)
}
