//! The word `step`.

ghost use Rattle.std.specs.Prelude.{◌≡◌, ℕ, Result, IfSome, OnOk};
ghost use Rattle.cmwq_base.specs.declared.refusal.Refusal.{Refusal as TheRefusal};
ghost use Rattle.cmwq_history.specs.Faults.{FaultsAreTrue};
ghost use Rattle.cmwq_cmd_history.specs.Step.{StepEnds, step_status};

use crate::recording::Recording;
use cmwq_base::{Gather, Refusal, Sink, Source, read_file, tell};
use cmwq_history::{refusal_status, tell_full, write_history};
use std::alloc::Global;

/// Reads a file of calls, and then writes the history that they make. Answers how many calls were left out for want of
/// room.
fn step<S: Source, O: Sink>(alloc: Global, input: &mut S, output: &mut O) -> Result<u64, Refusal>
    ensures ends { IfSome (S.left input.old)
        (λ text. StepEnds text (O.written output.old) (O.written output.new) result) }
    ensures flushed { OnOk result (O.held output.new ≡ 0) }
    ensures faults { FaultsAreTrue result S.troubles input.old input.new O.troubles output.old output.new }
{
    let file = read_file::<Recording, S>(alloc, input, false)?;
    let steps = file.all;
    write_history(output, file.version.max(2), steps.shape(), steps.history())?;
    Ok(steps.left_out())
}

/// Reads all of a file of calls, and then writes the history that they make with its shape, and nothing else: in format
/// 3 where the file is of that, and else in format 2. What went wrong is told on `errors`, whose own failing changes
/// nothing. Answers the exit status: 0 done, 1 refused input, 4 no memory, or calls left out for want of room, 5 a
/// fault of reading or writing. At 1, at want of memory and at a fault of reading nothing is written to `output`; at a
/// fault of writing a front of the text is.
pub fn run_step<S: Source, O: Sink, E: Sink>(
    alloc: Global,
    input: &mut S,
    output: &mut O,
    errors: &mut E,
) -> u8
    ensures ends { (ended : Result ℕ TheRefusal)
        × (result ≡ step_status ended)
        × IfSome (S.left input.old) (λ text. StepEnds text (O.written output.old) (O.written output.new) ended)
        × OnOk ended (O.held output.new ≡ 0)
        × FaultsAreTrue ended S.troubles input.old input.new O.troubles output.old output.new }
{
    let ended = step(alloc, input, output);
    match ended {
        Ok(0) => {}
        Ok(left_out) => tell_full(errors, left_out),
        Err(refusal) => tell(errors, refusal),
    }
    status(&ended)
}

/// The exit status of a run that ended so.
fn status(ended: &Result<u64, Refusal>) -> u8
    ensures { result ≡ step_status ended.now }
{
    match ended {
        Ok(0) => 0,
        Ok(_) => 4,
        Err(refusal) => refusal_status(*refusal),
    }
}
