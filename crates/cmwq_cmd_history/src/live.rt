//! The word `step`, live: each call is answered before the next line is read.

ghost use Rattle.std.specs.Prelude.{◌≡◌, ◌≤◌, ◌⊎◌, ℕ, Option, Result, MatchBool, IfSome, IfOk, IfErr, OnOk, OnErr};
ghost use Rattle.std.specs.Prelude.{IsErrOf};
ghost use Rattle.std.specs.Io.KnownBytes.{Appends};
ghost use Rattle.cmwq_io.specs.Counts.{Rises};
ghost use Rattle.cmwq_io.specs.Moves.{AppendsFront};
ghost use Rattle.cmwq_base.specs.declared.refusal.Refusal.{Refusal as TheRefusal};
ghost use Rattle.cmwq_base.specs.Stages.{stage_of};
ghost use Rattle.cmwq_history.specs.Faults.{FaultsAreTrue};
ghost use Rattle.cmwq_cmd_history.specs.Live.{LiveEnds, live_status, left_out_by, new_of, missing_head, rest_text};
ghost use Rattle.cmwq_cmd_history.specs.Live.{made_text, first_text, new_text};

use crate::stepping::Stepping;
use cmwq_base::{
    Entry, Gather, Refusal, Sink, Source, Stage, TOO_MANY_LINES, flush_all, tell, write_end,
    write_entry, write_shape,
};
use cmwq_history::{refusal_status, tell_no_room};
use cmwq_io::{Found, Line, Lines};
use std::alloc::Global;
use std::mem::{drop, replace};

fn write_first<O: Sink>(output: &mut O, version: u8, calls: &Stepping) -> Result<(), Refusal>
    requires { 2 ≤ version }
    ensures ok { OnOk result
        (Appends (O.written output.old) (O.written output.new) (first_text version calls.now.layout calls.now.calls)) }
    ensures err { OnErr result
        (AppendsFront (O.written output.old) (O.written output.new)
        (first_text version calls.now.layout calls.now.calls)) }
    ensures only { IfErr result (λ e. e ≡ Refusal.WriteFault) }
    ensures grown { O.troubles output.old ≤ O.troubles output.new }
    ensures fault { OnErr result (Rises (O.troubles output.old) (O.troubles output.new)) }
{
    if calls.len() == 1 {
        write_shape(output, version, calls.shape())
    } else {
        Ok(())
    }
}

fn write_made<O: Sink>(output: &mut O, made: Option<Entry>) -> Result<(), Refusal>
    ensures ok { OnOk result (Appends (O.written output.old) (O.written output.new) (made_text made)) }
    ensures err { OnErr result (AppendsFront (O.written output.old) (O.written output.new) (made_text made)) }
    ensures only { IfErr result (λ e. e ≡ Refusal.WriteFault) }
    ensures grown { O.troubles output.old ≤ O.troubles output.new }
    ensures fault { OnErr result (Rises (O.troubles output.old) (O.troubles output.new)) }
{
    match made {
        Some(entry) => write_entry(output, &entry),
        None => Ok(()),
    }
}

/// Writes the entry of the last call, if it had room, and before the first call's the head; and flushes.
fn write_new<O: Sink>(output: &mut O, version: u8, calls: &Stepping) -> Result<(), Refusal>
    requires { 2 ≤ version }
    ensures ok { OnOk result
        (Appends (O.written output.old) (O.written output.new) (new_text version calls.now.layout calls.now.calls)) }
    ensures err { OnErr result
        (AppendsFront (O.written output.old) (O.written output.new)
        (new_text version calls.now.layout calls.now.calls)) }
    ensures flushed { OnOk result (O.held output.new ≡ 0) }
    ensures only { IfErr result (λ e. e ≡ Refusal.WriteFault) }
    ensures grown { O.troubles output.old ≤ O.troubles output.new }
    ensures fault { OnErr result (Rises (O.troubles output.old) (O.troubles output.new)) }
{
    write_first(output, version, calls)?;
    write_made(output, calls.made())?;
    flush_all(output)?;
    Ok(())
}

/// Answers the call of the line that was read last, if it is one. False where there is no room for it: nothing is
/// written then.
fn answer<O: Sink>(output: &mut O, stage: &Stage<Stepping>) -> Result<bool, Refusal>
    ensures answered { IfOk result
        (λ has_room. MatchBool has_room (left_out_by (stage_of (λ s. s.layout) (λ s. s.calls) stage.now) ≡ 0)
        (1 ≤ left_out_by (stage_of (λ s. s.layout) (λ s. s.calls) stage.now))) }
    ensures written { IfOk result
        (λ has_room.
        MatchBool has_room
        (Appends (O.written output.old) (O.written output.new)
        (new_of (stage_of (λ s. s.layout) (λ s. s.calls) stage.now))) (output.new ≡ output.old)) }
    ensures err { OnErr result
        (AppendsFront (O.written output.old) (O.written output.new)
        (new_of (stage_of (λ s. s.layout) (λ s. s.calls) stage.now))) }
    ensures flushed { OnOk result ((O.held output.new ≡ 0) ⊎ (output.new ≡ output.old)) }
    ensures only { IfErr result (λ e. e ≡ Refusal.WriteFault) }
    ensures grown { O.troubles output.old ≤ O.troubles output.new }
    ensures fault { OnErr result (Rises (O.troubles output.old) (O.troubles output.new)) }
{
    match stage {
        Stage::Body { version, all } => {
            if all.left_out() > 0 {
                return Ok(false);
            }
            write_new(output, (*version).max(2), all)?;
            Ok(true)
        }
        Stage::Begin | Stage::Opened { .. } | Stage::Head { .. } | Stage::Ended { .. } => Ok(true),
    }
}

/// Writes the head where no call has.
fn write_missing_head<O: Sink>(output: &mut O, version: u8, calls: &Stepping) -> Result<(), Refusal>
    requires { 2 ≤ version }
    ensures ok { OnOk result
        (Appends (O.written output.old) (O.written output.new)
        (missing_head version calls.now.layout calls.now.calls)) }
    ensures err { OnErr result
        (AppendsFront (O.written output.old) (O.written output.new)
        (missing_head version calls.now.layout calls.now.calls)) }
    ensures only { IfErr result (λ e. e ≡ Refusal.WriteFault) }
    ensures grown { O.troubles output.old ≤ O.troubles output.new }
    ensures fault { OnErr result (Rises (O.troubles output.old) (O.troubles output.new)) }
{
    if calls.len() == 0 {
        write_shape(output, version, calls.shape())
    } else {
        Ok(())
    }
}

/// Writes what stands after the entries, and where there was no call the head before it; and flushes.
fn write_rest<O: Sink>(output: &mut O, version: u8, calls: &Stepping) -> Result<(), Refusal>
    requires { 2 ≤ version }
    ensures ok { OnOk result
        (Appends (O.written output.old) (O.written output.new) (rest_text version calls.now.layout calls.now.calls)) }
    ensures err { OnErr result
        (AppendsFront (O.written output.old) (O.written output.new)
        (rest_text version calls.now.layout calls.now.calls)) }
    ensures flushed { OnOk result (O.held output.new ≡ 0) }
    ensures only { IfErr result (λ e. e ≡ Refusal.WriteFault) }
    ensures fault { OnErr result (Rises (O.troubles output.old) (O.troubles output.new)) }
{
    write_missing_head(output, version, calls)?;
    write_end(output, version, calls.entries())?;
    flush_all(output)?;
    Ok(())
}

/// Reads a file of calls line by line, and answers each call before it reads the next line. Answers the number of the
/// line of the first call for which there was no room: it ends there.
fn live<S: Source, O: Sink>(
    alloc: Global,
    input: &mut S,
    output: &mut O,
) -> Result<Option<u64>, Refusal>
    ensures ends { IfSome (S.left input.old)
        (λ text. LiveEnds text (O.written output.old) (O.written output.new) result) }
    ensures flushed { OnOk result ((O.held output.new ≡ 0) ⊎ (output.new ≡ output.old)) }
    ensures faults { FaultsAreTrue result S.troubles input.old input.new O.troubles output.old output.new }
{
    let mut stage = Stage::Begin;
    let ended = answer_lines(alloc, input, output, &mut stage);
    drop(stage);
    ended
}

/// The same from the first stage on, which stays the caller's, so that it is let go at one place, however this ends.
fn answer_lines<S: Source, O: Sink>(
    alloc: Global,
    input: &mut S,
    output: &mut O,
    stage: &mut Stage<Stepping>,
) -> Result<Option<u64>, Refusal>
    requires { stage.old ≡ Stage.Begin }
    ensures ends { IfSome (S.left input.old)
        (λ text. LiveEnds text (O.written output.old) (O.written output.new) result) }
    ensures flushed { OnOk result ((O.held output.new ≡ 0) ⊎ (output.new ≡ output.old)) }
    ensures read_fault { IsErrOf result Refusal.ReadFault → Rises (S.troubles input.old) (S.troubles input.new) }
    ensures write_fault { IsErrOf result Refusal.WriteFault → Rises (O.troubles output.old) (O.troubles output.new) }
{
    let mut lines = Lines::new(alloc)?;
    let mut line = Line::new();
    for number in 1..=TOO_MANY_LINES {
        match lines.next_line(input, &mut line)? {
            Found::Whole => {
                let now = replace(stage, Stage::Begin).take(alloc, number, line.as_slice())?;
                drop(replace(stage, now));
                if !answer(output, stage)? {
                    return Ok(Some(number));
                }
            }
            Found::Long => return Err(Refusal::TooLong),
            Found::Cut => return Err(stage.cut(number)),
            Found::End => {
                let file = replace(stage, Stage::Begin).finish(alloc, number, false, 0)?;
                let written = write_rest(output, file.version.max(2), &file.all);
                drop(file);
                written?;
                return Ok(None);
            }
        }
    }
    Err(Refusal::TooLong)
}

/// Reads a file of calls, and writes the history that they make with its shape as `run_step` does, but each entry
/// before the next line is read, and flushed: so a program on the other side of a pipe may wait for an answer to each
/// call. The head comes with the first call, as more queues may come before it. At the first call for which there is no
/// room it ends, and tells the number of its line on `errors`, as it tells what else went wrong; that its own writes
/// fail changes nothing. Answers the exit status: 0 done, 1 refused input, 4 no memory, or a call without room, 5 a
/// fault of reading or writing. All calls before a refused line, a call without room or another fault have been
/// answered, but for a fault of writing, where a front of these answers has been written.
pub fn run_step_live<S: Source, O: Sink, E: Sink>(
    alloc: Global,
    input: &mut S,
    output: &mut O,
    errors: &mut E,
) -> u8
    ensures ends { (ended : Result (Option ℕ) TheRefusal)
        × (result ≡ live_status ended)
        × IfSome (S.left input.old) (λ text. LiveEnds text (O.written output.old) (O.written output.new) ended)
        × OnOk ended ((O.held output.new ≡ 0) ⊎ (output.new ≡ output.old))
        × FaultsAreTrue ended S.troubles input.old input.new O.troubles output.old output.new }
{
    let ended = live(alloc, input, output);
    match ended {
        Ok(None) => {}
        Ok(Some(number)) => tell_no_room(errors, number),
        Err(refusal) => tell(errors, refusal),
    }
    status(&ended)
}

/// The exit status of a run that ended so.
fn status(ended: &Result<Option<u64>, Refusal>) -> u8
    ensures { result ≡ live_status ended.now }
{
    match ended {
        Ok(None) => 0,
        Ok(Some(_)) => 4,
        Err(refusal) => refusal_status(*refusal),
    }
}
