//! The word `run`.
ghost use Rattle.std.specs.Prelude.{◌≡◌, ◌≤◌, is_some, Result, None, Some, length, map, string_bytes, IfSome, IfOk};
ghost use Rattle.std.specs.Prelude.{IfErr, OnOk, IsErrOf};
ghost use Rattle.cmwq_io.specs.Counts.{Rises};
ghost use Rattle.cmwq_cmd_run.specs.declared.failure.Failure.{Failure as TheFailure};
ghost use Rattle.cmwq_cmd_run.specs.declared.run.Done.{Done as TheDone};
ghost use Rattle.cmwq_cmd_run.specs.declared.failure.Failure.TheVariants as failure;
ghost use Rattle.cmwq_cmd_run.specs.Run.{InputEnds, ScriptEnds, RunLeaves, FailsOn, IsBetween, IsNamed, done_status};
ghost use Rattle.cmwq_cmd_run.specs.Run.{run_status};
ghost use Rattle.cmwq_json.specs.declared.fault.Fault.TheVariants as fault;
ghost use Rattle.cmwq_json_script.specs.Scripts.{run_of, MayRun};

use crate::failure::{Failure, GateName, failure_status_of};
use crate::interpreter::Interpreter;
use crate::lock_fault::fault_of_locks;
use crate::refusals::RefusedWaits;
use cmwq_explain::explain_gate;
use cmwq_history::{tell_full, write_history};
use cmwq_io::{Sink, Source, tell};
use cmwq_json::{Fault, read_value};
use cmwq_json_script::{Script, read_script};
use cmwq_rt::LeftOut;
use cmwq_rt_scripts::{Report, Unwritten, Written, run_scripts_lending, run_scripts_with_journal};
use std::alloc::Global;
use std::sync::Wait;
use std::thread::Threads;
use std::time::Clock;

/// How a run ended whose history is written.
#[derive(Clone, Copy, Debug)]
pub struct Done {
    /// How many calls were left out for lack of room.
    pub full: u64,
    /// How many waits of runs were left out.
    pub left_out: LeftOut,
    /// What is told of those waits, if there are any: of those for want of room, or else of those that were refused.
    pub told: Option<RefusedWaits>,
}

/// The first gate, in the order of their first use, that a run passed after it had looked at it in vain.
fn missed_gate<R: Wait>(rt: &R, interpreter: &Interpreter, gates: &[String]) -> Option<GateName>
    requires { length gates.now ≤ 16 }
    ensures { IfSome result (λ name. IsNamed (map string_bytes gates.now) name.bytes) }
{
    for (number, name) in gates.iter().enumerate() {
        if interpreter.was_missed(rt, number as u8) {
            return GateName::from(name.as_str()).ok();
        }
    }
    None
}

/// What went wrong between the callers and the items of a run that has ended, where so many calls were left out: a gate
/// that was not opened, or else a fault of a lock.
fn fault_between<R: Wait>(
    rt: &R,
    script: &Script,
    interpreter: &Interpreter,
    left_out: u64,
) -> Option<Failure>
    requires gates { length script.now.gates.items ≤ 16 }
    requires locks { length script.now.locks.items ≤ 16 }
    ensures { IfSome result (IsBetween (run_of script.now) left_out) }
{
    if let Some(name) = missed_gate(rt, interpreter, &script.gates) {
        return Some(Failure::Gate { name, left_out });
    }
    let fault = fault_of_locks(rt, &interpreter.locks, script)?;
    Some(Failure::Lock(fault))
}

/// Runs a script on threads.
fn run_script<R: Threads + Wait + Sync>(
    rt: &R,
    alloc: Global,
    script: &Script,
    interpreter: &Interpreter,
) -> Result<Report, Failure>
    requires may { MayRun script.now }
    requires plays { interpreter.now.does.now ≡ script.now.does.items }
    requires calls { interpreter.now.callers.now ≡ script.now.callers.items }
    ensures leaves { IfOk result (λ r. RunLeaves (run_of script.now) r.full r.left_out r.history.items) }
    ensures failed { IfErr result (λ f. FailsOn (run_of script.now) f) }
{
    let shape = &script.shape;
    let report = match run_scripts_lending(
        rt,
        alloc,
        shape,
        &*interpreter,
        script.waits,
        &*interpreter,
    ) {
        Ok(report) => report,
        Err(fault) => return Err(Failure::from(fault)),
    };
    match fault_between(rt, script, interpreter, report.full) {
        Some(failure) => Err(failure),
        None => Ok(report),
    }
}

/// Runs a script on threads, and then writes the history that it left.
fn run_and_write<O: Sink, R: Threads + Wait + Sync>(
    rt: &R,
    alloc: Global,
    script: &Script,
    output: &mut O,
) -> Result<Done, Failure>
    requires may { MayRun script.now }
    requires unjournaled { script.now.journal ≡ None }
    ensures ends { ScriptEnds (run_of script.now) (O.written output.old) (O.written output.new) result }
    ensures flushed { OnOk result (O.held output.new ≡ 0) }
    ensures read_fault { IsErrOf result (failure.Input fault.ReadFault) → ⊥ }
    ensures write_fault { IsErrOf result (failure.Input fault.WriteFault)
        → Rises (O.troubles output.old) (O.troubles output.new) }
{
    let interpreter = Interpreter::new(&script.does, &script.callers);
    let report = match run_script(rt, alloc, script, &interpreter) {
        Ok(report) => report,
        Err(failure) => return Err(failure),
    };
    match write_history(output, script.version, &script.shape, &report.history) {
        Ok(()) => Ok(Done {
            full: report.full,
            left_out: report.left_out,
            told: interpreter.told(rt, &script.names, report.left_out),
        }),
        Err(_) => Err(Failure::Input(Fault::WriteFault)),
    }
}

/// Runs a script on threads, and writes the history while it is made.
fn run_with_journal<O: Sink, R: Threads + Wait + Clock + Sync>(
    rt: &R,
    alloc: Global,
    script: &Script,
    kept: u32,
    output: &mut O,
) -> Result<Done, Failure>
    requires may { MayRun script.now }
    requires journaled { script.now.journal ≡ Some kept }
    ensures ends { ScriptEnds (run_of script.now) (O.written output.old) (O.written output.new) result }
    ensures flushed { OnOk result (O.held output.new ≡ 0) }
    ensures read_fault { IsErrOf result (failure.Input fault.ReadFault) → ⊥ }
    ensures write_fault { IsErrOf result (failure.Input fault.WriteFault)
        → Rises (O.troubles output.old) (O.troubles output.new) }
{
    let interpreter = Interpreter::new(&script.does, &script.callers);
    let Written { full, left_out, .. } = match run_scripts_with_journal(
        rt,
        alloc,
        &script.shape,
        &interpreter,
        script.waits,
        &interpreter,
        kept,
        output,
    ) {
        Ok(written) => written,
        Err(Unwritten::Sink) => return Err(Failure::Input(Fault::WriteFault)),
        Err(Unwritten::Run(fault)) => return Err(Failure::from(fault)),
    };
    match fault_between(rt, script, &interpreter, full) {
        Some(failure) => Err(failure),
        None => Ok(Done {
            full,
            left_out,
            told: interpreter.told(rt, &script.names, left_out),
        }),
    }
}

/// Runs a script as it says.
fn run_as_said<O: Sink, R: Threads + Wait + Clock + Sync>(
    rt: &R,
    alloc: Global,
    script: &Script,
    output: &mut O,
) -> Result<Done, Failure>
    requires { MayRun script.now }
    ensures ends { ScriptEnds (run_of script.now) (O.written output.old) (O.written output.new) result }
    ensures flushed { OnOk result (O.held output.new ≡ 0) }
    ensures read_fault { IsErrOf result (failure.Input fault.ReadFault) → ⊥ }
    ensures write_fault { IsErrOf result (failure.Input fault.WriteFault)
        → Rises (O.troubles output.old) (O.troubles output.new) }
{
    match script.journal {
        Some(kept) => run_with_journal(rt, alloc, script, kept, output),
        None => run_and_write(rt, alloc, script, output),
    }
}

/// Reads a script, runs it on threads, and writes the history that it leaves.
fn run<S: Source, O: Sink, R: Threads + Wait + Clock + Sync>(
    rt: &R,
    alloc: Global,
    input: &mut S,
    output: &mut O,
) -> Result<Done, Failure>
    ensures ends { IfSome (S.left input.old)
        (λ text. InputEnds text (O.written output.old) (O.written output.new) result) }
    ensures flushed { OnOk result (O.held output.new ≡ 0) }
    ensures read_fault { IsErrOf result (failure.Input fault.ReadFault)
        → Rises (S.troubles input.old) (S.troubles input.new) }
    ensures write_fault { IsErrOf result (failure.Input fault.WriteFault)
        → Rises (O.troubles output.old) (O.troubles output.new) }
{
    let value = read_value(alloc, input)?;
    match read_script(alloc, &value)? {
        Ok(script) => run_as_said(rt, alloc, &script, output),
        Err(refused) => Err(Failure::Input(Fault::Member(refused))),
    }
}

/// Reads all of a script in JSON, runs it on threads, and writes the history that it leaves with its shape, and nothing
/// else: when the run is over, or with a journal as it is made. What went wrong is told on `errors`, whose own failing
/// changes nothing: the first of a fault of the hub, a gate that was not opened, a fault of a lock, calls left out for
/// want of room, and waits of items that were refused. Answers the exit status: 0 done, 1 refused input, a gate or a
/// lock, 4 no memory, or calls left out, 5 a fault of reading, writing or running, 6 waits that were refused. At calls
/// left out and at refused waits the history is written all the same; at a fault of writing a front of it is; at all
/// else nothing is. With a journal the history is whole at a gate and at a lock too, and at want of memory and at a
/// fault of the hub or of writing a front of a legal history is written. Where it is to explain, of a gate it is told
/// too how many calls were left out for lack of room, if any were.
pub fn run_run<S: Source, O: Sink, E: Sink, R: Threads + Wait + Clock + Sync>(
    rt: &R,
    alloc: Global,
    input: &mut S,
    output: &mut O,
    errors: &mut E,
    explain: bool,
) -> u8
    ensures ends { (ended : Result TheDone TheFailure)
        × (result ≡ run_status ended)
        × IfSome (S.left input.old) (λ text. InputEnds text (O.written output.old) (O.written output.new) ended)
        × OnOk ended (O.held output.new ≡ 0)
        × (IsErrOf ended (failure.Input fault.ReadFault) → Rises (S.troubles input.old) (S.troubles input.new))
        × (IsErrOf ended (failure.Input fault.WriteFault) → Rises (O.troubles output.old) (O.troubles output.new)) }
{
    let ended = run(rt, alloc, input, output);
    match &ended {
        Ok(done) => tell_done(done, errors),
        Err(failure) => tell(errors, *failure),
    }
    if explain {
        tell_more(&ended, errors);
    }
    status(&ended)
}

/// Tells what was left out of a history: calls for want of room, or else waits for want of it, or else waits that were
/// refused.
fn tell_done<E: Sink>(done: &Done, errors: &mut E) {
    match (done.full, done.told) {
        (0, None) => {}
        (0, Some(waits)) => tell(errors, waits),
        (left_out, _) => tell_full(errors, left_out),
    }
}

/// Tells more of a run that ended so, where more is known than its input says.
fn tell_more<E: Sink>(ended: &Result<Done, Failure>, errors: &mut E) {
    if let Err(Failure::Gate { name, left_out }) = ended {
        explain_gate(name.as_str(), *left_out, errors);
    }
}

/// The exit status of a run that ended so.
fn status(ended: &Result<Done, Failure>) -> u8
    ensures { result ≡ run_status ended.now }
{
    match ended {
        Ok(done) => status_of(done),
        Err(failure) => failure_status_of(*failure),
    }
}

/// 0 where no call and no wait was left out, 4 where some had no room, and 6 where some waits were refused.
fn status_of(done: &Done) -> u8
    ensures { result ≡ done_status done.now }
{
    let left_out = done.left_out;
    match (done.full, left_out.without_room, left_out.refused) {
        (0, 0, 0) => 0,
        (0, 0, _) => 6,
        _ => 4,
    }
}
