//! Scripts, each followed by a thread of its own, beside a thread for each worker.
ghost use Rattle.std.specs.Prelude.{◌≡◌, ◌<◌, ◌≤◌, ◌^◌, length, map, None, All, IfOk, IfErr, OnOk, OnErr, IsErrOf};
ghost use Rattle.cmwq_io.specs.Counts.{Rises};
ghost use Rattle.cmwq_model.specs.Prelude.{past_of, IsLegal, IsScripted, most_callers};
ghost use Rattle.cmwq_monitor.specs.Held.{active_in};
ghost use Rattle.cmwq_monitor.specs.declared.fault.RunFault.TheVariants as faults;
ghost use Rattle.cmwq_engine.specs.Ended.{AllWorked, AreSilent};
ghost use Rattle.cmwq_rt_journal.specs.Kept.{WritesFront};
ghost use Rattle.cmwq_rt_journal.specs.declared.fault.Unwritten.TheVariants as unwritten;
ghost use Rattle.cmwq_rt_scripts.specs.Ended.{AllFollow, FailsAs, IsLeft};
ghost use Rattle.cmwq_rt_scripts.specs.Followed.{AreFit};
ghost use Rattle.cmwq_rt_scripts.specs.Journaled.{TellsOf, WritesAll};

use crate::crew::{CallLists, Scripts, ScriptsCrew};
use cmwq_engine::{Tally, run};
use cmwq_io::Sink;
use cmwq_model::{Call, Entry, Shape};
use cmwq_monitor::Rest;
use cmwq_rt::{HubParts, LeftOut, RunFault, Work};
use cmwq_rt_journal::{Unwritten, run_with_journal};
use std::alloc::Global;
use std::sync::Wait;
use std::thread::Threads;
use std::time::Clock;

/// The history of a run on threads, how many entries its callers and workers count as theirs, how many calls were left
/// out for want of room, and how many waits runs left out.
#[derive(Drop)]
pub struct Report {
    pub history: Vec<Entry>,
    pub answered: u64,
    pub full: u64,
    pub left_out: LeftOut,
}

/// Runs scripts on a new hub: a thread for each script, whose caller follows it, and one for each worker. When all
/// callers have ended, it closes the hub, and the workers go on until no active queueing is open. No run waits.
///
/// # Errors
/// The fault of a thread; `NoThread` if one cannot be made; `NoPlace` only if there are more scripts than
/// callers; `Unfinished` only if all callers have followed their scripts and an active queueing is open at the end;
/// `NoMemory`. All threads have ended then.
pub fn run_scripts<'x, W: Work + Sync, R: Threads + Wait + Sync>(
    rt: &'x R,
    alloc: Global,
    shape: &Shape,
    scripts: &'x [Vec<Call>],
    work: &'x W,
) -> Result<Report, RunFault>
    requires few { length scripts.now ≤ most_callers }
    requires calls { All (λ s. All (IsScripted shape.now) s.items × (length s.items < 2 ^ 32)) scripts.now }
    ensures legal { IfOk result (λ r. IsLegal shape.now (past_of r.history.items)) }
    ensures counted { IfOk result (λ r. r.answered ≡ length r.history.items) }
    ensures follow { IfOk result (λ r. AllFollow shape.now 0 (map (λ s. s.items) scripts.now) r.full r.history.items) }
    ensures worked { IfOk result (λ r. AllWorked shape.now (W.does work.now shape.now) r.left_out r.history.items) }
    ensures silent { IfOk result (λ r. AreSilent shape.now (length scripts.now) r.history.items) }
    ensures finished { IfOk result (λ r. active_in shape.now r.history.items ≡ 0) }
    ensures fails { IfErr result (λ f. FailsAs shape.now (map (λ s. s.items) scripts.now) 0 f) }
{
    let lists = CallLists { lists: scripts };
    run_scripts_lending(rt, alloc, shape, &lists, 0, work)
}

/// Runs scripts on a new hub, as `run_scripts` does. The callers after those of the scripts, so many, are lent to runs
/// that wait.
///
/// # Errors
/// Those of `run_scripts`; `NoPlace` also if there are too few callers to lend.
pub fn run_scripts_lending<'x, S: Scripts + Sync, W: Work + Sync, R: Threads + Wait + Sync>(
    rt: &'x R,
    alloc: Global,
    shape: &Shape,
    scripts: &'x S,
    lent: u8,
    work: &'x W,
) -> Result<Report, RunFault>
    requires fit { AreFit shape.now (S.scripts scripts.now) }
    ensures left { IfOk result
        (λ r. IsLeft shape.now (W.does work.now shape.now) (S.scripts scripts.now) lent r.full
        r.left_out r.history.items) }
    ensures counted { IfOk result (λ r. r.answered ≡ length r.history.items) }
    ensures fails { IfErr result (FailsAs shape.now (S.scripts scripts.now) lent) }
{
    // scripts never look, so it has no readers
    let parts = HubParts::keeping_all(rt, alloc, shape, 0)?;
    let crew = ScriptsCrew { scripts, lent };
    let (rest, outcome) = run(rt, alloc, parts, &crew, work);
    let Rest { first, entries } = rest;
    let tally = match outcome {
        Ok(tally) => tally,
        Err(fault) => return Err(fault),
    };
    // no journal took any
    if first != 0 {
        return Err(RunFault::Stranger {
            own: 0,
            book: first,
        });
    }
    Ok(Report {
        history: entries,
        answered: tally.answered,
        full: tally.full,
        left_out: tally.left_out,
    })
}

/// Runs scripts on a new hub, as `run_scripts_lending` does, and writes the history with its shape in format 3 while it
/// is made. It keeps so many entries at a time, or as many as one move may make if that is more, and flushes after
/// each batch, a tenth of a second after an entry at the latest. The calling thread keeps the journal, beside one
/// that runs those of callers and workers.
///
/// # Errors
/// `Sink` if the sink failed. `Run` with a fault of `run_scripts_lending`, after all threads have ended, or with
/// `NoMemory` or `NoThread` for the journal. A prefix of the text of a legal history is written then, with no last line
/// unless the sink failed after it.
pub fn run_scripts_with_journal<
    'x,
    S: Scripts + Sync,
    W: Work + Sync,
    R: Threads + Wait + Clock + Sync,
    O: Sink,
>(
    rt: &'x R,
    alloc: Global,
    shape: &Shape,
    scripts: &'x S,
    lent: u8,
    work: &'x W,
    kept: u32,
    output: &mut O,
) -> Result<Tally, Unwritten>
    requires fit { AreFit shape.now (S.scripts scripts.now) }
    ensures whole { IfOk result
        (λ w. WritesAll shape.now (W.does work.now shape.now) (S.scripts scripts.now) lent w.answered w.full
        w.left_out (O.written output.old) (O.written output.new)) }
    ensures flushed { OnOk result (O.held output.new ≡ 0) }
    ensures front { OnErr result (WritesFront shape.now (O.written output.old) (O.written output.new)) }
    ensures tells { IfErr result (TellsOf shape.now (S.scripts scripts.now) lent) }
    ensures sink { IsErrOf result unwritten.Sink → Rises (O.troubles output.old) (O.troubles output.new) }
{
    let crew = ScriptsCrew { scripts, lent };
    // scripts never look
    run_with_journal(rt, alloc, shape, 0, kept, &crew, work, output)
}
