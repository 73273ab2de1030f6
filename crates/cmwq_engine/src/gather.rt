//! Puts together what the threads gave back.
ghost use Rattle.std.specs.Prelude.{◌≡◌, ◌⊎◌, ℕ, ◌+◌, length, true, slice_get, Some, IfOk, IfErr, IfSome};
ghost use Rattle.cmwq_model.specs.declared.id.WorkerId as ids;
ghost use Rattle.cmwq_model.specs.declared.id.Who.TheVariants as whos;
ghost use Rattle.cmwq_monitor.specs.Held.{active_in};
ghost use Rattle.cmwq_monitor.specs.Participants.{View, newcomer};
ghost use Rattle.cmwq_monitor.specs.declared.fault.RunFault.TheVariants.{Unfinished};
ghost use Rattle.cmwq_rt.specs.Lent.{HasOnlyWaited};
ghost use Rattle.cmwq_rt.specs.Places.{shares};
ghost use Rattle.cmwq_rt.specs.Running.{breaks_off};
ghost use Rattle.cmwq_engine.specs.Conduct.{caller_numbered};
ghost use Rattle.cmwq_engine.specs.Ended.{AllCalled, AllWaited, AllWorked, AreNewcomers, AreSilent, CalledAt, CalledIn};
ghost use Rattle.cmwq_engine.specs.Ended.{HaveCalled, HaveRun, HaveWorked, IsUnfinished, WaitedIn, WorkedFrom};
ghost use Rattle.cmwq_engine.specs.Ended.{WorkedIn, is_silent, used};

use crate::crew::Crew;
use crate::ends::{CallerEnd, WorkerEnd};
use cmwq_monitor::Monitor;
use cmwq_rt::ending::{settle_caller, settle_worker, share_of_caller, share_of_worker};
use cmwq_rt::{Caller, HubName, LeftOut, LentCaller, RunFault, Work};
use std::sync::ledger::Share;

/// All threads, after they have ended, the callers that were lent, those that weren't used, and what no participant got
/// of the ledger.
#[derive(Drop)]
pub struct Ends<N: HubName> {
    pub callers: Vec<CallerEnd<N>>,
    pub workers: Vec<WorkerEnd<N>>,
    pub lent: Vec<LentCaller<N>>,
    pub idle: Vec<Caller<N>>,
    pub rest: Share<N>,
}

/// How many entries all callers and workers of a run count as theirs, how many calls were left out for want of room,
/// and how many waits runs left out.
#[derive(Clone, Copy, Debug, PartialEq, Eq)]
pub struct Tally {
    pub answered: u64,
    pub full: u64,
    pub left_out: LeftOut,
}

/// The sum, which is below 2^64 as far as counts go.
fn added(a: u64, b: u64) -> Result<u64, RunFault>
    ensures sum { IfOk result (λ n. n ≡ a + b) }
    ensures fault { IfErr result (λ f. is_silent f ≡ true) }
{
    match a.checked_add(b) {
        Some(sum) => Ok(sum),
        None => Err(RunFault::NoMemory { ticket: None }),
    }
}

/// One caller more: how many entries it made, and how many of its calls were left out.
fn gather_caller<N: HubName, C: Crew>(
    monitor: &Monitor<N>,
    end: CallerEnd<N>,
    crew: &C,
    all: &mut Share<N>,
) -> Result<(u64, u64), RunFault>
    ensures share { IfOk result (λ t. (all.new.parts ≡ all.old.parts + 1) × (all.new.amount ≡ all.old.amount + t.0)) }
    ensures fault { IfErr end.outcome (λ f. breaks_off f ≡ true) → IfErr result (λ f. is_silent f ≡ true) }
    ensures called { IfOk result
        (λ t. (k : ℕ) → IfOk end.outcome (λ full. CalledAt N.layout (C.calls crew.now) k full end.caller)
        → CalledIn N.layout (C.calls crew.now) k t.1 monitor.now.history) }
{
    let _crew = crew;
    let CallerEnd { caller, outcome } = end;
    let mut caller = caller;
    match outcome {
        Ok(full) => {
            settle_caller(&mut caller, monitor)?;
            let made = caller.serial();
            all.merge(share_of_caller(caller));
            Ok((made, u64::from(full)))
        }
        Err(fault) => Err(fault),
    }
}

/// All callers that had a thread, the last one first.
fn gather_callers<N: HubName, C: Crew>(
    monitor: &Monitor<N>,
    callers: Vec<CallerEnd<N>>,
    crew: &C,
    all: &mut Share<N>,
) -> Result<(u64, u64), RunFault>
    requires { HaveCalled N.layout (C.calls crew.now) (C.roles crew.now N.layout).threads callers.items }
    ensures share { IfOk result (λ t. (all.new.parts ≡ all.old.parts + length callers.items)
        × (all.new.amount ≡ all.old.amount + t.0)) }
    ensures fault { IfErr result (λ f. is_silent f ≡ true) }
    ensures called { IfOk result
        (λ t. AllCalled N.layout (C.calls crew.now) 0 (C.roles crew.now N.layout).threads t.1 monitor.now.history) }
{
    let mut callers = callers;
    let mut answered = 0u64;
    let mut full = 0u64;
    for _ in 0..callers.len() {
        let Some(end) = callers.pop() else {
            unreachable!()
        };
        let (made, left_out) = gather_caller(monitor, end, crew, all)?;
        answered = added(answered, made)?;
        full = added(left_out, full)?;
    }
    Ok((answered, full))
}

/// One worker more: how many entries it made, and how many waits its runs left out.
fn gather_worker<N: HubName, W: Work>(
    monitor: &Monitor<N>,
    end: WorkerEnd<N>,
    work: &W,
    all: &mut Share<N>,
) -> Result<(u64, LeftOut), RunFault>
    ensures share { IfOk result (λ t. (all.new.parts ≡ all.old.parts + 1) × (all.new.amount ≡ all.old.amount + t.0)) }
    ensures fault { IfErr end.outcome (λ f. breaks_off f ≡ true) → IfErr result (λ f. is_silent f ≡ true) }
    ensures worked { IfOk result (λ t. (x : ids.WorkerId)
        → IfOk end.outcome
        (λ w. WorkedFrom N.layout (W.does work.now N.layout) w.left_out (newcomer (whos.Worker x)) end.worker)
        → WorkedIn N.layout (W.does work.now N.layout) x t.1 monitor.now.history) }
{
    let _work = work;
    let WorkerEnd { worker, outcome } = end;
    let mut worker = worker;
    match outcome {
        Ok(worked) => {
            settle_worker(&mut worker, monitor)?;
            let made = worker.serial();
            all.merge(share_of_worker(worker));
            Ok((made, worked.left_out))
        }
        Err(fault) => Err(fault),
    }
}

/// All workers, the last one first: how many entries they made, and how many waits their runs left out.
fn gather_workers<N: HubName, W: Work>(
    monitor: &Monitor<N>,
    workers: Vec<WorkerEnd<N>>,
    work: &W,
    all: &mut Share<N>,
) -> Result<(u64, LeftOut), RunFault>
    requires { HaveWorked N.layout (W.does work.now N.layout) workers.items }
    ensures share { IfOk result (λ t. (all.new.parts ≡ all.old.parts + length workers.items)
        × (all.new.amount ≡ all.old.amount + t.0)) }
    ensures fault { IfErr result (λ f. is_silent f ≡ true) }
    ensures worked { IfOk result (λ t. AllWorked N.layout (W.does work.now N.layout) t.1 monitor.now.history) }
{
    let mut workers = workers;
    let mut answered = 0u64;
    let mut left_out = LeftOut::none();
    for _ in 0..workers.len() {
        let Some(end) = workers.pop() else {
            unreachable!()
        };
        let (made, of_worker) = gather_worker(monitor, end, work, all)?;
        answered = added(answered, made)?;
        left_out = of_worker.plus(left_out);
    }
    Ok((answered, left_out))
}

/// Where the lent caller stands whose number is this one after so many.
fn place_of<N: HubName>(lent: &[LentCaller<N>], first: usize, after: usize) -> Option<usize>
    ensures found { IfSome result (λ i. (v : View) × (slice_get lent.now i ≡ Some v)
        × (v.who ≡ caller_numbered (first + after))) }
{
    for i in 0..lent.len() {
        let number = usize::from(lent[i].number());
        if number >= first && number - first == after {
            return Some(i);
        }
    }
    None
}

/// Takes it out.
fn take_lent<N: HubName>(
    lent: &mut Vec<LentCaller<N>>,
    first: usize,
    after: usize,
) -> Option<Caller<N>>
    ensures who { IfSome result (λ c. (c.who ≡ caller_numbered (first + after)) × HasOnlyWaited N.layout c) }
    ensures one { IfSome result (λ _. length lent.old.items ≡ length lent.new.items + 1) }
{
    let place = place_of(lent.as_slice(), first, after)?;
    let caller = lent.swap_remove(place);
    caller.into_caller().ok()
}

/// One of them more: how many entries it made.
fn gather_waited<N: HubName>(
    monitor: &Monitor<N>,
    caller: Caller<N>,
    all: &mut Share<N>,
) -> Result<u64, RunFault>
    ensures share { IfOk result (λ n. (all.new.parts ≡ all.old.parts + 1) × (all.new.amount ≡ all.old.amount + n)) }
    ensures fault { IfErr result (λ f. is_silent f ≡ true) }
    ensures waited { IfOk result (λ _. (k : ℕ) → (caller.who ≡ caller_numbered k) → HasOnlyWaited N.layout caller
        → WaitedIn N.layout k monitor.now.history) }
{
    let mut caller = caller;
    settle_caller(&mut caller, monitor)?;
    let made = caller.serial();
    all.merge(share_of_caller(caller));
    Ok(made)
}

/// The callers that were lent, whose numbers come after so many: how many entries they made. Each has only waited.
fn gather_lent<N: HubName>(
    monitor: &Monitor<N>,
    lent: Vec<LentCaller<N>>,
    first: usize,
    all: &mut Share<N>,
) -> Result<u64, RunFault>
    ensures share { IfOk result (λ n. (all.new.parts ≡ all.old.parts + length lent.items)
        × (all.new.amount ≡ all.old.amount + n)) }
    ensures fault { IfErr result (λ f. is_silent f ≡ true) }
    ensures waited { IfOk result (λ _. AllWaited N.layout first (length lent.items) monitor.now.history) }
{
    let mut lent = lent;
    let mut answered = 0u64;
    for after in 0..lent.len() {
        let Some(caller) = take_lent(&mut lent, first, after) else {
            return Err(RunFault::NoMemory { ticket: None });
        };
        answered = added(answered, gather_waited(monitor, caller, all)?)?;
    }
    Ok(answered)
}

/// The callers that weren't used, the last one first: they made no entry.
fn gather_idle<N: HubName, C: Crew>(
    monitor: &Monitor<N>,
    idle: Vec<Caller<N>>,
    crew: &C,
    all: &mut Share<N>,
) -> Result<(), RunFault>
    requires { AreNewcomers N.layout (used (C.roles crew.now N.layout)) idle.items }
    ensures share { IfOk result
        (λ _. (all.new.parts ≡ all.old.parts + length idle.items) × (all.new.amount ≡ all.old.amount)) }
    ensures fault { IfErr result (λ f. is_silent f ≡ true) }
    ensures silent { IfOk result (λ _. AreSilent N.layout (used (C.roles crew.now N.layout)) monitor.now.history) }
{
    let _crew = crew;
    let mut idle = idle;
    for _ in 0..idle.len() {
        let Some(caller) = idle.pop() else {
            unreachable!()
        };
        let mut caller = caller;
        settle_caller(&mut caller, monitor)?;
        all.merge(share_of_caller(caller));
    }
    Ok(())
}

/// What all count, which the ledger says is the history, and the calls and the waits that were left out.
pub(crate) fn gather<N: HubName, C: Crew, W: Work>(
    monitor: &mut Monitor<N>,
    ends: Ends<N>,
    crew: &C,
    work: &W,
) -> Result<Tally, RunFault>
    requires parts { N.parts ≡ shares }
    requires ends { HaveRun N.layout (W.does work.now N.layout) (C.calls crew.now) (C.roles crew.now N.layout) ends }
    ensures same { monitor.new ≡ monitor.old }
    ensures counted { IfOk result (λ t. t.answered ≡ length monitor.old.history) }
    ensures called { IfOk result
        (λ t. AllCalled N.layout (C.calls crew.now) 0 (C.roles crew.now N.layout).threads t.full monitor.old.history) }
    ensures waited { IfOk result (λ _. AllWaited N.layout (C.roles crew.now N.layout).threads
        (C.roles crew.now N.layout).lent monitor.old.history) }
    ensures worked { IfOk result (λ t. AllWorked N.layout (W.does work.now N.layout) t.left_out monitor.old.history) }
    ensures silent { IfOk result (λ _. AreSilent N.layout (used (C.roles crew.now N.layout)) monitor.old.history) }
    ensures finished { IfOk result (λ _. active_in N.layout monitor.old.history ≡ 0) }
    ensures fails { IfErr result
        (λ f. ((f ≡ Unfinished) × IsUnfinished N.layout (C.calls crew.now) (C.roles crew.now N.layout).threads
        monitor.old.history) ⊎ (is_silent f ≡ true)) }
{
    let Ends {
        callers,
        workers,
        lent,
        idle,
        rest,
    } = ends;
    let mut all = rest;
    let threads = callers.len();
    let (made, full) = gather_callers(monitor, callers, crew, &mut all)?;
    let (worked, left_out) = gather_workers(monitor, workers, work, &mut all)?;
    let waited = gather_lent(monitor, lent, threads, &mut all)?;
    gather_idle(monitor, idle, crew, &mut all)?;
    if monitor.active_count() != 0 {
        return Err(RunFault::Unfinished);
    }
    monitor.audit(&mut all);
    let of_threads = added(made, worked)?;
    let answered = added(of_threads, waited)?;
    Ok(Tally {
        answered,
        full,
        left_out,
    })
}
