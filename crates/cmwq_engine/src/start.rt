//! Starts the threads of callers and workers.
ghost use Rattle.std.specs.Prelude.{◌≡◌, ℕ, ◌+◌, ◌<◌, length, true, IfOk, IfErr, slice_get, Some, None};
ghost use Rattle.cmwq_model.specs.declared.id.WorkerId as ids;
ghost use Rattle.cmwq_model.specs.declared.id.Who.TheVariants as whos;
ghost use Rattle.cmwq_monitor.specs.Participants.{newcomer};
ghost use Rattle.cmwq_monitor.specs.declared.fault.RunFault.TheVariants as faults;
ghost use Rattle.cmwq_rt.specs.Places.{first_worker, worker_by_number};
ghost use Rattle.cmwq_rt.specs.Running.{breaks_off};
ghost use Rattle.cmwq_engine.specs.Conduct.{caller_numbered};
ghost use Rattle.cmwq_engine.specs.Ended.{AreNewcomers, CalledAt, FailsAs, WorkedFrom, is_silent};

use crate::crew::{Crew, Shared};
use crate::ends::{CallerEnd, Calls, RunsWork, WorkerEnd, call_all, work_all};
use cmwq_model::Shape;
use cmwq_rt::{Caller, HubName, Lent, LentCaller, Participants, RunFault, Work, Worker};
use std::alloc::Global;
use std::marker::PhantomData;
use std::snapshot::Snapshot;
use std::sync::Wait;
use std::thread::{PromisedHandle, Scope};

/// The thread of a caller.
pub(crate) type CallerThread<N, C> = PromisedHandle<CallerEnd<N>, Calls<N, C>>;

/// Starts the thread of one caller.
fn start_caller<'s, E, N: HubName + Send + Sync + 's, C: Crew + Sync, W: Sync, R: Wait + Sync>(
    scope: &Scope<'s, E>,
    shared: &'s Shared<'s, N, C, W, R>,
    caller: Caller<N>,
    number: u8,
) -> Result<CallerThread<N, C>, RunFault>
    requires fits { C.fits shared.now.crew.now N.layout }
    requires number { number < (C.roles shared.now.crew.now N.layout).threads }
    requires fresh { caller ≡ newcomer (caller_numbered number) }
    ensures thread { IfOk result (λ h. (h.promise.number ≡ number) × (h.promise.crew.value ≡ shared.now.crew.now)) }
    ensures fault { IfErr result (λ f. is_silent f ≡ true) }
{
    let promise: Calls<N, C> = Calls {
        number,
        crew: Snapshot::of(shared.crew),
        of: PhantomData,
    };
    let started = scope.spawn_with(
        promise,
        move || -> CallerEnd<N>
            requires { C.fits shared.now.crew.now N.layout × (number < (C.roles shared.now.crew.now N.layout).threads)
                × (caller ≡ newcomer (caller_numbered number)) }
            ensures { IfOk result.outcome
                (λ full. CalledAt N.layout (C.calls shared.entry.now.crew.now) number full result.caller)
                × IfErr result.outcome (λ f. breaks_off f ≡ true) }
        { call_all(shared, caller, number) },
    );
    match started {
        Ok(thread) => Ok(thread),
        Err(_) => Err(RunFault::NoThread),
    }
}

/// Starts the threads of so many callers, as far as threads can be made.
pub(crate) fn start_callers<
    's,
    E,
    N: HubName + Send + Sync + 's,
    C: Crew + Sync,
    W: Sync,
    R: Wait + Sync,
>(
    scope: &Scope<'s, E>,
    shared: &'s Shared<'s, N, C, W, R>,
    many: u8,
    participants: &mut Participants<N>,
) -> Result<Vec<CallerThread<N, C>>, RunFault>
    requires fresh { participants.old.callers ≡ 0 }
    requires fits { C.fits shared.now.crew.now N.layout }
    requires many { many ≡ (C.roles shared.now.crew.now N.layout).threads }
    ensures all { IfOk result (λ hs. (participants.new ≡ record participants.old { callers = length hs.items })
        × (length hs.items ≡ many)) }
    ensures fails { IfErr result
        (λ f. FailsAs N.layout (C.calls shared.now.crew.now) (C.roles shared.now.crew.now N.layout) f) }
    ensures each { IfOk result (λ hs. (k : ℕ) (h : _) → slice_get hs.items k ≡ Some h
        → (h.promise.number ≡ k) × (h.promise.crew.value ≡ shared.now.crew.now)) }
{
    let mut threads = Vec::new(shared.alloc);
    for number in 0..many {
        if threads.reserve(1).is_err() {
            return Err(RunFault::NoMemory { ticket: None });
        }
        let caller = match participants.caller() {
            Ok(caller) => caller,
            Err(fault) => return Err(fault),
        };
        match start_caller(scope, shared, caller, number) {
            Ok(thread) => threads.push_reserved(thread),
            Err(fault) => return Err(fault),
        }
    }
    Ok(threads)
}

/// Lends the next so many callers.
pub(crate) fn lend_callers<N: HubName, R: Wait>(
    rt: &R,
    lent: &Lent<N>,
    many: u8,
    participants: &mut Participants<N>,
) -> Result<(), RunFault>
    ensures all { IfOk result
        (λ _. participants.new ≡ record participants.old { callers = participants.old.callers + many }) }
    ensures fails { IfErr result (λ f. (f ≡ faults.NoPlace) × (N.layout.callers < participants.old.callers + many)) }
{
    for _ in 0..many {
        let caller = match participants.caller() {
            Ok(caller) => caller,
            Err(fault) => return Err(fault),
        };
        lent.give(rt, LentCaller::new(caller));
    }
    Ok(())
}

/// The thread of a worker.
pub(crate) type WorkerThread<N, W> = PromisedHandle<WorkerEnd<N>, RunsWork<N, W>>;

/// Starts the thread of one worker.
fn start_worker<
    's,
    E,
    N: HubName + Send + Sync + 's,
    C: Crew + Sync,
    W: Work + Sync,
    R: Wait + Sync,
>(
    scope: &Scope<'s, E>,
    shared: &'s Shared<'s, N, C, W, R>,
    lent: &'s Lent<N>,
    worker: Worker<N>,
) -> Result<WorkerThread<N, W>, RunFault>
    ensures thread { IfOk result
        (λ h. (h.promise.worker.value ≡ worker) × (h.promise.work.value ≡ shared.now.work.now)) }
    ensures fault { IfErr result (λ f. is_silent f ≡ true) }
{
    let promise: RunsWork<N, W> = RunsWork {
        worker: Snapshot::of(&worker),
        work: Snapshot::of(shared.work),
    };
    let started = scope.spawn_with(
        promise,
        move || -> WorkerEnd<N>
            ensures { IfOk result.outcome
                (λ t. WorkedFrom N.layout (W.does shared.entry.now.work.now N.layout) t.left_out worker result.worker)
                × IfErr result.outcome (λ f. breaks_off f ≡ true) }
        { work_all(shared, lent, worker) },
    );
    match started {
        Ok(thread) => Ok(thread),
        Err(_) => Err(RunFault::NoThread),
    }
}

/// Starts the threads of all workers, as far as threads can be made.
pub(crate) fn start_workers<
    's,
    E,
    N: HubName + Send + Sync + 's,
    C: Crew + Sync,
    W: Work + Sync,
    R: Wait + Sync,
>(
    scope: &Scope<'s, E>,
    shared: &'s Shared<'s, N, C, W, R>,
    lent: &'s Lent<N>,
    participants: &mut Participants<N>,
) -> Result<Vec<WorkerThread<N, W>>, RunFault>
    requires fresh { participants.old.next ≡ Some first_worker }
    ensures fault { IfErr result (λ f. is_silent f ≡ true) }
    ensures all { IfOk result (λ hs. (worker_by_number N.layout (length hs.items) ≡ None)
        × (participants.new.workers ≡ participants.old.workers + length hs.items)
        × (participants.new.callers ≡ participants.old.callers)) }
    ensures each { IfOk result (λ hs. (k : ℕ) (h : _) → slice_get hs.items k ≡ Some h
        → (x : ids.WorkerId) × (worker_by_number N.layout k ≡ Some x)
        × (h.promise.worker.value ≡ newcomer (whos.Worker x)) × (h.promise.work.value ≡ shared.now.work.now)) }
{
    let mut threads = Vec::new(shared.alloc);
    for _ in 0..=most_workers(shared.hub.shape()) {
        if threads.reserve(1).is_err() {
            return Err(RunFault::NoMemory { ticket: None });
        }
        let Ok(worker) = participants.worker() else {
            return Ok(threads);
        };
        match start_worker(scope, shared, lent, worker) {
            Ok(thread) => threads.push_reserved(thread),
            Err(fault) => return Err(fault),
        }
    }
    Err(RunFault::NoThread)
}

/// How many workers there are.
fn most_workers(shape: &Shape) -> u32 {
    let counts = shape.counts();
    2 * u32::from(counts.cpus) * u32::from(counts.workers)
}

/// The callers that aren't used.
pub(crate) fn idle_callers<N: HubName>(
    alloc: Global,
    shape: &Shape,
    participants: &mut Participants<N>,
) -> Result<Vec<Caller<N>>, RunFault>
    ensures all { IfOk result (λ cs. AreNewcomers N.layout participants.old.callers cs.items) }
    ensures fault { IfErr result (λ f. is_silent f ≡ true) }
    ensures participants { IfOk result (λ cs. (participants.new.callers ≡ participants.old.callers + length cs.items)
        × (participants.new.workers ≡ participants.old.workers)) }
{
    let mut callers = Vec::new(alloc);
    for _ in 0..=shape.counts().callers {
        if callers.reserve(1).is_err() {
            return Err(RunFault::NoMemory { ticket: None });
        }
        let Ok(caller) = participants.caller() else {
            return Ok(callers);
        };
        callers.push_reserved(caller);
    }
    Err(RunFault::NoThread)
}
