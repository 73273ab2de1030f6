//! What the threads of callers and workers run, and what they give back.
ghost use Rattle.std.specs.Prelude.{◌≡◌, ◌<◌, true, IfOk, IfErr};
ghost use Rattle.cmwq_monitor.specs.Participants.{newcomer};
ghost use Rattle.cmwq_rt.specs.Running.{breaks_off};
ghost use Rattle.cmwq_engine.specs.Conduct.{caller_numbered};
ghost use Rattle.cmwq_engine.specs.Ended.{CalledAt, WorkedFrom};

use crate::crew::{Crew, Shared};
use cmwq_rt::{Caller, HubName, Lent, RunFault, Work, Worked, Worker, turns};
use std::marker::PhantomData;
use std::snapshot::Snapshot;
use std::sync::Wait;
use std::thread::Promise;

/// A caller whose thread has ended, with how many of its calls were left out.
#[derive(Drop)]
pub struct CallerEnd<N: HubName> {
    pub caller: Caller<N>,
    pub outcome: Result<u32, RunFault>,
}

/// What a caller's thread promises: that the caller with this number does what its crew says.
#[derive(Drop)]
pub struct Calls<N: HubName, C> {
    pub number: u8,
    pub crew: Snapshot<C>,
    pub(crate) of: PhantomData<N>,
}

impl<N: HubName, C: Crew> Promise<CallerEnd<N>> for Calls<N, C> {
    ghost use Rattle.std.specs.Prelude.{◌≡◌, true, IfOk, IfErr};
    ghost use Rattle.cmwq_rt.specs.Running.{breaks_off};
    ghost use Rattle.cmwq_engine.specs.Ended.{CalledAt};

    ghost kept_by = { λ p r. IfOk r.outcome (λ full. CalledAt N.layout (C.calls p.crew.value) p.number full r.caller)
        × IfErr r.outcome (λ f. breaks_off f ≡ true) };
}

/// What a worker's thread promises: that this worker runs what it starts, as this work function says.
#[derive(Drop)]
pub struct RunsWork<N: HubName, W> {
    pub worker: Snapshot<Worker<N>>,
    pub work: Snapshot<W>,
}

impl<N: HubName, W: Work> Promise<WorkerEnd<N>> for RunsWork<N, W> {
    ghost use Rattle.std.specs.Prelude.{◌≡◌, true, IfOk, IfErr};
    ghost use Rattle.cmwq_rt.specs.Running.{breaks_off};
    ghost use Rattle.cmwq_engine.specs.Ended.{WorkedFrom};

    ghost kept_by = { λ p r. IfOk r.outcome
        (λ t. WorkedFrom N.layout (W.does p.work.value N.layout) t.left_out p.worker.value r.worker)
        × IfErr r.outcome (λ f. breaks_off f ≡ true) };
}

/// A worker whose loop has ended, with how many entries it made, and how many waits its runs left out.
#[derive(Drop)]
pub struct WorkerEnd<N: HubName> {
    pub worker: Worker<N>,
    pub outcome: Result<Worked, RunFault>,
}

/// All come to their end: calls that are made or wait from then on answer a fault, and the crew is told.
pub(crate) fn stop_all<'s, N: HubName, C: Crew, W, R: Wait>(
    shared: &Shared<'s, N, C, W, R>,
    fault: RunFault,
) {
    shared.crew.stop(shared.rt, fault);
    shared.hub.fail(shared.rt);
}

/// So where something ended by a fault.
pub(crate) fn stop_at<'s, T, N: HubName, C: Crew, W, R: Wait>(
    shared: &Shared<'s, N, C, W, R>,
    ended: &Result<T, RunFault>,
) {
    if let Err(fault) = ended {
        stop_all(shared, *fault);
    }
}

/// What a caller's thread runs.
pub(crate) fn call_all<'s, N: HubName, C: Crew, W, R: Wait>(
    shared: &Shared<'s, N, C, W, R>,
    caller: Caller<N>,
    number: u8,
) -> CallerEnd<N>
    requires fits { C.fits shared.now.crew.now N.layout }
    requires number { number < (C.roles shared.now.crew.now N.layout).threads }
    requires fresh { caller ≡ newcomer (caller_numbered number) }
    ensures called { IfOk result.outcome
        (λ full. CalledAt N.layout (C.calls shared.now.crew.now) number full result.caller) }
    ensures fault { IfErr result.outcome (λ f. breaks_off f ≡ true) }
{
    let (rt, hub) = (shared.rt, shared.hub);
    turns::caller_comes(rt, hub, &caller);
    let (caller, outcome) = shared.crew.call(rt, hub, caller, number);
    stop_at(shared, &outcome);
    turns::goes(rt, hub);
    CallerEnd { caller, outcome }
}

/// What a worker's thread runs.
pub(crate) fn work_all<'s, N: HubName, C: Crew, W: Work, R: Wait>(
    shared: &Shared<'s, N, C, W, R>,
    lent: &'s Lent<N>,
    worker: Worker<N>,
) -> WorkerEnd<N>
    ensures worked { IfOk result.outcome
        (λ t. WorkedFrom N.layout (W.does shared.now.work.now N.layout) t.left_out worker result.worker) }
    ensures fault { IfErr result.outcome (λ f. breaks_off f ≡ true) }
{
    let (rt, hub) = (shared.rt, shared.hub);
    let mut worker = worker;
    turns::worker_comes(rt, hub, &worker);
    let outcome = hub.work_counting(rt, &mut worker, shared.work, lent);
    stop_at(shared, &outcome);
    turns::goes(rt, hub);
    WorkerEnd { worker, outcome }
}
