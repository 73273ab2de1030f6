//! For a layer above that takes the history of a hub while it is made, as a journal does: a thread that runs all
//! others, and the end of a hub whose history a journal has.
ghost use Rattle.std.specs.Prelude.{◌≡◌, [], length, true, IfOk, IfErr, OnOk};
ghost use Rattle.cmwq_rt.specs.Places.{all_free, shares};
ghost use Rattle.cmwq_engine.specs.Ended.{EndsAll, FailsAs, HaveRun, IsLeft, is_silent};

use crate::crew::{Crew, Shared};
use crate::ends::stop_all;
use crate::gather::{Ends, Tally, gather};
use crate::running::run_threads;
use cmwq_monitor::{Journal, Monitor, Rest};
use cmwq_rt::ending::into_monitor;
use cmwq_rt::{Hub, HubName, Participants, RunFault, Work};
use std::marker::PhantomData;
use std::snapshot::Snapshot;
use std::sync::Wait;
use std::thread::{Promise, PromisedHandle, Scope, Threads};

/// What the thread that runs all others promises: that callers do what this crew says, and workers this work.
#[derive(Drop)]
pub struct RunsAll<N: HubName, C, W> {
    pub crew: Snapshot<C>,
    pub work: Snapshot<W>,
    of: PhantomData<N>,
}

impl<N: HubName, C: Crew, W: Work> Promise<Result<Ends<N>, RunFault>> for RunsAll<N, C, W> {
    ghost use Rattle.cmwq_engine.specs.Ended.{EndsAll};

    ghost kept_by = { λ p r. EndsAll N.layout (W.does p.work.value N.layout) (C.calls p.crew.value)
        (C.roles p.crew.value N.layout) r };
}

/// The thread that runs all others.
pub type Conductor<N, C, W> = PromisedHandle<Result<Ends<N>, RunFault>, RunsAll<N, C, W>>;

/// Starts the thread that runs all others. When they have ended the hub fails, so that its journal ends.
///
/// # Errors
/// `NoThread` where it can't be made: then none was.
pub fn start_all<
    's,
    E,
    N: HubName + Send + Sync + 's,
    C: Crew + Sync,
    W: Work + Sync,
    R: Threads + Wait + Sync,
>(
    scope: &Scope<'s, E>,
    shared: &'s Shared<'s, N, C, W, R>,
    participants: Participants<N>,
) -> Result<Conductor<N, C, W>, RunFault>
    requires fresh { participants ≡ all_free }
    requires fits { C.fits shared.now.crew.now N.layout }
    ensures thread { IfOk result
        (λ h. (h.promise.crew.value ≡ shared.now.crew.now) × (h.promise.work.value ≡ shared.now.work.now)) }
    ensures fault { IfErr result (λ f. is_silent f ≡ true) }
{
    let promise: RunsAll<N, C, W> = RunsAll {
        crew: Snapshot::of(shared.crew),
        work: Snapshot::of(shared.work),
        of: PhantomData,
    };
    let started = scope.spawn_with(
        promise,
        move || -> Result<Ends<N>, RunFault>
            requires { (participants ≡ all_free) × C.fits shared.now.crew.now N.layout }
            ensures { EndsAll N.layout (W.does shared.entry.now.work.now N.layout) (C.calls shared.entry.now.crew.now)
                (C.roles shared.entry.now.crew.now N.layout) result }
        {
            let ends = run_threads(shared, participants);
            shared.hub.fail(shared.rt);
            ends
        },
    );
    match started {
        Ok(thread) => Ok(thread),
        Err(_) => Err(RunFault::NoThread),
    }
}

/// All threads come to their end, as the history can't be taken any further.
pub fn stop<'s, N: HubName, C: Crew, W, R: Wait>(shared: &Shared<'s, N, C, W, R>) {
    stop_all(shared, RunFault::NoMemory { ticket: None });
}

/// The journal has the whole history of a hub whose threads have ended.
fn has_all<N: HubName>(monitor: &mut Monitor<N>, journal: &mut Journal<N>) -> Result<(), RunFault>
    ensures all { IfOk result
        (λ _. (journal.old.seen ≡ monitor.old.history) × (journal.new.seen ≡ monitor.old.history)) }
    ensures same { monitor.new.history ≡ monitor.old.history }
    ensures fault { IfErr result (λ f. is_silent f ≡ true) }
{
    let own = journal.len();
    match monitor.give(journal) {
        Ok(()) if journal.batch().is_empty() => Ok(()),
        Ok(()) => Err(RunFault::Stranger {
            own,
            book: journal.len(),
        }),
        Err(_) => Err(RunFault::Stranger { own, book: own }),
    }
}

/// Whether all that a hub kept was handed over.
fn is_nothing_left(rest: &Rest) -> bool
    ensures { result ≡ true → rest.now.entries.items ≡ [] }
{
    rest.entries.is_empty()
}

/// What all count, once they have ended, and what the hub left to the journal: nothing.
#[derive(Drop)]
pub struct Counted {
    pub tally: Tally,
    pub rest: Rest,
}

/// Ends a hub whose threads have ended, and whose history the journal has.
///
/// # Errors
/// As of `run`, and `Stranger` where the journal hasn't all of the history.
pub fn end_with<N: HubName, C: Crew, W: Work, R: Wait>(
    rt: &R,
    hub: Hub<N>,
    ends: Ends<N>,
    crew: &C,
    work: &W,
    journal: &mut Journal<N>,
) -> Result<Counted, RunFault>
    requires parts { N.parts ≡ shares }
    requires ends { HaveRun N.layout (W.does work.now N.layout) (C.calls crew.now) (C.roles crew.now N.layout) ends }
    ensures left { IfOk result
        (λ c. IsLeft N.layout (W.does work.now N.layout) (C.calls crew.now) (C.roles crew.now N.layout) c.tally.full
        c.tally.left_out journal.old.seen) }
    ensures counted { IfOk result (λ c. c.tally.answered ≡ length journal.old.seen) }
    ensures same { OnOk result (journal.new.seen ≡ journal.old.seen) }
    ensures rest { IfOk result (λ c. c.rest.entries.items ≡ []) }
    ensures fails { IfErr result (FailsAs N.layout (C.calls crew.now) (C.roles crew.now N.layout)) }
{
    let mut monitor = into_monitor(hub);
    let gathered = gather(&mut monitor, ends, crew, work);
    let journaled = has_all(&mut monitor, journal);
    let rest = monitor.end(rt);
    let tally = match gathered {
        Ok(tally) => tally,
        Err(fault) => return Err(fault),
    };
    match journaled {
        Ok(()) if is_nothing_left(&rest) => Ok(Counted { tally, rest }),
        Ok(()) => Err(RunFault::Stranger {
            own: journal.len(),
            book: rest.first,
        }),
        Err(fault) => Err(fault),
    }
}
