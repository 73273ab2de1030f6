//! Runs all threads, and ends the hub.
ghost use Rattle.std.specs.Prelude.{◌≡◌, length, true, IfOk, IfErr};
ghost use Rattle.cmwq_rt.specs.Places.{all_free, shares};
ghost use Rattle.cmwq_engine.specs.Ended.{EndsAll, FailsAs, HaveEnded, IsRest, IsRestOfLeft, is_silent};

use crate::crew::{Crew, Roster, Shared, lending_for};
use crate::ends::stop_at;
use crate::gather::{Ends, Tally, gather};
use crate::start::{idle_callers, lend_callers, start_callers, start_workers};
use cmwq_monitor::Rest;
use cmwq_rt::ending::into_monitor;
use cmwq_rt::{Hub, HubName, HubParts, Lent, LentCaller, Participants, RunFault, Work, turns};
use std::alloc::Global;
use std::marker::Brand;
use std::sync::Wait;
use std::thread::{self, Scope, Threads, join_promised};

/// Starts all threads, and joins them: first the callers, and then the workers, who go on until no active queueing is
/// open. The callers that are lent are not yet taken back.
fn run_all<
    's,
    E,
    N: HubName + Send + Sync + 's,
    C: Crew + Sync,
    W: Work + Sync,
    R: Threads + Wait + Sync,
>(
    scope: &Scope<'s, E>,
    shared: &'s Shared<'s, N, C, W, R>,
    lent: &'s Lent<N>,
    roster: Roster,
    participants: Participants<N>,
) -> Result<Ends<N>, RunFault>
    requires fresh { participants ≡ all_free }
    requires fits { C.fits shared.now.crew.now N.layout }
    requires roster { roster ≡ C.roles shared.now.crew.now N.layout }
    ensures run { IfOk result
        (λ ends. HaveEnded N.layout (W.does shared.now.work.now N.layout) (C.calls shared.now.crew.now)
        (C.roles shared.now.crew.now N.layout) ends) }
    ensures fails { IfErr result
        (λ f. FailsAs N.layout (C.calls shared.now.crew.now) (C.roles shared.now.crew.now N.layout) f) }
{
    let mut participants = participants;
    let handles = match start_callers(scope, shared, roster.threads, &mut participants) {
        Ok(handles) => handles,
        Err(fault) => return Err(fault),
    };
    match lend_callers(shared.rt, lent, roster.lent, &mut participants) {
        Ok(()) => {}
        Err(fault) => return Err(fault),
    }
    let working = match start_workers(scope, shared, lent, &mut participants) {
        Ok(working) => working,
        Err(fault) => return Err(fault),
    };
    let joined = join_promised(shared.rt, handles);
    let Ok(callers) = joined else {
        return Err(RunFault::NoMemory { ticket: None });
    };
    shared.hub.close(shared.rt);
    let ended = join_promised(shared.rt, working);
    let Ok(workers) = ended else {
        return Err(RunFault::NoMemory { ticket: None });
    };
    let idle = idle_callers(shared.alloc, shared.hub.shape(), &mut participants)?;
    Ok(Ends {
        callers,
        workers,
        lent: Vec::new(shared.alloc),
        idle,
        rest: participants.into_rest(),
    })
}

/// Runs all threads to their end, in a scope of their own. At a fault all come to their end, and nobody waits for a
/// turn any more.
fn run_in_scope<
    'x,
    N: HubName + Send + Sync,
    C: Crew + Sync,
    W: Work + Sync,
    R: Threads + Wait + Sync,
>(
    shared: &'x Shared<'x, N, C, W, R>,
    lent: &'x Lent<N>,
    roster: Roster,
    participants: Participants<N>,
) -> Result<Ends<N>, RunFault>
    requires fresh { participants ≡ all_free }
    requires fits { C.fits shared.now.crew.now N.layout }
    requires roster { roster ≡ C.roles shared.now.crew.now N.layout }
    ensures run { IfOk result
        (λ ends. HaveEnded N.layout (W.does shared.now.work.now N.layout) (C.calls shared.now.crew.now)
        (C.roles shared.now.crew.now N.layout) ends) }
    ensures fails { IfErr result
        (λ f. FailsAs N.layout (C.calls shared.now.crew.now) (C.roles shared.now.crew.now N.layout) f) }
{
    thread::scope(
        thread::scope_env(),
        shared.rt,
        |scope| -> Result<Ends<N>, RunFault>
            requires { (participants ≡ all_free) × C.fits shared.now.crew.now N.layout
                × (roster ≡ C.roles shared.now.crew.now N.layout) }
            ensures { IfOk result
                (λ ends. HaveEnded N.layout (W.does shared.entry.now.work.now N.layout)
                (C.calls shared.entry.now.crew.now) (C.roles shared.entry.now.crew.now N.layout) ends)
                × IfErr result (λ f. FailsAs N.layout (C.calls shared.entry.now.crew.now)
                (C.roles shared.entry.now.crew.now N.layout) f) }
        {
            let ends = run_all(scope, shared, lent, roster, participants);
            if ends.is_err() {
                turns::open(shared.rt, shared.hub);
            }
            stop_at(shared, &ends);
            ends
        },
    )
}

/// The ends of all threads with the callers that were lent, all of which are back as nobody waits.
fn with_lent<N: HubName>(
    ends: Ends<N>,
    callers: Vec<LentCaller<N>>,
    lent: u8,
) -> Result<Ends<N>, RunFault>
    ensures all { IfOk result (λ e. (e ≡ record ends { lent = callers }) × (length callers.items ≡ lent)) }
    ensures fault { IfErr result (λ f. is_silent f ≡ true) }
{
    if callers.len() != usize::from(lent) {
        return Err(RunFault::NoMemory { ticket: None });
    }
    let Ends {
        callers: ended,
        workers,
        lent: _,
        idle,
        rest,
    } = ends;
    Ok(Ends {
        callers: ended,
        workers,
        lent: callers,
        idle,
        rest,
    })
}

/// Lends callers to runs that wait, runs all threads to their end, and takes the callers back.
pub(crate) fn run_threads<
    'x,
    N: HubName + Send + Sync,
    C: Crew + Sync,
    W: Work + Sync,
    R: Threads + Wait + Sync,
>(shared: &'x Shared<'x, N, C, W, R>, participants: Participants<N>) -> Result<Ends<N>, RunFault>
    requires fresh { participants ≡ all_free }
    requires fits { C.fits shared.now.crew.now N.layout }
    ensures { EndsAll N.layout (W.does shared.now.work.now N.layout) (C.calls shared.now.crew.now)
        (C.roles shared.now.crew.now N.layout) result }
{
    let roster = shared.crew.roster(shared.hub.shape());
    let Ok(callers) = Vec::with_capacity(shared.alloc, usize::from(roster.lent)) else {
        return Err(RunFault::NoMemory { ticket: None });
    };
    let lent = Lent::new(callers);
    let ended = run_in_scope(shared, &lent, roster, participants);
    let callers = lent.into_callers();
    match ended {
        Ok(ends) => with_lent(ends, callers, roster.lent),
        Err(fault) => Err(fault),
    }
}

/// Runs all threads on a hub of these parts, and ends it: what it kept of its history, and what all count.
fn run_parts<
    'x,
    N: HubName + Send + Sync + 'static,
    C: Crew + Sync,
    W: Work + Sync,
    R: Threads + Wait + Sync,
>(
    rt: &'x R,
    alloc: Global,
    parts: HubParts,
    crew: &'x C,
    work: &'x W,
) -> (Rest, Result<Tally, RunFault>)
    requires layout { parts.shape ≡ N.layout }
    requires book { parts.opening.book ≡ N.book }
    requires lends { (C.roles crew.now parts.shape).threads ≡ N.first_lent }
    requires ledger { (parts.blank.name ≡ N.name) × (parts.blank.parts ≡ N.parts) }
    requires fits { C.fits crew.now N.layout }
    ensures rest { IsRest N.layout result.0.first result.0.entries.items }
    ensures left { IfOk result.1
        (λ t. IsRestOfLeft N.layout (W.does work.now N.layout) (C.calls crew.now) (C.roles crew.now N.layout) t.answered
        t.full t.left_out result.0.first result.0.entries.items) }
    ensures fails { IfErr result.1 (FailsAs N.layout (C.calls crew.now) (C.roles crew.now N.layout)) }
{
    let (hub, participants) = Hub::<N>::open(lending_for(parts, crew));
    let ended = run_threads(
        &Shared {
            rt,
            alloc,
            hub: &hub,
            crew,
            work,
        },
        participants,
    );
    let mut monitor = into_monitor(hub);
    match ended {
        Ok(ends) => {
            let gathered = gather(&mut monitor, ends, crew, work);
            (monitor.end(rt), gathered)
        }
        Err(fault) => (monitor.end(rt), Err(fault)),
    }
}

/// Runs a crew and its work on a new hub of these parts: a thread for each of the crew's callers, and one for each
/// worker. Once all callers have ended the hub is closed, and the workers go on until no active queueing is open. It
/// gives what the hub kept of the history, which is all of it where its parts keep all.
///
/// # Errors
/// The fault of a thread; `NoThread` where one can't be made; `NoPlace` only where the crew has more callers than the
/// shape; `Unfinished` only where all callers have done what they should and an active queueing is open at the end;
/// `NoMemory`. All threads have ended then.
pub fn run<'x, C: Crew + Sync, W: Work + Sync, R: Threads + Wait + Sync>(
    rt: &'x R,
    alloc: Global,
    parts: HubParts,
    crew: &'x C,
    work: &'x W,
) -> (Rest, Result<Tally, RunFault>)
    requires { C.fits crew.now parts.shape }
    ensures rest { IsRest parts.shape result.0.first result.0.entries.items }
    ensures left { IfOk result.1
        (λ t. IsRestOfLeft parts.shape (W.does work.now parts.shape) (C.calls crew.now) (C.roles crew.now parts.shape)
        t.answered t.full t.left_out result.0.first result.0.entries.items) }
    ensures fails { IfErr result.1 (FailsAs parts.shape (C.calls crew.now) (C.roles crew.now parts.shape)) }
{
    run_parts::<Brand, C, W, R>(rt, alloc, parts, crew, work)
}
