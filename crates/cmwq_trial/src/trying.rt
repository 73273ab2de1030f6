//! Runs a service once, in an order that follows from a seed.
ghost use Rattle.std.specs.Prelude.{◌≡◌, IfOk, IfErr};
ghost use Rattle.cmwq_model.specs.Prelude.{Layout};
ghost use Rattle.cmwq_service.specs.Serving.{IsServed};
ghost use Rattle.cmwq_trial.specs.Counting.{IsReliableOf};
ghost use Rattle.cmwq_trial.specs.Failing.{history_of, seed_of};

use crate::failure::{Failure, Tried};
use crate::party::{Party, Scene, have_callers_ended, replay};
use cmwq_core::Execution;
use cmwq_model::{Entry, NoMemory, Shape};
use cmwq_rt::{HubParts, RunFault};
use cmwq_service::crew::{Serving, readers_of, run_served};
use cmwq_service::{Fault, Service, Stopped};
use cmwq_turns::{Party as Member, Schedule, Seat, Turnstile};
use std::alloc::Global;
use std::sync::{Arc, Wait};
use std::thread::Threads;

/// How trials are run.
#[derive(Clone, Copy, Debug)]
pub struct Setup {
    /// How many runs may wait at the same time, as of `cmwq_service::run_with_waits`.
    pub waits: u8,
    /// How turns are given.
    pub schedule: Schedule,
    /// How many milliseconds, of time that really goes by, nobody may move before `trials` tells that one hangs.
    pub patience: u32,
}

/// No run waits, each that may move is as likely to do so as any other, and after ten seconds one hangs. Others are
/// written from it: `Setup { waits: 2, ..UNIFORM }`.
pub const UNIFORM: Setup = Setup {
    waits: 0,
    schedule: Schedule::Uniform,
    patience: 10_000,
};

pub(crate) const NO_MEMORY: Fault = Fault::Run {
    fault: RunFault::NoMemory { ticket: None },
};

/// A trial that stopped before it had a history.
pub(crate) fn stopped_at_first(alloc: Global, seed: u64, fault: Fault) -> Failure
    ensures reliable { (s : Layout) → IsReliableOf s result }
    ensures same { seed_of result ≡ seed }
{
    Failure::Stopped {
        seed,
        fault,
        history: Vec::new(alloc),
    }
}

/// How many callers of a shape have threads, if so many are lent.
pub(crate) fn thread_callers(shape: &Shape, waits: u8) -> u8 {
    shape.counts().callers.saturating_sub(waits)
}

/// A turnstile for the threads of a service, to be shared.
pub(crate) fn turnstile_of(
    alloc: Global,
    shape: &Shape,
    setup: &Setup,
    seed: u64,
) -> Result<Arc<Turnstile, Global>, NoMemory> {
    let threads = thread_callers(shape, setup.waits);
    let turnstile = Turnstile::new(alloc, shape, threads, setup.schedule, seed)?;
    match Arc::new(alloc, turnstile) {
        Ok(shared) => Ok(shared),
        Err(_) => Err(NoMemory),
    }
}

/// All who took part in a trial that got stuck, in words.
fn parties_of<R: Wait>(
    rt: &R,
    alloc: Global,
    shape: &Shape,
    turnstile: &Turnstile,
    threads: u8,
    entries: &[Entry],
) -> Result<Vec<Party>, NoMemory> {
    let members = turnstile.stuck(rt, alloc)?;
    let Some(book) = replay(alloc, shape, entries) else {
        return Err(NoMemory);
    };
    let told = told_of(alloc, shape, &book, &members, threads, entries);
    book.end();
    told
}

/// The same, by the history that was played again.
fn told_of(
    alloc: Global,
    shape: &Shape,
    book: &Execution,
    members: &[Member],
    threads: u8,
    entries: &[Entry],
) -> Result<Vec<Party>, NoMemory>
    requires { book.now.layout ≡ shape.now }
{
    let scene = Scene {
        book,
        shape,
        entries,
        threads,
        have_callers_ended: have_callers_ended(members, threads),
    };
    let mut parties = Vec::new(alloc);
    for member in members {
        if member.who.is_some() && parties.push(scene.told(member)).is_err() {
            return Err(NoMemory);
        }
    }
    Ok(parties)
}

/// Why a trial failed whose service stopped so.
fn failure_of<R: Wait>(
    rt: &R,
    alloc: Global,
    shape: &Shape,
    turnstile: &Turnstile,
    threads: u8,
    seed: u64,
    stopped: Stopped,
) -> Failure
    ensures history { history_of result ≡ stopped.history.items }
    ensures same { seed_of result ≡ seed }
{
    let Stopped { fault, history } = stopped;
    if !turnstile.is_stuck(rt) {
        return Failure::Stopped {
            seed,
            fault,
            history,
        };
    }
    match parties_of(rt, alloc, shape, turnstile, threads, history.as_slice()) {
        Ok(parties) => Failure::Stuck {
            seed,
            history,
            parties,
        },
        Err(NoMemory) => Failure::Stopped {
            seed,
            fault: NO_MEMORY,
            history,
        },
    }
}

/// Runs a service at this turnstile.
pub(crate) fn try_at<S: Service + Send + Sync, R: Threads + Wait + Sync>(
    rt: &R,
    alloc: Global,
    shape: &Shape,
    service: &S,
    waits: u8,
    seed: u64,
    turnstile: Arc<Turnstile, Global>,
) -> Result<Tried, Failure>
    ensures served { IfOk result (λ tried. IsServed shape.now waits S.calls S.ends S.does tried.history.items) }
    ensures failed { IfErr result (λ failure. IsReliableOf shape.now failure × (seed_of failure ≡ seed)) }
{
    let Ok(shared) = Arc::try_clone(&turnstile) else {
        return Err(stopped_at_first(alloc, seed, NO_MEMORY));
    };
    let seat = Seat::new(rt, &*turnstile);
    let serving = match Serving::new(&seat, service, shape, waits) {
        Ok(serving) => serving,
        Err(fault) => return Err(stopped_at_first(alloc, seed, fault)),
    };
    let parts = match HubParts::in_turns(rt, alloc, shape, readers_of(shape, service), shared) {
        Ok(parts) => parts,
        Err(fault) => return Err(stopped_at_first(alloc, seed, Fault::Run { fault })),
    };
    match run_served(rt, alloc, parts, &serving) {
        Ok(history) => Ok(Tried {
            history,
            turns: turnstile.count(rt),
        }),
        Err(stopped) => {
            let threads = thread_callers(shape, waits);
            Err(failure_of(rt, alloc, shape, &*turnstile, threads, seed, stopped))
        }
    }
}

/// Runs a service on a new hub of this shape, in the order of this seed. It has a thread for each of its callers and
/// workers, as in `cmwq_service::run`, of which one moves at a time. The order is that of the holds of the hub's lock,
/// so it is one that threads may take. Time is simulated: it goes by when all wait, or now and then before. The service
/// is left as it then is. No run waits.
///
/// # Errors
/// `Stuck` if nobody may move any more, or if time goes by 65,536 times in a row and nobody else moves; `Stopped` with
/// the fault that `cmwq_service::run` returns.
pub fn trial<S: Service + Send + Sync, R: Threads + Wait + Sync>(
    rt: &R,
    alloc: Global,
    shape: &Shape,
    service: &S,
    seed: u64,
) -> Result<Tried, Failure>
    ensures served { IfOk result (λ tried. IsServed shape.now 0 S.calls S.ends S.does tried.history.items) }
    ensures failed { IfErr result (λ failure. IsReliableOf shape.now failure × (seed_of failure ≡ seed)) }
{
    let setup = UNIFORM;
    match turnstile_of(alloc, shape, &setup, seed) {
        Ok(turnstile) => try_at(rt, alloc, shape, service, 0, seed, turnstile),
        Err(NoMemory) => Err(stopped_at_first(alloc, seed, NO_MEMORY)),
    }
}

/// The same, as this setup says: so many runs may wait, and turns are given by this schedule.
///
/// # Errors
/// Those of `trial`; `Stopped` with the fault that `cmwq_service::run_with_waits` returns.
pub fn trial_with<S: Service + Send + Sync, R: Threads + Wait + Sync>(
    rt: &R,
    alloc: Global,
    shape: &Shape,
    service: &S,
    setup: &Setup,
    seed: u64,
) -> Result<Tried, Failure>
    ensures served { IfOk result
        (λ tried. IsServed shape.now setup.now.waits S.calls S.ends S.does tried.history.items) }
    ensures failed { IfErr result (λ failure. IsReliableOf shape.now failure × (seed_of failure ≡ seed)) }
{
    match turnstile_of(alloc, shape, setup, seed) {
        Ok(turnstile) => try_at(rt, alloc, shape, service, setup.waits, seed, turnstile),
        Err(NoMemory) => Err(stopped_at_first(alloc, seed, NO_MEMORY)),
    }
}
