//! Runs a service under many seeds.
ghost use Rattle.std.specs.Prelude.{◌≡◌, ◌-◌, IfErr};
ghost use Rattle.cmwq_trial.specs.Counting.{AreTrials, IsReliableOf};
ghost use Rattle.cmwq_trial.specs.Failing.{seed_of};

use crate::counting::Trials;
use crate::failure::{Failure, Tried};
use crate::progress::Progress;
use crate::trying::{NO_MEMORY, Setup, stopped_at_first, thread_callers, try_at, turnstile_of};
use crate::watch::{Sight, Watched};
use cmwq_model::{NoMemory, Shape};
use cmwq_service::Service;
use std::alloc::Global;
use std::ops::Range;
use std::sync::{Arc, Wait};
use std::thread::{self, Threads};
use std::time::{Clock, Duration};

/// One trial, which is watched.
fn try_seed<S: Service + Send + Sync, R: Threads + Wait + Sync>(
    rt: &R,
    alloc: Global,
    shape: &Shape,
    service: &S,
    setup: &Setup,
    seed: u64,
    watched: &Watched,
) -> Result<Tried, Failure>
    ensures { IfErr result (λ f. IsReliableOf shape.now f × (seed_of f ≡ seed)) }
{
    let Ok(turnstile) = turnstile_of(alloc, shape, setup, seed) else {
        return Err(stopped_at_first(alloc, seed, NO_MEMORY));
    };
    if let Ok(shared) = Arc::try_clone(&turnstile) {
        watched.begin(rt, seed, shared);
    }
    try_at(rt, alloc, shape, service, setup.waits, seed, turnstile)
}

/// A trial for each seed.
fn try_all<
    S: Service + Send + Sync + Drop,
    M: Fn(u64) -> S,
    T: Fn(Progress),
    R: Threads + Wait + Sync,
>(
    rt: &R,
    alloc: Global,
    shape: &Shape,
    setup: &Setup,
    seeds: Range<u64>,
    make: &M,
    tell: &T,
    watched: &Watched,
) -> Trials
    requires makes { M.IsAlwaysCallable make.now }
    requires tells { T.IsAlwaysCallable tell.now }
    ensures { AreTrials shape.now seeds.start (seeds.end - seeds.start) result }
{
    let mut trials = Trials::none();
    for seed in seeds {
        let service = make(seed);
        let outcome = try_seed(rt, alloc, shape, &service, setup, seed, watched);
        tell(Progress::of(seed, &outcome));
        trials.count(outcome);
    }
    trials
}

/// Tells once of each trial that hangs.
fn watch_on<T: Fn(Progress), R: Wait + Clock>(
    rt: &R,
    watched: &Watched,
    patience: Duration,
    tell: &T,
)
    requires { T.IsAlwaysCallable tell.now }
{
    let mut last: Option<Sight> = None;
    let mut told: Option<u64> = None;
    for _ in rt.forever() {
        let Some(sight) = watched.look_after(rt, patience) else {
            return;
        };
        if let (Some(seen), Some(mover)) = (last, sight.mover) {
            if sight.hangs_since(&seen) && told != Some(sight.seed) {
                told = Some(sight.seed);
                tell(Progress::Hangs {
                    seed: sight.seed,
                    time: patience,
                    mover,
                });
            }
        }
        last = Some(sight);
    }
}

/// Runs a service under each of these seeds, one after another, on a service of its own each time: `make` makes it.
/// What is to hold when a trial has ended is looked at by the service's own `end`, which returns a fault of its own if
/// it does not. `tell` is told of each trial that has ended, and once of one that hangs: it is called by the calling
/// thread, and by one that watches.
///
/// There is no error: a trial that fails for want of memory or of threads is counted among those that stopped.
pub fn trials<
    S: Service + Send + Sync + Drop,
    M: Fn(u64) -> S,
    T: Fn(Progress) + Sync,
    R: Threads + Wait + Clock + Sync,
>(
    rt: &R,
    alloc: Global,
    shape: &Shape,
    setup: &Setup,
    seeds: Range<u64>,
    make: &M,
    tell: &T,
) -> Trials
    requires makes { M.IsAlwaysCallable make.now }
    requires tells { T.IsAlwaysCallable tell.now }
    ensures { AreTrials shape.now seeds.start (seeds.end - seeds.start) result }
{
    let watched = Watched::new(thread_callers(shape, setup.waits));
    let (beside, patience) = (&watched, Duration::from_millis(u64::from(setup.patience)));
    thread::scope(
        thread::scope_env(),
        rt,
        |scope| -> Trials
            requires { M.IsAlwaysCallable make.now × T.IsAlwaysCallable tell.now }
            ensures { AreTrials shape.entry.now seeds.start (seeds.end - seeds.start) result }
        {
            // without a thread for it, nobody watches
            let _watching = scope.spawn(
                move ||
                    requires { T.IsAlwaysCallable tell.now }
                { watch_on(rt, beside, patience, tell) },
            );
            let trials = try_all(rt, alloc, shape, setup, seeds, make, tell, beside);
            beside.end(rt);
            trials
        },
    )
}
