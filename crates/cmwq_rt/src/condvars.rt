//! Where callers and workers sleep, after a short spin where that is of use. No contract speaks of it.

use cmwq_model::{NoMemory, Shape, Who, WorkerId};
use cmwq_monitor::Named;
use std::alloc::Global;
use std::hint::spin_loop;
use std::sync::atomic::{AtomicBool, AtomicU32, Ordering};
use std::sync::{Condvar, MutexGuard, Wait};

/// How often one who spins looks whether it is notified, before it sleeps.
const LOOKS: u32 = 1_000;

/// Who has slept so many times since a spin was of use spins only now and then.
const PATIENCE: u32 = 4;

/// It spins then once in so many times.
const SELDOM: u32 = 64;

/// What one caller or worker sleeps at. Its own thread alone changes what stands beside the condvar.
#[derive(Drop)]
struct Parker {
    condvar: Condvar,
    /// How many times it has slept since a spin was of use.
    sleeps: AtomicU32,
    /// Whether it has just spun in vain.
    has_spun: AtomicBool,
}

impl Parker {
    fn new() -> Parker {
        Parker {
            condvar: Condvar::new(),
            sleeps: AtomicU32::new(0),
            has_spun: AtomicBool::new(false),
        }
    }

    fn is_to_spin(&self) -> bool {
        let sleeps = self.sleeps.load(Ordering::Relaxed);
        let is_patient = sleeps < PATIENCE || sleeps % SELDOM == 0;
        is_patient && !self.has_spun.load(Ordering::Relaxed)
    }

    /// Looks for a while whether there are more notifications than those that were seen.
    fn spin(&self, seen: u64) {
        for _ in 0..LOOKS {
            if self.condvar.notifications() != seen {
                self.sleeps.store(0, Ordering::Relaxed);
                return;
            }
            spin_loop();
        }
        self.has_spun.store(true, Ordering::Relaxed);
    }

    fn sleep<'a, R: Wait, T>(&self, rt: &R, guard: MutexGuard<'a, T>) -> MutexGuard<'a, T> {
        let sleeps = self.sleeps.load(Ordering::Relaxed);
        self.sleeps.store(sleeps.wrapping_add(1), Ordering::Relaxed);
        self.has_spun.store(false, Ordering::Relaxed);
        self.condvar.wait(rt, guard)
    }
}

/// A condvar for each caller and each worker of a shape, beside the lock.
#[derive(Drop)]
pub struct Condvars {
    callers: Vec<Parker>,
    workers: Vec<Parker>,
    workers_of_pool: usize,
}

fn row_of_parkers(alloc: Global, many: usize) -> Result<Vec<Parker>, NoMemory> {
    let mut parkers = Vec::new(alloc);
    for _ in 0..many {
        let Ok(()) = parkers.push(Parker::new()) else {
            return Err(NoMemory);
        };
    }
    Ok(parkers)
}

fn notify_all_of(parkers: &[Parker]) {
    for parker in parkers {
        parker.condvar.notify_all();
    }
}

impl Condvars {
    /// A condvar for each caller and worker of the shape.
    pub fn new(alloc: Global, shape: &Shape) -> Result<Condvars, NoMemory> {
        let counts = shape.counts();
        let workers_of_pool = usize::from(counts.workers);
        Ok(Condvars {
            callers: row_of_parkers(alloc, usize::from(counts.callers))?,
            workers: row_of_parkers(alloc, 2 * usize::from(counts.cpus) * workers_of_pool)?,
            workers_of_pool,
        })
    }

    fn of(&self, who: Who) -> Option<&Parker> {
        match who {
            Who::Caller(caller) => self.callers.get(usize::from(caller.0)),
            Who::Worker(worker) => self.workers.get(self.place_of(worker)?),
        }
    }

    fn place_of(&self, worker: WorkerId) -> Option<usize> {
        let pool = 2 * usize::from(worker.pool.cpu.0) + usize::from(worker.pool.high);
        pool.checked_mul(self.workers_of_pool)?
            .checked_add(usize::from(worker.index))
    }

    /// How often its condvar was notified so far, where it is to spin until it is notified again: not where it has just
    /// spun in vain, and seldom where that was of no use before.
    pub fn to_spin(&self, who: Who) -> Option<u64> {
        let parker = self.of(who)?;
        if parker.is_to_spin() {
            Some(parker.condvar.notifications())
        } else {
            None
        }
    }

    /// Spins until its condvar is notified again, but not for long, without the lock. After that, what is waited for is
    /// looked at anew, under the lock, since the notification of what was done meanwhile may still come.
    pub fn spin(&self, who: Who, seen: u64) {
        if let Some(parker) = self.of(who) {
            parker.spin(seen);
        }
    }

    /// Sleeps until its condvar is notified, with the lock let go meanwhile.
    pub fn wait<'a, R: Wait, T>(
        &self,
        rt: &R,
        guard: MutexGuard<'a, T>,
        who: Who,
    ) -> MutexGuard<'a, T> {
        match self.of(who) {
            Some(parker) => parker.sleep(rt, guard),
            None => guard,
        }
    }

    /// Wakes the callers and the workers that are named.
    pub fn notify(&self, named: &Named) {
        self.notify_callers(named);
        self.notify_workers(named);
    }

    fn notify_callers(&self, named: &Named) {
        if named.all_callers {
            return notify_all_of(&self.callers);
        }
        for name in &named.callers {
            let Some(caller) = name else { return };
            self.wake(Who::Caller(*caller));
        }
    }

    fn notify_workers(&self, named: &Named) {
        if named.all_workers {
            return notify_all_of(&self.workers);
        }
        for name in &named.workers {
            let Some(worker) = name else { return };
            self.wake(Who::Worker(*worker));
        }
    }

    fn wake(&self, who: Who) {
        if let Some(parker) = self.of(who) {
            parker.condvar.notify_all();
        }
    }
}
