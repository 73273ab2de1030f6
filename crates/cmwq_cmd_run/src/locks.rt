//! Locks, which callers and runs of items take and let go.
ghost use Rattle.std.specs.Prelude.{◌≡◌, IfOk, IfErr, None, Some};
ghost use Rattle.cmwq_rt.specs.Later.{Later};
ghost use Rattle.cmwq_cmd_run.specs.Interpreted.{TakesLock};

use crate::room::unless_full;
use cmwq_json_script::Holder;
use cmwq_rt::{HubName, RunCalls, RunCtx, RunFault};
use std::sync::{Mutex, MutexGuard, Wait};
use std::thread;

/// How often a lock is looked at.
const LOOKS: u32 = 20_000_000;

/// A look in so many lets other threads go first.
const LOOKS_IN_A_ROW: u32 = 64;

/// A lock, and who holds it or let it go.
#[derive(Clone, Copy, Debug)]
pub struct Holding {
    pub lock: u8,
    pub holder: Holder,
}

/// Who holds each lock, which locks were looked at in vain, and the first unlock by one who did not hold the lock.
#[derive(Clone, Copy, Drop)]
struct State {
    holders: [Option<Holder>; 16],
    was_missed: [bool; 16],
    misuse: Option<Holding>,
}

impl State {
    /// Takes a lock that nobody holds, and answers whether nobody did.
    fn take(&mut self, lock: u8, holder: Holder) -> bool {
        let held = &mut self.holders[usize::from(lock % 16)];
        if held.is_some() {
            return false;
        }
        *held = Some(holder);
        true
    }

    /// Lets a lock go. One that somebody else holds, or nobody, stays as it is; the first time that is noted.
    fn let_go(&mut self, lock: u8, holder: Holder) {
        let held = &mut self.holders[usize::from(lock % 16)];
        if *held == Some(holder) {
            *held = None;
        } else if self.misuse.is_none() {
            self.misuse = Some(Holding { lock, holder });
        }
    }
}

/// Sixteen locks under a mutex. At one that was missed once, later looks are one.
#[derive(Drop)]
pub struct Locks {
    state: Mutex<State>,
}

impl Locks {
    /// Sixteen locks, which nobody holds.
    pub fn new() -> Locks {
        Locks {
            state: Mutex::new(State {
                holders: [None; 16],
                was_missed: [false; 16],
                misuse: None,
            }),
        }
    }

    /// Whether somebody has looked at this lock in vain, even if it was let go later.
    pub fn was_missed<R: Wait>(&self, rt: &R, lock: u8) -> bool {
        let state = self.state.lock(rt);
        state.was_missed[usize::from(lock % 16)]
    }

    /// The first unlock by one who did not hold the lock.
    pub fn misuse<R: Wait>(&self, rt: &R) -> Option<Holding> {
        self.state.lock(rt).misuse
    }

    /// Who holds this lock.
    pub fn holder<R: Wait>(&self, rt: &R, lock: u8) -> Option<Holder> {
        let state = self.state.lock(rt);
        state.holders[usize::from(lock % 16)]
    }

    /// Looks at a lock until it has taken it, but not for ever, and returns the state, which nobody else sees before it
    /// is dropped.
    fn take<R: Wait>(&self, rt: &R, lock: u8, holder: Holder) -> MutexGuard<'_, State> {
        let looks = if self.was_missed(rt, lock) { 1 } else { LOOKS };
        for look in 0..looks {
            let mut state = self.state.lock(rt);
            if state.take(lock, holder) {
                return state;
            }
            drop(state);
            if look % LOOKS_IN_A_ROW == 0 {
                thread::yield_now();
            }
        }
        let mut state = self.state.lock(rt);
        state.was_missed[usize::from(lock % 16)] = true;
        state
    }

    /// Takes a lock once nobody holds it. It does not wait for ever: in the end it goes on without the lock.
    pub fn lock<R: Wait>(&self, rt: &R, lock: u8, holder: Holder) {
        let _state = self.take(rt, lock, holder);
    }

    /// A run takes a lock. Where somebody holds it, the run sleeps first, and wakes after it has taken the lock.
    ///
    /// The sleep and the wake are made under the mutex. So a run that finds the lock held sleeps before anybody else
    /// takes the lock or lets it go, and it wakes before anybody else sees that it has taken it. Each schedule of
    /// threads then is one that `explore` has: these are its two moves of a run at a lock.
    pub fn lock_in_run<N: HubName, R: Wait>(
        &self,
        context: &mut RunCtx<N, R>,
        lock: u8,
    ) -> Result<(), RunFault>
        requires { context.old.fault ≡ None }
        ensures later { Later context.old.participant context.new.participant }
        ensures done { IfOk result
            (λ _. (context.new.fault ≡ None) × TakesLock N.layout context.old.participant context.new.participant) }
        ensures item { context.new.item ≡ context.old.item }
        ensures left_out { context.new.left_out ≡ context.old.left_out }
        ensures broke { IfErr result (λ f. context.new.fault ≡ Some f) }
    {
        let holder = Holder::Run(context.item());
        let mut state = self.state.lock(context.rt());
        if state.take(lock, holder) {
            return Ok(());
        }
        let asleep = context.sleep();
        drop(state);
        let _state = self.take(context.rt(), lock, holder);
        match asleep {
            Ok(_) => unless_full(context.wake()),
            Err(fault) => unless_full(Err(fault)),
        }
    }

    /// Lets a lock go. One that somebody else holds, or nobody, stays as it is, which is a misuse.
    pub fn unlock<R: Wait>(&self, rt: &R, lock: u8, holder: Holder) {
        self.state.lock(rt).let_go(lock, holder);
    }
}
