//! Tells, in time that really goes by, when nobody moves any more though one has the turn.

use crate::party::{Role, role_of};
use cmwq_turns::Turnstile;
use std::alloc::Global;
use std::sync::{Arc, Condvar, CondvarTimeouts, Mutex, Wait};
use std::time::{Clock, Duration};

/// The trial that is under way.
#[derive(Drop)]
struct State {
    seed: u64,
    turnstile: Option<Arc<Turnstile, Global>>,
    is_over: bool,
}

/// What is watched, under a lock.
#[derive(Drop)]
pub(crate) struct Watched {
    state: Mutex<State>,
    ended: Condvar,
    threads: u8,
}

/// How far a trial has come.
#[derive(Clone, Copy)]
pub(crate) struct Sight {
    pub seed: u64,
    turns: u64,
    has_stopped: bool,
    pub mover: Option<Role>,
}

impl Sight {
    /// Whether the trial hangs, if that is how far it was some time before: the same one has had the turn, or all are
    /// to end and somebody still takes turns.
    pub(crate) fn hangs_since(&self, before: &Sight) -> bool {
        let is_same = self.turns == before.turns || before.has_stopped;
        self.mover.is_some() && self.seed == before.seed && is_same
    }
}

impl Watched {
    /// No trial is under way. So many callers have threads.
    pub(crate) fn new(threads: u8) -> Watched {
        Watched {
            state: Mutex::new(State {
                seed: 0,
                turnstile: None,
                is_over: false,
            }),
            ended: Condvar::new(),
            threads,
        }
    }

    /// A trial begins.
    pub(crate) fn begin<R: Wait>(&self, rt: &R, seed: u64, turnstile: Arc<Turnstile, Global>) {
        let mut state = self.state.lock(rt);
        state.seed = seed;
        state.turnstile = Some(turnstile);
    }

    /// No further trial begins.
    pub(crate) fn end<R: Wait>(&self, rt: &R) {
        let mut state = self.state.lock(rt);
        state.is_over = true;
        drop(state);
        self.ended.notify_all();
    }

    /// Sleeps for so long, and returns how far the trial is that is under way, or None once no further one begins.
    pub(crate) fn look_after<R: Wait + Clock>(&self, rt: &R, time: Duration) -> Option<Sight> {
        let state = self.state.lock(rt);
        let (state, _) = self
            .ended
            .wait_timeout_while(rt, state, time, |state| !state.is_over);
        if state.is_over {
            return None;
        }
        let seed = state.seed;
        let shared = match &state.turnstile {
            Some(turnstile) => Arc::try_clone(turnstile).ok(),
            None => None,
        };
        drop(state);
        Some(self.sight(rt, seed, shared))
    }

    fn sight<R: Wait>(
        &self,
        rt: &R,
        seed: u64,
        turnstile: Option<Arc<Turnstile, Global>>,
    ) -> Sight {
        let Some(turnstile) = turnstile else {
            return Sight {
                seed,
                turns: 0,
                has_stopped: false,
                mover: None,
            };
        };
        let mover = match turnstile.mover(rt) {
            Some(party) => Some(role_of(party.who, self.threads)),
            None => None,
        };
        Sight {
            seed,
            turns: turnstile.count(rt),
            has_stopped: turnstile.has_stopped(),
            mover,
        }
    }
}
