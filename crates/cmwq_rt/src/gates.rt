//! Gates, at which work functions wait for one another.

use std::sync::{Mutex, Wait};
use std::thread;

/// What a work function waits at until another opens it. Gates have numbers below 16.
pub trait Gate {
    /// Opens a gate for good.
    fn open<R: Wait>(&self, rt: &R, gate: u8);

    /// Looks at a gate until it is open, but not for ever, and answers whether it was.
    fn pass<R: Wait>(&self, rt: &R, gate: u8) -> bool;
}

/// How often a gate is looked at.
const LOOKS: u32 = 20_000_000;

/// A look in so many lets other threads go first.
const LOOKS_IN_A_ROW: u32 = 64;

#[derive(Clone, Copy, Drop)]
struct State {
    is_open: [bool; 16],
    was_missed: [bool; 16],
}

/// Sixteen gates under a lock. At one that was missed once, later looks are one.
#[derive(Drop)]
pub struct Gates {
    state: Mutex<State>,
}

impl Gates {
    /// Sixteen shut gates.
    pub fn new() -> Gates {
        Gates {
            state: Mutex::new(State {
                is_open: [false; 16],
                was_missed: [false; 16],
            }),
        }
    }

    /// Whether a run has looked at this gate in vain, even if it was opened later.
    pub fn was_missed<R: Wait>(&self, rt: &R, gate: u8) -> bool {
        let state = self.state.lock(rt);
        state.was_missed[usize::from(gate % 16)]
    }

    fn is_open<R: Wait>(&self, rt: &R, gate: u8) -> bool {
        let state = self.state.lock(rt);
        state.is_open[usize::from(gate % 16)]
    }

    fn miss<R: Wait>(&self, rt: &R, gate: u8) {
        let mut state = self.state.lock(rt);
        state.was_missed[usize::from(gate % 16)] = true;
    }
}

impl Gate for Gates {
    fn open<R: Wait>(&self, rt: &R, gate: u8) {
        let mut state = self.state.lock(rt);
        state.is_open[usize::from(gate % 16)] = true;
    }

    fn pass<R: Wait>(&self, rt: &R, gate: u8) -> bool {
        let looks = if self.was_missed(rt, gate) { 1 } else { LOOKS };
        for look in 0..looks {
            if self.is_open(rt, gate) {
                return true;
            }
            if look % LOOKS_IN_A_ROW == 0 {
                thread::yield_now();
            }
        }
        self.miss(rt, gate);
        false
    }
}
