//! What one who waits for its turn sleeps at.

use std::hint::spin_loop;
use std::sync::Wait;
use std::sync::atomic::{AtomicU64, Ordering};

const SILENT: u64 = 0;

const RUNG: u64 = 1;

const ASLEEP: u64 = 2;

/// How often one looks whether it was rung for, before it sleeps.
const LOOKS: u32 = 0;

/// A bell that one thread sleeps at. A ring is kept until it is heard, and costs a call of the system only if that
/// thread sleeps.
#[derive(Drop)]
pub(crate) struct Bell {
    state: AtomicU64,
}

impl Bell {
    pub(crate) fn new() -> Bell {
        Bell {
            state: AtomicU64::new(SILENT),
        }
    }

    fn exchange(&self, from: u64, to: u64) -> bool {
        self.state
            .compare_exchange(from, to, Ordering::SeqCst, Ordering::SeqCst)
            .is_ok()
    }

    pub(crate) fn ring(&self) {
        if self.state.swap(RUNG, Ordering::SeqCst) == ASLEEP {
            self.state.wake_one();
        }
    }

    /// Sleeps until it is rung, once for each ring.
    pub(crate) fn hear<R: Wait>(&self, rt: &R) {
        for _ in 0..LOOKS {
            if self.exchange(RUNG, SILENT) {
                return;
            }
            spin_loop();
        }
        self.exchange(SILENT, ASLEEP);
        for _ in rt.forever() {
            if self.exchange(RUNG, SILENT) {
                return;
            }
            self.state.park(rt, ASLEEP as u32);
        }
    }
}
