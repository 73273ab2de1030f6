//! The handle of those who take turns.

use crate::party::Awaited;
use crate::turnstile::Turnstile;
use std::io;
use std::sync::Wait;
use std::time::{Clock, Duration};

/// A handle by which one waits, and whose clock is that of a turnstile: who sleeps lets others move, and time goes by
/// at once when all sleep.
#[derive(Clone, Copy, Drop)]
pub struct Seat<'a, R> {
    rt: &'a R,
    turnstile: &'a Turnstile,
}

impl<'a, R> Seat<'a, R> {
    /// A handle for all who take turns at this turnstile.
    pub fn new(rt: &'a R, turnstile: &'a Turnstile) -> Seat<'a, R> {
        Seat { rt, turnstile }
    }
}

impl<'a, R: Wait> Wait for Seat<'a, R> {}

impl<'a, R: Wait> Clock for Seat<'a, R> {
    fn monotonic(&self) -> io::Result<Duration> {
        Ok(Duration::from_nanos(self.turnstile.now(self.rt)))
    }

    fn since_1970(&self) -> io::Result<Duration> {
        Ok(Duration::from_nanos(self.turnstile.now(self.rt)))
    }

    fn sleep(&self, duration: Duration) {
        let until = self.turnstile.time_after(self.rt, duration);
        self.turnstile.sleep_until(self.rt, Awaited::Time, until);
    }
}
