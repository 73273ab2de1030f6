//! What threads of a hub wait for that is no call.
ghost use Rattle.std.specs.Prelude.{◌≡◌, IfErr, None, true};
ghost use Rattle.cmwq_dispatch.specs.Naming.{names_completions};
ghost use Rattle.cmwq_monitor.specs.declared.fault.RunFault.TheVariants as faults;

use crate::hold::Hold;
use crate::hub::Hub;
use cmwq_monitor::{RunFault, Wakes};
use cmwq_publish::HubName;
use cmwq_turns::Turnstile;
use std::sync::Wait;
use std::sync::atomic::{AtomicU32, Ordering};
use std::time::{Clock, Duration};

/// So many times it is completed for good.
const FOR_GOOD: u32 = u32::MAX;

/// Something that one thread of a hub waits for, and another completes (the kernel's `struct completion`). It may be
/// completed before anybody waits: it counts, and each wait takes one. The waits of one are by calls of one hub.
#[derive(Drop)]
pub struct Completion {
    done: AtomicU32,
}

impl Completion {
    /// Nothing is completed yet (`init_completion`).
    pub const fn new() -> Completion {
        Completion {
            done: AtomicU32::new(0),
        }
    }

    /// Whether a wait would end at once (`completion_done`). This may change at any time.
    pub fn is_done(&self) -> bool {
        self.done.load(Ordering::SeqCst) != 0
    }

    /// It is completed once more, or for good. All who wait for a completion are named, to look again. The caller has
    /// the lock.
    fn add(&self, is_for_good: bool, wakes: &mut Wakes)
        ensures named { names_completions wakes.new ≡ true }
    {
        let done = self.done.load(Ordering::SeqCst);
        let more = if is_for_good {
            FOR_GOOD
        } else {
            done.saturating_add(1)
        };
        self.done.store(more, Ordering::SeqCst);
        wakes.add_completions();
    }

    /// Takes one, if there is one. The caller has the lock.
    fn take(&self) -> bool {
        let done = self.done.load(Ordering::SeqCst);
        if done == 0 {
            return false;
        }
        if done != FOR_GOOD {
            self.done.store(done - 1, Ordering::SeqCst);
        }
        true
    }
}

const FAILED: RunFault = RunFault::NoMemory { ticket: None };

impl<N: HubName> Hub<N> {
    /// Completes it once: one of those who wait for it goes on, or the next one who does (`complete`).
    pub fn complete<R: Wait>(&self, rt: &R, completion: &Completion) {
        self.complete_as(rt, completion, false);
    }

    /// Completes it for good: all who wait for it go on, now and later (`complete_all`).
    pub fn complete_all<R: Wait>(&self, rt: &R, completion: &Completion) {
        self.complete_as(rt, completion, true);
    }

    fn complete_as<R: Wait>(&self, rt: &R, completion: &Completion, is_for_good: bool) {
        let mut hold = self.lock(rt);
        completion.add(is_for_good, &mut hold.wakes);
        self.leave(rt, hold);
    }

    /// Sleeps until it is completed (`wait_for_completion`).
    ///
    /// # Errors
    /// `NoMemory` if the hub has failed, so that nobody may complete it any more.
    pub fn wait_for<R: Wait>(&self, rt: &R, completion: &Completion) -> Result<(), RunFault>
        ensures { IfErr result (λ f. f ≡ faults.NoMemory None) }
    {
        let mut hold = self.lock(rt);
        for _ in rt.forever() {
            let is_done = completion.take();
            if is_done || hold.monitor.has_failed() {
                self.leave(rt, hold);
                return if is_done { Ok(()) } else { Err(FAILED) };
            }
            hold = self.sleep_until_completed(rt, hold);
        }
        unreachable!()
    }

    /// Sleeps until it is completed, but no longer than so, and returns whether it was
    /// (`wait_for_completion_timeout`).
    ///
    /// # Errors
    /// `NoMemory` if the hub has failed.
    pub fn wait_for_within<R: Wait + Clock>(
        &self,
        rt: &R,
        completion: &Completion,
        time: Duration,
    ) -> Result<bool, RunFault>
        ensures { IfErr result (λ f. f ≡ faults.NoMemory None) }
    {
        let hold = match &self.turns {
            Some(turns) => self.wait_in_turn_within(rt, turns, completion, time),
            None => self.sleep_until_completed_within(rt, self.lock(rt), completion, time),
        };
        let (is_done, has_failed) = (completion.take(), hold.monitor.has_failed());
        self.leave(rt, hold);
        if !is_done && has_failed {
            return Err(FAILED);
        }
        Ok(is_done)
    }

    fn wait_in_turn_within<'a, R: Wait>(
        &'a self,
        rt: &R,
        turns: &Turnstile,
        completion: &Completion,
        time: Duration,
    ) -> Hold<'a, N> {
        let until = turns.time_after(rt, time);
        let mut hold = self.lock(rt);
        let mut is_past = false;
        for _ in rt.forever() {
            if is_past || completion.is_done() || hold.monitor.has_failed() {
                return hold;
            }
            (hold, is_past) = self.sleep_in_turn_until(rt, turns, hold, until);
        }
        unreachable!()
    }
}
