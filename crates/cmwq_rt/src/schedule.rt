//! Which thread of a hub goes on: the lock, and who sleeps and is woken. In a trial threads take turns, and a turn is a
//! hold of the lock. Contracts say of it only that one who sleeps by the lock is known to sleep under that same hold.
ghost use Rattle.std.specs.Prelude.{◌≡◌, true};
ghost use Rattle.cmwq_model.specs.declared.id.CallerId.{CallerId};
ghost use Rattle.cmwq_model.specs.declared.id.Who.TheVariants as whos;
ghost use Rattle.cmwq_rt.specs.Sleeping.{MaySleep, MaySleepFor};
ghost use Rattle.cmwq_turns.specs.declared.party.Awaited.TheVariants.{Space, Ticket};

use crate::completion::Completion;
use crate::hold::Hold;
use crate::hub::Hub;
use cmwq_model::{Call, Number, Who};
use cmwq_monitor::{Monitor, Named, Wakes};
use cmwq_publish::HubName;
use cmwq_turns::{Awaited, Turnstile};
use std::sync::{CondvarTimeouts, MutexGuard, Wait};
use std::time::{Clock, Duration};

/// What a caller sleeps for whose call gave this ticket.
fn awaited_end(who: Who, call: Call, ticket: Number) -> Awaited
    ensures { (c : CallerId) → who ≡ whos.Caller c → result ≡ Ticket c call ticket }
{
    match who {
        Who::Caller(caller) => Awaited::Ticket {
            caller,
            call,
            ticket,
        },
        Who::Worker(_) => Awaited::Work,
    }
}

/// Whether a caller or a worker is named.
fn names_anyone(named: &Named) -> bool {
    named.callers[0].is_some()
        || named.workers[0].is_some()
        || named.all_callers
        || named.all_workers
}

/// In a trial, those who are named want a turn. Where everybody is named nothing is completed by that: the hub is
/// closed, is over or fails, or there is space. A hub that fails stops the trial.
fn notify_in_turn<R: Wait>(rt: &R, turns: &Turnstile, named: &Named) {
    if names_anyone(named) {
        turns.wake(
            rt,
            &named.callers,
            &named.workers,
            named.all_callers,
            named.all_workers,
        );
    }
    if named.completions && !named.all_callers {
        turns.signal(rt);
    }
}

impl<N: HubName> Hub<N> {
    /// Takes the lock. In a trial others may move before.
    pub(crate) fn lock<R: Wait>(&self, rt: &R) -> Hold<N> {
        match &self.turns {
            Some(turns) => {
                turns.turn(rt);
                self.lock_in_turn(rt, turns)
            }
            None => self.lock_at_once(rt),
        }
    }

    /// Takes the lock, in a trial too without a turn.
    pub(crate) fn lock_at_once<R: Wait>(&self, rt: &R) -> Hold<N> {
        Hold::new(self.monitor.lock(rt))
    }

    /// Takes the lock for the one that has the turn. A trial that has stopped fails the hub, so that all come to their
    /// end.
    fn lock_in_turn<R: Wait>(&self, rt: &R, turns: &Turnstile) -> Hold<N> {
        let mut hold = self.lock_at_once(rt);
        if turns.has_stopped() && !hold.monitor.has_failed() {
            let held = &mut hold;
            held.monitor.fail(&mut held.wakes);
        }
        hold
    }

    /// Lets the lock go, and then wakes those who are named, so that nobody wakes only to wait for it.
    pub(crate) fn leave<R: Wait>(&self, rt: &R, hold: Hold<N>) {
        let Hold { monitor, wakes } = hold;
        MutexGuard::unlock(monitor);
        self.notify(rt, wakes);
    }

    /// Lets the lock go and takes it again, so that others come in between.
    pub(crate) fn let_in<'a, R: Wait>(&'a self, rt: &R, hold: Hold<'a, N>) -> Hold<'a, N> {
        self.leave(rt, hold);
        self.lock(rt)
    }

    /// Wakes those who are named, for one that goes to sleep by the lock.
    fn wake_first<'a, R: Wait>(&self, rt: &R, hold: Hold<'a, N>) -> MutexGuard<'a, Monitor<N>> {
        let Hold { monitor, wakes } = hold;
        self.notify(rt, wakes);
        monitor
    }

    /// Wakes those who are named.
    fn notify<R: Wait>(&self, rt: &R, wakes: Wakes) {
        let named = wakes.into_named();
        match &self.turns {
            Some(turns) => notify_in_turn(rt, turns, &named),
            None => self.notify_threads(&named),
        }
        if named.journal {
            self.journal.notify_all();
        }
    }

    fn notify_threads(&self, named: &Named) {
        self.condvars.notify(named);
        if named.completions {
            self.completed.notify_all();
        }
    }

    /// Spins for a while or sleeps, until it is woken, with the lock let go meanwhile. What it waits for is looked at
    /// before it sleeps: who has spun in vain sleeps the next time.
    pub(crate) fn sleep<'a, R: Wait>(
        &'a self,
        rt: &R,
        hold: Hold<'a, N>,
        who: Who,
        awaited: Awaited,
    ) -> Hold<'a, N>
        requires { MaySleep N.layout hold.monitor.value who awaited }
    {
        let mut hold = match &self.turns {
            Some(turns) => self.sleep_in_turn(rt, turns, hold, awaited),
            None => self.sleep_on_thread(rt, hold, who),
        };
        hold.monitor.awakes(who);
        hold
    }

    /// A caller sleeps until the wait of this ticket is ready, which this call of it began.
    pub(crate) fn sleep_for<'a, R: Wait>(
        &'a self,
        rt: &R,
        hold: Hold<'a, N>,
        who: Who,
        call: Call,
        ticket: Number,
    ) -> Hold<'a, N>
        requires { MaySleepFor N.layout hold.monitor.value who ticket }
    {
        self.sleep(rt, hold, who, awaited_end(who, call, ticket))
    }

    /// Sleeps until it is woken and has the turn.
    fn sleep_in_turn<'a, R: Wait>(
        &'a self,
        rt: &R,
        turns: &Turnstile,
        hold: Hold<'a, N>,
        awaited: Awaited,
    ) -> Hold<'a, N> {
        self.leave(rt, hold);
        turns.sleep(rt, awaited);
        self.lock_in_turn(rt, turns)
    }

    fn sleep_on_thread<'a, R: Wait>(&'a self, rt: &R, hold: Hold<'a, N>, who: Who) -> Hold<'a, N> {
        match self.condvars.to_spin(who) {
            Some(seen) => {
                self.leave(rt, hold);
                self.condvars.spin(who, seen);
                self.lock_at_once(rt)
            }
            None => self.sleep_at_once(rt, hold, who),
        }
    }

    /// Sleeps until its condvar is notified, with the lock let go meanwhile.
    fn sleep_at_once<'a, R: Wait>(&self, rt: &R, hold: Hold<'a, N>, who: Who) -> Hold<'a, N> {
        let monitor = self.wake_first(rt, hold);
        Hold::new(self.condvars.wait(rt, monitor, who))
    }

    /// Sleeps until there is space for so many entries, or makes it where nobody wants them. It is asked once for all
    /// entries of a move, before the first: so want of space says when a move is made, and never what it is.
    #[inline(always)]
    pub(crate) fn spacious<'a, R: Wait>(
        &'a self,
        rt: &R,
        hold: Hold<'a, N>,
        who: Who,
        entries: u32,
    ) -> Hold<'a, N> {
        if hold.monitor.has_space(entries) {
            return hold;
        }
        self.sleep_until_space(rt, hold, who, entries)
    }

    /// The same of a hub that has no space now.
    fn sleep_until_space<'a, R: Wait>(
        &'a self,
        rt: &R,
        hold: Hold<'a, N>,
        who: Who,
        entries: u32,
    ) -> Hold<'a, N> {
        let mut hold = hold;
        for _ in rt.forever() {
            if hold.monitor.has_space(entries) {
                return hold;
            }
            if self.is_dropping {
                hold.monitor.drop_kept();
                return hold;
            }
            let held = &mut hold;
            held.monitor.crowds(&mut held.wakes);
            hold = self.sleep(rt, hold, who, Awaited::Space);
        }
        unreachable!()
    }

    /// In a hub that drops its history there is space for so many entries from now on. It lets nobody in.
    pub(crate) fn drop_if_crowded(&self, hold: &mut Hold<N>, entries: u32) {
        if self.is_dropping && !hold.monitor.has_space(entries) {
            hold.monitor.drop_kept();
        }
    }

    /// Sleeps until there is something to write down.
    pub(crate) fn sleep_until_wanted<'a, R: Wait>(&self, rt: &R, hold: Hold<'a, N>) -> Hold<'a, N>
        requires { hold.monitor.value.writer_sleeps ≡ true }
    {
        let monitor = self.wake_first(rt, hold);
        Hold::new(self.journal.wait(rt, monitor))
    }

    /// The same, but no longer than so.
    pub(crate) fn sleep_until_wanted_within<'a, R: Wait + Clock>(
        &self,
        rt: &R,
        hold: Hold<'a, N>,
        time: Duration,
    ) -> Hold<'a, N>
        requires { hold.monitor.value.writer_sleeps ≡ true }
    {
        let monitor = self.wake_first(rt, hold);
        let (monitor, _) = self.journal.wait_timeout(rt, monitor, time);
        Hold::new(monitor)
    }

    /// Sleeps until something is completed, or the hub has failed.
    pub(crate) fn sleep_until_completed<'a, R: Wait>(
        &'a self,
        rt: &R,
        hold: Hold<'a, N>,
    ) -> Hold<'a, N> {
        match &self.turns {
            Some(turns) => self.sleep_in_turn(rt, turns, hold, Awaited::Completion),
            None => {
                let monitor = self.wake_first(rt, hold);
                Hold::new(self.completed.wait(rt, monitor))
            }
        }
    }

    /// Sleeps until it is completed or the hub has failed, but no longer than so. The clock is that of threads.
    pub(crate) fn sleep_until_completed_within<'a, R: Wait + Clock>(
        &self,
        rt: &R,
        hold: Hold<'a, N>,
        completion: &Completion,
        time: Duration,
    ) -> Hold<'a, N> {
        let monitor = self.wake_first(rt, hold);
        let (monitor, _) = self.completed.wait_timeout_while(
            rt,
            monitor,
            time,
            |monitor| !completion.is_done() && !monitor.has_failed(),
        );
        Hold::new(monitor)
    }

    /// In a trial, sleeps until something is completed, and returns whether it is this time by the trial's clock.
    pub(crate) fn sleep_in_turn_until<'a, R: Wait>(
        &'a self,
        rt: &R,
        turns: &Turnstile,
        hold: Hold<'a, N>,
        until: u64,
    ) -> (Hold<'a, N>, bool) {
        self.leave(rt, hold);
        let is_past = turns.sleep_until(rt, Awaited::Completion, until);
        (self.lock_in_turn(rt, turns), is_past)
    }

    /// In a trial, the one that closes the hub comes, and waits for its turn. Returns whether it has one.
    pub(crate) fn comes_to_close<R: Wait>(&self, rt: &R) -> bool {
        match &self.turns {
            Some(turns) => turns.come_to_close(rt),
            None => false,
        }
    }

    /// In a trial, a caller or a worker comes, and waits for its first turn.
    pub(crate) fn comes<R: Wait>(&self, rt: &R, who: Who) {
        if let Some(turns) = &self.turns {
            turns.come(rt, who);
        }
    }

    /// In a trial, the one that has the turn takes no further one.
    pub(crate) fn goes<R: Wait>(&self, rt: &R) {
        if let Some(turns) = &self.turns {
            turns.go(rt);
        }
    }

    /// In a trial, all come to their end, in turns.
    pub(crate) fn stop_turns<R: Wait>(&self, rt: &R) {
        if let Some(turns) = &self.turns {
            turns.stop(rt);
        }
    }
}
