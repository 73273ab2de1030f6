//! The hub: one monitor behind a lock.
ghost use Rattle.std.specs.Prelude.{◌≡◌, ◌⊎◌, ◌<◌, ◌≤◌, ◌+◌, ◌++◌, [], OnErr, true, false, IsTrue, IfOk, IfErr};
ghost use Rattle.std.specs.Prelude.{None, Some};
ghost use Rattle.cmwq_model.specs.declared.call.Call.TheVariants as calls;
ghost use Rattle.cmwq_model.specs.declared.reply.Reply.TheVariants as replies;
ghost use Rattle.cmwq_model.specs.Prelude.{fits, past_of, IsLegal};
ghost use Rattle.cmwq_monitor.specs.Participants.{is_caller};
ghost use Rattle.cmwq_monitor.specs.Calls.{Extends};
ghost use Rattle.cmwq_monitor.specs.Faults.{Refused};
ghost use Rattle.cmwq_monitor.specs.Whole.{Stops};
ghost use Rattle.cmwq_monitor.specs.Steps.{HasEnded, HasEndedSome, HasFired, HasFiredSome, IsFiring};
ghost use Rattle.cmwq_rt.specs.Later.{Later};
ghost use Rattle.cmwq_rt.specs.Running.{IsNext, IsNextStart, breaks_off};
ghost use Rattle.cmwq_monitor.specs.Settled.{AllSettle};
ghost use Rattle.cmwq_rt.specs.Ending.{EndsAs, OneIsStranger};
ghost use Rattle.cmwq_rt.specs.Sleeping.{MaySleep};
ghost use Rattle.cmwq_monitor.specs.declared.monitor.Next.TheVariants.{Nothing};
ghost use Rattle.cmwq_dispatch.specs.declared.dispatch.Sleep.TheVariants.{Sleeps};
ghost use Rattle.cmwq_turns.specs.declared.party.Awaited.TheVariants.{Work};

use crate::caller::Caller;
use crate::condvars::Condvars;
use crate::hold::Hold;
use crate::worker::Worker;
use cmwq_model::{Call, Entry, ItemId, Number, Reply, Shape};
use cmwq_monitor::{
    Ended, Firing, Journal, MOST_FIRES, Monitor, Next, Participant, Rest, RunFault, Sleep,
};
use cmwq_publish::HubName;
use cmwq_turns::{Awaited, Turnstile};
use std::alloc::Global;
use std::sync::{Arc, Condvar, Mutex, Wait};
use std::time::{Clock, Duration};

/// The runtime that threads share. Its callers and workers carry its name, so that none of them is taken for another
/// hub's.
pub struct Hub<N: HubName> {
    pub(crate) monitor: Mutex<Monitor<N>>,
    pub(crate) condvars: Condvars,
    pub(crate) journal: Condvar,
    pub(crate) completed: Condvar,
    /// In a trial, where threads take turns.
    pub(crate) turns: Option<Arc<Turnstile, Global>>,
    shape: Shape,
    pub(crate) is_dropping: bool,
    ghost shape_is: { shape ≡ N.layout },
}

impl<N: HubName> Hub<N> {
    pub(crate) fn new(
        monitor: Monitor<N>,
        condvars: Condvars,
        turns: Option<Arc<Turnstile, Global>>,
        shape: Shape,
        is_dropping: bool,
    ) -> Hub<N>
        requires { shape ≡ N.layout }
    {
        Hub {
            monitor: Mutex::new(monitor),
            condvars,
            journal: Condvar::new(),
            completed: Condvar::new(),
            turns,
            shape,
            is_dropping,
        }
    }

    /// The shape of the hub.
    pub fn shape(&self) -> &Shape
        ensures { result.now ≡ N.layout }
    {
        &self.shape
    }

    /// Callers make no calls from now on: each answers `Closed`. Calls that wait go on to their end, and fire what is
    /// due. Workers go on until no active queueing is open, and nothing may be fired any more.
    pub fn close<R: Wait>(&self, rt: &R) {
        let has_turn = self.comes_to_close(rt);
        let mut hold = self.lock_at_once(rt);
        let held = &mut hold;
        held.monitor.close(&mut held.wakes);
        self.leave(rt, hold);
        if has_turn {
            self.goes(rt);
        }
    }

    /// Nobody makes a call from now on: each answers `NoMemory`, and so do those that wait. So ends the journal of a
    /// hub whose callers and workers have all come back.
    pub fn fail<R: Wait>(&self, rt: &R) {
        let mut hold = self.lock_at_once(rt);
        let held = &mut hold;
        held.monitor.fail(&mut held.wakes);
        self.leave(rt, hold);
        self.stop_turns(rt);
    }

    /// How many timers are fired after this call or after its end, at most.
    fn most_fires(&self, call: Call) -> u16
        ensures { result ≤ N.layout.items }
    {
        if call.is_tick() || call.is_drain() {
            self.shape.counts().items
        } else {
            0
        }
    }

    /// How many entries a whole call makes in one hold of the lock, at most: itself, what is fired after a tick, and
    /// where it may wait what its end makes.
    pub(crate) fn most_at_once(&self, call: Call) -> u32
        ensures { result ≤ 3 + N.layout.items }
    {
        let fires = u32::from(self.most_fires(call));
        if may_give_ticket(call) {
            3 + fires
        } else {
            1 + fires
        }
    }

    /// How many entries the wait of a run makes in one hold of the lock, at most: the sleep, the call, and what its end
    /// makes.
    pub(crate) fn most_in_run(&self, call: Call) -> u32
        ensures { result ≤ 4 + N.layout.items }
    {
        4 + u32::from(self.most_fires(call))
    }

    /// How many entries the end of a wait makes, at most: the end, what is fired after a drain, and the wake of a run.
    pub(crate) fn most_at_end(&self, call: Call) -> u32
        ensures { result ≤ 2 + N.layout.items }
    {
        2 + u32::from(self.most_fires(call))
    }

    /// A journal of a hub that has no entry yet, or of what comes from now on. `spare` is an empty buffer, at least as
    /// large as the number of entries that the hub keeps.
    pub fn journal<R: Wait>(&self, rt: &R, spare: Vec<Entry>) -> Journal<N>
        requires { spare.items ≡ [] }
        ensures legal { IsLegal N.layout (past_of result.seen) }
        ensures batch { result.batch ≡ [] }
    {
        let hold = self.lock_at_once(rt);
        let journal = hold.monitor.journal(spare);
        self.leave(rt, hold);
        let _legal = journal.len();
        journal
    }

    /// Sleeps until there is enough to write down, or the hub has failed, and takes it. It answers whether more may
    /// come.
    ///
    /// # Errors
    /// `Stranger` where the journal isn't the one that has all that was handed over, `NoMemory` where its buffer is too
    /// small. It has taken nothing then.
    pub fn hand_over<R: Wait>(&self, rt: &R, journal: &mut Journal<N>) -> Result<bool, RunFault>
        ensures batch { IfOk result (λ _. journal.new.seen ≡ journal.old.seen ++ journal.new.batch) }
        ensures legal { IfOk result (λ _. IsLegal N.layout (past_of journal.new.seen)) }
        ensures refused { OnErr result (journal.new.seen ≡ journal.old.seen) }
    {
        let mut hold = self.lock_at_once(rt);
        for _ in rt.forever() {
            if !hold.monitor.writer_sleeps() {
                break;
            }
            hold = self.sleep_until_wanted(rt, hold);
        }
        self.give(rt, hold, journal)
    }

    /// The same, but it sleeps no longer than so, and takes what there is then: so the last entries of a quiet hub are
    /// written down too.
    ///
    /// # Errors
    /// As of `hand_over`.
    pub fn hand_over_within<R: Wait + Clock>(
        &self,
        rt: &R,
        journal: &mut Journal<N>,
        time: Duration,
    ) -> Result<bool, RunFault>
        ensures batch { IfOk result (λ _. journal.new.seen ≡ journal.old.seen ++ journal.new.batch) }
        ensures legal { IfOk result (λ _. IsLegal N.layout (past_of journal.new.seen)) }
        ensures refused { OnErr result (journal.new.seen ≡ journal.old.seen) }
    {
        let mut hold = self.lock_at_once(rt);
        if hold.monitor.writer_sleeps() {
            hold = self.sleep_until_wanted_within(rt, hold, time);
        }
        self.give(rt, hold, journal)
    }

    /// Hands over what there is, lets the lock go, and answers whether more may come.
    fn give<R: Wait>(
        &self,
        rt: &R,
        hold: Hold<N>,
        journal: &mut Journal<N>,
    ) -> Result<bool, RunFault>
        ensures batch { IfOk result (λ _. journal.new.seen ≡ journal.old.seen ++ journal.new.batch) }
        ensures legal { IfOk result (λ _. IsLegal N.layout (past_of journal.new.seen)) }
        ensures refused { OnErr result (journal.new.seen ≡ journal.old.seen) }
    {
        let mut hold = hold;
        let has_failed = hold.monitor.has_failed();
        let held = &mut hold;
        let handed = held.monitor.hand_over(journal, &mut held.wakes);
        self.leave(rt, hold);
        match handed {
            Ok(()) => {
                let _len = journal.len();
                Ok(!has_failed)
            }
            Err(fault) => Err(fault),
        }
    }

    /// A call of one entry.
    pub(crate) fn call<R: Wait>(
        &self,
        rt: &R,
        participant: &mut Participant<N>,
        call: Call,
    ) -> Result<Reply, RunFault>
        requires { IsTrue (fits N.layout participant.old.who call) }
        ensures made { IfOk result (λ reply. Extends N.layout participant.old call reply participant.new) }
        ensures refused { IfErr result (λ f. Refused N.layout participant.old call f participant.new) }
    {
        let mut hold = self.spacious(rt, self.lock(rt), participant.who(), 1);
        let held = &mut hold;
        let answer = held.monitor.call(rt, participant, call, &mut held.wakes);
        self.leave(rt, hold);
        answer
    }

    /// Fires what is due, after the call of this hold. Until that is done the hub is not over.
    pub(crate) fn until_fired<'a, R: Wait>(
        &'a self,
        rt: &R,
        hold: Hold<'a, N>,
        participant: &mut Participant<N>,
    ) -> (Hold<'a, N>, Result<(), RunFault>)
        requires caller { is_caller participant.old.who ≡ true }
        requires begun { IsFiring N.layout N.layout.items participant.old participant.old }
        ensures fired { IfOk result.1 (λ _. HasFired N.layout participant.old participant.new) }
        ensures stopped { IfErr result.1
            (λ f. Stops participant.new None f × HasFiredSome participant.old participant.new) }
    {
        let mut hold = hold;
        let Some(firing) = hold.monitor.begins_firing() else {
            return (failed(hold), Err(RunFault::NoMemory { ticket: None }));
        };
        let (mut hold, fired) = self.fire_all(rt, hold, participant, &firing);
        hold.ends_firing(Some(firing));
        (hold, fired)
    }

    /// Fires what is due, in this hold of the lock, for which there is space. A hub that drops its history makes space
    /// for `MOST_FIRES` timers at a time, and for the wake of a run.
    fn fire_all<'a, R: Wait>(
        &'a self,
        rt: &R,
        hold: Hold<'a, N>,
        participant: &mut Participant<N>,
        firing: &Firing,
    ) -> (Hold<'a, N>, Result<(), RunFault>)
        requires caller { is_caller participant.old.who ≡ true }
        requires begun { IsFiring N.layout N.layout.items participant.old participant.old }
        ensures fired { IfOk result.1 (λ _. HasFired N.layout participant.old participant.new) }
        ensures stopped { IfErr result.1
            (λ f. Stops participant.new None f × HasFiredSome participant.old participant.new) }
    {
        let mut hold = hold;
        let mut left = self.shape.counts().items;
        for _ in rt.forever() {
            self.drop_if_crowded(&mut hold, u32::from(left.min(MOST_FIRES)) + 1);
            let held = &mut hold;
            match held
                .monitor
                .fire_some(rt, participant, left, firing, &mut held.wakes)
            {
                Ok(Some(rest)) => left = rest,
                Ok(None) => return (hold, Ok(())),
                Err(fault) => return (hold, Err(fault)),
            }
        }
        unreachable!()
    }

    /// Sleeps until the wait that the call of this hold began has ended. After a drain, what is due is fired: until
    /// that is done the hub is not over.
    pub(crate) fn until_ended<'a, R: Wait>(
        &'a self,
        rt: &R,
        hold: Hold<'a, N>,
        participant: &mut Participant<N>,
        call: Call,
        ticket: Number,
    ) -> (Hold<'a, N>, Result<(), RunFault>)
        requires { is_caller participant.old.who ≡ true }
        ensures ended { IfOk result.1 (λ _. HasEnded N.layout participant.old call ticket participant.new) }
        ensures stopped { IfErr result.1 (λ f. HasEndedSome N.layout participant.old call ticket f participant.new) }
    {
        let mut hold = hold;
        let firing = if call.is_drain() {
            hold.monitor.begins_firing()
        } else {
            None
        };
        let (mut hold, ended) = self.end_and_fire(rt, hold, participant, call, ticket, &firing);
        hold.ends_firing(firing);
        (hold, ended)
    }

    /// Sleeps until the wait has ended, and fires what is due after a drain.
    fn end_and_fire<'a, R: Wait>(
        &'a self,
        rt: &R,
        hold: Hold<'a, N>,
        participant: &mut Participant<N>,
        call: Call,
        ticket: Number,
        firing: &Option<Firing>,
    ) -> (Hold<'a, N>, Result<(), RunFault>)
        requires { is_caller participant.old.who ≡ true }
        ensures ended { IfOk result.1 (λ _. HasEnded N.layout participant.old call ticket participant.new) }
        ensures stopped { IfErr result.1 (λ f. HasEndedSome N.layout participant.old call ticket f participant.new) }
    {
        let (hold, ended) = self.until_done(rt, hold, participant, call, ticket);
        match ended {
            Ok(()) => {}
            Err(fault) => return (hold, Err(fault)),
        }
        if !call.is_drain() {
            return (hold, Ok(()));
        }
        let Some(firing) = firing else {
            return (failed(hold), Err(RunFault::NoMemory { ticket: None }));
        };
        self.fire_all(rt, hold, participant, firing)
    }

    /// Sleeps until the ticket's end is done. In this hold of the lock there is space for what the end makes; in each
    /// later one it is asked for.
    fn until_done<'a, R: Wait>(
        &'a self,
        rt: &R,
        hold: Hold<'a, N>,
        participant: &mut Participant<N>,
        call: Call,
        ticket: Number,
    ) -> (Hold<'a, N>, Result<(), RunFault>)
        requires { is_caller participant.old.who ≡ true }
        ensures done { IfOk result.1
            (λ _. Extends N.layout participant.old (calls.End ticket) replies.Done participant.new) }
        ensures stopped { IfErr result.1
            (λ f. (participant.new ≡ participant.old) × Stops participant.old (Some ticket) f) }
    {
        let mut hold = hold;
        let most = self.most_at_end(call);
        for _ in rt.forever() {
            let held = &mut hold;
            match held
                .monitor
                .end_or_sleep(rt, participant, ticket, &mut held.wakes)
            {
                Ok(Ended::Done) => return (hold, Ok(())),
                Ok(Ended::Not(Sleep::LooksAgain)) => hold = self.let_in(rt, hold),
                Ok(Ended::Not(Sleep::Sleeps)) => {
                    hold = self.sleep_for(rt, hold, participant.who(), call, ticket);
                }
                Ok(Ended::Not(Sleep::Over)) => {
                    hold = self.sleep_for(rt, hold, participant.who(), call, ticket);
                }
                Err(fault) => return (hold, Err(fault)),
            }
            hold = self.spacious(rt, hold, participant.who(), most);
        }
        unreachable!()
    }

    /// Sleeps until the worker may start a queueing, or may go: none, as nothing active is open; and lets the lock go.
    /// In this hold of the lock there is space for the start; in each later one it is asked for.
    pub(crate) fn until_start<'a, R: Wait>(
        &'a self,
        rt: &R,
        hold: Hold<'a, N>,
        participant: &mut Participant<N>,
    ) -> Result<Option<ItemId>, RunFault>
        requires { is_caller participant.old.who ≡ false }
        ensures fault { IfErr result (λ f. breaks_off f ≡ true) }
        ensures next { IfOk result (λ o. IsNextStart N.layout participant.old o participant.new) }
        ensures later { Later participant.old participant.new }
    {
        let mut hold = hold;
        for _ in rt.forever() {
            match next_start(rt, &mut hold, participant) {
                Ok(Next::Runs(item)) => {
                    self.leave(rt, hold);
                    return Ok(Some(item));
                }
                Ok(Next::Nothing(Sleep::Over)) => {
                    self.leave(rt, hold);
                    return Ok(None);
                }
                Ok(Next::Nothing(Sleep::LooksAgain)) => hold = self.let_in(rt, hold),
                Ok(Next::Nothing(Sleep::Sleeps)) => {
                    hold = self.sleep(rt, hold, participant.who(), Awaited::Work);
                }
                Err(fault) => {
                    self.leave(rt, hold);
                    return Err(fault);
                }
            }
            hold = self.spacious(rt, hold, participant.who(), 1);
        }
        unreachable!()
    }

    /// What was not handed over of the history, which each of these callers and workers has seen whole from then on. It
    /// waits for readers to leave.
    ///
    /// # Errors
    /// `Stranger` where one of them is another hub's. The hub and its history are then gone.
    pub fn into_history<R: Wait>(
        self,
        rt: &R,
        callers: &mut [Caller<N>],
        workers: &mut [Worker<N>],
    ) -> Result<Rest, RunFault>
        ensures legal { IfOk result
            (λ rest. EndsAs N.layout callers.old callers.new workers.old workers.new rest.first rest.entries.items) }
        ensures stranger { IfErr result (λ f. OneIsStranger callers.old f ⊎ OneIsStranger workers.old f) }
    {
        let monitor = self.into_monitor();
        let settled = settle_all(&monitor, callers, workers);
        let rest = monitor.end(rt);
        match settled {
            Ok(()) => Ok(rest),
            Err(fault) => Err(fault),
        }
    }

    pub(crate) fn into_monitor(self) -> Monitor<N> {
        let Hub {
            monitor,
            condvars: _condvars,
            journal: _journal,
            completed: _completed,
            turns: _turns,
            shape: _shape,
            is_dropping: _,
        } = self;
        monitor.into_inner()
    }
}

/// Whether the call may give a ticket.
fn may_give_ticket(call: Call) -> bool {
    matches!(
        call,
        Call::Flush { .. }
            | Call::Drain { .. }
            | Call::Destroy { .. }
            | Call::FlushItem { .. }
            | Call::FlushDelayed { .. }
            | Call::CancelSync { .. }
    )
}

/// Lets the hub fail: somebody would fire in a hub that is over. Nobody who has begun to fire in the hold of a tick, or
/// of the ticket of a drain, comes here.
fn failed<N: HubName>(hold: Hold<N>) -> Hold<N> {
    let mut hold = hold;
    let held = &mut hold;
    held.monitor.fail(&mut held.wakes);
    hold
}

/// What the worker does next. Where it may go it sees all the history.
fn next_start<N: HubName, R: Wait>(
    rt: &R,
    hold: &mut Hold<N>,
    participant: &mut Participant<N>,
) -> Result<Next, RunFault>
    requires { is_caller participant.old.who ≡ false }
    ensures fault { IfErr result (λ f. breaks_off f ≡ true) }
    ensures next { IfOk result (λ next. IsNext N.layout participant.old next participant.new) }
    ensures rests { IfOk result
        (λ next. next ≡ Nothing Sleeps → MaySleep N.layout hold.new.monitor.value participant.new.who Work) }
    ensures later { Later participant.old participant.new }
{
    match hold.monitor.start_or_rest(rt, participant, &mut hold.wakes) {
        Ok(Next::Nothing(Sleep::Over)) => {}
        Ok(Next::Nothing(Sleep::LooksAgain)) => return Ok(Next::Nothing(Sleep::LooksAgain)),
        Ok(Next::Nothing(Sleep::Sleeps)) => return Ok(Next::Nothing(Sleep::Sleeps)),
        Ok(Next::Runs(item)) => return Ok(Next::Runs(item)),
        Err(fault) => return Err(fault),
    }
    match hold.monitor.settle(participant) {
        Ok(()) => Ok(Next::Nothing(Sleep::Over)),
        Err(fault) => Err(fault),
    }
}

fn settle_all<N: HubName>(
    monitor: &Monitor<N>,
    callers: &mut [Caller<N>],
    workers: &mut [Worker<N>],
) -> Result<(), RunFault>
    ensures callers { IfOk result (λ _. AllSettle monitor.now.history callers.old callers.new) }
    ensures workers { IfOk result (λ _. AllSettle monitor.now.history workers.old workers.new) }
    ensures stranger { IfErr result (λ f. OneIsStranger callers.old f ⊎ OneIsStranger workers.old f) }
{
    settle_callers(monitor, callers)?;
    settle_workers(monitor, workers)
}

fn settle_callers<N: HubName>(
    monitor: &Monitor<N>,
    callers: &mut [Caller<N>],
) -> Result<(), RunFault>
    ensures settled { IfOk result (λ _. AllSettle monitor.now.history callers.old callers.new) }
    ensures stranger { IfErr result (λ f. OneIsStranger callers.old f) }
{
    for caller in callers.iter_mut() {
        caller.settle(monitor)?;
    }
    Ok(())
}

fn settle_workers<N: HubName>(
    monitor: &Monitor<N>,
    workers: &mut [Worker<N>],
) -> Result<(), RunFault>
    ensures settled { IfOk result (λ _. AllSettle monitor.now.history workers.old workers.new) }
    ensures stranger { IfErr result (λ f. OneIsStranger workers.old f) }
{
    for worker in workers.iter_mut() {
        worker.settle(monitor)?;
    }
    Ok(())
}
