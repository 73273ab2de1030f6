//! A worker of a hub.
ghost use Rattle.std.specs.Prelude.{◌≡◌, ◌+◌, true, false, IfOk, IfErr};
ghost use mathlib.Core.List.{IsPrefix};
ghost use Rattle.cmwq_model.specs.Prelude.{past_of, IsLegal};
ghost use Rattle.cmwq_monitor.specs.Participants.{Agree, View, is_caller};
ghost use Rattle.cmwq_monitor.specs.Held.{active_in};
ghost use Rattle.cmwq_monitor.specs.Faults.{IsStranger};
ghost use Rattle.cmwq_rt.specs.Later.{Later};
ghost use Rattle.cmwq_rt.specs.Running.{EndsRun, HasWorked, IsNextStart, breaks_off};
ghost use Rattle.cmwq_monitor.specs.Settled.{Settles};
ghost use Rattle.cmwq_rt.specs.declared.left_out.LeftOut as sums;

use crate::hub::Hub;
use crate::left_out::LeftOut;
use crate::lent::Lent;
use crate::work::{Work, run_in, with_room};
use cmwq_model::{Call, ItemId};
use cmwq_monitor::{Monitor, Participant, RunFault};
use cmwq_publish::HubName;
use std::marker::Model;
use std::sync::Wait;
use std::sync::ledger::Share;

/// How many entries a worker makes in one hold of the lock, at most: the end of a run, the way to the reserve, and the
/// next start.
const MOST_AT_FINISH: u32 = 3;

/// A worker: it runs what is queued on its pool. Contracts see who it is, its serial and the history that it has seen.
#[derive(Drop)]
pub struct Worker<N: HubName> {
    participant: Participant<N>,
}

impl<N: HubName> Model for Worker<N> {
    ghost use Rattle.std.specs.Prelude.{◌≡◌, false};
    ghost use Rattle.cmwq_monitor.specs.Participants.{View, is_caller};

    ghost Value = { View };

    ghost view = { λ w. w.participant };

    ghost invariant = { λ w. is_caller w.participant.who ≡ false };
}

impl<N: HubName> Worker<N> {
    pub(crate) fn new(participant: Participant<N>) -> Worker<N>
        requires { is_caller participant.who ≡ false }
        ensures { result ≡ participant }
    {
        Worker { participant }
    }

    pub(crate) fn settle(&mut self, monitor: &Monitor<N>) -> Result<(), RunFault>
        ensures settled { IfOk result (λ _. Settles monitor.now.history self.old self.new) }
        ensures stranger { IfErr result (λ f. (self.new ≡ self.old) × IsStranger self.old f) }
    {
        monitor.settle(&mut self.participant)
    }

    /// How many entries it has made.
    pub fn serial(&self) -> u64
        ensures { result ≡ self.now.serial }
    {
        self.participant.serial()
    }

    pub(crate) fn participant(&self) -> &Participant<N>
        ensures { result.now ≡ self.now }
    {
        &self.participant
    }

    /// Of what two workers of a hub have seen the shorter begins the longer.
    pub fn agrees(&self, other: &Worker<N>)
        ensures { Agree self.now.seen other.now.seen }
    {
        self.participant.agrees(&other.participant);
    }

    pub(crate) fn into_share(self) -> Share<N>
        ensures { (result.parts ≡ 1) × (result.amount ≡ self.serial) }
    {
        self.participant.into_share()
    }
}

/// What a worker's loop did: how many entries it made, and how many waits its runs left out.
#[derive(Clone, Copy, Debug, PartialEq, Eq)]
pub struct Worked {
    pub entries: u64,
    pub left_out: LeftOut,
}

impl<N: HubName> Hub<N> {
    /// A worker's loop (`worker_thread`): it starts what it may start, runs the work function once for each start, and
    /// goes when the hub is closed and no active queueing is open, as it then sees. It answers how many entries it
    /// made. Between runs it sleeps, or goes to the pool's reserve where it would be sent there. What each run made is
    /// what the work function says that it does.
    ///
    /// # Errors
    /// `NoMemory` where the hub has failed; whatever else is answered, the hub has failed from then on.
    pub fn work<R: Wait, W: Work>(
        &self,
        rt: &R,
        worker: &mut Worker<N>,
        work: &W,
    ) -> Result<u64, RunFault>
        ensures fault { IfErr result (λ f. breaks_off f ≡ true) }
        ensures worked { IfOk result
            (λ _. (l : sums.LeftOut) × HasWorked N.layout (W.does work.now N.layout) l worker.old worker.new) }
        ensures idle { IfOk result (λ _. active_in N.layout worker.new.seen ≡ 0) }
        ensures count { IfOk result (λ n. worker.new.serial ≡ worker.old.serial + n) }
        ensures seen { IsPrefix worker.old.seen worker.new.seen }
        ensures legal { IsLegal N.layout (past_of worker.new.seen) }
        ensures same { worker.new.who ≡ worker.old.who }
    {
        match self.loop_on(rt, worker, None, work) {
            Ok(worked) => Ok(worked.entries),
            Err(fault) => Err(fault),
        }
    }

    /// The same. Runs may wait, by callers that are lent to them meanwhile.
    ///
    /// # Errors
    /// Those of `work`.
    pub fn work_lent<'a, R: Wait, W: Work>(
        &'a self,
        rt: &'a R,
        worker: &mut Worker<N>,
        work: &W,
        lent: &'a Lent<N>,
    ) -> Result<u64, RunFault>
        ensures fault { IfErr result (λ f. breaks_off f ≡ true) }
        ensures worked { IfOk result
            (λ _. (l : sums.LeftOut) × HasWorked N.layout (W.does work.now N.layout) l worker.old worker.new) }
        ensures idle { IfOk result (λ _. active_in N.layout worker.new.seen ≡ 0) }
        ensures count { IfOk result (λ n. worker.new.serial ≡ worker.old.serial + n) }
        ensures seen { IsPrefix worker.old.seen worker.new.seen }
        ensures legal { IsLegal N.layout (past_of worker.new.seen) }
        ensures same { worker.new.who ≡ worker.old.who }
    {
        match self.loop_on(rt, worker, Some(lent), work) {
            Ok(worked) => Ok(worked.entries),
            Err(fault) => Err(fault),
        }
    }

    /// The same. It answers too how many waits the runs left out.
    ///
    /// # Errors
    /// Those of `work`.
    pub fn work_counting<'a, R: Wait, W: Work>(
        &'a self,
        rt: &'a R,
        worker: &mut Worker<N>,
        work: &W,
        lent: &'a Lent<N>,
    ) -> Result<Worked, RunFault>
        ensures fault { IfErr result (λ f. breaks_off f ≡ true) }
        ensures worked { IfOk result
            (λ t. HasWorked N.layout (W.does work.now N.layout) t.left_out worker.old worker.new) }
        ensures idle { IfOk result (λ _. active_in N.layout worker.new.seen ≡ 0) }
        ensures count { IfOk result (λ t. worker.new.serial ≡ worker.old.serial + t.entries) }
        ensures seen { IsPrefix worker.old.seen worker.new.seen }
        ensures legal { IsLegal N.layout (past_of worker.new.seen) }
        ensures same { worker.new.who ≡ worker.old.who }
    {
        self.loop_on(rt, worker, Some(lent), work)
    }

    /// Runs one item after another until the hub is over, and counts the entries and the waits that runs left out.
    fn loop_on<'a, R: Wait, W: Work>(
        &'a self,
        rt: &'a R,
        worker: &mut Worker<N>,
        lent: Option<&'a Lent<N>>,
        work: &W,
    ) -> Result<Worked, RunFault>
        ensures fault { IfErr result (λ f. breaks_off f ≡ true) }
        ensures worked { IfOk result
            (λ t. HasWorked N.layout (W.does work.now N.layout) t.left_out worker.old worker.new) }
        ensures idle { IfOk result (λ _. active_in N.layout worker.new.seen ≡ 0) }
        ensures count { IfOk result (λ t. worker.new.serial ≡ worker.old.serial + t.entries) }
        ensures seen { IsPrefix worker.old.seen worker.new.seen }
        ensures legal { IsLegal N.layout (past_of worker.new.seen) }
        ensures same { worker.new.who ≡ worker.old.who }
    {
        let first = worker.participant.serial();
        let ended = self.run_all(rt, &mut worker.participant, lent, work);
        let last = worker.participant.serial();
        let _legal = worker.participant.seen();
        match ended {
            Ok(left_out) => Ok(Worked {
                entries: last - first,
                left_out,
            }),
            Err(fault) => {
                self.fail(rt);
                Err(fault)
            }
        }
    }

    /// One run after another. It answers how many waits they left out.
    fn run_all<'a, R: Wait, W: Work>(
        &'a self,
        rt: &'a R,
        participant: &mut Participant<N>,
        lent: Option<&'a Lent<N>>,
        work: &W,
    ) -> Result<LeftOut, RunFault>
        requires { is_caller participant.old.who ≡ false }
        ensures fault { IfErr result (λ f. breaks_off f ≡ true) }
        ensures worked { IfOk result
            (λ l. HasWorked N.layout (W.does work.now N.layout) l participant.old participant.new) }
        ensures idle { IfOk result (λ _. active_in N.layout participant.new.seen ≡ 0) }
        ensures later { Later participant.old participant.new }
    {
        let hold = self.spacious(rt, self.lock(rt), participant.who(), 1);
        let mut next = self.until_start(rt, hold, participant)?;
        let mut left_out = LeftOut::none();
        for _ in rt.forever() {
            let Some(item) = next else {
                return Ok(left_out);
            };
            let of_run = run_in(rt, self, participant, lent, work, item)?;
            left_out = left_out.plus(of_run);
            next = self.go_on(rt, participant)?;
        }
        unreachable!()
    }

    /// Ends the run, and starts the next one: in one hold of the lock, if there is one now.
    fn go_on<R: Wait>(
        &self,
        rt: &R,
        participant: &mut Participant<N>,
    ) -> Result<Option<ItemId>, RunFault>
        requires { is_caller participant.old.who ≡ false }
        ensures fault { IfErr result (λ f. breaks_off f ≡ true) }
        ensures next { IfOk result (λ o. (ended : View) × EndsRun N.layout participant.old ended
            × IsNextStart N.layout ended o participant.new) }
        ensures later { Later participant.old participant.new }
    {
        let mut hold = self.spacious(rt, self.lock(rt), participant.who(), MOST_AT_FINISH);
        let held = &mut hold;
        let finished = held
            .monitor
            .call(rt, participant, Call::Finish, &mut held.wakes);
        if let Err(fault) = finished {
            self.leave(rt, hold);
            return Err(with_room(fault));
        }
        let held = &mut hold;
        let retired = held.monitor.retire(rt, participant, &mut held.wakes);
        if let Err(fault) = retired {
            self.leave(rt, hold);
            return Err(fault);
        }
        self.until_start(rt, hold, participant)
    }
}
