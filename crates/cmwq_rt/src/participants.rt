//! The callers and workers of a hub that nobody has yet.
ghost use Rattle.std.specs.Prelude.{◌≡◌, ◌+◌, ◌<◌, ◌≤◌, [], IfOk, IfErr, MatchOption, None};
ghost use Rattle.cmwq_model.specs.declared.id.Who.TheVariants as whos;
ghost use Rattle.cmwq_model.specs.Prelude.{Layout, most_cpus, most_workers};
ghost use Rattle.cmwq_monitor.specs.Participants.{newcomer};
ghost use Rattle.cmwq_monitor.specs.declared.fault.RunFault.TheVariants.{NoPlace};
ghost use Rattle.cmwq_rt.specs.Places.{Places, after_worker, all_free, AreCounts, shares};

use crate::caller::Caller;
use crate::worker::Worker;
use cmwq_model::{CallerId, Counts, CpuId, PoolId, Who, WorkerId};
use cmwq_monitor::{Participant, RunFault};
use cmwq_publish::{HubName, Prefix, Readers};
use std::marker::Model;
use std::sync::ledger::Share;

/// Gives out the callers and the workers of a hub, each once. It stays in one thread at a time, since a reader can't be
/// shared. Contracts see which are given out.
#[derive(Drop)]
pub struct Participants<N: HubName> {
    counts: Counts,
    readers: Readers<N>,
    start: Prefix<N>,
    rest: Share<N>,
    callers: u8,
    next: Option<WorkerId>,
    workers: u16,
}

impl<N: HubName> Model for Participants<N> {
    ghost use Rattle.std.specs.Prelude.{◌≡◌, ◌+◌, ◌≤◌, []};
    ghost use Rattle.cmwq_rt.specs.Places.{Places, AreCounts, IsNextPlace, shares};

    ghost Value = { Places };

    ghost view = { λ s. record { callers = s.callers; next = s.next; workers = s.workers } };

    ghost invariant = { λ s. AreCounts N.layout s.counts × (s.start ≡ []) × (s.callers ≤ N.layout.callers)
        × (s.rest.parts + s.callers + s.workers ≡ shares) × (s.rest.amount ≡ 0)
        × IsNextPlace N.layout s.next s.workers };
}

impl<N: HubName> Participants<N> {
    pub(crate) fn new(
        counts: Counts,
        readers: Readers<N>,
        start: Prefix<N>,
        rest: Share<N>,
    ) -> Participants<N>
        requires counts { AreCounts N.layout counts }
        requires start { start ≡ [] }
        requires rest { (rest.parts ≡ shares) × (rest.amount ≡ 0) }
        ensures { result ≡ all_free }
    {
        let pool = PoolId {
            cpu: CpuId(0),
            high: false,
        };
        Participants {
            counts,
            readers,
            start,
            rest,
            callers: 0,
            next: Some(WorkerId { pool, index: 0 }),
            workers: 0,
        }
    }

    /// The callers 0, 1, 2 and so on, each with a reader while there are some.
    ///
    /// # Errors
    /// `NoPlace` where all are given out.
    pub fn caller(&mut self) -> Result<Caller<N>, RunFault>
        ensures given { IfOk result (λ c. (c ≡ newcomer (whos.Caller (record { 0 = self.old.callers })))
            × (self.old.callers < N.layout.callers) × (self.new ≡ record self.old { callers = self.old.callers + 1 })) }
        ensures none { IfErr result
            (λ f. (f ≡ NoPlace) × (self.old.callers ≡ N.layout.callers) × (self.new ≡ self.old)) }
    {
        if self.callers >= self.counts.callers {
            return Err(RunFault::NoPlace);
        }
        let reader = self.readers.next();
        let share = self.rest.split_off(1, 0);
        let who = Who::Caller(CallerId(self.callers));
        self.callers += 1;
        Ok(Caller::new(Participant::new(who, self.start.again(), share), reader))
    }

    /// The workers, by CPU, the normal pool before the one of high priority, then by index.
    ///
    /// # Errors
    /// `NoPlace` where all are given out.
    pub fn worker(&mut self) -> Result<Worker<N>, RunFault>
        ensures given { IfOk result
            (λ w. MatchOption self.old.next ⊥
            (λ x. (w ≡ newcomer (whos.Worker x))
            × (self.new ≡ record self.old { next = after_worker N.layout x; workers = self.old.workers + 1 }))) }
        ensures none { IfErr result (λ f. (f ≡ NoPlace) × (self.old.next ≡ None) × (self.new ≡ self.old)) }
    {
        let Some(worker) = self.next else {
            return Err(RunFault::NoPlace);
        };
        let share = self.rest.split_off(1, 0);
        self.next = worker_after(self.counts, worker);
        self.workers += 1;
        Ok(Worker::new(Participant::new(Who::Worker(worker), self.start.again(), share)))
    }

    /// What nobody got of the ledger.
    pub fn into_rest(self) -> Share<N>
        ensures { (result.parts + self.callers + self.workers ≡ shares) × (result.amount ≡ 0) }
    {
        let Participants {
            counts: _,
            readers: _readers,
            start: _start,
            rest,
            callers: _,
            next: _,
            workers: _,
        } = self;
        rest
    }
}

fn worker_after(counts: Counts, worker: WorkerId) -> Option<WorkerId>
    requires few { (counts.cpus ≤ most_cpus) × (counts.workers ≤ most_workers) }
    requires there { (worker.pool.cpu.0 < counts.cpus) × (worker.index < counts.workers) }
    ensures { (s : Layout) → AreCounts s counts → result ≡ after_worker s worker }
{
    let WorkerId { pool, index } = worker;
    if index + 1 < counts.workers {
        let index = index + 1;
        Some(WorkerId { pool, index })
    } else if !pool.high {
        let pool = PoolId {
            cpu: pool.cpu,
            high: true,
        };
        Some(WorkerId { pool, index: 0 })
    } else if pool.cpu.0 + 1 < counts.cpus {
        let pool = PoolId {
            cpu: CpuId(pool.cpu.0 + 1),
            high: false,
        };
        Some(WorkerId { pool, index: 0 })
    } else {
        None
    }
}
