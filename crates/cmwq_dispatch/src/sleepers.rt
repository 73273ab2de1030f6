//! Who sleeps, and who is named to be woken after an entry.

ghost use Rattle.std.specs.Prelude.{◌≡◌, ◌<◌, ◌*◌, ◌∷◌, List, IfOk, drop, false, length, true};
ghost use Rattle.cmwq_core.specs.History.{past_in};
ghost use Rattle.cmwq_model.specs.Prelude.{IsLegal, Layout};
ghost use Rattle.cmwq_model.specs.declared.entry.Entry.{Entry as Entered};
ghost use Rattle.cmwq_model.specs.declared.id.Who.TheVariants.{Worker};
ghost use Rattle.cmwq_theory_steps.specs.Endings.{ending};
ghost use Rattle.cmwq_theory_wakes.specs.Rest.{IsUnready};
ghost use Rattle.cmwq_dispatch.specs.Waiting.{IsKnown};
ghost use Rattle.cmwq_dispatch.specs.Resting.{MayRest};
ghost use Rattle.cmwq_dispatch.specs.Pools.{OwnIsUp, pool_number};
ghost use Rattle.cmwq_dispatch.specs.Asleep.{Asleep as Sleeping};
ghost use Rattle.cmwq_dispatch.specs.declared.wakes.Wakes.{Wakes as Naming};
ghost use Rattle.cmwq_dispatch.specs.Asleep.{IsLookedAfter, Leaves, NobodySleeps, Rests, Rises, SleepOn, Waits};

use crate::pools::{clear_all, look_after, place_of};
use crate::resting::RestingWorkers;
use crate::waiters::{Waiter, add, keep_others, release};
use crate::wakes::Wakes;
use cmwq_core::Execution;
use cmwq_model::{Call, CallerId, Entry, NoMemory, Queueing, Shape, Ticket, Who, WorkerId};
use std::alloc::Global;
use std::marker::Model;

/// The callers that sleep until their waits are ready, and the workers that rest. Contracts see the tickets of those
/// callers that were not named since, and which workers rest.
#[derive(Drop)]
pub(crate) struct Sleepers {
    /// Those that wait for no flush.
    waiters: Vec<Waiter>,
    /// The flushes, in the order in which they were begun.
    flushes: Vec<Waiter>,
    /// By the numbers of the pools.
    pools: Vec<RestingWorkers>,
}

impl Model for Sleepers {
    ghost use Rattle.std.specs.Prelude.{◌≡◌, ◌≤◌, ◌++◌, length};
    ghost use Rattle.cmwq_dispatch.specs.Asleep.{Asleep};
    ghost use Rattle.cmwq_dispatch.specs.Waiting.{AreFlushes, AreInOrder, unnamed};

    ghost Value = { Asleep };

    ghost view = { λ a. record {
      tickets = unnamed a.waiters.items ++ unnamed a.flushes.items;
      pools = a.pools.items;
    } };

    ghost invariant = { λ a. AreInOrder a.waiters.items × AreInOrder a.flushes.items × AreFlushes a.flushes.items
        × (length a.pools.items ≤ 128) };
}

impl Sleepers {
    /// Nobody sleeps. No later call takes memory; the error says that it ran out.
    pub(crate) fn new(alloc: Global, shape: &Shape) -> Result<Sleepers, NoMemory>
        ensures nobody { IfOk result (λ sleepers. NobodySleeps sleepers) }
        ensures places { IfOk result (λ sleepers. length sleepers.pools ≡ 2 * shape.now.cpus) }
    {
        let counts = shape.counts();
        Ok(Sleepers {
            waiters: Vec::with_capacity(alloc, usize::from(counts.callers))?,
            flushes: Vec::with_capacity(alloc, usize::from(counts.callers))?,
            pools: Vec::from_elem(alloc, RestingWorkers::NONE, 2 * usize::from(counts.cpus))?,
        })
    }

    /// A caller begins to sleep until the wait of this ticket is ready. It returns false where there was no place for
    /// it: there are as many as the shape has callers.
    pub(crate) fn waits(&mut self, ticket: Ticket) -> bool
        ensures waits { result ≡ true → Waits ticket self.old self.new }
        ensures full { result ≡ false → self.new ≡ self.old }
    {
        match ticket.call {
            Call::Flush { .. } => add(&mut self.flushes, ticket),
            _ => add(&mut self.waiters, ticket),
        }
    }

    /// A worker begins to rest, which is enlisted or of the reserve.
    pub(crate) fn rests(&mut self, worker: WorkerId, is_enlisted: bool)
        requires place { pool_number worker.pool < length self.old.pools }
        requires index { worker.index < 64 }
        ensures rests { Rests worker self.old self.new }
        ensures kept { (s : Layout) (past : List Entered) → MayRest s past worker.pool worker.index is_enlisted
            → IsLookedAfter s past self.old → IsLookedAfter s past self.new }
    {
        let place = place_of(worker.pool);
        let mut workers = self.pools[place];
        workers.rises(worker.index);
        workers.rests(worker.index, is_enlisted);
        self.pools[place] = workers;
    }

    /// A worker rests no more.
    pub(crate) fn rises(&mut self, worker: WorkerId)
        ensures rises { Rises worker self.old self.new }
        ensures up { (e : Entered) → e.who ≡ Worker worker → OwnIsUp e self.new.pools }
        ensures kept { (s : Layout) (past : List Entered) → IsLookedAfter s past self.old
            → IsLookedAfter s past self.new }
        ensures nobody { NobodySleeps self.old → NobodySleeps self.new }
    {
        let place = place_of(worker.pool);
        if place < self.pools.len() {
            let mut workers = self.pools[place];
            workers.rises(worker.index);
            self.pools[place] = workers;
        }
    }

    /// If this is a worker, it rests no more.
    pub(crate) fn rises_by(&mut self, who: Who)
        ensures up { (e : Entered) → e.who ≡ who → OwnIsUp e self.new.pools }
        ensures kept { (s : Layout) (past : List Entered) → IsLookedAfter s past self.old
            → IsLookedAfter s past self.new }
        ensures on { (now : Sleeping) (before after : Naming) → SleepOn who self.new now before after
            → SleepOn who self.old now before after }
    {
        match who {
            Who::Worker(worker) => self.rises(worker),
            Who::Caller(_) => {}
        }
    }

    /// A caller sleeps no more.
    pub(crate) fn leaves(&mut self, caller: CallerId)
        ensures { Leaves caller self.old self.new }
    {
        keep_others(&mut self.waiters, caller);
        keep_others(&mut self.flushes, caller);
    }

    /// Nobody sleeps any more.
    pub(crate) fn clear(&mut self)
        ensures nobody { NobodySleeps self.new }
        ensures places { length self.new.pools ≡ length self.old.pools }
    {
        self.waiters.clear();
        self.flushes.clear();
        clear_all(&mut self.pools);
    }

    /// After an entry that ended this queueing, of one that does not rest: those are named whose wait is ready now, and
    /// in each pool in which something may start now, a worker that would start it.
    pub(crate) fn entered(
        &mut self,
        execution: &Execution,
        shape: &Shape,
        entry: &Entry,
        ended: &Option<Queueing>,
        wakes: &mut Wakes,
    )
        requires past { past_in execution.now ≡ entry.now ∷ drop 1 (past_in execution.now) }
        requires legal { IsLegal execution.now.layout (past_in execution.now) }
        requires shape { shape.now ≡ execution.now.layout }
        requires ended { ended.now ≡ ending (drop 1 (past_in execution.now)) entry.now }
        requires own { OwnIsUp entry.now self.old.pools }
        requires before { IsLookedAfter execution.now.layout (drop 1 (past_in execution.now)) self.old }
        ensures after { IsLookedAfter execution.now.layout (past_in execution.now) self.new }
        ensures named { SleepOn entry.now.who self.old self.new wakes.old wakes.new }
    {
        release(
            &mut self.waiters,
            &mut self.flushes,
            execution,
            ended,
            wakes,
        );
        look_after(&mut self.pools, execution, shape, entry, ended, wakes);
    }
}
