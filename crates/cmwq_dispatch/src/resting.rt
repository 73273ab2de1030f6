//! The workers of one pool that rest, since there was nothing to start.

ghost use Rattle.std.specs.Prelude.{◌≡◌, ◌<◌, ◌⊎◌, ◌∷◌, ◌==◌, ◌||◌, ℕ, List, MatchOption, false, true};
ghost use Rattle.cmwq_core.specs.History.{past_in};
ghost use Rattle.cmwq_model.specs.Prelude.{IsLegal, Layout, enlists, worker_at};
ghost use Rattle.cmwq_model.specs.declared.entry.Entry.{Entry as Entered};
ghost use Rattle.cmwq_model.specs.declared.id.PoolId.{PoolId as Pool};
ghost use Rattle.cmwq_model.specs.declared.id.Who.TheVariants.{Worker};
ghost use Rattle.cmwq_dispatch.specs.Resting.{IsAttendedBy, IsRecorded, IsUp, MayRest, is_index, rests_in};

use crate::asking::allows_start;
use crate::worker_set::WorkerSet;
use cmwq_core::Execution;
use cmwq_model::{Entry, PoolId, Reply, Who};

/// The workers of a pool that rest: those that are enlisted, and those of the reserve. And the one that was named to be
/// woken and has not looked yet what it may start.
#[derive(Clone, Copy)]
pub(crate) struct RestingWorkers {
    enlisted: WorkerSet,
    reserve: WorkerSet,
    named: Option<u8>,
}

impl RestingWorkers {
    /// Nobody rests.
    pub(crate) const NONE: RestingWorkers = RestingWorkers {
        enlisted: WorkerSet::NONE,
        reserve: WorkerSet::NONE,
        named: None,
    };

    /// Names one that rests, if it would start something. While one was named that has not looked yet, no other is:
    /// what it starts names the next.
    pub(crate) fn name_one(&mut self, execution: &Execution, pool: PoolId) -> Option<u8>
        requires cpu { pool.cpu.0 < execution.now.layout.cpus }
        requires recorded { IsRecorded (past_in execution.now) pool self.old }
        ensures recorded { IsRecorded (past_in execution.now) pool self.new }
        ensures attended { IsAttendedBy execution.now.layout (past_in execution.now) pool self.new }
        ensures named { MatchOption result (self.new ≡ self.old)
            (λ x. (y : ℕ) → rests_in self.old y ≡ true → (rests_in self.new y ≡ true) ⊎ (y ≡ x)) }
        ensures fewer { (y : ℕ) → rests_in self.new y ≡ true → rests_in self.old y ≡ true }
    {
        if let Some(_named) = self.named {
            return None;
        }
        let Some(index) = self.enlisted.first() else {
            return None;
        };
        if !allows_start(execution, pool) {
            return None;
        }
        self.enlisted.remove(index);
        self.named = Some(index);
        Some(index)
    }

    /// A worker rests no more, and looks itself what it may start.
    pub(crate) fn rises(&mut self, index: u8)
        ensures up { IsUp self.new index }
        ensures others { (y : ℕ) → (y == index) ≡ false → rests_in self.new y ≡ rests_in self.old y }
        ensures kept { (s : Layout) (past : List Entered) (p : Pool) → IsRecorded past p self.old
            → IsAttendedBy s past p self.old → IsRecorded past p self.new × IsAttendedBy s past p self.new }
    {
        self.enlisted.remove(index);
        self.reserve.remove(index);
        if self.named == Some(index) {
            self.named = None;
        }
    }

    /// A worker begins to rest that would start nothing: an idle one, or one of the reserve.
    pub(crate) fn rests(&mut self, index: u8, is_enlisted: bool)
        requires index { index < 64 }
        requires up { IsUp self.old index }
        ensures rests { (y : ℕ) → rests_in self.new y ≡ (rests_in self.old y || (y == index)) }
        ensures kept { (s : Layout) (past : List Entered) (p : Pool) → MayRest s past p index is_enlisted
            → IsRecorded past p self.old → IsAttendedBy s past p self.old
            → IsRecorded past p self.new × IsAttendedBy s past p self.new }
    {
        if is_enlisted {
            self.enlisted.insert(index);
        } else {
            self.reserve.insert(index);
        }
    }

    /// After an entry of one that does not rest: who is enlisted by it is of the reserve no more.
    pub(crate) fn entered(&mut self, entry: &Entry, pool: PoolId)
        requires { (x : ℕ) → entry.now.who ≡ Worker (worker_at pool x) → IsUp self.old x }
        ensures recorded { (s : Layout) (past : List Entered) → IsLegal s (entry.now ∷ past)
            → IsRecorded past pool self.old → IsRecorded (entry.now ∷ past) pool self.new }
        ensures same { (x : ℕ) → rests_in self.new x ≡ rests_in self.old x }
    {
        let Some(index) = enlisted_in(entry, pool) else {
            return;
        };
        if self.reserve.contains(index) {
            self.reserve.remove(index);
            self.enlisted.insert(index);
        }
    }
}

/// The worker of this pool that the entry enlists.
fn enlisted_in(entry: &Entry, pool: PoolId) -> Option<u8>
    ensures { MatchOption result ((x : ℕ) → enlists entry.now (worker_at pool x) ≡ false)
        (λ i. (x : ℕ) → enlists entry.now (worker_at pool x) ≡ (i == x)) }
{
    let Who::Worker(worker) = entry.who else {
        return None;
    };
    let Reply::StartedEnlist(_, index) = entry.reply else {
        return None;
    };
    if worker.pool.cpu.0 == pool.cpu.0 && worker.pool.high == pool.high {
        Some(index)
    } else {
        None
    }
}
