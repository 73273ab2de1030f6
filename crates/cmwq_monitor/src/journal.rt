ghost use Rattle.std.specs.Prelude.{◌≡◌, ◌++◌, length, IfErr, IfOk};
ghost use Rattle.cmwq_model.specs.Prelude.{IsLegal, past_of};
ghost use Rattle.cmwq_state.specs.Tails.{all_given};

use crate::fault::RunFault;
use cmwq_model::Entry;
use cmwq_publish::{HubName, Prefix};
use cmwq_state::Tail;
use std::marker::Model;

/// What was not handed over when a hub ended.
#[derive(Drop)]
pub struct Rest {
    /// How many entries were handed over.
    pub first: u64,
    /// Those after them, the oldest first.
    pub entries: Vec<Entry>,
}

/// Who writes a hub's history down. Contracts see all that was handed over to it, and the last batch of that.
#[derive(Drop)]
pub struct Journal<N: HubName> {
    prefix: Prefix<N>,
    batch: Vec<Entry>,
}

impl<N: HubName> Model for Journal<N> {
    ghost use Rattle.cmwq_monitor.specs.Journals.{Journaled};

    ghost Value = { Journaled };

    ghost view = { λ j. record { seen = j.prefix; batch = j.batch.items } };
}

impl<N: HubName> Journal<N> {
    pub(crate) fn new(prefix: Prefix<N>, batch: Vec<Entry>) -> Journal<N>
        ensures { result ≡ record { seen = prefix; batch = batch.items } }
    {
        Journal { prefix, batch }
    }

    /// How many entries were handed over to it, or before it began. They are a legal history.
    pub fn len(&self) -> u64
        ensures len { result ≡ length self.now.seen }
        ensures legal { IsLegal N.layout (past_of self.now.seen) }
    {
        self.prefix.len()
    }

    /// The entries that were handed over last, the oldest first.
    pub fn batch(&self) -> &[Entry]
        ensures { result.now ≡ self.now.batch }
    {
        &self.batch
    }

    // Takes what is kept of the list that `all` has seen.
    pub(crate) fn take(
        &mut self,
        first: u64,
        tail: &mut Tail<Entry>,
        all: &Prefix<N>,
    ) -> Result<(), RunFault>
        requires first { first ≡ tail.old.given }
        requires all { tail.old.all ≡ all.now }
        ensures taken { IfOk result (λ _. self.new.seen ≡ all.now) }
        ensures batch { IfOk result (λ _. all.now ≡ self.old.seen ++ self.new.batch) }
        ensures refused { IfErr result (λ _. (self.new.seen ≡ self.old.seen) × (tail.new ≡ tail.old)) }
        ensures given { IfOk result (λ _. tail.new ≡ all_given tail.old) }
    {
        let own = self.prefix.len();
        let _within = tail.first();
        let _len = all.len();
        let _few = tail.len();
        if own != u64::from(first) {
            return Err(RunFault::Stranger {
                own,
                book: u64::from(first),
            });
        }
        if self.batch.capacity() < tail.room() as usize {
            return Err(RunFault::NoMemory { ticket: None });
        }
        self.prefix.begins(all);
        self.batch.clear();
        tail.give(&mut self.batch);
        self.prefix = all.again();
        Ok(())
    }
}
