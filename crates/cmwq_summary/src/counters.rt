//! The counts of a history.
ghost use Rattle.std.specs.Prelude.{◌≡◌, ◌<◌, length, slice_index, IfOk};
ghost use Rattle.cmwq_summary.specs.Counters.{no_counts, counts_at, AreAdded, HaveRoom};
ghost use Rattle.cmwq_summary.specs.Figures.{number_of};
ghost use Rattle.cmwq_summary.specs.declared.counter.TheConstants as constants;

use crate::counter::{COUNTERS, Counter};
use crate::tally::Tally;
use cmwq_model::{NoMemory, Shape};
use cmwq_state::Effect;
use std::alloc::Global;
use std::marker::Model;

/// The counts of each counter.
#[derive(Drop)]
pub(crate) struct Counters {
    tallies: Vec<Tally>,
}

impl Model for Counters {
    ghost use Rattle.std.specs.Prelude.{◌≡◌, List, ℕ, length};
    ghost use Rattle.cmwq_summary.specs.declared.counter.TheConstants.{COUNTERS};

    ghost Value = { List (List ℕ) };

    ghost view = { λ c. c.tallies.items };

    ghost invariant = { λ c. length c.tallies.items ≡ length COUNTERS };
}

impl Counters {
    /// Nothing is counted yet. The error says that memory ran out.
    pub(crate) fn new(alloc: Global, shape: &Shape) -> Result<Counters, NoMemory>
        ensures { IfOk result (λ counters. counters ≡ no_counts shape.now) }
    {
        Ok(Counters {
            tallies: new_tallies(alloc, shape)?,
        })
    }

    /// Counts an entry with this effect under each key that it has.
    pub(crate) fn add(&mut self, effect: &Effect)
        requires { HaveRoom self.old }
        ensures { AreAdded effect.now self.old self.new }
    {
        count_each(&mut self.tallies, effect);
    }

    /// How many are counted under this key.
    pub(crate) fn count(&self, counter: Counter, key: usize) -> u64
        requires { key < length (counts_at self.now (number_of counter)) }
        ensures { result ≡ slice_index (counts_at self.now (number_of counter)) key }
    {
        self.tallies[counter.number()].count(key)
    }
}

/// An empty tally for each counter.
fn new_tallies(alloc: Global, shape: &Shape) -> Result<Vec<Tally>, NoMemory>
    ensures { IfOk result (λ tallies. tallies.items ≡ no_counts shape.now) }
{
    let mut tallies = Vec::with_capacity(alloc, COUNTERS.len())?;
    for counter in &COUNTERS {
        tallies.push_reserved(Tally::new(alloc, counter.keys(shape))?);
    }
    Ok(tallies)
}

/// Counts an entry with this effect in each tally.
fn count_each(tallies: &mut Vec<Tally>, effect: &Effect)
    requires many { length tallies.old.items ≡ length constants.COUNTERS }
    requires room { HaveRoom tallies.old.items }
    ensures { AreAdded effect.now tallies.old.items tallies.new.items }
{
    for at in 0..COUNTERS.len() {
        let key = COUNTERS[at].key(effect);
        let tally = &mut tallies[at];
        tally.add(key);
    }
}
