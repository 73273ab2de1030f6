//! Counts by a key.
ghost use Rattle.std.specs.Prelude.{◌≡◌, ◌<◌, ℕ, length, replicate, slice_index, vec_len, IfOk};
ghost use Rattle.cmwq_summary.specs.Tallies.{with_one};
ghost use Rattle.cmwq_summary.specs.Peaks.{raised_at, without_one, AreRaised};

use cmwq_model::NoMemory;
use std::alloc::Global;
use std::marker::Model;

/// How many entries there are by some key, which is a small number.
#[derive(Drop)]
pub(crate) struct Tally {
    counts: Vec<u64>,
}

impl Model for Tally {
    ghost use Rattle.std.specs.Prelude.{ℕ, List};

    ghost Value = { List ℕ };

    ghost view = { λ t. t.counts.items };
}

impl Tally {
    /// Nothing is counted under so many keys. The error says that memory ran out.
    pub(crate) fn new(alloc: Global, keys: usize) -> Result<Tally, NoMemory>
        ensures { IfOk result (λ tally. tally ≡ replicate keys 0) }
    {
        Ok(Tally {
            counts: vec![in alloc; 0; keys]?,
        })
    }

    /// How many there are of this key.
    pub(crate) fn count(&self, key: usize) -> u64
        requires { key < length self.now }
        ensures { result ≡ slice_index self.now key }
    {
        self.counts[key]
    }

    /// Counts one more under this key, if there is one that the table has.
    pub(crate) fn add(&mut self, key: Option<usize>)
        requires few { (k : ℕ) → slice_index self.old k < 9223372036854775808 }
        ensures { self.new ≡ with_one self.old key }
    {
        if let Some(key) = key {
            if key < self.counts.len() {
                self.counts[key] += 1;
            }
        }
    }

    /// Counts one less under this key, if there is one that the table has.
    pub(crate) fn remove(&mut self, key: Option<usize>)
        ensures { self.new ≡ without_one self.old key }
    {
        if let Some(key) = key {
            if key < self.counts.len() {
                self.counts[key] = self.counts[key].saturating_sub(1);
            }
        }
    }

    /// Raises the count under this key to that of another table, if there is a key that the tables have.
    pub(crate) fn raise(&mut self, key: Option<usize>, others: &Tally)
        requires { length others.now ≡ length self.old }
        ensures { self.new ≡ raised_at self.old key others.now }
    {
        if let Some(key) = key {
            if key < self.counts.len() {
                self.counts[key] = self.counts[key].max(others.counts[key]);
            }
        }
    }

    /// Raises the count under this key to another, if there is a key that the table has.
    pub(crate) fn raise_to(&mut self, key: Option<usize>, others: &[u32])
        requires { length others.now ≡ length self.old }
        ensures { self.new ≡ raised_at self.old key others.now }
    {
        if let Some(key) = key {
            if key < self.counts.len() {
                self.counts[key] = self.counts[key].max(u64::from(others[key]));
            }
        }
    }

    /// Raises each count to another.
    pub(crate) fn raise_all(&mut self, others: &[u32])
        requires { length others.now ≡ length self.old }
        ensures { AreRaised self.old self.new others.now }
    {
        raise_each(&mut self.counts, others);
    }
}

/// Raises each count to another.
fn raise_each(counts: &mut Vec<u64>, others: &[u32])
    requires { length others.now ≡ vec_len counts.old }
    ensures { AreRaised counts.old.items counts.new.items others.now }
{
    for k in 0..counts.len() {
        counts[k] = counts[k].max(u64::from(others[k]));
    }
}
