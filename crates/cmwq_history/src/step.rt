//! The next entry of a legal history.

ghost use Rattle.std.specs.Prelude.{◌≡◌, length};
ghost use Rattle.cmwq_core.specs.History.{past_in};
ghost use Rattle.cmwq_history.specs.Steps.{IsStep, IsNext, step_of, after};

use cmwq_base::Entry;
use cmwq_core::{Judge, Told};
use cmwq_state::State;
use std::marker::Model;

/// The next entry of a legal history: what is told of it, and what stands after it. Contracts see all entries before
/// it.
#[derive(Drop)]
pub struct Step<'a, T: Told + Drop> {
    entry: &'a Entry,
    told: T,
    judge: &'a Judge,
}

impl<'a, T: Told + Drop> Model for Step<'a, T> {
    ghost use Rattle.cmwq_history.specs.Steps.{Stepped, IsStep, step_of};

    ghost Value = { Stepped T };

    ghost view = { λ s. step_of s.judge.now s.entry.now s.told };

    ghost invariant = { λ s. IsStep T.tells s.judge.now s.entry.now s.told };
}

impl<'a, T: Told + Drop> Step<'a, T> {
    /// The step that a judge has just made.
    pub(crate) fn new(entry: &'a Entry, told: T, judge: &'a Judge) -> Step<'a, T>
        requires { IsStep T.tells judge.now entry.now told }
        ensures { result ≡ step_of judge.now entry.now told }
    {
        Step { entry, told, judge }
    }

    /// The entry.
    pub fn entry(&self) -> &Entry
        ensures { result.now ≡ self.now.entry }
    {
        self.entry
    }

    /// What is told of the entry.
    pub fn told(&self) -> &T
        ensures told { result.now ≡ self.now.told }
        ensures next { IsNext T.tells self.now }
    {
        &self.told
    }

    /// How many entries are before it.
    pub fn at(&self) -> u64
        ensures { result ≡ length self.now.past }
    {
        self.judge.len() - 1
    }

    /// What stands after it: all that a state can be asked.
    pub fn state(&self) -> &State
        ensures layout { result.now.layout ≡ self.now.layout }
        ensures past { past_in result.now ≡ after self.now }
    {
        self.judge.state()
    }
}
