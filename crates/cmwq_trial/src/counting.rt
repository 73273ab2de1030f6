//! What came of many trials.
ghost use Rattle.std.specs.Prelude.{◌≡◌, ◌+◌, ◌-◌, ◌^◌, ◌<◌, ℕ, Ok, Err, None, IfErr, IfSome};
ghost use Rattle.cmwq_model.specs.Prelude.{Layout};
ghost use Rattle.cmwq_trial.specs.Counting.{AreTrials, IsReliableOf, fewest_entries, first_of, has_stopped, is_stuck};
ghost use Rattle.cmwq_trial.specs.Counting.{one_if, shortest_after};
ghost use Rattle.cmwq_trial.specs.Failing.{seed_of};

use crate::failure::{Failure, Tried};

/// What came of many trials.
#[derive(Debug, Drop)]
pub struct Trials {
    /// How many trials came to their end.
    pub ended: u64,
    /// How many got stuck.
    pub stuck: u64,
    /// How many stopped by a fault.
    pub stopped: u64,
    /// The failure under the first of the seeds that failed.
    pub first_failure: Option<Failure>,
    /// The failure that had the fewest entries, if that isn't the first one: the first of several.
    pub shortest_failure: Option<Failure>,
}

/// How many entries the shorter one of the failures has that are kept.
fn fewest_entries(first: &Failure, shortest: &Option<Failure>) -> usize
    ensures { result ≡ fewest_entries first.now shortest.now }
{
    match shortest {
        Some(shortest) => shortest.history().len(),
        None => first.history().len(),
    }
}

impl Trials {
    /// No trial was made yet.
    pub(crate) fn none() -> Trials
        ensures { (s : Layout) (from : ℕ) → AreTrials s from 0 result }
    {
        Trials {
            ended: 0,
            stuck: 0,
            stopped: 0,
            first_failure: None,
            shortest_failure: None,
        }
    }

    /// One failure more is kept, if it is the first, or shorter than all.
    fn record_failure(&mut self, failure: Failure)
        ensures counts { (self.new.ended ≡ self.old.ended) × (self.new.stuck ≡ self.old.stuck)
            × (self.new.stopped ≡ self.old.stopped) }
        ensures first { self.new.first_failure ≡ first_of self.old.first_failure failure }
        ensures none { self.old.first_failure ≡ None → self.new.shortest_failure ≡ self.old.shortest_failure }
        ensures shortest { IfSome self.old.first_failure
            (λ first. self.new.shortest_failure ≡ shortest_after first self.old.shortest_failure failure) }
    {
        let is_shorter = match &self.first_failure {
            None => {
                self.first_failure = Some(failure);
                return;
            }
            Some(first) => failure.history().len() < fewest_entries(first, &self.shortest_failure),
        };
        if is_shorter {
            self.shortest_failure = Some(failure);
        }
    }

    /// One more failed, in this way.
    fn count_failure(&mut self, failure: &Failure)
        requires { self.old.ended + self.old.stuck + self.old.stopped < 2 ^ 64 - 1 }
        ensures stuck { self.new.stuck ≡ self.old.stuck + one_if (is_stuck failure.now) }
        ensures stopped { self.new.stopped ≡ self.old.stopped + one_if (has_stopped failure.now) }
        ensures same { (self.new.ended ≡ self.old.ended) × (self.new.first_failure ≡ self.old.first_failure)
            × (self.new.shortest_failure ≡ self.old.shortest_failure) }
    {
        match failure {
            Failure::Stuck { .. } => self.stuck += 1,
            Failure::Stopped { .. } => self.stopped += 1,
        }
    }

    /// One trial more, under the seed that is next after so many from this one on.
    pub(crate) fn count(&mut self, outcome: Result<Tried, Failure>)
        requires { self.old.ended + self.old.stuck + self.old.stopped < 2 ^ 64 - 1 }
        ensures { (s : Layout) (from n : ℕ) → AreTrials s from n self.old
            → IfErr outcome (λ f. IsReliableOf s f × (seed_of f ≡ from + n)) → AreTrials s from (n + 1) self.new }
    {
        match outcome {
            Ok(_) => self.ended += 1,
            Err(failure) => {
                self.count_failure(&failure);
                self.record_failure(failure);
            }
        }
    }
}
