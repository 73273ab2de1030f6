//! A source or a sink that fails on purpose, for tests.
ghost use Rattle.std.specs.Prelude.{◌≡◌, ◌-◌, ◌<◌, [], ◌∷◌, ◌++◌, length, Err, IfSome, OnOk};
ghost use Rattle.std.specs.Io.{ReadsAtMost};
ghost use Rattle.std.specs.Io.KnownBytes.{ReadConsumes, WriteAppends, Keeps};
ghost use Rattle.cmwq_io.specs.Counts.{CountsTrouble};
ghost use Rattle.cmwq_io.specs.Outcomes.{outcome_of};
ghost use Rattle.cmwq_io.specs.Moves.{TakesPart};

use crate::outcomes::Outcomes;
use crate::sink::Sink;
use crate::source::Source;
use crate::trouble::{Trouble, count_after};

/// Which calls fail, and how.
#[derive(Clone, Copy)]
struct Plan {
    /// How many calls are passed on before the first that fails.
    before: u64,
    /// How many calls fail then, one after the other.
    times: u64,
    trouble: Trouble,
}

impl Plan {
    ghost use Rattle.cmwq_io.specs.FailsAt.{trouble_due, plan_after};

    /// Makes one more call: the trouble that it answers, if it is not to be passed on.
    fn call(&mut self) -> Option<Trouble>
        ensures due { result ≡ trouble_due self.old }
        ensures after { self.new ≡ plan_after self.old }
    {
        if self.before > 0 {
            self.before -= 1;
            return None;
        }
        if self.times == 0 {
            return None;
        }
        self.times -= 1;
        Some(self.trouble)
    }
}

/// Passes its calls on to another source or sink, but some of them fail. Reads, writes and flushes all count
/// as calls.
#[derive(Drop)]
pub struct FailsAt<T> {
    inner: T,
    plan: Plan,
    troubles: u64,
    outcomes: Outcomes,
}

impl<T> FailsAt<T> {
    ghost use Rattle.cmwq_io.specs.FailsAt.{failing_inner, failing_plan, failing_troubles, failing_outcomes};

    /// The call with this number, counted from 1, answers `Failed`, and all others are passed on.
    pub fn new(inner: T, call: u64) -> FailsAt<T>
        requires { 0 < call }
        ensures inner { failing_inner result ≡ inner }
        ensures plan { failing_plan result ≡ record { before = call - 1; times = 1; trouble = Trouble.Failed } }
        ensures troubles { failing_troubles result ≡ 0 }
        ensures outcomes { failing_outcomes result ≡ [] }
    {
        let plan = Plan {
            before: call - 1,
            times: 1,
            trouble: Trouble::Failed,
        };
        FailsAt {
            inner,
            plan,
            troubles: 0,
            outcomes: Outcomes::new(),
        }
    }

    /// From the call with this number on, counted from 1, so many calls answer `Interrupted`, and all others
    /// are passed on.
    pub fn interrupted(inner: T, call: u64, times: u64) -> FailsAt<T>
        requires { 0 < call }
        ensures inner { failing_inner result ≡ inner }
        ensures plan { failing_plan result
            ≡ record { before = call - 1; times = times; trouble = Trouble.Interrupted } }
        ensures troubles { failing_troubles result ≡ 0 }
        ensures outcomes { failing_outcomes result ≡ [] }
    {
        let plan = Plan {
            before: call - 1,
            times,
            trouble: Trouble::Interrupted,
        };
        FailsAt {
            inner,
            plan,
            troubles: 0,
            outcomes: Outcomes::new(),
        }
    }

    /// What the calls are passed on to.
    pub fn inner(&self) -> &T
        ensures { result.now ≡ failing_inner self.now }
    {
        &self.inner
    }
}

impl<T: Source> Source for FailsAt<T> {
    ghost left = { λ f. T.left f.inner };

    ghost troubles = { λ f. f.troubles };

    ghost outcomes = { λ f. f.outcomes };

    ghost use Rattle.cmwq_io.specs.FailsAt.{trouble_due, plan_after};

    fn read(&mut self, buf: &mut [u8]) -> Result<usize, Trouble>
        requires { 0 < length buf.old }
        ensures bound { ReadsAtMost result buf.new }
        ensures bytes { ReadConsumes (T.left self.old.inner) (T.left self.new.inner) result buf.new }
        ensures count { CountsTrouble self.old.troubles self.new.troubles result }
        ensures outcome { self.new.outcomes ≡ self.old.outcomes ++ outcome_of result ∷ [] }
        ensures due { IfSome (trouble_due self.old.plan) (λ trouble. result ≡ Err trouble) }
        ensures plan { self.new.plan ≡ plan_after self.old.plan }
    {
        let answer = match self.plan.call() {
            Some(trouble) => Err(trouble),
            None => self.inner.read(buf),
        };
        self.troubles = count_after(self.troubles, &answer);
        self.outcomes.add(&answer);
        answer
    }
}

impl<T: Sink> Sink for FailsAt<T> {
    ghost written = { λ f. T.written f.inner };

    ghost held = { λ f. T.held f.inner };

    ghost troubles = { λ f. f.troubles };

    ghost outcomes = { λ f. f.outcomes };

    ghost use Rattle.cmwq_io.specs.FailsAt.{trouble_due, plan_after};

    fn write(&mut self, buf: &[u8]) -> Result<usize, Trouble>
        requires { 0 < length buf.now }
        ensures bound { TakesPart result buf.now }
        ensures bytes { WriteAppends (T.written self.old.inner) (T.written self.new.inner) result buf.now }
        ensures count { CountsTrouble self.old.troubles self.new.troubles result }
        ensures outcome { self.new.outcomes ≡ self.old.outcomes ++ outcome_of result ∷ [] }
        ensures due { IfSome (trouble_due self.old.plan) (λ trouble. result ≡ Err trouble) }
        ensures plan { self.new.plan ≡ plan_after self.old.plan }
    {
        let answer = match self.plan.call() {
            Some(trouble) => Err(trouble),
            None => self.inner.write(buf),
        };
        self.troubles = count_after(self.troubles, &answer);
        self.outcomes.add(&answer);
        answer
    }

    fn flush(&mut self) -> Result<(), Trouble>
        ensures bytes { Keeps (T.written self.old.inner) (T.written self.new.inner) }
        ensures empty { OnOk result (T.held self.new.inner ≡ 0) }
        ensures count { CountsTrouble self.old.troubles self.new.troubles result }
        ensures outcome { self.new.outcomes ≡ self.old.outcomes ++ outcome_of result ∷ [] }
        ensures due { IfSome (trouble_due self.old.plan) (λ trouble. result ≡ Err trouble) }
        ensures plan { self.new.plan ≡ plan_after self.old.plan }
    {
        let answer = match self.plan.call() {
            Some(trouble) => Err(trouble),
            None => self.inner.flush(),
        };
        self.troubles = count_after(self.troubles, &answer);
        self.outcomes.add(&answer);
        answer
    }
}
