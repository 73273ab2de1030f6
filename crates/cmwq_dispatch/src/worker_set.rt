//! A set of workers of one pool, by their indices.

ghost use Rattle.std.specs.Prelude.{◌≡◌, ◌<◌, ◌||◌, ◌&&◌, ◌==◌, ℕ, MatchOption, false, not, true};
ghost use Rattle.cmwq_dispatch.specs.Sets.{has};

/// A bit for each index below 64.
#[derive(Clone, Copy)]
pub(crate) struct WorkerSet {
    bits: u64,
}

impl WorkerSet {
    /// The empty set.
    pub(crate) const NONE: WorkerSet = WorkerSet { bits: 0 };

    /// The first of the set.
    pub(crate) fn first(&self) -> Option<u8>
        ensures { MatchOption result ((x : ℕ) → has self.now.bits x ≡ false)
            (λ x. (x < 64) × (has self.now.bits x ≡ true)) }
    {
        if self.bits == 0 {
            None
        } else {
            Some(self.bits.trailing_zeros() as u8)
        }
    }

    /// Whether this one is in the set.
    pub(crate) fn contains(&self, index: u8) -> bool
        ensures has { result ≡ has self.now.bits index }
        ensures within { result ≡ true → index < 64 }
    {
        let bits = self.bits;
        index < 64 && bits >> index & 1 == 1
    }

    /// Puts one in.
    pub(crate) fn insert(&mut self, index: u8)
        requires { index < 64 }
        ensures { (x : ℕ) → has self.new.bits x ≡ (has self.old.bits x || (x == index)) }
    {
        self.bits |= 1 << index;
    }

    /// Takes one out.
    pub(crate) fn remove(&mut self, index: u8)
        ensures { (x : ℕ) → has self.new.bits x ≡ (has self.old.bits x && not (x == index)) }
    {
        let bits = self.bits;
        if index < 64 {
            self.bits = bits & !(1 << index);
        }
    }
}
