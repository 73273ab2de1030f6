//! Successive calls of a caller.

ghost use Rattle.std.specs.Prelude.{◌≡◌, ◌<◌, ◌∷◌, ◌++◌, [], length};

use cmwq_model::Call;
use std::marker::Model;

/// How many calls a batch has at most: as many as stand in one hold of a hub's lock.
pub const MOST_CALLS: usize = 8;

/// Successive calls, eight at most. Contracts see the list of them.
#[derive(Drop)]
pub struct Batch {
    calls: [Call; MOST_CALLS],
    len: usize,
}

impl Model for Batch {
    ghost use Rattle.std.specs.Prelude.{List, ◌≤◌, take};
    ghost use Rattle.cmwq_model.specs.declared.call.Call.{Call as TheCall};

    ghost Value = { List TheCall };

    ghost view = { λ b. take b.len b.calls };

    ghost invariant = { λ b. b.len ≤ 8 };
}

impl Batch {
    /// No call.
    pub fn new() -> Batch
        ensures { result ≡ [] }
    {
        Batch {
            calls: [Call::Freeze; MOST_CALLS],
            len: 0,
        }
    }

    /// How many calls there are.
    pub fn len(&self) -> usize
        ensures { result ≡ length self.now }
    {
        self.as_slice().len()
    }

    /// One call more.
    pub fn push(&mut self, call: Call)
        requires { length self.old < 8 }
        ensures { self.new ≡ self.old ++ call ∷ [] }
    {
        self.calls[self.len] = call;
        self.len += 1;
    }

    /// The calls in order.
    pub fn as_slice(&self) -> &[Call]
        ensures { result.now ≡ self.now }
    {
        &self.calls[..self.len]
    }
}
