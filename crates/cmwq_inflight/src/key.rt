ghost use Rattle.std.specs.Prelude.{◌≡◌, ◌<◌, Some, None};

use std::marker::Model;

/// What says that there is no key.
const NONE: u32 = u32::MAX;

/// The key of a queueing in a slab, or none, in four bytes: an `Option` takes eight.
#[derive(Clone, Copy)]
pub(crate) struct Key(u32);

impl Model for Key {
    ghost use Rattle.std.specs.Prelude.{ℕ, Option};
    ghost use Rattle.cmwq_inflight.specs.Key.{key_of, key_code, key_code-of};
    ghost use Rattle.std.proofs.Common.{ap};

    ghost Value = { Option ℕ };

    ghost view = { λ k. key_of k.0 };

    ghost inverse = { λ o. record { 0 = key_code o } };

    ghost inverse_ok = { λ a h. ap (λ n. record { 0 = n }) (key_code-of a.0) };
}

impl Key {
    /// No key.
    pub(crate) fn none() -> Key
        ensures { result ≡ None }
    {
        Key(NONE)
    }

    /// This key.
    pub(crate) fn some(key: usize) -> Key
        requires { key < 4294967295 }
        ensures { result ≡ Some key }
    {
        Key(key as u32)
    }

    /// The key, if there is one.
    pub(crate) fn get(self) -> Option<usize>
        ensures { result ≡ self }
    {
        if self.0 == NONE {
            None
        } else {
            Some(self.0 as usize)
        }
    }

    /// Answers the key, if there is one, and leaves none.
    pub(crate) fn take(&mut self) -> Option<usize>
        ensures value { result ≡ self.old }
        ensures after { self.new ≡ None }
    {
        let key = self.get();
        *self = Key::none();
        key
    }
}
