//! The history as a log that only grows. It exists in proofs alone: what threads share is its length.
ghost use Rattle.std.specs.Prelude.{◌≡◌, []};
ghost use Rattle.cmwq_publish.specs.Log.{head_of};

use crate::name::HubName;
use cmwq_model::Entry;
use logbook::{Gain, Offer, Plain, Play, Rule, Seen, Start, Word};
use std::marker::PhantomData;

/// The rule of the log: the word is its length.
pub struct Law;

impl Rule<Entry, u64> for Law {
    ghost use Rattle.std.specs.Prelude.{[]};
    ghost use base.Fml.{ftrue};
    ghost use Rattle.cmwq_publish.specs.Log.{IsLogKept};

    ghost holds = { λ cells log. IsLogKept cells log };

    ghost first = { [] };

    ghost hinted = { λ n log. Unit {0} };

    ghost shows = { λ log. [] };

    ghost keeps = { λ names log. ftrue };

    ghost moves = { λ ask before after answer. Unit {0} };
}

/// Nobody keeps anything beside the log.
pub struct Nothing;

impl Gain<Entry, u64> for Nothing {
    ghost use base.Fml.{ftrue};

    ghost after = { λ names about answer. ftrue };
}

/// A step that adds an entry.
pub struct Add;

impl Play<Entry, u64> for Add {
    ghost use Rattle.cmwq_publish.specs.Log.{Adds};

    ghost then = { Adds };
}

impl Plain<Entry, Entry, u64> for Add {
    ghost use Rattle.std.specs.Prelude.{None};

    ghost ask = { λ entry. entry };

    ghost state = { λ entry. None };
}

/// A beginning of the log that was reached. It has no bytes.
pub type Token = Seen<Entry, u64, Law>;

/// The length of a log.
pub type Length = Word<Entry, u64, Law>;

/// A log with no entry.
#[derive(Drop)]
pub struct Log {
    pub length: Length,
    pub seen: Token,
    pub ghost empty: { seen.log ≡ [] },
    pub ghost length_is: { length ≡ head_of seen.book },
}

impl Log {
    /// A log without an entry.
    pub fn new() -> Log {
        let (seen, mut first, _second) = Seen::open(Start::alone(), 0, 0);
        Log {
            length: Word::tracked(0, &mut first),
            seen,
        }
    }
}

/// The length of the log of this hub. One thread at a time has it.
#[derive(Drop)]
pub struct Head<N: HubName> {
    pub length: Length,
    pub of: PhantomData<N>,
    pub ghost length_is: { length ≡ head_of N.book },
}
