ghost use Rattle.std.specs.Prelude.{◌≡◌, ◌<◌, ◌≤◌, ◌^◌, ◌++◌, ◌∷◌, [], length, IfSome};
ghost use mathlib.Core.List.{IsPrefix};
ghost use Rattle.cmwq_model.specs.Prelude.{IsLegal, past_of};

use crate::log::{Add, Head, Law, Nothing, Token};
use crate::name::HubName;
use cmwq_model::Entry;
use logbook::Offer;
use std::marker::{Model, PhantomData};

/// A beginning of the hub's history that was seen. Contracts see it as its entries, the oldest first.
/// What runs has their number alone.
#[derive(Drop)]
pub struct Prefix<N: HubName> {
    len: u64,
    seen: Token,
    of: PhantomData<N>,
}

impl<N: HubName> Model for Prefix<N> {
    ghost use Rattle.std.specs.Prelude.{◌≡◌, List, length};
    ghost use Rattle.cmwq_model.specs.declared.entry.Entry.{Entry};
    ghost use Rattle.cmwq_model.specs.Prelude.{IsLegal, past_of};

    ghost Value = { List Entry };

    ghost view = { λ f. f.seen.log };

    ghost invariant = { λ f. (f.len ≡ length f.seen.log) × (f.seen.book ≡ N.book)
        × IsLegal N.layout (past_of f.seen.log) };
}

impl<N: HubName> Prefix<N> {
    // What a token that was read shows.
    pub(crate) fn of(seen: Token, len: u64) -> Prefix<N>
        requires book { seen.book ≡ N.book }
        requires len { len ≡ length seen.log }
        requires legal { IsLegal N.layout (past_of seen.log) }
        ensures { result ≡ seen.log }
    {
        Prefix {
            len,
            seen,
            of: PhantomData,
        }
    }

    /// How many entries it has. They are a legal history.
    pub fn len(&self) -> u64
        ensures len { result ≡ length self.now }
        ensures legal { IsLegal N.layout (past_of self.now) }
    {
        self.len
    }

    /// The same once more.
    pub fn again(&self) -> Prefix<N>
        ensures { result ≡ self.now }
    {
        Prefix {
            len: self.len,
            seen: self.seen.again(),
            of: PhantomData,
        }
    }

    // The token alone.
    pub(crate) fn token(&self) -> Token
        ensures { (result.book ≡ N.book) × (result.log ≡ self.now) }
    {
        self.seen.again()
    }

    /// Of two beginnings of one history the shorter begins the longer. Nothing runs.
    pub fn begins(&self, other: &Prefix<N>)
        requires { length self.now ≤ length other.now }
        ensures { IsPrefix self.now other.now }
    {
        let mut both = self.seen.again();
        both.learn(&other.seen);
    }

    // Adds an entry to all that was seen. `None`: the log is longer than that, and stays as it is.
    pub(crate) fn extended(&self, head: &Head<N>, entry: Entry) -> Option<Prefix<N>>
        requires room { length self.now < 2 ^ 62 }
        requires legal { IsLegal N.layout (entry ∷ past_of self.now) }
        ensures { IfSome result (λ f. f ≡ self.now ++ entry ∷ []) }
    {
        let mut seen = self.seen.again();
        let mut offer: Offer<Entry, u64, Law, Nothing> = seen.plain::<Nothing, Entry, Add>(&entry);
        let mut pen = seen.no_pen();
        let len = self.len;
        let found = head
            .length
            .compare_exchange::<Add, Nothing>(len, len + 1, &mut seen, &mut offer, &mut pen);
        if found != len {
            return None;
        }
        Some(Prefix {
            len: len + 1,
            seen,
            of: PhantomData,
        })
    }
}
