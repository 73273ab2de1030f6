ghost use Rattle.std.specs.Prelude.{◌≡◌, ◌+◌, ◌<◌, ◌≤◌, ◌∷◌, length};
ghost use Rattle.cmwq_model.specs.Prelude.{past_of};
ghost use Rattle.cmwq_plain.specs.Past.{upto};

use cmwq_model::Entry;
use std::marker::Model;

/// A history, oldest entry first, and one entry more where there is one.
#[derive(Drop)]
pub struct Past<'a> {
    entries: &'a [Entry],
    latest: Option<Entry>,
}

impl<'a> Model for Past<'a> {
    ghost use Rattle.std.specs.Prelude.{List, length, ◌≤◌};
    ghost use Rattle.cmwq_model.specs.declared.entry.Entry.{Entry};
    ghost use Rattle.cmwq_model.specs.Prelude.{past_of};
    ghost use Rattle.cmwq_plain.specs.Past.{past_with};

    ghost Value = { List Entry };

    ghost view = { λ a. past_with a.latest (past_of a.entries.now) };

    ghost invariant = { λ a. length a.entries.now ≤ 1000000 };
}

impl<'a> Past<'a> {
    /// This history of at most 1,000,000 entries.
    pub fn new(entries: &'a [Entry]) -> Past<'a>
        requires { length entries.now ≤ 1000000 }
        ensures { result ≡ past_of entries.entry.now }
    {
        Past {
            entries,
            latest: None,
        }
    }

    /// The same with one entry more.
    pub fn with(entries: &'a [Entry], entry: Entry) -> Past<'a>
        requires { length entries.now ≤ 1000000 }
        ensures { result ≡ entry ∷ past_of entries.entry.now }
    {
        Past {
            entries,
            latest: Some(entry),
        }
    }

    /// How many entries there are.
    pub fn len(&self) -> usize
        ensures count { result ≡ length self.now }
        ensures small { result ≤ 1000001 }
    {
        match self.latest {
            None => self.entries.len(),
            Some(_) => self.entries.len() + 1,
        }
    }

    /// The entry with this number.
    pub fn at(&self, number: usize) -> Entry
        requires { number < length self.now }
        ensures step { upto self.now (number + 1) ≡ result ∷ upto self.now number }
        ensures small { number ≤ 1000000 }
    {
        match self.latest {
            Some(entry) => {
                if number == self.entries.len() {
                    entry
                } else {
                    self.entries[number]
                }
            }
            None => self.entries[number],
        }
    }

    /// The entries before the one with this number.
    pub fn before(&self, number: usize) -> Past<'a>
        requires { number ≤ length self.now }
        ensures { result ≡ upto self.now number }
    {
        if number <= self.entries.len() {
            return Past::new(&self.entries[..number]);
        }
        Past {
            entries: self.entries,
            latest: self.latest,
        }
    }
}
