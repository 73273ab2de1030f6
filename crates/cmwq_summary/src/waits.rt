//! How long was waited, by a key.
ghost use Rattle.std.specs.Prelude.{◌≡◌, ◌<◌, length, replicate, IfOk};
ghost use Rattle.cmwq_summary.specs.Waits.{waited_at, with_wait, with_wait_at, HasRoom, HaveRoom};
ghost use Rattle.cmwq_summary.specs.declared.waits.TheConstants as constants;

use crate::span::{NO_TIME, Span};
use cmwq_model::NoMemory;
use std::alloc::Global;
use std::marker::Model;

/// So many entries and so many ticks, of any number of spans.
#[derive(Clone, Copy, PartialEq, Eq)]
pub struct Total {
    pub entries: u128,
    pub ticks: u128,
}

/// How long the longest of some waits was, and how long all of them were together.
#[derive(Clone, Copy, PartialEq, Eq)]
pub struct Waited {
    pub longest: Span,
    pub all: Total,
}

/// That of no waits.
pub(crate) const NOTHING: Waited = Waited {
    longest: NO_TIME,
    all: Total {
        entries: 0,
        ticks: 0,
    },
};

impl Waited {
    /// That with one wait more.
    fn with(self, wait: Span) -> Waited
        requires { HasRoom self }
        ensures { result ≡ with_wait self wait }
    {
        Waited {
            longest: self.longest.longer(wait),
            all: Total {
                entries: self.all.entries + u128::from(wait.entries),
                ticks: self.all.ticks + u128::from(wait.ticks),
            },
        }
    }
}

/// How long was waited by some key, which is a small number.
#[derive(Drop)]
pub(crate) struct Waits {
    rows: Vec<Waited>,
}

impl Model for Waits {
    ghost use Rattle.std.specs.Prelude.{List};
    ghost use Rattle.cmwq_summary.specs.declared.waits.Waited.{Waited};

    ghost Value = { List Waited };

    ghost view = { λ w. w.rows.items };
}

impl Waits {
    /// Nothing under so many keys. The error says that memory ran out.
    pub(crate) fn new(alloc: Global, keys: usize) -> Result<Waits, NoMemory>
        ensures { IfOk result (λ waits. waits ≡ replicate keys constants.NOTHING) }
    {
        Ok(Waits {
            rows: vec![in alloc; NOTHING; keys]?,
        })
    }

    /// What was waited under this key.
    pub(crate) fn at(&self, key: usize) -> Waited
        requires { key < length self.now }
        ensures { result ≡ waited_at self.now key }
    {
        self.rows[key]
    }

    /// One wait more under this key, if there is one that the table has.
    pub(crate) fn add(&mut self, key: Option<usize>, wait: Span)
        requires { HaveRoom self.old }
        ensures { self.new ≡ with_wait_at self.old key wait }
    {
        if let Some(key) = key {
            if key < self.rows.len() {
                self.rows[key] = self.rows[key].with(wait);
            }
        }
    }
}
