//! The states that were searched already, with what was found of each.

ghost use Rattle.std.specs.Prelude.{◌≡◌, ℕ, Some, None, IfOk, cond, option_copied};
ghost use Rattle.cmwq_explore.specs.Seens.{found_of, is_same_key};
ghost use Rattle.cmwq_explore.specs.Seens.{Key as TheKey};

use crate::finding::Finding;
use cmwq_key::Key;
use indexmap::IndexMap;
use std::alloc::{AllocError, Global};

/// What was found of states, by their keys.
#[derive(Drop)]
pub(crate) struct Seen {
    findings: IndexMap<Key, Finding>,
}

impl Seen {
    /// Of no state.
    pub(crate) fn new(alloc: Global) -> Seen
        ensures { (key : TheKey) → found_of result key ≡ None }
    {
        Seen {
            findings: IndexMap::new(alloc),
        }
    }

    /// What was found of the state with this key, if it was searched.
    pub(crate) fn get(&self, key: &Key) -> Option<&Finding>
        ensures { option_copied result ≡ found_of self.now key.now }
    {
        self.findings.get(key)
    }

    /// Keeps what was found of the state with this key.
    pub(crate) fn put(&mut self, key: Key, finding: Finding) -> Result<(), AllocError>
        ensures { IfOk result (λ _. (other : TheKey) → found_of self.new other
            ≡ cond (is_same_key key other) (Some finding) (found_of self.old other)) }
    {
        self.findings.insert(key, finding)?;
        Ok(())
    }
}
