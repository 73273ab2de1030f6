//! Names, numbered in the order of their first use.

ghost use Rattle.std.specs.Prelude.{◌≡◌, [], IfOk, option_map, map, string_bytes, ◌≤◌, length};
ghost use Rattle.serde_json.specs.View.{view};
ghost use Rattle.cmwq_json_script.specs.Numbering.{numbered, number_said};
ghost use Rattle.cmwq_json.specs.Names.{number_of_name as number_in};

use cmwq_json::{in_order, number_of, read_name};
use indexmap::IndexSet;
use serde_json::Value;
use std::alloc::{AllocError, Global};
use std::marker::Model;

/// The greatest number of gates that a script names, and that of locks.
pub const MOST_NAMES: usize = 16;

/// The names so far: of gates, or of locks.
#[derive(Drop)]
pub struct Numbering {
    names: IndexSet<String>,
}

impl Model for Numbering {
    ghost use Rattle.std.specs.Prelude.{ℕ, List, ◌≤◌, length, map, string_bytes};

    ghost Value = { List (List ℕ) };

    ghost view = { λ n. map string_bytes n.names.keys };

    ghost invariant = { λ n. length n.names.keys ≤ 16 };
}

impl Numbering {
    /// No name.
    pub fn new(alloc: Global) -> Numbering
        ensures { result ≡ [] }
    {
        Numbering {
            names: IndexSet::new(alloc),
        }
    }

    /// The number of this name, which is added if it is new. None: there would be one too many.
    fn number(&mut self, alloc: Global, name: &str) -> Result<Option<u8>, AllocError>
        ensures { IfOk result
            (λ r. option_map (λ number. (number, self.new)) r
            ≡ numbered self.old name.now (number_in self.old name.now)) }
    {
        if let Some(number) = number_of(&self.names, name) {
            return Ok(Some(number as u8));
        }
        let number = self.names.len();
        if number >= MOST_NAMES {
            return Ok(None);
        }
        self.names.insert(String::from_str(alloc, name)?)?;
        Ok(Some(number as u8))
    }

    /// The number of the name that a value is.
    pub fn read(&mut self, alloc: Global, value: &Value) -> Result<Option<u8>, AllocError>
        ensures { IfOk result
            (λ r. option_map (λ number. (number, self.new)) r ≡ number_said self.old (view value.now)) }
    {
        match read_name(value) {
            Some(name) => self.number(alloc, name),
            None => Ok(None),
        }
    }

    /// The names, by number.
    pub fn into_names(self, alloc: Global) -> Result<Vec<String>, AllocError>
        ensures { IfOk result (λ names. map string_bytes names.items ≡ self) }
    {
        let Numbering { names } = self;
        in_order(alloc, names)
    }
}
