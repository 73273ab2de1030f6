//! Names, and members that each have one of their own.

ghost use Rattle.std.specs.Prelude.{◌≡◌, ◌<◌, length, IfSome, IfOk, None, Some, option_map, map, if◌then◌else◌};
ghost use Rattle.std.specs.Prelude.{string_bytes};
ghost use Rattle.std.specs.List.{list_all};
ghost use Rattle.serde_json.specs.View.{view};
ghost use Rattle.cmwq_json.specs.Names as spec;
ghost use Rattle.cmwq_json.specs.Members.{named_of};

use indexmap::IndexSet;
use serde_json::Value;
use std::alloc::{AllocError, Global};

fn is_name_byte(byte: u8) -> bool
    ensures { result ≡ spec.is_name_byte byte }
{
    matches!(byte, b'A'..=b'Z' | b'a'..=b'z' | b'0'..=b'9' | b'_')
}

fn are_name_bytes(bytes: &[u8]) -> bool
    ensures { result ≡ list_all spec.is_name_byte bytes.now }
{
    bytes.iter().all(|byte| is_name_byte(*byte))
}

/// Whether a text is a name: 1 to 16 of `A` to `Z`, `a` to `z`, `0` to `9` and `_`.
pub fn is_name(text: &str) -> bool
    ensures { result ≡ spec.is_name text.now }
{
    (1..=16).contains(&text.len()) && are_name_bytes(text.as_bytes())
}

/// The name that a value is.
pub fn read_name(value: &Value) -> Option<&str>
    ensures { option_map (λ name. name.now) result ≡ spec.name_said (view value.now) }
{
    let text = value.as_str()?;
    if is_name(text) { Some(text) } else { None }
}

/// The number of a name: its place in the order in which names were added.
pub fn number_of(names: &IndexSet<String>, name: &str) -> Option<usize>
    ensures number { result ≡ spec.number_of_name (map string_bytes names.now.keys) name.now }
    ensures within { IfSome result (λ number. number < length names.now.keys) }
{
    names.get_index_of(name)
}

/// The names in the order of their numbers.
pub fn in_order(alloc: Global, names: IndexSet<String>) -> Result<Vec<String>, AllocError>
    ensures { IfOk result (λ list. list.items ≡ names.keys) }
{
    names.into_iter().collect(alloc)
}

/// Members in the order of their places, and the names that number them.
#[derive(Drop)]
pub struct Members<T> {
    pub names: IndexSet<String>,
    pub values: Vec<T>,
}

impl<T: Drop> Members<T> {
    /// No member.
    pub fn new(alloc: Global) -> Self
        ensures { named_of result ≡ spec.nobody }
    {
        Members {
            names: IndexSet::new(alloc),
            values: Vec::new(alloc),
        }
    }

    /// Adds a member, where there are fewer than `most` and none has this name.
    pub fn add(
        &mut self,
        alloc: Global,
        most: usize,
        name: &str,
        value: T,
    ) -> Result<bool, AllocError>
        ensures { IfOk result (λ added. spec.add_named most (named_of self.old) (name.now, value)
            ≡ (if added then Some (named_of self.new) else None)) }
    {
        if self.names.len() >= most {
            return Ok(false);
        }
        let is_new = self.names.insert(String::from_str(alloc, name)?)?;
        if !is_new {
            return Ok(false);
        }
        self.values.push(value)?;
        Ok(true)
    }
}
