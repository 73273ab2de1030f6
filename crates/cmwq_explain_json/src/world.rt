//! An input in which a member was refused.

use cmwq_explain::Text;
use cmwq_json::{Part, Refused};
use serde_json::Value;
use std::alloc::{AllocError, Global};

/// What is read.
#[derive(Clone, Copy, PartialEq, Eq)]
pub enum Grammar {
    Scenario,
    Script,
}

/// A whole input, and what it was read as.
#[derive(Clone, Copy)]
pub struct World<'a> {
    pub alloc: Global,
    pub grammar: Grammar,
    pub whole: &'a Value,
}

impl<'a> World<'a> {
    /// The members of a list of the top.
    pub fn members(self, part: Part) -> &'a [Value] {
        match self.whole.get(key_of(part)) {
            Some(Value::Array(members)) => members.as_slice(),
            _ => &[],
        }
    }

    /// The names of these members.
    pub fn names(self, part: Part) -> Result<Vec<&'a str>, AllocError> {
        let mut names = Vec::new(self.alloc);
        for member in self.members(part) {
            if let Some(name) = name_of(member) {
                names.push(name)?;
            }
        }
        Ok(names)
    }

    /// The format of the history of a script.
    pub fn version(self) -> u8 {
        let has_journal = self.whole.get("journal").is_some();
        match self.whole.get("format") {
            Some(format) if has_journal || format.as_u64() != Some(2) => 3,
            None if has_journal => 3,
            _ => 2,
        }
    }

    /// Says a value as it stands there, or its front.
    pub fn say_value(self, text: &mut Text, value: &Value) -> Result<(), AllocError> {
        let spelled = value.to_string(self.alloc)?;
        text.raw(spelled.as_str().as_bytes());
        Ok(())
    }
}

/// The name of a member.
pub fn name_of(member: &Value) -> Option<&str> {
    member.get("name")?.as_str()
}

/// The key of a part of an input.
pub fn key_of(part: Part) -> &'static str {
    match part {
        Part::Top => "top",
        Part::Queues => "queues",
        Part::Items => "items",
        Part::Callers => "callers",
    }
}

/// Says where a member is.
pub fn say_place(text: &mut Text, place: Refused) {
    text.say(key_of(place.part));
    if place.part != Part::Top {
        text.say(" ");
        text.number(place.index as u64);
    }
}
