//! Which member of an input is refused.

use std::fmt;

/// The part of an input that a member stands in.
#[derive(Clone, Copy, Debug, PartialEq, Eq)]
pub enum Part {
    /// The whole object: its keys and their types.
    Top,
    Queues,
    Items,
    Callers,
}

/// The first member that is refused: its part, and its place there, or 0 for the whole.
#[derive(Clone, Copy, Debug, PartialEq, Eq)]
pub struct Refused {
    pub part: Part,
    pub index: usize,
}

impl fmt::Display for Part {
    fn fmt<W: fmt::Write>(&self, f: &mut fmt::Formatter<W>) -> fmt::Result {
        f.write_str(match self {
            Part::Top => "top",
            Part::Queues => "queues",
            Part::Items => "items",
            Part::Callers => "callers",
        })
    }
}

impl fmt::Display for Refused {
    fn fmt<W: fmt::Write>(&self, f: &mut fmt::Formatter<W>) -> fmt::Result {
        write!(f, "{} {}", self.part, self.index)
    }
}
