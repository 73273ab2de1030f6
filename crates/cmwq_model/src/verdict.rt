ghost use Rattle.std.specs.Prelude.{IsTrue};
ghost use Rattle.cmwq_model.specs.Verdict.{AllFit};

use crate::entry::Entry;
use crate::id::Number;
use crate::reply::Reply;
use crate::shape::Shape;

/// What should stand in an entry where something else stands.
#[derive(Clone, Copy, Debug)]
pub enum Wanted {
    /// The serial should be this one.
    Serial(u64),
    /// The serial is right, and the reply should be this one.
    Reply(Reply),
}

/// The first entry of a history that isn't the one that its call gets at that point.
#[derive(Clone, Copy, Debug)]
pub struct Illegal {
    /// How many entries stand before it.
    pub at: Number,
    pub wanted: Wanted,
}

/// Whether each entry's who and call fit the shape, as those of a history that was read do: what `check` asks for.
pub fn all_fit(shape: &Shape, entries: &[Entry]) -> bool
    ensures fitting { IsTrue result → AllFit shape.now entries.now }
    ensures other { AllFit shape.now entries.now → IsTrue result }
{
    entries
        .iter()
        .all(|entry| shape.fits(entry.who, entry.call))
}
