//! The verdict of a history is one: it is legal, or has one first wrong entry.

ghost use Rattle.cmwq_theory_laws.specs.Verdicts.{FirstWrongIsOne, WrongAreIllegal};

/// A history that has a first wrong entry is not legal.
pub fn wrong_are_illegal()
    ensures { WrongAreIllegal }
{}

/// A history has one first wrong entry at most, and one thing that should stand there.
pub fn first_wrong_is_one()
    ensures { FirstWrongIsOne }
{}
