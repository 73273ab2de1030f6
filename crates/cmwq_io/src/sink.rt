//! Where bytes are written to.
ghost use Rattle.std.specs.Prelude.{◌≡◌, ℕ, ◌<◌, List, [], ◌∷◌, ◌++◌, Option, length, OnOk};
ghost use Rattle.std.specs.Io.KnownBytes.{Keeps, WriteAppends};
ghost use Rattle.cmwq_io.specs.Counts.{CountsTrouble};
ghost use Rattle.cmwq_io.specs.Outcomes.{outcome_of};
ghost use Rattle.cmwq_io.specs.declared.trouble.Trouble.{Trouble};
ghost use Rattle.cmwq_io.specs.Moves.{TakesPart};

use crate::trouble::Trouble;

/// Takes bytes. Contracts see the bytes that it took, where these are known, how many of them it holds back
/// until the next flush, and how many calls failed so far.
pub trait Sink {
    /// The bytes that were written. None claims nothing.
    ghost written: { Self → Option (List ℕ) };

    /// How many of the written bytes the sink itself still holds.
    ghost held: { Self → ℕ };

    /// How many calls have failed.
    ghost troubles: { Self → ℕ };

    /// How each call so far went: None where it went well, and else its trouble.
    ghost outcomes: { Self → List (Option Trouble) };

    /// Takes a front of `buf`, at least one byte, and answers how many. `buf` must not be empty.
    /// On `Err` nothing was taken.
    fn write(&mut self, buf: &[u8]) -> Result<usize, Trouble>
        requires { 0 < length buf.now }
        ensures bound { TakesPart result buf.now }
        ensures bytes { WriteAppends (written self.old) (written self.new) result buf.now }
        ensures count { CountsTrouble (troubles self.old) (troubles self.new) result }
        ensures outcome { outcomes self.new ≡ outcomes self.old ++ outcome_of result ∷ [] };

    /// Hands on all that the sink still holds. On `Err` some of it may have been handed on, and the next call
    /// goes on where this one stood.
    fn flush(&mut self) -> Result<(), Trouble>
        ensures bytes { Keeps (written self.old) (written self.new) }
        ensures empty { OnOk result (held self.new ≡ 0) }
        ensures count { CountsTrouble (troubles self.old) (troubles self.new) result }
        ensures outcome { outcomes self.new ≡ outcomes self.old ++ outcome_of result ∷ [] };
}
