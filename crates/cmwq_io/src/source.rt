//! Where bytes are read from.
ghost use Rattle.std.specs.Prelude.{◌≡◌, ℕ, ◌<◌, List, [], ◌∷◌, ◌++◌, Option, length};
ghost use Rattle.std.specs.Io.{ReadsAtMost};
ghost use Rattle.std.specs.Io.KnownBytes.{ReadConsumes};
ghost use Rattle.cmwq_io.specs.Counts.{CountsTrouble};
ghost use Rattle.cmwq_io.specs.Outcomes.{outcome_of};
ghost use Rattle.cmwq_io.specs.declared.trouble.Trouble.{Trouble};

use crate::trouble::Trouble;

/// Gives bytes. Contracts see the bytes that are left, where these are known, and how many calls failed so far.
pub trait Source {
    /// The bytes that are left to read. None claims nothing.
    ghost left: { Self → Option (List ℕ) };

    /// How many calls have failed.
    ghost troubles: { Self → ℕ };

    /// How each call so far went: None where it went well, and else its trouble.
    ghost outcomes: { Self → List (Option Trouble) };

    /// Puts at least one byte at the front of `buf` and answers how many, or 0 only at the end of the input.
    /// `buf` must not be empty. On `Err` nothing was read, and the next call goes on where this one stood.
    fn read(&mut self, buf: &mut [u8]) -> Result<usize, Trouble>
        requires { 0 < length buf.old }
        ensures bound { ReadsAtMost result buf.new }
        ensures bytes { ReadConsumes (left self.old) (left self.new) result buf.new }
        ensures count { CountsTrouble (troubles self.old) (troubles self.new) result }
        ensures outcome { outcomes self.new ≡ outcomes self.old ++ outcome_of result ∷ [] };
}
