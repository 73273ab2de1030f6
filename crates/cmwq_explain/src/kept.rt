//! A source that keeps a copy of what it gives.

ghost use Rattle.std.specs.Prelude.{◌≡◌, ◌<◌, [], ◌++◌, ◌∷◌, length, take, true, false, IfOk, OnErr};
ghost use Rattle.std.specs.Io.{ReadsAtMost};
ghost use Rattle.std.specs.Io.KnownBytes.{ReadConsumes};
ghost use Rattle.cmwq_io.specs.Counts.{CountsTrouble};
ghost use Rattle.cmwq_io.specs.Outcomes.{outcome_of};
ghost use Rattle.cmwq_explain.specs.Copies.{KeepsToo, bytes_copied, is_copied, kept_inner};

use cmwq_io::{Source, Trouble};
use std::alloc::Global;

/// The most bytes that are kept.
pub const MOST_KEPT: usize = 67_108_864;

/// Passes the bytes of another source on, and keeps a copy of them, as long as they aren't too many and there is
/// memory. Contracts see the other source, so that whatever is read through it is read of that.
#[derive(Drop)]
pub struct Kept<S> {
    inner: S,
    bytes: Vec<u8>,
    is_whole: bool,
}

impl<S> Kept<S> {
    ghost use Rattle.std.specs.Prelude.{Some, None, if◌then◌else◌, option_map};
    ghost use Rattle.cmwq_explain.specs.Copies.{KeepsToo, bytes_copied, is_copied, kept_inner};

    /// Nothing has been read yet.
    pub fn new(alloc: Global, inner: S) -> Kept<S>
        ensures inner { kept_inner result ≡ inner }
        ensures whole { is_copied result ≡ true }
        ensures nothing { bytes_copied result ≡ [] }
    {
        Kept {
            inner,
            bytes: Vec::new(alloc),
            is_whole: true,
        }
    }

    /// It keeps nothing, and passes all on.
    pub fn passing(alloc: Global, inner: S) -> Kept<S>
        ensures inner { kept_inner result ≡ inner }
        ensures whole { is_copied result ≡ false }
    {
        Kept {
            inner,
            bytes: Vec::new(alloc),
            is_whole: false,
        }
    }

    /// All bytes that were read through it. None: some of them are not kept.
    pub fn bytes(&self) -> Option<&[u8]>
        ensures { option_map (λ bytes. bytes.now) result
            ≡ (if is_copied self.now then Some (bytes_copied self.now) else None) }
    {
        if self.is_whole {
            Some(self.bytes.as_slice())
        } else {
            None
        }
    }

    /// Keeps these bytes too, if all before them are kept, they aren't too many, and there is memory.
    fn keep_bytes(&mut self, bytes: &[u8])
        ensures inner { kept_inner self.new ≡ kept_inner self.old }
        ensures kept { KeepsToo self.old self.new bytes.now }
    {
        let has_room = self.bytes.len() <= MOST_KEPT && bytes.len() <= MOST_KEPT - self.bytes.len();
        if self.is_whole && has_room && self.bytes.extend_from_slice(bytes).is_ok() {
            return;
        }
        self.is_whole = false;
    }
}

impl<S: Source> Source for Kept<S> {
    ghost left = { λ k. S.left k.inner };

    ghost troubles = { λ k. S.troubles k.inner };

    ghost outcomes = { λ k. S.outcomes k.inner };

    ghost use Rattle.cmwq_explain.specs.Copies.{KeepsToo};

    fn read(&mut self, buf: &mut [u8]) -> Result<usize, Trouble>
        requires { 0 < length buf.old }
        ensures bound { ReadsAtMost result buf.new }
        ensures bytes { ReadConsumes (S.left self.old.inner) (S.left self.new.inner) result buf.new }
        ensures count { CountsTrouble (S.troubles self.old.inner) (S.troubles self.new.inner) result }
        ensures outcome { S.outcomes self.new.inner ≡ S.outcomes self.old.inner ++ outcome_of result ∷ [] }
        ensures kept { IfOk result (λ n. KeepsToo self.old self.new (take n buf.new)) }
        ensures stays { OnErr result (bytes_copied self.new ≡ bytes_copied self.old) }
    {
        let answer = self.inner.read(buf);
        if let Ok(count) = answer {
            self.keep_bytes(&buf[..count]);
        }
        answer
    }
}
