//! std's readers and writers as sources and sinks.
ghost use Rattle.std.specs.Prelude.{◌≡◌, []};
ghost use Rattle.std.specs.IoError.{error_kind};
ghost use Rattle.cmwq_io.specs.FromStd.{trouble_of};

use crate::outcomes::Outcomes;
use crate::sink::Sink;
use crate::source::Source;
use crate::trouble::{Trouble, count_after};
use std::io;
use std::io::{ErrorKind, Read, Write};

/// A reader or a writer of std. An error of the kind `Interrupted` is `Trouble::Interrupted`, each other one is
/// `Trouble::Failed`, and so is a write that takes nothing.
#[derive(Drop)]
pub struct FromStd<T> {
    inner: T,
    troubles: u64,
    outcomes: Outcomes,
}

impl<T> FromStd<T> {
    ghost use Rattle.cmwq_io.specs.FromStd.{std_inner, std_troubles, std_outcomes};

    /// Reads from `inner`, or writes to it. No call has failed yet.
    pub fn new(inner: T) -> FromStd<T>
        ensures inner { std_inner result ≡ inner }
        ensures troubles { std_troubles result ≡ 0 }
        ensures outcomes { std_outcomes result ≡ [] }
    {
        FromStd {
            inner,
            troubles: 0,
            outcomes: Outcomes::new(),
        }
    }
}

/// How an error of std counts here.
fn trouble_of(error: &io::Error) -> Trouble
    ensures { result ≡ trouble_of (error_kind error.now) }
{
    match error.kind() {
        ErrorKind::Interrupted => Trouble::Interrupted,
        _ => Trouble::Failed,
    }
}

impl<T: Read> Source for FromStd<T> {
    ghost left = { λ s. T.remaining s.inner };

    ghost troubles = { λ s. s.troubles };

    ghost outcomes = { λ s. s.outcomes };

    fn read(&mut self, buf: &mut [u8]) -> Result<usize, Trouble> {
        let answer = match self.inner.read(buf) {
            Ok(count) => Ok(count),
            Err(error) => Err(trouble_of(&error)),
        };
        self.troubles = count_after(self.troubles, &answer);
        self.outcomes.add(&answer);
        answer
    }
}

impl<T: Write> Sink for FromStd<T> {
    ghost written = { λ s. T.contents s.inner };

    ghost held = { λ _. 0 };

    ghost troubles = { λ s. s.troubles };

    ghost outcomes = { λ s. s.outcomes };

    fn write(&mut self, buf: &[u8]) -> Result<usize, Trouble> {
        let answer = match self.inner.write(buf) {
            Ok(0) => Err(Trouble::Failed),
            Ok(count) => Ok(count),
            Err(error) => Err(trouble_of(&error)),
        };
        self.troubles = count_after(self.troubles, &answer);
        self.outcomes.add(&answer);
        answer
    }

    fn flush(&mut self) -> Result<(), Trouble> {
        let answer = match self.inner.flush() {
            Ok(()) => Ok(()),
            Err(error) => Err(trouble_of(&error)),
        };
        self.troubles = count_after(self.troubles, &answer);
        self.outcomes.add(&answer);
        answer
    }
}
