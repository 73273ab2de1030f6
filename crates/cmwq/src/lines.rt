//! The lines of standard error. That of a refused input says which flag tells more of it, and that of a stream that
//! failed says why it did.

use crate::noticing::Reason;
use std::io::{self, ErrorKind, Write};

/// What stands at the end of a line that tells of a refused input.
const REFUSALS: [&str; 6] = [
    ": not a line of this format",
    ": bad shape",
    ": no such number",
    ": refused",
    ": input too long",
    ": not JSON",
];

/// What is added to such a line.
const HINT: &str = " (--explain says why)\n";

/// The line that tells of an output that failed.
const WRITE_FAULT: &str = "cmwq: write fault";

/// The lines that tell of a stream that failed.
const FAULTS: [&str; 3] = ["cmwq: read fault", "cmwq: names: read fault", WRITE_FAULT];

fn is_refusal(line: &[u8]) -> bool {
    REFUSALS
        .iter()
        .any(|words| line.ends_with(words.as_bytes()))
}

fn fault_in(line: &[u8]) -> Option<&'static str> {
    for fault in FAULTS {
        if line == fault.as_bytes() {
            return Some(fault);
        }
    }
    None
}

/// Why streams failed, if they did.
#[derive(Clone, Copy)]
pub(crate) struct Failures {
    pub(crate) input: Option<io::Error>,
    pub(crate) output: Option<io::Error>,
}

/// A writer of lines, each of which is written at once. It adds the hint to those of refused inputs, where it is to.
/// The line of a stream that failed is held back until it is known why.
#[derive(Drop)]
pub(crate) struct Lines<W> {
    inner: W,
    is_hinting: bool,
    fault: Option<&'static str>,
}

impl<W: Write> Lines<W> {
    pub(crate) fn new(inner: W, is_hinting: bool) -> Lines<W> {
        Lines {
            inner,
            is_hinting,
            fault: None,
        }
    }

    /// Writes what is held back: the line of a fault, with its error.
    fn let_go(&mut self, error: Option<io::Error>) -> io::Result<()> {
        match (self.fault.take(), error) {
            (Some(fault), Some(error)) => writeln!(self.inner, "{fault}: {}", Reason(error)),
            (Some(fault), None) => writeln!(self.inner, "{fault}"),
            (None, _) => Ok(()),
        }
    }

    /// Ends the lines: that of a stream that failed says why. Where only the reader of the output has gone, there is no
    /// such line.
    pub(crate) fn end(&mut self, failures: Failures) {
        let error = if self.fault == Some(WRITE_FAULT) {
            failures.output
        } else {
            failures.input
        };
        match error {
            Some(error) if error.kind() == ErrorKind::BrokenPipe => self.fault = None,
            _ => {
                let _ = self.let_go(error);
            }
        }
    }
}

impl<W: Write> Write for Lines<W> {
    fn write(&mut self, buf: &[u8]) -> io::Result<usize> {
        self.let_go(None)?;
        let Some(line) = buf.strip_suffix("\n".as_bytes()) else {
            return self.inner.write(buf);
        };
        self.fault = fault_in(line);
        if self.fault.is_some() {
            return Ok(buf.len());
        }
        if self.is_hinting && is_refusal(line) {
            self.inner.write_all(line)?;
            self.inner.write_all(HINT.as_bytes())?;
            return Ok(buf.len());
        }
        self.inner.write(buf)
    }

    fn flush(&mut self) -> io::Result<()> {
        self.inner.flush()
    }
}
