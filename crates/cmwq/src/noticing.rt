//! Streams that keep why they failed.

use std::fmt::{self, Display, Formatter};
use std::io::{self, ErrorKind, Read, Write};

/// Reads from another stream, or writes to it, and keeps the error of the last call that failed.
#[derive(Drop)]
pub(crate) struct Noticing<T> {
    inner: T,
    error: Option<io::Error>,
}

impl<T> Noticing<T> {
    /// No call has failed yet.
    pub(crate) fn new(inner: T) -> Noticing<T> {
        Noticing { inner, error: None }
    }

    /// Why the last call that failed did.
    pub(crate) fn error(&self) -> Option<io::Error> {
        self.error
    }
}

impl<T: Read> Read for Noticing<T> {
    fn read(&mut self, buf: &mut [u8]) -> io::Result<usize> {
        let read = self.inner.read(buf);
        if let Err(error) = &read {
            self.error = Some(*error);
        }
        read
    }
}

impl<T: Write> Write for Noticing<T> {
    fn write(&mut self, buf: &[u8]) -> io::Result<usize> {
        let written = self.inner.write(buf);
        if let Err(error) = &written {
            self.error = Some(*error);
        }
        written
    }

    fn flush(&mut self) -> io::Result<()> {
        let flushed = self.inner.flush();
        if let Err(error) = &flushed {
            self.error = Some(*error);
        }
        flushed
    }
}

/// Why a file cannot be opened, read or written: what the system says, where it is none of the usual reasons.
#[derive(Clone, Copy)]
pub(crate) struct Reason(pub(crate) io::Error);

impl Display for Reason {
    fn fmt<W: fmt::Write>(&self, f: &mut Formatter<W>) -> fmt::Result {
        match self.0.kind() {
            ErrorKind::NotFound => f.write_str("no such file or directory"),
            ErrorKind::PermissionDenied => f.write_str("permission denied"),
            ErrorKind::IsADirectory => f.write_str("is a directory"),
            ErrorKind::StorageFull => f.write_str("no space left on device"),
            _ => write!(f, "{}", self.0),
        }
    }
}
