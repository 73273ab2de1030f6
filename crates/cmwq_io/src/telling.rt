//! What is told to the user, a line at a time.

use crate::patient::{flush_all, write_all};
use crate::sink::Sink;
use arrayvec::ArrayString;
use std::fmt;
use std::fmt::{Display, Write};

/// Room for the longest line that is told.
type Told = ArrayString<128>;

fn spell<D: Display + Drop>(what: D) -> Result<Told, fmt::Error> {
    let mut line = Told::new();
    writeln!(line, "cmwq: {what}")?;
    Ok(line)
}

/// Tells this after the program's name, as one line of at most 128 bytes. Takes no memory; a failing sink changes
/// nothing.
pub fn tell<E: Sink, D: Display + Drop>(errors: &mut E, what: D) {
    if let Ok(line) = spell(what) {
        let _ = write_all(errors, line.as_bytes());
        let _ = flush_all(errors);
    }
}
