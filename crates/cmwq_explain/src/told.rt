//! How an explanation is written.

ghost use Rattle.std.specs.Prelude.{◌≤◌, length};
ghost use Rattle.cmwq_explain.specs.Written.{WritesLittle};

use crate::text::Text;
use arrayvec::ArrayString;
use cmwq_io::{Sink, WriteFault, flush_all, write_all};

/// The text as a line after the program's name.
fn line_of(text: &Text) -> ArrayString<407> {
    let mut line = ArrayString::new();
    let _ = line.try_push_str("cmwq: ");
    let _ = line.try_push_str(text.as_str());
    let _ = line.try_push_str("\n");
    line
}

/// Writes bytes, and flushes.
fn write_little<E: Sink>(errors: &mut E, bytes: &[u8])
    requires { length bytes.now ≤ 407 }
    ensures { WritesLittle (E.written errors.old) (E.written errors.new) }
{
    match write_all(errors, bytes) {
        Ok(()) => {
            let _ = flush_all(errors);
        }
        Err(WriteFault) => {}
    }
}

/// Writes an explanation as one line after the program's name, if there is one. Takes no memory; a failing sink changes
/// nothing.
pub fn tell_text<E: Sink>(errors: &mut E, text: &Text)
    ensures { WritesLittle (E.written errors.old) (E.written errors.new) }
{
    if !text.is_empty() {
        let line = line_of(text);
        write_little(errors, line.as_str().as_bytes());
    }
}
