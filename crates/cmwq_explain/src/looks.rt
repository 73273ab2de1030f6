//! Bytes that no line has.

use crate::text::Text;

/// Tells the first byte of a line that no line has, or a space that doesn't stand between two words. False: there is
/// none.
pub fn tell_bytes(text: &mut Text, number: u64, line: &[u8]) -> bool {
    if line.is_empty() {
        text.place(number, 0);
        text.say("a line may not be empty");
        return true;
    }
    match strange_in(line) {
        Some((at, what)) => {
            text.place(number, at);
            text.say(what);
            true
        }
        None => false,
    }
}

/// Where such a byte is, and what is told of it.
fn strange_in(line: &[u8]) -> Option<(usize, &'static str)> {
    for (at, byte) in line.iter().enumerate() {
        if let Some(what) = strange(line, at, *byte) {
            return Some((at, what));
        }
    }
    None
}

fn strange(line: &[u8], at: usize, byte: u8) -> Option<&'static str> {
    let is_last = at.saturating_add(1) == line.len();
    match byte {
        b'\r' if is_last => Some("a line may not end with a carriage return"),
        b'\t' => Some("a tab; words stand apart by one space"),
        b' ' if at == 0 => Some("a line may not begin with a space"),
        b' ' if is_last => Some("a line may not end with a space"),
        b' ' if line.get(at.saturating_add(1)).copied() == Some(b' ') => {
            Some("two spaces; words stand apart by one")
        }
        b' '..=b'~' => None,
        _ => Some("a byte that is not a letter, digit or sign of ASCII"),
    }
}
