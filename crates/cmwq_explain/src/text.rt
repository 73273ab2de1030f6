//! The text of an explanation, while it is made.

use arrayvec::ArrayString;
use itoa::Buffer;

/// The most bytes of a word of the input that are shown.
const MOST_SHOWN: usize = 130;

/// One line without its line feed. What has no room any more is left out. It takes no memory but its own.
#[derive(Drop)]
pub struct Text {
    text: ArrayString<400>,
}

impl Text {
    /// An empty text.
    pub fn new() -> Text {
        Text {
            text: ArrayString::new(),
        }
    }

    /// What is said.
    pub fn as_str(&self) -> &str {
        self.text.as_str()
    }

    /// Whether nothing is said.
    pub fn is_empty(&self) -> bool {
        self.as_str().is_empty()
    }

    /// Says this.
    pub fn say(&mut self, text: &str) {
        let _ = self.text.try_push_str(text);
    }

    /// Says a number.
    pub fn number(&mut self, number: u64) {
        self.say(Buffer::new().format(number));
    }

    /// Says bytes of the input as they are, but for those that aren't shown: these as `\x` and two hexadecimal digits.
    pub fn raw(&mut self, bytes: &[u8]) {
        for byte in bytes.iter().take(MOST_SHOWN) {
            self.byte(*byte);
        }
        if bytes.len() > MOST_SHOWN {
            self.say("..");
        }
    }

    /// Says bytes of the input between quotes.
    pub fn quoted(&mut self, bytes: &[u8]) {
        self.say("\"");
        self.raw(bytes);
        self.say("\"");
    }

    /// Says a byte of the input.
    pub fn byte(&mut self, byte: u8) {
        match byte {
            b' '..=b'~' => {
                let _ = self.text.try_push(char::from(byte));
            }
            _ => {
                self.say("\\x");
                for digit in [byte / 16, byte % 16] {
                    let letter = b"0123456789abcdef".get(usize::from(digit));
                    let _ = self.text.try_push(char::from(*letter.unwrap_or(&b'0')));
                }
            }
        }
    }

    /// Says where in a file something is: the line, and the column of a byte of it, both from 1.
    pub fn place(&mut self, line: u64, at: usize) {
        self.say("line ");
        self.number(line);
        self.say(", column ");
        self.number((at as u64).saturating_add(1));
        self.say(": ");
    }
}
