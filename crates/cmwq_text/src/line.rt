//! Lines that are spelled, in a buffer of their own.
ghost use Rattle.std.specs.Prelude.{◌≡◌, ◌+◌, ◌*◌, ◌<◌, ◌≤◌, [], ◌∷◌, ◌++◌, length, take, map, decimal};
ghost use Rattle.cmwq_text.specs.Words.{space_words};
ghost use Rattle.cmwq_text.specs.CallText.{phrase};

use crate::keyword::Keyword;
use itoa::write_digits;
use std::marker::Model;

/// How many digits a number has.
#[inline]
fn digit_count(number: u64) -> usize
    ensures count { result ≡ length (decimal number) }
    ensures short { result ≤ 20 }
{
    let mut left = number;
    let mut count = 0;
    while left >= 10_000 {
        left /= 10_000;
        count += 4;
    }
    count + short_digit_count(left)
}

#[inline]
fn short_digit_count(number: u64) -> usize
    requires { number < 10000 }
    ensures { result ≡ length (decimal number) }
{
    match number {
        0..=9 => 1,
        10..=99 => 2,
        100..=999 => 3,
        _ => 4,
    }
}

/// The text of a line, with its line feed. It takes no memory but its own, which holds twice what the longest line has.
#[derive(Drop)]
pub struct LineText {
    bytes: [u8; 240],
    len: usize,
}

impl Model for LineText {
    ghost use Rattle.std.specs.Prelude.{◌≤◌, ℕ, List, take};

    ghost Value = { List ℕ };

    ghost view = { λ line. take line.len line.bytes };

    ghost invariant = { λ line. line.len ≤ 240 };
}

impl LineText {
    /// Its bytes.
    #[inline(always)]
    pub fn as_bytes(&self) -> &[u8]
        ensures { result.now ≡ self.now }
    {
        &self.bytes[..self.len]
    }

    /// An empty line.
    #[inline(always)]
    pub fn new() -> LineText
        ensures { result ≡ [] }
    {
        LineText {
            bytes: [0; 240],
            len: 0,
        }
    }

    #[inline(always)]
    pub(crate) fn clear(&mut self)
        ensures { self.new ≡ [] }
    {
        self.len = 0;
    }

    #[inline(always)]
    pub(crate) fn push(&mut self, text: &str)
        requires { length self.old + length text.now ≤ 240 }
        ensures exact { self.new ≡ self.old ++ text.now }
        ensures len { length self.new ≡ length self.old + length text.now }
    {
        let end = self.len + text.len();
        self.bytes[self.len..end].copy_from_slice(text.as_bytes());
        self.len = end;
    }

    /// Spells a number of one digit.
    #[inline(always)]
    #[tactic(auto, using(std::proofs::lemmas::List::take_more_set))]
    fn push_digit(&mut self, digit: u8)
        requires room { length self.old < 240 }
        requires digit { digit < 10 }
        ensures exact { self.new ≡ self.old ++ (48 + digit) ∷ [] }
    {
        self.bytes[self.len] = b'0' + digit;
        self.len += 1;
    }

    #[inline(always)]
    #[tactic(auto, using(std::proofs::lemmas::Fmt::decimal_digit))]
    pub(crate) fn push_number(&mut self, number: u64)
        requires { length self.old + 20 ≤ 240 }
        ensures exact { self.new ≡ self.old ++ decimal number }
        ensures short { length self.new ≤ length self.old + 20 }
    {
        // most numbers of a line are ids, which have one
        if number < 10 {
            self.push_digit(number as u8);
        } else {
            self.push_digits(number);
        }
    }

    fn push_digits(&mut self, number: u64)
        requires { length self.old + 20 ≤ 240 }
        ensures exact { self.new ≡ self.old ++ decimal number }
        ensures short { length self.new ≤ length self.old + 20 }
    {
        let end = self.len + digit_count(number);
        write_digits(number, &mut self.bytes, end);
        self.len = end;
    }

    /// Spells numbers, each after a space.
    #[inline(always)]
    pub(crate) fn push_numbers(&mut self, numbers: &[u64])
        requires { length self.old + 21 * length numbers.now ≤ 240 }
        ensures exact { self.new ≡ self.old ++ space_words (map decimal numbers.now) }
        ensures short { length self.new ≤ length self.old + 21 * length numbers.now }
    {
        for number in numbers {
            self.push(" ");
            self.push_number(*number);
        }
    }

    /// Spells a keyword and numbers, each after a space.
    #[tactic(auto, unfolding(crate::specs::Words::space_words))]
    #[inline(always)]
    pub(crate) fn push_phrase(&mut self, keyword: Keyword, numbers: &[u64])
        requires { length self.old + 14 + 21 * length numbers.now ≤ 240 }
        ensures exact { self.new ≡ self.old ++ space_words (phrase keyword numbers.now) }
        ensures short { length self.new ≤ length self.old + 14 + 21 * length numbers.now }
    {
        self.push(" ");
        self.push(keyword.text());
        self.push_numbers(numbers);
    }

    /// Spells a keyword and a number, and then a keyword and numbers.
    pub(crate) fn push_phrases(
        &mut self,
        first: Keyword,
        number: u64,
        second: Keyword,
        numbers: &[u64],
    )
        requires { length self.old + 49 + 21 * length numbers.now ≤ 240 }
        ensures exact { self.new ≡ self.old ++ space_words (phrase first (number ∷ []) ++ phrase second numbers.now) }
        ensures short { length self.new ≤ length self.old + 49 + 21 * length numbers.now }
    {
        self.push_phrase(first, &[number]);
        self.push_phrase(second, numbers);
    }
}
