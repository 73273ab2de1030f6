//! A line as its words. Each reader takes the words that it reads; where it gives None, some may be taken.
ghost use Rattle.std.specs.Prelude.{◌≡◌, ◌≤◌, if◌then◌else◌, nat_le, Some, None, IfSome, option_map, position};
ghost use Rattle.cmwq_text.specs.Numbers.{IsLeading, is_begun, digits_from, number_read};
ghost use Rattle.cmwq_text.specs.Words.{is_space, words_of, first_word, word_read, with_left, byte_in, short_in};
ghost use Rattle.cmwq_text.specs.Words.{byte_count_in, short_count_in, number_in, wide_in, long_in};

use crate::expected::Expected;
use crate::number::digits_of;
use std::marker::Model;

/// Numbers below it have room for a digit more.
const MANY: u64 = 1_000_000_000_000_000_000;

/// The greatest number of an entry.
pub const GREATEST_NUMBER: u64 = 9_223_372_036_854_775_807;

#[inline(always)]
fn first_space(bytes: &[u8]) -> Option<usize>
    ensures { result ≡ position is_space bytes.now }
{
    bytes.iter().position(|byte| *byte == b' ')
}

/// The words of a line that are left: none, or those of these bytes, with one space between each two.
#[derive(Drop)]
pub struct Words<'a> {
    bytes: Option<&'a [u8]>,
    /// What the word should be that a reader came to last. Contracts don't see it.
    expected: Expected,
}

impl<'a> Model for Words<'a> {
    ghost use Rattle.std.specs.Prelude.{ℕ, List};
    ghost use Rattle.cmwq_text.specs.Words.{words_left};

    ghost Value = { List (List ℕ) };

    ghost view = { λ w. words_left w.bytes };
}

impl<'a> Words<'a> {
    ghost use Rattle.std.specs.Option.{option_map};
    ghost use Rattle.cmwq_text.specs.Words.{words_of, has_no_word, first_word, first_letter, after};

    /// The words of a line.
    #[inline(always)]
    pub fn of(line: &'a [u8]) -> Words<'a>
        ensures { result ≡ words_of line.now }
    {
        Words {
            bytes: Some(line),
            expected: Expected::End,
        }
    }

    /// Notes what the first word should be. Every reader does so before it reads the word.
    #[inline(always)]
    pub fn note(&mut self, expected: Expected)
        ensures { self.new ≡ self.old }
    {
        self.expected = expected;
    }

    /// What was noted last: where a reader stopped, what it expected there.
    pub fn expected(&self) -> Expected {
        self.expected
    }

    /// Whether no word is left.
    #[tactic(auto, using(crate::proofs::Splits::split_has_first))]
    #[inline(always)]
    pub fn is_end(&self) -> bool
        ensures { result ≡ has_no_word self.now }
    {
        self.bytes.is_none()
    }

    /// Takes the first word.
    #[tactic(auto, using(crate::proofs::Splits::split_without_space, crate::proofs::Splits::split_at_space))]
    #[inline(always)]
    pub fn first(&mut self) -> Option<&'a [u8]>
        ensures { option_map (λ word. (word.now, self.new)) result ≡ first_word self.old }
    {
        let bytes = self.bytes?;
        match first_space(bytes) {
            None => {
                self.bytes = None;
                Some(bytes)
            }
            Some(end) => {
                self.bytes = Some(&bytes[end + 1..]);
                Some(&bytes[..end])
            }
        }
    }

    /// Takes the first letter of the first word.
    #[tactic(auto, using(crate::proofs::Leading::letter_taken))]
    #[inline(always)]
    pub fn letter(&mut self) -> Option<u8>
        ensures { option_map (λ letter. (letter, self.new)) result ≡ first_letter self.old }
    {
        match self.bytes? {
            [letter, rest @ ..] if *letter != b' ' => {
                self.bytes = Some(rest);
                Some(*letter)
            }
            _ => None,
        }
    }

    /// Takes the first word, if it is this one.
    pub fn after(&mut self, word: &[u8]) -> Option<()>
        ensures { option_map (λ _. self.new) result ≡ after word.now self.old }
    {
        let first = self.first()?;
        if first == word { Some(()) } else { None }
    }
}

/// Whether the first word is `0`, or begins with no zero.
#[inline(always)]
fn begins_number(bytes: &[u8]) -> bool
    ensures { Some result ≡ option_map (λ word. is_begun word.0) (first_word (words_of bytes.now)) }
{
    match bytes {
        [] => false,
        [b'0', second, ..] => *second == b' ',
        [first, ..] => *first != b' ',
    }
}

/// The number of the digits that bytes begin with, of no more of them than surely fit 64 bits, and what is after these.
#[inline(always)]
fn leading_digits(bytes: &[u8]) -> (u64, &[u8])
    ensures { IsLeading bytes.now result.0 result.1.now }
{
    let mut value = 0;
    let mut left = bytes;
    while let [byte, rest @ ..] = left {
        if !byte.is_ascii_digit() || value >= MANY {
            return (value, left);
        }
        value = value * 10 + u64::from(*byte - b'0');
        left = rest;
    }
    (value, left)
}

#[inline(always)]
fn at_most<'a>(limit: u64, number: u64, left: Words<'a>) -> Option<(u64, Words<'a>)>
    ensures { result ≡ (if nat_le number limit then Some (number, left.entry) else None) }
{
    if number <= limit {
        Some((number, left))
    } else {
        None
    }
}

/// As `leading_number`, of digits that 64 bits may not hold.
#[cold]
fn long_number<'a>(limit: u64, bytes: &'a [u8]) -> Option<(u64, Words<'a>)>
    ensures exact { result ≡ word_read (digits_from limit 0) (words_of bytes.now) }
    ensures within { IfSome result (λ number. number.0 ≤ limit) }
{
    let mut words = Words::of(bytes);
    let number = digits_of(limit, words.first()?)?;
    Some((number, words))
}

/// The number that digits up to a space or the end stand for, if it is at most the limit, and the words after it.
#[inline(always)]
fn leading_number<'a>(limit: u64, bytes: &'a [u8]) -> Option<(u64, Words<'a>)>
    ensures exact { result ≡ word_read (digits_from limit 0) (words_of bytes.now) }
    ensures within { IfSome result (λ number. number.0 ≤ limit) }
{
    let (value, behind) = leading_digits(bytes);
    match behind {
        [] => {
            let none = Words {
                bytes: None,
                expected: Expected::End,
            };
            at_most(limit, value, none)
        }
        [byte, rest @ ..] => {
            if *byte == b' ' {
                at_most(limit, value, Words::of(rest))
            } else if byte.is_ascii_digit() {
                long_number(limit, bytes)
            } else {
                None
            }
        }
    }
}

/// The number that the first word spells, if it is at most the limit: `0`, or a digit 1 to 9 and digits after it.
#[inline(always)]
fn limited_in(limit: u64, words: &mut Words<'_>) -> Option<u64>
    ensures exact { with_left result words.new ≡ word_read (number_read limit) words.old }
    ensures within { IfSome result (λ n. n ≤ limit) }
{
    let bytes = words.bytes?;
    if !begins_number(bytes) {
        return None;
    }
    let (number, left) = leading_number(limit, bytes)?;
    *words = left;
    Some(number)
}

/// A number that a byte holds. A greater one is read as the greatest that it holds.
#[inline(always)]
pub fn byte_in(words: &mut Words<'_>) -> Option<u8>
    ensures { with_left result words.new ≡ byte_in words.old }
{
    Some(u8::try_from(number_in(words)?).unwrap_or(u8::MAX))
}

/// A number of at most 65,535. A greater one is read as that.
#[inline(always)]
pub fn short_in(words: &mut Words<'_>) -> Option<u16>
    ensures { with_left result words.new ≡ short_in words.old }
{
    Some(u16::try_from(number_in(words)?).unwrap_or(u16::MAX))
}

/// How many of something there are, at most 255: a greater number is none.
pub fn byte_count_in(words: &mut Words<'_>) -> Option<u8>
    ensures { with_left result words.new ≡ byte_count_in words.old }
{
    u8::try_from(limited_in(u64::from(u8::MAX), words)?).ok()
}

/// The same, at most 65,535.
pub fn short_count_in(words: &mut Words<'_>) -> Option<u16>
    ensures { with_left result words.new ≡ short_count_in words.old }
{
    u16::try_from(limited_in(u64::from(u16::MAX), words)?).ok()
}

/// A number of at most 4,294,967,295.
#[inline(always)]
pub fn number_in(words: &mut Words<'_>) -> Option<u32>
    ensures { with_left result words.new ≡ number_in words.old }
{
    u32::try_from(limited_in(u64::from(u32::MAX), words)?).ok()
}

/// A number of at most 9,223,372,036,854,775,807.
#[inline(always)]
pub fn wide_in(words: &mut Words<'_>) -> Option<u64>
    ensures { with_left result words.new ≡ wide_in words.old }
{
    limited_in(GREATEST_NUMBER, words)
}

/// A number of at most 18,446,744,073,709,551,615.
#[inline(always)]
pub fn long_in(words: &mut Words<'_>) -> Option<u64>
    ensures { with_left result words.new ≡ long_in words.old }
{
    limited_in(u64::MAX, words)
}
