//! A text with names in place of numbers.
ghost use Rattle.std.specs.Prelude.{◌≡◌, ◌++◌, ◌<◌, ◌≤◌, length, IfOk, IfSome, OnOk};
ghost use Rattle.std.specs.List.{position};
ghost use Rattle.std.specs.Char.{is_ascii_digit};
ghost use Rattle.serde_json.specs.View.{view};
ghost use Rattle.cmwq_names.specs.Named.{after_digits, digits_at, digits_end, from_digits, is_no_digit, named, of_kind};
ghost use Rattle.cmwq_names.specs.Named.{place_or_end, shown, value_from, words_before};
ghost use Rattle.cmwq_names.specs.Named.{is_beside, with_digit, with_name};

use crate::escape::push_escaped;
use crate::form::{Form, kind_after};
use crate::kind::{Kind, name_of};
use crate::label::{is_label, push_beside, push_label};
use serde_json::Value;
use std::alloc::{AllocError, Global};

/// What is no number of anything.
const NOBODY: usize = 65_536;

/// The number with a digit after it, or one that is no number of anything.
fn with_digit(number: usize, digit: u8) -> usize
    requires { number < 65537 }
    ensures is { result ≡ with_digit number digit }
    ensures few { result < 65537 }
{
    (number * 10 + usize::from(digit.saturating_sub(b'0'))).min(NOBODY)
}

/// What digits stand for, or what is no number of anything.
fn value_of(digits: &[u8]) -> usize
    ensures { result ≡ value_from 0 digits.now }
{
    let mut number = 0;
    for digit in digits {
        number = with_digit(number, *digit);
    }
    number
}

/// Whether a name stands beside its number.
fn is_beside(form: Form, kind: Kind) -> bool
    ensures { result ≡ is_beside form kind }
{
    match kind {
        Kind::Caller => true,
        Kind::Queue => matches!(form, Form::Xml),
        Kind::Item => false,
    }
}

/// Adds what has this name, in place of its digits.
fn push_name(
    out: &mut Vec<u8>,
    form: Form,
    is_row: bool,
    kind: Kind,
    digits: &[u8],
    name: &[u8],
) -> Result<(), AllocError>
    ensures { OnOk result (out.new.items ≡ out.old.items ++ with_name form is_row kind digits.now name.now) }
{
    if is_row {
        push_label(out, kind, digits, name)
    } else if is_beside(form, kind) {
        push_beside(out, form, digits, name)
    } else {
        push_escaped(out, form, name)
    }
}

/// Adds what is of this kind and has this number.
fn push_of_kind(
    out: &mut Vec<u8>,
    script: &Value,
    form: Form,
    is_row: bool,
    digits: &[u8],
    kind: Kind,
) -> Result<(), AllocError>
    ensures { OnOk result (out.new.items ≡ out.old.items ++ of_kind (view script.now) form is_row digits.now kind) }
{
    match name_of(script, kind, value_of(digits)) {
        Some(name) => push_name(out, form, is_row, kind, digits, name.as_bytes()),
        None => out.extend_from_slice(digits),
    }
}

/// Adds a number that stands after these words.
fn push_shown(
    out: &mut Vec<u8>,
    script: &Value,
    form: Form,
    words: &[u8],
    digits: &[u8],
) -> Result<(), AllocError>
    ensures { OnOk result
        (out.new.items ≡ out.old.items ++ shown (view script.now) form words.now digits.now) }
{
    match kind_after(form, words) {
        Some(kind) => push_of_kind(out, script, form, is_label(form, words), digits, kind),
        None => out.extend_from_slice(digits),
    }
}

/// The place, or the end of the text where there is none.
fn place_or_end(place: Option<usize>, text: &[u8]) -> usize
    requires { IfSome place (λ at. at < length text.now) }
    ensures is { result ≡ place_or_end place text.now }
    ensures within { result ≤ length text.now }
{
    match place {
        Some(at) => at,
        None => text.len(),
    }
}

/// Where the first digit is.
fn digit_in(text: &[u8]) -> Option<usize>
    ensures is { result ≡ position is_ascii_digit text.now }
    ensures within { IfSome result (λ at. at < length text.now) }
{
    text.iter().position(|byte| byte.is_ascii_digit())
}

/// Where the first byte is that is no digit.
fn other_in(text: &[u8]) -> Option<usize>
    ensures is { result ≡ position is_no_digit text.now }
    ensures within { IfSome result (λ at. at < length text.now) }
{
    text.iter().position(|byte| !byte.is_ascii_digit())
}

/// The words of a text before its first digit, and what is left from there.
fn split_words(text: &[u8]) -> (&[u8], &[u8])
    ensures words { result.0.now ≡ words_before text.now }
    ensures rest { result.1.now ≡ from_digits text.now }
{
    text.split_at(place_or_end(digit_in(text), text))
}

/// Where the digits end with which a text begins.
fn digits_end(text: &[u8]) -> usize
    requires { 0 < length text.now }
    ensures is { result ≡ digits_end text.now }
    ensures within { result ≤ length text.now }
{
    let others = &text[1..];
    1 + place_or_end(other_in(others), others)
}

/// Adds the number with which a text begins, which stands after these words, and returns what is left.
fn push_number<'t>(
    out: &mut Vec<u8>,
    script: &Value,
    form: Form,
    words: &[u8],
    text: &'t [u8],
) -> Result<&'t [u8], AllocError>
    requires { 0 < length text.now }
    ensures shown { IfOk result
        (λ rest. out.new.items ≡ out.old.items ++ shown (view script.now) form words.now (digits_at text.now)) }
    ensures rest { IfOk result (λ rest. rest.now ≡ after_digits text.now) }
{
    let (digits, rest) = text.split_at(digits_end(text));
    push_shown(out, script, form, words, digits)?;
    Ok(rest)
}

/// Adds the first words of a text and the number after them, and returns what is left.
fn push_first<'t>(
    out: &mut Vec<u8>,
    script: &Value,
    form: Form,
    text: &'t [u8],
) -> Result<&'t [u8], AllocError>
    requires { 0 < length text.now }
    ensures names { IfOk result
        (λ rest. out.new.items ++ named (view script.now) form rest.now
        ≡ out.old.items ++ named (view script.now) form text.now) }
    ensures less { IfOk result (λ rest. length rest.now < length text.now) }
{
    let (words, rest) = split_words(text);
    out.extend_from_slice(words)?;
    if rest.is_empty() {
        return Ok(rest);
    }
    let left = push_number(out, script, form, words, rest)?;
    Ok(left)
}

/// A text of this form, with the names that a script gives in place of the numbers of items, queues and callers. A
/// number that has no name there stays.
pub fn named(alloc: Global, script: &Value, form: Form, text: &[u8]) -> Result<Vec<u8>, AllocError>
    ensures { IfOk result (λ out. out.items ≡ named (view script.now) form text.now) }
{
    let mut out = Vec::new(alloc);
    let mut rest = text;
    while !rest.is_empty() {
        rest = push_first(&mut out, script, form, rest)?;
    }
    Ok(out)
}
