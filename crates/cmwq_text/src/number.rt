//! Numbers in a text.
ghost use Rattle.std.specs.Prelude.{◌≡◌, ◌≤◌, IfSome};
ghost use Rattle.cmwq_text.specs.Numbers.{with_digit, digits_from, is_begun, number_read, byte_of};
ghost use Rattle.cmwq_model.specs.Prelude.{greatest, greatest_long};

/// The number with a digit after it, if that is at most the limit.
#[inline]
fn with_digit(limit: u64, value: u64, digit: u8) -> Option<u64>
    ensures { result ≡ with_digit limit value digit }
{
    if !digit.is_ascii_digit() {
        return None;
    }
    let value = value.checked_mul(10)?.checked_add(u64::from(digit - b'0'))?;
    if value <= limit { Some(value) } else { None }
}

/// The number that digits stand for, if it is at most the limit. It stops at the first digit that passes the limit.
#[inline]
pub fn digits_of(limit: u64, digits: &[u8]) -> Option<u64>
    ensures exact { result ≡ digits_from limit 0 digits.now }
    ensures within { IfSome result (λ n. n ≤ limit) }
{
    let mut value = 0;
    for digit in digits {
        value = with_digit(limit, value, *digit)?;
    }
    Some(value)
}

/// Whether it is `0`, or begins with no zero.
#[inline]
fn is_begun(word: &[u8]) -> bool
    ensures { result ≡ is_begun word.now }
{
    match word {
        [] => false,
        [first, others @ ..] => *first != b'0' || others.is_empty(),
    }
}

/// The number that a word spells, if it is at most the limit: `0`, or a digit 1 to 9 and digits after it.
#[tactic(auto, unfolding(crate::specs::Numbers::number_read))]
#[inline]
fn limited(limit: u64, word: &[u8]) -> Option<u64>
    ensures exact { result ≡ number_read limit word.now }
    ensures within { IfSome result (λ n. n ≤ limit) }
{
    if is_begun(word) {
        digits_of(limit, word)
    } else {
        None
    }
}

/// The number that a word spells: `0`, or a digit 1 to 9 and digits after it. None: it spells none, or one above
/// 18,446,744,073,709,551,615.
pub fn read_number(word: &[u8]) -> Option<u64>
    ensures { result ≡ number_read greatest_long word.now }
{
    limited(u64::MAX, word)
}

/// The number of at most 4,294,967,295 that a word spells.
#[inline]
pub fn number_of(word: &[u8]) -> Option<u32>
    ensures { result ≡ number_read greatest word.now }
{
    u32::try_from(limited(u64::from(u32::MAX), word)?).ok()
}

/// The number of at most 4,294,967,295 that a word spells, where one above 255 is read as that.
#[inline]
pub fn byte_of(word: &[u8]) -> Option<u8>
    ensures { result ≡ byte_of word.now }
{
    Some(u8::try_from(number_of(word)?).unwrap_or(u8::MAX))
}
