//! Numbers as they stand in a key: a small one as it is, any other in parts.

ghost use Rattle.std.specs.Prelude.{◌≡◌, ◌∷◌, ◌++◌, [], IfOk};
ghost use Rattle.cmwq_key.specs.Codes.{code, codes, flag, large_code, told_flag};

use crate::key::Key;
use std::alloc::AllocError;

/// What stands before the parts of a number that is not small.
const MARK: u16 = u16::MAX;

/// How many numbers a part can be.
const PART: u64 = 65_536;

fn push_large(key: &mut Key, number: u64) -> Result<(), AllocError>
    ensures { IfOk result (λ _. key.new.items ≡ key.old.items ++ large_code number) }
{
    let first = (number % PART) as u16;
    let second = (number / PART % PART) as u16;
    let third = (number / PART / PART % PART) as u16;
    let fourth = (number / PART / PART / PART) as u16;
    key.extend_from_slice(&[MARK, first, second, third, fourth])?;
    Ok(())
}

#[tactic(auto, unfolding(crate::specs::Codes::code))]
fn push_code(key: &mut Key, number: u64) -> Result<(), AllocError>
    ensures { IfOk result (λ _. key.new.items ≡ key.old.items ++ code number) }
{
    if number < u64::from(MARK) {
        key.push(number as u16)?;
        Ok(())
    } else {
        push_large(key, number)
    }
}

/// Writes a number.
#[tactic(auto, using(crate::proofs::Coding::codes_one))]
pub(super) fn push(key: &mut Key, number: u64) -> Result<(), AllocError>
    ensures { IfOk result (λ _. key.new.items ≡ key.old.items ++ codes (number ∷ [])) }
{
    push_code(key, number)
}

/// Writes numbers, one after the other.
pub(super) fn push_all(key: &mut Key, numbers: &[u64]) -> Result<(), AllocError>
    ensures { IfOk result (λ _. key.new.items ≡ key.old.items ++ codes numbers.now) }
{
    for number in numbers {
        push_code(key, *number)?;
    }
    Ok(())
}

/// What stands for whether something is so.
pub(super) fn flag(is: bool) -> u64
    ensures { result ≡ flag is }
{
    if is { 1 } else { 0 }
}

/// Writes whether something is so.
pub(super) fn push_flag(key: &mut Key, is: bool) -> Result<(), AllocError>
    ensures { IfOk result (λ _. key.new.items ≡ key.old.items ++ codes (told_flag is)) }
{
    push(key, flag(is))
}
