//! The verdict of a history.

ghost use Rattle.std.specs.Prelude.{◌≡◌, ◌≤◌, length, None, IfSome, OnOk, IfErr};
ghost use Rattle.cmwq_model.specs.Prelude.{IsLegal, past_of, entry_for, AllFit, Wants, IsFirstWrong};

use crate::{reply_of, serial_of};
use cmwq_model::{Entry, Illegal, Shape, Wanted};

/// Judges a history: whether each of its entries is the one that its call gets at that point. Room isn't looked at.
///
/// # Errors
/// The first entry that isn't, with the serial that should stand there, or where the serial is right the reply.
pub fn check(shape: &Shape, entries: &[Entry]) -> Result<(), Illegal>
    requires few { length entries.now ≤ 1000000 }
    requires fitting { AllFit shape.now entries.now }
    ensures legal { OnOk result (IsLegal shape.now (past_of entries.now)) }
    ensures illegal { IfErr result (λ i. IsFirstWrong shape.now entries.now i) }
{
    for at in 0..entries.len() {
        if let Some(wanted) = wanted(shape, &entries[..at], entries[at]) {
            return Err(Illegal {
                at: at as u64,
                wanted,
            });
        }
    }
    Ok(())
}

/// What should stand in the entry that follows these, where something else stands.
fn wanted(shape: &Shape, before: &[Entry], entry: Entry) -> Option<Wanted>
    requires { length before.now ≤ 1000000 }
    ensures right { result ≡ None → entry ≡ entry_for shape.now (past_of before.now) entry.who entry.call }
    ensures wrong { IfSome result (Wants shape.now (past_of before.now) entry) }
{
    let serial = serial_of(before, entry.who);
    if entry.serial != serial {
        return Some(Wanted::Serial(serial));
    }
    let reply = reply_of(shape, before, entry.who, entry.call);
    if entry.reply.is_same(reply) {
        None
    } else {
        Some(Wanted::Reply(reply))
    }
}
