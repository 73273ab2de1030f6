//! Whether two entries are the same.

ghost use Rattle.std.specs.Prelude.{◌≡◌, true, false};

use cmwq_kinds::is_same_call;
use cmwq_model::Entry;

/// Whether an entry is this one.
pub(crate) fn is_same_entry(one: &Entry, other: &Entry) -> bool
    ensures same { result ≡ true → one.now ≡ other.now }
    ensures differs { result ≡ false → one.now ≡ other.now → ⊥ }
{
    one.who == other.who
        && one.serial == other.serial
        && is_same_call(one.call, other.call)
        && one.reply.is_same(other.reply)
}
