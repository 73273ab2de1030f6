//! Lists read from the front on: what is read, and the parts that are left.

ghost use Rattle.std.specs.Prelude.{◌≡◌, option_map};
ghost use Rattle.serde_json.specs.View.{view, items_view};
ghost use Rattle.cmwq_json_script.specs.Lists as spec;

use crate::word::{Word, word_of};
use serde_json::Value;

fn read_word(value: &Value) -> Option<Word>
    ensures { result ≡ spec.word_said (view value.now) }
{
    word_of(value.as_str()?)
}

/// The first part, and those after it.
pub fn first_in(parts: &[Value]) -> Option<(&Value, &[Value])>
    ensures { option_map (λ r. (view r.0.now, items_view r.1.now)) result ≡ spec.first_item (items_view parts.now) }
{
    parts.split_first()
}

/// The word that the first part is, and the parts after it.
pub fn word_in(parts: &[Value]) -> Option<(Word, &[Value])>
    ensures { option_map (λ r. (r.0, items_view r.1.now)) result ≡ spec.word_of_items (items_view parts.now) }
{
    let (part, parts) = first_in(parts)?;
    Some((read_word(part)?, parts))
}
