//! What every reader of queues takes from a queue.

ghost use Rattle.std.specs.Prelude.{◌≡◌, option_map};
ghost use Rattle.serde_json.specs.View.{view};
ghost use Rattle.cmwq_json.specs.Queues.{parts_said};

use crate::names::read_name;
use crate::numbers::read_width;
use serde_json::Value;

/// The name of a queue, its max_active, and whether it is CPU intensive. The caller looks at the keys.
pub fn read_parts(value: &Value) -> Option<(&str, u16, bool)>
    ensures { option_map (λ parts. (parts.0.now, parts.1, parts.2)) result ≡ parts_said (view value.now) }
{
    let name = read_name(value.get("name")?)?;
    let max_active = read_width(value.get("max_active")?)?;
    let intensive = value.get("intensive")?.as_bool()?;
    Some((name, max_active, intensive))
}
