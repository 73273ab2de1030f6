//! What has a name, and the names that a script gives.
ghost use Rattle.std.specs.Prelude.{◌≡◌, option_map};
ghost use Rattle.serde_json.specs.View.{view};
ghost use Rattle.cmwq_names.specs.Names.{key, name_of};

use serde_json::Value;

/// What has a name.
#[derive(Clone, Copy)]
pub(crate) enum Kind {
    Item,
    Queue,
    Caller,
}

/// Under which key a script lists what is of a kind.
fn key(kind: Kind) -> &'static str
    ensures { result.now ≡ key kind }
{
    match kind {
        Kind::Item => "items",
        Kind::Queue => "queues",
        Kind::Caller => "callers",
    }
}

/// The name that a script gives to the item, queue or caller with this number: the text that the member there of its
/// list has as `name`.
pub(crate) fn name_of(script: &Value, kind: Kind, number: usize) -> Option<&str>
    ensures { option_map (λ name. name.now) result ≡ name_of (view script.now) kind number }
{
    script.get(key(kind))?.get(number)?.get("name")?.as_str()
}
