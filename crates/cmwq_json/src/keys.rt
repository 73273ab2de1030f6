//! The keys of an object.

ghost use Rattle.std.specs.Prelude.{◌≡◌, ◌==◌, ◌≤◌, false, length, map, is_some, option_map, option_and_then};
ghost use Rattle.std.specs.List.{filter, list_all};
ghost use Rattle.std.specs.Option.{option_map_or};
ghost use Rattle.serde_json.specs.Find.{get, as_array, as_object};
ghost use Rattle.serde_json.specs.View.{view, items_view};
ghost use Rattle.cmwq_json.specs.Keys as spec;

use serde_json::Value;

fn has_key(value: &Value, key: &str) -> bool
    ensures { result ≡ is_some (get key.now (view value.now)) }
{
    value.get(key).is_some()
}

fn len(value: &Value) -> Option<usize>
    ensures { result ≡ option_map spec.count_of (as_object (view value.now)) }
{
    match value.as_object() {
        Some(object) => Some(object.len()),
        None => None,
    }
}

fn has_each(value: &Value, keys: &[&str]) -> bool
    ensures { result ≡ list_all (λ key. is_some (get key.now (view value.now))) keys.now }
{
    keys.iter().all(|key| has_key(value, key))
}

/// Whether a value is an object with exactly these keys.
pub fn has_keys(value: &Value, keys: &[&str]) -> bool
    ensures { result ≡ spec.has_keys (map (λ key. key.now) keys.now) (view value.now) }
{
    len(value) == Some(keys.len()) && has_each(value, keys)
}

/// How many of these keys a value has.
#[tactic(auto, using(crate::proofs::Arrays::filtered_map))]
fn count_keys(value: &Value, keys: &[&str]) -> usize
    ensures is { result ≡ length (filter (λ key. is_some (get key (view value.now))) (map (λ key. key.now) keys.now)) }
    ensures few { result ≤ length keys.now }
{
    keys.iter().filter(|key| has_key(value, key)).count()
}

fn has_count(value: &Value, count: usize) -> bool
    ensures { result ≡ option_map_or (λ ms. spec.count_of ms == count) (as_object (view value.now)) false }
{
    match len(value) {
        Some(found) => found == count,
        None => false,
    }
}

/// Whether a value is an object with each of these keys, and besides none but of the optional ones.
pub fn has_keys_with_optional(value: &Value, keys: &[&str], optional: &[&str]) -> bool
    ensures { result ≡ spec.has_keys_with_optional (map (λ key. key.now) keys.now) (map (λ key. key.now) optional.now)
        (view value.now) }
{
    has_count(value, keys.len() + count_keys(value, optional)) && has_each(value, keys)
}

/// The array at a key.
pub fn array_at<'v>(value: &'v Value, key: &str) -> Option<&'v Vec<Value>>
    ensures { option_map (λ v. items_view v.now.items) result
        ≡ option_and_then as_array (get key.now (view value.now)) }
{
    value.get(key)?.as_array()
}
