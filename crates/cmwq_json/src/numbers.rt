//! Numbers and widths.

ghost use Rattle.std.specs.Prelude.{◌≡◌, ◌≤◌, IfSome};
ghost use Rattle.serde_json.specs.View.{view};
ghost use Rattle.cmwq_json.specs.Numbers.{number_between, width_said};

use serde_json::Value;

/// A whole number from `low` to `high`.
pub fn read_number(value: &Value, low: u64, high: u64) -> Option<u64>
    ensures number { result ≡ number_between low high (view value.now) }
    ensures range { IfSome result (λ n. (low ≤ n) × (n ≤ high)) }
{
    let number = value.as_u64()?;
    if (low..=high).contains(&number) {
        Some(number)
    } else {
        None
    }
}

/// A queue's max_active: 0 is taken as 256, and more than 512 as 512.
pub fn read_width(value: &Value) -> Option<u16>
    ensures { result ≡ width_said (view value.now) }
{
    match read_number(value, 0, 4_294_967_295)? {
        0 => Some(256),
        number => Some(number.min(512) as u16),
    }
}
