//! What single entries say.
ghost use Rattle.std.specs.Prelude.{◌≡◌, ◌++◌, option_and_then, option_to_list, slice_get, OnOk};
ghost use Rattle.cmwq_model.specs.Prelude.{item_of};

use cmwq_model::Entry;
use std::alloc::AllocError;

pub(crate) fn item_of(entry: Entry) -> Option<u16>
    ensures { result ≡ item_of entry }
{
    match entry.item() {
        Some(item) => Some(item.0),
        None => None,
    }
}

/// The place at a number of a table, if there is one.
pub(crate) fn place_in(places: &[Option<u32>], number: usize) -> Option<u32>
    ensures { result ≡ option_and_then (λ place. place) (slice_get places.now number) }
{
    match places.get(number) {
        Some(place) => *place,
        None => None,
    }
}

/// Adds something after the others, where there is something.
pub(crate) fn push_if_some<T: Drop>(list: &mut Vec<T>, item: Option<T>) -> Result<(), AllocError>
    ensures { OnOk result (list.new.items ≡ list.old.items ++ option_to_list item) }
{
    if let Some(item) = item {
        list.push(item)?;
    }
    Ok(())
}
