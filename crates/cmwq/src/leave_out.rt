//! The items whose runs `resume` leaves out.

use std::alloc::{AllocError, Global};

/// How many items a shape may have.
const MOST_ITEMS: usize = 65_535;

/// Why there are no such items.
#[derive(Clone, Copy)]
pub enum NoItems {
    /// It is no list of numbers of items.
    NoList,
    NoMemory,
}

impl From<AllocError> for NoItems {
    fn from(_: AllocError) -> NoItems {
        NoItems::NoMemory
    }
}

/// The place of the flag of an item, by the number of the item as it was given.
fn place_of(number: &str) -> Option<usize> {
    let place = usize::from(number.parse::<u16>().ok()?);
    (place < MOST_ITEMS).then_some(place)
}

/// Sets the flag of each item in a list, whose numbers have commas between them.
fn set_all(flags: &mut [bool], list: &str) -> Result<(), NoItems> {
    for number in list.split(',') {
        match place_of(number).and_then(|place| flags.get_mut(place)) {
            Some(flag) => *flag = true,
            None => return Err(NoItems::NoList),
        }
    }
    Ok(())
}

/// A flag for each item, which is set if the item is in the list that was given. Without a list there are no flags.
pub fn left_out(alloc: Global, list: Option<&str>) -> Result<Vec<bool>, NoItems> {
    let Some(list) = list else {
        return Ok(Vec::new(alloc));
    };
    let mut flags = vec![in alloc; false; MOST_ITEMS]?;
    set_all(&mut flags, list)?;
    Ok(flags)
}
