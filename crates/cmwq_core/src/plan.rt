//! Entries that are found before they are made.

use cmwq_model::Mark;

/// An entry that a book would make next: `Book::plan` finds it, and `Book::commit` makes it.
#[derive(Clone, Copy)]
pub struct Plan {
    /// The entry, with the bits of the item that it can change.
    pub mark: Mark,
}
