//! An entry, and the tick after it.

use cmwq_model::Number;

/// Since when something stands: the number of an entry, and the tick after it.
#[derive(Clone, Copy)]
pub(crate) struct Since {
    pub(crate) entry: Number,
    pub(crate) tick: u64,
}
