/// How many unended tickets a caller may have.
pub const TICKETS_OF_CALLER: u32 = 64;

/// How many flushes of a queue are served at once.
pub const MOST_SERVED: usize = 15;

/// How many colours there are: one for each served flush, and the current one.
pub(crate) const COLOURS: usize = 16;
