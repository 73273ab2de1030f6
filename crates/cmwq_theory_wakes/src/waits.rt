//! Which entries make a wait ready to end.

ghost use Rattle.cmwq_theory_wakes.specs.Readiness.{FlushesGetReadyInOrder, WaitsGetReadyByEndings};

/// A wait gets ready only by an entry that ends a queueing of its queue or of its item.
pub fn waits_get_ready_by_endings()
    ensures { WaitsGetReadyByEndings }
{}

/// While a flush of a queue is not ready, so are all later flushes of that queue.
pub fn flushes_get_ready_in_order()
    ensures { FlushesGetReadyInOrder }
{}
