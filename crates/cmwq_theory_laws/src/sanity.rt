//! The definitions say neither too much nor too little.

ghost use Rattle.cmwq_theory_laws.specs.Sanity.{CallsHaveOneEntry, CancelledNeverStart, ItemsHaveOneRun};
ghost use Rattle.cmwq_theory_laws.specs.Sanity.{QueueingsEndOnce, SerialsCountUp, StepsAreLegal};

/// After a legal history a call that fits has exactly one legal entry.
pub fn calls_have_one_entry()
    ensures { CallsHaveOneEntry }
{}

/// The steps of calls that fit are a legal history.
pub fn steps_are_legal()
    ensures { StepsAreLegal }
{}

/// The serials of each caller's and each worker's entries are 0, 1, 2, ..
pub fn serials_count_up()
    ensures { SerialsCountUp }
{}

/// A queueing is never both finished and cancelled.
pub fn queueings_end_once()
    ensures { QueueingsEndOnce }
{}

/// A queueing that was cancelled was never started.
pub fn cancelled_never_start()
    ensures { CancelledNeverStart }
{}

/// An item has at most one run.
pub fn items_have_one_run()
    ensures { ItemsHaveOneRun }
{}
