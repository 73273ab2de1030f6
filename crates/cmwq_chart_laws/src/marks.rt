//! What marks each entry of a legal history in its chart.

ghost use Rattle.cmwq_chart_laws.specs.Charts.{SignsAreDrawn, StartsAreDrawn};
ghost use Rattle.cmwq_chart_laws.specs.Finishes.{FinishesAreDrawn};
ghost use Rattle.cmwq_chart_laws.specs.Marks.{RepliesAreMarked};
ghost use Rattle.cmwq_chart_laws.specs.Sleeps.{SleepsAreDrawn, WakesAreDrawn};
ghost use Rattle.cmwq_chart_laws.specs.Waits.{EndsAreDrawn};

/// Each entry that starts a queueing has exactly one bar, in its worker's row, in each band that shows an entry from
/// this one to that by which the worker finishes the queueing, or to the end, and in no other.
pub fn starts_are_drawn()
    ensures { StartsAreDrawn }
{}

/// Each entry that finishes a queueing is where exactly one bar of its worker ends, and that is a bar of the queueing.
pub fn finishes_are_drawn()
    ensures { FinishesAreDrawn }
{}

/// Each entry by which a worker's run sleeps is where exactly one sleep begins, in its worker's row.
pub fn sleeps_are_drawn()
    ensures { SleepsAreDrawn }
{}

/// Each entry by which a worker's run wakes is where exactly one sleep ends, in its worker's row.
pub fn wakes_are_drawn()
    ensures { WakesAreDrawn }
{}

/// Each entry by which a caller asks for the end of a wait has exactly one mark there, in its caller's row, which says
/// whether the wait was done.
pub fn ends_are_drawn()
    ensures { EndsAreDrawn }
{}

/// Each entry that is shown, and whose reply has a kind of sign, has exactly one sign, in the row of who made it.
pub fn signs_are_drawn()
    ensures { SignsAreDrawn }
{}

/// Each entry is one of these.
pub fn replies_are_marked()
    ensures { RepliesAreMarked }
{}
