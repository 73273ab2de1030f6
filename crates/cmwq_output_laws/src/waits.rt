//! Why a wait for a run that waits for it would never end, in every history.

ghost use Rattle.cmwq_output_laws.specs.WaitLaws.{CirclesNeverEnd, RunsHoldWaits, WaitsOfARowAreApart};

/// A wait does not end while a run goes on that it is for. So a run that waited for its own end would never go on.
pub fn runs_hold_waits()
    ensures { RunsHoldWaits }
{}

/// Runs of which each waits for one of them never finish, however the history goes on, if each would finish after its
/// wait.
pub fn circles_never_end()
    ensures { CirclesNeverEnd }
{}

/// Of a caller's waits in one row of a chart, the one that begins first ends before the other begins. So it is in any
/// history, also one that is not legal.
pub fn waits_of_a_row_are_apart()
    ensures { WaitsOfARowAreApart }
{}
