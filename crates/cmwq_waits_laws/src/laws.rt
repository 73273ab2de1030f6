//! Waits that are held up by one another, and waits that are refused, never end.

ghost use Rattle.cmwq_waits_laws.specs.Lasting.{DeadlocksLast, RefusedAsleepToo, RefusedWaitsNeverEnd};
ghost use Rattle.cmwq_waits_laws.specs.Needed.{WaitsMayBeLetGo};

/// Waits that are held up by one another never end, unless an entry lets go.
pub fn deadlocks_last()
    ensures { DeadlocksLast }
{}

/// If a wait is refused and the call is made all the same, the wait never ends, unless an entry lets go.
pub fn refused_waits_never_end()
    ensures { RefusedWaitsNeverEnd }
{}

/// A wait that is refused is refused as well once its run has fallen asleep.
pub fn refused_asleep_too()
    ensures { RefusedAsleepToo }
{}

/// Waits of a deadlock may end where an entry lets them go, in each of the ways.
pub fn waits_may_be_let_go()
    ensures { WaitsMayBeLetGo }
{}
