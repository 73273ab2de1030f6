//! Which entries let an idle worker of a pool start something.

ghost use Rattle.cmwq_theory_wakes.specs.Starting.{IdleWorkersStartAlike, PoolsStayAttended, RunnersAreEnlisted};
ghost use Rattle.cmwq_theory_wakes.specs.Starting.{StartsAreAllowedByTouches};

/// Either each idle worker of a pool would start something, or none would.
pub fn idle_workers_start_alike()
    ensures { IdleWorkersStartAlike }
{}

/// A pool that did not allow a start allows one only after an entry that touches it, or that finishes a run there.
pub fn starts_are_allowed_by_touches()
    ensures { StartsAreAllowedByTouches }
{}

/// A worker that has a run is enlisted.
pub fn runners_are_enlisted()
    ensures { RunnersAreEnlisted }
{}

/// An attended pool stays attended after an entry that does not touch it.
pub fn pools_stay_attended()
    ensures { PoolsStayAttended }
{}
