//! Runs, queueings and bookings of one item keep together.

ghost use Rattle.cmwq_theory_steps.specs.Pools.{RunsAreInPools, QueuedWhereItRuns, BookedWhereItRuns};

/// Runs, queueings and bookings of one item keep together.
pub fn items_keep_their_pools()
    ensures runs_are_in_their_pools { RunsAreInPools }
    ensures items_are_queued_where_they_run { QueuedWhereItRuns }
    ensures items_are_booked_where_they_run { BookedWhereItRuns }
{}
