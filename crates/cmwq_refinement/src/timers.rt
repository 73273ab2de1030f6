//! Where the timers are the bookings of a history, the calls for each entry make them those of the longer history.

ghost use Rattle.cmwq_refinement.specs.Timers.{NoTimersAtFirst, TimersAreDueAsBooked, TimersStandOnQueues};
ghost use Rattle.cmwq_refinement.specs.Timers.{BookingsSetTimers, SettledTimersAreTakenBack, OthersKeepTimers};
ghost use Rattle.cmwq_refinement.specs.Timers.{EntriesApplyToTimers, FirstTimerIsFirstDue, NoTimerIsNoneDue};
ghost use Rattle.cmwq_refinement.specs.Timers.{RowsForItems, TimersRefine, TimersMayBeSet};

/// Where the timers are the bookings of a history, the calls for each entry make them those of the longer history.
pub fn timers_refine()
    ensures no_timers_at_first { NoTimersAtFirst }
    ensures rows_for_items { RowsForItems }
    ensures timers_are_due_as_booked { TimersAreDueAsBooked }
    ensures timers_stand_on_queues { TimersStandOnQueues }
    ensures bookings_set_timers { BookingsSetTimers }
    ensures settled_timers_are_taken_back { SettledTimersAreTakenBack }
    ensures others_keep_timers { OthersKeepTimers }
    ensures timers_refine { TimersRefine }
    ensures entries_apply_to_timers { EntriesApplyToTimers }
    ensures timers_may_be_set { TimersMayBeSet }
    ensures first_timer_is_first_due { FirstTimerIsFirstDue }
    ensures no_timer_is_none_due { NoTimerIsNoneDue }
{}
