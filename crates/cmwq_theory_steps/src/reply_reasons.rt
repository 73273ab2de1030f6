//! Why a legal entry's reply is what it is: what held before it.

ghost use Rattle.cmwq_theory_steps.specs.Reasons.{StartsAreNext, FinishesAreRuns, SleepersAreAwake, WakersAreAsleep};
ghost use Rattle.cmwq_theory_steps.specs.Reasons.{RetirersMayRetire, QueuedWereIdle, QueuedAgainWerePending};
ghost use Rattle.cmwq_theory_steps.specs.Reasons.{BookedWereIdle, RebookedWerePending, FlushedDelayedWereBooked};
ghost use Rattle.cmwq_theory_steps.specs.Reasons.{CancelledWereUnstarted, UnbookedWereBooked, DoneAreReady};
ghost use Rattle.cmwq_theory_steps.specs.Reasons.{TicksTellNow, FiredAreDue, TicketsAreForCallers};

/// Why a legal entry's reply is what it is: what held before it.
pub fn replies_have_reasons()
    ensures starts_are_next { StartsAreNext }
    ensures finishes_are_runs { FinishesAreRuns }
    ensures sleepers_are_awake { SleepersAreAwake }
    ensures wakers_are_asleep { WakersAreAsleep }
    ensures retirers_may_retire { RetirersMayRetire }
    ensures queued_were_idle { QueuedWereIdle }
    ensures queued_again_were_pending { QueuedAgainWerePending }
    ensures booked_were_idle { BookedWereIdle }
    ensures rebooked_were_pending { RebookedWerePending }
    ensures flushed_delayed_were_booked { FlushedDelayedWereBooked }
    ensures cancelled_were_unstarted { CancelledWereUnstarted }
    ensures unbooked_were_booked { UnbookedWereBooked }
    ensures done_are_ready { DoneAreReady }
    ensures ticks_tell_now { TicksTellNow }
    ensures fired_are_due { FiredAreDue }
    ensures tickets_are_for_callers { TicketsAreForCallers }
{}
