//! Why the laws are said of legal histories.

ghost use Rattle.cmwq_theory_laws.specs.Illegal.{EndedEarly, RunBeyondMaxActive, RunInTwoWorkers, StartedTwice};
ghost use Rattle.cmwq_theory_laws.specs.Illegal.{StartedUnqueued, Unsettled, GoneButOpen};

/// Histories that aren't legal break each law of what runs, starts, waits, is cancelled and is gone.
pub fn illegal_histories_break_laws()
    ensures one_worker { RunInTwoWorkers }
    ensures one_start { StartedTwice }
    ensures queued { StartedUnqueued }
    ensures max_active { RunBeyondMaxActive }
    ensures waits { EndedEarly }
    ensures cancels { Unsettled }
    ensures gone { GoneButOpen }
{}
