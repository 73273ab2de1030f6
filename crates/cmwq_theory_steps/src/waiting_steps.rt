//! What waits, and how many are active on a queue and CPU, after one more entry.

ghost use Rattle.cmwq_theory_steps.specs.Waiting.{CandidatesAre, CandidatesBelowMaxActive, WaitingGoesOn, WayByPicked};
ghost use Rattle.cmwq_theory_steps.specs.Waiting.{WaitingOnGoesOn, ActiveAreCounted, ActiveCountsGoOn, StaysAreCounted};

/// What waits, and how many are active on a queue and CPU, after one more entry.
pub fn waiting_goes_on()
    ensures candidates_are { CandidatesAre }
    ensures candidates_below_max_active { CandidatesBelowMaxActive }
    ensures waiting_goes_on { WaitingGoesOn }
    ensures way_by_picked { WayByPicked }
    ensures waiting_on_goes_on { WaitingOnGoesOn }
    ensures active_are_counted { ActiveAreCounted }
    ensures active_counts_go_on { ActiveCountsGoOn }
    ensures stays_are_counted { StaysAreCounted }
{}
