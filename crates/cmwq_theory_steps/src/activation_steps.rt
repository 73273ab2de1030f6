//! What one more entry makes active, and what it does to the worklists.

ghost use Rattle.cmwq_theory_steps.specs.Activations.{WorklistsGoOn, StartedAreActive, NewlyActiveAre};
ghost use Rattle.cmwq_theory_steps.specs.Activations.{OpenedAreBelowMaxActive, ActiveStay, ActiveGoOn, NewlyActiveOn};
ghost use Rattle.cmwq_theory_steps.specs.Activations.{WidenedMakeActive};

/// What one more entry makes active, and what it does to the worklists.
pub fn activations_go_on()
    ensures worklists_go_on { WorklistsGoOn }
    ensures started_are_active { StartedAreActive }
    ensures newly_active_are { NewlyActiveAre }
    ensures opened_are_below_max_active { OpenedAreBelowMaxActive }
    ensures active_stay { ActiveStay }
    ensures active_go_on { ActiveGoOn }
    ensures newly_active_on { NewlyActiveOn }
    ensures widened_make_active { WidenedMakeActive }
{}
