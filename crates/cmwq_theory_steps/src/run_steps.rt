//! What workers and items run after one more entry.

ghost use Rattle.cmwq_theory_steps.specs.RunSteps.{WorkersRunOn, ItemsRunOn, ItemsAreRun};

/// What workers and items run after one more entry.
pub fn runs_go_on()
    ensures workers_run_on { WorkersRunOn }
    ensures items_run_on { ItemsRunOn }
    ensures items_are_run_by_their_workers { ItemsAreRun }
{}
