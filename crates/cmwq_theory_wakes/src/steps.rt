//! What a step must do so that nobody is forgotten.

ghost use Rattle.cmwq_theory_wakes.specs.Reach.{ReachSuffices};
ghost use Rattle.cmwq_theory_wakes.specs.Steps.{NoneIsForgotten};

/// The reach of an entry contains every pool that the entry touches.
pub fn reach_suffices()
    ensures { ReachSuffices }
{}

/// If nobody is forgotten before a step, and the step looks after those who wait and rest, nobody is forgotten after
/// it.
pub fn none_is_forgotten()
    ensures { NoneIsForgotten }
{}
