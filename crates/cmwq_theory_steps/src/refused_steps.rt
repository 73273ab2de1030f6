//! Entries that change nothing.

ghost use Rattle.cmwq_theory_steps.specs.Refusals.{RefusalsDoNothing, RefusalsChangeNothing};

/// Entries that change nothing.
pub fn refusals_do_nothing()
    ensures refusals_do_nothing { RefusalsDoNothing }
    ensures refusals_change_nothing { RefusalsChangeNothing }
{}
