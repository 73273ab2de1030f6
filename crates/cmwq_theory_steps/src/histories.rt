//! Histories that grow.

ghost use Rattle.cmwq_theory_steps.specs.Growing.{FrontsAreLegal, OlderAreLegal, OneMoreIsNewest, LongerBeginWithOlder};

/// Histories that grow.
pub fn histories_grow()
    ensures fronts_are_legal { FrontsAreLegal }
    ensures older_are_legal { OlderAreLegal }
    ensures one_more_is_newest { OneMoreIsNewest }
    ensures longer_begin_with_older { LongerBeginWithOlder }
{}
