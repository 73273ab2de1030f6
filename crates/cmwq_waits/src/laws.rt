//! The law of waits that could never end.

ghost use Rattle.cmwq_waits.specs.Refused.{RefusalsAreRefused};

/// Where no run waits twice, a wait is refused where it would wait for its own run or could never end, and nowhere
/// else.
pub fn refusals_are_exact()
    ensures { RefusalsAreRefused }
{}
