//! Nobody could go on where everybody sleeps and nobody is forgotten.

ghost use Rattle.cmwq_theory_wakes.specs.Rest.{AtRestNobodyGoesOn};

/// If nobody is forgotten and every idle worker rests, no wait would end and no worker would start anything.
pub fn at_rest_nobody_goes_on()
    ensures { AtRestNobodyGoesOn }
{}
