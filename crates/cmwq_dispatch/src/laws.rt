//! Nobody could go on where everybody sleeps.

ghost use Rattle.cmwq_dispatch.specs.Dispatched.{AtRestNobodyGoesOn};

/// Where a dispatch is at rest, no wait would end and no worker would start anything.
pub fn at_rest_nobody_goes_on()
    ensures { AtRestNobodyGoesOn }
{}
