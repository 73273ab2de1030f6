//! What sleeps are, in every history.

ghost use Rattle.cmwq_output_laws.specs.SleepLaws.{SleepersAreAsleep};

/// A sleep of a worker goes on, from some entry, exactly where the worker is asleep.
pub fn sleepers_are_asleep()
    ensures { SleepersAreAsleep }
{}
