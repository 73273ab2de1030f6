//! Where all threads of a hub sleep, its script rests.

ghost use Rattle.cmwq_rest_laws.specs.Needed.{PremisesAreNeeded, SomeSleepForEver};
ghost use Rattle.cmwq_rest_laws.specs.Resting.{NoCallerIsLeftAsleep, SleepersAreDone, SleepersAreStuck};
ghost use Rattle.cmwq_rest_laws.specs.Resting.{SleepersMayNotMove};

/// Where all threads of a script sleep, nobody of it may move.
pub fn sleepers_may_not_move()
    ensures { SleepersMayNotMove }
{}

/// A schedule that leads to where all sleep, and something is left to do, gets stuck.
pub fn sleepers_are_stuck()
    ensures { SleepersAreStuck }
{}

/// Where every schedule of a script ends, nothing is left to do once all sleep.
pub fn sleepers_are_done()
    ensures { SleepersAreDone }
{}

/// Where every schedule of a script ends, no caller is left asleep once all sleep.
pub fn no_caller_is_left_asleep()
    ensures { NoCallerIsLeftAsleep }
{}

/// In each of two small stands all sleep, and one of them does so for ever.
pub fn some_sleep_for_ever()
    ensures { SomeSleepForEver }
{}

/// Without any one of these premises somebody may move.
pub fn premises_are_needed()
    ensures { PremisesAreNeeded }
{}
