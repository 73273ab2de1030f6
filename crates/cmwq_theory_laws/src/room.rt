//! Room: which calls are never refused for want of it.

ghost use Rattle.cmwq_theory_laws.specs.Room.{StepsAreWithinRoom, PromisedAreNeverFull, ShortHaveTime};

/// A history that is made by steps is within its room, and so is its time.
pub fn steps_are_within_room()
    ensures { StepsAreWithinRoom }
{}

/// After any steps a call that would have such a reply has room.
pub fn promised_are_never_full()
    ensures { PromisedAreNeverFull }
{}

/// In a history of at most 1,010,000 entries no call is refused for its time.
pub fn short_have_time()
    ensures { ShortHaveTime }
{}
