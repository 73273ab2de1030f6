//! What a history owes after one more entry, and which replies are never refused for want of room.

ghost use Rattle.cmwq_theory_steps.specs.RoomSteps.{WaitingAreCounted, RunsAreCounted, SleepersAreCounted};
ghost use Rattle.cmwq_theory_steps.specs.RoomSteps.{BookedAreCounted, TicketsAreCounted, FrozenAreCounted};
ghost use Rattle.cmwq_theory_steps.specs.RoomSteps.{PromisedNeedNoMore, OwedGoesOn, NothingOwedAtFirst};

/// What a history owes after one more entry, and which replies are never refused for want of room.
pub fn owed_goes_on()
    ensures waiting_are_counted { WaitingAreCounted }
    ensures runs_are_counted { RunsAreCounted }
    ensures sleepers_are_counted { SleepersAreCounted }
    ensures booked_are_counted { BookedAreCounted }
    ensures tickets_are_counted { TicketsAreCounted }
    ensures promised_need_no_more { PromisedNeedNoMore }
    ensures frozen_is_counted { FrozenAreCounted }
    ensures owed_goes_on { OwedGoesOn }
    ensures nothing_owed_at_first { NothingOwedAtFirst }
{}
