//! What is kept of workers, items, time and serials after one more entry.

ghost use Rattle.cmwq_theory_steps.specs.StateSteps.{SleepersGoOn, EnlistedGoOn, BookingsGoOn, TimeGoesOn, SerialsGoOn};
ghost use Rattle.cmwq_theory_steps.specs.StateSteps.{SerialsRise, EntriesBookAsAsked, EntriesOpenAsAsked};
ghost use Rattle.cmwq_theory_steps.specs.Marks.{OthersStay};

/// What is kept of workers, items, time and serials after one more entry.
pub fn states_go_on()
    ensures sleepers_go_on { SleepersGoOn }
    ensures enlisted_go_on { EnlistedGoOn }
    ensures bookings_go_on { BookingsGoOn }
    ensures time_goes_on { TimeGoesOn }
    ensures serials_go_on { SerialsGoOn }
    ensures entries_book_as_asked { EntriesBookAsAsked }
    ensures entries_open_as_asked { EntriesOpenAsAsked }
    ensures others_stay { OthersStay }
    ensures serials_rise { SerialsRise }
{}
