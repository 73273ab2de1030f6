//! What one more entry does to the queueings.

ghost use Rattle.cmwq_theory_steps.specs.Endings.{SurvivorsStayOpen, OpenGoOn, OneEnds, EndsWhich};
ghost use Rattle.cmwq_theory_steps.specs.Pending.{OneUnstarted, BookedOrUnstarted};
ghost use Rattle.cmwq_theory_steps.specs.Limits.{OpenAreCounted, TwoOfAnItem, TwoForEachItem};

/// What one more entry does to the queueings.
pub fn queueings_go_on()
    ensures survivors_stay_open { SurvivorsStayOpen }
    ensures open_go_on { OpenGoOn }
    ensures items_have_one_unstarted { OneUnstarted }
    ensures booked_items_have_no_unstarted { BookedOrUnstarted }
    ensures one_queueing_ends { OneEnds }
    ensures entries_end_what_they_say { EndsWhich }
    ensures open_are_counted { OpenAreCounted }
    ensures items_have_two_open { TwoOfAnItem }
    ensures open_are_two_for_each_item { TwoForEachItem }
{}
