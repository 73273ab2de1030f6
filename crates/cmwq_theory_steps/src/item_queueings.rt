//! An item's unstarted queueing and its run, as queueings, and the queueing that an entry ends.

ghost use Rattle.cmwq_theory_steps.specs.ItemQueueings.{UnstartedGoesOn, NextAreUnstarted, RunsAreQueueings};
ghost use Rattle.cmwq_theory_steps.specs.ItemQueueings.{EndsAsTold};

/// An item's unstarted queueing and its run, as queueings, and the queueing that an entry ends.
pub fn items_keep_their_queueings()
    ensures unstarted_goes_on { UnstartedGoesOn }
    ensures next_are_unstarted { NextAreUnstarted }
    ensures runs_are_queueings { RunsAreQueueings }
    ensures entries_end_as_told { EndsAsTold }
{}
