//! Where a flush book is that of a queue after some entries, the calls for one more entry make it that of the longer
//! history, and what it answers is what the definitions say.

ghost use Rattle.cmwq_refinement.specs.FlushBooks.{FlushesAtFirst, FlushesRefine, ReadyFlushesWaitForNothing};
ghost use Rattle.cmwq_refinement.specs.FlushBooks.{FlushesWaitForLeastOpen, FlushesWaitForNext, FlushesWaitWithin};
ghost use Rattle.cmwq_refinement.specs.FlushBooks.{DrainsWaitForLeastOpen};
ghost use Rattle.cmwq_refinement.specs.FlushBooks.{OverflowedAreBehindFifteen, DoneFlushesMayEnd};
ghost use Rattle.cmwq_refinement.specs.FlushBooks.{EntriesApplyToFlushes, GivenFlushesHaveRoom, UnendedFlushesStand};

/// Where a flush book is that of a queue after some entries, the calls for one more entry make it that of the longer
/// history, and what it answers is what the definitions say.
pub fn flushes_refine()
    ensures flushes_at_first { FlushesAtFirst }
    ensures flushes_refine { FlushesRefine }
    ensures unended_flushes_stand { UnendedFlushesStand }
    ensures ready_flushes_wait_for_nothing { ReadyFlushesWaitForNothing }
    ensures flushes_wait_within { FlushesWaitWithin }
    ensures flushes_wait_for_next { FlushesWaitForNext }
    ensures flushes_wait_for_least_open { FlushesWaitForLeastOpen }
    ensures drains_wait_for_least_open { DrainsWaitForLeastOpen }
    ensures overflowed_are_behind_fifteen { OverflowedAreBehindFifteen }
    ensures done_flushes_may_end { DoneFlushesMayEnd }
    ensures entries_apply_to_flushes { EntriesApplyToFlushes }
    ensures given_flushes_have_room { GivenFlushesHaveRoom }
{}
