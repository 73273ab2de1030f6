//! What a user of the runtime relies on, in every legal history.

ghost use Rattle.cmwq_theory_laws.specs.Headline.{CancelSyncsSettle, CancelledStayIdle, FlushesEndAfterAllBefore};
ghost use Rattle.cmwq_theory_laws.specs.Headline.{ItemsRunInOneWorker, NumbersStartOnce, QueueingsStart};
ghost use Rattle.cmwq_theory_laws.specs.Headline.{ActiveWithinWidth, OnlyActiveStart, RunsAreActive};

/// No two workers have runs of one item.
pub fn items_run_in_one_worker()
    ensures { ItemsRunInOneWorker }
{}

/// A number is started at most once.
pub fn numbers_start_once()
    ensures { NumbersStartOnce }
{}

/// Only what an earlier entry queued is started.
pub fn queueings_start()
    ensures { QueueingsStart }
{}

/// Where an entry makes a queueing active, no more than the width that then holds of its queue are active on its CPU
/// after it.
pub fn active_are_within_width()
    ensures { ActiveWithinWidth }
{}

/// Only active queueings are started.
pub fn only_active_start()
    ensures { OnlyActiveStart }
{}

/// No more workers of a CPU have runs of a queue than are active there.
pub fn runs_are_active()
    ensures { RunsAreActive }
{}

/// A flush is answered done only after all that was queued before it has ended, and so is a flush of an item and a
/// drain.
pub fn flushes_end_after_all_before()
    ensures { FlushesEndAfterAllBefore }
{}

/// A cancel_sync is answered done only where its item neither is pending nor runs after that.
pub fn cancel_syncs_settle()
    ensures { CancelSyncsSettle }
{}

/// While a cancel_sync of an item is unended the item isn't pending.
pub fn cancelled_stay_idle()
    ensures { CancelledStayIdle }
{}
