//! What keeps a queueing is why it does not start.

ghost use Rattle.cmwq_order_laws.specs.Reasons.{LackingStartNothing, NothingKeepsWhatStarts, WhatIsAheadStarts};
ghost use Rattle.cmwq_order_laws.specs.Reasons.{WhatIsKeptDoesNotStart};

/// If nothing keeps a queueing that has not started, a worker of its pool is idle, and whichever idle worker of the
/// pool takes next starts it.
pub fn nothing_keeps_what_starts()
    ensures { NothingKeepsWhatStarts }
{}

/// If something keeps a queueing, no worker would start it. So `obstacle_of` returns none exactly if what the item has
/// queued would start now.
pub fn what_is_kept_does_not_start()
    ensures { WhatIsKeptDoesNotStart }
{}

/// If another queueing is in its way, whichever idle worker of the pool takes next starts that one.
pub fn what_is_ahead_starts()
    ensures { WhatIsAheadStarts }
{}

/// If a run holds its pool, or no worker of the pool is idle, then no worker of the pool would start anything.
pub fn lacking_start_nothing()
    ensures { LackingStartNothing }
{}
