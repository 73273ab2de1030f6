//! Where a caller or a worker begins.
ghost use Rattle.cmwq_model.specs.declared.id.Who.TheVariants as whos;
ghost use Rattle.cmwq_monitor.specs.Participants.{View, newcomer};

use std::marker::Brand;

/// Who a caller or a worker is and what it had seen when a user's function was given it: a name for proofs, which is
/// picked at each such call. So the function may do with it what it likes, and need say nothing of that.
pub(crate) trait Start {
    ghost start: { View };
}

impl Start for Brand {
    ghost start = { newcomer (whos.Caller (record { 0 = 0 })) };
}
