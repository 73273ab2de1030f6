//! What is active starts in the order of its pool's worklist, and nothing overtakes it unless its item runs.

ghost use Rattle.cmwq_order_laws.specs.Needed.{AsManyMayStart, PremisesAreNeeded};
ghost use Rattle.cmwq_order_laws.specs.Overtaking.{ActiveStand, FewStartBefore, ItemsStayFree, NoneOvertakes};
ghost use Rattle.cmwq_order_laws.specs.Overtaking.{NothingComesBetween, StartsTakeFirst};

/// Each active queueing that has not started stands in the worklist of its pool, behind those that are ahead of it.
pub fn active_stand()
    ensures { ActiveStand }
{}

/// A start in a pool takes the first queueing of its worklist whose item does not run.
pub fn starts_take_first()
    ensures { StartsTakeFirst }
{}

/// While a queueing waits to be started nothing comes ahead of it that was not ahead before.
pub fn nothing_comes_between()
    ensures { NothingComesBetween }
{}

/// Whatever its pool starts meanwhile was ahead of it, unless its item runs at that time.
pub fn none_overtakes()
    ensures { NoneOvertakes }
{}

/// If its item does not run at first, it does not begin to run meanwhile.
pub fn items_stay_free()
    ensures { ItemsStayFree }
{}

/// If its item does not run at first, its pool starts at most as many meanwhile as were ahead of it.
pub fn few_start_before()
    ensures { FewStartBefore }
{}

/// In a small history as many start before a queueing as were ahead of it.
pub fn as_many_may_start()
    ensures { AsManyMayStart }
{}

/// Without any one of the premises more may start before it than were ahead of it.
pub fn premises_are_needed()
    ensures { PremisesAreNeeded }
{}
