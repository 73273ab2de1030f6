//! Worked examples: the steps of their calls are their histories.
#![tactic(auto)]

ghost use Rattle.cmwq_model_examples.specs.Words.{Holds};
ghost use Rattle.cmwq_model_examples.specs.Starting.{first_run, no_calls, pending_item, queued_while_it_runs, foreign};
ghost use Rattle.cmwq_model_examples.specs.Concurrency.{inactive_and_cancelled, two_made_active_at_once, held_by_a_run};
ghost use Rattle.cmwq_model_examples.specs.Concurrency.{cpu_intensive, lanes, retire_while_enough_idle};
ghost use Rattle.cmwq_model_examples.specs.Delays.{timer_at_its_tick, modify_replaces, timer_held_back};
ghost use Rattle.cmwq_model_examples.specs.Waiting.{flush_waits_for_older, cancel_sync_of_self_queueing};
ghost use Rattle.cmwq_model_examples.specs.Waiting.{drain_refuses_others, flush_delayed_and_cancel_sync};
ghost use Rattle.cmwq_model_examples.specs.Overflow.{sixteen_flushes};
ghost use Rattle.cmwq_model_examples.specs.NoRoom.{no_room};
ghost use Rattle.cmwq_model_examples.specs.Widths.{width_goes_up_and_down, frozen_and_thawed, queue_destroyed};

/// An item is queued, started and finished.
pub fn first_run()
    ensures { Holds first_run }
{}

/// No call leaves no entry.
pub fn no_calls()
    ensures { Holds no_calls }
{}

/// An item that is pending is not queued again.
pub fn pending_item()
    ensures { Holds pending_item }
{}

/// An item that is queued again while it runs goes to the CPU where it runs, and starts after that run.
pub fn queued_while_it_runs()
    ensures { Holds queued_while_it_runs }
{}

/// An item that runs is not queued on another queue.
pub fn foreign()
    ensures { Holds foreign }
{}

/// Above max_active a queueing waits; one that is cancelled frees no place that it did not have.
pub fn inactive_and_cancelled()
    ensures { Holds inactive_and_cancelled }
{}

/// Two queueings that one event made active start by their numbers.
pub fn two_made_active_at_once()
    ensures { Holds two_made_active_at_once }
{}

/// A run that is awake holds its pool until it sleeps.
pub fn held_by_a_run()
    ensures { Holds held_by_a_run }
{}

/// A run of a CPU-intensive queue holds nobody back, and is held back by others.
pub fn cpu_intensive()
    ensures { Holds cpu_intensive }
{}

/// The pools of normal and of high priority do not meet.
pub fn lanes()
    ensures { Holds lanes }
{}

/// Idle workers retire while enough of them are idle.
pub fn retire_while_enough_idle()
    ensures { Holds retire_while_enough_idle }
{}

/// A delayed item is queued at the tick when it is due, and a flush does not wait for it before.
pub fn timer_at_its_tick()
    ensures { Holds timer_at_its_tick }
{}

/// A modify replaces what is pending.
pub fn modify_replaces()
    ensures { Holds modify_replaces }
{}

/// A due timer of a queue that drains is held back.
pub fn timer_held_back()
    ensures { Holds timer_held_back }
{}

/// A flush waits for what was queued before it, and not for what came later.
pub fn flush_waits_for_older()
    ensures { Holds flush_waits_for_older }
{}

/// While a cancel_sync waits, the item that queues itself is refused.
pub fn cancel_sync_of_self_queueing()
    ensures { Holds cancel_sync_of_self_queueing }
{}

/// While a queue drains, only its own runs queue on it.
pub fn drain_refuses_others()
    ensures { Holds drain_refuses_others }
{}

/// A flush of a delayed item queues it at once; a cancel_sync without a run is ready at once.
pub fn flush_delayed_and_cancel_sync()
    ensures { Holds flush_delayed_and_cancel_sync }
{}

/// The sixteenth flush waits in overflow until an older one has ended.
pub fn sixteen_flushes()
    ensures { Holds sixteen_flushes }
{}

/// Calls that have no room are left out, and what has begun can end.
pub fn no_room()
    ensures { Holds no_room }
{}

/// What is active stays so where the width falls, and no more becomes active before fewer than that are left.
pub fn width_goes_up_and_down()
    ensures { Holds width_goes_up_and_down }
{}

/// While a freezable queue is frozen, what was active starts and ends, and nothing more becomes active.
pub fn frozen_and_thawed()
    ensures { Holds frozen_and_thawed }
{}

/// A queue is destroyed once nothing of it is open, and is gone then.
pub fn queue_destroyed()
    ensures { Holds queue_destroyed }
{}
