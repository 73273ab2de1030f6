//! Queueings by number, the queues of runs, and which items are pending and run, after one more entry.

ghost use Rattle.cmwq_theory_steps.specs.Queued.{QueueingsGoOn, RunQueuesGoOn, PendingGoesOn, ItemRunsGoOn, BitsGoOn};

/// Queueings by number, the queues of runs, and which items are pending and run, after one more entry.
pub fn queued_go_on()
    ensures queueings_go_on { QueueingsGoOn }
    ensures run_queues_go_on { RunQueuesGoOn }
    ensures pending_goes_on { PendingGoesOn }
    ensures item_runs_go_on { ItemRunsGoOn }
    ensures bits_go_on { BitsGoOn }
{}
