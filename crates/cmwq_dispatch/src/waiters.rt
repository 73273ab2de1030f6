//! The callers that sleep until their waits are ready to end.

ghost use Rattle.std.specs.Prelude.{◌≡◌, ◌<◌, ◌≤◌, ℕ, Some, false, filter, length, slice_get, true};
ghost use Rattle.cmwq_core.specs.History.{past_in};
ghost use Rattle.cmwq_model.specs.Prelude.{is_flush_of};
ghost use Rattle.cmwq_theory_wakes.specs.Readiness.{may_release};
ghost use Rattle.cmwq_dispatch.specs.Naming.{NamesMore};
ghost use Rattle.cmwq_dispatch.specs.Waiting.{AllWait, AreFlushes, AreInOrder, AreKnown, IsAdded, MostWait, OnlyNamed};
ghost use Rattle.cmwq_dispatch.specs.Waiting.{OthersWait, UnreleasedWait, is_of_other_caller};
ghost use Rattle.cmwq_dispatch.specs.declared.waiters.Waiter.{Waiter as Listed};

use crate::asking::is_unready;
use crate::wakes::Wakes;
use cmwq_core::Execution;
use cmwq_model::{Call, CallerId, Number, QueueId, Queueing, Ticket};

/// A caller that sleeps until the wait of this ticket is ready, and whether it was named to be woken since.
#[derive(Clone, Copy)]
pub(crate) struct Waiter {
    pub(crate) ticket: Ticket,
    pub(crate) is_named: bool,
}

/// The place of a wait of this number, which stands after those that were begun before.
fn place_for(waiters: &[Waiter], number: Number) -> usize
    requires { AreInOrder waiters.now }
    ensures within { result ≤ length waiters.now }
    ensures before { (k : ℕ) (w : Listed) → k < result → slice_get waiters.now k ≡ Some w → w.ticket.number ≤ number }
    ensures after { (k : ℕ) (w : Listed) → result ≤ k → slice_get waiters.now k ≡ Some w → number ≤ w.ticket.number }
{
    let mut place = waiters.len();
    while place > 0 && number < waiters[place - 1].ticket.number {
        place -= 1;
    }
    place
}

/// Adds a caller that sleeps, in the order of the waits. It returns false where there was no place for it.
pub(crate) fn add(waiters: &mut Vec<Waiter>, ticket: Ticket) -> bool
    requires { AreInOrder waiters.old.items }
    ensures order { AreInOrder waiters.new.items }
    ensures added { result ≡ true → IsAdded ticket waiters.old.items waiters.new.items }
    ensures full { result ≡ false → waiters.new.items ≡ waiters.old.items }
{
    if waiters.len() >= waiters.capacity() {
        return false;
    }
    let place = place_for(waiters, ticket.number);
    let waiter = Waiter {
        ticket,
        is_named: false,
    };
    waiters.insert(place, waiter).is_ok()
}

/// Keeps those of other callers.
pub(crate) fn keep_others(waiters: &mut Vec<Waiter>, caller: CallerId)
    ensures { waiters.new.items ≡ filter (is_of_other_caller caller.0) waiters.old.items }
{
    waiters.retain(|waiter| waiter.ticket.caller.0 != caller.0);
}

fn is_flush_of(ticket: &Ticket, queue: QueueId) -> bool
    ensures { result ≡ is_flush_of queue.0 ticket.now }
{
    match ticket.call {
        Call::Flush { queue: flushed } => flushed.0 == queue.0,
        _ => false,
    }
}

/// Names those whose flush of the queue is ready, the oldest first, up to one that is not.
pub(crate) fn name_flushes(
    flushes: &mut [Waiter],
    execution: &Execution,
    queue: QueueId,
    wakes: &mut Wakes,
)
    requires order { AreInOrder flushes.old }
    requires known { AreKnown execution.now.layout (past_in execution.now) flushes.old }
    requires others { OthersWait (past_in execution.now) queue flushes.old }
    ensures waits { AllWait (past_in execution.now) flushes.new }
    ensures named { OnlyNamed wakes.new flushes.old flushes.new }
    ensures more { NamesMore wakes.old wakes.new }
{
    for place in 0..flushes.len() {
        let waiter = flushes[place];
        if !waiter.is_named && is_flush_of(&waiter.ticket, queue) {
            if is_unready(execution, &waiter.ticket) {
                return;
            }
            flushes[place].is_named = true;
            wakes.add_caller(waiter.ticket.caller);
        }
    }
}

/// Whether the end of this queueing may release the wait.
fn may_release(ticket: &Ticket, ended: &Queueing) -> bool
    ensures { result ≡ may_release ticket.now.call ended.now }
{
    match ticket.call {
        Call::FlushItem { item } | Call::FlushDelayed { item } | Call::CancelSync { item } => ended
            .item
            .0
            == item.0,
        Call::Flush { queue } | Call::Drain { queue } | Call::Destroy { queue } => ended
            .place
            .queue
            .0
            == queue.0,
        _ => false,
    }
}

/// Names those whose wait is ready by the end of this queueing.
pub(crate) fn name_released(
    waiters: &mut [Waiter],
    execution: &Execution,
    ended: &Queueing,
    wakes: &mut Wakes,
)
    requires known { AreKnown execution.now.layout (past_in execution.now) waiters.old }
    requires others { UnreleasedWait (past_in execution.now) ended.now waiters.old }
    ensures waits { AllWait (past_in execution.now) waiters.new }
    ensures named { OnlyNamed wakes.new waiters.old waiters.new }
    ensures more { NamesMore wakes.old wakes.new }
{
    for place in 0..waiters.len() {
        let waiter = waiters[place];
        if !waiter.is_named
            && may_release(&waiter.ticket, ended)
            && !is_unready(execution, &waiter.ticket)
        {
            waiters[place].is_named = true;
            wakes.add_caller(waiter.ticket.caller);
        }
    }
}

/// After an entry that ended this queueing: those are named whose wait is ready by it. Flushes stand in the order in
/// which they were begun, apart from the other waits.
pub(crate) fn release(
    waiters: &mut [Waiter],
    flushes: &mut [Waiter],
    execution: &Execution,
    ended: &Option<Queueing>,
    wakes: &mut Wakes,
)
    requires order { AreInOrder flushes.old }
    requires kind { AreFlushes flushes.old }
    requires known { AreKnown execution.now.layout (past_in execution.now) waiters.old }
    requires known_flushes { AreKnown execution.now.layout (past_in execution.now) flushes.old }
    requires waiters { MostWait (past_in execution.now) ended.now waiters.old }
    requires flushes { MostWait (past_in execution.now) ended.now flushes.old }
    ensures waiters { AllWait (past_in execution.now) waiters.new }
    ensures flushes { AllWait (past_in execution.now) flushes.new }
    ensures named { OnlyNamed wakes.new waiters.old waiters.new }
    ensures named_flushes { OnlyNamed wakes.new flushes.old flushes.new }
    ensures more { NamesMore wakes.old wakes.new }
{
    if let Some(ended) = ended {
        name_flushes(flushes, execution, ended.place.queue, wakes);
        name_released(waiters, execution, ended, wakes);
    }
}
