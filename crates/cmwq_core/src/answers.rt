//! The one answer to each call, read off a state.

ghost use Rattle.std.specs.Prelude.{◌≡◌, ◌<◌, length};
ghost use Rattle.cmwq_model.specs.Prelude.{past_of, ticket_of, answer, cancel_answer, cancel_sync_answer};
ghost use Rattle.cmwq_model.specs.Prelude.{destroy_answer, end_of_ticket, fired_answer, first_due};
ghost use Rattle.cmwq_model.specs.Prelude.{flush_delayed_answer};
ghost use Rattle.cmwq_model.specs.Prelude.{flush_item_answer, is_held_back, modify_answer, queue_answer};
ghost use Rattle.cmwq_model.specs.Prelude.{set_max_answer, taken_back_answer, taken_back_for, wait_answer, waiting_for};
ghost use Rattle.cmwq_state.specs.Tables as tables;
ghost use Rattle.cmwq_core.specs.Book.{IsCallInside};

use crate::workers::own_answer;
use cmwq_model::{Call, ItemId, MOST_ACTIVE, Number, QueueId, Queueing, Reply, Who};
use cmwq_state::State;

fn taken_back(queueing: Option<Queueing>, is_booked: bool) -> Reply
    ensures { result ≡ taken_back_answer queueing is_booked }
{
    match queueing {
        Some(queueing) => Reply::Cancelled(queueing.number),
        None => {
            if is_booked {
                Reply::Unbooked
            } else {
                Reply::No
            }
        }
    }
}

fn taken_back_for(number: Number, queueing: Option<Queueing>, is_booked: bool) -> Reply
    ensures { result ≡ taken_back_for number queueing is_booked }
{
    match queueing {
        Some(queueing) => Reply::TicketCancelled(number, queueing.number),
        None => {
            if is_booked {
                Reply::TicketUnbooked(number)
            } else {
                Reply::TicketNo(number)
            }
        }
    }
}

fn waiting_for(number: Option<Number>) -> Reply
    ensures { result ≡ waiting_for number }
{
    match number {
        None => Reply::Done,
        Some(number) => Reply::Waiting(number),
    }
}

#[inline(always)]
#[tactic(auto, unfolding(cmwq_model::specs::Answer::queue_answer))]
fn queue_answer(state: &State, who: Who, item: ItemId, queue: QueueId, ticks: u32) -> Reply
    requires who { tables.IsThere state.now.layout who }
    requires item { item.0 < state.now.layout.items }
    requires queue { queue.0 < length state.now.layout.queues }
    ensures { result ≡ queue_answer (past_of state.now.entries) who item.0 queue.0 ticks }
{
    if !state.may_call(who) {
        Reply::Misuse
    } else if state.is_gone(queue) {
        Reply::Gone
    } else if state.is_cancelling(item) || state.is_pending(item) {
        Reply::No
    } else if state.runs_elsewhere(item, queue) {
        Reply::Foreign
    } else if state.is_shut(who, queue, ticks) {
        Reply::Draining
    } else if ticks == 0 {
        Reply::Yes(state.number())
    } else {
        Reply::Booked(state.time() + u64::from(ticks))
    }
}

#[tactic(auto, unfolding(cmwq_model::specs::Answer::modify_answer))]
fn modify_answer(state: &State, who: Who, item: ItemId, queue: QueueId, ticks: u32) -> Reply
    requires who { tables.IsThere state.now.layout who }
    requires item { item.0 < state.now.layout.items }
    requires queue { queue.0 < length state.now.layout.queues }
    ensures { result ≡ modify_answer (past_of state.now.entries) who item.0 queue.0 ticks }
{
    if !state.may_call(who) {
        Reply::Misuse
    } else if state.is_gone(queue) {
        Reply::Gone
    } else if state.is_cancelling(item) {
        Reply::No
    } else if state.runs_elsewhere(item, queue) {
        Reply::Foreign
    } else if state.is_shut(who, queue, ticks) {
        Reply::Draining
    } else if state.is_pending(item) {
        if ticks == 0 {
            Reply::Again(state.number())
        } else {
            Reply::Rebooked(state.time() + u64::from(ticks))
        }
    } else if ticks == 0 {
        Reply::Yes(state.number())
    } else {
        Reply::Booked(state.time() + u64::from(ticks))
    }
}

#[tactic(auto, unfolding(cmwq_model::specs::Answer::cancel_answer))]
fn cancel_answer(state: &State, who: Who, item: ItemId) -> Reply
    requires who { tables.IsThere state.now.layout who }
    requires item { item.0 < state.now.layout.items }
    ensures { result ≡ cancel_answer (past_of state.now.entries) who item.0 }
{
    if !state.may_call(who) {
        return Reply::Misuse;
    }
    taken_back(state.unstarted(item), state.is_booked(item))
}

#[inline(always)]
#[tactic(auto, unfolding(cmwq_model::specs::Answer::wait_answer))]
fn wait_answer(state: &State, who: Who, queue: QueueId) -> Reply
    requires who { tables.IsThere state.now.layout who }
    requires queue { queue.0 < length state.now.layout.queues }
    ensures { result ≡ wait_answer (past_of state.now.entries) who queue.0 }
{
    if state.is_gone(queue) {
        Reply::Gone
    } else if state.is_crowded(who) {
        Reply::Crowded
    } else {
        Reply::Ticket(state.number())
    }
}

#[tactic(auto, unfolding(cmwq_model::specs::Answer::destroy_answer))]
fn destroy_answer(state: &State, who: Who, queue: QueueId) -> Reply
    requires who { tables.IsThere state.now.layout who }
    requires queue { queue.0 < length state.now.layout.queues }
    ensures { result ≡ destroy_answer (past_of state.now.entries) who queue.0 }
{
    if state.is_gone(queue) {
        Reply::Gone
    } else if state.is_being_destroyed(queue) {
        Reply::Draining
    } else if state.is_booked_on(queue) {
        Reply::Timers
    } else if state.is_crowded(who) {
        Reply::Crowded
    } else {
        Reply::Ticket(state.number())
    }
}

#[tactic(auto, unfolding(cmwq_model::specs::Answer::set_max_answer))]
fn set_max_answer(state: &State, queue: QueueId, max_active: u32) -> Reply
    requires { queue.0 < length state.now.layout.queues }
    ensures { result ≡ set_max_answer (past_of state.now.entries) queue.0 max_active }
{
    if state.is_gone(queue) {
        Reply::Gone
    } else {
        Reply::Width(max_active.min(u32::from(MOST_ACTIVE)))
    }
}

#[tactic(auto, unfolding(cmwq_model::specs::Answer::flush_item_answer))]
fn flush_item_answer(state: &State, who: Who, item: ItemId) -> Reply
    requires who { tables.IsThere state.now.layout who }
    requires item { item.0 < state.now.layout.items }
    ensures { result ≡ flush_item_answer (past_of state.now.entries) who item.0 }
{
    if state.is_crowded(who) {
        Reply::Crowded
    } else if state.is_item_open(item) {
        Reply::Ticket(state.number())
    } else {
        Reply::Idle
    }
}

/// Whether the item is delayed on a queue that drains.
fn is_held_back(state: &State, item: ItemId) -> bool
    requires { item.0 < state.now.layout.items }
    ensures { result ≡ is_held_back (past_of state.now.entries) item.0 }
{
    match state.timer(item) {
        Some(timer) => state.is_draining(timer.place.queue),
        None => false,
    }
}

#[tactic(auto, unfolding(cmwq_model::specs::Answer::flush_delayed_answer))]
fn flush_delayed_answer(state: &State, who: Who, item: ItemId) -> Reply
    requires who { tables.IsThere state.now.layout who }
    requires item { item.0 < state.now.layout.items }
    ensures { result ≡ flush_delayed_answer (past_of state.now.entries) who item.0 }
{
    if state.is_crowded(who) {
        Reply::Crowded
    } else if is_held_back(state, item) {
        Reply::Draining
    } else if state.is_booked(item) {
        Reply::TicketQueued(state.number())
    } else if state.is_item_open(item) {
        Reply::Ticket(state.number())
    } else {
        Reply::Idle
    }
}

#[tactic(auto, unfolding(cmwq_model::specs::Answer::cancel_sync_answer))]
fn cancel_sync_answer(state: &State, who: Who, item: ItemId) -> Reply
    requires who { tables.IsThere state.now.layout who }
    requires item { item.0 < state.now.layout.items }
    ensures { result ≡ cancel_sync_answer (past_of state.now.entries) who item.0 }
{
    if state.is_crowded(who) {
        return Reply::Crowded;
    }
    taken_back_for(state.number(), state.unstarted(item), state.is_booked(item))
}

#[inline(always)]
#[tactic(auto, unfolding(cmwq_model::specs::Answer::first_due))]
fn fire_answer(state: &State) -> Reply
    ensures { result ≡ fired_answer (first_due (past_of state.now.entries)) (length (past_of state.now.entries)) }
{
    match state.first_due() {
        Some(item) => Reply::Fired(item, state.number()),
        None => Reply::Nothing,
    }
}

#[inline(always)]
fn end_answer(state: &State, who: Who, ticket: Number) -> Reply
    requires { tables.IsThere state.now.layout who }
    ensures { result ≡ end_of_ticket (past_of state.now.entries) (ticket_of (past_of state.now.entries) who ticket) }
{
    match state.ticket_of(who, ticket) {
        None => Reply::Misuse,
        Some(ticket) => waiting_for(state.waits_for(ticket)),
    }
}

#[inline(always)]
#[tactic(auto, unfolding(cmwq_model::specs::Answer::answer))]
pub(crate) fn answer(state: &State, who: Who, call: Call) -> Reply
    requires there { tables.IsThere state.now.layout who }
    requires inside { IsCallInside state.now.layout call }
    ensures { result ≡ answer state.now.layout (past_of state.now.entries) who call }
{
    match call {
        Call::Queue { item, queue, .. } => queue_answer(state, who, item, queue, 0),
        Call::Delay {
            item,
            queue,
            ticks,
            ..
        } => queue_answer(state, who, item, queue, ticks),
        Call::Modify {
            item,
            queue,
            ticks,
            ..
        } => modify_answer(state, who, item, queue, ticks),
        Call::Cancel { item } => cancel_answer(state, who, item),
        Call::Tick { ticks } => Reply::Now(state.time() + u64::from(ticks)),
        Call::Fire => fire_answer(state),
        Call::Flush { queue } => wait_answer(state, who, queue),
        Call::Drain { queue } => wait_answer(state, who, queue),
        Call::FlushItem { item } => flush_item_answer(state, who, item),
        Call::FlushDelayed { item } => flush_delayed_answer(state, who, item),
        Call::CancelSync { item } => cancel_sync_answer(state, who, item),
        Call::SetMax { queue, max_active } => set_max_answer(state, queue, max_active),
        Call::Freeze => {
            if state.is_frozen() {
                Reply::No
            } else {
                Reply::Frozen
            }
        }
        Call::Thaw => {
            if state.is_frozen() {
                Reply::Thawed
            } else {
                Reply::No
            }
        }
        Call::Destroy { queue } => destroy_answer(state, who, queue),
        Call::End { ticket } => end_answer(state, who, ticket),
        Call::Take | Call::Finish | Call::Sleep | Call::Wake | Call::Retire => {
            own_answer(state, who, call)
        }
    }
}
