ghost use Rattle.std.specs.Prelude.{◌≡◌};
ghost use Rattle.cmwq_model.specs.Prelude.{may_call, runs_on, is_shut, queue_answer, modify_answer, taken_back_answer};
ghost use Rattle.cmwq_model.specs.Prelude.{cancel_answer, wait_answer, destroy_answer, set_max_answer};
ghost use Rattle.cmwq_model.specs.Prelude.{fired_answer, flush_item_answer, is_held_back, flush_delayed_answer};
ghost use Rattle.cmwq_model.specs.Prelude.{taken_back_for, cancel_sync_answer, end_of_ticket};
ghost use Rattle.cmwq_model.specs.Prelude.{start_of, take_answer, finished_answer, finish_answer, retire_answer};
ghost use Rattle.cmwq_model.specs.Prelude.{worker_answer, own_answer, answer};

use crate::active::next;
use crate::bookings::{booking, is_booked};
use crate::fire::{first_due, has_timers};
use crate::past::Past;
use crate::queueings::{is_item_open, is_pending, run_queue, runs_elsewhere, unstarted};
use crate::runs::{has_run, run, runs_asleep, runs_awake};
use crate::tally::now;
use crate::tickets::{
    is_being_destroyed, is_cancelling, is_crowded, is_draining, is_gone, ticket_of,
};
use crate::wait::waits_for;
use crate::widths::is_frozen;
use crate::worker::{enlisted_by, is_enlisted, may_retire, runnable};
use cmwq_model::{
    Booking, Call, MOST_ACTIVE, Number, Queueing, Reply, Shape, Ticket, Who, WorkerId,
};

/// A worker may call only from a run that is awake.
fn may_call(past: &Past<'_>, who: Who) -> bool
    ensures { result ≡ may_call past.now who }
{
    match who {
        Who::Caller(_) => true,
        Who::Worker(worker) => runs_awake(past, worker),
    }
}

fn runs_on(past: &Past<'_>, who: Who, queue: u8) -> bool
    ensures { result ≡ runs_on past.now who queue }
{
    match who {
        Who::Caller(_) => false,
        Who::Worker(worker) => match run_queue(past, worker) {
            Some(other) => other == queue,
            None => false,
        },
    }
}

/// Whether a drain of the queue refuses the call.
fn is_shut(past: &Past<'_>, who: Who, queue: u8, ticks: u32) -> bool
    ensures { result ≡ is_shut past.now who queue ticks }
{
    is_draining(past, queue) && (!runs_on(past, who, queue) || 0 < ticks)
}

#[tactic(auto, unfolding(cmwq_model::specs::Answer::queue_answer))]
fn queue_answer(past: &Past<'_>, who: Who, item: u16, queue: u8, ticks: u32) -> Reply
    ensures { result ≡ queue_answer past.now who item queue ticks }
{
    if !may_call(past, who) {
        Reply::Misuse
    } else if is_gone(past, queue) {
        Reply::Gone
    } else if is_cancelling(past, item) || is_pending(past, item) {
        Reply::No
    } else if runs_elsewhere(past, item, queue) {
        Reply::Foreign
    } else if is_shut(past, who, queue, ticks) {
        Reply::Draining
    } else if ticks == 0 {
        Reply::Yes(past.len() as u64)
    } else {
        Reply::Booked(now(past) + u64::from(ticks))
    }
}

#[tactic(auto, unfolding(cmwq_model::specs::Answer::modify_answer))]
fn modify_answer(past: &Past<'_>, who: Who, item: u16, queue: u8, ticks: u32) -> Reply
    ensures { result ≡ modify_answer past.now who item queue ticks }
{
    if !may_call(past, who) {
        Reply::Misuse
    } else if is_gone(past, queue) {
        Reply::Gone
    } else if is_cancelling(past, item) {
        Reply::No
    } else if runs_elsewhere(past, item, queue) {
        Reply::Foreign
    } else if is_shut(past, who, queue, ticks) {
        Reply::Draining
    } else if is_pending(past, item) {
        if ticks == 0 {
            Reply::Again(past.len() as u64)
        } else {
            Reply::Rebooked(now(past) + u64::from(ticks))
        }
    } else if ticks == 0 {
        Reply::Yes(past.len() as u64)
    } else {
        Reply::Booked(now(past) + u64::from(ticks))
    }
}

fn taken_back(queueing: Option<Queueing>, is_booked: bool) -> Reply
    ensures { result ≡ taken_back_answer queueing is_booked }
{
    match queueing {
        Some(queueing) => Reply::Cancelled(queueing.number),
        None => {
            if is_booked {
                Reply::Unbooked
            } else {
                Reply::No
            }
        }
    }
}

#[tactic(auto, unfolding(cmwq_model::specs::Answer::cancel_answer))]
fn cancel_answer(past: &Past<'_>, who: Who, item: u16) -> Reply
    ensures { result ≡ cancel_answer past.now who item }
{
    if !may_call(past, who) {
        return Reply::Misuse;
    }
    taken_back(unstarted(past, item), is_booked(past, item))
}

fn fired(made: Option<Booking>, number: Number) -> Reply
    ensures { result ≡ fired_answer made number }
{
    match made {
        Some(made) => Reply::Fired(made.item, number),
        None => Reply::Nothing,
    }
}

#[tactic(auto, unfolding(cmwq_model::specs::Answer::flush_item_answer))]
fn flush_item_answer(past: &Past<'_>, who: Who, item: u16) -> Reply
    ensures { result ≡ flush_item_answer past.now who item }
{
    if is_crowded(past, who) {
        Reply::Crowded
    } else if is_item_open(past, item) {
        Reply::Ticket(past.len() as u64)
    } else {
        Reply::Idle
    }
}

/// Whether the item is delayed on a queue that drains.
fn is_held_back(past: &Past<'_>, item: u16) -> bool
    ensures { result ≡ is_held_back past.now item }
{
    match booking(past, item) {
        Some(made) => is_draining(past, made.place.queue.0),
        None => false,
    }
}

#[tactic(auto, unfolding(cmwq_model::specs::Answer::flush_delayed_answer))]
fn flush_delayed_answer(past: &Past<'_>, who: Who, item: u16) -> Reply
    ensures { result ≡ flush_delayed_answer past.now who item }
{
    if is_crowded(past, who) {
        Reply::Crowded
    } else if is_held_back(past, item) {
        Reply::Draining
    } else if is_booked(past, item) {
        Reply::TicketQueued(past.len() as u64)
    } else if is_item_open(past, item) {
        Reply::Ticket(past.len() as u64)
    } else {
        Reply::Idle
    }
}

fn taken_back_for(number: Number, queueing: Option<Queueing>, is_booked: bool) -> Reply
    ensures { result ≡ taken_back_for number queueing is_booked }
{
    match queueing {
        Some(queueing) => Reply::TicketCancelled(number, queueing.number),
        None => {
            if is_booked {
                Reply::TicketUnbooked(number)
            } else {
                Reply::TicketNo(number)
            }
        }
    }
}

#[tactic(auto, unfolding(cmwq_model::specs::Answer::cancel_sync_answer))]
fn cancel_sync_answer(past: &Past<'_>, who: Who, item: u16) -> Reply
    ensures { result ≡ cancel_sync_answer past.now who item }
{
    if is_crowded(past, who) {
        return Reply::Crowded;
    }
    taken_back_for(
        past.len() as u64,
        unstarted(past, item),
        is_booked(past, item),
    )
}

/// The answer to a flush or a drain of a queue.
#[tactic(auto, unfolding(cmwq_model::specs::Answer::wait_answer))]
fn wait_answer(past: &Past<'_>, who: Who, queue: u8) -> Reply
    ensures { result ≡ wait_answer past.now who queue }
{
    if is_gone(past, queue) {
        Reply::Gone
    } else if is_crowded(past, who) {
        Reply::Crowded
    } else {
        Reply::Ticket(past.len() as u64)
    }
}

#[tactic(auto, unfolding(cmwq_model::specs::Answer::destroy_answer))]
fn destroy_answer(past: &Past<'_>, who: Who, queue: u8) -> Reply
    ensures { result ≡ destroy_answer past.now who queue }
{
    if is_gone(past, queue) {
        Reply::Gone
    } else if is_being_destroyed(past, queue) {
        Reply::Draining
    } else if has_timers(past, queue) {
        Reply::Timers
    } else if is_crowded(past, who) {
        Reply::Crowded
    } else {
        Reply::Ticket(past.len() as u64)
    }
}

#[tactic(auto, unfolding(cmwq_model::specs::Answer::set_max_answer))]
fn set_max_answer(past: &Past<'_>, queue: u8, max_active: u32) -> Reply
    ensures { result ≡ set_max_answer past.now queue max_active }
{
    if is_gone(past, queue) {
        Reply::Gone
    } else {
        Reply::Width(max_active.min(u32::from(MOST_ACTIVE)))
    }
}

fn end_of_ticket(past: &Past<'_>, ticket: Option<Ticket>) -> Reply
    ensures { result ≡ end_of_ticket past.now ticket }
{
    match ticket {
        None => Reply::Misuse,
        Some(ticket) => match waits_for(past, ticket.number, ticket.call) {
            None => Reply::Done,
            Some(number) => Reply::Waiting(number),
        },
    }
}

fn start_of(shape: &Shape, past: &Past<'_>, worker: WorkerId, next: Option<Queueing>) -> Reply
    ensures { result ≡ start_of shape.now past.now worker next }
{
    match next {
        None => Reply::Nothing,
        Some(queueing) => {
            if 0 < runnable(shape, past, worker.pool) {
                return Reply::Held;
            }
            match enlisted_by(shape, past, worker) {
                None => Reply::Started(queueing.number),
                Some(index) => Reply::StartedEnlist(queueing.number, index),
            }
        }
    }
}

#[tactic(auto, unfolding(cmwq_model::specs::Answer::take_answer))]
fn take_answer(shape: &Shape, past: &Past<'_>, worker: WorkerId) -> Reply
    ensures { result ≡ take_answer shape.now past.now worker }
{
    if !is_enlisted(past, worker) || has_run(past, worker) {
        return Reply::Misuse;
    }
    start_of(shape, past, worker, next(shape, past, worker.pool))
}

fn finished(number: Option<Number>) -> Reply
    ensures { result ≡ finished_answer number }
{
    match number {
        None => Reply::Misuse,
        Some(number) => Reply::Finished(number),
    }
}

#[tactic(auto, unfolding(cmwq_model::specs::Answer::finish_answer))]
fn finish_answer(past: &Past<'_>, worker: WorkerId) -> Reply
    ensures { result ≡ finish_answer past.now worker }
{
    if runs_awake(past, worker) {
        finished(run(past, worker))
    } else {
        Reply::Misuse
    }
}

#[tactic(auto, unfolding(cmwq_model::specs::Answer::retire_answer))]
fn retire_answer(shape: &Shape, past: &Past<'_>, worker: WorkerId) -> Reply
    ensures { result ≡ retire_answer shape.now past.now worker }
{
    if !is_enlisted(past, worker) || has_run(past, worker) {
        Reply::Misuse
    } else if may_retire(shape, past, worker.pool) {
        Reply::Retired
    } else {
        Reply::Kept
    }
}

/// The answer to a worker's own call.
fn worker_answer(shape: &Shape, past: &Past<'_>, worker: WorkerId, call: Call) -> Reply
    ensures { result ≡ worker_answer shape.now past.now worker call }
{
    match call {
        Call::Take => take_answer(shape, past, worker),
        Call::Finish => finish_answer(past, worker),
        Call::Sleep => {
            if runs_awake(past, worker) {
                Reply::Slept
            } else {
                Reply::Misuse
            }
        }
        Call::Wake => {
            if runs_asleep(past, worker) {
                Reply::Woke
            } else {
                Reply::Misuse
            }
        }
        Call::Retire => retire_answer(shape, past, worker),
        _ => Reply::Misuse,
    }
}

fn own_answer(shape: &Shape, past: &Past<'_>, who: Who, call: Call) -> Reply
    ensures { result ≡ own_answer shape.now past.now who call }
{
    match who {
        Who::Caller(_) => Reply::Misuse,
        Who::Worker(worker) => worker_answer(shape, past, worker, call),
    }
}

/// The one right answer to the call.
#[tactic(auto, unfolding(cmwq_model::specs::Answer::answer))]
pub fn answer(shape: &Shape, past: &Past<'_>, who: Who, call: Call) -> Reply
    ensures { result ≡ answer shape.now past.now who call }
{
    match call {
        Call::Queue { item, queue, .. } => queue_answer(past, who, item.0, queue.0, 0),
        Call::Delay {
            item,
            queue,
            ticks,
            ..
        } => queue_answer(past, who, item.0, queue.0, ticks),
        Call::Modify {
            item,
            queue,
            ticks,
            ..
        } => modify_answer(past, who, item.0, queue.0, ticks),
        Call::Cancel { item } => cancel_answer(past, who, item.0),
        Call::Tick { ticks } => Reply::Now(now(past) + u64::from(ticks)),
        Call::Fire => fired(first_due(past), past.len() as u64),
        Call::Flush { queue } | Call::Drain { queue } => wait_answer(past, who, queue.0),
        Call::SetMax { queue, max_active } => set_max_answer(past, queue.0, max_active),
        Call::Freeze => {
            if is_frozen(past) {
                Reply::No
            } else {
                Reply::Frozen
            }
        }
        Call::Thaw => {
            if is_frozen(past) {
                Reply::Thawed
            } else {
                Reply::No
            }
        }
        Call::Destroy { queue } => destroy_answer(past, who, queue.0),
        Call::FlushItem { item } => flush_item_answer(past, who, item.0),
        Call::FlushDelayed { item } => flush_delayed_answer(past, who, item.0),
        Call::CancelSync { item } => cancel_sync_answer(past, who, item.0),
        Call::End { ticket } => end_of_ticket(past, ticket_of(past, who, ticket)),
        Call::Take => own_answer(shape, past, who, Call::Take),
        Call::Finish => own_answer(shape, past, who, Call::Finish),
        Call::Sleep => own_answer(shape, past, who, Call::Sleep),
        Call::Wake => own_answer(shape, past, who, Call::Wake),
        Call::Retire => own_answer(shape, past, who, Call::Retire),
    }
}
