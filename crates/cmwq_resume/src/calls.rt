//! The calls by which a new history takes over what an old one left.

ghost use Rattle.std.specs.Prelude.{◌≡◌, ◌<◌, ◌++◌, [], length, map, if◌then◌else◌, IfOk};
ghost use Rattle.std.specs.Prelude.{◌∷◌, All, OnOk};
ghost use Rattle.cmwq_model.specs.Prelude.{is_frozen, is_gone, max_active, past_of};
ghost use Rattle.cmwq_model.specs.declared.id.CallerId.{CallerId as TheCaller};
ghost use Rattle.cmwq_resume.specs.Leavings.{HaveTicks, IsWithin, is_again, later_after};
ghost use Rattle.cmwq_resume.specs.Plays.{IsTakenOver};
ghost use Rattle.cmwq_resume.specs.Resume as spec;

use crate::left::{broken_off, later, overdue, waiting};
use cmwq_model::{Booking, Call, NoMemory, QueueId, Queueing, Shape};
use cmwq_state::State;
use std::alloc::{AllocError, Global};

/// Adds the `set_max` of a queue, if its width is not that of the shape.
fn push_width(
    calls: &mut Vec<Call>,
    shape: &Shape,
    state: &State,
    queue: u8,
) -> Result<(), AllocError>
    requires shape { shape.now ≡ state.now.layout }
    requires queue { queue < length state.now.layout.queues }
    ensures { OnOk result
        (calls.new.items
        ≡ calls.old.items
        ++ spec.widen state.now.layout (max_active state.now.layout (past_of state.now.entries)) queue) }
{
    let queue = QueueId(queue);
    let width = state.max_active(queue);
    if width != u32::from(shape.queues()[usize::from(queue.0)].max_active) {
        calls.push(Call::SetMax {
            queue,
            max_active: width,
        })?;
    }
    Ok(())
}

fn push_widths(
    calls: &mut Vec<Call>,
    shape: &Shape,
    state: &State,
    queues: u8,
) -> Result<(), AllocError>
    requires shape { shape.now ≡ state.now.layout }
    requires queues { queues ≡ length state.now.layout.queues }
    ensures { OnOk result
        (calls.new.items
        ≡ calls.old.items
        ++ spec.first_calls state.now.layout (max_active state.now.layout (past_of state.now.entries))) }
{
    for queue in 0..queues {
        push_width(calls, shape, state, queue)?;
    }
    Ok(())
}

/// Adds the `destroy` of a queue that is gone, and its `end`, whose ticket has the number of the call before it.
fn push_gone(calls: &mut Vec<Call>, state: &State, queue: u8) -> Result<(), AllocError>
    requires { queue < length state.now.layout.queues }
    ensures { OnOk result
        (calls.new.items
        ≡ calls.old.items
        ++ (if is_gone (past_of state.now.entries) queue then spec.gone_calls (length calls.old.items) (queue ∷ [])
        else [])) }
{
    let queue = QueueId(queue);
    if state.is_gone(queue) {
        let ticket = calls.len() as u64;
        calls.push(Call::Destroy { queue })?;
        calls.push(Call::End { ticket })?;
    }
    Ok(())
}

fn push_all_gone(calls: &mut Vec<Call>, state: &State, queues: u8) -> Result<(), AllocError>
    requires { queues ≡ length state.now.layout.queues }
    ensures { OnOk result
        (calls.new.items
        ≡ calls.old.items
        ++ spec.gone_calls (length calls.old.items) (spec.gone_queues state.now.layout (past_of state.now.entries))) }
{
    for queue in 0..queues {
        push_gone(calls, state, queue)?;
    }
    Ok(())
}

fn push_freeze(calls: &mut Vec<Call>, state: &State) -> Result<(), AllocError>
    ensures { OnOk result
        (calls.new.items ≡ calls.old.items ++ spec.freeze_calls (is_frozen (past_of state.now.entries))) }
{
    if state.is_frozen() {
        calls.push(Call::Freeze)?;
    }
    Ok(())
}

fn push_queues(calls: &mut Vec<Call>, queueings: &[Queueing]) -> Result<(), AllocError>
    ensures { OnOk result (calls.new.items ≡ calls.old.items ++ map spec.queue_call queueings.now) }
{
    for queueing in queueings {
        calls.push(Call::Queue {
            item: queueing.item,
            queue: queueing.place.queue,
            cpu: queueing.place.cpu,
        })?;
    }
    Ok(())
}

/// Adds the delays by one tick of what is due.
fn push_due(calls: &mut Vec<Call>, bookings: &[Booking]) -> Result<(), AllocError>
    ensures { OnOk result (calls.new.items ≡ calls.old.items ++ map spec.due_call bookings.now) }
{
    for booking in bookings {
        calls.push(Call::Delay {
            item: booking.item,
            queue: booking.place.queue,
            cpu: booking.place.cpu,
            ticks: 1,
        })?;
    }
    Ok(())
}

/// Adds that tick, if something is due.
#[tactic(auto, using(crate::proofs::Pushed::some_tick, crate::proofs::Pushed::no_tick))]
fn push_tick(calls: &mut Vec<Call>, bookings: &[Booking]) -> Result<(), AllocError>
    ensures { OnOk result (calls.new.items ≡ calls.old.items ++ spec.tick_calls bookings.now) }
{
    if !bookings.is_empty() {
        calls.push(Call::Tick { ticks: 1 })?;
    }
    Ok(())
}

/// Adds the delays of what is booked for later, by the ticks that are left.
fn push_later(calls: &mut Vec<Call>, bookings: &[Booking], time: u64) -> Result<(), AllocError>
    requires { All (IsWithin time) bookings.now }
    ensures { OnOk result (calls.new.items ≡ calls.old.items ++ map (later_after time) bookings.now) }
{
    for booking in bookings {
        calls.push(Call::Delay {
            item: booking.item,
            queue: booking.place.queue,
            cpu: booking.place.cpu,
            ticks: (booking.due - time) as u32,
        })?;
    }
    Ok(())
}

/// Adds what is booked and due, and what is booked for later.
fn push_bookings(
    calls: &mut Vec<Call>,
    overdue: &[Booking],
    later: &[Booking],
    time: u64,
) -> Result<(), AllocError>
    requires { All (IsWithin time) later.now }
    ensures { OnOk result
        (calls.new.items
        ≡ calls.old.items ++ map spec.due_call overdue.now
        ++ spec.tick_calls overdue.now ++ map (later_after time) later.now) }
{
    push_due(calls, overdue)?;
    push_tick(calls, overdue)?;
    push_later(calls, later, time)?;
    Ok(())
}

/// The calls by which a new history takes over what the history of this state left, so that it resumes it: all by one
/// caller, who may be any. The state is that after the last entry of a history, or of the front of one.
///
/// They are, in this order: `set_max` where the width is not the shape's; `destroy` and its `end` for each queue that
/// is gone; `freeze`; `queue` for each run that was broken off, and then for what was pending, both by number; `delay`
/// by one tick for each booking that was due, and then `tick 1`; `delay` by the ticks that were left for each other
/// booking. Made in a new history, each of them succeeds.
///
/// A run that was broken off is not queued if its item is pending, since it runs then, if it is being cancelled, and if
/// the flag of its item in `left_out` is set. Items without a flag are as if it was not.
///
/// # Errors
/// `NoMemory` where it ran out.
pub fn resume_calls(
    alloc: Global,
    shape: &Shape,
    state: &State,
    left_out: &[bool],
) -> Result<Vec<Call>, NoMemory>
    requires shape { shape.now ≡ state.now.layout }
    requires ticks { HaveTicks (past_of state.now.entries) }
    ensures calls { IfOk result (λ calls. calls.items
        ≡ spec.resume_calls state.now.layout (is_again left_out.now) (past_of state.now.entries)) }
    ensures taken_over { IfOk result (λ calls. (c : TheCaller) → c.0 < state.now.layout.callers
        → IsTakenOver state.now.layout c (is_again left_out.now) (past_of state.now.entries) calls.items) }
{
    // it shows that the history is legal
    let _len = state.len();
    let items = shape.counts().items;
    let queues = shape.queues().len() as u8;
    let mut calls = Vec::new(alloc);
    push_widths(&mut calls, shape, state, queues)?;
    push_all_gone(&mut calls, state, queues)?;
    push_freeze(&mut calls, state)?;
    push_queues(&mut calls, &broken_off(alloc, state, items, left_out)?)?;
    push_queues(&mut calls, &waiting(alloc, state, items)?)?;
    let due = overdue(alloc, state, items)?;
    let rest = later(alloc, state, items)?;
    push_bookings(&mut calls, &due, &rest, state.time())?;
    Ok(calls)
}
