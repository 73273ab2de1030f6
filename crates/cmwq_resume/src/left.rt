//! What a history left, read off the state at its end.

ghost use Rattle.std.specs.Prelude.{◌≡◌, ◌<◌, filter, length, IfOk, OnOk};
ghost use Rattle.std.specs.List.{AllAdjacentBelow};
ghost use Rattle.std.specs.List.Sorted.{IsNonDecreasingBy, IsPermutation};
ghost use Rattle.cmwq_model.specs.Prelude.{booking, has_not_started, past_of, standing_bookings, still_open};
ghost use Rattle.cmwq_refinement.specs.ByNumber.{number_of_queueing};
ghost use Rattle.cmwq_resume.specs.Resume.{by_due, is_broken_off, is_due, is_later};
ghost use Rattle.cmwq_resume.specs.Common.{number_booked};
ghost use Rattle.cmwq_resume.specs.Leavings as spec;

use cmwq_model::{Booking, ItemId, Queueing};
use cmwq_state::State;
use std::alloc::{AllocError, Global};

/// Whether the runs of this item are had again: not if a flag says that they are to be left out.
fn is_again(left_out: &[bool], item: ItemId) -> bool
    ensures { result ≡ spec.is_again left_out.now item.0 }
{
    match left_out.get(usize::from(item.0)) {
        Some(is_left_out) => !*is_left_out,
        None => true,
    }
}

/// The run of an item that was broken off and is to be queued again.
fn broken_off_of(state: &State, left_out: &[bool], item: ItemId) -> Option<Queueing>
    requires { item.0 < state.now.layout.items }
    ensures { result ≡ spec.broken_off_of (spec.is_again left_out.now) (past_of state.now.entries) item.0 }
{
    if state.is_pending(item) || state.is_cancelling(item) || !is_again(left_out, item) {
        return None;
    }
    state.item_run(item)
}

/// The booking of an item.
fn booking_of(state: &State, item: ItemId) -> Option<Booking>
    requires { item.0 < state.now.layout.items }
    ensures { result ≡ booking (past_of state.now.entries) item.0 }
{
    let timer = state.timer(item)?;
    Some(Booking {
        item,
        place: timer.place,
        due: timer.due,
        number: timer.number,
    })
}

fn overdue_of(state: &State, item: ItemId) -> Option<Booking>
    requires { item.0 < state.now.layout.items }
    ensures { result ≡ spec.overdue_of (past_of state.now.entries) item.0 }
{
    let booking = booking_of(state, item)?;
    (booking.due <= state.time()).then_some(booking)
}

fn later_of(state: &State, item: ItemId) -> Option<Booking>
    requires { item.0 < state.now.layout.items }
    ensures { result ≡ spec.later_of (past_of state.now.entries) item.0 }
{
    let booking = booking_of(state, item)?;
    (booking.due > state.time()).then_some(booking)
}

fn sort_by_number(found: &mut Vec<Queueing>) -> Result<(), AllocError>
    ensures sorted { OnOk result (IsNonDecreasingBy number_of_queueing found.new.items) }
    ensures same { IsPermutation found.old.items found.new.items }
{
    found.sort_by_key(|queueing| queueing.number)?;
    Ok(())
}

fn sort_by_booking(found: &mut Vec<Booking>) -> Result<(), AllocError>
    ensures sorted { OnOk result (IsNonDecreasingBy number_booked found.new.items) }
    ensures same { IsPermutation found.old.items found.new.items }
{
    found.sort_by_key(|booking| booking.number)?;
    Ok(())
}

/// Sorts by the tick, and at the same tick by the number.
fn sort_by_due(found: &mut Vec<Booking>) -> Result<(), AllocError>
    ensures sorted { OnOk result
        (AllAdjacentBelow spec.IsNoLater found.new.items (length found.new.items)) }
    ensures same { IsPermutation found.old.items found.new.items }
{
    found.sort_by_key(|booking| (booking.due, booking.number))?;
    Ok(())
}

/// The runs that were broken off and are to be queued again, by number. Of each item whose flag in `left_out` is set
/// none is.
pub(crate) fn broken_off(
    alloc: Global,
    state: &State,
    items: u16,
    left_out: &[bool],
) -> Result<Vec<Queueing>, AllocError>
    requires { items ≡ state.now.layout.items }
    ensures { IfOk result (λ found. found.items
        ≡ filter (is_broken_off (spec.is_again left_out.now) (past_of state.now.entries))
        (still_open (past_of state.now.entries))) }
{
    // it shows that the history is legal
    let _len = state.len();
    let mut found = Vec::new(alloc);
    for item in 0..items {
        if let Some(run) = broken_off_of(state, left_out, ItemId(item)) {
            found.push(run)?;
        }
    }
    sort_by_number(&mut found)?;
    Ok(found)
}

/// What is queued and has not started, by number.
pub(crate) fn waiting(alloc: Global, state: &State, items: u16) -> Result<Vec<Queueing>, AllocError>
    requires { items ≡ state.now.layout.items }
    ensures { IfOk result (λ found. found.items
        ≡ filter (has_not_started (past_of state.now.entries)) (still_open (past_of state.now.entries))) }
{
    // it shows that the history is legal
    let _len = state.len();
    let mut found = Vec::new(alloc);
    for item in 0..items {
        if let Some(queueing) = state.unstarted(ItemId(item)) {
            found.push(queueing)?;
        }
    }
    sort_by_number(&mut found)?;
    Ok(found)
}

/// What is booked and due, in the order in which it would fire.
pub(crate) fn overdue(alloc: Global, state: &State, items: u16) -> Result<Vec<Booking>, AllocError>
    requires { items ≡ state.now.layout.items }
    ensures { IfOk result (λ found. found.items
        ≡ by_due (filter (is_due (past_of state.now.entries)) (standing_bookings (past_of state.now.entries)))) }
{
    // it shows that the history is legal
    let _len = state.len();
    let mut found = Vec::new(alloc);
    for item in 0..items {
        if let Some(booking) = overdue_of(state, ItemId(item)) {
            found.push(booking)?;
        }
    }
    sort_by_due(&mut found)?;
    Ok(found)
}

/// What is booked for later, by number.
pub(crate) fn later(alloc: Global, state: &State, items: u16) -> Result<Vec<Booking>, AllocError>
    requires { items ≡ state.now.layout.items }
    ensures { IfOk result (λ found. found.items
        ≡ filter (is_later (past_of state.now.entries)) (standing_bookings (past_of state.now.entries))) }
{
    // it shows that the history is legal
    let _len = state.len();
    let mut found = Vec::new(alloc);
    for item in 0..items {
        if let Some(booking) = later_of(state, ItemId(item)) {
            found.push(booking)?;
        }
    }
    sort_by_booking(&mut found)?;
    Ok(found)
}
