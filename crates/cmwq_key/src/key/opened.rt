//! What is open or booked, in a key.

ghost use Rattle.std.specs.Prelude.{◌≡◌, ◌++◌, All, Contains, IfOk};
ghost use Rattle.cmwq_model.specs.Prelude.{past_of, still_open};
ghost use Rattle.cmwq_key.specs.Codes.{codes, told_list};
ghost use Rattle.cmwq_key.specs.Keys as spec;

use crate::key::Key;
use crate::key::codes::{flag, push, push_all};
use crate::key::numbered::Numbered;
use cmwq_model::{Booking, Queueing};
use cmwq_state::State;
use std::alloc::AllocError;

fn push_unstarted(
    key: &mut Key,
    state: &State,
    numbered: &Numbered,
    queueing: Queueing,
) -> Result<(), AllocError>
    requires { Contains (still_open (past_of state.now.entries)) queueing }
    ensures { IfOk result (λ _. key.new.items ≡ key.old.items
        ++ codes (spec.told_unstarted state.now.layout (past_of state.now.entries) numbered.now queueing)) }
{
    push_all(
        key,
        &[
            numbered.rank(queueing.number),
            u64::from(queueing.item.0),
            u64::from(queueing.place.queue.0),
            u64::from(queueing.place.cpu.0),
            flag(state.is_active(queueing)),
        ],
    )
}

fn push_running(key: &mut Key, numbered: &Numbered, queueing: Queueing) -> Result<(), AllocError>
    ensures { IfOk result (λ _. key.new.items ≡ key.old.items ++ codes (spec.told_running numbered.now queueing)) }
{
    push_all(
        key,
        &[
            numbered.rank(queueing.number),
            u64::from(queueing.item.0),
            u64::from(queueing.place.queue.0),
            u64::from(queueing.place.cpu.0),
        ],
    )
}

fn push_booking(key: &mut Key, numbered: &Numbered, booking: Booking) -> Result<(), AllocError>
    ensures { IfOk result (λ _. key.new.items ≡ key.old.items ++ codes (spec.told_booking numbered.now booking)) }
{
    push_all(
        key,
        &[
            numbered.rank_of_booking(booking.number),
            u64::from(booking.item.0),
            u64::from(booking.place.queue.0),
            u64::from(booking.place.cpu.0),
            booking.due,
        ],
    )
}

/// Writes the open queueings that have not started.
pub(super) fn push_all_unstarted(
    key: &mut Key,
    state: &State,
    numbered: &Numbered,
    all: &[Queueing],
) -> Result<(), AllocError>
    requires { All (λ x. Contains (still_open (past_of state.now.entries)) x) all.now }
    ensures { IfOk result (λ _. key.new.items ≡ key.old.items ++ codes (told_list
        (spec.told_unstarted state.now.layout (past_of state.now.entries) numbered.now) all.now)) }
{
    push(key, all.len() as u64)?;
    for queueing in all {
        push_unstarted(key, state, numbered, *queueing)?;
    }
    Ok(())
}

/// Writes those that run.
pub(super) fn push_all_running(
    key: &mut Key,
    numbered: &Numbered,
    all: &[Queueing],
) -> Result<(), AllocError>
    ensures { IfOk result
        (λ _. key.new.items ≡ key.old.items ++ codes (told_list (spec.told_running numbered.now) all.now)) }
{
    push(key, all.len() as u64)?;
    for queueing in all {
        push_running(key, numbered, *queueing)?;
    }
    Ok(())
}

/// Writes the bookings that stand.
pub(super) fn push_all_booked(
    key: &mut Key,
    numbered: &Numbered,
    all: &[Booking],
) -> Result<(), AllocError>
    ensures { IfOk result
        (λ _. key.new.items ≡ key.old.items ++ codes (told_list (spec.told_booking numbered.now) all.now)) }
{
    push(key, all.len() as u64)?;
    for booking in all {
        push_booking(key, numbered, *booking)?;
    }
    Ok(())
}
