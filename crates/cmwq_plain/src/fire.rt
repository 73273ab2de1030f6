ghost use Rattle.std.specs.Prelude.{◌≡◌, ◌<◌, ◌+◌, ◌++◌, length, option_to_list};
ghost use Rattle.std.specs.List.{list_any};
ghost use Rattle.cmwq_model.specs.Prelude.{standing_bookings, may_fire, is_soonest, first_due, is_booked_on};
ghost use Rattle.cmwq_plain.specs.Partial.{fireable, fireable_upto, standing_upto};

use crate::bookings::stands;
use crate::past::Past;
use crate::tally::now;
use crate::tickets::is_draining;
use cmwq_model::Booking;

fn may_fire(past: &Past<'_>, made: &Booking) -> bool
    ensures { result ≡ may_fire past.now made.now }
{
    made.due <= now(past) && !is_draining(past, made.place.queue.0)
}

/// The booking that the entry with this number made, if it may fire.
#[tactic(auto, using(crate::proofs::Parts::ends, cmwq_lemmas::proofs::Pushed::filter_push, crate::proofs::Steps::bookings_step), unfolding(crate::specs::Partial::fireable_upto))]
fn fireable_at(past: &Past<'_>, number: usize) -> Option<Booking>
    requires { number < length past.now }
    ensures { fireable_upto past.now (number + 1)
        ≡ fireable_upto past.now number ++ option_to_list result }
{
    match past.at(number).booking(number as u64) {
        None => None,
        Some(made) => {
            if stands(past, &made) && may_fire(past, &made) {
                Some(made)
            } else {
                None
            }
        }
    }
}

/// Whether nothing that may fire is due before this booking.
#[tactic(auto, using(cmwq_lemmas::proofs::Pushed::any_push, crate::proofs::Steps::fireable_ends))]
fn is_soonest(past: &Past<'_>, made: &Booking) -> bool
    ensures { result ≡ is_soonest (fireable past.now) made.now }
{
    let mut is_late = false;
    for k in 0..past.len() {
        if let Some(other) = fireable_at(past, k) {
            if other.due < made.due {
                is_late = true;
            }
        }
    }
    !is_late
}

/// The booking that fires first.
#[tactic(auto, using(cmwq_lemmas::proofs::Pushed::find_push, crate::proofs::Steps::fireable_ends), unfolding(cmwq_model::specs::Answer::first_due))]
pub fn first_due(past: &Past<'_>) -> Option<Booking>
    ensures { result ≡ first_due past.now }
{
    let mut found = None;
    for k in 0..past.len() {
        if let Some(made) = fireable_at(past, k) {
            if found.is_none() && is_soonest(past, &made) {
                found = Some(made);
            }
        }
    }
    found
}

/// The booking that the entry with this number made, if it stands.
#[tactic(auto, using(crate::proofs::Parts::ends, cmwq_lemmas::proofs::Pushed::filter_push, crate::proofs::Steps::bookings_step), unfolding(crate::specs::Partial::standing_upto))]
fn standing_at(past: &Past<'_>, number: usize) -> Option<Booking>
    requires { number < length past.now }
    ensures { standing_upto past.now (number + 1)
        ≡ standing_upto past.now number ++ option_to_list result }
{
    match past.at(number).booking(number as u64) {
        None => None,
        Some(made) => {
            if stands(past, &made) {
                Some(made)
            } else {
                None
            }
        }
    }
}

/// Whether an item is delayed on the queue.
#[tactic(auto, using(cmwq_lemmas::proofs::Pushed::any_push, crate::proofs::Steps::standing_ends))]
pub fn has_timers(past: &Past<'_>, queue: u8) -> bool
    ensures { result ≡ list_any (is_booked_on queue) (standing_bookings past.now) }
{
    let mut found = false;
    for k in 0..past.len() {
        if let Some(made) = standing_at(past, k) {
            if made.place.queue.0 == queue {
                found = true;
            }
        }
    }
    found
}
