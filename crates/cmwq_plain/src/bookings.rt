ghost use Rattle.std.specs.Prelude.{◌≡◌};
ghost use Rattle.cmwq_model.specs.Prelude.{booking, is_booked, stands};

use crate::entries::is_of_item;
use crate::past::Past;
use cmwq_model::Booking;

/// The item's booking: what its last entry that settles it made.
#[tactic(auto, using(crate::proofs::Parts::ends, crate::proofs::PastSteps::booking_steps))]
pub fn booking(past: &Past<'_>, item: u16) -> Option<Booking>
    ensures { result ≡ booking past.now item }
{
    let mut standing = None;
    for k in 0..past.len() {
        let entry = past.at(k);
        if entry.reply.settles() && is_of_item(item, &entry) {
            standing = entry.booking(k as u64);
        }
    }
    standing
}

/// Whether the item is delayed.
pub fn is_booked(past: &Past<'_>, item: u16) -> bool
    ensures { result ≡ is_booked past.now item }
{
    booking(past, item).is_some()
}

/// Whether this booking is still that of its item.
pub fn stands(past: &Past<'_>, made: &Booking) -> bool
    ensures { result ≡ stands past.now made.now }
{
    match booking(past, made.item.0) {
        Some(last) => last.number == made.number,
        None => false,
    }
}
