//! At which places an entry may change the height.
ghost use Rattle.std.specs.Prelude.{◌≡◌, ◌≤◌, ◌==◌};
ghost use Rattle.cmwq_chart.specs.Levels.{level_number};
ghost use Rattle.cmwq_chart_levels.specs.Affected as spec;

use cmwq_model::{Call, Place, QueueId, Reply};
use cmwq_state::Effect;

/// The places with the numbers from one up to an end.
#[derive(Clone, Copy)]
pub(crate) struct PlaceRange {
    pub(crate) from: usize,
    pub(crate) end: usize,
}

/// The places at which the height may change: none, none outside two ranges, or all.
#[derive(Clone, Copy)]
pub(crate) enum AffectedPlaces {
    Nowhere,
    Within(PlaceRange, PlaceRange),
    Everywhere,
}

/// A place's number, by which the levels stand.
pub(crate) fn place_number(place: Place) -> usize
    ensures number { result ≡ level_number place }
    ensures few { result ≤ 16575 }
{
    64 * usize::from(place.queue.0) + usize::from(place.cpu.0)
}

/// These two places.
fn two_places(one: Place, other: Place) -> AffectedPlaces
    ensures { spec.AreAffected (spec.has_level_number (level_number one) (level_number other)) result }
{
    let first = place_number(one).min(place_number(other));
    let second = place_number(one).max(place_number(other));
    AffectedPlaces::Within(
        PlaceRange {
            from: first,
            end: first + 1,
        },
        PlaceRange {
            from: second,
            end: second + 1,
        },
    )
}

/// The places of what an entry opens and ends.
fn places_moved(effect: &Effect) -> AffectedPlaces
    ensures { spec.AreAffected (spec.moves_at effect.now) result }
{
    match (effect.opened, effect.ended) {
        (None, None) => AffectedPlaces::Nowhere,
        (Some(opened), None) => two_places(opened.place, opened.place),
        (None, Some(ended)) => two_places(ended.place, ended.place),
        (Some(opened), Some(ended)) => two_places(opened.place, ended.place),
    }
}

/// The places of a queue.
fn places_of_queue(queue: QueueId) -> AffectedPlaces
    ensures { spec.AreAffected (λ p. queue.0 == p.queue.0) result }
{
    let from = 64 * usize::from(queue.0);
    let end = from + 64;
    AffectedPlaces::Within(PlaceRange { from, end }, PlaceRange { from: end, end })
}

/// The places at which an entry that does this may change the height.
pub(crate) fn places_affected(effect: &Effect) -> AffectedPlaces
    ensures { spec.AreAffected (spec.affects effect.now) result }
{
    match (effect.entry.reply, effect.entry.call) {
        (Reply::Width(_), Call::SetMax { queue, .. })
            if effect.opened.is_none() && effect.ended.is_none() => { places_of_queue(queue) }
        (Reply::Width(_) | Reply::Frozen | Reply::Thawed, _) => AffectedPlaces::Everywhere,
        _ => places_moved(effect),
    }
}
