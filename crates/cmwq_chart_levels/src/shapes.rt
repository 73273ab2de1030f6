//! The shapes of a history.
ghost use Rattle.std.specs.Prelude.{◌≡◌, ◌≤◌, ◌∷◌, ◌++◌, [], if◌then◌else◌, filter, length, map, IfOk, OnOk};
ghost use Rattle.std.specs.List.{All};
ghost use Rattle.cmwq_model.specs.Prelude.{most_callers, most_tickets, past_of};
ghost use Rattle.cmwq_chart.specs.Lanes.{most_lanes};
ghost use Rattle.cmwq_chart.specs.Levels.{levels_of, most_places};
ghost use Rattle.cmwq_chart.specs.Shapes.{AreShapes, places_in};
ghost use Rattle.cmwq_chart_levels.specs.Seen as spec;
ghost use Rattle.cmwq_chart_levels.specs.Seen.{IsSeen};

use crate::affected::place_number;
use crate::seen::Seen;
use cmwq_chart::{Level, Shapes};
use cmwq_model::{NoMemory, Place, Shape};
use std::alloc::{AllocError, Global};

/// Whether the table marks a place.
fn is_used(used: &[bool], place: Place) -> bool
    ensures { result ≡ spec.is_used used.now place }
{
    match used.get(place_number(place)) {
        Some(is_marked) => *is_marked,
        None => false,
    }
}

/// The places of these levels that the table marks.
fn used_places(alloc: Global, used: &[bool], levels: &[Level]) -> Result<Vec<Place>, AllocError>
    ensures { IfOk result (λ places. places.items ≡ filter (spec.is_used used.now) (map spec.place_in levels.now)) }
{
    levels
        .iter()
        .map(|level| level.place)
        .filter(|place| is_used(used, *place))
        .collect(alloc)
}

/// Adds a level after the others, if it is to be there.
fn push_if(levels: &mut Vec<Level>, level: Level, is_there: bool) -> Result<(), AllocError>
    ensures { OnOk result (levels.new.items ≡ levels.old.items ++ (if is_there then level ∷ [] else [])) }
{
    if is_there {
        levels.push(level)?;
    }
    Ok(())
}

/// Adds those of these levels whose places the table marks after the others.
fn push_used(levels: &mut Vec<Level>, used: &[bool], those: &[Level]) -> Result<(), AllocError>
    ensures { OnOk result (levels.new.items ≡ levels.old.items ++ filter (spec.is_level_used used.now) those.now) }
{
    for level in those {
        let is_there = is_used(used, level.place);
        push_if(levels, *level, is_there)?;
    }
    Ok(())
}

/// The queues on CPUs that had queueings, by queue and CPU.
fn places_of(alloc: Global, shape: &Shape, seen: &Seen) -> Result<Vec<Place>, NoMemory>
    requires { IsSeen shape.now (past_of seen.now.entries.items) seen.now }
    ensures places { IfOk result (λ places. places.items ≡ places_in shape.now seen.now.entries.items) }
    ensures few { IfOk result (λ places. length places.items ≤ most_places) }
{
    // it shows that the queues and CPUs are few
    let _counts = shape.counts();
    let used = seen.used.as_slice();
    let running = seen.running.as_slice();
    let places = used_places(alloc, used, running)?;
    Ok(places)
}

/// Their levels: those that an entry ended, in the order of these, and then those that go on at the end.
fn levels_of(alloc: Global, shape: &Shape, seen: &Seen) -> Result<Vec<Level>, NoMemory>
    requires { IsSeen shape.now (past_of seen.now.entries.items) seen.now }
    ensures { IfOk result
        (λ levels. levels.items
        ≡ levels_of shape.now (past_of seen.now.entries.items) (places_in shape.now seen.now.entries.items)) }
{
    let _counts = shape.counts();
    let used = seen.used.as_slice();
    let ended = seen.ended.as_slice();
    let running = seen.running.as_slice();
    let mut levels = Vec::new(alloc);
    push_used(&mut levels, used, ended)?;
    push_used(&mut levels, used, running)?;
    Ok(levels)
}

/// All that is shown of a history. The error says that memory ran out.
pub fn shapes_of(alloc: Global, shape: &Shape, seen: &Seen) -> Result<Shapes, NoMemory>
    requires { IsSeen shape.now (past_of seen.now.entries.items) seen.now }
    ensures shapes { IfOk result (AreShapes shape.now seen.now.entries.items) }
    ensures callers { IfOk result (λ shapes. length shapes.callers.lanes.items ≤ most_callers) }
    ensures rows { IfOk result (λ shapes. All (λ lane. lane.rows ≤ most_tickets) shapes.callers.lanes.items) }
    ensures lanes { IfOk result (λ shapes. length shapes.lanes.items ≤ most_lanes) }
    ensures places { IfOk result (λ shapes. length shapes.places.items ≤ most_places) }
{
    // it shows that the workers and callers are few
    let _counts = shape.counts();
    let intervals = &seen.intervals;
    let places = places_of(alloc, shape, seen)?;
    let levels = levels_of(alloc, shape, seen)?;
    Ok(Shapes {
        callers: intervals.callers(alloc)?,
        lanes: intervals.lanes(alloc)?,
        bars: intervals.bars(alloc)?,
        sleeps: intervals.sleeps(alloc)?,
        signs: intervals.signs(alloc)?,
        places,
        levels,
    })
}
