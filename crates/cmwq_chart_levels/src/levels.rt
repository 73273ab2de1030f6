//! What an entry does to the levels that go on before it.
ghost use Rattle.std.specs.Prelude.{◌≡◌, ◌<◌, ◌≤◌, ◌∷◌, ◌++◌, [], length, take, drop, flat_map, map, slice_index_or};
ghost use Rattle.std.specs.Prelude.{OnOk, option_to_list};
ghost use Rattle.std.specs.List.{All};
ghost use Rattle.cmwq_history.specs.Steps.{after};
ghost use Rattle.cmwq_chart.specs.Levels.{level_number};
ghost use Rattle.cmwq_chart_levels.specs.Affected.{affects, AreLevelsInOrder, AreRanges, IsOnlyWithin};
ghost use Rattle.cmwq_chart_levels.specs.Turns.{IsEffectOf, IsLevelAfter, after_if, ended_if, ended_levels};
ghost use Rattle.cmwq_chart_levels.specs.Turns.{level_after as level_then};

use crate::affected::{AffectedPlaces, PlaceRange, place_number, places_affected};
use crate::heights::{height_after, is_changed, may_change};
use cmwq_chart::{Height, Level};
use cmwq_history::Step;
use cmwq_model::NoMemory;
use cmwq_state::Effect;

/// The level that an entry after so many ends, of that which went on before it.
fn level_ended(before: &Level, is_changed: bool, entries: usize) -> Option<Level>
    requires { entries ≤ 1073741824 }
    ensures { result ≡ ended_if before.now is_changed entries }
{
    if !is_changed {
        return None;
    }
    Some(Level {
        to: Some((entries as u32).saturating_sub(1)),
        ..*before
    })
}

/// The level that goes on after it.
fn level_after(before: &Level, is_changed: bool, height: Height, entries: usize) -> Level
    requires { entries ≤ 1073741824 }
    ensures { result ≡ after_if before.now is_changed height entries }
{
    let from = if is_changed {
        entries as u32
    } else {
        before.from
    };
    Level {
        height,
        from,
        ..*before
    }
}

/// Puts a level after the others.
pub(crate) fn push(levels: &mut Vec<Level>, level: Level) -> Result<(), NoMemory>
    ensures { OnOk result (levels.new.items ≡ levels.old.items ++ level ∷ []) }
{
    match levels.push(level) {
        Ok(()) => Ok(()),
        Err(_) => Err(NoMemory),
    }
}

/// The same, where there is one.
fn push_if_some(levels: &mut Vec<Level>, level: Option<Level>) -> Result<(), NoMemory>
    ensures { OnOk result (levels.new.items ≡ levels.old.items ++ option_to_list level) }
{
    if let Some(level) = level {
        return push(levels, level);
    }
    Ok(())
}

/// The level with this number.
fn level_at(levels: &[Level], number: usize) -> Level
    requires { number < length levels.now }
    ensures { result ≡ slice_index_or levels.now number result }
{
    levels[number]
}

/// Takes the levels that go on beyond an entry, and puts those that it ends after the others. It looks at each of
/// them.
fn update(
    levels: &mut Vec<Level>,
    running: &mut [Level],
    step: &Step<'_, Effect>,
) -> Result<(), NoMemory>
    requires short { length step.now.past ≤ 1073741824 }
    requires running { All (IsLevelAfter step.now.layout step.now.past) running.old }
    ensures running { OnOk result (running.new ≡ map (level_then step.now.layout (after step.now)) running.old) }
    ensures levels { OnOk result
        (levels.new.items ≡ levels.old.items
        ++ flat_map (ended_levels step.now.layout step.now.past step.now.entry) running.old) }
{
    let effect = step.told();
    let entries = step.at() as usize;
    for k in 0..running.len() {
        let before = level_at(running, k);
        let place = before.place;
        if may_change(effect, place) {
            let height = height_after(step, before.height, place);
            let is_changed = is_changed(entries, &before.height, &height);
            push_if_some(levels, level_ended(&before, is_changed, entries))?;
            running[k] = level_after(&before, is_changed, height, entries);
        }
    }
    Ok(())
}

/// How many of the levels are of places with lower numbers.
fn count_below(levels: &[Level], number: usize) -> usize
    requires { AreLevelsInOrder levels.now }
    ensures within { result ≤ length levels.now }
    ensures below { All (λ l. level_number l.place < number) (take result levels.now) }
    ensures from { All (λ l. number ≤ level_number l.place) (drop result levels.now) }
{
    levels.partition_point(|level| place_number(level.place) < number)
}

/// The same as `update`, where the entry affects no place outside a range. It looks at the levels inside alone.
fn update_in_range(
    levels: &mut Vec<Level>,
    running: &mut [Level],
    step: &Step<'_, Effect>,
    range: PlaceRange,
) -> Result<(), NoMemory>
    requires short { length step.now.past ≤ 1073741824 }
    requires running { All (IsLevelAfter step.now.layout step.now.past) running.old }
    requires effect { IsEffectOf step.now.layout step.now.past step.now.entry step.now.told }
    requires order { AreLevelsInOrder running.old }
    requires only { All (IsOnlyWithin (affects step.now.told) range) running.old }
    ensures running { OnOk result (running.new ≡ map (level_then step.now.layout (after step.now)) running.old) }
    ensures levels { OnOk result
        (levels.new.items ≡ levels.old.items
        ++ flat_map (ended_levels step.now.layout step.now.past step.now.entry) running.old) }
{
    let from = count_below(running, range.from);
    let (_, rest) = running.split_at_mut(from);
    let end = count_below(rest, range.end);
    let (part, _) = rest.split_at_mut(end);
    update(levels, part, step)?;
    Ok(())
}

/// The same, where the entry affects no place outside two ranges.
fn update_in_ranges(
    levels: &mut Vec<Level>,
    running: &mut [Level],
    step: &Step<'_, Effect>,
    first: PlaceRange,
    second: PlaceRange,
) -> Result<(), NoMemory>
    requires short { length step.now.past ≤ 1073741824 }
    requires running { All (IsLevelAfter step.now.layout step.now.past) running.old }
    requires effect { IsEffectOf step.now.layout step.now.past step.now.entry step.now.told }
    requires order { AreLevelsInOrder running.old }
    requires ranges { AreRanges (affects step.now.told) first second }
    ensures running { OnOk result (running.new ≡ map (level_then step.now.layout (after step.now)) running.old) }
    ensures levels { OnOk result
        (levels.new.items ≡ levels.old.items
        ++ flat_map (ended_levels step.now.layout step.now.past step.now.entry) running.old) }
{
    let middle = count_below(running, second.from);
    let (low, high) = running.split_at_mut(middle);
    update_in_range(levels, low, step, first)?;
    update_in_range(levels, high, step, second)?;
    Ok(())
}

/// The same of any entry. It looks at the levels of those places alone that the entry may affect.
pub(crate) fn update_affected(
    levels: &mut Vec<Level>,
    running: &mut [Level],
    step: &Step<'_, Effect>,
) -> Result<(), NoMemory>
    requires short { length step.now.past ≤ 1073741824 }
    requires running { All (IsLevelAfter step.now.layout step.now.past) running.old }
    requires effect { IsEffectOf step.now.layout step.now.past step.now.entry step.now.told }
    requires order { AreLevelsInOrder running.old }
    ensures running { OnOk result (running.new ≡ map (level_then step.now.layout (after step.now)) running.old) }
    ensures levels { OnOk result
        (levels.new.items ≡ levels.old.items
        ++ flat_map (ended_levels step.now.layout step.now.past step.now.entry) running.old) }
{
    let effect = step.told();
    match places_affected(effect) {
        AffectedPlaces::Nowhere => Ok(()),
        AffectedPlaces::Within(first, second) => update_in_ranges(
            levels, running, step, first, second,
        ),
        AffectedPlaces::Everywhere => update(levels, running, step),
    }
}
