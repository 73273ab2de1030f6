//! The items that are booked, and which of two fires first.

ghost use Rattle.std.specs.Prelude.{◌≡◌, ◌≢◌, ℕ, ◌+◌, ◌*◌, ◌^◌, ◌<◌, ◌≤◌, Some, false, length, option_and_then};
ghost use Rattle.std.specs.Option.{option_map_or};
ghost use Rattle.cmwq_timer.specs.Due.{is_sooner};
ghost use Rattle.cmwq_timer.specs.Tournament.{Nodes, sooner, candidate_at, node_at, IsSoonest, IsKnown, IsWritten};
ghost use Rattle.cmwq_timer.specs.Tournament.{first_after};

use crate::timer::Timer;
use cmwq_model::ItemId;

/// Of how many nodes of a level the next level keeps one.
pub(crate) const FAN: usize = 16;

/// An item that is booked, and its timer.
#[derive(Clone, Copy)]
pub(crate) struct Candidate {
    pub item: ItemId,
    pub timer: Timer,
}

/// The one of the two that fires first.
#[inline(always)]
pub(crate) fn sooner(one: Option<Candidate>, other: Option<Candidate>) -> Option<Candidate>
    ensures { result ≡ sooner one other }
{
    match (one, other) {
        (None, _) => other,
        (_, None) => one,
        (Some(first), Some(next)) => {
            if next.timer.is_sooner(&first.timer) {
                other
            } else {
                one
            }
        }
    }
}

/// The item of this row, if it is booked.
#[inline(always)]
pub(crate) fn candidate_at(rows: &[Option<Timer>], row: usize) -> Option<Candidate>
    requires { length rows.now < 2 ^ 16 }
    ensures { result ≡ candidate_at rows.now row }
{
    if row < rows.len() {
        let timer = rows[row]?;
        Some(Candidate {
            item: ItemId(row as u16),
            timer,
        })
    } else {
        None
    }
}

/// What this node of a level keeps. Past the end of the level there is nothing.
#[inline(always)]
pub(crate) fn node_at(level: &[Option<Candidate>], node: usize) -> Option<Candidate>
    ensures { result ≡ node_at level.now node }
{
    if node < level.len() {
        level[node]
    } else {
        None
    }
}

#[inline(always)]
fn candidate_of(rows: &[Option<Timer>], row: Option<usize>) -> Option<Candidate>
    requires { length rows.now < 2 ^ 16 }
    ensures { result ≡ option_and_then (candidate_at rows.now) row }
{
    candidate_at(rows, row?)
}

#[inline(always)]
fn node_of(level: &[Option<Candidate>], node: Option<usize>) -> Option<Candidate>
    ensures { result ≡ option_and_then (node_at level.now) node }
{
    node_at(level, node?)
}

/// Of the first row so far and one after it, the one whose item fires first.
#[inline(always)]
fn sooner_row(rows: &[Option<Timer>], first: Option<usize>, row: usize) -> Option<usize>
    requires { length rows.now < 2 ^ 16 }
    ensures { option_and_then (candidate_at rows.now) result
        ≡ sooner (option_and_then (candidate_at rows.now) first) (candidate_at rows.now row) }
{
    let Some(next) = candidate_at(rows, row) else {
        return first;
    };
    let Some(place) = first else {
        return Some(row);
    };
    match candidate_at(rows, place) {
        Some(kept) if !next.timer.is_sooner(&kept.timer) => first,
        _ => Some(row),
    }
}

/// Of the sixteen rows below a node, the item that fires first.
fn first_of_rows(rows: &[Option<Timer>], node: usize) -> Option<Candidate>
    requires few { length rows.now < 2 ^ 16 }
    requires node { node < 2 ^ 16 }
    ensures { IsSoonest (candidate_at rows.now) (16 * node) (16 * node + 16) result }
{
    let mut first = None;
    for row in FAN * node..rows.len().min(FAN * node + FAN) {
        first = sooner_row(rows, first, row);
    }
    candidate_of(rows, first)
}

/// Of the first node so far and one after it, the one that fires first.
#[inline(always)]
fn sooner_node(level: &[Option<Candidate>], first: Option<usize>, node: usize) -> Option<usize>
    ensures { option_and_then (node_at level.now) result
        ≡ sooner (option_and_then (node_at level.now) first) (node_at level.now node) }
{
    let Some(next) = node_at(level, node) else {
        return first;
    };
    let Some(place) = first else {
        return Some(node);
    };
    match node_at(level, place) {
        Some(kept) if !next.timer.is_sooner(&kept.timer) => first,
        _ => Some(node),
    }
}

/// Of the sixteen nodes below a node, the one that fires first.
fn first_of_nodes(level: &[Option<Candidate>], node: usize) -> Option<Candidate>
    requires { node < 2 ^ 16 }
    ensures { IsSoonest (node_at level.now) (16 * node) (16 * node + 16) result }
{
    let mut first = None;
    for below in FAN * node..level.len().min(FAN * node + FAN) {
        first = sooner_node(level, first, below);
    }
    node_of(level, first)
}

/// What is known of the first of some nodes, of which one was written, without a look at the others.
#[derive(Clone, Copy)]
pub(crate) enum Known {
    Stays,
    IsWritten,
    /// Any of them may be it.
    Lost,
}

/// What becomes of the first of some nodes, of which one was written.
#[derive(Clone, Copy)]
pub(crate) enum First {
    Stays,
    Becomes(Option<Candidate>),
}

/// Whether it may be `kept` that was written over.
#[inline(always)]
fn is_lost(kept: Candidate, was: Option<Candidate>) -> bool
    ensures { result ≡ false → was ≢ Some kept }
{
    match was {
        Some(before) => before.item.0 == kept.item.0,
        None => false,
    }
}

/// Whether it comes before the first so far.
#[inline(always)]
fn comes_before(now: Option<Candidate>, kept: Candidate) -> bool
    ensures { result ≡ option_map_or (λ (next : Candidate). is_sooner next.timer kept.timer) now false }
{
    match now {
        Some(next) => next.timer.is_sooner(&kept.timer),
        None => false,
    }
}

/// What is known of the first of some nodes, of which one keeps `now` in place of `was`: `first` was the first before.
#[inline(always)]
fn known_first(first: Option<Candidate>, was: Option<Candidate>, now: Option<Candidate>) -> Known
    ensures { (old new : Nodes) (lo hi at : ℕ) → IsWritten old new at was now → lo ≤ at → at < hi
        → IsSoonest old lo hi first → IsKnown new lo hi first now result }
{
    let Some(kept) = first else {
        return Known::IsWritten;
    };
    if comes_before(now, kept) {
        Known::IsWritten
    } else if is_lost(kept, was) {
        Known::Lost
    } else {
        Known::Stays
    }
}

/// What becomes of the first of the sixteen rows below a node, of which one was written. They are looked at where it is
/// lost.
#[inline(always)]
pub(crate) fn updated_first_of_rows(
    rows: &[Option<Timer>],
    node: usize,
    first: Option<Candidate>,
    was: Option<Candidate>,
    now: Option<Candidate>,
) -> First
    requires few { length rows.now < 2 ^ 16 }
    requires node { node < 2 ^ 16 }
    ensures { (old : Nodes) (at : ℕ) → IsWritten old (candidate_at rows.now) at was now → 16 * node ≤ at
        → at < 16 * node + 16 → IsSoonest old (16 * node) (16 * node + 16) first
        → IsSoonest (candidate_at rows.now) (16 * node) (16 * node + 16) (first_after first result) }
{
    match known_first(first, was, now) {
        Known::Stays => First::Stays,
        Known::IsWritten => First::Becomes(now),
        Known::Lost => First::Becomes(first_of_rows(rows, node)),
    }
}

/// What becomes of the first of the sixteen nodes below a node, of which one was written.
#[inline(always)]
pub(crate) fn updated_first_of_nodes(
    level: &[Option<Candidate>],
    node: usize,
    first: Option<Candidate>,
    was: Option<Candidate>,
    now: Option<Candidate>,
) -> First
    requires { node < 2 ^ 16 }
    ensures { (old : Nodes) (at : ℕ) → IsWritten old (node_at level.now) at was now → 16 * node ≤ at
        → at < 16 * node + 16 → IsSoonest old (16 * node) (16 * node + 16) first
        → IsSoonest (node_at level.now) (16 * node) (16 * node + 16) (first_after first result) }
{
    match known_first(first, was, now) {
        Known::Stays => First::Stays,
        Known::IsWritten => First::Becomes(now),
        Known::Lost => First::Becomes(first_of_nodes(level, node)),
    }
}
