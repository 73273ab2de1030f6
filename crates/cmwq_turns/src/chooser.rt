//! Who of those that want a turn gets it: a function of a seed, and of who wants one.

use cmwq_model::NoMemory;
use std::alloc::Global;

/// How turns are given.
#[derive(Clone, Copy, Debug, PartialEq, Eq)]
pub enum Schedule {
    /// Each of those that want a turn is as likely to get it as any other.
    Uniform,
    /// The one of highest priority gets it. All priorities are drawn at first. At so many turns, drawn among the first
    /// `turns`, the priority of the one whose turn it would be falls below all of these (probabilistic concurrency
    /// testing). So few bugs stay hidden that need a few switches at the right moments.
    Priorities { changes: u8, turns: u32 },
}

/// Numbers that follow from a seed (splitmix64).
#[derive(Clone, Copy)]
struct Generator {
    state: u64,
}

impl Generator {
    fn draw(&mut self) -> u64 {
        self.state = self.state.wrapping_add(0x9e37_79b9_7f4a_7c15);
        let mut z = self.state;
        z = (z ^ (z >> 30)).wrapping_mul(0xbf58_476d_1ce4_e5b9);
        z = (z ^ (z >> 27)).wrapping_mul(0x94d0_49bb_1331_11eb);
        z ^ (z >> 31)
    }

    /// A number below this one, or 0.
    fn below(&mut self, bound: u64) -> u64 {
        let drawn = self.draw();
        if bound == 0 { 0 } else { drawn % bound }
    }
}

/// All priorities that are drawn at first are this great or greater.
const FIRST: u64 = 1 << 62;

/// Those that a change sets lie between this and `FIRST`, and those of who had too many turns in a row below.
const CHANGED: u64 = 1 << 32;

/// After so many turns in a row, one gets no further turn while others want one: it may wait for them.
const MOST_IN_A_ROW: u32 = 1_000;

/// In one of so many turns time goes by although somebody wants a turn.
const HASTE: u64 = 8;

/// Gives turns, by a schedule and a seed. It takes no memory after `new`.
#[derive(Drop)]
pub(crate) struct Chooser {
    generator: Generator,
    is_uniform: bool,
    /// By party. The order is the shape's.
    priorities: Vec<u64>,
    /// The turns at which a priority changes.
    changes: Vec<u64>,
    /// The priority of the next one that has had too many turns in a row.
    lowest: u64,
    last: usize,
    in_a_row: u32,
}

impl Chooser {
    pub(crate) fn new(
        alloc: Global,
        parties: usize,
        schedule: Schedule,
        seed: u64,
    ) -> Result<Chooser, NoMemory> {
        let mut chooser = Chooser {
            generator: Generator { state: seed },
            is_uniform: true,
            priorities: Vec::new(alloc),
            changes: Vec::new(alloc),
            lowest: CHANGED,
            last: 0,
            in_a_row: 0,
        };
        if let Schedule::Priorities { changes, turns } = schedule {
            chooser.is_uniform = false;
            chooser.draw_priorities(parties)?;
            chooser.draw_changes(changes, turns)?;
        }
        Ok(chooser)
    }

    fn draw_priorities(&mut self, parties: usize) -> Result<(), NoMemory> {
        for _ in 0..parties {
            let drawn = self.generator.draw();
            if self.priorities.push(FIRST | drawn).is_err() {
                return Err(NoMemory);
            }
        }
        Ok(())
    }

    fn draw_changes(&mut self, changes: u8, turns: u32) -> Result<(), NoMemory> {
        for _ in 0..changes {
            let drawn = self.generator.below(u64::from(turns));
            if self.changes.push(drawn).is_err() {
                return Err(NoMemory);
            }
        }
        Ok(())
    }

    /// Whether time goes by at this turn although somebody wants one.
    pub(crate) fn is_hasty(&mut self) -> bool {
        self.generator.below(HASTE) == 0
    }

    /// Which of these parties gets this turn, counted from 0. None of them, only if there is none.
    pub(crate) fn choose(&mut self, turn: u64, wanting: &[usize]) -> Option<usize> {
        if self.is_uniform {
            let place = self.generator.below(wanting.len() as u64);
            return wanting.get(place as usize).copied();
        }
        self.change_at(turn, wanting);
        let first = self.first_of(wanting)?;
        self.note(first, wanting.len());
        self.first_of(wanting)
    }

    /// The one of highest priority, or the first of several.
    fn first_of(&self, wanting: &[usize]) -> Option<usize> {
        let mut first = None;
        let mut highest = 0u64;
        for party in wanting {
            let priority = self.priorities.get(*party).copied().unwrap_or(0);
            if first.is_none() || priority > highest {
                first = Some(*party);
                highest = priority;
            }
        }
        first
    }

    /// Lowers the priority of the one whose turn it would be, if there is a change at this turn.
    fn change_at(&mut self, turn: u64, wanting: &[usize]) {
        for k in 0..self.changes.len() {
            let is_at = self.changes.get(k).is_some_and(|change| *change == turn);
            if is_at {
                if let Some(first) = self.first_of(wanting) {
                    self.set_priority(first, CHANGED.saturating_add(k as u64).saturating_add(1));
                }
            }
        }
    }

    /// Counts the turns in a row of this one. After too many others are to come first.
    fn note(&mut self, first: usize, wanting: usize) {
        if first != self.last || wanting < 2 {
            self.last = first;
            self.in_a_row = 0;
            return;
        }
        self.in_a_row = self.in_a_row.saturating_add(1);
        if self.in_a_row >= MOST_IN_A_ROW {
            self.in_a_row = 0;
            self.lowest = self.lowest.saturating_sub(1);
            let lowest = self.lowest;
            self.set_priority(first, lowest);
        }
    }

    fn set_priority(&mut self, party: usize, priority: u64) {
        if let Some(old) = self.priorities.get_mut(party) {
            *old = priority;
        }
    }
}
