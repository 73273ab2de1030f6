//! A tournament of all timers: of each sixteen nodes of a level, the next level keeps the one that fires first. So what
//! a booking changes, and which timer is the first of all, takes some steps for each level, however many items there
//! are.

ghost use Rattle.std.specs.Prelude.{◌≡◌, ◌^◌, ◌<◌, ◌≤◌, None, IfOk, length, replicate, slice_set};
ghost use Rattle.cmwq_timer.specs.Due.{timer_may_fire};
ghost use Rattle.cmwq_timer.specs.Rows.{timer_of};
ghost use Rattle.cmwq_timer.specs.Tournament.{IsFirstUnder, any_timer};

use crate::candidate::{
    Candidate, FAN, First, candidate_at, node_at, sooner, updated_first_of_nodes,
    updated_first_of_rows,
};
use crate::timer::Timer;
use cmwq_model::ItemId;
use std::alloc::{AllocError, Global};
use std::marker::Model;

/// The levels below the last one, which has one node: rows, and nodes for each 16, 256 and 4096 items.
const LAST: u8 = 4;

/// The timers of all items, a row for each, and the levels above the rows.
#[derive(Drop)]
pub(crate) struct Tournament {
    rows: Vec<Option<Timer>>,
    low: Vec<Option<Candidate>>,
    middle: Vec<Option<Candidate>>,
    high: Vec<Option<Candidate>>,
    last: Option<Candidate>,
}

impl Model for Tournament {
    ghost use Rattle.std.specs.Prelude.{◌^◌, ◌<◌, vec_len};
    ghost use Rattle.cmwq_timer.specs.Rows.{TimerRows};
    ghost use Rattle.cmwq_timer.specs.Tournament.{AreLevels};

    ghost Value = { TimerRows };

    ghost view = { λ t. t.rows.items };

    ghost invariant = { λ t. (vec_len t.rows < 2 ^ 16)
        × AreLevels t.rows.items t.low.items t.middle.items t.high.items t.last };
}

impl Tournament {
    /// So many rows, and no timer.
    pub(crate) fn new(alloc: Global, items: u16) -> Result<Self, AllocError>
        ensures { IfOk result (λ tournament. tournament ≡ replicate items None) }
    {
        let items = usize::from(items);
        let low = items.div_ceil(FAN);
        let middle = low.div_ceil(FAN);
        let high = middle.div_ceil(FAN);
        Ok(Tournament {
            rows: vec![in alloc; None; items]?,
            low: vec![in alloc; None; low]?,
            middle: vec![in alloc; None; middle]?,
            high: vec![in alloc; None; high]?,
            last: None,
        })
    }

    pub(crate) fn len(&self) -> u16
        ensures { result ≡ length self.now }
    {
        self.rows.len() as u16
    }

    /// The timer of an item, if it is booked.
    pub(crate) fn timer(&self, item: ItemId) -> Option<Timer>
        requires { item.0 < length self.now }
        ensures { result ≡ timer_of self.now item.0 }
    {
        let place = usize::from(item.0);
        self.rows[place]
    }

    /// Writes an item's row, and each node above it up to one of which the first stays.
    pub(crate) fn set(&mut self, item: ItemId, timer: Option<Timer>)
        requires { item.0 < length self.old }
        ensures { self.new ≡ slice_set self.old item.0 timer }
    {
        let row = usize::from(item.0);
        let low = row / FAN;
        let middle = low / FAN;
        let high = middle / FAN;
        let was_row = candidate_at(&self.rows, row);
        self.rows[row] = timer;
        let now_row = candidate_at(&self.rows, row);
        let was_low = node_at(&self.low, low);
        let First::Becomes(now_low) = updated_first_of_rows(
            &self.rows, low, was_low, was_row, now_row,
        ) else {
            return;
        };
        self.low[low] = now_low;
        let was_middle = node_at(&self.middle, middle);
        let First::Becomes(now_middle) = updated_first_of_nodes(
            &self.low, middle, was_middle, was_low, now_low,
        ) else {
            return;
        };
        self.middle[middle] = now_middle;
        let was_high = node_at(&self.high, high);
        let First::Becomes(now_high) = updated_first_of_nodes(
            &self.middle,
            high,
            was_high,
            was_middle,
            now_middle,
        ) else {
            return;
        };
        self.high[high] = now_high;
        if let First::Becomes(now_last) = updated_first_of_nodes(
            &self.high, 0, self.last, was_high, now_high,
        ) {
            self.last = now_last;
        }
    }

    /// What a node keeps: of all items below it, the one that fires first.
    fn first_at(&self, level: u8, node: usize) -> Option<Candidate>
        requires { level ≤ 4 }
        ensures { IsFirstUnder any_timer self.now level node result }
    {
        match level {
            0 => candidate_at(&self.rows, node),
            1 => node_at(&self.low, node),
            2 => node_at(&self.middle, node),
            3 => node_at(&self.high, node),
            _ if node == 0 => self.last,
            _ => None,
        }
    }

    /// Of the items below a node that may fire, the one that fires first. It looks below those nodes alone where
    /// something is due that is held back.
    fn first_under(&self, level: u8, node: usize, now: u64, holds: &[u16]) -> Option<Candidate>
        requires { level ≤ 4 }
        ensures { IsFirstUnder (timer_may_fire now holds.now) self.now level node result }
    {
        let soonest = self.first_at(level, node)?;
        if soonest.timer.may_fire(now, holds) {
            return Some(soonest);
        }
        if level == 0 || now < soonest.timer.due {
            return None;
        }
        let mut first = None;
        for below in FAN * node..FAN * node + FAN {
            first = sooner(first, self.first_under(level - 1, below, now, holds));
        }
        first
    }

    /// Of the items that may fire, the one that fires first.
    pub(crate) fn first_due(&self, now: u64, holds: &[u16]) -> Option<Candidate>
        ensures { IsFirstUnder (timer_may_fire now holds.now) self.now 4 0 result }
    {
        self.first_under(LAST, 0, now, holds)
    }
}
