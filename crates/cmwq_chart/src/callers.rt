//! The callers of a shape, and what is kept of each of them.
ghost use Rattle.std.specs.Prelude.{◌≡◌, ◌≤◌, ◌∷◌, ◌++◌, [], All, List, length, IfOk, OnOk};
ghost use Rattle.cmwq_model.specs.declared.entry.Entry.{Entry as TheEntry};
ghost use Rattle.cmwq_model.specs.declared.id.CallerId.{CallerId as TheCallerId};
ghost use Rattle.cmwq_model.specs.declared.id.Who.TheVariants.{Caller};
ghost use Rattle.cmwq_model.specs.Prelude.{past_of};
ghost use Rattle.cmwq_chart.specs.CallerWaits as waits;
ghost use Rattle.cmwq_chart.specs.Intervals as spec;

use crate::entries::push_if_some;
use crate::waits::{
    CallerLane, CallerWait, WaitSign, push_left, update_rows, wait_ended_in, wait_sign_in,
};
use cmwq_model::{CallerId, Entry, Shape};
use std::alloc::{AllocError, Global};

/// What is kept of a caller: whether it has entries, which tickets wait in its rows, its waits that ended, and where
/// their ends were asked for.
#[derive(Drop)]
pub(crate) struct CallerIntervals {
    pub(crate) caller: CallerId,
    pub(crate) has_entries: bool,
    pub(crate) rows: Vec<Option<u32>>,
    pub(crate) waits: Vec<CallerWait>,
    pub(crate) signs: Vec<WaitSign>,
}

impl CallerIntervals {
    /// What is kept of a caller before the first entry.
    #[tactic(auto, unfolding(crate::specs::CallerWaits::wait_rows, crate::specs::CallerWaits::waits_ended, crate::specs::CallerWaits::wait_signs_by))]
    fn new(alloc: Global, caller: CallerId) -> CallerIntervals
        ensures caller { result.caller ≡ caller }
        ensures kept { spec.IsCallerKept [] result }
    {
        CallerIntervals {
            caller,
            has_entries: false,
            rows: Vec::new(alloc),
            waits: Vec::new(alloc),
            signs: Vec::new(alloc),
        }
    }

    /// Takes one more entry, which is the caller's own, after these.
    pub(crate) fn take(&mut self, entries: &[Entry], entry: Entry) -> Result<(), AllocError>
        requires short { length entries.now ≤ 1073741824 }
        requires caller { entry.who ≡ Caller self.old.caller }
        requires kept { spec.IsCallerKept (past_of entries.now) self.old }
        ensures caller { OnOk result (self.new.caller ≡ self.old.caller) }
        ensures kept { OnOk result (spec.IsCallerKept (entry ∷ past_of entries.now) self.new) }
    {
        let place = entries.len() as u32;
        let wait = wait_ended_in(&self.rows, entry, self.caller, place);
        let sign = wait_sign_in(&self.rows, entry, self.caller, place);
        push_if_some(&mut self.waits, wait)?;
        push_if_some(&mut self.signs, sign)?;
        update_rows(&mut self.rows, entry, place)?;
        self.has_entries = true;
        Ok(())
    }

    /// Its lane.
    fn lane(&self) -> CallerLane
        ensures { (past : List TheEntry) → spec.IsCallerKept past self.now
            → result ≡ waits.caller_lane past self.now.caller }
    {
        CallerLane {
            caller: self.caller,
            rows: self.rows.len().min(64) as u8,
        }
    }
}

/// What a history shows of its callers: a lane for each, their waits, one caller after the other, and where the ends of
/// these were asked for.
#[derive(Drop)]
pub struct CallerShapes {
    pub lanes: Vec<CallerLane>,
    pub waits: Vec<CallerWait>,
    pub signs: Vec<WaitSign>,
}

impl CallerShapes {
    /// Adds what is shown of a caller after the others.
    #[tactic(auto, unfolding(crate::specs::CallerWaits::waits_by))]
    pub(crate) fn push(&mut self, own: &CallerIntervals) -> Result<(), AllocError>
        requires { length own.now.rows.items ≤ 1073741824 }
        ensures { (past : List TheEntry) (cs : List TheCallerId) → spec.IsCallerKept past own.now
            → spec.AreCallerShapes past cs self.old
            → OnOk result (spec.AreCallerShapes past (cs ++ own.now.caller ∷ []) self.new) }
    {
        self.lanes.push(own.lane())?;
        self.waits.extend_from_slice(&own.waits)?;
        push_left(&mut self.waits, &own.rows, own.caller)?;
        self.signs.extend_from_slice(&own.signs)?;
        Ok(())
    }
}

/// What is kept of each caller of a shape before the first entry, by their numbers.
pub(crate) fn first_callers(
    alloc: Global,
    shape: &Shape,
) -> Result<Vec<CallerIntervals>, AllocError>
    ensures { IfOk result (λ rows. spec.AreCallersKept shape.now [] rows.items) }
{
    let mut rows = Vec::new(alloc);
    for caller in 0..shape.counts().callers {
        rows.push(CallerIntervals::new(alloc, CallerId(caller)))?;
    }
    Ok(rows)
}
