//! The intervals of a history, kept while its entries come.
ghost use Rattle.std.specs.Prelude.{◌≡◌, ◌<◌, ◌∷◌, [], List, length, IfOk, OnOk};
ghost use Rattle.cmwq_model.specs.declared.entry.Entry.{Entry as TheEntry};
ghost use Rattle.cmwq_model.specs.Prelude.{past_of, IsLegal, Layout};
ghost use Rattle.cmwq_chart.specs.Bars.{bars_of, started_by};
ghost use Rattle.cmwq_chart.specs.Lanes.{lanes_of};
ghost use Rattle.cmwq_chart.specs.Sleeps.{sleeps_of};
ghost use Rattle.cmwq_chart.specs.Signs.{signs_of};
ghost use Rattle.cmwq_chart.specs.CallerWaits.{callers_of};
ghost use Rattle.cmwq_chart.specs.Intervals as spec;

use crate::bars::{Bar, bar_begun, ended_bars, update_finishes};
use crate::callers::{CallerIntervals, CallerShapes, first_callers};
use crate::entries::push_if_some;
use crate::signs::{Sign, sign_of};
use crate::sleeps::Sleep;
use crate::workers::{WorkerIntervals, first_workers, lanes_of, worker_number};
use cmwq_model::{Entry, NoMemory, Queueing, Shape, Who, WorkerId};
use std::alloc::{AllocError, Global};

/// What is kept of a history of a shape: of each caller and each worker its intervals, and of all the bars, where each
/// queueing has finished, and the signs.
#[derive(Drop)]
pub struct Intervals {
    pub(crate) shape: Shape,
    pub(crate) callers: Vec<CallerIntervals>,
    pub(crate) workers: Vec<WorkerIntervals>,
    pub(crate) bars: Vec<Bar>,
    pub(crate) finishes: Vec<Option<u32>>,
    pub(crate) signs: Vec<Sign>,
}

impl Intervals {
    /// Those before the first entry.
    pub fn new(alloc: Global, shape: &Shape) -> Result<Intervals, NoMemory>
        ensures { IfOk result (spec.AreIntervals shape.now []) }
    {
        Ok(Intervals {
            shape: shape.copy(alloc)?,
            callers: first_callers(alloc, shape)?,
            workers: first_workers(alloc, shape)?,
            bars: Vec::new(alloc),
            finishes: Vec::new(alloc),
            signs: Vec::new(alloc),
        })
    }

    /// Takes one more entry after these, which starts this queueing.
    pub fn take(
        &mut self,
        entries: &[Entry],
        entry: Entry,
        started: Option<Queueing>,
    ) -> Result<(), NoMemory>
        requires short { length entries.now < 1073741824 }
        requires legal { IsLegal self.old.shape (entry ∷ past_of entries.now) }
        requires started { started ≡ started_by (past_of entries.now) entry }
        requires kept { spec.AreIntervals self.old.shape (past_of entries.now) self.old }
        ensures { OnOk result (spec.AreIntervals self.old.shape (entry ∷ past_of entries.now) self.new) }
    {
        push_if_some(&mut self.signs, sign_of(entry, entries.len() as u32))?;
        push_if_some(&mut self.bars, bar_begun(entries, entry, started))?;
        update_finishes(&mut self.finishes, entries, entry)?;
        match entry.who {
            Who::Caller(caller) => {
                self.callers[usize::from(caller.0)].take(entries, entry)?;
            }
            Who::Worker(worker) => {
                let number = worker_number(worker, self.shape.counts().workers);
                self.workers[number].take(entries, entry)?;
            }
        }
        Ok(())
    }

    /// What is shown of the callers that have entries.
    pub fn callers(&self, alloc: Global) -> Result<CallerShapes, AllocError>
        requires { (s : Layout) × (past : List TheEntry) × spec.AreIntervals s past self.now }
        ensures { (s : Layout) (past : List TheEntry) → spec.AreIntervals s past self.now
            → IfOk result (spec.AreCallerShapes past (callers_of s past)) }
    {
        let mut shapes = CallerShapes {
            lanes: Vec::new(alloc),
            waits: Vec::new(alloc),
            signs: Vec::new(alloc),
        };
        for own in &self.callers {
            if own.has_entries {
                shapes.push(own)?;
            }
        }
        Ok(shapes)
    }

    /// The workers that have entries, by CPU, pool and index.
    pub fn lanes(&self, alloc: Global) -> Result<Vec<WorkerId>, AllocError>
        ensures { (s : Layout) (past : List TheEntry) → spec.AreIntervals s past self.now
            → IfOk result (λ lanes. lanes.items ≡ lanes_of s past) }
    {
        let lanes = lanes_of(alloc, &self.workers)?;
        Ok(lanes)
    }

    /// Their sleeps, one worker after the other.
    pub fn sleeps(&self, alloc: Global) -> Result<Vec<Sleep>, AllocError>
        ensures { (s : Layout) (past : List TheEntry) → spec.AreIntervals s past self.now
            → IfOk result (λ sleeps. sleeps.items ≡ sleeps_of past (lanes_of s past)) }
    {
        let mut sleeps = Vec::new(alloc);
        for own in &self.workers {
            if own.has_entries {
                own.push_sleeps(&mut sleeps)?;
            }
        }
        Ok(sleeps)
    }

    /// The bars of all runs, in the order of their starts.
    pub fn bars(&self, alloc: Global) -> Result<Vec<Bar>, AllocError>
        ensures { (s : Layout) (past : List TheEntry) → spec.AreIntervals s past self.now
            → IfOk result (λ bars. bars.items ≡ bars_of past) }
    {
        let bars = ended_bars(alloc, &self.bars, &self.finishes)?;
        Ok(bars)
    }

    /// The signs of all entries, in their order.
    pub fn signs(&self, alloc: Global) -> Result<Vec<Sign>, AllocError>
        ensures { (s : Layout) (past : List TheEntry) → spec.AreIntervals s past self.now
            → IfOk result (λ signs. signs.items ≡ signs_of past) }
    {
        let mut signs = Vec::new(alloc);
        signs.extend_from_slice(&self.signs)?;
        Ok(signs)
    }
}
