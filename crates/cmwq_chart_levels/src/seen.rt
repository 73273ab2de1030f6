//! What is kept of a history while it is read.
ghost use Rattle.std.specs.Prelude.{◌≡◌, ◌<◌, ◌≤◌, ◌∷◌, ◌++◌, [], List, length, map, option_to_list, IfOk, OnOk};
ghost use Rattle.std.specs.List.{range_with_len};
ghost use Rattle.cmwq_model.specs.declared.record.Queueing.{Queueing as TheQueueing};
ghost use Rattle.cmwq_history.specs.Steps.{after};
ghost use Rattle.cmwq_chart.specs.Levels as spec;
ghost use Rattle.cmwq_chart.specs.Marks.{AreMarks};
ghost use Rattle.cmwq_chart_levels.specs.Seen.{AreLevels};

use crate::affected::place_number;
use crate::levels::{push, update_affected};
use cmwq_chart::{Height, Intervals, Level, mark};
use cmwq_history::{Fold, Step};
use cmwq_model::{CpuId, Entry, MOST_CPUS, NoMemory, Place, QueueId, Queueing, Shape};
use cmwq_state::Effect;
use std::alloc::Global;

/// No more entries than these are kept, so that a place among them has 32 bits.
const MOST_KEPT: u64 = 1_073_741_824;

/// What is kept of a history while it is read: its entries, the intervals of its callers and workers, which queues had
/// queueings on which CPUs, and the levels of all queues on all CPUs, those that an entry ended and those that go on.
#[derive(Drop)]
pub struct Seen {
    pub entries: Vec<Entry>,
    pub(crate) intervals: Intervals,
    pub(crate) used: Vec<bool>,
    pub(crate) ended: Vec<Level>,
    pub(crate) running: Vec<Level>,
}

/// The level of a queue on a CPU before the first entry.
fn first_level(shape: &Shape, queue: u8, cpu: u8) -> Level
    requires { queue < length shape.now.queues }
    ensures { result ≡ spec.level_until shape.now [] None (spec.place_on queue cpu) }
{
    Level {
        place: Place {
            queue: QueueId(queue),
            cpu: CpuId(cpu),
        },
        height: Height {
            open_count: 0,
            active_count: 0,
            width: shape.queues()[usize::from(queue)].max_active.into(),
        },
        from: 0,
        to: None,
    }
}

/// Adds the levels of a queue before the first entry after the others.
fn push_queue(levels: &mut Vec<Level>, shape: &Shape, queue: u8) -> Result<(), NoMemory>
    requires { queue < length shape.now.queues }
    ensures { OnOk result
        (levels.new.items ≡ levels.old.items ++ spec.levels_left shape.now [] (spec.places_of_queue shape.now queue)) }
{
    for cpu in 0..shape.counts().cpus {
        push(levels, first_level(shape, queue, cpu))?;
    }
    Ok(())
}

/// The levels of all queues on all CPUs before the first entry.
fn first_levels(alloc: Global, shape: &Shape) -> Result<Vec<Level>, NoMemory>
    ensures { IfOk result (λ levels. levels.items ≡ spec.levels_left shape.now [] (spec.all_places shape.now)) }
{
    // it shows that the queues are few
    let _counts = shape.counts();
    let mut levels = Vec::new(alloc);
    for queue in 0..shape.queues().len() {
        push_queue(&mut levels, shape, queue as u8)?;
    }
    Ok(levels)
}

/// The number of the place of a queueing, if a shape may have its CPU.
fn place_number_of(queueing: Queueing) -> Option<usize>
    ensures { result ≡ spec.level_number_of queueing }
{
    if queueing.place.cpu.0 < MOST_CPUS {
        Some(place_number(queueing.place))
    } else {
        None
    }
}

/// Marks the place of a queueing that is opened.
fn mark_opened(used: &mut Vec<bool>, opened: Option<Queueing>)
    ensures { (queueings : List TheQueueing) → AreMarks spec.level_number_of queueings spec.most_places used.old.items
        → AreMarks spec.level_number_of (queueings ++ option_to_list opened) spec.most_places used.new.items }
{
    match opened {
        Some(queueing) => mark(used, place_number_of(queueing)),
        None => {}
    }
}

/// Takes the levels beyond an entry.
fn update_all(
    ended: &mut Vec<Level>,
    running: &mut Vec<Level>,
    step: &Step<'_, Effect>,
) -> Result<(), NoMemory>
    requires short { length step.now.past ≤ 1073741824 }
    requires levels { AreLevels step.now.layout step.now.past ended.old.items running.old.items }
    ensures { OnOk result (AreLevels step.now.layout (after step.now) ended.new.items running.new.items) }
{
    // it shows that the places are in order
    let _effect = step.told();
    update_affected(ended, running, step)?;
    Ok(())
}

/// Adds an entry after the others.
fn push_entry(entries: &mut Vec<Entry>, entry: Entry) -> Result<(), NoMemory>
    ensures { OnOk result (entries.new.items ≡ entries.old.items ++ entry ∷ []) }
{
    match entries.push(entry) {
        Ok(()) => Ok(()),
        Err(_) => Err(NoMemory),
    }
}

impl Fold for Seen {
    ghost use Rattle.cmwq_chart_levels.specs.Seen.{IsSeen};

    type Told = Effect;

    ghost is_of = { λ s past seen. IsSeen s past seen };

    fn begin(alloc: Global, shape: &Shape) -> Result<Self, NoMemory> {
        Ok(Seen {
            entries: Vec::new(alloc),
            intervals: Intervals::new(alloc, shape)?,
            used: vec![in alloc; false; 16_320]?,
            ended: Vec::new(alloc),
            running: first_levels(alloc, shape)?,
        })
    }

    fn take(&mut self, step: &Step<'_, Effect>) -> Result<(), NoMemory> {
        if step.at() >= MOST_KEPT {
            return Err(NoMemory);
        }
        let entry = *step.entry();
        let effect = step.told();
        self.intervals.take(&self.entries, entry, effect.started)?;
        push_entry(&mut self.entries, entry)?;
        update_all(&mut self.ended, &mut self.running, step)?;
        mark_opened(&mut self.used, effect.opened);
        Ok(())
    }
}
