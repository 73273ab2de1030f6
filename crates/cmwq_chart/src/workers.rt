//! The workers of a shape, and what is kept of each of them.
ghost use Rattle.std.specs.Prelude.{◌≡◌, ◌≤◌, ◌∷◌, ◌++◌, [], All, List, length, map, flat_map, IfOk, OnOk};
ghost use Rattle.std.specs.List.{range_with_len};
ghost use Rattle.cmwq_model.specs.declared.entry.Entry.{Entry as TheEntry};
ghost use Rattle.cmwq_model.specs.declared.id.Who.TheVariants.{Worker};
ghost use Rattle.cmwq_model.specs.Prelude.{past_of, worker_at, workers};
ghost use Rattle.cmwq_chart.specs.Sleeps.{sleeps_by};
ghost use Rattle.cmwq_chart.specs.Intervals as spec;

use crate::entries::push_if_some;
use crate::sleeps::{Sleep, since_after, sleep_ended, sleep_since};
use cmwq_model::{CpuId, Entry, PoolId, Shape, WorkerId};
use std::alloc::{AllocError, Global};

/// What is kept of a worker: whether it has entries, its sleeps that ended, and since where it
/// sleeps.
#[derive(Drop)]
pub(crate) struct WorkerIntervals {
    pub(crate) worker: WorkerId,
    pub(crate) has_entries: bool,
    pub(crate) sleeps: Vec<Sleep>,
    pub(crate) since: Option<u32>,
}

impl WorkerIntervals {
    /// What is kept of a worker before the first entry.
    #[tactic(auto, unfolding(crate::specs::Sleeps::asleep_since, crate::specs::Sleeps::sleeps_ended))]
    fn new(alloc: Global, worker: WorkerId) -> WorkerIntervals
        ensures worker { result.worker ≡ worker }
        ensures kept { spec.IsWorkerKept [] result }
    {
        WorkerIntervals {
            worker,
            has_entries: false,
            sleeps: Vec::new(alloc),
            since: None,
        }
    }

    /// Takes one more entry, which is the worker's own, after these.
    pub(crate) fn take(&mut self, entries: &[Entry], entry: Entry) -> Result<(), AllocError>
        requires short { length entries.now ≤ 1073741824 }
        requires worker { entry.who ≡ Worker self.old.worker }
        requires kept { spec.IsWorkerKept (past_of entries.now) self.old }
        ensures worker { OnOk result (self.new.worker ≡ self.old.worker) }
        ensures kept { OnOk result (spec.IsWorkerKept (entry ∷ past_of entries.now) self.new) }
    {
        let place = entries.len() as u32;
        let sleep = sleep_ended(self.worker, entry.reply, self.since, place);
        push_if_some(&mut self.sleeps, sleep)?;
        self.since = since_after(entry.reply, place, self.since);
        self.has_entries = true;
        Ok(())
    }

    /// Adds its sleeps after the others.
    #[tactic(auto, unfolding(crate::specs::Sleeps::sleeps_by))]
    pub(crate) fn push_sleeps(&self, sleeps: &mut Vec<Sleep>) -> Result<(), AllocError>
        ensures { (past : List TheEntry) → spec.IsWorkerKept past self.now
            → OnOk result (sleeps.new.items ≡ sleeps.old.items ++ sleeps_by past self.now.worker) }
    {
        sleeps.extend_from_slice(&self.sleeps)?;
        push_if_some(sleeps, sleep_since(self.worker, self.since, None))
    }
}

/// Adds the workers of a pool after the others.
fn push_pool(
    alloc: Global,
    rows: &mut Vec<WorkerIntervals>,
    pool: PoolId,
    workers: u8,
) -> Result<(), AllocError>
    requires { All (spec.IsWorkerKept []) rows.old.items }
    ensures workers { OnOk result
        (map spec.worker_in rows.new.items
        ≡ map spec.worker_in rows.old.items ++ map (worker_at pool) (range_with_len 0 workers)) }
    ensures kept { OnOk result (All (spec.IsWorkerKept []) rows.new.items) }
{
    for index in 0..workers {
        rows.push(WorkerIntervals::new(alloc, WorkerId { pool, index }))?;
    }
    Ok(())
}

/// What is kept of each worker of a shape before the first entry, by CPU, pool and index.
pub(crate) fn first_workers(
    alloc: Global,
    shape: &Shape,
) -> Result<Vec<WorkerIntervals>, AllocError>
    ensures { IfOk result (λ rows. spec.AreWorkersKept shape.now [] rows.items) }
{
    let counts = shape.counts();
    let mut rows = Vec::new(alloc);
    for cpu in 0..counts.cpus {
        let cpu = CpuId(cpu);
        push_pool(
            alloc,
            &mut rows,
            PoolId { cpu, high: false },
            counts.workers,
        )?;
        push_pool(alloc, &mut rows, PoolId { cpu, high: true }, counts.workers)?;
    }
    Ok(rows)
}

/// The number of a worker among those of a shape with so many workers in each pool.
pub(crate) fn worker_number(worker: WorkerId, workers: u8) -> usize
    ensures { result ≡ spec.worker_number workers worker }
{
    let workers = usize::from(workers);
    let high = if worker.pool.high { workers } else { 0 };
    2 * workers * usize::from(worker.pool.cpu.0) + high + usize::from(worker.index)
}

/// The workers that have entries.
pub(crate) fn lanes_of(alloc: Global, rows: &[WorkerIntervals]) -> Result<Vec<WorkerId>, AllocError>
    ensures { IfOk result (λ lanes. lanes.items ≡ spec.lanes_in rows.now) }
{
    rows.iter()
        .filter(|own| own.has_entries)
        .map(|own| own.worker)
        .collect(alloc)
}
