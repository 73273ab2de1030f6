//! A script, with its callers and workers as they stand before the first move.

ghost use Rattle.std.specs.Prelude.{◌≡◌, ◌++◌, IfOk};
ghost use Rattle.cmwq_json_script.specs.Scripts.{run_of};
ghost use Rattle.cmwq_play.specs.Firsts.{callers_from, lent_from, of_cpu, of_pool, workers_from};
ghost use Rattle.cmwq_play.specs.Starts.{first_stand, most_moves, start_of};

use crate::place::{CallerAt, WorkerAt};
use cmwq_json_script::Script;
use cmwq_model::{CallerId, CpuId, PoolId, WorkerId};
use std::alloc::{AllocError, Global};

/// How many moves there are at most for an entry: itself, and two for each action of the run that it may begin.
const MOVES_FOR_AN_ENTRY: u64 = 129;

/// How many moves of a caller make no entry at most, and the one after which it is known that there is none.
const MOVES_OF_A_CALLER: u64 = 1_001;

/// A script, with its callers and workers as they stand before the first move.
#[derive(Drop)]
pub struct Setup<'a> {
    pub(crate) script: &'a Script,
    pub(crate) callers: Vec<CallerAt>,
    pub(crate) workers: Vec<WorkerAt>,
    /// The callers that may be lent, of which the last is lent first.
    pub(crate) lent: Vec<u8>,
}

/// The workers of a pool, after others.
#[tactic(auto, using(crate::proofs::First::pool_more))]
fn push_pool(workers: &mut Vec<WorkerAt>, pool: PoolId, count: u8) -> Result<(), AllocError>
    ensures { IfOk result (λ _. workers.new.items ≡ workers.old.items ++ of_pool count pool) }
{
    for index in 0..count {
        let id = WorkerId { pool, index };
        workers.push(WorkerAt { id, run: None })?;
    }
    Ok(())
}

/// The workers of both pools of a CPU, after others.
fn push_cpu(workers: &mut Vec<WorkerAt>, cpu: u8, count: u8) -> Result<(), AllocError>
    ensures { IfOk result (λ _. workers.new.items ≡ workers.old.items ++ of_cpu count cpu) }
{
    let cpu = CpuId(cpu);
    push_pool(workers, PoolId { cpu, high: false }, count)?;
    push_pool(workers, PoolId { cpu, high: true }, count)
}

/// The workers of so many CPUs, with so many in each pool.
#[tactic(auto, using(crate::proofs::First::workers_more))]
fn workers_at(alloc: Global, cpus: u8, count: u8) -> Result<Vec<WorkerAt>, AllocError>
    ensures { IfOk result (λ workers. workers.items ≡ workers_from cpus count) }
{
    let mut workers = Vec::new(alloc);
    for cpu in 0..cpus {
        push_cpu(&mut workers, cpu, count)?;
    }
    Ok(workers)
}

/// The callers of the script, before their first calls.
#[tactic(auto, using(crate::proofs::First::callers_more))]
fn callers_at(alloc: Global, count: usize) -> Result<Vec<CallerAt>, AllocError>
    ensures { IfOk result (λ callers. callers.items ≡ callers_from count) }
{
    let mut callers = Vec::new(alloc);
    for k in 0..count {
        let id = CallerId(k.min(255) as u8);
        callers.push(CallerAt {
            id,
            next: 0,
            wait: None,
        })?;
    }
    Ok(callers)
}

/// So many callers after the first of the script, which are lent.
#[tactic(auto, using(crate::proofs::First::lent_more))]
fn lent_at(alloc: Global, first: usize, count: u8) -> Result<Vec<u8>, AllocError>
    ensures { IfOk result (λ lent. lent.items ≡ lent_from first count) }
{
    let mut lent = Vec::new(alloc);
    for k in 0..count {
        let caller = first.saturating_add(usize::from(k)).min(255) as u8;
        lent.push(caller)?;
    }
    Ok(lent)
}

impl<'a> Setup<'a> {
    /// The callers and workers of a script.
    ///
    /// # Errors
    /// Want of memory.
    #[tactic(auto, unfolding(crate::specs::Starts::start_of, crate::specs::Starts::first_stand))]
    pub fn new(alloc: Global, script: &'a Script) -> Result<Setup<'a>, AllocError>
        ensures start { IfOk result (λ setup. start_of setup ≡ first_stand (run_of script.now)) }
        ensures script { IfOk result (λ setup. setup.script.now ≡ script.now) }
    {
        let counts = script.shape.counts();
        let first = script.callers.len();
        Ok(Setup {
            script,
            callers: callers_at(alloc, first)?,
            workers: workers_at(alloc, counts.cpus, counts.workers)?,
            lent: lent_at(alloc, first, script.waits)?,
        })
    }

    /// More moves than a schedule has: each makes an entry, is an action of a caller, of which one has at most 1,000,
    /// or belongs to one of at most 64 actions of a run, of which each begins with an entry.
    pub fn most_moves(&self) -> u64
        ensures { result ≡ most_moves (run_of self.now.script.now) }
    {
        let room = self.script.shape.counts().room;
        let callers = self.script.callers.len() as u64;
        let of_runs = room.saturating_mul(MOVES_FOR_AN_ENTRY);
        of_runs.saturating_add(callers.saturating_mul(MOVES_OF_A_CALLER))
    }

    /// The script.
    pub fn script(&self) -> &'a Script
        ensures { result ≡ self.now.script }
    {
        self.script
    }
}
