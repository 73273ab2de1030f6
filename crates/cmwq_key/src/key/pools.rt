//! Queues, pools and workers, in a key.

ghost use Rattle.std.specs.Prelude.{◌≡◌, ◌<◌, ◌≤◌, ◌++◌, length, map, IfOk};
ghost use Rattle.std.specs.List.{flat_map, range_with_len};
ghost use Rattle.cmwq_model.specs.Prelude.{past_of, worklist};
ghost use Rattle.cmwq_model.specs.declared.id.Who.TheVariants.{Worker};
ghost use Rattle.cmwq_state.specs.Tables.{IsThere};
ghost use Rattle.cmwq_key.specs.Codes.{codes, told_list};
ghost use Rattle.cmwq_key.specs.Keys as spec;

use crate::key::Key;
use crate::key::codes::{flag, push, push_all};
use crate::key::numbered::Numbered;
use cmwq_model::{CpuId, PoolId, QueueId, Queueing, WorkerId};
use cmwq_state::State;
use std::alloc::AllocError;

fn push_queue(key: &mut Key, state: &State, queue: QueueId) -> Result<(), AllocError>
    requires { queue.0 < length state.now.layout.queues }
    ensures { IfOk result (λ _. key.new.items ≡ key.old.items
        ++ codes (spec.told_queue state.now.layout (past_of state.now.entries) queue.0)) }
{
    let max_active = u64::from(state.max_active(queue));
    push_all(key, &[flag(state.is_gone(queue)), max_active])
}

/// Writes the queues, of which there are so many.
#[tactic(auto, unfolding(crate::specs::Keys::told_queues))]
pub(super) fn push_queues(key: &mut Key, state: &State, queues: u8) -> Result<(), AllocError>
    requires { queues ≡ length state.now.layout.queues }
    ensures { IfOk result (λ _. key.new.items
        ≡ key.old.items ++ codes (spec.told_queues state.now.layout (past_of state.now.entries))) }
{
    for queue in 0..queues {
        push_queue(key, state, QueueId(queue))?;
    }
    Ok(())
}

/// What stands on a pool's worklist, in its order.
fn fill_listed(list: &mut Vec<Queueing>, state: &State, pool: PoolId) -> Result<(), AllocError>
    requires { pool.cpu.0 < state.now.layout.cpus }
    ensures { IfOk result
        (λ _. list.new.items ≡ worklist state.now.layout (past_of state.now.entries) pool) }
{
    list.clear();
    let mut next = state.first_listed(pool);
    // it shows that the history is legal, so that what it lists fits its shape
    let _length = state.len();
    while let Some(queueing) = next {
        list.push(queueing)?;
        next = state.listed_after(pool, queueing);
    }
    Ok(())
}

fn push_rank(key: &mut Key, numbered: &Numbered, queueing: Queueing) -> Result<(), AllocError>
    ensures { IfOk result (λ _. key.new.items ≡ key.old.items ++ codes (spec.told_rank numbered.now queueing)) }
{
    push(key, numbered.rank(queueing.number))
}

fn push_ranks(key: &mut Key, numbered: &Numbered, listed: &[Queueing]) -> Result<(), AllocError>
    ensures { IfOk result (λ _. key.new.items
        ≡ key.old.items ++ codes (told_list (spec.told_rank numbered.now) listed.now)) }
{
    push(key, listed.len() as u64)?;
    for queueing in listed {
        push_rank(key, numbered, *queueing)?;
    }
    Ok(())
}

/// Writes what a worker runs, and whether it sleeps and is enlisted.
fn push_slot(
    key: &mut Key,
    state: &State,
    numbered: &Numbered,
    worker: WorkerId,
) -> Result<(), AllocError>
    requires { IsThere state.now.layout (Worker worker) }
    ensures { IfOk result (λ _. key.new.items ≡ key.old.items
        ++ codes (spec.told_slot (past_of state.now.entries) numbered.now worker)) }
{
    let runs = numbered.mark(state.run(worker));
    let sleeps = flag(state.is_asleep(worker));
    push_all(key, &[runs, sleeps, flag(state.is_enlisted(worker))])
}

fn push_slots(
    key: &mut Key,
    state: &State,
    numbered: &Numbered,
    pool: PoolId,
    workers: u8,
) -> Result<(), AllocError>
    requires pool { pool.cpu.0 < state.now.layout.cpus }
    requires workers { workers ≡ state.now.layout.workers }
    ensures { IfOk result (λ _. key.new.items ≡ key.old.items
        ++ codes (spec.told_slots state.now.layout (past_of state.now.entries) numbered.now pool)) }
{
    for index in 0..workers {
        push_slot(key, state, numbered, WorkerId { pool, index })?;
    }
    Ok(())
}

#[tactic(auto, using(crate::proofs::Coding::codes_more))]
fn push_pool(
    key: &mut Key,
    state: &State,
    numbered: &Numbered,
    listed: &mut Vec<Queueing>,
    pool: PoolId,
    workers: u8,
) -> Result<(), AllocError>
    requires pool { pool.cpu.0 < state.now.layout.cpus }
    requires workers { workers ≡ state.now.layout.workers }
    ensures { IfOk result (λ _. key.new.items ≡ key.old.items
        ++ codes (spec.told_pool state.now.layout (past_of state.now.entries) numbered.now pool)) }
{
    fill_listed(listed, state, pool)?;
    push_ranks(key, numbered, listed)?;
    push_slots(key, state, numbered, pool, workers)
}

/// Writes both pools of a CPU.
#[tactic(auto, using(crate::proofs::Coding::codes_more))]
fn push_cpu(
    key: &mut Key,
    state: &State,
    numbered: &Numbered,
    listed: &mut Vec<Queueing>,
    cpu: CpuId,
    workers: u8,
) -> Result<(), AllocError>
    requires cpu { cpu.0 < state.now.layout.cpus }
    requires workers { workers ≡ state.now.layout.workers }
    ensures { IfOk result (λ _. key.new.items ≡ key.old.items
        ++ codes (spec.told_cpu state.now.layout (past_of state.now.entries) numbered.now cpu.0)) }
{
    let normal = PoolId { cpu, high: false };
    push_pool(key, state, numbered, listed, normal, workers)?;
    let high = PoolId { cpu, high: true };
    push_pool(key, state, numbered, listed, high, workers)
}

/// Writes the pools of all CPUs.
#[tactic(auto, unfolding(crate::specs::Keys::told_pools))]
pub(super) fn push_pools(
    key: &mut Key,
    state: &State,
    numbered: &Numbered,
    listed: &mut Vec<Queueing>,
    cpus: u8,
    workers: u8,
) -> Result<(), AllocError>
    requires cpus { cpus ≡ state.now.layout.cpus }
    requires workers { workers ≡ state.now.layout.workers }
    ensures { IfOk result (λ _. key.new.items ≡ key.old.items
        ++ codes (spec.told_pools state.now.layout (past_of state.now.entries) numbered.now)) }
{
    for cpu in 0..cpus {
        push_cpu(key, state, numbered, listed, CpuId(cpu), workers)?;
    }
    Ok(())
}
