//! Where callers and workers stand, the gates and the locks, in a key.

ghost use Rattle.std.specs.Prelude.{◌≡◌, ◌++◌, IfOk};
ghost use Rattle.cmwq_model.specs.Prelude.{past_of};
ghost use Rattle.cmwq_key.specs.Codes.{codes, told_flag, told_list};
ghost use Rattle.cmwq_key.specs.Keys as spec;
ghost use Rattle.cmwq_key.specs.Numbered.{mark};

use crate::key::Key;
use crate::key::codes::{flag, push, push_all, push_flag};
use crate::key::numbered::Numbered;
use cmwq_json_script::Holder;
use cmwq_kinds::numbers_of_call;
use cmwq_model::Number;
use cmwq_play::{CallerAt, Doing, RunAt, Ticketed, WorkerAt};
use cmwq_state::State;
use std::alloc::AllocError;

/// What stands for a ticket by which a party waits: 0 once it is ended.
fn mark_of(state: &State, numbered: &Numbered, ticket: Number) -> u64
    ensures { result ≡ mark numbered.now.numbers (spec.still_unended (past_of state.now.entries) ticket) }
{
    let unended = if state.ticket(ticket).is_some() {
        Some(ticket)
    } else {
        None
    };
    numbered.mark(unended)
}

#[tactic(auto, using(crate::proofs::Coding::codes_more))]
fn push_wait(
    key: &mut Key,
    state: &State,
    numbered: &Numbered,
    wait: Ticketed,
) -> Result<(), AllocError>
    ensures { IfOk result
        (λ _. key.new.items ≡ key.old.items ++ codes (spec.told_wait (past_of state.now.entries) numbered.now wait)) }
{
    push(key, mark_of(state, numbered, wait.ticket))?;
    push_all(key, &numbers_of_call(wait.call))
}

#[tactic(auto, using(crate::proofs::Coding::codes_more))]
fn push_caller(
    key: &mut Key,
    state: &State,
    numbered: &Numbered,
    at: &CallerAt,
) -> Result<(), AllocError>
    ensures { IfOk result
        (λ _. key.new.items ≡ key.old.items
        ++ codes (spec.told_caller (past_of state.now.entries) numbered.now at.now)) }
{
    push_all(key, &[u64::from(at.id.0), at.next as u64])?;
    match at.wait {
        Some(wait) => {
            push(key, 1)?;
            push_wait(key, state, numbered, wait)
        }
        None => push(key, 0),
    }
}

/// Writes where callers stand.
pub(super) fn push_callers(
    key: &mut Key,
    state: &State,
    numbered: &Numbered,
    callers: &[CallerAt],
) -> Result<(), AllocError>
    ensures { IfOk result
        (λ _. key.new.items ≡ key.old.items
        ++ codes (told_list (spec.told_caller (past_of state.now.entries) numbered.now) callers.now)) }
{
    push(key, callers.len() as u64)?;
    for at in callers {
        push_caller(key, state, numbered, at)?;
    }
    Ok(())
}

#[tactic(auto, using(crate::proofs::Coding::codes_more))]
fn push_doing(
    key: &mut Key,
    state: &State,
    numbered: &Numbered,
    doing: Doing,
) -> Result<(), AllocError>
    ensures { IfOk result
        (λ _. key.new.items ≡ key.old.items ++ codes (spec.told_doing (past_of state.now.entries) numbered.now doing)) }
{
    match doing {
        Doing::Acts => push(key, 0),
        Doing::AtGate { gate, slept } => push_all(key, &[1, u64::from(gate), flag(slept)]),
        Doing::AtLock { lock, slept } => push_all(key, &[2, u64::from(lock), flag(slept)]),
        Doing::Waits { caller, wait } => {
            push_all(key, &[3, u64::from(caller)])?;
            push_wait(key, state, numbered, wait)
        }
    }
}

#[tactic(auto, using(crate::proofs::Coding::codes_more))]
fn push_run(key: &mut Key, state: &State, numbered: &Numbered, run: RunAt) -> Result<(), AllocError>
    ensures { IfOk result
        (λ _. key.new.items ≡ key.old.items ++ codes (spec.told_run (past_of state.now.entries) numbered.now run)) }
{
    push_all(key, &[u64::from(run.item.0), run.next as u64])?;
    push_doing(key, state, numbered, run.doing)
}

#[tactic(auto, using(crate::proofs::Coding::codes_more))]
fn push_worker(
    key: &mut Key,
    state: &State,
    numbered: &Numbered,
    at: &WorkerAt,
) -> Result<(), AllocError>
    ensures { IfOk result
        (λ _. key.new.items ≡ key.old.items
        ++ codes (spec.told_worker (past_of state.now.entries) numbered.now at.now)) }
{
    let pool = at.id.pool;
    push_all(
        key,
        &[
            u64::from(pool.cpu.0),
            flag(pool.high),
            u64::from(at.id.index),
        ],
    )?;
    match at.run {
        Some(run) => {
            push(key, 1)?;
            push_run(key, state, numbered, run)
        }
        None => push(key, 0),
    }
}

/// Writes where workers stand.
pub(super) fn push_workers(
    key: &mut Key,
    state: &State,
    numbered: &Numbered,
    workers: &[WorkerAt],
) -> Result<(), AllocError>
    ensures { IfOk result
        (λ _. key.new.items ≡ key.old.items
        ++ codes (told_list (spec.told_worker (past_of state.now.entries) numbered.now) workers.now)) }
{
    push(key, workers.len() as u64)?;
    for at in workers {
        push_worker(key, state, numbered, at)?;
    }
    Ok(())
}

/// Writes which gates are open.
pub(super) fn push_gates(key: &mut Key, gates: &[bool]) -> Result<(), AllocError>
    ensures { IfOk result (λ _. key.new.items ≡ key.old.items ++ codes (told_list told_flag gates.now)) }
{
    push(key, gates.len() as u64)?;
    for is_open in gates {
        push_flag(key, *is_open)?;
    }
    Ok(())
}

fn push_lock(key: &mut Key, holder: Option<Holder>) -> Result<(), AllocError>
    ensures { IfOk result (λ _. key.new.items ≡ key.old.items ++ codes (spec.told_lock holder)) }
{
    match holder {
        None => push(key, 0),
        Some(Holder::Caller(caller)) => push_all(key, &[1, u64::from(caller.0)]),
        Some(Holder::Run(item)) => push_all(key, &[2, u64::from(item.0)]),
    }
}

/// Writes who holds each lock.
pub(super) fn push_locks(key: &mut Key, locks: &[Option<Holder>]) -> Result<(), AllocError>
    ensures { IfOk result (λ _. key.new.items ≡ key.old.items ++ codes (told_list spec.told_lock locks.now)) }
{
    push(key, locks.len() as u64)?;
    for holder in locks {
        push_lock(key, *holder)?;
    }
    Ok(())
}

fn push_lent(key: &mut Key, caller: u8) -> Result<(), AllocError>
    ensures { IfOk result (λ _. key.new.items ≡ key.old.items ++ codes (spec.told_number caller)) }
{
    push(key, u64::from(caller))
}

/// Writes the callers that may be lent.
pub(super) fn push_free(key: &mut Key, free: &[u8]) -> Result<(), AllocError>
    ensures { IfOk result (λ _. key.new.items ≡ key.old.items ++ codes (told_list spec.told_number free.now)) }
{
    push(key, free.len() as u64)?;
    for caller in free {
        push_lent(key, *caller)?;
    }
    Ok(())
}
