//! Which runs wait, and which waits are refused.

ghost use Rattle.std.specs.Prelude.{◌≡◌, [], Some, filter, is_some, true, vec_capacity, IfOk};
ghost use Rattle.cmwq_core.specs.History.{past_in};
ghost use Rattle.cmwq_model.specs.Prelude.{has_numbers};
ghost use Rattle.cmwq_model.specs.declared.id.Who.TheVariants as who;
ghost use Rattle.cmwq_state.specs.Tables as tables;
ghost use Rattle.cmwq_waits.specs.HeldUp.{AreWaiting};
ghost use Rattle.cmwq_waits.specs.Refused.{AreApart, is_other};
ghost use Rattle.cmwq_waits.specs.Registered.{refusal_of, registered};
ghost use Rattle.cmwq_play.specs.Waiting as spec;
ghost use Rattle.cmwq_play.specs.Waiting.{noted, noted_at, waits_in};

use crate::machine::Machine;
use crate::place::{Doing, WorkerAt};
use cmwq_core::{Execution, those_who_fit_are_there};
use cmwq_model::{Call, CallerId, NoMemory, Number, Shape, Who, WorkerId};
use cmwq_waits::{RunWait, Search};
use std::alloc::{AllocError, Global};
use std::marker::Model;

/// Runs that wait, and room to look whether one more may. Contracts see the runs, in the order in which they were
/// added.
#[derive(Drop)]
pub(crate) struct Waits {
    list: Vec<RunWait>,
    search: Search,
}

impl Model for Waits {
    ghost use Rattle.std.specs.Prelude.{◌≡◌, ◌+◌, List, vec_capacity};
    ghost use Rattle.cmwq_waits.specs.declared.run_wait.RunWait.{RunWait};

    ghost Value = { List RunWait };

    ghost view = { λ w. w.list.items };

    ghost invariant = { λ w. w.search ≡ vec_capacity w.list + 1 };
}

impl Waits {
    /// No run waits. There is room for one run of each worker of the shape. The error says that memory ran out.
    pub(crate) fn new(alloc: Global, shape: &Shape) -> Result<Waits, NoMemory>
        ensures { IfOk result (λ waits. waits ≡ []) }
    {
        let counts = shape.counts();
        let workers = 2 * u32::from(counts.cpus) * u32::from(counts.workers);
        Ok(Waits {
            list: Vec::with_capacity(alloc, workers as usize)?,
            search: Search::new(alloc, workers)?,
        })
    }

    /// No run waits.
    fn clear(&mut self)
        ensures { self.new ≡ [] }
    {
        self.list.clear();
    }

    /// Adds a wait, in place of another one of its run. The error says that there was no room for it.
    fn add(&mut self, wait: RunWait) -> Result<(), AllocError>
        ensures { IfOk result (λ _. self.new ≡ registered self.old (Some wait)) }
    {
        keep_others(&mut self.list, wait.run.number);
        if self.list.len() >= self.list.capacity() {
            return Err(AllocError);
        }
        self.list.push_reserved(wait);
        Ok(())
    }

    /// Whether a wait of what the worker runs, by this call, is refused where these wait.
    fn refuses(
        &mut self,
        execution: &Execution,
        shape: &Shape,
        worker: WorkerId,
        call: Call,
    ) -> bool
        requires layout { execution.now.layout ≡ shape.now }
        requires numbers { has_numbers shape.now call ≡ true }
        requires worker { tables.IsThere shape.now (who.Worker worker) }
        requires waiting { AreWaiting (past_in execution.now) self.old }
        requires apart { AreApart self.old }
        ensures { result ≡ is_some (refusal_of shape.now (past_in execution.now) self.old worker call) }
    {
        self.search
            .refuses(execution, shape, &self.list, worker, call)
            .is_some()
    }
}

/// Keeps the waits of other runs than the one with this number.
fn keep_others(waits: &mut Vec<RunWait>, run: Number)
    ensures items { waits.new.items ≡ filter (is_other run) waits.old.items }
    ensures capacity { vec_capacity waits.new ≡ vec_capacity waits.old }
{
    waits.retain(|wait| wait.run.number != run);
}

/// Notes that what the worker runs waits for this ticket of the caller. Each worker has one run, so there is space for
/// it, unless the play was made for a shape with fewer workers.
#[tactic(auto, unfolding(crate::specs::Waiting::noted))]
fn note(
    waits: &mut Waits,
    machine: &Machine<'_>,
    worker: WorkerId,
    caller: CallerId,
    ticket: Number,
) -> Result<(), AllocError>
    ensures { IfOk result (λ _. waits.new ≡ noted machine.now waits.old worker caller ticket) }
{
    let shape = machine.shape();
    let call = Call::End { ticket };
    if !shape.fits(Who::Worker(worker), Call::Sleep) || !shape.fits(Who::Caller(caller), call) {
        return Ok(());
    }
    those_who_fit_are_there();
    let state = machine.execution().state();
    let Some(run) = state.queueing_run(worker) else {
        return Ok(());
    };
    let Some(ticket) = state.ticket_of(Who::Caller(caller), ticket) else {
        return Ok(());
    };
    waits.add(RunWait { run, ticket })
}

/// Notes the wait of this worker's run, if it waits.
#[tactic(auto, unfolding(crate::specs::Waiting::noted_at))]
fn note_at(waits: &mut Waits, machine: &Machine<'_>, at: &WorkerAt) -> Result<(), AllocError>
    ensures { IfOk result (λ _. waits.new ≡ noted_at machine.now waits.old at.now) }
{
    let Some(run) = at.run else {
        return Ok(());
    };
    match run.doing {
        Doing::Waits { caller, wait } => {
            note(waits, machine, at.id, CallerId(caller), wait.ticket)
        }
        Doing::Acts | Doing::AtGate { .. } | Doing::AtLock { .. } => Ok(()),
    }
}

/// Notes the waits of all runs that wait, and no others.
#[tactic(auto, unfolding(crate::specs::Waiting::waits_in))]
fn note_all(
    waits: &mut Waits,
    machine: &Machine<'_>,
    workers: &[WorkerAt],
) -> Result<(), AllocError>
    ensures { IfOk result (λ _. waits.new ≡ waits_in machine.now workers.now) }
{
    waits.clear();
    for at in workers {
        note_at(waits, machine, at)?;
    }
    Ok(())
}

/// Whether a wait of what the worker runs could never end, or would be for that run. These workers have the runs that
/// wait.
#[tactic(auto, unfolding(crate::specs::Waiting::is_refused))]
pub(crate) fn is_refused(
    waits: &mut Waits,
    machine: &Machine<'_>,
    workers: &[WorkerAt],
    worker: WorkerId,
    call: Call,
) -> Result<bool, AllocError>
    requires { has_numbers machine.now.layout call ≡ true }
    ensures { IfOk result (λ is. is ≡ spec.is_refused machine.now workers.now worker call) }
{
    let shape = machine.shape();
    if !shape.fits(Who::Worker(worker), Call::Sleep) {
        return Ok(false);
    }
    those_who_fit_are_there();
    let _legal = machine.entries();
    note_all(waits, machine, workers)?;
    Ok(waits.refuses(machine.execution(), shape, worker, call))
}
