//! The runs that wait by callers that are lent, so that a wait that could never end is refused.

ghost use Rattle.std.specs.Prelude.{◌≡◌, ◌≤◌, ◌+◌, ◌++◌, IfOk, length, option_to_list, true, vec_capacity};
ghost use Rattle.cmwq_core.specs.History.{past_in};
ghost use Rattle.cmwq_model.specs.Prelude.{has_numbers};
ghost use Rattle.cmwq_model.specs.declared.id.Who.TheVariants as who;
ghost use Rattle.cmwq_state.specs.Tables as tables;
ghost use Rattle.cmwq_theory_steps.specs.ItemQueueings.{queueing_run};
ghost use Rattle.cmwq_waits.specs.Registered.{refusal_of};
ghost use Rattle.cmwq_board.specs.Lent.{AreLent, RunsWaitOnce};
ghost use Rattle.cmwq_board.specs.Runs.{wait_in, waits_in};

use crate::entering::has_worker;
use crate::lending::Lending;
use cmwq_core::Execution;
use cmwq_model::{Call, NoMemory, Queueing, Shape, WorkerId};
use cmwq_waits::{RunWait, Search, Stuck};
use std::alloc::Global;
use std::marker::Model;

/// Room for the runs that wait, and for a search among them. Contracts see for how many runs there is room.
#[derive(Drop)]
pub(crate) struct Runs {
    /// Filled before each search.
    waits: Vec<RunWait>,
    search: Search,
}

impl Model for Runs {
    ghost use Rattle.std.specs.Prelude.{◌≡◌, ◌+◌, vec_capacity, ℕ};

    ghost Value = { ℕ };

    ghost view = { λ r. vec_capacity r.waits };

    ghost invariant = { λ r. r.search ≡ vec_capacity r.waits + 1 };
}

impl Runs {
    /// Room for the waits of so many callers. The error says that memory ran out.
    pub(crate) fn new(alloc: Global, callers: u8) -> Result<Runs, NoMemory>
        ensures { IfOk result (λ runs. runs ≡ callers) }
    {
        Ok(Runs {
            waits: Vec::with_capacity(alloc, usize::from(callers))?,
            search: Search::new(alloc, u32::from(callers))?,
        })
    }

    /// Why a wait of what the worker runs, by this call, is refused where runs wait by these callers, if it is.
    pub(crate) fn refuses(
        &mut self,
        execution: &Execution,
        shape: &Shape,
        lent: &[Lending],
        worker: WorkerId,
        call: Call,
    ) -> Option<Stuck>
        requires layout { execution.now.layout ≡ shape.now }
        requires numbers { has_numbers shape.now call ≡ true }
        requires worker { tables.IsThere shape.now (who.Worker worker) }
        requires lent { AreLent shape.now (past_in execution.now) lent.now }
        requires once { RunsWaitOnce lent.now }
        requires room { length lent.now ≤ self.old }
        ensures is { result
            ≡ refusal_of shape.now (past_in execution.now) (waits_in (past_in execution.now) lent.now) worker call }
        ensures same { self.new ≡ self.old }
    {
        let _legal = execution.len();
        fill(&mut self.waits, execution, shape, lent);
        self.search
            .refuses(execution, shape, &self.waits, worker, call)
    }
}

/// Fills the list with the waits of runs by these callers.
fn fill(waits: &mut Vec<RunWait>, execution: &Execution, shape: &Shape, lent: &[Lending])
    requires layout { execution.now.layout ≡ shape.now }
    requires room { length lent.now ≤ vec_capacity waits.old }
    ensures items { waits.new.items ≡ waits_in (past_in execution.now) lent.now }
    ensures capacity { vec_capacity waits.new ≡ vec_capacity waits.old }
{
    waits.clear();
    for lending in lent {
        let wait = wait_in(execution, shape, *lending);
        add(waits, wait);
    }
}

/// Adds a wait, if there is one.
fn add(waits: &mut Vec<RunWait>, wait: Option<RunWait>)
    requires { length waits.old.items + length (option_to_list wait) ≤ vec_capacity waits.old }
    ensures items { waits.new.items ≡ waits.old.items ++ option_to_list wait }
    ensures capacity { vec_capacity waits.new ≡ vec_capacity waits.old }
{
    if let Some(wait) = wait {
        waits.push_reserved(wait);
    }
}

/// The wait of the run that waits by a caller that does this.
fn wait_in(execution: &Execution, shape: &Shape, lending: Lending) -> Option<RunWait>
    requires { execution.now.layout ≡ shape.now }
    ensures { result ≡ wait_in (past_in execution.now) lending }
{
    let Lending::Waits {
        ticket,
        run: Some(worker),
        ..
    } = lending
    else {
        return None;
    };
    let run = queueing_run(execution, shape, worker)?;
    Some(RunWait { run, ticket })
}

/// What the worker runs.
fn queueing_run(execution: &Execution, shape: &Shape, worker: WorkerId) -> Option<Queueing>
    requires { execution.now.layout ≡ shape.now }
    ensures { result ≡ queueing_run (past_in execution.now) (who.Worker worker) }
{
    let _legal = execution.len();
    if !has_worker(shape, worker) {
        return None;
    }
    execution.state().queueing_run(worker)
}
