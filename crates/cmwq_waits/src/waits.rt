//! Which runs wait by a history, so that a wait that could never end is refused.

ghost use Rattle.std.specs.Prelude.{◌≡◌, ◌<◌, ◌++◌, ◌∷◌, [], IfOk, IfSome, None, length, true};
ghost use Rattle.std.specs.Prelude.{filter, if◌then◌else◌, option_to_list, vec_capacity, vec_len, ◌≤◌, ◌+◌};
ghost use Rattle.cmwq_core.specs.History.{past_in};
ghost use Rattle.cmwq_core.specs.Plans.{IsPlan};
ghost use Rattle.cmwq_model.specs.Prelude.{has_numbers, ticket_in};
ghost use Rattle.cmwq_model.specs.declared.id.Who.TheVariants as who;
ghost use Rattle.cmwq_state.specs.Tables as tables;
ghost use Rattle.cmwq_theory_steps.specs.ItemQueueings.{queueing_run};
ghost use Rattle.cmwq_waits.specs.Begun.{HasWaitsOf, is_lent, is_sleep, wait_by, waits_of};
ghost use Rattle.cmwq_waits.specs.Refused.{Refuses};
ghost use Rattle.cmwq_waits.specs.Registered.{is_for, is_run_of, refusal_of, still_waits};

use crate::run_wait::RunWait;
use crate::search::Search;
use cmwq_core::{Execution, Plan};
use cmwq_model::{
    Call, CallerId, Entry, NoMemory, Number, Queueing, Reply, Shape, Ticket, Who, WorkerId,
};
use std::alloc::Global;
use std::marker::Model;

/// Why a run's wait could never end.
#[derive(Clone, Copy, Debug, PartialEq, Eq)]
pub enum Stuck {
    /// It would wait for the run itself, which ends after it.
    Itself,
    /// It would wait for what cannot end or start before this run, or runs that wait for it, have ended.
    Circle,
}

/// The runs that wait by the entries so far. Callers from a number on are lent to runs: a wait begins where a lent
/// caller is given a ticket in the entry right after a run fell asleep.
#[derive(Drop)]
pub struct RunWaits {
    /// The number of the first caller that is lent.
    first: u8,
    /// What the last entry laid to sleep.
    laid: Option<Queueing>,
    /// In the order in which they began to.
    waits: Vec<RunWait>,
    search: Search,
}

impl Model for RunWaits {
    ghost use Rattle.std.specs.Prelude.{◌≡◌, ◌+◌, vec_capacity};
    ghost use Rattle.cmwq_waits.specs.Begun.{Registry, registry};

    ghost Value = { Registry };

    ghost view = { λ r. registry r.first r.laid r.waits.items (vec_capacity r.waits) };

    ghost invariant = { λ r. r.search ≡ vec_capacity r.waits + 1 };
}

impl RunWaits {
    /// No run waits, since there is no entry. No later call takes memory; the error says that it ran out.
    pub fn new(alloc: Global, shape: &Shape, first: CallerId) -> Result<RunWaits, NoMemory>
        ensures first { IfOk result (λ waits. waits.first ≡ first.0) }
        ensures none { IfOk result (λ waits. HasWaitsOf shape.now [] waits) }
    {
        let counts = shape.counts();
        let workers = 2 * u32::from(counts.cpus) * u32::from(counts.workers);
        Ok(RunWaits {
            first: first.0,
            laid: None,
            waits: Vec::with_capacity(alloc, workers as usize)?,
            search: Search::new(alloc, workers)?,
        })
    }

    /// The number of the first caller that is lent to runs.
    pub fn first_lent(&self) -> CallerId
        ensures { result.0 ≡ self.now.first }
    {
        CallerId(self.first)
    }

    /// Callers from this number on are lent to runs.
    pub fn lends_from(&mut self, first: CallerId)
        ensures { self.new ≡ record self.old { first = first.0 } }
    {
        self.first = first.0;
    }

    /// This entry is planned, and is made next. It may end waits, and it may begin one.
    pub fn enters(&mut self, execution: &Execution, plan: &Plan)
        requires plan { (who : _) × (call : _) × IsPlan execution.now who call plan.now }
        requires before { HasWaitsOf execution.now.layout (past_in execution.now) self.old }
        ensures after { HasWaitsOf execution.now.layout (plan.now.mark.entry ∷ past_in execution.now) self.new }
        ensures first { self.new.first ≡ self.old.first }
    {
        let entry = plan.mark.entry;
        let run = run_by(execution, plan);
        let done = execution.done_by(plan);
        let begun = wait_begun(self.first, &self.laid, &entry, execution.len());
        keep(&mut self.waits, &run, &done);
        add(&mut self.waits, begun);
        self.laid = laid_by(entry.reply, run);
    }

    /// Why a wait of what the worker runs, by this call, is refused, if it is.
    pub fn refuses(
        &mut self,
        execution: &Execution,
        shape: &Shape,
        worker: WorkerId,
        call: Call,
    ) -> Option<Stuck>
        requires layout { execution.now.layout ≡ shape.now }
        requires numbers { has_numbers shape.now call ≡ true }
        requires worker { tables.IsThere shape.now (who.Worker worker) }
        requires waits { HasWaitsOf execution.now.layout (past_in execution.now) self.old }
        ensures is { result
            ≡ refusal_of shape.now (past_in execution.now) (waits_of self.old.first (past_in execution.now)) worker
            call }
        ensures refused { IfSome (queueing_run (past_in execution.now) (who.Worker worker))
            (λ run. Refuses shape.now (past_in execution.now) (waits_of self.old.first (past_in execution.now)) run call
            result) }
        ensures same { self.new ≡ self.old }
    {
        let _legal = execution.len();
        self.search
            .refuses(execution, shape, &self.waits, worker, call)
    }
}

/// What the worker runs whose entry is planned.
fn run_by(execution: &Execution, plan: &Plan) -> Option<Queueing>
    requires { (who : _) × (call : _) × IsPlan execution.now who call plan.now }
    ensures { result ≡ queueing_run (past_in execution.now) plan.now.mark.entry.who }
{
    match plan.mark.entry.who {
        Who::Worker(worker) => execution.state().queueing_run(worker),
        Who::Caller(_) => None,
    }
}

/// The wait that this entry begins, which has this number, where the entry before laid this to sleep.
fn wait_begun(first: u8, laid: &Option<Queueing>, entry: &Entry, number: Number) -> Option<RunWait>
    ensures { result ≡ (if is_lent first entry.now.who then wait_by laid.now (ticket_in entry.now number) else None) }
{
    if !is_lent(first, entry.who) {
        return None;
    }
    match (laid, entry.ticket(number)) {
        (Some(run), Some(ticket)) => Some(RunWait { run: *run, ticket }),
        _ => None,
    }
}

/// Whether it is a caller that is lent to runs.
fn is_lent(first: u8, who: Who) -> bool
    ensures { result ≡ is_lent first who }
{
    match who {
        Who::Caller(caller) => first <= caller.0,
        Who::Worker(_) => false,
    }
}

/// What an entry with this reply lays to sleep, of a worker that runs this.
fn laid_by(reply: Reply, run: Option<Queueing>) -> Option<Queueing>
    ensures { result ≡ (if is_sleep reply then run else None) }
{
    match reply {
        Reply::Slept => run,
        _ => None,
    }
}

/// Adds a wait, if there is one.
fn add(waits: &mut Vec<RunWait>, wait: Option<RunWait>)
    requires { length waits.old.items + length (option_to_list wait) ≤ vec_capacity waits.old }
    ensures items { waits.new.items ≡ waits.old.items ++ option_to_list wait }
    ensures len { vec_len waits.new ≤ vec_capacity waits.new }
    ensures capacity { vec_capacity waits.new ≡ vec_capacity waits.old }
{
    if let Some(wait) = wait {
        waits.push_reserved(wait);
    }
}

/// Keeps the waits that are neither of the run of this queueing nor for this ticket.
fn keep(waits: &mut Vec<RunWait>, ended: &Option<Queueing>, done: &Option<Ticket>)
    ensures items { waits.new.items ≡ filter (still_waits ended.now done.now) waits.old.items }
    ensures len { vec_len waits.new ≤ vec_len waits.old }
    ensures capacity { vec_capacity waits.new ≡ vec_capacity waits.old }
{
    waits.retain(|wait| !is_run(wait, ended) && !is_ticket(wait, done));
}

/// Whether the wait is of the run of this queueing.
fn is_run(wait: &RunWait, queueing: &Option<Queueing>) -> bool
    ensures { result ≡ is_run_of queueing.now wait.now }
{
    match queueing {
        Some(queueing) => wait.run.number == queueing.number,
        None => false,
    }
}

/// Whether the wait is for this ticket.
fn is_ticket(wait: &RunWait, ticket: &Option<Ticket>) -> bool
    ensures { result ≡ is_for ticket.now wait.now }
{
    match ticket {
        Some(ticket) => wait.ticket.number == ticket.number,
        None => false,
    }
}
