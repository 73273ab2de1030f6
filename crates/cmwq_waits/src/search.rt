//! The search for a wait that could never end, among runs that wait.

ghost use Rattle.std.specs.Prelude.{◌≡◌, ◌<◌, ◌+◌, ◌++◌, ◌∷◌, [], Contains, IfOk, IfSome, filter, length, true};
ghost use Rattle.std.specs.Prelude.{vec_capacity};
ghost use Rattle.cmwq_core.specs.History.{past_in, queued_of_booked};
ghost use Rattle.cmwq_model.specs.Prelude.{has_numbers, is_started, still_open};
ghost use Rattle.cmwq_model.specs.declared.id.Who.TheVariants as who;
ghost use Rattle.cmwq_state.specs.Tables as tables;
ghost use Rattle.cmwq_theory_steps.specs.ItemQueueings.{queueing_run};
ghost use Rattle.cmwq_waits.specs.HeldUp.{AreWaiting};
ghost use Rattle.cmwq_waits.specs.Refused.{AreApart, Refuses, is_other, is_turned_away, item_taken_back, queued};
ghost use Rattle.cmwq_waits.specs.Refused.{refusal};
ghost use Rattle.cmwq_waits.specs.Registered.{refusal_of};

use crate::calls::{item_flushed, item_taken_back};
use crate::deadlock::never_ends;
use crate::look::Look;
use crate::run_wait::RunWait;
use crate::waits::Stuck;
use cmwq_core::Execution;
use cmwq_model::{Call, CallerId, ItemId, NoMemory, Queueing, Shape, Ticket, WorkerId};
use std::alloc::Global;
use std::marker::Model;

/// Room for a search among runs that wait. Contracts see for fewer than how many there is room.
#[derive(Drop)]
pub struct Search {
    /// Those that are still in the set that is looked for, and room for those that are after the next round.
    set: Vec<RunWait>,
    spare: Vec<RunWait>,
}

impl Model for Search {
    ghost use Rattle.std.specs.Prelude.{◌≡◌, vec_capacity, ℕ};

    ghost Value = { ℕ };

    ghost view = { λ s. vec_capacity s.set };

    ghost invariant = { λ s. vec_capacity s.spare ≡ vec_capacity s.set };
}

impl Search {
    /// Room for so many runs that wait, and one that is about to. The error says that memory ran out.
    pub fn new(alloc: Global, waits: u32) -> Result<Search, NoMemory>
        ensures { IfOk result (λ search. search ≡ waits + 1) }
    {
        let room = waits as usize + 1;
        Ok(Search {
            set: Vec::with_capacity(alloc, room)?,
            spare: Vec::with_capacity(alloc, room)?,
        })
    }

    /// Why a wait of what the worker runs, by this call, is refused where these wait already, if it is.
    pub fn refuses(
        &mut self,
        execution: &Execution,
        shape: &Shape,
        waits: &[RunWait],
        worker: WorkerId,
        call: Call,
    ) -> Option<Stuck>
        requires layout { execution.now.layout ≡ shape.now }
        requires numbers { has_numbers shape.now call ≡ true }
        requires worker { tables.IsThere shape.now (who.Worker worker) }
        requires waiting { AreWaiting (past_in execution.now) waits.now }
        requires apart { AreApart waits.now }
        requires room { length waits.now < self.old }
        ensures is { result ≡ refusal_of shape.now (past_in execution.now) waits.now worker call }
        ensures refused { IfSome (queueing_run (past_in execution.now) (who.Worker worker))
            (λ run. Refuses shape.now (past_in execution.now) waits.now run call result) }
        ensures same { self.new ≡ self.old }
    {
        let _legal = execution.len();
        match execution.state().queueing_run(worker) {
            Some(run) => self.refuses_run(execution, shape, waits, &run, call),
            None => None,
        }
    }

    /// The same of a wait of this run.
    fn refuses_run(
        &mut self,
        execution: &Execution,
        shape: &Shape,
        waits: &[RunWait],
        run: &Queueing,
        call: Call,
    ) -> Option<Stuck>
        requires layout { execution.now.layout ≡ shape.now }
        requires numbers { has_numbers shape.now call ≡ true }
        requires waiting { AreWaiting (past_in execution.now) waits.now }
        requires apart { AreApart waits.now }
        requires room { length waits.now < self.old }
        requires open { Contains (still_open (past_in execution.now)) run.now }
        requires started { is_started (past_in execution.now) run.now.number ≡ true }
        ensures refused { Refuses shape.now (past_in execution.now) waits.now run.now call result }
        ensures is { result ≡ refusal shape.now (past_in execution.now) waits.now run.now call }
        ensures same { self.new ≡ self.old }
    {
        let _legal = execution.len();
        if is_turned_away(execution, call) {
            return None;
        }
        let look = Look {
            state: execution.state(),
            shape,
            taken_back: item_taken_back(call),
            queued: queued(execution, call),
        };
        let ticket = Ticket {
            caller: CallerId(0),
            call,
            number: execution.len(),
        };
        if look.awaits_run(ticket, *run) {
            return Some(Stuck::Itself);
        }
        fill(&mut self.set, waits, RunWait { run: *run, ticket });
        if never_ends(&look, &mut self.set, &mut self.spare, run.number) {
            Some(Stuck::Circle)
        } else {
            None
        }
    }
}

/// Fills the list with the waits of other runs, and this one.
fn fill(set: &mut Vec<RunWait>, waits: &[RunWait], last: RunWait)
    requires { length waits.now < vec_capacity set.old }
    ensures items { set.new.items ≡ filter (is_other last.run.number) waits.now ++ last ∷ [] }
    ensures capacity { vec_capacity set.new ≡ vec_capacity set.old }
{
    set.clear();
    for wait in waits {
        if wait.run.number != last.run.number {
            set.push_reserved(*wait);
        }
    }
    set.push_reserved(last);
}

/// Whether the call waits for nothing, since its item is booked on a queue that is drained.
fn is_turned_away(execution: &Execution, call: Call) -> bool
    requires { has_numbers execution.now.layout call ≡ true }
    ensures { result ≡ is_turned_away (past_in execution.now) call }
{
    match item_flushed(call) {
        Some(item) => match execution.state().timer(item) {
            Some(timer) => execution.state().is_draining(timer.place.queue),
            None => false,
        },
        None => false,
    }
}

/// What the call queues of a booked item.
fn queued(execution: &Execution, call: Call) -> Option<Queueing>
    requires { has_numbers execution.now.layout call ≡ true }
    ensures { result ≡ queued (past_in execution.now) call }
{
    match item_flushed(call) {
        Some(item) => execution.queued_of_booked(item),
        None => None,
    }
}
