ghost use Rattle.std.specs.Prelude.{◌≡◌, ◌<◌, ◌≤◌, [], length, is_ok, IfOk, IsOk, OnErr, IsTrue};
ghost use Rattle.cmwq_model.specs.Prelude.{fits, most_room, IsLegal, room_needed, opening};
ghost use Rattle.cmwq_model.specs.Legal as legal;
ghost use Rattle.cmwq_state.specs.State.{AreOfOneSize};
ghost use Rattle.cmwq_theory_steps.specs.Endings.{ending};
ghost use Rattle.cmwq_theory_steps.specs.TicketSteps.{ticket_ended};
ghost use Rattle.cmwq_core.specs.History.{past_in, next_entry, queued_of_booked, takes, takes_with, with_entry};
ghost use Rattle.cmwq_core.specs.History.{IsMark, is_ready};
ghost use Rattle.cmwq_core.specs.Plans.{IsPlan};
ghost use Rattle.cmwq_core.specs.Relied.{IsReliable};

use crate::effects::{done_by, effect_of, ended_by, next_entry as predicted, opened_by, queued_at};
use crate::entering::{enter, plan};
use crate::marks::bits_of;
use crate::plan::Plan;
use cmwq_model::{
    Call, Entry, ItemId, Mark, NoMemory, Number, Queueing, Reply, Shape, Ticket, Who,
};
use cmwq_state::State;
use std::alloc::Global;
use std::marker::Model;

/// There is no room for the entry and for what would be owed then, or for its ticks.
#[derive(Clone, Copy, Debug, PartialEq, Eq)]
pub struct Full;

/// A runtime of one thread that runs on: it answers without looking back, and keeps none of its history, which
/// contracts see whole.
#[derive(Drop)]
pub struct Execution {
    state: State,
}

impl Model for Execution {
    ghost use Rattle.cmwq_core.specs.History.{History};

    ghost Value = { History };

    ghost view = { λ c. c.state };
}

impl Execution {
    /// An execution with no entries. No later call takes memory, except `copy_from`; the error says that it ran out.
    pub fn new(alloc: Global, shape: &Shape, room: u64) -> Result<Execution, NoMemory>
        requires { room ≤ most_room }
        ensures { IfOk result (λ execution. execution ≡ record { layout = shape.now; room = room; entries = [] }) }
    {
        Ok(Execution {
            state: State::new(alloc, shape, room)?,
        })
    }

    /// Lets the execution go, as `State::end` does a state.
    pub fn end(self) {
        self.state.end();
    }

    /// Makes this a copy of another execution. Each goes on by itself then. Where both are of as many CPUs, workers,
    /// callers, items and queues, no memory is taken.
    ///
    /// # Errors
    /// `NoMemory` where it ran out. The execution is then the old one.
    pub fn copy_from(&mut self, other: &Execution) -> Result<(), NoMemory>
        ensures copy { IfOk result (λ done. self.new ≡ other.now) }
        ensures old { OnErr result (self.new ≡ self.old) }
        ensures succeeds { AreOfOneSize self.old.layout other.now.layout → IsOk result }
    {
        self.state.copy_from(&other.state)
    }

    /// How many entries there are.
    pub fn len(&self) -> u64
        ensures len { result ≡ length self.now.entries }
        ensures within { length self.now.entries ≤ self.now.room }
        ensures needed { room_needed self.now.layout (past_in self.now) ≤ self.now.room }
        ensures few { self.now.room ≤ most_room }
        ensures legal { IsLegal self.now.layout (past_in self.now) }
    {
        self.state.len()
    }

    /// What the call would be answered, whether or not there is room for it.
    #[inline(always)]
    pub fn reply(&self, who: Who, call: Call) -> Reply
        requires { IsTrue (fits self.now.layout who call) }
        ensures { result ≡ (next_entry self.now who call).reply }
    {
        predicted(&self.state, who, call).reply
    }

    /// The entry that a step of this call would append, with the bits that it leaves: `commit` makes it.
    ///
    /// # Errors
    /// `Full` where there is no room for the entry and for what would be owed then, exactly as at `step`.
    #[inline(always)]
    pub fn plan(&self, who: Who, call: Call) -> Result<Plan, Full>
        requires { IsTrue (fits self.now.layout who call) }
        ensures room { is_ok result ≡ takes self.now who call }
        ensures plan { IfOk result (λ plan. IsPlan self.now who call plan) }
    {
        let entry = predicted(&self.state, who, call);
        plan(&self.state, &entry)
    }

    /// The queueing that a planned entry ends.
    #[inline(always)]
    pub fn ended_by(&self, plan: &Plan) -> Option<Queueing>
        requires { (who : _) × (call : _) × IsPlan self.now who call plan.now }
        ensures { result ≡ ending (past_in self.now) plan.now.mark.entry }
    {
        ended_by(&self.state, plan.mark.entry)
    }

    /// The queueing that it opens.
    #[inline(always)]
    pub fn opened_by(&self, plan: &Plan) -> Option<Queueing>
        requires { (who : _) × (call : _) × IsPlan self.now who call plan.now }
        ensures { result ≡ opening (past_in self.now) plan.now.mark.entry }
    {
        opened_by(&self.state, plan.mark.entry)
    }

    /// The ticket that it ends.
    #[inline(always)]
    pub fn done_by(&self, plan: &Plan) -> Option<Ticket>
        requires { (who : _) × (call : _) × IsPlan self.now who call plan.now }
        ensures { result ≡ ticket_ended (past_in self.now) plan.now.mark.entry }
    {
        done_by(&self.state, plan.mark.entry)
    }

    /// The queueing that is opened of a booked item, if it is fired or flushed now.
    pub fn queued_of_booked(&self, item: ItemId) -> Option<Queueing>
        requires { item.0 < self.now.layout.items }
        ensures { result ≡ queued_of_booked (past_in self.now) item.0 }
    {
        let timer = self.state.timer(item)?;
        Some(queued_at(&self.state, item, timer.place))
    }

    /// Whether there is room for the call, with what would be owed then, and for so many entries more.
    pub fn has_room_with(&self, who: Who, call: Call, more: u32) -> bool
        requires { IsTrue (fits self.now.layout who call) }
        ensures { result ≡ takes_with self.now who call more }
    {
        let _few = self.state.len();
        let entry = predicted(&self.state, who, call);
        let effect = effect_of(&self.state, entry);
        self.state
            .has_room(call, effect.owing.saturating_add(u64::from(more)))
    }

    /// Makes the entry that was planned, and answers its reply. The execution is still the one that planned it.
    #[inline(always)]
    pub fn commit(&mut self, plan: &Plan) -> Reply
        requires { (who : _) × (call : _) × IsPlan self.old who call plan.now }
        ensures reply { result ≡ plan.now.mark.entry.reply }
        ensures entry { self.new ≡ with_entry self.old plan.now.mark.entry }
    {
        match enter::<()>(&mut self.state, &plan.mark.entry) {
            Ok(()) => plan.mark.entry.reply,
            Err(Full) => unreachable!(),
        }
    }

    /// What a step of this call would append, with the bits of the item that it can change.
    ///
    /// # Errors
    /// `Full` where there is no room for the entry and for what would be owed then, exactly as at `step`.
    pub fn would(&self, who: Who, call: Call) -> Result<Mark, Full>
        requires { IsTrue (fits self.now.layout who call) }
        ensures room { is_ok result ≡ takes self.now who call }
        ensures mark { IfOk result (λ mark. IsMark self.now who call mark) }
    {
        match self.plan(who, call) {
            Ok(plan) => Ok(plan.mark),
            Err(Full) => Err(Full),
        }
    }

    /// Makes the call: one entry more, which is answered.
    ///
    /// # Errors
    /// `Full` where there is no room for the entry and for what would be owed then. The execution is then the old one.
    #[inline(always)]
    pub fn next(&mut self, who: Who, call: Call) -> Result<Entry, Full>
        requires { IsTrue (fits self.old.layout who call) }
        ensures room { is_ok result ≡ takes self.old who call }
        ensures entry { IfOk result (λ entry. entry ≡ next_entry self.old who call) }
        ensures execution { IfOk result (λ entry. self.new ≡ with_entry self.old entry) }
        ensures full { OnErr result (self.new ≡ self.old) }
    {
        let entry = predicted(&self.state, who, call);
        enter::<()>(&mut self.state, &entry)?;
        Ok(entry)
    }

    /// Whether the ticket with this number stands and waits for nothing, so that its end would be answered done. False
    /// of any other number.
    pub fn ready(&self, ticket: Number) -> bool
        ensures { result ≡ is_ready (past_in self.now) ticket }
    {
        match self.state.ticket(ticket) {
            None => false,
            Some(ticket) => self.state.waits_for(ticket).is_none(),
        }
    }

    /// The bits of an item (`work_busy`): 1 if it is pending, plus 2 if it runs.
    pub fn bits(&self, item: ItemId) -> u8
        requires { item.0 < self.now.layout.items }
        ensures { result ≡ legal.bits (past_in self.now) item.0 }
    {
        bits_of(self.state.is_pending(item), self.state.is_running(item))
    }

    /// What stands after the entries: all that a state can be asked.
    pub fn state(&self) -> &State
        ensures { result.now ≡ self.now }
    {
        &self.state
    }

    /// What a user relies on holds of the history. Nothing runs but a look at its length.
    pub fn reliable(&self)
        ensures { IsReliable self.now.layout (past_in self.now) }
    {
        let _len = self.state.len();
    }
}
