//! The runtime of a play, with its history: calls that make no sense there change nothing.

ghost use Rattle.std.specs.Prelude.{◌≡◌, ◌≤◌, [], IfOk, IfSome, length, take};
ghost use Rattle.cmwq_model.specs.Prelude.{IsLegal};
ghost use Rattle.cmwq_core.specs.History.{past_in};
ghost use Rattle.cmwq_play.specs.Machines as spec;

use crate::place::Ticketed;
use cmwq_core::{Execution, Full};
use cmwq_model::{
    Call, CallerId, Entry, ItemId, NoMemory, Number, Queueing, Reply, Shape, Who, WorkerId,
};
use std::alloc::{AllocError, Global};
use std::marker::Model;

/// How many entries a run makes that waits: it sleeps, and it wakes.
const SLEEP_AND_WAKE: u32 = 2;

/// A runtime with all its entries.
#[derive(Drop)]
pub struct Machine<'a> {
    shape: &'a Shape,
    execution: Execution,
    entries: Vec<Entry>,
}

impl<'a> Model for Machine<'a> {
    ghost use Rattle.std.specs.Prelude.{◌≡◌};
    ghost use Rattle.cmwq_core.specs.History.{History};

    ghost Value = { History };

    ghost view = { λ m. m.execution };

    ghost invariant = { λ m. (m.execution.layout ≡ m.shape.now) × (m.entries.items ≡ m.execution.entries) };
}

/// What came of a whole call.
#[derive(Clone, Copy, Debug)]
pub enum Called {
    /// There was no room for it.
    NoRoom,
    /// It made its entries, and waits for nothing.
    Whole,
    /// It waits.
    Waits(Ticketed),
}

impl<'a> Machine<'a> {
    /// A runtime of this shape, with no entries.
    pub fn new(alloc: Global, shape: &'a Shape) -> Result<Machine<'a>, AllocError>
        ensures { IfOk result (λ m. m ≡ record { layout = shape.now; room = shape.now.room; entries = [] }) }
    {
        let room = shape.counts().room;
        let execution = match Execution::new(alloc, shape, room) {
            Ok(execution) => execution,
            Err(NoMemory) => return Err(AllocError),
        };
        Ok(Machine {
            shape,
            execution,
            entries: Vec::new(alloc),
        })
    }

    /// Becomes a copy of the other one, in the tables that it has. Both have the same first entries, so many of them,
    /// which are not copied. Where memory runs out it stays as it is.
    pub fn copy_after(&mut self, other: &Machine<'a>, same: usize) -> Result<(), AllocError>
        requires within { same ≤ length other.now.entries }
        requires same { take same self.old.entries ≡ take same other.now.entries }
        ensures { IfOk result (λ _. self.new ≡ other.now) }
    {
        let more = &other.entries[same..];
        self.entries.reserve(more.len())?;
        if self.execution.copy_from(&other.execution).is_err() {
            return Err(AllocError);
        }
        self.shape = other.shape;
        self.entries.truncate(same);
        self.entries.extend_from_slice(more)
    }

    pub fn shape(&self) -> &'a Shape
        ensures { result.now ≡ self.now.layout }
    {
        self.shape
    }

    pub fn execution(&self) -> &Execution
        ensures { result.now ≡ self.now }
    {
        &self.execution
    }

    /// The entries, the oldest first.
    pub fn entries(&self) -> &[Entry]
        ensures entries { result.now ≡ self.now.entries }
        ensures legal { IsLegal self.now.layout (past_in self.now) }
    {
        let _legal = self.execution.len();
        &self.entries
    }

    /// Makes a call of one entry, if there is room for it.
    #[tactic(auto, unfolding(crate::specs::Machines::stepped, crate::specs::Machines::replied))]
    pub fn step(&mut self, who: Who, call: Call) -> Result<Option<Reply>, AllocError>
        ensures history { IfOk result (λ _. self.new ≡ spec.stepped self.old who call) }
        ensures reply { IfOk result (λ reply. reply ≡ spec.replied self.old who call) }
    {
        if !self.shape.fits(who, call) {
            return Ok(None);
        }
        self.entries.reserve(1)?;
        match self.execution.next(who, call) {
            Ok(entry) => {
                self.entries.push_reserved(entry);
                Ok(Some(entry.reply))
            }
            Err(Full) => Ok(None),
        }
    }

    /// What a call of one entry would be answered, if there is room for it.
    #[tactic(auto, unfolding(crate::specs::Machines::replied))]
    pub fn would(&self, who: Who, call: Call) -> Option<Reply>
        ensures { result ≡ spec.replied self.now who call }
    {
        if !self.shape.fits(who, call) {
            return None;
        }
        let planned = self.execution.plan(who, call);
        match &planned {
            Ok(plan) => Some(plan.mark.entry.reply),
            Err(Full) => None,
        }
    }

    /// The item that an idle worker would start. Of most there is none, and then no room is looked for.
    #[tactic(auto, using(crate::proofs::Starting::starts_nothing))]
    pub fn would_start(&self, worker: WorkerId) -> Option<ItemId>
        ensures { result ≡ spec.starts self.now worker }
    {
        let (who, call) = (Who::Worker(worker), Call::Take);
        if !self.shape.fits(who, call) {
            return None;
        }
        match self.execution.reply(who, call).number_started() {
            Some(_) => self.planned_start(worker),
            None => None,
        }
    }

    /// The same, for a worker that is thought to start one.
    #[tactic(auto, unfolding(crate::specs::Machines::starts, crate::specs::Machines::replied))]
    fn planned_start(&self, worker: WorkerId) -> Option<ItemId>
        ensures { result ≡ spec.starts self.now worker }
    {
        let (who, call) = (Who::Worker(worker), Call::Take);
        if !self.shape.fits(who, call) {
            return None;
        }
        let planned = self.execution.plan(who, call);
        match &planned {
            Ok(plan) if plan.mark.entry.reply.number_started().is_some() => plan.mark.item,
            _ => None,
        }
    }

    /// The queueing of this item that hasn't started.
    pub fn unstarted(&self, item: ItemId) -> Option<Queueing> {
        let (who, call) = (Who::Caller(CallerId(0)), Call::Cancel { item });
        if !self.shape.fits(who, call) {
            return None;
        }
        let planned = self.execution.plan(who, call);
        match &planned {
            Ok(plan) => self.execution.ended_by(plan),
            Err(Full) => None,
        }
    }

    /// Whether a wait would end now. If it would not, no room is looked for.
    #[tactic(auto, using(crate::proofs::Ending::never_ends), unfolding(crate::specs::Machines::ends))]
    pub fn would_end(&self, who: Who, ticket: Number) -> bool
        ensures { result ≡ spec.ends self.now who ticket }
    {
        let call = Call::End { ticket };
        if !self.shape.fits(who, call) {
            return false;
        }
        if !self.execution.reply(who, call).is_done() {
            return false;
        }
        match self.would(who, call) {
            Some(reply) => reply.is_done(),
            None => false,
        }
    }

    /// Whether there is room for a whole wait of what the worker runs, by a call of this caller: for its sleep, and for
    /// the call with what is owed then and two entries more.
    #[tactic(auto, unfolding(crate::specs::Machines::has_wait_room, crate::specs::Machines::replied))]
    pub fn has_wait_room(&self, worker: WorkerId, caller: CallerId, call: Call) -> bool
        ensures { result ≡ spec.has_wait_room self.now worker caller call }
    {
        let who = Who::Caller(caller);
        if self.would(Who::Worker(worker), Call::Sleep).is_none() || !self.shape.fits(who, call) {
            return false;
        }
        self.execution.has_room_with(who, call, SLEEP_AND_WAKE)
    }

    /// Whether the worker would be sent to the reserve.
    #[tactic(auto, unfolding(crate::specs::Machines::retires))]
    pub fn would_retire(&self, worker: WorkerId) -> bool
        ensures { result ≡ spec.retires self.now worker }
    {
        match self.would(Who::Worker(worker), Call::Retire) {
            Some(reply) => reply.is_retired(),
            None => false,
        }
    }

    /// Fires what is due, as far as there is room, and at most as many times as there are items.
    pub fn fire_all(&mut self, who: Who) -> Result<(), AllocError>
        ensures { IfOk result (λ _. self.new ≡ spec.fired self.old.layout.items self.old who) }
    {
        let items = self.shape.counts().items;
        for _ in 0..items {
            let Some(reply) = self.step(who, Call::Fire)? else {
                return Ok(());
            };
            if reply.is_nothing() {
                return Ok(());
            }
        }
        Ok(())
    }

    /// Ends a wait; after that of a drain it fires what is due.
    #[tactic(auto, unfolding(crate::specs::Machines::ended))]
    pub fn end(&mut self, who: Who, wait: Ticketed) -> Result<(), AllocError>
        ensures { IfOk result (λ _. self.new ≡ spec.ended self.old who wait) }
    {
        let ticket = wait.ticket;
        self.step(who, Call::End { ticket })?;
        if wait.call.is_drain() {
            self.fire_all(who)
        } else {
            Ok(())
        }
    }

    /// Makes a whole call: a tick fires what is due, and a wait ends if it may end at once.
    #[tactic(auto, unfolding(crate::specs::Machines::called))]
    pub fn call(&mut self, who: Who, call: Call) -> Result<Called, AllocError>
        ensures { IfOk result (λ called. record { history = self.new; outcome = called }
            ≡ spec.called self.old who call) }
    {
        let Some(reply) = self.step(who, call)? else {
            return Ok(Called::NoRoom);
        };
        if call.is_tick() {
            self.fire_all(who)?;
            return Ok(Called::Whole);
        }
        match reply.ticket() {
            Some(ticket) => self.begin(who, Ticketed { ticket, call }),
            None => Ok(Called::Whole),
        }
    }

    /// A wait has begun: it ends if it may end at once.
    fn begin(&mut self, who: Who, wait: Ticketed) -> Result<Called, AllocError>
        ensures { IfOk result (λ called. record { history = self.new; outcome = called }
            ≡ spec.begun self.old who wait) }
    {
        if self.would_end(who, wait.ticket) {
            self.end(who, wait)?;
            Ok(Called::Whole)
        } else {
            Ok(Called::Waits(wait))
        }
    }
}
