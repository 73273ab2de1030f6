ghost use Rattle.std.specs.Prelude.{◌≡◌, ◌<◌, ◌≤◌, [], length, count_by, is_ok, IfOk, OnErr, IsTrue};
ghost use Rattle.cmwq_model.specs.Prelude.{fits, IsLegal, still_open, room_needed, is_active};
ghost use Rattle.cmwq_model.specs.Calls as calls;
ghost use Rattle.cmwq_model.specs.Legal as legal;
ghost use Rattle.cmwq_state.specs.Tables as tables;
ghost use Rattle.cmwq_core.specs.History.{past_in, next_entry, takes, with_entry, IsMark, is_ready};
ghost use Rattle.cmwq_core.specs.Plans.{IsPlan};
ghost use Rattle.cmwq_core.specs.Relied.{IsReliable};

use crate::execution::{Execution, Full};
use crate::plan::Plan;
use cmwq_model::{Call, Entry, ItemId, Mark, NoMemory, Number, Reply, Shape, Who};
use std::alloc::Global;
use std::marker::Model;

/// The runtime of one thread that keeps its whole history.
#[derive(Drop)]
pub struct Book {
    execution: Execution,
    entries: Vec<Entry>,
}

impl Model for Book {
    ghost use Rattle.std.specs.Prelude.{◌≡◌, ◌≤◌};
    ghost use Rattle.std.specs.Vec.{vec_capacity};
    ghost use Rattle.cmwq_core.specs.History.{History};

    ghost Value = { History };

    ghost view = { λ b. b.execution };

    ghost invariant = { λ b. (b.entries.items ≡ b.execution.entries) × (b.execution.room ≤ vec_capacity b.entries)
        × (b.execution.room ≤ 1010000) };
}

impl Book {
    /// A book with no entries. No later call takes memory; the error says that it ran out.
    pub fn new(alloc: Global, shape: &Shape, room: u64) -> Result<Book, NoMemory>
        requires { room ≤ 1010000 }
        ensures { IfOk result (λ book. book ≡ record { layout = shape.now; room = room; entries = [] }) }
    {
        Ok(Book {
            entries: Vec::with_capacity(alloc, room as usize)?,
            execution: Execution::new(alloc, shape, room)?,
        })
    }

    /// How many entries there are.
    pub fn len(&self) -> u64
        ensures len { result ≡ length self.now.entries }
        ensures within { length self.now.entries ≤ self.now.room }
        ensures needed { room_needed self.now.layout (past_in self.now) ≤ self.now.room }
        ensures few { self.now.room ≤ 1010000 }
        ensures legal { IsLegal self.now.layout (past_in self.now) }
    {
        self.execution.len()
    }

    /// The serial of the next entry of this caller or worker: how many entries it has.
    pub fn serial(&self, who: Who) -> u64
        requires { tables.IsThere self.now.layout who }
        ensures { result ≡ calls.serial_of (past_in self.now) who }
    {
        self.execution.state().serial(who)
    }

    /// What the call would be answered, whether or not there is room for it.
    pub fn reply(&self, who: Who, call: Call) -> Reply
        requires { IsTrue (fits self.now.layout who call) }
        ensures { result ≡ (next_entry self.now who call).reply }
    {
        self.execution.reply(who, call)
    }

    /// The entry that a step of this call would append, found with what it ends and opens, and with the bits that it
    /// leaves: `commit` makes it.
    ///
    /// # Errors
    /// `Full` where there is no room for the entry and for what would be owed then, exactly as at `step`.
    pub fn plan(&self, who: Who, call: Call) -> Result<Plan, Full>
        requires { IsTrue (fits self.now.layout who call) }
        ensures room { is_ok result ≡ takes self.now who call }
        ensures plan { IfOk result (λ plan. IsPlan self.now who call plan) }
    {
        self.execution.plan(who, call)
    }

    /// Makes the entry that was planned, and answers its reply. The book is still the one that planned it.
    pub fn commit(&mut self, plan: &Plan) -> Reply
        requires { (who : _) × (call : _) × IsPlan self.old who call plan.now }
        ensures reply { result ≡ plan.now.mark.entry.reply }
        ensures entry { self.new ≡ with_entry self.old plan.now.mark.entry }
    {
        let _within = self.execution.len();
        let reply = self.execution.commit(plan);
        self.entries.push_reserved(plan.mark.entry);
        reply
    }

    /// What a step of this call would append, with the bits of the item that it can change.
    ///
    /// # Errors
    /// `Full` where there is no room for the entry and for what would be owed then, exactly as at `step`.
    pub fn would(&self, who: Who, call: Call) -> Result<Mark, Full>
        requires { IsTrue (fits self.now.layout who call) }
        ensures room { is_ok result ≡ takes self.now who call }
        ensures mark { IfOk result (λ mark. IsMark self.now who call mark) }
    {
        self.execution.would(who, call)
    }

    /// Makes the call: one entry more, with the one answer.
    ///
    /// # Errors
    /// `Full` where there is no room for the entry and for what would be owed then. The book is then the old one.
    pub fn step(&mut self, who: Who, call: Call) -> Result<Reply, Full>
        requires { IsTrue (fits self.old.layout who call) }
        ensures room { is_ok result ≡ takes self.old who call }
        ensures reply { IfOk result (λ reply. reply ≡ (next_entry self.old who call).reply) }
        ensures entry { IfOk result (λ _. self.new ≡ with_entry self.old (next_entry self.old who call)) }
        ensures full { OnErr result (self.new ≡ self.old) }
    {
        let entry = self.execution.next(who, call)?;
        let _within = self.execution.len();
        self.entries.push_reserved(entry);
        Ok(entry.reply)
    }

    /// Whether the ticket with this number stands and waits for nothing, so that its end would be answered done. False
    /// of any other number.
    pub fn ready(&self, ticket: Number) -> bool
        ensures { result ≡ is_ready (past_in self.now) ticket }
    {
        self.execution.ready(ticket)
    }

    /// The bits of an item (`work_busy`): 1 if it is pending, plus 2 if it runs.
    pub fn bits(&self, item: ItemId) -> u8
        requires { item.0 < self.now.layout.items }
        ensures { result ≡ legal.bits (past_in self.now) item.0 }
    {
        self.execution.bits(item)
    }

    /// How many queueings are open.
    pub fn open_count(&self) -> u32
        ensures { result ≡ length (still_open (past_in self.now)) }
    {
        self.execution.state().open_count()
    }

    /// How many of them are active.
    pub fn active_count(&self) -> u32
        ensures { result ≡ count_by (is_active self.now.layout (past_in self.now)) (still_open (past_in self.now)) }
    {
        self.execution.state().active_count()
    }

    /// The entries, the oldest first. What a user relies on holds of them.
    pub fn history(&self) -> &[Entry]
        ensures entries { result.now ≡ self.now.entries }
        ensures reliable { IsReliable self.now.layout (past_in self.now) }
    {
        self.execution.reliable();
        &self.entries
    }

    /// The entries, the oldest first.
    pub fn into_history(self) -> Vec<Entry>
        ensures { result.items ≡ self.entries }
    {
        self.execution.end();
        self.entries
    }
}
