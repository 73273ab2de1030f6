ghost use Rattle.std.specs.Prelude.{◌≡◌, ◌≤◌, ◌+◌, [], length, None, Some, IfOk, IfErr, OnErr, IsTrue};
ghost use Rattle.std.specs.Prelude.{true};
ghost use Rattle.std.specs.Vec.{vec_capacity};
ghost use Rattle.cmwq_model.specs.Prelude.{fits, IsLegal};
ghost use Rattle.cmwq_core.specs.History.{next_entry, past_in};
ghost use Rattle.cmwq_core.specs.Plans.{IsPlan};
ghost use Rattle.cmwq_core.specs.Relied.{IsReliable};
ghost use Rattle.cmwq_core.specs.Lasting.{lasting_at_first, with_made, with_none_kept, has_space, lasting_kept};
ghost use Rattle.cmwq_core.specs.Lasting.{lasting_entry, unmade_by};

use crate::execution::{Execution, Full};
use crate::plan::Plan;
use cmwq_model::{Call, Entry, NoMemory, Number, Reply, Shape, Who};
use cmwq_state::Tail;
use std::alloc::Global;
use std::marker::Model;

/// Why a call isn't made. The book is then as it was.
#[derive(Clone, Copy, Debug, PartialEq, Eq)]
pub enum Unmade {
    /// As many entries are kept as may be: some are to be given away first.
    Crowded,
    /// There is no room for the entry and for what would be owed then, or for its ticks.
    Full,
}

/// The runtime of one thread that runs on. Contracts see its whole history, from the first entry on; memory holds what
/// was not given away of it, at most as many entries as it was made for.
#[derive(Drop)]
pub struct TailBook {
    execution: Execution,
    tail: Tail<Entry>,
}

impl Model for TailBook {
    ghost use Rattle.std.specs.Prelude.{◌≡◌};
    ghost use Rattle.cmwq_core.specs.Lasting.{Lasting};

    ghost Value = { Lasting };

    ghost view = { λ b. record { history = b.execution; given = b.tail.given; keep = b.tail.room } };

    ghost invariant = { λ b. (b.tail.all ≡ b.execution.entries) × (b.execution.room ≡ b.execution.layout.room) };
}

impl TailBook {
    /// A book with no entries, and the room of its shape, which keeps so many entries at a time. No later call takes
    /// memory; the error says that it ran out.
    pub fn new(alloc: Global, shape: &Shape, keep: u32) -> Result<TailBook, NoMemory>
        ensures { IfOk result (λ book. book ≡ lasting_at_first shape.now keep) }
    {
        Ok(TailBook {
            tail: Tail::new(alloc, keep)?,
            execution: Execution::new(alloc, shape, shape.counts().room)?,
        })
    }

    /// The execution of its calls: what can be asked of a history that is not kept.
    pub fn execution(&self) -> &Execution
        ensures { result.now ≡ self.now.history }
    {
        &self.execution
    }

    /// Lets the book go, as `Execution::end` does an execution.
    pub fn end(self) {
        self.execution.end();
    }

    /// How many entries there are, those that were given away too.
    pub fn len(&self) -> u64
        ensures len { result ≡ length self.now.history.entries }
        ensures within { length self.now.history.entries ≤ self.now.history.room }
        ensures room { self.now.history.room ≡ self.now.history.layout.room }
        ensures legal { IsLegal self.now.history.layout (past_in self.now.history) }
    {
        self.execution.len()
    }

    /// How many of them were given away.
    pub fn first(&self) -> u64
        ensures first { result ≡ self.now.given }
        ensures within { self.now.given ≤ length self.now.history.entries }
    {
        self.tail.first()
    }

    /// How many more may be kept.
    pub fn space(&self) -> u32
        ensures { result + length self.now.history.entries ≡ self.now.keep + self.now.given }
    {
        self.tail.space()
    }

    /// The history without what was given away, the oldest entry first. What a user relies on holds of the whole.
    pub fn kept(&self) -> &[Entry]
        ensures kept { result.now ≡ lasting_kept self.now }
        ensures few { length result.now ≤ self.now.keep }
        ensures reliable { IsReliable self.now.history.layout (past_in self.now.history) }
    {
        self.execution.reliable();
        self.tail.kept()
    }

    /// The entry with this number, if it is kept.
    pub fn entry(&self, number: Number) -> Option<Entry>
        ensures { result ≡ lasting_entry self.now number }
    {
        let first = self.tail.first();
        if number < first {
            return None;
        }
        self.tail.kept().get((number - first) as usize).copied()
    }

    /// What a step of this call would make, found with all that it does.
    ///
    /// # Errors
    /// Exactly as at `step`.
    pub fn plan(&self, who: Who, call: Call) -> Result<Plan, Unmade>
        requires { IsTrue (fits self.now.history.layout who call) }
        ensures plan { IfOk result (λ plan. IsPlan self.now.history who call plan) }
        ensures space { IfOk result (λ _. has_space self.now ≡ true) }
        ensures made { IfOk result (λ _. unmade_by self.now who call ≡ None) }
        ensures unmade { IfErr result (λ u. unmade_by self.now who call ≡ Some u) }
    {
        if self.tail.space() == 0 {
            return Err(Unmade::Crowded);
        }
        match self.execution.plan(who, call) {
            Ok(plan) => Ok(plan),
            Err(Full) => Err(Unmade::Full),
        }
    }

    /// Makes the entry that was planned, and answers its reply. The book is still the one that planned it.
    pub fn commit(&mut self, plan: &Plan) -> Reply
        requires plan { (who : _) × (call : _) × IsPlan self.old.history who call plan.now }
        requires space { has_space self.old ≡ true }
        ensures reply { result ≡ plan.now.mark.entry.reply }
        ensures entry { self.new ≡ with_made self.old plan.now.mark.entry }
    {
        let _within = self.execution.len();
        let reply = self.execution.commit(plan);
        self.tail.push(plan.mark.entry);
        reply
    }

    /// Makes the call, and answers its entry: one entry more, with the one reply.
    ///
    /// # Errors
    /// `Crowded` where no entry more can be kept, and else `Full` where there is no room. The book is then the old one.
    pub fn step(&mut self, who: Who, call: Call) -> Result<Entry, Unmade>
        requires { IsTrue (fits self.old.history.layout who call) }
        ensures entry { IfOk result (λ entry. entry ≡ next_entry self.old.history who call) }
        ensures made { IfOk result (λ entry. self.new ≡ with_made self.old entry) }
        ensures taken { IfOk result (λ _. unmade_by self.old who call ≡ None) }
        ensures unmade { IfErr result (λ u. unmade_by self.old who call ≡ Some u) }
        ensures same { OnErr result (self.new ≡ self.old) }
    {
        if self.tail.space() == 0 {
            return Err(Unmade::Crowded);
        }
        let _within = self.execution.len();
        match self.execution.next(who, call) {
            Ok(entry) => {
                let _within = self.tail.len();
                self.tail.push(entry);
                Ok(entry)
            }
            Err(Full) => Err(Unmade::Full),
        }
    }

    /// Gives away all that is kept: `out` has it then, the oldest entry first, and the book keeps its entries in what
    /// `out` was, an empty buffer that holds as many as may be kept. Nothing is copied, and no memory is taken.
    pub fn give(&mut self, out: &mut Vec<Entry>)
        requires empty { out.old.items ≡ [] }
        requires large { self.old.keep ≤ vec_capacity out.old }
        ensures given { out.new.items ≡ lasting_kept self.old }
        ensures large { self.old.keep ≤ vec_capacity out.new }
        ensures book { self.new ≡ with_none_kept self.old }
    {
        self.tail.give(out);
    }

    /// Drops all that is kept.
    pub fn forget(&mut self)
        ensures { self.new ≡ with_none_kept self.old }
    {
        self.tail.forget();
    }
}
