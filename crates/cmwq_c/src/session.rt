//! A book with its shape, so that each call of C is tried before it is made.
ghost use Rattle.std.specs.Prelude.{◌≡◌, ◌+◌, ◌<◌, true, length, None, Some, IfOk, IfErr, OnErr, IfSome};
ghost use Rattle.std.specs.Prelude.{is_some, nat_lt};
ghost use Rattle.cmwq_model.specs.Prelude.{fits, serial_of};
ghost use Rattle.cmwq_model.specs.Legal as legal;
ghost use Rattle.cmwq_core.specs.History.{next_entry, past_in};
ghost use Rattle.cmwq_core.specs.Plans.{IsPlan};
ghost use Rattle.cmwq_core.specs.Lasting.{lasting_at_first, with_made, with_none_kept, has_space};
ghost use Rattle.cmwq_c.specs.Books.{is_inside, refusal_of, refused_by};

use cmwq_core::{Plan, TailBook, Unmade};
use cmwq_model::{Call, Entry, ItemId, NoMemory, Shape, Who};
use std::alloc::Global;
use std::marker::Model;

/// Why a call isn't made.
#[derive(Clone, Copy)]
pub enum Refusal {
    /// It is no call of the shape.
    Unfit,
    /// As many entries are kept as may be.
    Crowded,
    /// There is no room.
    Full,
}

fn refused_by(unmade: Unmade) -> Refusal
    ensures { result ≡ refused_by unmade }
{
    match unmade {
        Unmade::Crowded => Refusal::Crowded,
        Unmade::Full => Refusal::Full,
    }
}

/// What a handle has.
#[derive(Drop)]
pub struct Session {
    shape: Shape,
    book: TailBook,
}

impl Model for Session {
    ghost use Rattle.std.specs.Prelude.{◌≡◌};
    ghost use Rattle.cmwq_core.specs.Lasting.{Lasting};

    ghost Value = { Lasting };

    ghost view = { λ s. s.book };

    ghost invariant = { λ s. s.book.history.layout ≡ s.shape };
}

impl Session {
    /// No entries. The error says that memory ran out.
    pub fn new(alloc: Global, shape: Shape, keep: u32) -> Result<Session, NoMemory>
        ensures { IfOk result (λ s. s ≡ lasting_at_first shape keep) }
    {
        let book = TailBook::new(alloc, &shape, keep)?;
        Ok(Session { shape, book })
    }

    /// What a step of the call would make.
    pub fn plan(&self, who: Who, call: Call) -> Result<Plan, Refusal>
        ensures plan { IfOk result (λ plan. IsPlan self.now.history who call plan) }
        ensures space { IfOk result (λ plan. has_space self.now ≡ true) }
        ensures made { IfOk result (λ plan. refusal_of self.now who call ≡ None) }
        ensures refused { IfErr result (λ r. refusal_of self.now who call ≡ Some r) }
    {
        if !self.shape.fits(who, call) {
            return Err(Refusal::Unfit);
        }
        match self.book.plan(who, call) {
            Ok(plan) => Ok(plan),
            Err(unmade) => Err(refused_by(unmade)),
        }
    }

    /// Makes what was planned.
    pub fn commit(&mut self, plan: &Plan)
        requires plan { (who : _) × (call : _) × IsPlan self.old.history who call plan.now }
        requires space { has_space self.old ≡ true }
        ensures { self.new ≡ with_made self.old plan.now.mark.entry }
    {
        self.book.commit(plan);
    }

    /// Makes the call, and answers its entry.
    pub fn step(&mut self, who: Who, call: Call) -> Result<Entry, Refusal>
        ensures entry { IfOk result (λ entry. entry ≡ next_entry self.old.history who call) }
        ensures made { IfOk result (λ entry. self.new ≡ with_made self.old entry) }
        ensures taken { IfOk result (λ _. refusal_of self.old who call ≡ None) }
        ensures refused { IfErr result (λ r. refusal_of self.old who call ≡ Some r) }
        ensures kept { OnErr result (self.new ≡ self.old) }
    {
        if !self.shape.fits(who, call) {
            return Err(Refusal::Unfit);
        }
        match self.book.step(who, call) {
            Ok(entry) => Ok(entry),
            Err(unmade) => Err(refused_by(unmade)),
        }
    }

    /// The book of its calls.
    pub fn book(&self) -> &TailBook
        ensures { result.now ≡ self.now }
    {
        &self.book
    }

    /// How many entries more there is room for, what is owed among them.
    pub fn room_left(&self) -> u64
        ensures { result + length self.now.history.entries ≡ self.now.history.room }
    {
        let len = self.book.len();
        self.shape.counts().room - len
    }

    /// Forgets all entries that are kept.
    pub fn forget(&mut self)
        ensures { self.new ≡ with_none_kept self.old }
    {
        self.book.forget();
    }

    /// The bits of an item, if the shape has it.
    pub fn bits(&self, item: ItemId) -> Option<u8>
        ensures inside { is_some result ≡ nat_lt item.0 self.now.history.layout.items }
        ensures bits { IfSome result (λ b. b ≡ legal.bits (past_in self.now.history) item.0) }
    {
        if item.0 < self.shape.counts().items {
            Some(self.book.execution().bits(item))
        } else {
            None
        }
    }

    fn has(&self, who: Who) -> bool
        ensures { result ≡ is_inside self.now.history.layout who }
    {
        let counts = self.shape.counts();
        match who {
            Who::Caller(caller) => caller.0 < counts.callers,
            Who::Worker(worker) => {
                worker.pool.cpu.0 < counts.cpus && worker.index < counts.workers
            }
        }
    }

    /// How many entries this caller or worker has, if the shape has it.
    pub fn serial(&self, who: Who) -> Option<u64>
        ensures inside { is_some result ≡ is_inside self.now.history.layout who }
        ensures serial { IfSome result (λ s. s ≡ serial_of (past_in self.now.history) who) }
    {
        if self.has(who) {
            Some(self.book.execution().state().serial(who))
        } else {
            None
        }
    }
}
