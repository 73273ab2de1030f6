//! When the tickets were given that are unended.
ghost use Rattle.std.specs.Prelude.{◌≡◌, ◌++◌, ◌∷◌, [], ◌<◌, length, filter, find, replicate, slice_get, vec_capacity};
ghost use Rattle.std.specs.Prelude.{IfOk};
ghost use Rattle.cmwq_summary.specs.Givings.{is_giving, is_other_giving, since_giving, waited_till_end, waits_since};
ghost use Rattle.cmwq_summary.specs.Givings.{with_giving, without_giving, HasRoomForGiving};

use crate::span::{NO_TIME, Span};
use cmwq_model::{NoMemory, Number, Ticket};
use std::alloc::{AllocError, Global};
use std::marker::Model;

/// How many unended tickets a caller may have.
const TICKETS_OF_CALLER: usize = 64;

/// Behind which entry and at which tick the ticket with this number was given.
#[derive(Clone, Copy)]
pub(crate) struct Giving {
    pub(crate) number: Number,
    pub(crate) moment: Span,
}

/// The givings of the unended tickets of one caller, by age. There is room for 64.
#[derive(Drop)]
pub(crate) struct Row {
    givings: Vec<Giving>,
}

impl Model for Row {
    ghost use Rattle.std.specs.Prelude.{List, ◌≤◌, vec_capacity};
    ghost use Rattle.cmwq_summary.specs.declared.givings.Giving.{Giving};
    ghost use Rattle.cmwq_summary.specs.declared.givings.TheConstants.{TICKETS_OF_CALLER};

    ghost Value = { List Giving };

    ghost view = { λ r. r.givings.items };

    ghost invariant = { λ r. TICKETS_OF_CALLER ≤ vec_capacity r.givings };
}

impl Row {
    /// No ticket. No later call takes memory.
    fn new(alloc: Global) -> Result<Row, AllocError>
        ensures { IfOk result (λ row. row ≡ []) }
    {
        Ok(Row {
            givings: Vec::with_capacity(alloc, TICKETS_OF_CALLER)?,
        })
    }

    /// That of the oldest ticket.
    fn oldest(&self) -> Option<Giving>
        ensures { result ≡ slice_get self.now 0 }
    {
        self.givings.first().copied()
    }

    /// That of the ticket with this number.
    fn find(&self, number: Number) -> Option<Giving>
        ensures { result ≡ find (is_giving number) self.now }
    {
        self.givings
            .iter()
            .copied()
            .find(|giving| giving.number == number)
    }

    /// Adds a giving after all others.
    fn push(&mut self, giving: Giving)
        requires { length self.old < TICKETS_OF_CALLER }
        ensures { self.new ≡ self.old ++ giving ∷ [] }
    {
        self.givings.push_reserved(giving);
    }

    /// Takes out that of the ticket with this number.
    fn remove(&mut self, number: Number)
        ensures { self.new ≡ filter (is_other_giving number) self.old }
    {
        remove_giving(&mut self.givings, number);
    }
}

/// Takes out that of the ticket with this number.
fn remove_giving(givings: &mut Vec<Giving>, number: Number)
    ensures rest { givings.new.items ≡ filter (is_other_giving number) givings.old.items }
    ensures room { vec_capacity givings.new ≡ vec_capacity givings.old }
{
    givings.retain(|giving| giving.number != number);
}

/// The givings of the unended tickets of all callers, a row for each. Only `new` takes memory.
#[derive(Drop)]
pub(crate) struct Givings {
    rows: Vec<Row>,
}

impl Model for Givings {
    ghost use Rattle.cmwq_summary.specs.Givings.{GivingRows};

    ghost Value = { GivingRows };

    ghost view = { λ g. g.rows.items };
}

impl Givings {
    /// Those of so many callers, which have no ticket. The error says that memory ran out.
    pub(crate) fn new(alloc: Global, callers: usize) -> Result<Givings, NoMemory>
        ensures { IfOk result (λ givings. givings ≡ replicate callers []) }
    {
        Ok(Givings {
            rows: new_rows(alloc, callers)?,
        })
    }

    /// How long the ticket waited that is ended now, if one is.
    pub(crate) fn waited(&self, ended: Option<Ticket>, now: Span) -> Span
        ensures { result ≡ waited_till_end self.now ended now }
    {
        let Some(ticket) = ended else {
            return NO_TIME;
        };
        let caller = usize::from(ticket.caller.0);
        if caller >= self.rows.len() {
            return NO_TIME;
        }
        since(self.rows[caller].find(ticket.number), now)
    }

    /// How long the oldest unended ticket of this caller has waited, if there is one.
    pub(crate) fn waits(&self, caller: usize, now: Span) -> Span
        requires { caller < length self.now }
        ensures { result ≡ waits_since self.now caller now }
    {
        since(self.rows[caller].oldest(), now)
    }

    /// Takes out that of a ticket that is ended, if one is.
    pub(crate) fn remove(&mut self, ended: Option<Ticket>)
        ensures { self.new ≡ without_giving self.old ended }
    {
        if let Some(ticket) = ended {
            let caller = usize::from(ticket.caller.0);
            if caller < self.rows.len() {
                let row = &mut self.rows[caller];
                row.remove(ticket.number);
            }
        }
    }

    /// A ticket is given to this caller, if there is one.
    pub(crate) fn add(&mut self, caller: Option<usize>, giving: Giving)
        requires { HasRoomForGiving self.old caller }
        ensures { self.new ≡ with_giving self.old caller giving }
    {
        if let Some(caller) = caller {
            if caller < self.rows.len() {
                let row = &mut self.rows[caller];
                row.push(giving);
            }
        }
    }
}

/// How long it is since a giving, if there is one.
fn since(giving: Option<Giving>, now: Span) -> Span
    ensures { result ≡ since_giving giving now }
{
    match giving {
        Some(giving) => giving.moment.until(now),
        None => NO_TIME,
    }
}

/// An empty row for each caller.
fn new_rows(alloc: Global, callers: usize) -> Result<Vec<Row>, NoMemory>
    ensures { IfOk result (λ rows. rows.items ≡ replicate callers []) }
{
    let mut rows = Vec::with_capacity(alloc, callers)?;
    for _ in 0..callers {
        rows.push_reserved(Row::new(alloc)?);
    }
    Ok(rows)
}
