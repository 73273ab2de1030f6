ghost use Rattle.std.specs.Prelude.{◌≡◌, ◌++◌, ◌∷◌, [], ◌<◌, ◌≤◌, length, filter, find, nat_lt, slice_get};
ghost use Rattle.std.specs.Prelude.{vec_capacity, IfOk};
ghost use Rattle.std.specs.List.{list_all};
ghost use Rattle.cmwq_ticket.specs.Rows.{is_numbered, is_other_ticket, comes_before};
ghost use Rattle.cmwq_ticket.specs.Waits.{AreOfCaller, is_other_wait, is_wait_numbered, ticket_by};

use cmwq_model::{Call, CallerId, Number, Ticket};
use std::alloc::{AllocError, Global};
use std::marker::Model;

/// How many unended tickets a caller may have.
pub(crate) const TICKETS_OF_CALLER: usize = 64;

/// An unended ticket, without its caller.
#[derive(Clone, Copy)]
struct Wait {
    number: Number,
    call: Call,
}

impl Wait {
    /// The ticket, as one of this caller's.
    fn ticket(self, caller: CallerId) -> Ticket
        ensures { result ≡ ticket_by caller self }
    {
        Ticket {
            caller,
            call: self.call,
            number: self.number,
        }
    }
}

/// The unended tickets of one caller. There is room for 64.
#[derive(Drop)]
pub(crate) struct Row {
    /// Whose tickets they are, if there is one.
    caller: CallerId,
    waits: Vec<Wait>,
}

impl Model for Row {
    ghost use Rattle.std.specs.Prelude.{List, map, ◌≤◌, vec_capacity};
    ghost use Rattle.cmwq_model.specs.declared.record.Ticket.{Ticket};
    ghost use Rattle.cmwq_ticket.specs.Waits.{ticket_by};
    ghost use Rattle.cmwq_ticket.specs.declared.row.TheConstants.{TICKETS_OF_CALLER};

    ghost Value = { List Ticket };

    ghost view = { λ r. map (ticket_by r.caller) r.waits.items };

    ghost invariant = { λ r. TICKETS_OF_CALLER ≤ vec_capacity r.waits };
}

impl Row {
    /// No ticket. No later call takes memory.
    pub(crate) fn new(alloc: Global) -> Result<Self, AllocError>
        ensures { IfOk result (λ row. row ≡ []) }
    {
        Ok(Row {
            caller: CallerId(0),
            waits: Vec::with_capacity(alloc, TICKETS_OF_CALLER)?,
        })
    }

    /// Makes this row a copy of another, for which it has room.
    pub(crate) fn copy_from(&mut self, other: &Row)
        requires { length other.now ≤ TICKETS_OF_CALLER }
        ensures { self.new ≡ other.now }
    {
        self.caller = other.caller;
        self.waits.clear();
        self.waits.extend_from_slice(&other.waits).unwrap();
    }

    pub(crate) fn len(&self) -> usize
        ensures { result ≡ length self.now }
    {
        self.waits.len()
    }

    /// The ticket with this number.
    pub(crate) fn find(&self, number: Number) -> Option<Ticket>
        ensures { result ≡ find (is_numbered number) self.now }
    {
        let wait = find_wait(&self.waits, number)?;
        Some(wait.ticket(self.caller))
    }

    /// The ticket at this index, if there is one.
    pub(crate) fn get(&self, index: usize) -> Option<Ticket>
        ensures { result ≡ slice_get self.now index }
    {
        let wait = self.waits.get(index)?;
        Some(wait.ticket(self.caller))
    }

    /// Adds a ticket after all others, which are of the same caller.
    pub(crate) fn push(&mut self, ticket: Ticket)
        requires room { length self.old < TICKETS_OF_CALLER }
        requires own { AreOfCaller ticket.caller.0 self.old }
        ensures { self.new ≡ self.old ++ ticket ∷ [] }
    {
        self.caller = ticket.caller;
        self.waits.push_reserved(Wait {
            number: ticket.number,
            call: ticket.call,
        });
    }

    /// Takes out the ticket with this number.
    pub(crate) fn remove(&mut self, number: Number)
        ensures { self.new ≡ filter (is_other_ticket number) self.old }
    {
        remove_wait(&mut self.waits, number);
    }
}

/// The wait with this number.
fn find_wait(waits: &[Wait], number: Number) -> Option<Wait>
    ensures { result ≡ find (is_wait_numbered number) waits.now }
{
    waits.iter().copied().find(|wait| wait.number == number)
}

/// Takes out the wait with this number.
fn remove_wait(waits: &mut Vec<Wait>, number: Number)
    ensures rest { waits.new.items ≡ filter (is_other_wait number) waits.old.items }
    ensures room { vec_capacity waits.new ≡ vec_capacity waits.old }
{
    waits.retain(|wait| wait.number != number);
}
