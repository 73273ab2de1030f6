//! Tickets that were left are ended, or a wait goes on by one of them.

ghost use Rattle.std.specs.Prelude.{◌≡◌, ◌<◌, ◌⊎◌, IfSome, None, Some, false, length, true};
ghost use Rattle.cmwq_model.specs.Prelude.{has_numbers};
ghost use Rattle.cmwq_model.specs.declared.id.Who.{Who};
ghost use Rattle.cmwq_board.specs.Boarded.{has_space, layout_of, most_made, past_of_board};
ghost use Rattle.cmwq_board.specs.Left.{has_its_numbers};
ghost use Rattle.cmwq_board.specs.Machine.{GoesOn, bare, cleared};
ghost use Rattle.cmwq_board.specs.Waits.{Clears, EndsFirst, Resumes, lending_at, place_with, resumed_reply, sought_at};
ghost use Rattle.cmwq_board.specs.declared.left.Sought.TheVariants as of;

use crate::board::waits::planned_end;
use crate::board::{Begun, Board, most_made};
use crate::left::{Sought, sought_of};
use crate::lending::Lending;
use cmwq_dispatch::Wakes;
use cmwq_model::{Call, Reply, Ticket};

/// What is replied where a wait goes on by this ticket.
fn resumed_reply(ticket: Ticket, call: Call) -> Reply
    ensures { result ≡ resumed_reply ticket call }
{
    match call {
        Call::CancelSync { .. } => Reply::TicketNo(ticket.number),
        _ => Reply::Ticket(ticket.number),
    }
}

impl Board {
    /// What is sought among the tickets of the caller of this place.
    fn sought_at(&self, sought: Sought, place: usize) -> Option<Ticket>
        requires place { place < length self.now.lent }
        requires numbers { has_its_numbers (layout_of self.now) sought ≡ true }
        ensures { result ≡ sought_at self.now sought place }
    {
        let execution = self.dispatch.execution();
        let _legal = execution.len();
        let items = self.dispatch.shape().counts().items;
        let caller = self.caller_at(place);
        sought_of(execution.state(), items, caller, self.lent[place], sought)
    }

    /// What the caller of this place does.
    fn lending_at(&self, place: usize) -> Lending
        requires { place < length self.now.lent }
        ensures { result ≡ lending_at self.now place }
    {
        self.lent[place]
    }

    /// The first place whose caller has such a ticket.
    pub(crate) fn place_with(&self, sought: Sought) -> Option<usize>
        requires { has_its_numbers (layout_of self.now) sought ≡ true }
        ensures is { result ≡ place_with self.now sought }
        ensures there { IfSome result (λ place. place < length self.now.lent) }
    {
        let places = self.lent.len();
        for place in 0..places {
            if self.sought_at(sought, place).is_some() {
                return Some(place);
            }
        }
        None
    }

    /// Ends the tickets that were left and are ready.
    pub(crate) fn clears(&mut self, wakes: &mut Wakes)
        requires { self.old.dispatch.failed ≡ false }
        ensures clears { Clears self.old self.new wakes.old wakes.new }
        ensures core { bare self.new ≡ cleared (bare self.old) }
        ensures goes { (who : Who) → GoesOn who self.old self.new wakes.old wakes.new }
        ensures quiet { self.new.dispatch.history ≡ self.old.dispatch.history → wakes.new ≡ wakes.old }
    {
        if !self.left {
            return;
        }
        while self.ends_first(wakes) {}
        self.stands();
        self.left = self.place_with(Sought::Any).is_some();
    }

    /// Ends the first ticket that was left and is ready, if there is space for that.
    fn ends_first(&mut self, wakes: &mut Wakes) -> bool
        requires { self.old.dispatch.failed ≡ false }
        ensures ends { result ≡ true → EndsFirst self.old self.new wakes.old wakes.new }
        ensures clear { result ≡ false
            → (place_with self.old of.Ready ≡ None) ⊎ (has_space self.old (most_made (layout_of self.old)) ≡ false) }
        ensures same { result ≡ false → (self.new ≡ self.old) × (wakes.new ≡ wakes.old) }
        ensures lives { self.new.dispatch.failed ≡ false }
        ensures grows { result ≡ true
            → length self.old.dispatch.history.entries < length self.new.dispatch.history.entries }
    {
        if self.tail.space() < most_made(self.dispatch.shape()) {
            return false;
        }
        let Some(place) = self.place_with(Sought::Ready) else {
            return false;
        };
        let Some(ticket) = self.sought_at(Sought::Ready, place) else {
            unreachable!()
        };
        let Some(plan) = planned_end(&self.dispatch, ticket) else {
            unreachable!()
        };
        let lending = self.lending_at(place);
        let news = self.news.after_left(ticket.call);
        self.ends(place, lending, ticket, None, news, &plan, wakes);
        true
    }

    /// The wait of no run goes on by the ticket of this place that is as good as a new one.
    pub(crate) fn resumes(&mut self, place: usize, call: Call) -> Begun
        requires there { place < length self.old.lent }
        requires numbers { has_numbers (layout_of self.old) call ≡ true }
        requires place { place_with self.old (of.For call) ≡ Some place }
        ensures { Resumes place call result self.old self.new }
    {
        let Some(ticket) = self.sought_at(Sought::For(call), place) else {
            unreachable!()
        };
        let party = self.caller_at(place);
        self.lent[place] = Lending::Waits {
            ticket,
            run: None,
            slept: false,
        };
        Begun::Waits {
            party,
            reply: resumed_reply(ticket, call),
        }
    }
}
