//! Waits end, or are left.

ghost use Rattle.std.specs.Prelude.{◌≡◌, ◌<◌, IfErr, IfOk, IfSome, None, OnErr, Some, false, is_some, length};
ghost use Rattle.std.specs.Prelude.{slice_set, true};
ghost use Rattle.cmwq_core.specs.History.{is_done_waiting};
ghost use Rattle.cmwq_core.specs.Plans.{IsPlan};
ghost use Rattle.cmwq_dispatch.specs.Asleep.{IsUpAgain};
ghost use Rattle.cmwq_dispatch.specs.Dispatched.{past_now};
ghost use Rattle.cmwq_dispatch.specs.Waiting.{IsKnown};
ghost use Rattle.cmwq_model.specs.declared.call.Call.TheVariants as calls;
ghost use Rattle.cmwq_model.specs.declared.id.Who.TheVariants as who;
ghost use Rattle.cmwq_model.specs.Prelude.{is_done, is_drain, ticket_of};
ghost use Rattle.cmwq_board.specs.Boarded.{has_space, layout_of, most_made, past_of_board, with_asleep};
ghost use Rattle.cmwq_board.specs.Lent.{EndsTicketOf, MayBecome, unended_drains};
ghost use Rattle.cmwq_board.specs.declared.lending.Lending.TheVariants as free;
ghost use Rattle.cmwq_board.specs.Machine.{LeaveNamed, bare, has_ended, step};
ghost use Rattle.cmwq_board.specs.Machine.Move.{Ends, Leaves};
ghost use Rattle.cmwq_board.specs.Waits.{EndsAt, EndsBy, EndsOrWaits, IsAwakeThen, IsLeft, SleepsNoMore};
ghost use Rattle.cmwq_board.specs.Waits.{ThenClears, WaitsNoMore, WaitsOn};
ghost use Rattle.cmwq_board.specs.Waits.{caller_at, end_fault, lending_at, place_of};

use crate::beginning::if_slept;
use crate::board::{Board, Ended, most_made};
use crate::entering::end_ticket;
use crate::fault::BoardFault;
use crate::firing::{ends_firing, less_drains, tells_time};
use crate::lending::Lending;
use crate::news::News;
use cmwq_core::Plan;
use cmwq_dispatch::{Dispatch, EndPlan, Sleep, Wakes};
use cmwq_model::{CallerId, Ticket, Who, WorkerId};

/// The end of this ticket, if it is ready.
pub(crate) fn planned_end(dispatch: &Dispatch, ticket: Ticket) -> Option<Plan>
    requires there { ticket.caller.0 < dispatch.now.history.layout.callers }
    requires held { ticket_of (past_now dispatch.now) (who.Caller ticket.caller) ticket.number ≡ Some ticket }
    ensures ready { is_some result ≡ is_done_waiting (past_now dispatch.now) ticket }
    ensures plan { IfSome result
        (λ plan. IsPlan dispatch.now.history (who.Caller ticket.caller) (calls.End ticket.number) plan) }
    ensures done { IfSome result (λ plan. is_done plan.mark.entry.reply ≡ true) }
    ensures known { result ≡ None → IsKnown dispatch.now.history.layout (past_now dispatch.now) ticket }
{
    match dispatch.plan_end(ticket.caller, ticket.number) {
        EndPlan::Done(plan) => Some(plan),
        EndPlan::Waits(_) => None,
        EndPlan::Unknown => unreachable!(),
    }
}

impl Board {
    /// The place of this caller, if it is one that is lent.
    fn place_of(&self, party: CallerId) -> Option<usize>
        ensures { result ≡ place_of self.now party }
    {
        let first = self.first_lent();
        if party.0 < first {
            return None;
        }
        let place = usize::from(party.0 - first);
        if place < self.lent.len() {
            Some(place)
        } else {
            None
        }
    }

    /// Ends the wait of a lent caller if it is ready: after a drain what is due is fired, the run that slept for it
    /// wakes, and the caller may be lent again. Otherwise the caller sleeps from now on, in the same call, until it is
    /// named; or it is over, and the wait will never be ready.
    pub fn end(&mut self, party: CallerId, wakes: &mut Wakes) -> Result<Ended, BoardFault>
        ensures ends { IfOk result (λ ended. EndsOrWaits party ended self.old self.new wakes.old wakes.new) }
        ensures awake { IfOk result (λ ended. SleepsNoMore party ended self.old self.new) }
        ensures taken { IfOk result (λ _. end_fault self.old party ≡ None) }
        ensures refused { IfErr result (λ fault. end_fault self.old party ≡ Some fault) }
        ensures same { OnErr result ((self.new ≡ self.old) × (wakes.new ≡ wakes.old)) }
        ensures core { bare self.new ≡ (step (bare self.old) (Ends party)).core }
        ensures outcome { has_ended result ≡ (step (bare self.old) (Ends party)).outcome }
    {
        let Some(place) = self.place_of(party) else {
            return Err(BoardFault::Refused);
        };
        let Lending::Waits { ticket, run, slept } = self.lent[place] else {
            return Err(BoardFault::Misuse);
        };
        if self.dispatch.has_failed() {
            return Err(BoardFault::Failed);
        }
        let Some(plan) = planned_end(&self.dispatch, ticket) else {
            return Ok(Ended::Not(self.waits_on(ticket)));
        };
        if self.tail.space() < most_made(self.dispatch.shape()) {
            return Err(BoardFault::Crowded);
        }
        self.ends_wait(place, ticket, if_slept(slept, run), &plan, wakes);
        self.stands();
        Ok(Ended::Done)
    }

    /// The caller of this ticket is awake, and begins to sleep until it is ready.
    fn waits_on(&mut self, ticket: Ticket) -> Sleep
        requires known { IsKnown (layout_of self.old) (past_of_board self.old) ticket }
        requires unready { is_done_waiting (past_of_board self.old) ticket ≡ false }
        ensures { IsAwakeThen ticket.caller (λ awake. WaitsOn ticket result awake self.new) self.old }
    {
        self.dispatch.awakes(Who::Caller(ticket.caller));
        self.dispatch.sleeps(ticket)
    }

    /// The caller of this ticket is awake, and its wait ends. Then the tickets are ended that were left and are ready
    /// now.
    fn ends_wait(
        &mut self,
        place: usize,
        ticket: Ticket,
        run: Option<WorkerId>,
        plan: &Plan,
        wakes: &mut Wakes,
    )
        requires place { place < length self.old.lent }
        requires own { ticket.caller ≡ caller_at self.old place }
        requires held { ticket_of (past_of_board self.old) (who.Caller ticket.caller) ticket.number ≡ Some ticket }
        requires may { MayBecome ticket (lending_at self.old place) free.Free }
        requires plan { IsPlan self.old.dispatch.history (who.Caller ticket.caller) (calls.End ticket.number) plan.now }
        requires done { is_done plan.now.mark.entry.reply ≡ true }
        requires lives { self.old.dispatch.failed ≡ false }
        requires space { has_space self.old (most_made (layout_of self.old)) ≡ true }
        ensures { IsAwakeThen ticket.caller
            (λ awake. ThenClears (EndsAt place ticket run) awake self.new wakes.old wakes.new) self.old }
    {
        self.dispatch.awakes(Who::Caller(ticket.caller));
        let news = self.news.after_end(ticket.call);
        self.ends(place, Lending::Free, ticket, run, news, plan, wakes);
        self.clears(wakes);
    }

    /// Makes the end of a ticket that was planned, and what belongs to it. Then its caller, which has this place, does
    /// this, and this is the news.
    pub(crate) fn ends(
        &mut self,
        place: usize,
        lending: Lending,
        ticket: Ticket,
        run: Option<WorkerId>,
        news: News,
        plan: &Plan,
        wakes: &mut Wakes,
    )
        requires place { place < length self.old.lent }
        requires own { ticket.caller ≡ caller_at self.old place }
        requires held { ticket_of (past_of_board self.old) (who.Caller ticket.caller) ticket.number ≡ Some ticket }
        requires may { MayBecome ticket (lending_at self.old place) lending }
        requires plan { IsPlan self.old.dispatch.history (who.Caller ticket.caller) (calls.End ticket.number) plan.now }
        requires done { is_done plan.now.mark.entry.reply ≡ true }
        requires lives { self.old.dispatch.failed ≡ false }
        requires space { has_space self.old (most_made (layout_of self.old)) ≡ true }
        ensures ends { EndsBy ticket run (slice_set self.old.lent place lending) news self.old self.new wakes.old
            wakes.new }
        ensures tickets { EndsTicketOf ticket (past_of_board self.old) (past_of_board self.new) }
        ensures drains { is_drain ticket.call ≡ false
            → unended_drains (past_of_board self.new) ≡ unended_drains (past_of_board self.old) }
        ensures grows { length self.old.dispatch.history.entries < length self.new.dispatch.history.entries }
        ensures lives { self.new.dispatch.failed ≡ false }
    {
        let _legal = self.dispatch.execution().len();
        end_ticket(&mut self.dispatch, &mut self.tail, ticket, run, plan, wakes);
        self.lent[place] = lending;
        self.news = news;
        self.drains = less_drains(self.drains, ticket.call);
        ends_firing(&mut self.dispatch, &mut self.firing, self.drains, wakes);
        tells_time(ticket.call, wakes);
    }

    /// A caller or a worker is awake again, also where nobody named it.
    pub fn awakes(&mut self, who: Who)
        ensures same { self.new ≡ with_asleep self.old self.new.dispatch.asleep }
        ensures awake { IsUpAgain who self.old.dispatch.asleep self.new.dispatch.asleep }
    {
        self.dispatch.awakes(who);
    }

    /// Nobody waits by this caller any more, so that it may be lent again. Its ticket is ended once it is ready, at a
    /// call, finish, end or leave, or a wait for the same goes on by it. That names nobody. If a run waited, it waits
    /// no more. No entry is made for it: if it went to sleep for the wait, it sleeps until its worker wakes it by a
    /// call.
    pub fn leaves(&mut self, party: CallerId, wakes: &mut Wakes) -> Result<(), BoardFault>
        ensures core { bare self.new ≡ (step (bare self.old) (Leaves party)).core }
        ensures outcome { result ≡ (step (bare self.old) (Leaves party)).outcome }
        ensures named { LeaveNamed result party self.old self.new wakes.old wakes.new }
        ensures gone { IfOk result (λ _. WaitsNoMore party self.old self.new) }
    {
        let Some(place) = self.place_of(party) else {
            return Err(BoardFault::Refused);
        };
        let Lending::Waits { .. } = self.lent[place] else {
            return Err(BoardFault::Misuse);
        };
        if self.dispatch.has_failed() {
            return Err(BoardFault::Failed);
        }
        self.leaves_at(party, place);
        self.clears(wakes);
        Ok(())
    }

    /// The caller of this place is awake, and nobody waits by it.
    fn leaves_at(&mut self, party: CallerId, place: usize)
        requires place { place < length self.old.lent }
        ensures { IsAwakeThen party (IsLeft place self.new) self.old }
    {
        self.dispatch.awakes(Who::Caller(party));
        self.lent[place] = Lending::Free;
        self.left = true;
    }
}
