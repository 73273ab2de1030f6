//! Waits begin, each by a caller that is lent to it.

ghost use Rattle.std.specs.Prelude.{◌≡◌, ◌<◌, IfErr, IfOk, IfSome, None, OnErr, Some, is_some, length, true};
ghost use Rattle.cmwq_board.specs.Boarded.{has_space, layout_of};
ghost use Rattle.cmwq_board.specs.Machine.{bare, step};
ghost use Rattle.cmwq_board.specs.Machine.Move.{Lends};
ghost use Rattle.cmwq_board.specs.Waits.{Begins, BeginsAnew, begin_fault, begun_by, caller_at, early_fault, first_free};
ghost use Rattle.cmwq_board.specs.Waits.{lent_place, may_be_lent, place_with, resumed_place};
ghost use Rattle.cmwq_board.specs.declared.left.Sought.TheVariants as of;
ghost use Rattle.cmwq_board.specs.Waits.{has_its_run, has_room_for, is_there, lent_fault, more_made, may_sleep};
ghost use Rattle.cmwq_board.specs.Waits.{room_fault, stuck_now};
ghost use Rattle.cmwq_model.specs.Prelude.{fits, has_numbers};
ghost use Rattle.cmwq_model.specs.declared.id.Who.TheVariants as who;

use crate::beginning::begins_wait;
use crate::board::{Begun, Board};
use crate::calls::is_wait;
use crate::entering::has_worker;
use crate::fault::{BoardFault, WaitFault, fault_of};
use crate::firing::{begins_firing, ends_firing, more_drains};
use crate::left::Sought;
use crate::lending::{Lending, any_wait_of};
use cmwq_dispatch::{Dispatch, Stuck, Wakes};
use cmwq_model::{Call, CallerId, Reply, Shape, Who, WorkerId};

/// The place of the first of them by which nobody waits.
fn first_free(lent: &[Lending]) -> Option<usize>
    ensures { result ≡ first_free lent.now }
{
    lent.iter().position(|lending| lending.is_free())
}

/// What a wait became whose call got this reply.
fn begun_by(caller: CallerId, reply: Reply) -> Begun
    ensures { result ≡ begun_by caller reply }
{
    if reply.gives_ticket() {
        Begun::Waits {
            party: caller,
            reply,
        }
    } else {
        Begun::Ended { reply }
    }
}

/// Whether the worker of the run is there.
fn is_there(shape: &Shape, run: Option<WorkerId>) -> bool
    ensures { result ≡ is_there shape.now run }
{
    match run {
        Some(worker) => has_worker(shape, worker),
        None => true,
    }
}

/// Whether there is room for the sleep of the run, if it is awake.
fn may_sleep(dispatch: &Dispatch, run: Option<WorkerId>) -> bool
    requires { is_there dispatch.now.history.layout run ≡ true }
    ensures { result ≡ may_sleep dispatch.now run }
{
    let Some(worker) = run else {
        return true;
    };
    !dispatch.execution().state().runs_awake(worker)
        || dispatch.plan(Who::Worker(worker), Call::Sleep).is_ok()
}

/// Whether there is room for the call of this caller, and for what the run makes besides.
fn has_room_for(dispatch: &Dispatch, run: Option<WorkerId>, caller: CallerId, call: Call) -> bool
    requires there { is_there dispatch.now.history.layout run ≡ true }
    requires fits { fits dispatch.now.history.layout (who.Caller caller) call ≡ true }
    ensures { result ≡ has_room_for dispatch.now run caller call }
{
    let more = if run.is_some() { 2 } else { 0 };
    dispatch
        .execution()
        .has_room_with(Who::Caller(caller), call, more)
        && may_sleep(dispatch, run)
}

impl Board {
    /// The caller of this place.
    pub(crate) fn caller_at(&self, place: usize) -> CallerId
        requires { place < length self.now.lent }
        ensures { result ≡ caller_at self.now place }
    {
        CallerId(self.first_lent() + place as u8)
    }

    /// Whether the caller of this place may be lent, and may have another ticket.
    fn may_be_lent(&self, place: usize) -> bool
        requires { place < length self.now.lent }
        ensures { result ≡ may_be_lent self.now place }
    {
        let who = Who::Caller(self.caller_at(place));
        self.lent[place].is_free() && !self.dispatch.execution().state().is_crowded(who)
    }

    /// The place of the caller that is lent next.
    fn lent_place(&self) -> Option<usize>
        ensures { result ≡ lent_place self.now }
    {
        let places = self.lent.len();
        for place in 0..places {
            if self.may_be_lent(place) {
                return Some(place);
            }
        }
        first_free(&self.lent)
    }

    /// The place of a ticket that was left, by which a wait of no run can go on.
    fn place_left_for(&self, call: Call) -> Option<usize>
        requires { has_numbers (layout_of self.now) call ≡ true }
        ensures is { result ≡ place_with self.now (of.For call) }
        ensures there { IfSome result (λ place. place < length self.now.lent) }
    {
        if !self.left {
            return None;
        }
        self.place_with(Sought::For(call))
    }

    /// The place of a ticket that was left, by which the wait can go on.
    fn resumed_place(&self, run: Option<WorkerId>, call: Call) -> Option<usize>
        requires { has_numbers (layout_of self.now) call ≡ true }
        ensures is { result ≡ resumed_place self.now run call }
        ensures there { IfSome result (λ place. place < length self.now.lent) }
    {
        match run {
            Some(_) => None,
            None => self.place_left_for(call),
        }
    }

    /// Whether the worker has the run that is said to wait, if one is, and it does not wait already.
    fn has_its_run(&self, run: Option<WorkerId>) -> bool
        requires { is_there (layout_of self.now) run ≡ true }
        ensures { result ≡ has_its_run self.now run }
    {
        match run {
            Some(worker) => {
                self.dispatch.execution().state().has_run(worker)
                    && !any_wait_of(&self.lent, worker)
            }
            None => true,
        }
    }

    /// Why the wait does not begin, whatever else waits now.
    fn early_fault(&self, run: Option<WorkerId>, call: Call) -> Option<BoardFault>
        ensures { result ≡ early_fault self.now run call }
    {
        let shape = self.dispatch.shape();
        if !is_wait(&call) || !shape.has_numbers(call) || !is_there(shape, run) {
            return Some(BoardFault::Refused);
        }
        if self.dispatch.has_failed() {
            return Some(BoardFault::Failed);
        }
        if self.dispatch.is_over() || run.is_none() && self.dispatch.is_closed() {
            return Some(BoardFault::Closed);
        }
        if !self.has_its_run(run) {
            return Some(BoardFault::Misuse);
        }
        if self.tail.space() < 3 {
            return Some(BoardFault::Crowded);
        }
        None
    }

    /// Why the wait of the run is refused, where runs wait as they do now.
    fn stuck(&mut self, run: Option<WorkerId>, call: Call) -> Option<Stuck>
        requires there { is_there (layout_of self.old) run ≡ true }
        requires numbers { has_numbers (layout_of self.old) call ≡ true }
        ensures is { result ≡ stuck_now self.old run call }
        ensures same { self.new ≡ self.old }
    {
        match run {
            Some(worker) => self.runs.refuses(
                self.dispatch.execution(),
                self.dispatch.shape(),
                &self.lent,
                worker,
                call,
            ),
            None => None,
        }
    }

    /// The place of the caller that is lent next, if there is room for its call.
    fn place_with_room(&self, run: Option<WorkerId>, call: Call) -> Result<usize, WaitFault>
        requires { early_fault self.now run call ≡ None }
        ensures there { IfOk result (λ place. place < length self.now.lent) }
        ensures first { IfOk result (λ place. lent_place self.now ≡ Some place) }
        ensures taken { IfOk result (λ _. room_fault self.now run call (lent_place self.now) ≡ None) }
        ensures refused { IfErr result
            (λ fault. room_fault self.now run call (lent_place self.now) ≡ Some fault) }
    {
        let Some(place) = self.lent_place() else {
            return Err(WaitFault::NoCaller);
        };
        if has_room_for(&self.dispatch, run, self.caller_at(place), call) {
            Ok(place)
        } else {
            Err(WaitFault::Board {
                fault: BoardFault::Full,
            })
        }
    }

    /// The place of the caller that is lent to a wait that goes on by no ticket of before.
    fn place_for(&mut self, run: Option<WorkerId>, call: Call) -> Result<usize, WaitFault>
        requires { early_fault self.old run call ≡ None }
        ensures there { IfOk result (λ place. place < length self.old.lent) }
        ensures first { IfOk result (λ place. lent_place self.old ≡ Some place) }
        ensures taken { IfOk result (λ _. lent_fault self.old run call (stuck_now self.old run call) ≡ None) }
        ensures refused { IfErr result
            (λ fault. lent_fault self.old run call (stuck_now self.old run call) ≡ Some fault) }
        ensures same { self.new ≡ self.old }
    {
        match self.stuck(run, call) {
            Some(stuck) => Err(fault_of(stuck)),
            None => self.place_with_room(run, call),
        }
    }

    /// A wait begins by this call: flush, drain, destroy, flush_item, flush_delayed or cancel_sync. A caller is lent to
    /// it. If a run waits, its worker is told, and the run sleeps meanwhile, if it is awake. A wait of a run that could
    /// never end is refused. A wait of no run goes on by a ticket that was left, if that is as good as a new one.
    pub fn begin(
        &mut self,
        run: Option<WorkerId>,
        call: Call,
        wakes: &mut Wakes,
    ) -> Result<Begun, WaitFault>
        ensures begins { IfOk result (λ begun. Begins run call begun self.old self.new wakes.old wakes.new) }
        ensures taken { IfOk result (λ _. begin_fault self.old run call ≡ None) }
        ensures refused { IfErr result (λ fault. begin_fault self.old run call ≡ Some fault) }
        ensures same { OnErr result ((self.new ≡ self.old) × (wakes.new ≡ wakes.old)) }
        ensures core { bare self.new ≡ (step (bare self.old) (Lends run call)).core }
        ensures outcome { result ≡ (step (bare self.old) (Lends run call)).outcome }
    {
        if let Some(fault) = self.early_fault(run, call) {
            return Err(WaitFault::Board { fault });
        }
        if let Some(place) = self.resumed_place(run, call) {
            return Ok(self.resumes(place, call));
        }
        match self.place_for(run, call) {
            Ok(place) => Ok(self.lend(place, run, call, wakes)),
            Err(fault) => Err(fault),
        }
    }

    /// The wait begins, by the caller of this place.
    fn lend(&mut self, place: usize, run: Option<WorkerId>, call: Call, wakes: &mut Wakes) -> Begun
        requires there { place < length self.old.lent }
        requires first { lent_place self.old ≡ Some place }
        requires early { early_fault self.old run call ≡ None }
        requires taken { lent_fault self.old run call (stuck_now self.old run call) ≡ None }
        ensures { BeginsAnew run call result self.old self.new wakes.old wakes.new }
    {
        let caller = self.caller_at(place);
        begins_firing(&mut self.dispatch, &mut self.firing, wakes);
        let called = begins_wait(&mut self.dispatch, &mut self.tail, run, caller, call, wakes);
        self.lent[place] = called.lending;
        self.drains = more_drains(self.drains, call, called.reply, self.tail.len());
        ends_firing(&mut self.dispatch, &mut self.firing, self.drains, wakes);
        begun_by(caller, called.reply)
    }
}
