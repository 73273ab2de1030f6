//! The call that begins a wait, and what the run makes besides that waits.

ghost use Rattle.std.specs.Prelude.{◌≡◌, ◌<◌, ◌≤◌, ◌+◌, IsTrue, false, length, true};
ghost use Rattle.cmwq_core.specs.History.{next_entry, takes};
ghost use Rattle.cmwq_dispatch.specs.Dispatched.{past_now};
ghost use Rattle.cmwq_model.specs.Prelude.{IsLegal, fits};
ghost use Rattle.cmwq_model.specs.declared.call.Call.TheVariants as calls;
ghost use Rattle.cmwq_model.specs.declared.id.Who.TheVariants as who;
ghost use Rattle.cmwq_board.specs.Asked.{is_wait};
ghost use Rattle.cmwq_board.specs.Lent.{GivesBy, SameTickets};
ghost use Rattle.cmwq_board.specs.Steps.{Enters, Stays, may_fire};
ghost use Rattle.cmwq_board.specs.Waits.{BeginsWait, MayEnterOf, ThenWaits, has_room_for, if_slept, is_there};
ghost use Rattle.cmwq_board.specs.Waits.{lending_by, may_sleep, sleeps_first};

use crate::entering::{enter, wake};
use crate::lending::Lending;
use cmwq_core::Full;
use cmwq_dispatch::{Dispatch, Wakes};
use cmwq_model::{Call, CallerId, Entry, Number, Reply, Ticket, Who, WorkerId};
use cmwq_state::Tail;

/// A call by which a wait begins, or nothing is waited for.
#[derive(Clone, Copy)]
pub(crate) struct Called {
    pub(crate) reply: Reply,
    /// The number of its entry.
    pub(crate) number: Number,
    /// What its caller does from then on.
    pub(crate) lending: Lending,
}

/// The run of which this says that it went to sleep.
pub(crate) fn if_slept(slept: bool, run: Option<WorkerId>) -> Option<WorkerId>
    ensures { result ≡ if_slept slept run }
{
    if slept { run } else { None }
}

/// The run goes to sleep, if it is awake.
fn sleeps(
    dispatch: &mut Dispatch,
    tail: &mut Tail<Entry>,
    run: Option<WorkerId>,
    wakes: &mut Wakes,
) -> bool
    requires there { is_there dispatch.old.history.layout run ≡ true }
    requires lives { dispatch.old.failed ≡ false }
    requires room { may_sleep dispatch.old run ≡ true }
    requires kept { tail.old.all ≡ dispatch.old.history.entries }
    requires space { length tail.old.all < tail.old.room + tail.old.given }
    ensures slept { result ≡ sleeps_first dispatch.old run }
    ensures sleeps { MayEnterOf run calls.Sleep result dispatch.old dispatch.new wakes.old wakes.new }
    ensures kept { tail.new ≡ record tail.old { all = dispatch.new.history.entries } }
    ensures tickets { SameTickets (past_now dispatch.old) (past_now dispatch.new) }
    ensures stays { Stays dispatch.old dispatch.new }
    ensures many { length dispatch.new.history.entries ≤ length dispatch.old.history.entries + 1 }
    ensures more { length dispatch.old.history.entries ≤ length dispatch.new.history.entries }
    ensures legal { IsLegal dispatch.new.history.layout (past_now dispatch.new) }
{
    let _legal = dispatch.execution().len();
    let Some(worker) = run else {
        return false;
    };
    if !dispatch.execution().state().runs_awake(worker) {
        return false;
    }
    let slept = enter(dispatch, tail, Who::Worker(worker), Call::Sleep, wakes);
    match slept {
        Ok(_) => true,
        Err(Full) => unreachable!(),
    }
}

/// After the call the run that went to sleep for it waits if there is a ticket, and else it wakes.
fn then_waits(
    dispatch: &mut Dispatch,
    tail: &mut Tail<Entry>,
    gives_ticket: bool,
    slept: Option<WorkerId>,
    wakes: &mut Wakes,
)
    requires lives { dispatch.old.failed ≡ false }
    requires kept { tail.old.all ≡ dispatch.old.history.entries }
    requires space { length tail.old.all < tail.old.room + tail.old.given }
    ensures waits { ThenWaits gives_ticket slept dispatch.old dispatch.new wakes.old wakes.new }
    ensures kept { tail.new ≡ record tail.old { all = dispatch.new.history.entries } }
    ensures tickets { SameTickets (past_now dispatch.old) (past_now dispatch.new) }
    ensures stays { Stays dispatch.old dispatch.new }
{
    if !gives_ticket {
        wake(dispatch, tail, slept, wakes);
    }
}

/// The call of a caller that is lent to a wait.
fn makes_call(
    dispatch: &mut Dispatch,
    tail: &mut Tail<Entry>,
    caller: CallerId,
    call: Call,
    wakes: &mut Wakes,
) -> Reply
    requires call { is_wait call ≡ true }
    requires fits { IsTrue (fits dispatch.old.history.layout (who.Caller caller) call) }
    requires may { may_fire dispatch.old ≡ true }
    requires room { takes dispatch.old.history (who.Caller caller) call ≡ true }
    requires kept { tail.old.all ≡ dispatch.old.history.entries }
    requires space { length tail.old.all < tail.old.room + tail.old.given }
    ensures calls { Enters (who.Caller caller) call dispatch.old dispatch.new wakes.old wakes.new }
    ensures reply { result ≡ (next_entry dispatch.old.history (who.Caller caller) call).reply }
    ensures kept { tail.new ≡ record tail.old { all = dispatch.new.history.entries } }
    ensures tickets { GivesBy result
        (record { caller = caller; call = call; number = length dispatch.old.history.entries })
        (past_now dispatch.old) (past_now dispatch.new) }
    ensures stays { Stays dispatch.old dispatch.new }
    ensures many { length dispatch.new.history.entries ≡ length dispatch.old.history.entries + 1 }
{
    let entered = enter(dispatch, tail, Who::Caller(caller), call, wakes);
    match entered {
        Ok(reply) => reply,
        Err(Full) => unreachable!(),
    }
}

/// The call of a caller that is lent to a wait, before which the run sleeps if it is awake.
pub(crate) fn begins_wait(
    dispatch: &mut Dispatch,
    tail: &mut Tail<Entry>,
    run: Option<WorkerId>,
    caller: CallerId,
    call: Call,
    wakes: &mut Wakes,
) -> Called
    requires call { is_wait call ≡ true }
    requires fits { IsTrue (fits dispatch.old.history.layout (who.Caller caller) call) }
    requires there { is_there dispatch.old.history.layout run ≡ true }
    requires may { may_fire dispatch.old ≡ true }
    requires room { has_room_for dispatch.old run caller call ≡ true }
    requires kept { tail.old.all ≡ dispatch.old.history.entries }
    requires space { length tail.old.all + 3 ≤ tail.old.room + tail.old.given }
    ensures waits { BeginsWait run caller call result.reply result.number dispatch.old dispatch.new wakes.old
        wakes.new }
    ensures lending { result.lending ≡ lending_by run (sleeps_first dispatch.old run)
        (record { caller = caller; call = call; number = result.number }) result.reply }
    ensures kept { tail.new ≡ record tail.old { all = dispatch.new.history.entries } }
    ensures tickets { GivesBy result.reply
        (record { caller = caller; call = call; number = result.number })
        (past_now dispatch.old) (past_now dispatch.new) }
    ensures later { length dispatch.old.history.entries ≤ result.number }
    ensures stays { Stays dispatch.old dispatch.new }
{
    let slept = sleeps(dispatch, tail, run, wakes);
    let number = tail.len();
    let reply = makes_call(dispatch, tail, caller, call, wakes);
    let gives_ticket = reply.gives_ticket();
    then_waits(dispatch, tail, gives_ticket, if_slept(slept, run), wakes);
    let ticket = Ticket {
        caller,
        call,
        number,
    };
    Called {
        reply,
        number,
        lending: lending_by(run, slept, ticket, reply),
    }
}

/// What a caller does whose call got this reply: it waits for its ticket, if it was given one.
fn lending_by(run: Option<WorkerId>, slept: bool, ticket: Ticket, reply: Reply) -> Lending
    ensures { result ≡ lending_by run slept ticket reply }
{
    if reply.gives_ticket() {
        Lending::Waits { ticket, run, slept }
    } else {
        Lending::Free
    }
}
