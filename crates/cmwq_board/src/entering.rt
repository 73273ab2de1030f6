//! Entries are made, and kept until they are handed out.

ghost use Rattle.std.specs.Prelude.{◌≡◌, ◌<◌, ◌≤◌, ◌+◌, ◌∷◌, IfOk, IsTrue, OnErr, false, if◌then◌else◌, is_ok, length};
ghost use Rattle.std.specs.Prelude.{true};
ghost use Rattle.std.specs.Prelude.{IfSome, Some, is_some};
ghost use Rattle.cmwq_core.specs.History.{IsItemOf, next_entry, takes};
ghost use Rattle.cmwq_theory_wakes.specs.Starting.{would_start};
ghost use Rattle.cmwq_core.specs.Plans.{IsPlan};
ghost use Rattle.cmwq_dispatch.specs.Asleep.{SleepOn};
ghost use Rattle.cmwq_dispatch.specs.Dispatched.{MayEnter, past_now};
ghost use Rattle.cmwq_model.specs.Prelude.{IsLegal, fits, is_done, number_started, runs_awake, is_drain, ticket_of};
ghost use Rattle.cmwq_model.specs.declared.call.Call.TheVariants as calls;
ghost use Rattle.cmwq_model.specs.declared.id.Who.TheVariants as who;
ghost use Rattle.cmwq_state.specs.Tails.{with_item};
ghost use Rattle.cmwq_board.specs.Lent.{EndsTicketOf, SameTickets, TicketsGoOn, unended_drains};
ghost use Rattle.cmwq_board.specs.Steps.{FinishesRun, FiresDue, MayRetire, Stays, Ticks, after_call};
ghost use Rattle.cmwq_board.specs.Steps.{after_entry};
ghost use Rattle.cmwq_board.specs.Steps.{has_worker, may_fire};
ghost use Rattle.cmwq_board.specs.Boarded.{most_made};
ghost use Rattle.cmwq_board.specs.Waits.{EndsTicket, IsWoken, MayFire};

use crate::board::Finish;
use cmwq_core::{Full, Plan};
use cmwq_dispatch::{Dispatch, Wakes};
use cmwq_model::{Call, CallerId, Entry, ItemId, Number, Reply, Shape, Ticket, Who, WorkerId};
use cmwq_state::Tail;

/// Makes the entry that was planned, and keeps it.
#[inline(always)]
pub(crate) fn make(
    dispatch: &mut Dispatch,
    tail: &mut Tail<Entry>,
    plan: &Plan,
    wakes: &mut Wakes,
) -> Reply
    requires plan { (who : _) × (call : _) × IsPlan dispatch.old.history who call plan.now }
    requires may { MayEnter dispatch.old plan.now.mark.entry }
    requires kept { tail.old.all ≡ dispatch.old.history.entries }
    requires space { length tail.old.all < tail.old.room + tail.old.given }
    ensures reply { result ≡ plan.now.mark.entry.reply }
    ensures made { dispatch.new
        ≡ record (after_entry dispatch.old plan.now.mark.entry) { asleep = dispatch.new.asleep } }
    ensures kept { tail.new ≡ record tail.old { all = dispatch.new.history.entries } }
    ensures named { SleepOn plan.now.mark.entry.who dispatch.old.asleep dispatch.new.asleep wakes.old wakes.new }
    ensures legal { IsLegal dispatch.new.history.layout (past_now dispatch.new) }
    ensures past { past_now dispatch.new ≡ plan.now.mark.entry ∷ past_now dispatch.old }
    ensures stays { Stays dispatch.old dispatch.new }
    ensures tickets { TicketsGoOn plan.now.mark.entry (past_now dispatch.old) (past_now dispatch.new) }
{
    let _len = dispatch.execution().len();
    let reply = dispatch.commit(plan, wakes);
    let _most = dispatch.execution().len();
    tail.push(plan.mark.entry);
    reply
}

/// Makes the call, where there is room for it.
#[inline(always)]
pub(crate) fn enter(
    dispatch: &mut Dispatch,
    tail: &mut Tail<Entry>,
    who: Who,
    call: Call,
    wakes: &mut Wakes,
) -> Result<Reply, Full>
    requires fits { IsTrue (fits dispatch.old.history.layout who call) }
    requires may { MayEnter dispatch.old (next_entry dispatch.old.history who call) }
    requires kept { tail.old.all ≡ dispatch.old.history.entries }
    requires space { length tail.old.all < tail.old.room + tail.old.given }
    ensures room { is_ok result ≡ takes dispatch.old.history who call }
    ensures reply { IfOk result (λ reply. reply ≡ (next_entry dispatch.old.history who call).reply) }
    ensures made { IfOk result (λ _. dispatch.new
        ≡ record (after_call dispatch.old who call) { asleep = dispatch.new.asleep }) }
    ensures kept { IfOk result (λ _. tail.new ≡ record tail.old { all = dispatch.new.history.entries }) }
    ensures named { IfOk result
        (λ _. SleepOn who dispatch.old.asleep dispatch.new.asleep wakes.old wakes.new) }
    ensures legal { IfOk result (λ _. IsLegal dispatch.new.history.layout (past_now dispatch.new)) }
    ensures past { IfOk result
        (λ _. past_now dispatch.new ≡ next_entry dispatch.old.history who call ∷ past_now dispatch.old) }
    ensures stays { IfOk result (λ _. Stays dispatch.old dispatch.new) }
    ensures tickets { IfOk result (λ _. TicketsGoOn (next_entry dispatch.old.history who call)
        (past_now dispatch.old) (past_now dispatch.new)) }
    ensures same { OnErr result
        ((dispatch.new ≡ dispatch.old) × (tail.new ≡ tail.old) × (wakes.new ≡ wakes.old)) }
{
    let planned = dispatch.plan(who, call);
    match &planned {
        Ok(plan) => Ok(make(dispatch, tail, plan, wakes)),
        Err(Full) => Err(Full),
    }
}

/// A caller fires until nothing is fired, or there is no room, or it fired as often as there are items.
pub(crate) fn fire_due(
    dispatch: &mut Dispatch,
    tail: &mut Tail<Entry>,
    caller: CallerId,
    wakes: &mut Wakes,
)
    requires there { caller.0 < dispatch.old.history.layout.callers }
    requires may { may_fire dispatch.old ≡ true }
    requires kept { tail.old.all ≡ dispatch.old.history.entries }
    requires space { length tail.old.all + dispatch.old.history.layout.items ≤ tail.old.room + tail.old.given }
    ensures fires { FiresDue caller dispatch.old dispatch.new wakes.old wakes.new }
    ensures kept { tail.new ≡ record tail.old { all = dispatch.new.history.entries } }
    ensures tickets { SameTickets (past_now dispatch.old) (past_now dispatch.new) }
    ensures stays { Stays dispatch.old dispatch.new }
    ensures many { length dispatch.new.history.entries
        ≤ length dispatch.old.history.entries + dispatch.old.history.layout.items }
    ensures more { length dispatch.old.history.entries ≤ length dispatch.new.history.entries }
{
    let items = dispatch.shape().counts().items;
    for _ in 0..items {
        let fired = enter(dispatch, tail, Who::Caller(caller), Call::Fire, wakes);
        match fired {
            Ok(reply) => {
                if reply.is_nothing() {
                    return;
                }
            }
            Err(Full) => return,
        }
    }
}

/// After the end of a drain its caller fires what is due.
fn fire_after(dispatch: &mut Dispatch, tail: &mut Tail<Entry>, ticket: Ticket, wakes: &mut Wakes)
    requires there { ticket.caller.0 < dispatch.old.history.layout.callers }
    requires may { is_drain ticket.call ≡ true → may_fire dispatch.old ≡ true }
    requires kept { tail.old.all ≡ dispatch.old.history.entries }
    requires space { length tail.old.all + dispatch.old.history.layout.items ≤ tail.old.room + tail.old.given }
    ensures fires { MayFire (is_drain ticket.call) ticket.caller dispatch.old dispatch.new wakes.old wakes.new }
    ensures kept { tail.new ≡ record tail.old { all = dispatch.new.history.entries } }
    ensures tickets { SameTickets (past_now dispatch.old) (past_now dispatch.new) }
    ensures stays { Stays dispatch.old dispatch.new }
    ensures many { length dispatch.new.history.entries
        ≤ length dispatch.old.history.entries + dispatch.old.history.layout.items }
    ensures more { length dispatch.old.history.entries ≤ length dispatch.new.history.entries }
{
    if ticket.call.is_drain() {
        fire_due(dispatch, tail, ticket.caller, wakes);
    }
}

/// Whether the shape has this worker.
pub(crate) fn has_worker(shape: &Shape, worker: WorkerId) -> bool
    ensures { result ≡ has_worker shape.now worker }
{
    let counts = shape.counts();
    worker.pool.cpu.0 < counts.cpus && worker.index < counts.workers
}

/// The run of the worker wakes, if it sleeps.
pub(crate) fn wake(
    dispatch: &mut Dispatch,
    tail: &mut Tail<Entry>,
    run: Option<WorkerId>,
    wakes: &mut Wakes,
)
    requires lives { dispatch.old.failed ≡ false }
    requires kept { tail.old.all ≡ dispatch.old.history.entries }
    requires space { length tail.old.all < tail.old.room + tail.old.given }
    ensures woken { IsWoken run dispatch.old dispatch.new wakes.old wakes.new }
    ensures more { length dispatch.old.history.entries ≤ length dispatch.new.history.entries }
    ensures kept { tail.new ≡ record tail.old { all = dispatch.new.history.entries } }
    ensures tickets { SameTickets (past_now dispatch.old) (past_now dispatch.new) }
    ensures stays { Stays dispatch.old dispatch.new }
    ensures legal { IsLegal dispatch.new.history.layout (past_now dispatch.new) }
{
    let _legal = dispatch.execution().len();
    let Some(worker) = run else {
        return;
    };
    if !has_worker(dispatch.shape(), worker) {
        return;
    }
    if dispatch.execution().state().runs_asleep(worker) {
        let woke = enter(dispatch, tail, Who::Worker(worker), Call::Wake, wakes);
        match woke {
            Ok(_) => {}
            Err(Full) => unreachable!(),
        }
    }
}

/// Makes the end of a ticket that was planned. After a drain what is due is fired, and the run wakes.
pub(crate) fn end_ticket(
    dispatch: &mut Dispatch,
    tail: &mut Tail<Entry>,
    ticket: Ticket,
    run: Option<WorkerId>,
    plan: &Plan,
    wakes: &mut Wakes,
)
    requires there { ticket.caller.0 < dispatch.old.history.layout.callers }
    requires plan { IsPlan dispatch.old.history (who.Caller ticket.caller) (calls.End ticket.number) plan.now }
    requires done { is_done plan.now.mark.entry.reply ≡ true }
    requires lives { dispatch.old.failed ≡ false }
    requires may { is_drain ticket.call ≡ true → may_fire dispatch.old ≡ true }
    requires kept { tail.old.all ≡ dispatch.old.history.entries }
    requires space { length tail.old.all + most_made dispatch.old.history.layout ≤ tail.old.room + tail.old.given }
    requires held { ticket_of (past_now dispatch.old) (who.Caller ticket.caller) ticket.number ≡ Some ticket }
    ensures ends { EndsTicket ticket run dispatch.old dispatch.new wakes.old wakes.new }
    ensures grows { length dispatch.old.history.entries < length dispatch.new.history.entries }
    ensures kept { tail.new ≡ record tail.old { all = dispatch.new.history.entries } }
    ensures tickets { EndsTicketOf ticket (past_now dispatch.old) (past_now dispatch.new) }
    ensures drains { unended_drains (past_now dispatch.new) + (if is_drain ticket.call then 1 else 0)
        ≡ unended_drains (past_now dispatch.old) }
    ensures stays { Stays dispatch.old dispatch.new }
{
    make(dispatch, tail, plan, wakes);
    fire_after(dispatch, tail, ticket, wakes);
    wake(dispatch, tail, run, wakes);
}

/// The worker is sent to the reserve, if it would be.
fn retire(
    dispatch: &mut Dispatch,
    tail: &mut Tail<Entry>,
    worker: WorkerId,
    wakes: &mut Wakes,
) -> bool
    requires there { has_worker dispatch.old.history.layout worker ≡ true }
    requires lives { dispatch.old.failed ≡ false }
    requires kept { tail.old.all ≡ dispatch.old.history.entries }
    requires space { length tail.old.all < tail.old.room + tail.old.given }
    ensures retires { MayRetire dispatch.old worker result dispatch.new wakes.old wakes.new }
    ensures kept { tail.new ≡ record tail.old { all = dispatch.new.history.entries } }
    ensures tickets { SameTickets (past_now dispatch.old) (past_now dispatch.new) }
    ensures stays { Stays dispatch.old dispatch.new }
{
    let who = Who::Worker(worker);
    let told = dispatch.execution().reply(who, Call::Retire);
    if !told.is_retired() {
        return false;
    }
    let retired = enter(dispatch, tail, who, Call::Retire, wakes);
    match retired {
        Ok(_) => true,
        Err(Full) => false,
    }
}

/// The worker's run ends, which is awake, and the worker is sent to the reserve, if it would be.
pub(crate) fn finish_run(
    dispatch: &mut Dispatch,
    tail: &mut Tail<Entry>,
    worker: WorkerId,
    wakes: &mut Wakes,
) -> Result<Finish, Full>
    requires there { has_worker dispatch.old.history.layout worker ≡ true }
    requires awake { runs_awake (past_now dispatch.old) worker ≡ true }
    requires lives { dispatch.old.failed ≡ false }
    requires kept { tail.old.all ≡ dispatch.old.history.entries }
    requires space { length tail.old.all + 2 ≤ tail.old.room + tail.old.given }
    ensures room { is_ok result ≡ takes dispatch.old.history (who.Worker worker) calls.Finish }
    ensures finishes { IfOk result
        (λ finish. FinishesRun worker finish dispatch.old dispatch.new wakes.old wakes.new) }
    ensures kept { IfOk result (λ _. tail.new ≡ record tail.old { all = dispatch.new.history.entries }) }
    ensures tickets { IfOk result (λ _. SameTickets (past_now dispatch.old) (past_now dispatch.new)) }
    ensures stays { IfOk result (λ _. Stays dispatch.old dispatch.new) }
    ensures same { OnErr result
        ((dispatch.new ≡ dispatch.old) × (tail.new ≡ tail.old) × (wakes.new ≡ wakes.old)) }
{
    let Some(number) = dispatch.execution().state().run(worker) else {
        unreachable!()
    };
    let finished = enter(dispatch, tail, Who::Worker(worker), Call::Finish, wakes);
    match finished {
        Ok(_) => {
            let retired = retire(dispatch, tail, worker, wakes);
            Ok(Finish { number, retired })
        }
        Err(Full) => Err(Full),
    }
}

/// What a worker would start.
#[derive(Clone, Copy)]
pub(crate) struct Startable {
    pub(crate) plan: Plan,
    pub(crate) item: ItemId,
    pub(crate) number: Number,
}

/// What the worker would start now.
pub(crate) fn plan_of(dispatch: &Dispatch, worker: WorkerId) -> Option<Startable>
    requires there { has_worker dispatch.now.history.layout worker ≡ true }
    ensures starts { is_some result ≡ would_start dispatch.now.history.layout (past_now dispatch.now) worker }
    ensures plan { IfSome result (λ s. IsPlan dispatch.now.history (who.Worker worker) calls.Take s.plan) }
    ensures number { IfSome result
        (λ s. number_started (next_entry dispatch.now.history (who.Worker worker) calls.Take).reply ≡ Some s.number) }
    ensures item { IfSome result (λ s. IsItemOf (past_now dispatch.now) s.number (Some s.item)) }
{
    let Some(plan) = dispatch.plan_start(worker) else {
        return None;
    };
    let Some(number) = plan.mark.entry.reply.number_started() else {
        unreachable!()
    };
    let Some(item) = plan.mark.item else {
        unreachable!()
    };
    Some(Startable { plan, item, number })
}

/// So many ticks go by, and what is due is fired.
pub(crate) fn tick(
    dispatch: &mut Dispatch,
    tail: &mut Tail<Entry>,
    caller: CallerId,
    ticks: u32,
    wakes: &mut Wakes,
) -> Result<(), Full>
    requires there { caller.0 < dispatch.old.history.layout.callers }
    requires lives { dispatch.old.failed ≡ false }
    requires open { dispatch.old.closed ≡ false }
    requires kept { tail.old.all ≡ dispatch.old.history.entries }
    requires space { length tail.old.all + most_made dispatch.old.history.layout ≤ tail.old.room + tail.old.given }
    ensures room { is_ok result ≡ takes dispatch.old.history (who.Caller caller) (calls.Tick ticks) }
    ensures ticks { IfOk result (λ _. Ticks caller ticks dispatch.old dispatch.new wakes.old wakes.new) }
    ensures kept { IfOk result (λ _. tail.new ≡ record tail.old { all = dispatch.new.history.entries }) }
    ensures tickets { IfOk result (λ _. SameTickets (past_now dispatch.old) (past_now dispatch.new)) }
    ensures stays { IfOk result (λ _. Stays dispatch.old dispatch.new) }
    ensures same { OnErr result
        ((dispatch.new ≡ dispatch.old) × (tail.new ≡ tail.old) × (wakes.new ≡ wakes.old)) }
{
    let ticked = enter(
        dispatch,
        tail,
        Who::Caller(caller),
        Call::Tick { ticks },
        wakes,
    );
    match ticked {
        Ok(_) => {
            fire_due(dispatch, tail, caller, wakes);
            Ok(())
        }
        Err(Full) => Err(Full),
    }
}
