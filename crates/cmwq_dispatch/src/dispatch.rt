//! A hub without threads: what its calls return, who sleeps, and who is to be woken.

ghost use Rattle.std.specs.Prelude.{◌≡◌, ◌<◌, ◌≤◌, ◌+◌, ◌-◌, ◌∷◌, ◌&&◌, IfOk, IfSome, IsTrue, drop, false, is_ok};
ghost use Rattle.std.specs.Prelude.{[], not};
ghost use Rattle.std.specs.Prelude.{if◌then◌else◌, is_some, length, nat_lt, true};
ghost use Rattle.cmwq_core.specs.History.{past_in, takes};
ghost use Rattle.cmwq_core.specs.Plans.{IsPlan};
ghost use Rattle.cmwq_model.specs.Prelude.{IsLegal, fits, has_numbers, has_run, most_room, number_started};
ghost use Rattle.cmwq_model.specs.declared.id.Who.TheVariants as who;
ghost use Rattle.cmwq_state.specs.Tables as tables;
ghost use Rattle.cmwq_theory_steps.specs.Endings.{ending};
ghost use Rattle.cmwq_theory_steps.specs.ItemQueueings.{queueing_run};
ghost use Rattle.cmwq_theory_wakes.specs.Rest.{IsUnready};
ghost use Rattle.cmwq_theory_wakes.specs.Starting.{would_start};
ghost use Rattle.cmwq_waits.specs.Refused.{Refuses};
ghost use Rattle.cmwq_waits.specs.Registered.{refusal_of};
ghost use Rattle.cmwq_dispatch.specs.Asleep.{IsLookedAfter, IsUpAgain, NobodySleeps, Rests, SleepOn, Waits};
ghost use Rattle.cmwq_dispatch.specs.Dispatched.{Enters, FallsAsleep, IsEndPlan, IsStartPlan, MayEnter, SameButAsleep};
ghost use Rattle.cmwq_dispatch.specs.Dispatched.{Stands, is_finished, is_new, is_over, past_now};
ghost use Rattle.cmwq_dispatch.specs.Dispatched.{waits_now};
ghost use Rattle.cmwq_dispatch.specs.Naming.{NamesAll, NamesMore};
ghost use Rattle.cmwq_dispatch.specs.Waiting.{IsKnown};

use crate::sleepers::Sleepers;
use crate::wakes::Wakes;
use cmwq_core::{Execution, Full, Plan};
use cmwq_model::{
    Call, CallerId, Entry, NoMemory, Number, Queueing, Reply, Shape, Ticket, Who, WorkerId,
};
use cmwq_waits::{RunWaits, Stuck};
use std::alloc::Global;
use std::marker::Model;

/// How many callers may be about to fire at a time.
const MOST_FIRING: u32 = 4_294_967_295;

/// What an end of a ticket would be.
#[derive(Clone, Copy)]
pub enum EndPlan {
    /// It is done by this plan.
    Done(Plan),
    /// The wait of this ticket is not ready.
    Waits(Ticket),
    /// The caller has no such ticket.
    Unknown,
}

/// What a caller has while it may fire. It cannot be let go: whoever has it has to say that it fires no more.
pub struct Firing(());

/// What becomes of one that has nothing to do.
#[derive(Clone, Copy, Debug, PartialEq, Eq)]
pub enum Sleep {
    /// It is registered as asleep, and sleeps until it is named.
    Sleeps,
    /// It looks again, and is not registered.
    LooksAgain,
    /// The dispatch is over. Nobody will have anything to do any more.
    Over,
}

/// A hub without threads. Contracts see the history, whether it is closed, and who sleeps. Whoever has a dispatch knows
/// that nobody is forgotten.
#[derive(Drop)]
pub struct Dispatch {
    shape: Shape,
    execution: Execution,
    sleepers: Sleepers,
    runs: RunWaits,
    firing: u32,
    crowded: bool,
    closed: bool,
    failed: bool,
}

impl Model for Dispatch {
    ghost use Rattle.std.specs.Prelude.{◌≡◌};
    ghost use Rattle.cmwq_core.specs.History.{past_in};
    ghost use Rattle.cmwq_waits.specs.Begun.{HasWaitsOf};
    ghost use Rattle.cmwq_dispatch.specs.Dispatched.{Dispatched, Stands, dispatched_of};

    ghost Value = { Dispatched };

    ghost view = { λ d. dispatched_of d.execution d.closed d.failed d.crowded d.firing d.runs.first d.sleepers };

    ghost invariant = { λ d. (d.shape ≡ d.execution.layout)
        × HasWaitsOf d.execution.layout (past_in d.execution) d.runs
        × Stands (dispatched_of d.execution d.closed d.failed d.crowded d.firing d.runs.first d.sleepers) };
}

impl Dispatch {
    /// A dispatch with no entries, whose callers from a number on are lent to runs. No later call takes memory; the
    /// error says that it ran out.
    pub fn new(
        alloc: Global,
        shape: &Shape,
        room: u64,
        first_lent: CallerId,
    ) -> Result<Dispatch, NoMemory>
        requires { room ≤ most_room }
        ensures new { IfOk result (λ dispatch. dispatch ≡ is_new shape.now room first_lent.0 dispatch.asleep) }
        ensures nobody { IfOk result (λ dispatch. NobodySleeps dispatch.asleep) }
    {
        Ok(Dispatch {
            shape: shape.copy(alloc)?,
            execution: Execution::new(alloc, shape, room)?,
            sleepers: Sleepers::new(alloc, shape)?,
            runs: RunWaits::new(alloc, shape, first_lent)?,
            firing: 0,
            crowded: false,
            closed: false,
            failed: false,
        })
    }

    /// Callers from this number on are lent to runs. It has no entry yet.
    pub fn lends_from(&mut self, first: CallerId)
        requires { past_now self.old ≡ [] }
        ensures { self.new ≡ record self.old { first_lent = first.0 } }
    {
        self.runs.lends_from(first);
    }

    /// The number of the first caller that is lent to runs.
    pub fn first_lent(&self) -> CallerId
        ensures { result.0 ≡ self.now.first_lent }
    {
        self.runs.first_lent()
    }

    /// Lets the dispatch go, as `Execution::end` does an execution.
    pub fn end(self) {
        let Dispatch {
            shape: _shape,
            execution,
            sleepers: _sleepers,
            runs: _runs,
            firing: _,
            crowded: _,
            closed: _,
            failed: _,
        } = self;
        execution.end();
    }

    /// What holds of each dispatch. Nothing runs.
    pub fn stands(&self)
        ensures stands { Stands self.now }
        ensures legal { IsLegal self.now.history.layout (past_now self.now) }
    {
        let _len = self.execution.len();
    }

    /// The shape of the history.
    pub fn shape(&self) -> &Shape
        ensures { result.now ≡ self.now.history.layout }
    {
        &self.shape
    }

    /// The execution, of which anything may be asked.
    pub fn execution(&self) -> &Execution
        ensures { result.now ≡ self.now.history }
    {
        &self.execution
    }

    /// Whether nobody will have anything to do any more: it has failed, or it is closed, no active queueing is open,
    /// and no caller may still fire.
    pub fn is_over(&self) -> bool
        ensures { result ≡ is_over self.now }
    {
        self.failed || is_finished(&self.execution, self.closed, self.firing)
    }

    /// Whether callers begin nothing any more.
    pub fn is_closed(&self) -> bool
        ensures { result ≡ self.now.closed }
    {
        self.closed
    }

    /// Whether nobody makes an entry any more.
    pub fn has_failed(&self) -> bool
        ensures { result ≡ self.now.failed }
    {
        self.failed
    }

    /// The entry that this call would make.
    ///
    /// # Errors
    /// `Full` where there is no room for the entry and for what would be owed then.
    #[inline(always)]
    pub fn plan(&self, who: Who, call: Call) -> Result<Plan, Full>
        requires { IsTrue (fits self.now.history.layout who call) }
        ensures room { is_ok result ≡ takes self.now.history who call }
        ensures plan { IfOk result (λ plan. IsPlan self.now.history who call plan) }
    {
        self.execution.plan(who, call)
    }

    /// What the end of this ticket of the caller would be.
    pub fn plan_end(&self, caller: CallerId, ticket: Number) -> EndPlan
        requires { caller.0 < self.now.history.layout.callers }
        ensures { IsEndPlan self.now caller ticket result }
    {
        let _len = self.execution.len();
        let who = Who::Caller(caller);
        let state = self.execution.state();
        let Some(found) = state.ticket_of(who, ticket) else {
            return EndPlan::Unknown;
        };
        if state.waits_for(found).is_some() {
            return EndPlan::Waits(found);
        }
        let planned = self.execution.plan(who, Call::End { ticket });
        match planned {
            Ok(plan) => EndPlan::Done(plan),
            Err(Full) => unreachable!(),
        }
    }

    /// What this worker would start.
    pub fn plan_start(&self, worker: WorkerId) -> Option<Plan>
        requires { tables.IsThere self.now.history.layout (who.Worker worker) }
        ensures { IsStartPlan self.now worker result }
    {
        let _len = self.execution.len();
        let planned = self.execution.plan(Who::Worker(worker), Call::Take);
        match planned {
            Ok(plan) => {
                if starts(plan.mark.entry.reply) {
                    Some(plan)
                } else {
                    None
                }
            }
            Err(Full) => None,
        }
    }

    /// Makes the entry that was planned, and names those who can go on after it. A worker that makes an entry rests no
    /// more.
    #[inline(always)]
    pub fn commit(&mut self, plan: &Plan, wakes: &mut Wakes) -> Reply
        requires plan { (who : _) × (call : _) × IsPlan self.old.history who call plan.now }
        requires may { MayEnter self.old plan.now.mark.entry }
        ensures reply { result ≡ plan.now.mark.entry.reply }
        ensures enters { Enters plan.now.mark.entry self.old self.new }
        ensures named { SleepOn plan.now.mark.entry.who self.old.asleep self.new.asleep wakes.old wakes.new }
        ensures over { is_over self.old ≡ true → is_over self.new ≡ true }
    {
        let _len = self.execution.len();
        let was_over = self.is_over();
        let ended = self.execution.ended_by(plan);
        self.runs.enters(&self.execution, plan);
        let reply = self.execution.commit(plan);
        let is_over = is_finished(&self.execution, self.closed, self.firing);
        wake_after(
            &mut self.sleepers,
            &self.execution,
            &self.shape,
            &plan.mark.entry,
            &ended,
            was_over,
            is_over,
            wakes,
        );
        reply
    }

    /// A caller begins to sleep until the wait of this ticket is ready.
    pub fn sleeps(&mut self, ticket: Ticket) -> Sleep
        requires known { IsKnown self.old.history.layout (past_now self.old) ticket }
        requires unready { IsUnready (past_now self.old) ticket }
        ensures { FallsAsleep (Waits ticket) self.old result self.new }
    {
        if self.is_over() {
            return Sleep::Over;
        }
        if self.sleepers.waits(ticket) {
            Sleep::Sleeps
        } else {
            Sleep::LooksAgain
        }
    }

    /// A worker begins to rest until there is something to start.
    pub fn idles(&mut self, worker: WorkerId) -> Sleep
        requires there { tables.IsThere self.old.history.layout (who.Worker worker) }
        requires starts_nothing { would_start self.old.history.layout (past_now self.old) worker ≡ false }
        ensures rests { FallsAsleep (Rests worker) self.old result self.new }
        ensures looks_again { result ≡ Sleep.LooksAgain → has_run (past_now self.old) worker ≡ true }
    {
        let _counts = self.shape.counts();
        if self.is_over() {
            return Sleep::Over;
        }
        if self.execution.state().has_run(worker) {
            return Sleep::LooksAgain;
        }
        let is_enlisted = self.execution.state().is_enlisted(worker);
        self.sleepers.rests(worker, is_enlisted);
        Sleep::Sleeps
    }

    /// A caller or a worker is awake again, also where nobody named it. A worker looks next what it may start.
    pub fn awakes(&mut self, who: Who)
        ensures same { SameButAsleep self.old self.new }
        ensures awake { IsUpAgain who self.old.asleep self.new.asleep }
    {
        match who {
            Who::Caller(caller) => self.sleepers.leaves(caller),
            Who::Worker(worker) => self.sleepers.rises(worker),
        }
    }

    /// A caller may fire from now on, until it gives back what it gets here. It gets nothing once the dispatch is over,
    /// so that nobody may begin to fire, or where too many may fire.
    pub fn begins_firing(&mut self) -> Option<Firing>
        ensures may { is_some result ≡ (not (is_over self.old) && nat_lt self.old.firing 4294967295) }
        ensures new { self.new
            ≡ (if is_some result then record self.old { firing = self.old.firing + 1 } else self.old) }
    {
        if self.is_over() || self.firing >= MOST_FIRING {
            return None;
        }
        self.firing += 1;
        Some(Firing(()))
    }

    /// A caller fires no more. Everybody is named if the dispatch is over by that.
    pub fn ends_firing(&mut self, firing: Firing, wakes: &mut Wakes)
        ensures new { self.new ≡ record self.old { firing = self.old.firing - 1; asleep = self.new.asleep } }
        ensures named { (who : _) → SleepOn who self.old.asleep self.new.asleep wakes.old wakes.new }
    {
        let Firing(()) = firing;
        let was_over = self.is_over();
        self.firing = self.firing.saturating_sub(1);
        let is_over = is_finished(&self.execution, self.closed, self.firing);
        wake_if_over(&mut self.sleepers, was_over, is_over, wakes);
    }

    /// Callers begin nothing from now on. Everybody is named.
    pub fn close(&mut self, wakes: &mut Wakes)
        ensures new { self.new ≡ record self.old { closed = true; asleep = self.new.asleep } }
        ensures nobody { NobodySleeps self.new.asleep }
        ensures all { NamesAll wakes.new }
        ensures more { NamesMore wakes.old wakes.new }
    {
        self.closed = true;
        self.sleepers.clear();
        wakes.add_all();
    }

    /// Nobody makes an entry from now on. Everybody is named.
    pub fn fail(&mut self, wakes: &mut Wakes)
        ensures new { self.new ≡ record self.old { failed = true; asleep = self.new.asleep } }
        ensures nobody { NobodySleeps self.new.asleep }
        ensures all { NamesAll wakes.new }
        ensures more { NamesMore wakes.old wakes.new }
    {
        self.failed = true;
        self.sleepers.clear();
        wakes.add_all();
    }

    /// Somebody sleeps until there is space.
    pub fn crowds(&mut self)
        ensures { self.new ≡ record self.old { crowded = true } }
    {
        self.crowded = true;
    }

    /// There is space. Everybody is named if somebody sleeps for it.
    pub fn clears_space(&mut self, wakes: &mut Wakes)
        ensures new { self.new ≡ record self.old { crowded = false } }
        ensures all { self.old.crowded ≡ true → NamesAll wakes.new }
        ensures more { NamesMore wakes.old wakes.new }
    {
        if self.crowded {
            self.crowded = false;
            wakes.add_all();
        }
    }

    /// Whether somebody sleeps until there is space.
    pub fn is_crowded(&self) -> bool
        ensures { result ≡ self.now.crowded }
    {
        self.crowded
    }

    /// Why a wait of what the worker runs, by this call of a caller that is lent to it, is refused, if it is.
    pub fn refuses(&mut self, worker: WorkerId, call: Call) -> Option<Stuck>
        requires numbers { has_numbers self.old.history.layout call ≡ true }
        requires there { tables.IsThere self.old.history.layout (who.Worker worker) }
        ensures is { result
            ≡ refusal_of self.old.history.layout (past_now self.old) (waits_now self.old) worker call }
        ensures refused { IfSome (queueing_run (past_now self.old) (who.Worker worker))
            (λ run. Refuses self.old.history.layout (past_now self.old) (waits_now self.old) run call result) }
        ensures same { self.new ≡ self.old }
    {
        self.runs
            .refuses(&self.execution, &self.shape, worker, call)
    }
}

/// Whether a closed one is over: no active queueing is open, and no caller may still fire.
fn is_finished(execution: &Execution, closed: bool, firing: u32) -> bool
    ensures { result ≡ is_finished execution.now closed firing }
{
    closed && execution.state().active_count() == 0 && firing == 0
}

/// Whether a queueing starts.
fn starts(reply: Reply) -> bool
    ensures { result ≡ is_some (number_started reply) }
{
    matches!(reply, Reply::Started(_) | Reply::StartedEnlist(_, _))
}

/// After an entry that ended this queueing: those are named who can go on, or everybody if it is over by that. Once it
/// is over nobody sleeps.
fn wake_after(
    sleepers: &mut Sleepers,
    execution: &Execution,
    shape: &Shape,
    entry: &Entry,
    ended: &Option<Queueing>,
    was_over: bool,
    is_over: bool,
    wakes: &mut Wakes,
)
    requires past { past_in execution.now ≡ entry.now ∷ drop 1 (past_in execution.now) }
    requires legal { IsLegal execution.now.layout (past_in execution.now) }
    requires shape { shape.now ≡ execution.now.layout }
    requires ended { ended.now ≡ ending (drop 1 (past_in execution.now)) entry.now }
    requires before { IsLookedAfter execution.now.layout (drop 1 (past_in execution.now)) sleepers.old }
    requires over { was_over ≡ true → NobodySleeps sleepers.old }
    ensures after { IsLookedAfter execution.now.layout (past_in execution.now) sleepers.new }
    ensures nobody { is_over ≡ true → NobodySleeps sleepers.new }
    ensures named { SleepOn entry.now.who sleepers.old sleepers.new wakes.old wakes.new }
{
    if was_over {
        return;
    }
    if is_over {
        sleepers.clear();
        wakes.add_all();
        return;
    }
    sleepers.rises_by(entry.who);
    sleepers.entered(execution, shape, entry, ended, wakes);
}

/// Everybody is named if it is over now, and was not before.
fn wake_if_over(sleepers: &mut Sleepers, was_over: bool, is_over: bool, wakes: &mut Wakes)
    requires over { was_over ≡ true → NobodySleeps sleepers.old }
    ensures same { (is_over && not was_over) ≡ false → sleepers.new ≡ sleepers.old }
    ensures nobody { is_over ≡ true → NobodySleeps sleepers.new }
    ensures places { length sleepers.new.pools ≡ length sleepers.old.pools }
    ensures named { (who : _) → SleepOn who sleepers.old sleepers.new wakes.old wakes.new }
{
    if is_over && !was_over {
        sleepers.clear();
        wakes.add_all();
    }
}
