//! What workers run.
ghost use Rattle.std.specs.Prelude.{◌≡◌, ◌⊎◌, ◌<◌, ◌≤◌, ◌&&◌, true, false, length, IfOk, IfErr, None, Some, Err};
ghost use Rattle.std.specs.List.{list_all};
ghost use Rattle.cmwq_model.specs.Prelude.{has_numbers, is_callers, is_workers, is_tick};
ghost use Rattle.cmwq_model.specs.declared.call.Call.TheVariants as calls;
ghost use Rattle.cmwq_monitor.specs.Participants.{is_caller};
ghost use Rattle.cmwq_monitor.specs.Faults.{Refused, is_full};
ghost use Rattle.cmwq_monitor.specs.declared.fault.RunFault.TheVariants.{Full};
ghost use Rattle.cmwq_monitor.specs.declared.fault.RunFault.TheVariants as faults;
ghost use Rattle.cmwq_rt.specs.Batches.{MakesBatch, StopsBatch, fault_after_batch};
ghost use Rattle.cmwq_rt.specs.Later.{Later};
ghost use Rattle.cmwq_rt.specs.Starting.{HasStarted};
ghost use Rattle.cmwq_rt.specs.Promises.{MadeInRun, WaitedInRun};
ghost use Rattle.cmwq_rt.specs.Running.{RunsItem, MakesOne, breaks_off};
ghost use Rattle.cmwq_rt.specs.Sums.{no_waits};
ghost use Rattle.cmwq_rt.specs.Waiting.{HasWaited, SleepsThrough, TellsWhy, WhyNot, fault_after_wait, is_for_itself};
ghost use Rattle.cmwq_rt.specs.Waiting.{is_wait, left_out_after};
ghost use Rattle.cmwq_rt.specs.declared.wait_fault.WaitFault.TheVariants as waits;

use crate::batch::BatchFault;
use crate::caller::Caller;
use crate::calls::{Calls, RunCalls};
use crate::completion::Completion;
use crate::hub::Hub;
use crate::left_out::LeftOut;
use crate::lent::Lent;
use crate::wait_fault::WaitFault;
use cmwq_model::{Call, ItemId, Reply, Shape};
use cmwq_monitor::{Participant, RunFault};
use cmwq_publish::HubName;
use core::mem::replace_with;
use std::marker::Model;
use std::sync::Wait;

/// What a work function is given: it makes calls by its worker. Contracts see the item, who runs it, its serial and the
/// history that it has seen, the fault that a call of this run has answered, if any but want of room was, and how many
/// waits the run has left out.
#[derive(Drop)]
pub struct RunCtx<'a, N: HubName, R> {
    rt: &'a R,
    hub: &'a Hub<N>,
    participant: Participant<N>,
    lent: Option<&'a Lent<N>>,
    item: ItemId,
    is_asleep: bool,
    fault: Option<RunFault>,
    left_out: LeftOut,
}

impl<'a, N: HubName, R> Model for RunCtx<'a, N, R> {
    ghost use Rattle.std.specs.Prelude.{◌≡◌, false, true, IfSome};
    ghost use Rattle.cmwq_monitor.specs.Participants.{is_caller};
    ghost use Rattle.cmwq_rt.specs.Running.{Running, breaks_off};

    ghost Value = { Running };

    ghost view = { λ c. record { item = c.item; participant = c.participant; fault = c.fault; left_out = c.left_out } };

    ghost invariant = { λ c. (is_caller c.participant.who ≡ false) × IfSome c.fault (λ f. breaks_off f ≡ true) };
}

/// The work functions of all items (the kernel's `work_func_t`).
pub trait Work {
    ghost use Rattle.std.specs.Prelude.{◌≡◌, ◌<◌, None};
    ghost use Rattle.cmwq_model.specs.Prelude.{Layout};
    ghost use Rattle.cmwq_rt.specs.Later.{Later};
    ghost use Rattle.cmwq_rt.specs.Starting.{HasStarted};
    ghost use Rattle.cmwq_rt.specs.Running.{Behavior};
    ghost use Rattle.cmwq_rt.specs.Sums.{no_waits};

    /// What one run of an item does in a hub of this shape, where it left out so many waits: `Hub::work` carries it
    /// into the history. Nothing is said where it is left out.
    ghost does: { Self → Layout → Behavior } = { λ _ _ _ _ _ _. Unit {0} };

    /// Runs an item, once for each start of one of its queueings. A run in which a call answered a fault other than
    /// want of room may break off: its worker answers that fault.
    fn run<N: HubName, R: Wait>(&self, item: ItemId, context: &mut RunCtx<N, R>)
        requires item { item.0 < N.layout.items }
        requires started { HasStarted context.old.participant item }
        requires own { context.old.item ≡ item }
        requires fresh { context.old.fault ≡ None }
        requires empty { context.old.left_out ≡ no_waits }
        ensures later { Later context.old.participant context.new.participant }
        ensures done { context.new.fault ≡ None
            → does self.now N.layout item context.new.left_out context.old.participant context.new.participant };
}

/// How many of a batch of so many calls were made.
fn made_of_batch(answer: &Result<(), BatchFault<RunFault>>, calls: usize) -> usize {
    match answer {
        Ok(()) => calls,
        Err(stopped) => stopped.made,
    }
}

/// The fault of a run after a batch of its calls.
fn fault_of_batch(
    answer: &Result<(), BatchFault<RunFault>>,
    before: Option<RunFault>,
) -> Option<RunFault>
    ensures { result ≡ fault_after_batch answer.now before }
{
    match answer {
        Ok(()) => before,
        Err(stopped) => match stopped.fault {
            RunFault::Full => before,
            fault => Some(fault),
        },
    }
}

/// Whether a run is asleep after the first of these replies, so many.
fn is_asleep_after(replies: &[Reply], many: usize, before: bool) -> bool {
    let mut is_asleep = before;
    for reply in replies.iter().take(many) {
        match reply {
            Reply::Slept => is_asleep = true,
            Reply::Woke => is_asleep = false,
            _ => {}
        }
    }
    is_asleep
}

impl<'a, N: HubName, R: Wait> RunCtx<'a, N, R> {
    /// The leave to wait.
    pub fn rt(&self) -> &R {
        self.rt
    }

    /// The shape of the hub.
    pub fn shape(&self) -> &Shape
        ensures { result.now ≡ N.layout }
    {
        self.hub.shape()
    }

    /// The item that runs.
    pub fn item(&self) -> ItemId
        ensures { result ≡ self.now.item }
    {
        self.item
    }

    /// Breaks the run off: its worker returns this fault, as if a call of the run had returned it.
    pub fn break_off(&mut self, fault: RunFault)
        requires { breaks_off fault ≡ true }
        ensures { self.new ≡ record self.old { fault = Some fault } }
    {
        self.fault = Some(fault);
    }

    /// Completes it once: one of those who wait for it goes on, or the next one who does (`complete`).
    pub fn complete(&self, completion: &Completion) {
        self.hub.complete(self.rt, completion);
    }

    /// Completes it for good: all who wait for it go on, now and later (`complete_all`).
    pub fn complete_all(&self, completion: &Completion) {
        self.hub.complete_all(self.rt, completion);
    }

    /// The run waits until it is completed (`wait_for_completion`). It makes no entry: a run that is to let others of
    /// its pool start sleeps before, and wakes after that.
    ///
    /// # Errors
    /// `NoMemory` if the hub has failed.
    pub fn wait_for(&self, completion: &Completion) -> Result<(), RunFault>
        ensures { IfErr result (λ f. f ≡ faults.NoMemory None) }
    {
        self.hub.wait_for(self.rt, completion)
    }

    /// Makes a call of the worker: one entry.
    #[tactic(auto, using(crate::proofs::Running::refused_breaks_off))]
    fn make_one(&mut self, call: Call) -> Result<Reply, RunFault>
        requires workers { is_workers call ≡ true }
        requires numbers { has_numbers N.layout call ≡ true }
        ensures { MadeInRun N.layout self.old call result self.new }
    {
        let _who = self.participant.who();
        let answer = self.hub.call(self.rt, &mut self.participant, call);
        match answer {
            Ok(Reply::Slept) => self.is_asleep = true,
            Ok(Reply::Woke) => self.is_asleep = false,
            Ok(_) | Err(RunFault::Full) => {}
            Err(fault) => self.fault = Some(fault),
        }
        answer
    }

    /// Makes calls of the worker, one after another: one entry each, 64 at most in one hold of the lock. The reply of
    /// each is written to the place of the same number.
    ///
    /// # Errors
    /// Those of `make`, with how many calls were made before. No later call is made.
    pub fn make_all(
        &mut self,
        calls: &[Call],
        replies: &mut [Reply],
    ) -> Result<(), BatchFault<RunFault>>
        requires workers { list_all (λ c. is_workers c && has_numbers N.layout c) calls.now ≡ true }
        requires room { length calls.now ≤ length replies.old }
        ensures later { Later self.old.participant self.new.participant }
        ensures made { IfOk result
            (λ _. MakesBatch N.layout self.old.participant calls.now replies.old replies.new self.new.participant) }
        ensures stopped { IfErr result
            (λ e. StopsBatch N.layout self.old.participant calls.now e.made e.fault replies.old replies.new
            self.new.participant) }
        ensures fault { self.new.fault ≡ fault_after_batch result self.old.fault }
        ensures item { self.new.item ≡ self.old.item }
        ensures left_out { self.new.left_out ≡ self.old.left_out }
    {
        let _who = self.participant.who();
        let answer = self
            .hub
            .call_all(self.rt, &mut self.participant, calls, replies);
        let made = made_of_batch(&answer, calls.len());
        self.is_asleep = is_asleep_after(replies, made, self.is_asleep);
        self.fault = fault_of_batch(&answer, self.fault);
        answer
    }
}

impl<'a, N: HubName, R: Wait> Calls for RunCtx<'a, N, R> {
    type Fault = RunFault;

    type WaitFault = WaitFault;

    ghost may_make = { λ c. (is_workers c ≡ true) × (has_numbers N.layout c ≡ true) };

    ghost may_wait = { λ c. (is_wait c ≡ true) × (has_numbers N.layout c ≡ true) };

    ghost made = { λ v c answer w. MadeInRun N.layout v c answer w };

    ghost waited = { λ v c answer w. WaitedInRun N.layout N.first_lent v c answer w };

    /// Makes a call of the worker.
    ///
    /// # Errors
    /// `Full` where there is no room for it, `NoMemory` where the hub has failed; it has made no entry then.
    fn make(&mut self, call: Call) -> Result<Reply, RunFault> {
        self.make_one(call)
    }

    /// Waits by a caller that is lent to the run meanwhile. The run sleeps from before the call's first entry until
    /// after its last. A run that is asleep wakes first.
    ///
    /// # Errors
    /// They are looked for in this order. `Itself` if it would wait for its own run. `Deadlock` if it could never end,
    /// unless another thread takes something back, moves it or widens a queue. `NoCaller` if no caller is left to be
    /// lent, or the hub does not lend the one that is. `Run` with `Full` if there is no room for the whole wait. Then
    /// nothing was made, but that a run that was asleep may have woken. `Run` with another fault of the hub.
    fn wait(&mut self, call: Call) -> Result<Reply, WaitFault> {
        let answer = self.wait_uncounted(call);
        self.count(&answer);
        answer
    }
}

impl<'a, N: HubName, R: Wait> RunCalls for RunCtx<'a, N, R> {}

/// Whether the call waits for this item's run.
fn is_for_itself(own: ItemId, call: Call) -> bool
    ensures { result ≡ is_for_itself own call }
{
    match call {
        Call::FlushItem { item } | Call::CancelSync { item } => item.0 == own.0,
        _ => false,
    }
}

impl<'a, N: HubName, R: Wait> RunCtx<'a, N, R> {
    /// Counts the wait that was answered so, if it was left out.
    fn count(&mut self, answer: &Result<Reply, WaitFault>)
        ensures { self.new ≡ record self.old { left_out = left_out_after answer.now self.old.left_out } }
    {
        self.left_out = self.left_out.after(answer);
    }

    /// Waits as `wait` does, and counts nothing.
    fn wait_uncounted(&mut self, call: Call) -> Result<Reply, WaitFault>
        requires waits { is_wait call ≡ true }
        requires numbers { has_numbers N.layout call ≡ true }
        ensures later { Later self.old.participant self.new.participant }
        ensures waited { IfOk result
            (λ reply. HasWaited N.layout N.first_lent self.old.participant call reply self.new.participant) }
        ensures itself { is_for_itself self.old.item call ≡ true → (result ≡ Err waits.Itself) × (self.new ≡ self.old) }
        ensures why { IfErr result
            (λ f. WhyNot N.layout N.first_lent self.old.item self.old.participant call f self.new.participant) }
        ensures fault { self.new.fault ≡ fault_after_wait result self.old.fault }
        ensures item { self.new.item ≡ self.old.item }
        ensures left_out { self.new.left_out ≡ self.old.left_out }
    {
        if is_for_itself(self.item, call) {
            return Err(WaitFault::Itself);
        }
        self.wait_lent(call)
    }

    /// Waits by a caller that is lent to the run.
    #[tactic(auto, using(crate::proofs::Sleeping::waits_by_caller, crate::proofs::Sleeping::why_once_awake))]
    fn wait_lent(&mut self, call: Call) -> Result<Reply, WaitFault>
        requires waits { is_wait call ≡ true }
        requires numbers { has_numbers N.layout call ≡ true }
        ensures later { Later self.old.participant self.new.participant }
        ensures waited { IfOk result
            (λ reply. HasWaited N.layout N.first_lent self.old.participant call reply self.new.participant) }
        ensures why { IfErr result
            (λ f. WhyNot N.layout N.first_lent self.old.item self.old.participant call f self.new.participant) }
        ensures fault { self.new.fault ≡ fault_after_wait result self.old.fault }
        ensures item { self.new.item ≡ self.old.item }
        ensures left_out { self.new.left_out ≡ self.old.left_out }
    {
        match self.be_awake() {
            Ok(()) => self.wait_awake(call),
            Err(fault) => Err(WaitFault::Run { fault }),
        }
    }

    /// Wakes a run that is asleep.
    #[tactic(auto, using(crate::proofs::Later::later_self, crate::proofs::Running::refused_breaks_off))]
    fn be_awake(&mut self) -> Result<(), RunFault>
        ensures later { Later self.old.participant self.new.participant }
        ensures wakes { IfOk result (λ _. (self.new.participant ≡ self.old.participant)
            ⊎ MakesOne N.layout self.old.participant calls.Wake self.new.participant) }
        ensures kept { IfOk result (λ _. self.new.fault ≡ self.old.fault) }
        ensures full { IfErr result (λ f. f ≡ Full
            → Refused N.layout self.old.participant calls.Wake Full self.new.participant) }
        ensures fault { IfErr result (λ f. self.new.fault ≡ fault_after_wait (Err (waits.Run f)) self.old.fault) }
        ensures item { self.new.item ≡ self.old.item }
        ensures left_out { self.new.left_out ≡ self.old.left_out }
    {
        if !self.is_asleep {
            return Ok(());
        }
        match self.make_one(Call::Wake) {
            Ok(_) => Ok(()),
            Err(fault) => Err(fault),
        }
    }

    /// Waits by a caller that is lent to the run, which is awake.
    fn wait_awake(&mut self, call: Call) -> Result<Reply, WaitFault>
        requires callers { is_callers call ≡ true }
        requires numbers { has_numbers N.layout call ≡ true }
        requires waits { is_tick call ≡ false }
        requires kind { is_wait call ≡ true }
        ensures later { Later self.old.participant self.new.participant }
        ensures waited { IfOk result
            (λ reply. SleepsThrough N.layout N.first_lent self.old.participant call reply self.new.participant) }
        ensures why { IfErr result
            (λ f. TellsWhy N.layout N.first_lent self.old.participant call f self.new.participant) }
        ensures fault { self.new.fault ≡ fault_after_wait result self.old.fault }
        ensures item { self.new.item ≡ self.old.item }
        ensures left_out { self.new.left_out ≡ self.old.left_out }
    {
        let _who = self.participant.who();
        let answer = self
            .hub
            .sleep_through(self.rt, &mut self.participant, self.lent, call);
        match answer {
            Ok(_)
            | Err(
                WaitFault::Run {
                    fault: RunFault::Full,
                },
            ) => {}
            Err(WaitFault::Run { fault }) => self.fault = Some(fault),
            Err(_) => {}
        }
        answer
    }
}

impl<'a, N: HubName, R: Wait> RunCtx<'a, N, R> {
    /// Wakes a run that came back asleep, and answers how many waits it left out. One that a fault broke off answers
    /// that.
    #[tactic(auto, using(crate::proofs::Later::later_self, crate::proofs::Running::refused_breaks_off))]
    fn end_run(&mut self) -> Result<LeftOut, RunFault>
        ensures later { Later self.old.participant self.new.participant }
        ensures fault { IfErr result (λ f. breaks_off f ≡ true) }
        ensures whole { IfOk result (λ l. (self.old.fault ≡ None) × (l ≡ self.old.left_out)) }
        ensures wakes { IfOk result (λ _. (self.new.participant ≡ self.old.participant)
            ⊎ MakesOne N.layout self.old.participant calls.Wake self.new.participant) }
    {
        if let Some(fault) = self.fault {
            return Err(fault);
        }
        let left_out = self.left_out;
        if !self.is_asleep {
            return Ok(left_out);
        }
        match self.make_one(Call::Wake) {
            Ok(_) => Ok(left_out),
            Err(fault) => Err(with_room(fault)),
        }
    }
}

/// The fault of a call that ends a run. Its room was reserved when the queueing began: should there be none, the hub
/// can't go on, and that is told as want of memory.
pub(crate) fn with_room(fault: RunFault) -> RunFault
    requires { is_full fault ≡ false → breaks_off fault ≡ true }
    ensures { breaks_off result ≡ true }
{
    match fault {
        RunFault::Full => RunFault::NoMemory { ticket: None },
        _ => fault,
    }
}

/// Runs an item in a context that has the worker's participant, and gives the participant back. It answers how many
/// waits the run left out.
fn run_once<N: HubName, R: Wait, W: Work>(
    rt: &R,
    hub: &Hub<N>,
    participant: Participant<N>,
    lent: Option<&Lent<N>>,
    work: &W,
    item: ItemId,
) -> (Participant<N>, Result<LeftOut, RunFault>)
    requires worker { is_caller participant.who ≡ false }
    requires item { item.0 < N.layout.items }
    requires started { HasStarted participant item }
    ensures later { Later participant result.0 }
    ensures ran { IfOk result.1 (λ l. RunsItem N.layout (W.does work.now N.layout) item l participant result.0) }
    ensures fault { IfErr result.1 (λ f. breaks_off f ≡ true) }
{
    let mut context = RunCtx {
        rt,
        hub,
        participant,
        lent,
        item,
        is_asleep: false,
        fault: None,
        left_out: LeftOut::none(),
    };
    work.run::<N, R>(item, &mut context);
    let ended = context.end_run();
    let RunCtx {
        rt: _,
        hub: _,
        participant,
        lent: _,
        item: _,
        is_asleep: _,
        fault: _,
        left_out: _,
    } = context;
    (participant, ended)
}

/// The same in place.
pub(crate) fn run_in<N: HubName, R: Wait, W: Work>(
    rt: &R,
    hub: &Hub<N>,
    participant: &mut Participant<N>,
    lent: Option<&Lent<N>>,
    work: &W,
    item: ItemId,
) -> Result<LeftOut, RunFault>
    requires worker { is_caller participant.old.who ≡ false }
    requires item { item.0 < N.layout.items }
    requires started { HasStarted participant.old item }
    ensures later { Later participant.old participant.new }
    ensures ran { IfOk result
        (λ l. RunsItem N.layout (W.does work.now N.layout) item l participant.old participant.new) }
    ensures fault { IfErr result (λ f. breaks_off f ≡ true) }
{
    replace_with(
        participant,
        lent,
        |participant, lent| -> (Participant<N>, Result<LeftOut, RunFault>)
            requires { (is_caller participant.who ≡ false) × (item.0 < N.layout.items) × HasStarted participant item }
            ensures { Later participant result.0
                × IfOk result.1 (λ l. RunsItem N.layout (W.does work.entry.now N.layout) item l participant result.0)
                × IfErr result.1 (λ f. breaks_off f ≡ true) }
        { run_once(rt, hub, participant, lent, work, item) },
    )
}
