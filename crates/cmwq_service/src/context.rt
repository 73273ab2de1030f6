//! What a work function makes calls by.
ghost use Rattle.std.specs.Prelude.{◌≡◌};
ghost use Rattle.cmwq_rt.specs.Later.{Later};
ghost use Rattle.cmwq_service.specs.Calls.{IsAfter};

use crate::fault::{Fault, fault_of_wait, in_batch};
use crate::outside::{Outside, outside_for_workers};
use crate::start::Start;
use cmwq_model::{Call, ItemId, Reply, Shape};
use cmwq_rt::{BatchFault, Calls, Completion, HubName, RunCalls, RunCtx};
use std::marker::PhantomData;
use std::sync::Wait;

/// The worker that runs an item. Its calls are entries of the worker. Contracts see the shape of its hub, and of itself
/// who it is, its serial and the history that it has seen.
///
/// # Errors
/// Every call that names an item, a queue or a CPU answers `Fault::Outside` where one isn't inside the shape. The fault
/// tells the first such number, and its limit. Otherwise a call answers what the hub does, as `Fault::Run`: `Full`
/// where there is no room for it, `NoMemory` where the hub has failed. It has made no entry then.
///
/// A wait is made by a caller that the library lends to the run, which sleeps meanwhile, and wakes after it. It answers
/// `Itself`, `Deadlock` or `NoCaller` if the run may not wait, and otherwise `Run` as the hub returns it: the run may
/// have slept and woken.
pub trait Context: RunCalls<Fault = Fault, WaitFault = Fault> {
    ghost use Rattle.std.specs.Prelude.{◌≡◌, ◌≤◌, ℕ, true, length, IfOk, IfErr, None, Result};
    ghost use Rattle.cmwq_model.specs.declared.call.Call.{Call};
    ghost use Rattle.cmwq_model.specs.declared.reply.Reply.{Reply};
    ghost use Rattle.cmwq_model.specs.Prelude.{Layout, is_workers};
    ghost use Rattle.cmwq_model.specs.declared.id.ItemId as ids;
    ghost use Rattle.cmwq_monitor.specs.Participants.{View};
    ghost use Rattle.cmwq_rt.specs.Waiting.{is_wait};
    ghost use Rattle.cmwq_monitor.specs.declared.fault.RunFault.TheVariants.{NoMemory};
    ghost use Rattle.cmwq_rt.specs.Batches.{MakesBatch};
    ghost use Rattle.cmwq_service.specs.Calls.{DeniedBatch, MadeOrDenied, WaitedOrNot};
    ghost use Rattle.cmwq_service.specs.declared.fault.Fault.{Fault};
    ghost use Rattle.cmwq_service.specs.declared.fault.Fault.TheVariants.{Run};

    /// The shape of its hub.
    ghost layout: { Layout };

    /// From which number on the hub's callers are lent to runs.
    ghost first_lent: { ℕ };

    /// The item that runs.
    ghost runs: { Self → ids.ItemId };

    /// Who it is, its serial and what it has seen.
    ghost view: { Self → View };

    /// The shape of the hub.
    fn shape(&self) -> &Shape
        ensures { result.now ≡ layout };

    /// The item that runs.
    fn item(&self) -> ItemId
        ensures { result ≡ runs self.now };

    /// Makes calls of the worker, one after another: 64 at most in one hold of the hub's lock, which is faster than
    /// one hold for each. The reply of each is written to the place of the same number.
    ///
    /// # Errors
    /// Those of `make`, with how many calls were made before; no later call is made. `Outside` also where one of them
    /// is no call of workers. It tells the first of the calls that is refused, and none is made.
    fn make_all(&mut self, calls: &[Call], replies: &mut [Reply]) -> Result<(), BatchFault<Fault>>
        requires room { length calls.now ≤ length replies.old }
        ensures made { IfOk result
            (λ _. MakesBatch layout (view self.old) calls.now replies.old replies.new (view self.new)) }
        ensures denied { IfErr result
            (λ e. DeniedBatch is_workers layout (view self.old) calls.now e.made e.fault replies.old
            replies.new (view self.new)) }
        ensures runs { runs self.new ≡ runs self.old };

    /// Waits until another thread of the service completes it (`wait_for_completion`). This makes no entry: a run that
    /// is to let others of its pool start sleeps before, and wakes after it.
    ///
    /// # Errors
    /// `Run` with `NoMemory` after the service has stopped, so that it may never be completed.
    fn wait_for(&self, completion: &Completion) -> Result<(), Fault>
        ensures { IfErr result (λ f. f ≡ Run (NoMemory None)) };

    /// Completes it once: one of those who wait for it goes on, or the next one who does (`complete`).
    fn complete(&self, completion: &Completion);

    /// Completes it for good: all who wait for it go on, now and later (`complete_all`).
    fn complete_all(&self, completion: &Completion);

    /// It may make each call of workers.
    ghost makes: { (c : Call) → is_workers c ≡ true → Self.may_make c };

    /// It may wait by each call by which a run waits.
    ghost waits: { (c : Call) → is_wait c ≡ true → Self.may_wait c };

    /// What each call of one entry promises.
    ghost when_made: { (v w : Self) (c : Call) (answer : Result Reply Fault) → Self.made v c answer w
        → MadeOrDenied layout (view v) c answer (view w) × (runs w ≡ runs v) };

    /// What each wait promises.
    ghost when_waited: { (v w : Self) (c : Call) (answer : Result Reply Fault) → Self.waited v c answer w
        → WaitedOrNot layout first_lent (runs v) (view v) c answer (view w) × (runs w ≡ runs v) };
}

/// The context that `run` gives to a service: its worker is the one of its start, and sees all that it had seen.
pub(crate) struct HubContext<'a, N: HubName, B: Start, R> {
    run: RunCtx<'a, N, R>,
    of: PhantomData<B>,
    ghost after: { IsAfter B.start run.participant },
}

impl<'a, N: HubName, B: Start, R: Wait> HubContext<'a, N, B, R> {
    #[tactic(auto, using(crate::proofs::Continuing::after_self))]
    pub(crate) fn new(run: RunCtx<'a, N, R>) -> HubContext<'a, N, B, R>
        requires { run.participant ≡ B.start }
        ensures same { result.run.participant ≡ run.entry.participant }
        ensures item { result.run.item ≡ run.entry.item }
    {
        HubContext {
            run,
            of: PhantomData,
        }
    }

    #[tactic(auto, using(crate::proofs::Continuing::later_after))]
    pub(crate) fn into_run(self) -> RunCtx<'a, N, R>
        ensures same { result.participant ≡ self.entry.run.participant }
        ensures later { Later B.start result.participant }
    {
        let HubContext { run, of: _ } = self;
        run
    }
}

impl<'a, N: HubName, B: Start, R: Wait> Calls for HubContext<'a, N, B, R> {
    ghost use Rattle.std.specs.Prelude.{◌≡◌, true};
    ghost use Rattle.cmwq_model.specs.Prelude.{is_workers};
    ghost use Rattle.cmwq_rt.specs.Waiting.{is_wait};
    ghost use Rattle.cmwq_service.specs.Calls.{MadeOrDenied, WaitedOrNot};

    type Fault = Fault;

    type WaitFault = Fault;

    ghost may_make = { λ c. is_workers c ≡ true };

    ghost may_wait = { λ c. is_wait c ≡ true };

    ghost made = { λ v c answer w. MadeOrDenied N.layout v.run.participant c answer w.run.participant
        × (w.run.item ≡ v.run.item) };

    ghost waited = { λ v c answer w. WaitedOrNot N.layout N.first_lent v.run.item v.run.participant c answer
        w.run.participant × (w.run.item ≡ v.run.item) };

    #[tactic(auto, using(crate::proofs::Continuing::after_later))]
    fn make(&mut self, call: Call) -> Result<Reply, Fault> {
        let shape = self.run.shape();
        if !shape.has_numbers(call) {
            return Err(Fault::Outside(Outside::of_call(shape, call)));
        }
        match self.run.make(call) {
            Ok(reply) => Ok(reply),
            Err(fault) => Err(Fault::Run { fault }),
        }
    }

    #[tactic(auto, using(crate::proofs::Continuing::after_later, crate::proofs::Waiting::not_waited))]
    fn wait(&mut self, call: Call) -> Result<Reply, Fault> {
        let shape = self.run.shape();
        if !shape.has_numbers(call) {
            return Err(Fault::Outside(Outside::of_call(shape, call)));
        }
        match self.run.wait(call) {
            Ok(reply) => Ok(reply),
            Err(fault) => Err(fault_of_wait(self.run.item(), call, fault)),
        }
    }
}

impl<'a, N: HubName, B: Start, R: Wait> RunCalls for HubContext<'a, N, B, R> {}

impl<'a, N: HubName, B: Start, R: Wait> Context for HubContext<'a, N, B, R> {
    ghost layout = { N.layout };

    ghost first_lent = { N.first_lent };

    ghost runs = { λ c. c.run.item };

    ghost view = { λ c. c.run.participant };

    fn shape(&self) -> &Shape {
        self.run.shape()
    }

    fn item(&self) -> ItemId {
        self.run.item()
    }

    #[tactic(auto, using(crate::proofs::Continuing::after_later))]
    fn make_all(&mut self, calls: &[Call], replies: &mut [Reply]) -> Result<(), BatchFault<Fault>> {
        if let Some(outside) = outside_for_workers(self.run.shape(), calls) {
            return Err(BatchFault {
                made: 0,
                fault: Fault::Outside(outside),
            });
        }
        in_batch(self.run.make_all(calls, replies))
    }

    fn wait_for(&self, completion: &Completion) -> Result<(), Fault> {
        match self.run.wait_for(completion) {
            Ok(()) => Ok(()),
            Err(fault) => Err(Fault::Run { fault }),
        }
    }

    fn complete(&self, completion: &Completion) {
        self.run.complete(completion);
    }

    fn complete_all(&self, completion: &Completion) {
        self.run.complete_all(completion);
    }

    ghost makes = { λ c is. is };

    ghost waits = { λ c is. is };

    ghost when_made = { λ v w c answer made. made };

    ghost when_waited = { λ v w c answer waited. waited };
}
