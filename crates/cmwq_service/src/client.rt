//! A caller with its hub.
ghost use Rattle.std.specs.Prelude.{◌≡◌};
ghost use Rattle.cmwq_service.specs.Calls.{GoesOn};

use crate::fault::{Fault, in_batch};
use crate::outside::{Outside, outside_for_callers};
use crate::start::Start;
use cmwq_model::{Call, ItemId, Reply, Shape};
use cmwq_rt::{BatchFault, Caller, CallerCalls, Calls, Completion, Hub, HubCaller, HubName, turns};
use std::marker::PhantomData;
use std::sync::Wait;

/// A caller on a thread of its own. Contracts see the shape of its hub, and of itself who it is, its serial and the
/// history that it has seen.
///
/// # Errors
/// Every call that names an item, a queue or a CPU answers `Fault::Outside` where one isn't inside the shape, and has
/// made no entry then; a `set_max` to 0 too. The fault tells the first such number, and its limit. Otherwise a call
/// answers what the hub does, as `Fault::Run`: `Closed`, `NoMemory` where the hub has failed, `Full`. It has made no
/// entry then; but a call of several entries may break off after some of them, with `NoMemory`, which tells a ticket
/// that stands unended.
pub trait Client: CallerCalls<Fault = Fault, WaitFault = Fault> {
    ghost use Rattle.std.specs.Prelude.{◌≡◌, ◌≤◌, [], false, true, length, Result};
    ghost use Rattle.std.specs.Prelude.{IfOk, IfErr, OnOk, MatchOption, None};
    ghost use Rattle.cmwq_model.specs.declared.call.Call.{Call};
    ghost use Rattle.cmwq_model.specs.declared.call.Call.TheVariants as calls;
    ghost use Rattle.cmwq_model.specs.declared.reply.Reply.{Reply};
    ghost use Rattle.cmwq_model.specs.Prelude.{IsLegal, Layout, past_of, bits, has_numbers, is_callers};
    ghost use Rattle.cmwq_monitor.specs.Participants.{View, Gains};
    ghost use Rattle.cmwq_rt.specs.Batches.{MakesBatch};
    ghost use Rattle.cmwq_service.specs.Calls.{DeniedBatch, DoneOrInterrupted, MadeOrDenied};
    ghost use Rattle.cmwq_service.specs.Outside.{look_outside};
    ghost use Rattle.cmwq_monitor.specs.declared.fault.RunFault.TheVariants.{NoMemory};
    ghost use Rattle.cmwq_service.specs.declared.fault.Fault.{Fault};
    ghost use Rattle.cmwq_service.specs.declared.fault.Fault.TheVariants.{Run};

    /// The shape of its hub.
    ghost layout: { Layout };

    /// Who it is, its serial and what it has seen.
    ghost view: { Self → View };

    /// The shape of the hub.
    fn shape(&self) -> &Shape
        ensures { result.now ≡ layout };

    /// How many entries it has made.
    fn serial(&self) -> u64
        ensures { result ≡ (view self.now).serial };

    /// The bits of an item (`work_busy`): 1 if it is pending, plus 2 if it runs, after a history that begins with all
    /// that the caller has seen. It takes no lock, and waits for nobody. None where the reader gives no guard, and in a
    /// service that says that it never looks (`Service::looks`).
    fn busy(&mut self, item: ItemId) -> Result<Option<u8>, Fault>
        ensures bits { IfOk result
            (λ o. MatchOption o (view self.new ≡ view self.old) (λ b. b ≡ bits (past_of (view self.new).seen) item.0)) }
        ensures legal { OnOk result (IsLegal layout (past_of (view self.new).seen)) }
        ensures outside { IfErr result (λ f. (f ≡ Fault.Outside (look_outside layout item))
            × (has_numbers layout (calls.Cancel item) ≡ false) × (view self.new ≡ view self.old)) }
        ensures own { Gains (view self.old) [] (view self.new) };

    /// Makes calls of one entry each, one after another: 64 at most in one hold of the hub's lock, which is faster than
    /// one hold for each. The reply of each is written to the place of the same number.
    ///
    /// # Errors
    /// Those of `make`, with how many calls were made before; no later call is made. `Outside` also where one of them
    /// is no call of callers. It tells the first of the calls that is refused, and none is made.
    fn make_all(&mut self, calls: &[Call], replies: &mut [Reply]) -> Result<(), BatchFault<Fault>>
        requires room { length calls.now ≤ length replies.old }
        ensures made { IfOk result
            (λ _. MakesBatch layout (view self.old) calls.now replies.old replies.new (view self.new)) }
        ensures denied { IfErr result
            (λ e. DeniedBatch is_callers layout (view self.old) calls.now e.made e.fault replies.old
            replies.new (view self.new)) };

    /// Waits until another thread of the service completes it (`wait_for_completion`). This makes no entry.
    ///
    /// # Errors
    /// `Run` with `NoMemory` after the service has stopped, so that it may never be completed.
    fn wait_for(&self, completion: &Completion) -> Result<(), Fault>
        ensures { IfErr result (λ f. f ≡ Run (NoMemory None)) };

    /// Completes it once: one of those who wait for it goes on, or the next one who does (`complete`).
    fn complete(&self, completion: &Completion);

    /// Completes it for good: all who wait for it go on, now and later (`complete_all`).
    fn complete_all(&self, completion: &Completion);

    /// It may make each call of callers as a call of one entry.
    ghost makes: { (c : Call) → is_callers c ≡ true → Self.may_make c };

    /// It may make each call of callers whole.
    ghost waits: { (c : Call) → is_callers c ≡ true → Self.may_wait c };

    /// What each call of one entry promises.
    ghost when_made: { (v w : Self) (c : Call) (answer : Result Reply Fault) → Self.made v c answer w
        → MadeOrDenied layout (view v) c answer (view w) };

    /// What each call of several entries promises.
    ghost when_waited: { (v w : Self) (c : Call) (answer : Result Reply Fault) → Self.waited v c answer w
        → DoneOrInterrupted layout (view v) c answer (view w) };

    /// A whole call: it makes its entry and those that belong to it, and waits where it gives a ticket, as `wait` does.
    final fn whole(&mut self, call: Call) -> Result<Reply, Fault>
        requires { is_callers call ≡ true }
        ensures { DoneOrInterrupted layout (view self.old) call result (view self.new) }
    {
        self.wait(call)
    }
}

/// The caller that `run` gives to a service: it is the one of its start, and all that it has made since are its calls.
#[derive(Drop)]
pub(crate) struct HubClient<'a, N: HubName, B: Start, R> {
    calls: HubCaller<'a, N, R>,
    of: PhantomData<B>,
    ghost goes: { GoesOn B.start calls.caller },
}

impl<'a, N: HubName, B: Start, R: Wait> HubClient<'a, N, B, R> {
    #[tactic(auto, using(crate::proofs::Continuing::goes_self))]
    pub(crate) fn new(rt: &'a R, hub: &'a Hub<N>, caller: Caller<N>) -> HubClient<'a, N, B, R>
        requires { caller ≡ B.start }
        ensures { result.calls.caller ≡ caller }
    {
        HubClient {
            calls: HubCaller { rt, hub, caller },
            of: PhantomData,
        }
    }

    pub(crate) fn into_caller(self) -> Caller<N>
        ensures same { result ≡ self.entry.calls.caller }
        ensures goes { GoesOn B.start result }
    {
        let HubClient { calls, of: _ } = self;
        let HubCaller {
            rt: _,
            hub: _,
            caller,
        } = calls;
        caller
    }
}

impl<'a, N: HubName, B: Start, R: Wait> Calls for HubClient<'a, N, B, R> {
    ghost use Rattle.std.specs.Prelude.{◌≡◌, true};
    ghost use Rattle.cmwq_model.specs.Prelude.{is_callers};
    ghost use Rattle.cmwq_service.specs.Calls.{DoneOrInterrupted, MadeOrDenied};

    type Fault = Fault;

    type WaitFault = Fault;

    ghost may_make = { λ c. is_callers c ≡ true };

    ghost may_wait = { λ c. is_callers c ≡ true };

    ghost made = { λ v c answer w. MadeOrDenied N.layout v.calls.caller c answer w.calls.caller };

    ghost waited = { λ v c answer w. DoneOrInterrupted N.layout v.calls.caller c answer w.calls.caller };

    #[tactic(auto, using(crate::proofs::Continuing::goes_extends, crate::proofs::Continuing::goes_refused))]
    fn make(&mut self, call: Call) -> Result<Reply, Fault> {
        let shape = self.calls.hub.shape();
        if !shape.has_numbers(call) {
            return Err(Fault::Outside(Outside::of_call(shape, call)));
        }
        match self.calls.make(call) {
            Ok(reply) => Ok(reply),
            Err(fault) => Err(Fault::Run { fault }),
        }
    }

    fn wait(&mut self, call: Call) -> Result<Reply, Fault> {
        let shape = self.calls.hub.shape();
        if !shape.has_numbers(call) {
            return Err(Fault::Outside(Outside::of_call(shape, call)));
        }
        match self.calls.wait(call) {
            Ok(reply) => Ok(reply),
            Err(fault) => Err(Fault::Run { fault }),
        }
    }
}

impl<'a, N: HubName, B: Start, R: Wait> CallerCalls for HubClient<'a, N, B, R> {}

impl<'a, N: HubName, B: Start, R: Wait> Client for HubClient<'a, N, B, R> {
    ghost layout = { N.layout };

    ghost view = { λ c. c.calls.caller };

    fn shape(&self) -> &Shape {
        self.calls.hub.shape()
    }

    fn serial(&self) -> u64 {
        self.calls.caller.serial()
    }

    fn busy(&mut self, item: ItemId) -> Result<Option<u8>, Fault> {
        let shape = self.calls.hub.shape();
        // a cancel names the item, and nothing else
        if !shape.has_numbers(Call::Cancel { item }) {
            return Err(Fault::Outside(Outside::of_look(shape, item)));
        }
        turns::turn(self.calls.rt, self.calls.hub);
        Ok(self.calls.caller.busy(item))
    }

    fn make_all(&mut self, calls: &[Call], replies: &mut [Reply]) -> Result<(), BatchFault<Fault>> {
        if let Some(outside) = outside_for_callers(self.calls.hub.shape(), calls) {
            return Err(BatchFault {
                made: 0,
                fault: Fault::Outside(outside),
            });
        }
        let (rt, hub) = (self.calls.rt, self.calls.hub);
        in_batch(self.calls.caller.make_all(rt, hub, calls, replies))
    }

    fn wait_for(&self, completion: &Completion) -> Result<(), Fault> {
        match self.calls.hub.wait_for(self.calls.rt, completion) {
            Ok(()) => Ok(()),
            Err(fault) => Err(Fault::Run { fault }),
        }
    }

    fn complete(&self, completion: &Completion) {
        self.calls.hub.complete(self.calls.rt, completion);
    }

    fn complete_all(&self, completion: &Completion) {
        self.calls.hub.complete_all(self.calls.rt, completion);
    }

    ghost makes = { λ c is. is };

    ghost waits = { λ c is. is };

    ghost when_made = { λ v w c answer made. made };

    ghost when_waited = { λ v w c answer waited. waited };
}
