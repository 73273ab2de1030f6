//! A service as a crew: what its threads run. For a layer above that takes the history while it is made.
ghost use Rattle.std.specs.Prelude.{◌≡◌, ◌-◌, true, Ok, IfErr, IfOk, OnOk};
ghost use Rattle.cmwq_monitor.specs.Participants.{newcomer};
ghost use Rattle.cmwq_rt.specs.Later.{Later};
ghost use Rattle.cmwq_rt.specs.Running.{breaks_off};
ghost use Rattle.cmwq_engine.specs.Conduct.{caller_numbered};
ghost use Rattle.cmwq_service.specs.Calls.{GoesOn};
ghost use Rattle.cmwq_service.specs.Serving.{HasCalled, HasOnlyTicked, may_end, own_callers};

use crate::builder::OWN_CALLERS;
use crate::client::{Client, HubClient};
use crate::context::HubContext;
use crate::fault::Fault;
pub use crate::running::{readers_of, run_served};
use crate::service::Service;
use crate::signal::Signal;
use crate::start::Start;
use cmwq_engine::{Crew, Roster};
use cmwq_model::{ItemId, Shape};
use cmwq_rt::{Caller, Hub, HubName, RunCtx, RunFault, Work};
use core::mem::replace_with;
use std::marker::Brand;
use std::sync::Wait;
use std::time::{Clock, Duration};

/// How many callers of a shape have a thread, if so many are lent: those of the service, and the library's own two.
fn thread_callers(shape: &Shape, waits: u8) -> u8
    ensures { result ≡ shape.now.callers - waits }
{
    shape.counts().callers.saturating_sub(waits)
}

/// How many callers of a shape are the service's.
fn service_callers(shape: &Shape, waits: u8) -> u8
    ensures { result ≡ shape.now.callers - waits - own_callers }
{
    thread_callers(shape, waits).saturating_sub(OWN_CALLERS)
}

/// A service, with all that its threads share. Its callers have a thread each, and so have the library's own two: the
/// clock, and the one that comes at the end. So many callers are lent to runs that wait.
#[derive(Drop)]
pub struct Serving<'s, S, R> {
    rt: &'s R,
    service: &'s S,
    signal: Signal,
    waits: u8,
}

/// Calls the service by a client that begins where the caller stands.
fn call_from<B: Start, N: HubName, S: Service, R: Wait + Clock>(
    rt: &R,
    hub: &Hub<N>,
    service: &S,
    caller: Caller<N>,
    number: u8,
) -> (Caller<N>, Result<(), Fault>)
    requires { caller ≡ B.start }
    ensures goes { GoesOn B.start result.0 }
    ensures did { OnOk result.1 (S.calls number N.layout B.start result.0) }
{
    let mut client: HubClient<N, B, R> = HubClient::new(rt, hub, caller);
    let outcome = service.call(rt, number, &mut client);
    (client.into_caller(), outcome)
}

/// What a caller of the service does.
fn call_once<N: HubName, S: Service, R: Wait + Clock>(
    rt: &R,
    hub: &Hub<N>,
    service: &S,
    caller: Caller<N>,
    number: u8,
) -> (Caller<N>, Result<(), Fault>)
    requires { caller ≡ newcomer (caller_numbered number) }
    ensures same { result.0.who ≡ caller_numbered number }
    ensures called { OnOk result.1 (∥ HasCalled N.layout S.calls number result.0 ∥₁) }
{
    call_from::<Brand, N, S, R>(rt, hub, service, caller, number)
}

/// Runs an item by a context that begins where the worker stands.
fn run_from<'a, B: Start, N: HubName, S: Service, R: Wait + Clock, Q: Wait>(
    rt: &R,
    service: &S,
    item: ItemId,
    run: RunCtx<'a, N, Q>,
) -> (RunCtx<'a, N, Q>, Result<(), Fault>)
    requires { run.participant ≡ B.start }
    ensures later { Later B.start result.0.participant }
    ensures did { OnOk result.1 (S.does N.layout item B.start result.0.participant) }
{
    let mut context: HubContext<'a, N, B, Q> = HubContext::new(run);
    let outcome = service.run(rt, item, &mut context);
    (context.into_run(), outcome)
}

fn run_once<'a, N: HubName, S: Service, R: Wait + Clock, Q: Wait>(
    rt: &R,
    service: &S,
    item: ItemId,
    run: RunCtx<'a, N, Q>,
) -> (RunCtx<'a, N, Q>, Result<(), Fault>)
    ensures later { Later run.entry.participant result.0.participant }
    ensures did { OnOk result.1 (S.does N.layout item run.entry.participant result.0.participant) }
{
    run_from::<Brand, N, S, R, Q>(rt, service, item, run)
}

fn run_in<'a, N: HubName, S: Service, R: Wait + Clock, Q: Wait>(
    rt: &R,
    service: &S,
    item: ItemId,
    run: &mut RunCtx<'a, N, Q>,
) -> Result<(), Fault>
    ensures later { Later run.old.participant run.new.participant }
    ensures did { OnOk result (S.does N.layout item run.old.participant run.new.participant) }
{
    replace_with(
        run,
        (),
        |run, _nothing| -> (RunCtx<N, Q>, Result<(), Fault>)
            ensures { Later run.entry.participant result.0.participant
                × OnOk result.1 (S.does N.layout item run.entry.participant result.0.participant) }
        { run_once(rt, service, item, run) },
    )
}

impl<'s, S: Service, R: Wait + Clock> Serving<'s, S, R> {
    /// The service, before it runs on a hub of this shape, of which so many callers are lent to runs that wait.
    ///
    /// # Errors
    /// `NoPlace` if the shape has fewer callers than the library needs: its own two, and those that are lent.
    pub fn new(
        rt: &'s R,
        service: &'s S,
        shape: &Shape,
        waits: u8,
    ) -> Result<Serving<'s, S, R>, Fault>
        ensures { IfOk result (λ serving. serving.waits ≡ waits) }
    {
        if thread_callers(shape, waits) < OWN_CALLERS {
            return Err(Fault::Run {
                fault: RunFault::NoPlace,
            });
        }
        Ok(Serving {
            rt,
            service,
            signal: Signal::new(service_callers(shape, waits)),
            waits,
        })
    }

    /// Why it stopped, where its hub's threads ended by this fault: the first one that was told, if any was.
    pub fn fault(&self, fault: RunFault) -> Fault {
        match self.signal.fault(self.rt) {
            Some(first) => first,
            None => Fault::Run { fault },
        }
    }

    /// What is told to the hub's other threads, and of a fault to the service's.
    fn told(&self, outcome: Result<(), Fault>) -> Result<u32, RunFault>
        ensures fault { IfErr result (λ f. breaks_off f ≡ true) }
        ensures ok { OnOk result (outcome ≡ Ok tt) }
    {
        match outcome {
            Ok(()) => Ok(0),
            Err(fault) => {
                self.signal.fail(self.rt, fault);
                Err(RunFault::Closed)
            }
        }
    }

    /// Hands in a tick each time so long has gone by, until the service is over.
    #[tactic(auto, using(crate::proofs::Ticking::not_ticked, crate::proofs::Ticking::ticked_more))]
    fn tick_on<N: HubName, C: Client>(
        &self,
        hub: &Hub<N>,
        client: &mut C,
        time: Duration,
    ) -> Result<(), Fault>
        ensures { OnOk result (HasOnlyTicked C.layout (C.view client.old) (C.view client.new)) }
    {
        for _ in self.rt.forever() {
            if self.signal.is_over_within(self.rt, hub, time) {
                return Ok(());
            }
            client.tick(1)?;
        }
        unreachable!()
    }

    /// The thread of the clock, which ends at once where the service wants no ticks.
    #[tactic(auto, using(crate::proofs::Ticking::not_ticked))]
    fn tick_all<N: HubName, C: Client>(&self, hub: &Hub<N>, client: &mut C) -> Result<(), Fault>
        ensures { OnOk result (HasOnlyTicked C.layout (C.view client.old) (C.view client.new)) }
    {
        match self.service.tick_every() {
            Some(time) => self.tick_on(hub, client, time),
            None => Ok(()),
        }
    }

    /// What comes when the service's callers have ended, if none of them gave up. Then the service is over.
    fn end_all<N: HubName, C: Client>(&self, hub: &Hub<N>, client: &mut C) -> Result<(), Fault>
        ensures { OnOk result (may_end S.ends 0 C.layout (C.view client.old) (C.view client.new)) }
    {
        if self.signal.have_left(self.rt, hub) {
            self.service.end(self.rt, client)?;
        }
        self.signal.end(self.rt, hub);
        Ok(())
    }
}

/// What the clock's caller does, by a client that begins where it stands.
fn tick_from<'s, B: Start, N: HubName, S: Service, R: Wait + Clock>(
    serving: &Serving<'s, S, R>,
    hub: &Hub<N>,
    caller: Caller<N>,
) -> (Caller<N>, Result<(), Fault>)
    requires { caller ≡ B.start }
    ensures goes { GoesOn B.start result.0 }
    ensures ticked { OnOk result.1 (HasOnlyTicked N.layout B.start result.0) }
{
    let mut client: HubClient<N, B, R> = HubClient::new(serving.rt, hub, caller);
    let outcome = serving.tick_all(hub, &mut client);
    (client.into_caller(), outcome)
}

fn tick_once<'s, N: HubName, S: Service, R: Wait + Clock>(
    serving: &Serving<'s, S, R>,
    hub: &Hub<N>,
    caller: Caller<N>,
) -> (Caller<N>, Result<(), Fault>)
    ensures same { result.0.who ≡ caller.who }
    ensures ticked { OnOk result.1 (HasOnlyTicked N.layout caller result.0) }
{
    tick_from::<Brand, N, S, R>(serving, hub, caller)
}

/// What the caller does that comes at the end, by a client that begins where it stands.
fn end_from<'s, B: Start, N: HubName, S: Service, R: Wait + Clock>(
    serving: &Serving<'s, S, R>,
    hub: &Hub<N>,
    caller: Caller<N>,
) -> (Caller<N>, Result<(), Fault>)
    requires { caller ≡ B.start }
    ensures goes { GoesOn B.start result.0 }
    ensures did { OnOk result.1 (may_end S.ends 0 N.layout B.start result.0) }
{
    let mut client: HubClient<N, B, R> = HubClient::new(serving.rt, hub, caller);
    let outcome = serving.end_all(hub, &mut client);
    (client.into_caller(), outcome)
}

fn end_once<'s, N: HubName, S: Service, R: Wait + Clock>(
    serving: &Serving<'s, S, R>,
    hub: &Hub<N>,
    caller: Caller<N>,
    number: u8,
) -> (Caller<N>, Result<(), Fault>)
    requires { caller ≡ newcomer (caller_numbered number) }
    ensures same { result.0.who ≡ caller_numbered number }
    ensures ended { OnOk result.1 (∥ HasCalled N.layout (may_end S.ends) number result.0 ∥₁) }
{
    let _number = number;
    end_from::<Brand, N, S, R>(serving, hub, caller)
}

impl<'s, S: Service, R: Wait + Clock> Crew for Serving<'s, S, R> {
    ghost use Rattle.std.specs.Prelude.{◌≡◌, ◌+◌, ◌-◌, ◌<◌};
    ghost use Rattle.cmwq_monitor.specs.Participants.{newcomer};
    ghost use Rattle.cmwq_engine.specs.Conduct.{caller_numbered};
    ghost use Rattle.cmwq_service.specs.Serving.{HasCalled, HasOnlyTicked, may_end, own_callers};

    ghost roles = { λ p s. record { threads = s.callers - p.waits; lent = p.waits } };

    ghost calls = { λ p s k _ v. (k + own_callers + p.waits < s.callers → ∥ HasCalled s S.calls k v ∥₁)
        × (k + own_callers + p.waits ≡ s.callers → HasOnlyTicked s (newcomer (caller_numbered k)) v)
        × (k + 1 + p.waits ≡ s.callers → ∥ HasCalled s (may_end S.ends) k v ∥₁) };

    fn roster(&self, shape: &Shape) -> Roster {
        Roster {
            threads: thread_callers(shape, self.waits),
            lent: self.waits,
        }
    }

    #[tactic(auto, using(crate::proofs::Ending::told_called, crate::proofs::Ending::told_ticked, crate::proofs::Ending::told_ended))]
    fn call<N: HubName, Q: Wait>(
        &self,
        _rt: &Q,
        hub: &Hub<N>,
        caller: Caller<N>,
        number: u8,
    ) -> (Caller<N>, Result<u32, RunFault>) {
        let threads = thread_callers(hub.shape(), self.waits);
        let all = service_callers(hub.shape(), self.waits);
        if number < all {
            let (caller, outcome) = call_once(self.rt, hub, self.service, caller, number);
            let told = self.told(outcome);
            self.signal.leave(self.rt, hub);
            return (caller, told);
        }
        // the last one comes at the end, also in a hub that has no more than one
        if number + 1 < threads {
            let (caller, outcome) = tick_once(self, hub, caller);
            return (caller, self.told(outcome));
        }
        let (caller, outcome) = end_once(self, hub, caller, number);
        (caller, self.told(outcome))
    }

    fn stop<Q: Wait>(&self, _rt: &Q, fault: RunFault) {
        self.signal.fail(self.rt, Fault::Run { fault });
    }
}

impl<'s, S: Service, R: Wait + Clock> Work for Serving<'s, S, R> {
    ghost use Rattle.cmwq_service.specs.Serving.{behaves};

    ghost does = { λ _. behaves S.does };

    fn run<N: HubName, Q: Wait>(&self, item: ItemId, context: &mut RunCtx<N, Q>) {
        let outcome = run_in(self.rt, self.service, item, context);
        if let Err(fault) = self.told(outcome) {
            context.break_off(fault);
        }
    }
}
