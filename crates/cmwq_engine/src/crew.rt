//! What callers do, and what the threads of a run share.

ghost use Rattle.std.specs.Prelude.{◌≡◌};

use cmwq_model::{CallerId, Shape};
use cmwq_rt::{Caller, Hub, HubName, HubParts, RunFault};
use std::alloc::Global;
use std::sync::Wait;

/// Which callers of a hub are used: the first ones have a thread each, and the next ones are lent to runs that wait.
#[derive(Clone, Copy, Debug, PartialEq, Eq)]
pub struct Roster {
    /// How many callers have a thread.
    pub threads: u8,
    /// How many callers are lent, so that as many runs may wait at the same time.
    pub lent: u8,
}

/// What the callers of a hub do. All threads share it.
pub trait Crew {
    ghost use Rattle.std.specs.Prelude.{◌≡◌, ◌<◌, true, IfOk, IfErr};
    ghost use Rattle.cmwq_model.specs.Prelude.{Layout};
    ghost use Rattle.cmwq_monitor.specs.Participants.{newcomer};
    ghost use Rattle.cmwq_rt.specs.Running.{breaks_off};
    ghost use Rattle.cmwq_engine.specs.Conduct.{Conduct, caller_numbered};
    ghost use Rattle.cmwq_engine.specs.declared.crew.Roster as crews;

    /// Hubs of which shapes it can run on: all, where it is left out.
    ghost fits: { Self → Layout → Type 0 } = { λ _ _. Unit {0} };

    /// Which callers it uses, in a hub of this shape.
    ghost roles: { Self → Layout → crews.Roster };

    /// What a caller leaves: `run` carries it into the history. Nothing is said where it is left out.
    ghost calls: { Self → Conduct } = { λ _ _ _ _ _. Unit {0} };

    /// Which callers it uses.
    fn roster(&self, shape: &Shape) -> Roster
        requires { fits self.now shape.now }
        ensures { result ≡ roles self.now shape.now };

    /// What the caller with this number does, on a thread of its own. It answers how many of its calls were left out
    /// for want of room.
    ///
    /// # Errors
    /// Those of the caller's calls but `Full`. The hub fails then.
    fn call<N: HubName, R: Wait>(
        &self,
        rt: &R,
        hub: &Hub<N>,
        caller: Caller<N>,
        number: u8,
    ) -> (Caller<N>, Result<u32, RunFault>)
        requires fits { fits self.now N.layout }
        requires number { number < (roles self.now N.layout).threads }
        requires fresh { caller ≡ newcomer (caller_numbered number) }
        ensures same { result.0.who ≡ caller_numbered number }
        ensures called { IfOk result.1 (λ full. calls self.now N.layout number full result.0) }
        ensures fault { IfErr result.1 (λ f. breaks_off f ≡ true) };

    /// Is called when a thread has ended by a fault, or can't be made, before the hub fails: so who waits for something
    /// else than a call can be woken. Nothing, where it is left out.
    fn stop<R: Wait>(&self, rt: &R, fault: RunFault) {
        let (_, _) = (rt, fault);
    }
}

/// The parts of a hub on which this crew is to run: it lends the callers from the first one on that has no thread.
pub fn lending_for<C: Crew>(parts: HubParts, crew: &C) -> HubParts
    requires { C.fits crew.now parts.shape }
    ensures lends { result.dispatch.first_lent ≡ (C.roles crew.now parts.shape).threads }
    ensures shape { result.shape ≡ parts.shape }
    ensures opening { result.opening ≡ parts.opening }
    ensures blank { result.blank ≡ parts.blank }
{
    let roster = crew.roster(&parts.shape);
    parts.lending_from(CallerId(roster.threads))
}

/// A run: its hub, what its callers do, and what its items do. All its threads share it.
#[derive(Drop)]
pub struct Shared<'s, N: HubName, C, W, R> {
    /// By this its threads are started and joined, and wait.
    pub rt: &'s R,
    pub alloc: Global,
    pub hub: &'s Hub<N>,
    pub crew: &'s C,
    pub work: &'s W,
}
