//! What the callers of a script do.
ghost use Rattle.std.specs.Prelude.{◌≡◌, ◌<◌, ◌+◌, ◌++◌, ◌∷◌, ◌^◌, [], length, List, true, All, IfOk, IfErr};
ghost use Rattle.cmwq_json_script.specs.Views.{calls_in};
ghost use Rattle.cmwq_model.specs.Prelude.{IsScripted};
ghost use Rattle.cmwq_model.specs.declared.call.Call.{Call as TheCall};
ghost use Rattle.cmwq_monitor.specs.Participants.{View};
ghost use Rattle.cmwq_rt.specs.Running.{breaks_off};
ghost use Rattle.cmwq_cmd_run.specs.Followed.{IsOnWay};

use crate::batch::{Batch, MOST_CALLS};
use crate::interpreter::Interpreter;
use cmwq_json_script::{Action, Holder};
use cmwq_model::CallerId;
use cmwq_rt::{Caller, Gate, Hub, HubName, RunFault};
use cmwq_rt_scripts::Scripts;
use std::sync::Wait;

/// Where a caller stands in its script: the calls that it makes next, in one hold of the hub's lock, and how many it
/// has left out for lack of room.
#[derive(Drop)]
struct Way {
    next: Batch,
    full: u32,
}

impl Way {
    /// Makes the next calls.
    fn make<N: HubName, R: Wait>(
        &mut self,
        rt: &R,
        hub: &Hub<N>,
        caller: &mut Caller<N>,
    ) -> Result<(), RunFault>
        requires scripted { All (IsScripted N.layout) self.old.next }
        requires few { self.old.full + length self.old.next < 2 ^ 32 }
        ensures way { IfOk result (λ _. (v : View) (calls : List TheCall) → IsOnWay N.layout v calls self.old caller.old
            → IsOnWay N.layout v calls self.new caller.new) }
        ensures none { IfOk result (λ _. self.new.next ≡ []) }
        ensures fault { IfErr result (λ f. breaks_off f ≡ true) }
        ensures same { caller.new.who ≡ caller.old.who }
    {
        match caller.follow(rt, hub, self.next.as_slice()) {
            Ok((_, full)) => {
                self.full += full;
                self.next = Batch::new();
                Ok(())
            }
            Err(fault) => Err(fault),
        }
    }
}

impl<'a> Interpreter<'a> {
    /// What a caller does between its calls.
    fn act_between<R: Wait>(&self, rt: &R, number: u8, action: Action) {
        let holder = Holder::Caller(CallerId(number));
        match action {
            Action::Call(_) => {}
            Action::Open { gate } => self.gates.open(rt, gate),
            Action::SleepAt { gate } => {
                self.gates.pass(rt, gate);
            }
            Action::Lock { lock } => self.locks.lock(rt, lock, holder),
            Action::Unlock { lock } => self.locks.unlock(rt, lock, holder),
        }
    }

    /// One action more. A call joins those that are made next; they are made before they would be too many, and before
    /// any other action.
    fn go_on<N: HubName, R: Wait>(
        &self,
        rt: &R,
        hub: &Hub<N>,
        caller: &mut Caller<N>,
        way: &mut Way,
        number: u8,
        action: Action,
    ) -> Result<(), RunFault>
        requires scripted { All (IsScripted N.layout) way.old.next }
        requires few { way.old.full + length way.old.next < 2 ^ 32 }
        ensures way { IfOk result (λ _. (v : View) (calls : List TheCall) → IsOnWay N.layout v calls way.old caller.old
            → IsOnWay N.layout v (calls ++ calls_in (action ∷ [])) way.new caller.new) }
        ensures fault { IfErr result (λ f. breaks_off f ≡ true) }
        ensures same { caller.new.who ≡ caller.old.who }
    {
        match action {
            Action::Call(call) => {
                if way.next.len() >= MOST_CALLS {
                    way.make(rt, hub, caller)?;
                }
                way.next.push(call);
            }
            _ => {
                way.make(rt, hub, caller)?;
                self.act_between(rt, number, action);
            }
        }
        Ok(())
    }
}

impl<'a> Scripts for Interpreter<'a> {
    ghost use Rattle.std.specs.Prelude.{map};
    ghost use Rattle.cmwq_json_script.specs.Views.{calls_in};

    ghost scripts = { λ p. map calls_in (map (λ actions. actions.items) p.callers.now) };

    fn callers(&self) -> u8 {
        self.callers.len() as u8
    }

    fn follow<N: HubName, R: Wait>(
        &self,
        rt: &R,
        hub: &Hub<N>,
        caller: &mut Caller<N>,
        number: u8,
    ) -> Result<u32, RunFault> {
        let (callers, place) = (self.callers, usize::from(number));
        let actions = &callers[place];
        let mut way = Way {
            next: Batch::new(),
            full: 0,
        };
        for k in 0..actions.len() {
            self.go_on(rt, hub, caller, &mut way, number, actions[k])?;
        }
        way.make(rt, hub, caller)?;
        Ok(way.full)
    }
}
