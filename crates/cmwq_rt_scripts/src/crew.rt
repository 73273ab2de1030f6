//! Callers that follow scripts.

use cmwq_engine::{Crew, Roster};
use cmwq_model::{Call, Shape};
use cmwq_rt::{Caller, Hub, HubName, RunFault};
use std::sync::Wait;

/// What the callers of a hub do: each makes the calls of its script, one after another. What else it does makes no
/// entry. All threads share it.
pub trait Scripts {
    ghost use Rattle.std.specs.Prelude.{◌≡◌, ◌<◌, ◌≤◌, List, Some, length, slice_get, true, IfOk, IfErr};
    ghost use Rattle.cmwq_model.specs.Prelude.{most_callers};
    ghost use Rattle.cmwq_model.specs.declared.call.Call.{Call as TheCall};
    ghost use Rattle.cmwq_rt.specs.Running.{breaks_off};
    ghost use Rattle.cmwq_rt.specs.Scripts.{HasFollowed};
    ghost use Rattle.cmwq_rt_scripts.specs.Followed.{AreFit};

    /// The calls of each caller, by its number.
    ghost scripts: { Self → List (List TheCall) };

    /// How many callers have a script.
    fn callers(&self) -> u8
        requires { length (scripts self.now) ≤ most_callers }
        ensures { result ≡ length (scripts self.now) };

    /// The caller with this number makes the calls of its script; those for which there is no room are left out. It
    /// answers how many were.
    ///
    /// # Errors
    /// Those of the calls but `Full`: the script breaks off at the first call that answers one.
    fn follow<N: HubName, R: Wait>(
        &self,
        rt: &R,
        hub: &Hub<N>,
        caller: &mut Caller<N>,
        number: u8,
    ) -> Result<u32, RunFault>
        requires fit { AreFit N.layout (scripts self.now) }
        requires number { number < length (scripts self.now) }
        ensures followed { IfOk result
            (λ full. (script : List TheCall) → slice_get (scripts self.now) number ≡ Some script
            → HasFollowed N.layout script full caller.old caller.new) }
        ensures fault { IfErr result (λ f. breaks_off f ≡ true) }
        ensures same { caller.new.who ≡ caller.old.who };
}

/// Scripts that are lists of calls.
#[derive(Drop)]
pub struct CallLists<'x> {
    pub(crate) lists: &'x [Vec<Call>],
}

impl<'x> Scripts for CallLists<'x> {
    ghost use Rattle.cmwq_rt_scripts.specs.Followed.{lists};

    ghost scripts = { λ p. lists p.lists.now };

    fn callers(&self) -> u8 {
        self.lists.len() as u8
    }

    fn follow<N: HubName, R: Wait>(
        &self,
        rt: &R,
        hub: &Hub<N>,
        caller: &mut Caller<N>,
        number: u8,
    ) -> Result<u32, RunFault> {
        let (lists, place) = (self.lists, usize::from(number));
        let script = &lists[place];
        match caller.follow(rt, hub, script.as_slice()) {
            Ok((_, full)) => Ok(full),
            Err(fault) => Err(fault),
        }
    }
}

/// A crew of callers, each of which follows the script of its number. The next callers are lent to runs that wait.
#[derive(Drop)]
pub struct ScriptsCrew<'x, S> {
    pub(crate) scripts: &'x S,
    pub(crate) lent: u8,
}

impl<'x, S: Scripts> Crew for ScriptsCrew<'x, S> {
    ghost use Rattle.std.specs.Prelude.{length};
    ghost use Rattle.cmwq_rt_scripts.specs.Followed.{AreFit, follows};

    ghost fits = { λ p s. AreFit s (S.scripts p.scripts.now) };

    ghost roles = { λ p s. record { threads = length (S.scripts p.scripts.now); lent = p.lent } };

    ghost calls = { λ p. follows (S.scripts p.scripts.now) };

    fn roster(&self, _shape: &Shape) -> Roster {
        Roster {
            threads: self.scripts.callers(),
            lent: self.lent,
        }
    }

    fn call<N: HubName, R: Wait>(
        &self,
        rt: &R,
        hub: &Hub<N>,
        caller: Caller<N>,
        number: u8,
    ) -> (Caller<N>, Result<u32, RunFault>) {
        let mut caller = caller;
        let answer = self.scripts.follow(rt, hub, &mut caller, number);
        (caller, answer)
    }
}
