//! Callers that follow scripts.
ghost use Rattle.std.specs.Prelude.{◌≡◌, ◌+◌, ◌<◌, ◌^◌, length, true, IfOk, IfErr, All};
ghost use Rattle.cmwq_model.specs.Prelude.{IsScripted};
ghost use Rattle.cmwq_monitor.specs.Faults.{is_full};
ghost use Rattle.cmwq_rt.specs.Running.{breaks_off};
ghost use Rattle.cmwq_rt.specs.Scripts.{HasFollowed, HasStopped};

use crate::caller::Caller;
use crate::hub::Hub;
use cmwq_model::Call;
use cmwq_monitor::RunFault;
use cmwq_publish::HubName;
use std::sync::Wait;

/// How many calls of a script are made in one hold of the lock, at most.
const CALLS_IN_HOLD: usize = 8;

fn is_full(fault: RunFault) -> bool
    ensures { result ≡ is_full fault }
{
    matches!(fault, RunFault::Full)
}

impl<N: HubName> Caller<N> {
    /// Makes the calls of a script, one after another, each whole; those for which there is no room are left out. It
    /// answers how many entries it made, and how many calls were left out. Eight calls at most stand in one hold of the
    /// lock, which a call that waits lets go.
    ///
    /// # Errors
    /// Those of the calls but `Full`: the script breaks off at the first call that answers one.
    #[tactic(auto, using(crate::proofs::Running::broke_breaks_off))]
    pub fn follow<R: Wait>(
        &mut self,
        rt: &R,
        hub: &Hub<N>,
        script: &[Call],
    ) -> Result<(u64, u32), RunFault>
        requires whole { All (IsScripted N.layout) script.now }
        requires short { length script.now < 2 ^ 32 }
        ensures followed { IfOk result (λ t. HasFollowed N.layout script.now t.1 self.old self.new) }
        ensures count { IfOk result (λ t. self.new.serial ≡ self.old.serial + t.0) }
        ensures stopped { IfErr result (λ f. HasStopped N.layout script.now f self.old self.new) }
        ensures fault { IfErr result (λ f. breaks_off f ≡ true) }
        ensures same { self.new.who ≡ self.old.who }
    {
        let first = self.serial();
        let mut full = 0u32;
        let mut hold = hub.lock(rt);
        for k in 0..script.len() {
            if k > 0 && k % CALLS_IN_HOLD == 0 {
                hold = hub.let_in(rt, hold);
            }
            let (held, answer) = self.make_locked(rt, hub, hold, script[k]);
            hold = held;
            match answer {
                Ok(_) => {}
                Err(fault) => {
                    if !is_full(fault) {
                        hub.leave(rt, hold);
                        return Err(fault);
                    }
                    full += 1;
                }
            }
        }
        hub.leave(rt, hold);
        Ok((self.serial() - first, full))
    }
}
