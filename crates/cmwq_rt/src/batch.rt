//! Several calls of one entry each in one hold of the lock.
ghost use Rattle.std.specs.Prelude.{◌≡◌, ◌≤◌, length, true, IfOk, IfErr};
ghost use Rattle.std.specs.List.{list_all};
ghost use Rattle.cmwq_model.specs.Prelude.{fits};
ghost use Rattle.cmwq_rt.specs.Batches.{MakesBatch, StopsBatch};

use crate::hub::Hub;
use cmwq_model::{Call, Reply};
use cmwq_monitor::{Participant, RunFault};
use cmwq_publish::HubName;
use std::sync::Wait;

/// How many calls are made in one hold of the lock, at most.
const CALLS_IN_HOLD: usize = 64;

/// Why a batch of calls stopped: so many were made, and the next one returned this fault.
#[derive(Clone, Copy, Debug, PartialEq, Eq)]
pub struct BatchFault<F> {
    pub made: usize,
    pub fault: F,
}

impl<N: HubName> Hub<N> {
    /// Calls of one entry each, one after another: 64 at most in one hold of the lock.
    pub(crate) fn call_all<R: Wait>(
        &self,
        rt: &R,
        participant: &mut Participant<N>,
        calls: &[Call],
        replies: &mut [Reply],
    ) -> Result<(), BatchFault<RunFault>>
        requires fit { list_all (fits N.layout participant.old.who) calls.now ≡ true }
        requires room { length calls.now ≤ length replies.old }
        ensures made { IfOk result
            (λ _. MakesBatch N.layout participant.old calls.now replies.old replies.new participant.new) }
        ensures stopped { IfErr result
            (λ e. StopsBatch N.layout participant.old calls.now e.made e.fault replies.old replies.new
            participant.new) }
    {
        let mut hold = self.lock(rt);
        for k in 0..calls.len() {
            if k > 0 && k % CALLS_IN_HOLD == 0 {
                hold = self.let_in(rt, hold);
            }
            hold = self.spacious(rt, hold, participant.who(), 1);
            let held = &mut hold;
            match held
                .monitor
                .call(rt, participant, calls[k], &mut held.wakes)
            {
                Ok(reply) => replies[k] = reply,
                Err(fault) => {
                    self.leave(rt, hold);
                    return Err(BatchFault { made: k, fault });
                }
            }
        }
        self.leave(rt, hold);
        Ok(())
    }
}
