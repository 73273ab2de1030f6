//! Whether a run may wait, and by which caller.

ghost use Rattle.std.specs.Prelude.{◌≡◌, ◌<◌, IfErr, IfOk, IsTrue, false, true};
ghost use mathlib.Core.List.{IsPrefix};
ghost use Rattle.cmwq_model.specs.Prelude.{IsLegal, fits, has_numbers, past_of};
ghost use Rattle.cmwq_model.specs.declared.call.Call.TheVariants as calls;
ghost use Rattle.cmwq_monitor.specs.Faults.{IsStranger};
ghost use Rattle.cmwq_monitor.specs.Held.{AllLentWait, SomeLentIsFree, caller_waits, has_room_at, is_free, refusal_at};
ghost use Rattle.cmwq_monitor.specs.Steps.{InStep};
ghost use Rattle.cmwq_waits.specs.Begun.{is_lent};

use crate::fault::RunFault;
use crate::monitor::Monitor;
use crate::participant::Participant;
use cmwq_dispatch::Stuck;
use cmwq_model::{Call, CallerId, Who};
use cmwq_publish::HubName;

impl<N: HubName> Monitor<N> {
    /// Why a wait of what the worker runs, by this call of a caller that is lent to it, is refused, if it is.
    pub fn refuses(
        &mut self,
        participant: &Participant<N>,
        call: Call,
    ) -> Result<Option<Stuck>, RunFault>
        requires { has_numbers N.layout call ≡ true }
        ensures is { IfOk result (λ stuck. stuck ≡ refusal_at N.layout self.old participant.now.who call) }
        ensures step { IfOk result (λ _. InStep self.old.history participant.now) }
        ensures older { IfOk result (λ _. IsPrefix participant.now.seen self.old.history) }
        ensures legal { IsLegal N.layout (past_of self.old.history) }
        ensures lent { self.old.first_lent ≡ N.first_lent }
        ensures stranger { IfErr result (λ f. IsStranger participant.now f) }
        ensures same { self.new ≡ self.old }
    {
        self.stands();
        self.compare(participant)?;
        participant.begins(self.publisher.prefix());
        match participant.who() {
            Who::Worker(worker) => Ok(self.dispatch.refuses(worker, call)),
            Who::Caller(_) => Ok(None),
        }
    }

    /// Whether there is room for the worker's sleep, and for the caller's call, with what would be owed then, the sleep
    /// and the wake.
    pub fn has_room_to_wait(
        &self,
        worker: &Participant<N>,
        caller: &Participant<N>,
        call: Call,
    ) -> bool
        requires sleeps { IsTrue (fits N.layout worker.now.who calls.Sleep) }
        requires calls { IsTrue (fits N.layout caller.now.who call) }
        ensures { result ≡ has_room_at N.layout self.now worker.now.who caller.now.who call }
    {
        self.dispatch.plan(worker.who(), Call::Sleep).is_ok()
            && self
                .dispatch
                .execution()
                .has_room_with(caller.who(), call, 2)
    }

    /// Whether it is a caller that is lent to runs, by its number.
    pub(crate) fn is_lent(&self, participant: &Participant<N>) -> bool
        ensures { result ≡ is_lent self.now.first_lent participant.now.who }
    {
        match participant.who() {
            Who::Caller(caller) => self.dispatch.first_lent().0 <= caller.0,
            Who::Worker(_) => false,
        }
    }

    /// Whether it is a caller that is lent to runs and does not wait.
    pub fn is_free(&self, participant: &Participant<N>) -> bool
        ensures { result ≡ is_free self.now.first_lent (past_of self.now.history) participant.now.who }
    {
        match participant.who() {
            Who::Caller(caller) => self.is_lent(participant) && !self.waits(caller),
            Who::Worker(_) => false,
        }
    }

    /// Whether the caller waits: it has an unended ticket.
    fn waits(&self, caller: CallerId) -> bool
        requires { caller.0 < N.layout.callers }
        ensures { result ≡ caller_waits (past_of self.now.history) caller.0 }
    {
        let state = self.dispatch.execution().state();
        state.unended(caller, 0).is_some()
    }

    /// Whether each caller that is lent to runs waits.
    pub fn all_lent_wait(&self) -> bool
        ensures all { result ≡ true → AllLentWait N.layout self.now.first_lent (past_of self.now.history) }
        ensures some { result ≡ false → SomeLentIsFree N.layout self.now.first_lent (past_of self.now.history) }
    {
        let callers = self.dispatch.shape().counts().callers;
        for caller in self.dispatch.first_lent().0..callers {
            if !self.waits(CallerId(caller)) {
                return false;
            }
        }
        true
    }
}
