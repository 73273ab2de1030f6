//! Callers that are lent to runs that wait, each for one wait at a time.
ghost use Rattle.std.specs.Prelude.{◌≡◌, ◌&&◌, ◌++◌, ◌∷◌, [], true, false, is_ok, IfOk, IfErr};
ghost use mathlib.Core.List.{IsPrefix};
ghost use Rattle.cmwq_model.specs.Prelude.{has_numbers, is_callers, is_tick};
ghost use Rattle.cmwq_model.specs.declared.id.Who.TheVariants as whos;
ghost use Rattle.cmwq_monitor.specs.Calls.{own_entry};
ghost use Rattle.cmwq_monitor.specs.Participants.{is_caller, made_by};
ghost use Rattle.cmwq_monitor.specs.Steps.{MayBegin};
ghost use Rattle.cmwq_monitor.specs.Whole.{BrokeOff, Completes};
ghost use Rattle.cmwq_rt.specs.Lent.{HasOnlyWaited};
ghost use Rattle.cmwq_rt.specs.Waiting.{is_wait};

use crate::caller::Caller;
use crate::hold::Hold;
use crate::hub::Hub;
use cmwq_model::{Call, Reply};
use cmwq_monitor::{Participant, RunFault};
use cmwq_publish::HubName;
use std::marker::Model;
use std::sync::{Mutex, Wait};

/// A caller that is lent to runs, for one wait after another, and makes no other calls. Contracts see it as a caller.
#[derive(Drop)]
pub struct LentCaller<N: HubName> {
    caller: Caller<N>,
    /// It was new when it was lent, and none of its waits has broken off.
    has_only_waited: bool,
}

impl<N: HubName> Model for LentCaller<N> {
    ghost use Rattle.std.specs.Prelude.{◌≡◌, true};
    ghost use Rattle.cmwq_monitor.specs.Participants.{View};
    ghost use Rattle.cmwq_rt.specs.Lent.{HasOnlyWaited};

    ghost Value = { View };

    ghost view = { λ l. l.caller };

    ghost invariant = { λ l. l.has_only_waited ≡ true → HasOnlyWaited N.layout l.caller };
}

/// Whether it was so before, and the wait has not broken off.
fn has_gone_on(before: bool, answer: &Result<Reply, RunFault>) -> bool
    ensures { result ≡ (before && is_ok answer.now) }
{
    before && answer.is_ok()
}

impl<N: HubName> LentCaller<N> {
    /// This caller, to be lent.
    #[tactic(auto, using(crate::proofs::Lending::new_waited))]
    pub fn new(caller: Caller<N>) -> LentCaller<N>
        ensures { result ≡ caller }
    {
        let has_only_waited = caller.is_new();
        LentCaller {
            caller,
            has_only_waited,
        }
    }

    /// The caller, once it is lent no more. A hub that lends it takes no calls of it either.
    ///
    /// # Errors
    /// The caller, if it was not new when it was lent, or a wait of it has broken off. Otherwise its entries are those
    /// of whole waits.
    pub fn into_caller(self) -> Result<Caller<N>, Caller<N>>
        ensures waited { IfOk result (λ c. (c ≡ self) × HasOnlyWaited N.layout c) }
        ensures other { IfErr result (λ c. c ≡ self) }
    {
        let LentCaller {
            caller,
            has_only_waited,
        } = self;
        if has_only_waited {
            Ok(caller)
        } else {
            Err(caller)
        }
    }

    /// The number of the caller.
    pub fn number(&self) -> u8
        ensures { self.now.who ≡ whos.Caller (record { 0 = result }) }
    {
        self.caller.number()
    }

    pub(crate) fn participant(&self) -> &Participant<N>
        ensures same { result.now ≡ self.now }
        ensures caller { is_caller self.now.who ≡ true }
    {
        self.caller.participant()
    }

    /// The whole call of a run that waits, which fell asleep by the last entry.
    pub(crate) fn wait_in_run<'a, R: Wait>(
        &mut self,
        rt: &R,
        hub: &'a Hub<N>,
        hold: Hold<'a, N>,
        call: Call,
    ) -> (Hold<'a, N>, Result<Reply, RunFault>)
        requires kind { is_wait call ≡ true }
        requires callers { is_callers call ≡ true }
        requires numbers { has_numbers N.layout call ≡ true }
        requires waits { is_tick call ≡ false }
        requires begins { MayBegin N.layout hold.monitor.value self.old call }
        ensures done { IfOk result.1 (λ reply. Completes N.layout self.old call reply self.new) }
        ensures at_once { IfOk result.1 (λ _. IsPrefix (hold.entry.monitor.value.history
            ++ own_entry N.layout hold.entry.monitor.value.history self.old call ∷ []) self.new.seen) }
        ensures nothing_yet { IfOk result.1
            (λ _. made_by self.old.who hold.entry.monitor.value.history ≡ made_by self.old.who self.old.seen) }
        ensures broke { IfErr result.1 (λ f. BrokeOff N.layout self.old call f self.new) }
    {
        let (hold, answer) = self.caller.wait_in_run(rt, hub, hold, call);
        self.has_only_waited = has_gone_on(self.has_only_waited, &answer);
        (hold, answer)
    }
}

/// Callers of a hub by which runs wait: as many runs may wait at the same time. Workers share them. The hub has to lend
/// them (`HubParts::lending_from`): else each of these waits returns `NoCaller`.
pub struct Lent<N: HubName> {
    callers: Mutex<Vec<LentCaller<N>>>,
}

impl<N: HubName> Lent<N> {
    /// Lends these callers. No wait takes memory.
    pub fn new(callers: Vec<LentCaller<N>>) -> Lent<N> {
        Lent {
            callers: Mutex::new(callers),
        }
    }

    /// All that were lent, once nobody waits.
    pub fn into_callers(self) -> Vec<LentCaller<N>> {
        let Lent { callers } = self;
        callers.into_inner()
    }

    pub(crate) fn take<R: Wait>(&self, rt: &R) -> Option<LentCaller<N>> {
        let mut callers = self.callers.lock(rt);
        callers.pop()
    }

    /// Lends this caller too, if the list that `new` was given has space for it.
    pub fn give<R: Wait>(&self, rt: &R, caller: LentCaller<N>) {
        let mut callers = self.callers.lock(rt);
        if callers.len() < callers.capacity() {
            callers.push_reserved(caller);
        }
    }
}
