//! A run that waits: its worker sleeps, and a caller that is lent to it waits.

ghost use Rattle.std.specs.Prelude.{◌≡◌, ◌++◌, ◌∷◌, [], true, false, IfOk, IfErr};
ghost use mathlib.Core.List.{IsPrefix};
ghost use Rattle.cmwq_model.specs.Prelude.{IsLegal, has_numbers, is_callers, is_tick, past_of};
ghost use Rattle.cmwq_model.specs.declared.call.Call.TheVariants as calls;
ghost use Rattle.cmwq_monitor.specs.Calls.{own_entry};
ghost use Rattle.cmwq_monitor.specs.Participants.{is_caller, made_by};
ghost use Rattle.cmwq_monitor.specs.Steps.{MayBegin};
ghost use Rattle.cmwq_monitor.specs.Settled.{Settles};
ghost use Rattle.cmwq_monitor.specs.Whole.{Completes};
ghost use Rattle.cmwq_rt.specs.Later.{Later};
ghost use Rattle.cmwq_rt.specs.Running.{MakesOne, breaks_off};
ghost use Rattle.cmwq_monitor.specs.Held.{MayWaitBy};
ghost use Rattle.cmwq_rt.specs.Waiting.{BreaksOff, IsFound, IsOfRun, NobodyLeft, SleepsThrough, TellsWhy, WasAllowed};
ghost use Rattle.cmwq_rt.specs.Waiting.{is_wait};
ghost use Rattle.cmwq_waits.specs.Begun.{is_lent};

use crate::hold::Hold;
use crate::hub::Hub;
use crate::lent::{Lent, LentCaller};
use crate::wait_fault::{WaitFault, fault_of};
use crate::work::with_room;
use cmwq_model::{Call, Reply};
use cmwq_monitor::{Monitor, Participant, RunFault};
use cmwq_publish::HubName;
use std::sync::Wait;

/// Whether the later one has seen all that the other has. They see one history, so it has if it has seen as many
/// entries.
fn has_seen<N: HubName>(later: &Participant<N>, other: &Participant<N>) -> bool
    ensures { result ≡ true → IsPrefix other.now.seen later.now.seen }
{
    other.agrees(later);
    other.seen() <= later.seen()
}

/// The fault of one that has made an entry after another, and yet has not seen all that the other has.
fn stranger<N: HubName>(later: &Participant<N>, other: &Participant<N>) -> RunFault
    ensures { breaks_off result ≡ true }
{
    RunFault::Stranger {
        own: other.seen(),
        book: later.seen(),
    }
}

/// Why no caller is lent: all that the hub lends wait, or the worker was given none.
fn nobody_left<N: HubName>(monitor: &Monitor<N>) -> WaitFault
    ensures { NobodyLeft N.layout monitor.now result }
{
    if monitor.all_lent_wait() {
        WaitFault::NoCaller
    } else {
        WaitFault::Run {
            fault: RunFault::Closed,
        }
    }
}

/// Takes a caller to be lent.
fn taken<N: HubName, R: Wait>(rt: &R, lent: Option<&Lent<N>>) -> Option<LentCaller<N>> {
    match lent {
        Some(lent) => lent.take(rt),
        None => None,
    }
}

/// The caller may be lent again.
fn give_back<N: HubName, R: Wait>(rt: &R, lent: Option<&Lent<N>>, caller: LentCaller<N>) {
    if let Some(lent) = lent {
        lent.give(rt, caller);
    }
}

/// A caller to be lent to the worker's run for a wait by this call, if it may wait. All is decided in one hold of the
/// lock. Only a caller that the hub knows as lent, and that has no unended ticket, is lent, so that the history shows
/// the wait.
#[tactic(auto, using(crate::proofs::Sleeping::nobody_found, crate::proofs::Sleeping::nobody_of_run))]
fn caller_for<N: HubName, R: Wait>(
    rt: &R,
    monitor: &mut Monitor<N>,
    worker: &Participant<N>,
    lent: Option<&Lent<N>>,
    call: Call,
) -> Result<LentCaller<N>, WaitFault>
    requires worker { is_caller worker.now.who ≡ false }
    requires callers { is_callers call ≡ true }
    requires numbers { has_numbers N.layout call ≡ true }
    ensures may { IfOk result (λ caller. MayWaitBy N.layout monitor.old worker.now.who call caller.who) }
    ensures found { IfErr result (IsFound N.layout monitor.old worker.now.who call) }
    ensures fault { IfErr result IsOfRun }
    ensures legal { IsLegal N.layout (past_of monitor.old.history) }
    ensures lent { monitor.old.first_lent ≡ N.first_lent }
    ensures same { monitor.new ≡ monitor.old }
{
    let _who = worker.who();
    match monitor.refuses(worker, call) {
        Ok(None) => {}
        Ok(Some(stuck)) => return Err(fault_of(stuck)),
        Err(fault) => return Err(WaitFault::Run { fault }),
    }
    let Some(caller) = taken(rt, lent) else {
        return Err(nobody_left(monitor));
    };
    if !monitor.is_free(caller.participant()) {
        give_back(rt, lent, caller);
        return Err(nobody_left(monitor));
    }
    if !monitor.has_room_to_wait(worker, caller.participant(), call) {
        give_back(rt, lent, caller);
        return Err(WaitFault::Run {
            fault: RunFault::Full,
        });
    }
    Ok(caller)
}

/// The worker sees all entries.
fn see_all<N: HubName>(monitor: &Monitor<N>, worker: &mut Participant<N>) -> Result<(), RunFault>
    ensures settled { IfOk result (λ _. Settles monitor.now.history worker.old worker.new) }
    ensures fault { IfErr result (λ f. breaks_off f ≡ true) }
    ensures later { Later worker.old worker.new }
{
    monitor.settle(worker)
}

/// The worker sees all entries, after which it was found that its run does not wait for this reason.
#[tactic(auto, using(crate::proofs::Sleeping::found_tells_from))]
fn left_out<N: HubName>(
    monitor: &Monitor<N>,
    worker: &mut Participant<N>,
    call: Call,
    why: WaitFault,
) -> WaitFault
    requires found { IsFound N.layout monitor.now worker.old.who call why }
    requires fault { IsOfRun why }
    requires legal { IsLegal N.layout (past_of monitor.now.history) }
    requires lent { monitor.now.first_lent ≡ N.first_lent }
    ensures why { TellsWhy N.layout N.first_lent worker.old call result worker.new }
    ensures fault { IsOfRun result }
    ensures later { Later worker.old worker.new }
{
    match see_all(monitor, worker) {
        Ok(()) => why,
        Err(fault) => WaitFault::Run { fault },
    }
}

/// Lends a caller to the worker's run for a wait by this call, and the run goes to sleep. Where it may not wait,
/// neither is done. Its call may be the next entry.
fn begin_wait<N: HubName, R: Wait>(
    rt: &R,
    hold: &mut Hold<N>,
    worker: &mut Participant<N>,
    lent: Option<&Lent<N>>,
    call: Call,
) -> Result<LentCaller<N>, WaitFault>
    requires worker { is_caller worker.old.who ≡ false }
    requires callers { is_callers call ≡ true }
    requires numbers { has_numbers N.layout call ≡ true }
    ensures sleeps { IfOk result (λ _. MakesOne N.layout worker.old calls.Sleep worker.new) }
    ensures lent { IfOk result (λ caller. is_lent hold.new.monitor.value.first_lent caller.who ≡ true) }
    ensures allowed { IfOk result (λ caller. WasAllowed N.layout N.first_lent worker.old call caller.who worker.new) }
    ensures all { IfOk result (λ _. hold.new.monitor.value.history ≡ worker.new.seen) }
    ensures begins { IfOk result (λ caller. MayBegin N.layout hold.new.monitor.value caller call) }
    ensures why { IfErr result (λ f. TellsWhy N.layout N.first_lent worker.old call f worker.new) }
    ensures fault { IfErr result IsOfRun }
    ensures later { Later worker.old worker.new }
{
    let _who = worker.who();
    let caller = match caller_for(rt, &mut hold.monitor, worker, lent, call) {
        Ok(caller) => caller,
        Err(why) => return Err(left_out(&hold.monitor, worker, call, why)),
    };
    let slept = hold.monitor.call(rt, worker, Call::Sleep, &mut hold.wakes);
    match slept {
        Ok(_) => Ok(caller),
        Err(fault) => {
            give_back(rt, lent, caller);
            Err(WaitFault::Run {
                fault: with_room(fault),
            })
        }
    }
}

impl<N: HubName> Hub<N> {
    /// The worker's run sleeps while a caller that is lent to it makes a whole call, and wakes after it.
    ///
    /// The lock is held from the look for a deadlock until the first entries, and from the last entry until the run is
    /// awake and the caller is given back. So there is space for the sleep and all of the call before the look.
    pub(crate) fn sleep_through<R: Wait>(
        &self,
        rt: &R,
        worker: &mut Participant<N>,
        lent: Option<&Lent<N>>,
        call: Call,
    ) -> Result<Reply, WaitFault>
        requires worker { is_caller worker.old.who ≡ false }
        requires callers { is_callers call ≡ true }
        requires numbers { has_numbers N.layout call ≡ true }
        requires waits { is_tick call ≡ false }
        requires kind { is_wait call ≡ true }
        ensures waited { IfOk result (λ reply. SleepsThrough N.layout N.first_lent worker.old call reply worker.new) }
        ensures why { IfErr result (λ f. TellsWhy N.layout N.first_lent worker.old call f worker.new) }
        ensures fault { IfErr result IsOfRun }
        ensures later { Later worker.old worker.new }
    {
        let _who = worker.who();
        let most = self.most_in_run(call);
        let mut hold = self.spacious(rt, self.lock(rt), worker.who(), most);
        let begun = begin_wait(rt, &mut hold, worker, lent, call);
        let mut caller = match begun {
            Ok(caller) => caller,
            Err(fault) => {
                self.leave(rt, hold);
                return Err(fault);
            }
        };
        let (hold, answer) = self.wake_after(rt, hold, worker, &mut caller, call);
        give_back(rt, lent, caller);
        self.leave(rt, hold);
        answer
    }

    /// The caller makes its call as the next entry, and in any case the worker wakes after it.
    fn wake_after<'a, R: Wait>(
        &'a self,
        rt: &R,
        hold: Hold<'a, N>,
        worker: &mut Participant<N>,
        caller: &mut LentCaller<N>,
        call: Call,
    ) -> (Hold<'a, N>, Result<Reply, WaitFault>)
        requires worker { is_caller worker.old.who ≡ false }
        requires callers { is_callers call ≡ true }
        requires numbers { has_numbers N.layout call ≡ true }
        requires waits { is_tick call ≡ false }
        requires kind { is_wait call ≡ true }
        requires here { hold.monitor.value.history ≡ worker.old.seen }
        requires begins { MayBegin N.layout hold.monitor.value caller.old call }
        ensures completes { IfOk result.1 (λ reply. Completes N.layout caller.old call reply caller.new) }
        ensures nothing_yet { IfOk result.1
            (λ _. made_by caller.old.who hold.entry.monitor.value.history ≡ made_by caller.old.who caller.old.seen) }
        ensures by_caller { is_caller caller.new.who ≡ true }
        ensures wakes { IfOk result.1 (λ _. MakesOne N.layout worker.old calls.Wake worker.new) }
        ensures at_once { IfOk result.1 (λ _. IsPrefix (worker.old.seen
            ++ own_entry N.layout worker.old.seen caller.old call ∷ []) caller.new.seen) }
        ensures sees { IfOk result.1 (λ _. IsPrefix caller.new.seen worker.new.seen) }
        ensures broke { IfErr result.1 BreaksOff }
        ensures later { Later worker.old worker.new }
    {
        let _who = worker.who();
        let (mut hold, answer) = caller.wait_in_run(rt, self, hold, call);
        let _caller = caller.participant();
        let held = &mut hold;
        let woke = held.monitor.call(rt, worker, Call::Wake, &mut held.wakes);
        let reply = match (woke, answer) {
            (Ok(_), Ok(reply)) => reply,
            (Err(fault), _) | (_, Err(fault)) => {
                let fault = with_room(fault);
                return (hold, Err(WaitFault::Run { fault }));
            }
        };
        if !has_seen(worker, caller.participant()) {
            let fault = stranger(worker, caller.participant());
            return (hold, Err(WaitFault::Run { fault }));
        }
        (hold, Ok(reply))
    }
}
