//! What the items of a script do when they run.
ghost use Rattle.std.specs.Prelude.{◌≡◌, ◌⊎◌, ◌+◌, true, false, map, string_bytes, IfOk, IfErr, IfSome, None, Some};
ghost use Rattle.std.specs.Prelude.{Err};
ghost use Rattle.cmwq_monitor.specs.Faults.{is_full};
ghost use Rattle.cmwq_monitor.specs.declared.fault.RunFault.TheVariants.{Full};
ghost use Rattle.cmwq_rt.specs.Later.{Later};
ghost use Rattle.cmwq_rt.specs.Waiting.{is_refusal};
ghost use Rattle.cmwq_rt.specs.declared.wait_fault.WaitFault.TheVariants as waits;
ghost use Rattle.cmwq_json_script.specs.Scripts.{is_own};
ghost use Rattle.cmwq_json_script.specs.declared.action.Action.TheVariants as actions;
ghost use Rattle.cmwq_cmd_run.specs.Interpreted.{Acts, ActInTurn, SleepsOnce};
ghost use Rattle.cmwq_cmd_run.specs.Run.{IsNamed, told_count};

use crate::locks::Locks;
use crate::refusals::{ActionId, Refusals, RefusedWaits};
use crate::room::unless_full;
use cmwq_json_script::{Action, Holder};
use cmwq_model::{Call, ItemId, Reply};
use cmwq_rt::{Calls, Gate, Gates, HubName, LeftOut, RunCalls, RunCtx, RunFault, WaitFault, Work};
use std::sync::Wait;

/// Interprets a script: runs an item by doing its actions, one after another, and does those of a caller. All share the
/// gates and the locks.
#[derive(Drop)]
pub struct Interpreter<'a> {
    does: &'a [Vec<Action>],
    pub(crate) callers: &'a [Vec<Action>],
    pub(crate) gates: Gates,
    pub(crate) locks: Locks,
    refusals: Refusals,
}

/// Whether an item may make such a call.
fn is_own(call: Call) -> bool
    ensures { result ≡ is_own call }
{
    matches!(
        call,
        Call::Queue { .. }
            | Call::Delay { .. }
            | Call::Modify { .. }
            | Call::Cancel { .. }
            | Call::FlushItem { .. }
            | Call::FlushDelayed { .. }
            | Call::CancelSync { .. }
            | Call::Flush { .. }
            | Call::Drain { .. }
    )
}

impl<'a> Interpreter<'a> {
    /// What each item and each caller does, by its number; all gates are shut, and nobody holds a lock.
    pub fn new(does: &'a [Vec<Action>], callers: &'a [Vec<Action>]) -> Interpreter<'a>
        ensures does { result.does.now ≡ does.now }
        ensures callers { result.callers.now ≡ callers.now }
    {
        Interpreter {
            does,
            callers,
            gates: Gates::new(),
            locks: Locks::new(),
            refusals: Refusals::new(),
        }
    }

    /// Whether a run or a caller passed this gate after it had looked at it in vain.
    pub fn was_missed<R: Wait>(&self, rt: &R, gate: u8) -> bool {
        self.gates.was_missed(rt, gate)
    }

    /// What is told where so many waits were left out, by these names of the items.
    pub fn told<R: Wait>(&self, rt: &R, names: &[String], left_out: LeftOut) -> Option<RefusedWaits>
        ensures named { IfSome result (λ waits. IsNamed (map string_bytes names.now) waits.item.bytes) }
        ensures count { IfSome result (λ waits. waits.more + 1 ≡ told_count left_out) }
    {
        self.refusals.told(rt, names, left_out)
    }

    /// A wait that is refused, or for which there is no room, is left out, and noted.
    fn unless_refused<R: Wait>(
        &self,
        rt: &R,
        place: ActionId,
        answer: Result<Reply, WaitFault>,
    ) -> Result<(), RunFault>
        ensures passes { IfOk result (λ _. IfErr answer (λ f. (is_refusal f ≡ true) ⊎ (f ≡ waits.Run Full))) }
        ensures broke { IfErr result (λ f. (answer ≡ Err (waits.Run f)) × (is_full f ≡ false)) }
    {
        let fault = match answer {
            Ok(_) => return Ok(()),
            Err(fault) => fault,
        };
        match fault {
            WaitFault::Run {
                fault: RunFault::Full,
            }
            | WaitFault::Itself
            | WaitFault::Deadlock
            | WaitFault::NoCaller => {
                self.refusals.add(rt, place, fault);
                Ok(())
            }
            WaitFault::Run { fault } => Err(fault),
        }
    }

    /// Makes a call. One that makes no sense of a run is left out.
    #[tactic(auto, using(crate::proofs::Interpreting::own_waits))]
    fn call<N: HubName, R: Wait>(
        &self,
        context: &mut RunCtx<N, R>,
        place: ActionId,
        call: Call,
    ) -> Result<(), RunFault>
        requires { context.old.fault ≡ None }
        ensures later { Later context.old.participant context.new.participant }
        ensures done { IfOk result
            (λ _. (context.new.fault ≡ None)
            × Acts N.layout context.old.item (actions.Call call) context.old.left_out context.new.left_out
            context.old.participant context.new.participant) }
        ensures item { context.new.item ≡ context.old.item }
        ensures broke { IfErr result (λ f. context.new.fault ≡ Some f) }
    {
        if !is_own(call) || !context.shape().has_numbers(call) {
            return Ok(());
        }
        if call.is_workers() {
            return unless_full(context.make(call));
        }
        let answer = context.wait(call);
        self.unless_refused(context.rt(), place, answer)
    }

    /// Sleeps, passes a gate and wakes. Where there is no room for the sleep, it and the wake are left out.
    fn sleep_at<N: HubName, R: Wait>(
        &self,
        context: &mut RunCtx<N, R>,
        gate: u8,
    ) -> Result<(), RunFault>
        requires { context.old.fault ≡ None }
        ensures later { Later context.old.participant context.new.participant }
        ensures done { IfOk result
            (λ _. (context.new.fault ≡ None) × SleepsOnce N.layout context.old.participant context.new.participant) }
        ensures item { context.new.item ≡ context.old.item }
        ensures left_out { context.new.left_out ≡ context.old.left_out }
        ensures broke { IfErr result (λ f. context.new.fault ≡ Some f) }
    {
        let asleep = context.sleep();
        self.gates.pass(context.rt(), gate);
        match asleep {
            Ok(_) => unless_full(context.wake()),
            Err(fault) => unless_full(Err(fault)),
        }
    }

    fn act<N: HubName, R: Wait>(
        &self,
        context: &mut RunCtx<N, R>,
        place: ActionId,
        action: Action,
    ) -> Result<(), RunFault>
        requires { context.old.fault ≡ None }
        ensures later { Later context.old.participant context.new.participant }
        ensures done { IfOk result
            (λ _. (context.new.fault ≡ None)
            × Acts N.layout context.old.item action context.old.left_out context.new.left_out
            context.old.participant context.new.participant) }
        ensures item { context.new.item ≡ context.old.item }
        ensures broke { IfErr result (λ f. context.new.fault ≡ Some f) }
    {
        match action {
            Action::Call(call) => self.call(context, place, call),
            Action::Open { gate } => {
                self.gates.open(context.rt(), gate);
                Ok(())
            }
            Action::SleepAt { gate } => self.sleep_at(context, gate),
            Action::Lock { lock } => self.locks.lock_in_run(context, lock),
            Action::Unlock { lock } => {
                let holder = Holder::Run(context.item());
                self.locks.unlock(context.rt(), lock, holder);
                Ok(())
            }
        }
    }

    /// Acts in turn, until a call answers a fault other than want of room.
    fn act_all<N: HubName, R: Wait>(
        &self,
        context: &mut RunCtx<N, R>,
        item: ItemId,
        actions: &[Action],
    ) -> Result<(), RunFault>
        requires { context.old.fault ≡ None }
        ensures later { Later context.old.participant context.new.participant }
        ensures done { IfOk result
            (λ _. (context.new.fault ≡ None)
            × ActInTurn N.layout context.old.item actions.now context.old.left_out context.new.left_out
            context.old.participant context.new.participant) }
        ensures broke { IfErr result (λ f. context.new.fault ≡ Some f) }
    {
        for k in 0..actions.len() {
            self.act(context, ActionId { item, action: k }, actions[k])?;
        }
        Ok(())
    }
}

impl<'a> Work for Interpreter<'a> {
    ghost use Rattle.std.specs.Prelude.{map};
    ghost use Rattle.cmwq_cmd_run.specs.Interpreted.{plays};

    ghost does = { λ p. plays (map (λ d. d.items) p.does.now) };

    /// A fault other than want of room ends the run: its worker answers it.
    fn run<N: HubName, R: Wait>(&self, item: ItemId, context: &mut RunCtx<N, R>) {
        let Some(actions) = self.does.get(usize::from(item.0)) else {
            return;
        };
        let _broke = self.act_all(context, item, actions.as_slice());
    }
}
