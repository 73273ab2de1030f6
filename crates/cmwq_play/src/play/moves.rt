//! The moves of a play.

ghost use Rattle.std.specs.Prelude.{◌≡◌, ◌<◌, true, length, IfOk};
ghost use Rattle.std.specs.Result.{result_ok};
ghost use Rattle.cmwq_model.specs.Prelude.{has_numbers};
ghost use Rattle.cmwq_model.specs.declared.id.Who.TheVariants as who;
ghost use Rattle.cmwq_play.specs.Machines as machines;
ghost use Rattle.cmwq_play.specs.Stands as spec;
ghost use Rattle.cmwq_play.specs.Waiting.{is_refused};
ghost use Rattle.cmwq_play.specs.declared.place.Doing.TheVariants as doing;

use super::Play;
use crate::machine::Called;
use crate::noted::{ActionId, Unwaited};
use crate::place::{CallerAt, Doing, RunAt, Ticketed, WorkerAt, after_action, next_place};
use crate::waiting;
use cmwq_json_script::{Action, Holder};
use cmwq_model::{Call, CallerId, Who, WorkerId};
use std::alloc::AllocError;

impl<'a> Play<'a> {
    /// Makes the move of one who may move.
    #[tactic(auto, unfolding(crate::specs::Stands::moved))]
    pub fn make_move(&mut self, party: usize) -> Result<(), AllocError>
        ensures { IfOk result (λ _. self.new ≡ spec.moved self.old party) }
    {
        let callers = self.callers.len();
        if party < callers {
            let at = self.callers[party];
            self.move_caller(party, at)
        } else if party - callers < self.workers.len() {
            let k = party - callers;
            let at = self.workers[k];
            self.move_worker(k, at)
        } else {
            Ok(())
        }
    }

    fn put_caller(&mut self, k: usize, at: CallerAt)
        requires { k < length self.old.callers }
        ensures { self.new ≡ spec.with_caller self.old k at }
    {
        self.callers[k] = at;
    }

    fn put_run(&mut self, k: usize, id: WorkerId, run: Option<RunAt>)
        requires { k < length self.old.workers }
        ensures { self.new ≡ spec.with_run self.old k id run }
    {
        self.workers[k] = WorkerAt { id, run };
    }

    #[tactic(auto, unfolding(crate::specs::Stands::caller_moved))]
    fn move_caller(&mut self, k: usize, at: CallerAt) -> Result<(), AllocError>
        requires { k < length self.old.callers }
        ensures { IfOk result (λ _. self.new ≡ spec.caller_moved self.old k at) }
    {
        if let Some(wait) = at.wait {
            self.machine.end(Who::Caller(at.id), wait)?;
            self.put_caller(k, CallerAt { wait: None, ..at });
            return Ok(());
        }
        match self.script_of(k).get(at.next) {
            Some(action) => self.act_as_caller(k, at, *action),
            None => Ok(()),
        }
    }

    #[tactic(auto, unfolding(crate::specs::Stands::caller_acted))]
    fn act_as_caller(&mut self, k: usize, at: CallerAt, action: Action) -> Result<(), AllocError>
        requires { k < length self.old.callers }
        ensures { IfOk result (λ _. self.new ≡ spec.caller_acted self.old k at action) }
    {
        let holder = Holder::Caller(at.id);
        match action {
            Action::Call(call) => return self.make_call(k, at, call),
            Action::Open { gate } => self.open(gate),
            Action::SleepAt { .. } => {}
            Action::Lock { lock } => self.lock(holder, lock),
            Action::Unlock { lock } => self.unlock(holder, lock),
        }
        let next = next_place(at.next);
        self.put_caller(k, CallerAt { next, ..at });
        Ok(())
    }

    fn make_call(&mut self, k: usize, at: CallerAt, call: Call) -> Result<(), AllocError>
        requires { k < length self.old.callers }
        ensures { IfOk result
            (λ _. self.new ≡ spec.after_call self.old k at (machines.called self.old.history (who.Caller at.id) call)) }
    {
        let called = self.machine.call(Who::Caller(at.id), call)?;
        if matches!(called, Called::NoRoom) {
            self.note_left_out();
        }
        let after = CallerAt {
            next: next_place(at.next),
            wait: wait_of(called),
            ..at
        };
        self.put_caller(k, after);
        Ok(())
    }

    fn note_left_out(&mut self)
        ensures { self.new ≡ self.old }
    {
        self.noted.leaves_out();
    }

    fn note_unwaited(&mut self, run: RunAt, why: Unwaited)
        ensures { self.new ≡ self.old }
    {
        let place = ActionId {
            item: run.item,
            action: run.next,
        };
        self.noted.unwaited(place, why);
    }

    #[tactic(auto, unfolding(crate::specs::Stands::worker_moved))]
    fn move_worker(&mut self, k: usize, at: WorkerAt) -> Result<(), AllocError>
        requires { k < length self.old.workers }
        ensures { IfOk result (λ _. self.new ≡ spec.worker_moved self.old k at) }
    {
        match at.run {
            Some(run) => self.move_run(k, at.id, run),
            None => self.start(k, at.id),
        }
    }

    /// Starts a run, if the worker would start one now.
    #[tactic(auto, unfolding(crate::specs::Stands::started))]
    fn start(&mut self, k: usize, id: WorkerId) -> Result<(), AllocError>
        requires { k < length self.old.workers }
        ensures { IfOk result (λ _. self.new ≡ spec.started self.old k id) }
    {
        let Some(item) = self.machine.would_start(id) else {
            self.put_run(k, id, None);
            return Ok(());
        };
        self.machine.step(Who::Worker(id), Call::Take)?;
        let run = RunAt {
            item,
            next: 0,
            doing: Doing::Acts,
        };
        self.put_run(k, id, Some(run));
        Ok(())
    }

    /// Sends the worker to the reserve, if it would be sent there now.
    fn rest(&mut self, id: WorkerId) -> Result<(), AllocError>
        ensures { IfOk result (λ _. self.new ≡ spec.with_history self.old (spec.rested self.old.history id)) }
    {
        if self.machine.would_retire(id) {
            self.machine.step(Who::Worker(id), Call::Retire)?;
        }
        Ok(())
    }

    /// Ends a run, and starts the next one, if there is one now.
    #[tactic(auto, unfolding(crate::specs::Stands::finished))]
    fn finish(&mut self, k: usize, id: WorkerId) -> Result<(), AllocError>
        requires { k < length self.old.workers }
        ensures { IfOk result (λ _. self.new ≡ spec.finished self.old k id) }
    {
        self.machine.step(Who::Worker(id), Call::Finish)?;
        self.rest(id)?;
        self.start(k, id)
    }

    fn action_of(&self, run: RunAt) -> Option<Action>
        ensures { result ≡ spec.action_of self.now run }
    {
        let actions = self.setup.script.does.get(usize::from(run.item.0))?;
        let action = actions.get(run.next)?;
        Some(*action)
    }

    #[tactic(auto, unfolding(crate::specs::Stands::run_moved))]
    fn move_run(&mut self, k: usize, id: WorkerId, run: RunAt) -> Result<(), AllocError>
        requires { k < length self.old.workers }
        ensures { IfOk result (λ _. self.new ≡ spec.run_moved self.old k id run) }
    {
        match run.doing {
            Doing::Acts => match self.action_of(run) {
                Some(action) => self.act(k, id, run, action),
                None => self.finish(k, id),
            },
            Doing::AtGate { slept, .. } => self.pass(k, id, run, slept),
            Doing::AtLock { lock, slept } => {
                self.lock(Holder::Run(run.item), lock);
                self.pass(k, id, run, slept)
            }
            Doing::Waits { caller, wait } => self.end_wait(k, id, run, caller, wait),
        }
    }

    /// The run goes on from a gate or a lock, and wakes if it slept.
    fn pass(&mut self, k: usize, id: WorkerId, run: RunAt, slept: bool) -> Result<(), AllocError>
        requires { k < length self.old.workers }
        ensures { IfOk result (λ _. self.new ≡ spec.went_on (spec.woken self.old id slept) k id run) }
    {
        if slept {
            self.machine.step(Who::Worker(id), Call::Wake)?;
        }
        self.put_run(k, id, Some(after_action(run)));
        Ok(())
    }

    /// The run sleeps at a gate, if there is room for that.
    fn sleep_at_gate(
        &mut self,
        k: usize,
        id: WorkerId,
        run: RunAt,
        gate: u8,
    ) -> Result<(), AllocError>
        requires { k < length self.old.workers }
        ensures { IfOk result (λ _. self.new ≡ spec.slept_at (doing.AtGate gate) self.old k id run) }
    {
        let slept = self.machine.step(Who::Worker(id), Call::Sleep)?.is_some();
        let doing = Doing::AtGate { gate, slept };
        self.put_run(k, id, Some(RunAt { doing, ..run }));
        Ok(())
    }

    /// The run takes a lock, or sleeps if it is held and there is room for that.
    fn want_lock(&mut self, k: usize, id: WorkerId, run: RunAt, lock: u8) -> Result<(), AllocError>
        requires { k < length self.old.workers }
        ensures { IfOk result (λ _. self.new ≡ spec.lock_wanted self.old k id run lock) }
    {
        if self.is_free(lock) {
            self.lock(Holder::Run(run.item), lock);
            self.put_run(k, id, Some(after_action(run)));
            return Ok(());
        }
        let slept = self.machine.step(Who::Worker(id), Call::Sleep)?.is_some();
        let doing = Doing::AtLock { lock, slept };
        self.put_run(k, id, Some(RunAt { doing, ..run }));
        Ok(())
    }

    #[tactic(auto, unfolding(crate::specs::Stands::acted))]
    fn act(&mut self, k: usize, id: WorkerId, run: RunAt, action: Action) -> Result<(), AllocError>
        requires { k < length self.old.workers }
        ensures { IfOk result (λ _. self.new ≡ spec.acted self.old k id run action) }
    {
        match action {
            Action::Call(call) => {
                if !call.is_workers() {
                    return self.wait(k, id, run, call);
                }
                self.machine.step(Who::Worker(id), call)?;
                self.put_run(k, id, Some(after_action(run)));
                Ok(())
            }
            Action::Open { gate } => {
                self.open(gate);
                self.put_run(k, id, Some(after_action(run)));
                Ok(())
            }
            Action::SleepAt { gate } => self.sleep_at_gate(k, id, run, gate),
            Action::Lock { lock } => self.want_lock(k, id, run, lock),
            Action::Unlock { lock } => {
                self.unlock(Holder::Run(run.item), lock);
                self.put_run(k, id, Some(after_action(run)));
                Ok(())
            }
        }
    }

    /// The run waits, or goes on where its wait is refused, or finds no caller or no room.
    #[tactic(auto, unfolding(crate::specs::Stands::waited))]
    fn wait(&mut self, k: usize, id: WorkerId, run: RunAt, call: Call) -> Result<(), AllocError>
        requires { k < length self.old.workers }
        ensures { IfOk result (λ _. self.new ≡ spec.waited self.old k id run call) }
    {
        match self.lent_for(id, call)? {
            Ok(caller) => return self.begin(k, id, run, call, caller),
            Err(why) => self.note_unwaited(run, why),
        }
        self.put_run(k, id, Some(after_action(run)));
        Ok(())
    }

    /// The caller by which a run waits. There is none where the call is not inside the shape, the wait is refused, no
    /// caller is left, or there is no room for the wait: this is the order in which it is asked.
    #[tactic(auto, unfolding(crate::specs::Stands::lent_for))]
    fn lent_for(&mut self, id: WorkerId, call: Call) -> Result<Result<u8, Unwaited>, AllocError>
        ensures same { self.new ≡ self.old }
        ensures lent { IfOk result (λ caller. result_ok caller ≡ spec.lent_for self.old id call) }
    {
        if !self.machine.shape().has_numbers(call) {
            return Ok(Err(Unwaited::NoRoom));
        }
        if self.is_refused(id, call)? {
            return Ok(Err(Unwaited::Refused));
        }
        let Some(caller) = self.last_free() else {
            return Ok(Err(Unwaited::NoCaller));
        };
        if !self.machine.has_wait_room(id, CallerId(caller), call) {
            return Ok(Err(Unwaited::NoRoom));
        }
        Ok(Ok(caller))
    }

    fn is_refused(&mut self, id: WorkerId, call: Call) -> Result<bool, AllocError>
        requires { has_numbers self.old.history.layout call ≡ true }
        ensures same { self.new ≡ self.old }
        ensures is { IfOk result (λ is. is ≡ is_refused self.old.history self.old.workers id call) }
    {
        waiting::is_refused(&mut self.waits, &self.machine, &self.workers, id, call)
    }

    fn last_free(&self) -> Option<u8>
        ensures { result ≡ spec.last_free self.now.free }
    {
        self.free.last().copied()
    }

    /// The run sleeps, and its caller makes the call.
    #[tactic(auto, unfolding(crate::specs::Stands::begun_by))]
    fn begin(
        &mut self,
        k: usize,
        id: WorkerId,
        run: RunAt,
        call: Call,
        caller: u8,
    ) -> Result<(), AllocError>
        requires { k < length self.old.workers }
        ensures { IfOk result (λ _. self.new ≡ spec.begun_by self.old k id run call caller) }
    {
        self.machine.step(Who::Worker(id), Call::Sleep)?;
        let called = self.machine.call(Who::Caller(CallerId(caller)), call)?;
        self.go_on(k, id, run, caller, called)
    }

    /// After the call of its caller a run waits, and the caller is lent; or the run wakes.
    fn go_on(
        &mut self,
        k: usize,
        id: WorkerId,
        run: RunAt,
        caller: u8,
        called: Called,
    ) -> Result<(), AllocError>
        requires { k < length self.old.workers }
        ensures { IfOk result (λ _. self.new ≡ spec.after_begin self.old k id run caller self.old.history called) }
    {
        match called {
            Called::Waits(wait) => {
                self.free.pop();
                let doing = Doing::Waits { caller, wait };
                self.put_run(k, id, Some(RunAt { doing, ..run }));
                Ok(())
            }
            Called::NoRoom | Called::Whole => {
                self.machine.step(Who::Worker(id), Call::Wake)?;
                self.put_run(k, id, Some(after_action(run)));
                Ok(())
            }
        }
    }

    /// The wait of a run ends: it wakes, and gives its caller back.
    #[tactic(auto, unfolding(crate::specs::Stands::wait_ended))]
    fn end_wait(
        &mut self,
        k: usize,
        id: WorkerId,
        run: RunAt,
        caller: u8,
        wait: Ticketed,
    ) -> Result<(), AllocError>
        requires { k < length self.old.workers }
        ensures { IfOk result (λ _. self.new ≡ spec.wait_ended self.old k id run caller wait) }
    {
        self.machine.end(Who::Caller(CallerId(caller)), wait)?;
        self.machine.step(Who::Worker(id), Call::Wake)?;
        self.free.push(caller)?;
        self.put_run(k, id, Some(after_action(run)));
        Ok(())
    }
}

/// The wait that a call began.
fn wait_of(called: Called) -> Option<Ticketed>
    ensures { result ≡ spec.wait_of called }
{
    match called {
        Called::Waits(wait) => Some(wait),
        Called::NoRoom | Called::Whole => None,
    }
}
