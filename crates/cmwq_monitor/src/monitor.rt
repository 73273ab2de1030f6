//! What a hub keeps under its lock: its decisions, the published history, and the ledger of entries.
ghost use Rattle.std.specs.Prelude.{◌≡◌, ◌⊎◌, ◌≤◌, ◌<◌, ◌+◌, ◌-◌, ◌++◌, ◌∷◌, ◌&&◌, [], drop, length, true, false};
ghost use Rattle.std.specs.Prelude.{IfOk, IfErr, IfSome, IsTrue, MatchOption, MatchBool, None, Some, if◌then◌else◌};
ghost use Rattle.std.specs.Prelude.{is_some, nat_lt, not};
ghost use Rattle.cmwq_model.specs.declared.call.Call.{Call};
ghost use Rattle.cmwq_model.specs.Prelude.{IsLegal, Layout, fits, has_numbers, is_layout, past_of};
ghost use Rattle.cmwq_model.specs.declared.call.Call.TheVariants as calls;
ghost use Rattle.cmwq_model.specs.declared.reply.Reply.TheVariants as replies;
ghost use Rattle.cmwq_core.specs.Plans.{IsPlan};
ghost use Rattle.cmwq_dispatch.specs.Asleep.{IsUpAgain, NobodySleeps};
ghost use Rattle.cmwq_dispatch.specs.Dispatched.{MayEnter, Stands, is_new};
ghost use Rattle.cmwq_dispatch.specs.Naming.{NamesAll, NamesMore, names_journal};
ghost use Rattle.cmwq_monitor.specs.Participants.{View, Gains, is_caller};
ghost use Rattle.cmwq_monitor.specs.Held.{GoesOn, IsOpenTo, LeavesHeld, SleepersGoOn, active_in, dispatched};
ghost use Rattle.cmwq_monitor.specs.Held.{failed_from, has_space, held_at_first, held_of, history_of};
ghost use Rattle.cmwq_monitor.specs.Held.{is_over, is_shut_to, is_writer_wanted};
ghost use mathlib.Core.List.{IsPrefix};
ghost use Rattle.cmwq_waits.specs.Allowed.{WaitsWereAllowed};
ghost use Rattle.cmwq_monitor.specs.Calls.{Extends, own_entry};
ghost use Rattle.cmwq_monitor.specs.Faults.{SaysFault, Refused, IsStranger, is_full};
ghost use Rattle.cmwq_monitor.specs.declared.fault.RunFault.TheVariants.{Closed};
ghost use Rattle.cmwq_monitor.specs.Whole.{Stops};
ghost use Rattle.cmwq_monitor.specs.Steps.{InStep, IsFiring, TellsFirst, Lacks, HasFired, HasFiredSome};
ghost use Rattle.cmwq_monitor.specs.Steps.{IsViewKept, MayBegin};
ghost use Rattle.cmwq_monitor.specs.Sleeping.{EndsOrWaits, Starts, StartsOrRests, WhetherDone, makes_no_end};
ghost use Rattle.cmwq_monitor.specs.Sleeping.{makes_no_start};
ghost use Rattle.cmwq_monitor.specs.Settled.{Settles};

mod waits;

use crate::fault::{RunFault, Shortage};
use crate::journal::{Journal, Rest};
use crate::participant::Participant;
use cmwq_core::{Full, Plan};
use cmwq_dispatch::{Dispatch, EndPlan, Firing, Sleep, Wakes};
use cmwq_model::{Call, Entry, ItemId, NoMemory, Number, Reply, Who};
use cmwq_publish::{HubName, Publisher};
use cmwq_state::Tail;
use std::marker::Model;
use std::sync::ledger::Share;
use std::sync::{Wait, ledger};

/// How many timers `Monitor::fire_some` fires, at most.
pub const MOST_FIRES: u16 = 128;

/// What a hub keeps under its lock. Contracts see its history, which is legal and is the execution's and the published
/// one, whether it is closed, and whether it has failed.
pub struct Monitor<N: HubName> {
    dispatch: Dispatch,
    tail: Tail<Entry>,
    publisher: Publisher<N>,
    entries: ledger::Book<N>,
    /// Whether the one who writes the history down sleeps, and was not named since.
    writer_sleeps: bool,
}

/// What becomes of a ticket that is to be ended.
#[derive(Clone, Copy)]
pub enum Ended {
    /// Its end is done.
    Done,
    /// Its wait is not ready. What its caller does meanwhile.
    Not(Sleep),
}

/// What a worker does next.
#[derive(Clone, Copy)]
pub enum Next {
    /// It runs a queueing of this item, which it has started.
    Runs(ItemId),
    /// It would start nothing. What it does meanwhile.
    Nothing(Sleep),
}

impl<N: HubName> Model for Monitor<N> {
    ghost use Rattle.std.specs.Prelude.{◌≡◌, false, length, true};
    ghost use Rattle.cmwq_model.specs.Prelude.{past_of};
    ghost use Rattle.cmwq_waits.specs.Allowed.{WaitsWereAllowed};
    ghost use Rattle.cmwq_monitor.specs.Held.{Held, held_of, is_writer_wanted};

    ghost Value = { Held };

    ghost view = { λ d. held_of d.dispatch d.tail.given d.tail.room d.writer_sleeps };

    ghost invariant = { λ d. (d.dispatch.history.layout ≡ N.layout) × (d.dispatch.history.room ≡ N.layout.room)
        × (d.publisher.entries ≡ d.dispatch.history.entries)
        × (d.entries.total ≡ length d.dispatch.history.entries) × (d.tail.all ≡ d.dispatch.history.entries)
        × (d.writer_sleeps ≡ true
        → is_writer_wanted N.layout (held_of d.dispatch d.tail.given d.tail.room d.writer_sleeps) ≡ false)
        × WaitsWereAllowed d.dispatch.first_lent N.layout (past_of d.dispatch.history.entries)
        × (d.dispatch.first_lent ≡ N.first_lent) };
}

impl<N: HubName> Monitor<N> {
    /// The monitor of a hub that has no entry.
    pub fn new(
        dispatch: Dispatch,
        tail: Tail<Entry>,
        publisher: Publisher<N>,
        entries: ledger::Book<N>,
    ) -> Monitor<N>
        requires dispatch { dispatch ≡ is_new N.layout N.layout.room N.first_lent dispatch.asleep }
        requires tail { tail ≡ record { all = []; given = 0; room = tail.room } }
        requires publisher { publisher.entries ≡ [] }
        requires entries { entries.total ≡ 0 }
        ensures { result ≡ held_at_first tail.room N.first_lent dispatch.asleep }
    {
        Monitor {
            dispatch,
            tail,
            publisher,
            entries,
            writer_sleeps: false,
        }
    }

    /// What holds under the lock whoever has it. Nobody is forgotten, nobody sleeps once the hub is over, the one who
    /// writes the history down does not sleep while there is something to write, and each wait of a run that began was
    /// not refused just before the run fell asleep. Nothing runs.
    pub fn stands(&self)
        ensures dispatch { Stands (dispatched N.layout self.now) }
        ensures writer { self.now.writer_sleeps ≡ true → is_writer_wanted N.layout self.now ≡ false }
        ensures legal { IsLegal N.layout (past_of self.now.history) }
        ensures allowed { WaitsWereAllowed N.first_lent N.layout (past_of self.now.history) }
        ensures lent { self.now.first_lent ≡ N.first_lent }
        ensures layout { IsTrue (is_layout N.layout) }
    {
        self.dispatch.stands();
        let _counts = self.dispatch.shape().counts();
    }

    /// Makes the entry that was planned: it is published, then it is made, and its participant has seen it.
    #[inline(always)]
    fn make<R: Wait>(
        &mut self,
        rt: &R,
        participant: &mut Participant<N>,
        call: Call,
        plan: &Plan,
        wakes: &mut Wakes,
    ) -> Result<Reply, NoMemory>
        requires fits { IsTrue (fits N.layout participant.old.who call) }
        requires step { InStep self.old.history participant.old }
        requires plan { IsPlan (history_of N.layout self.old.history) participant.old.who call plan.now }
        requires may { MayEnter (dispatched N.layout self.old)
            (own_entry N.layout self.old.history participant.old call) }
        requires begins { MayBegin N.layout self.old participant.old call }
        ensures made { IfOk result (λ reply. Extends N.layout participant.old call reply participant.new
            × InStep self.new.history participant.new) }
        ensures reply { IfOk result
            (λ reply. reply ≡ (own_entry N.layout self.old.history participant.old call).reply) }
        ensures seen { IfOk result
            (λ _. participant.new.seen ≡ self.old.history ++ own_entry N.layout self.old.history participant.old call
            ∷ []) }
        ensures all { IfOk result (λ _. self.new.history ≡ participant.new.seen) }
        ensures goes_on { IfOk result (λ _. GoesOn self.old self.new) }
        ensures failed { IfErr result
            (λ _. (self.new ≡ failed_from self.old self.new.asleep) × (participant.new ≡ participant.old)) }
        ensures named { SleepersGoOn participant.old.who self.old self.new wakes.old wakes.new }
    {
        let _call = call;
        let serial = participant.serial();
        let _len = self.dispatch.execution().len();
        if self.tail.space() == 0 {
            self.fail(wakes);
            return Err(NoMemory);
        }
        let Ok(()) = self.publisher.publish(rt, &plan.mark) else {
            self.fail(wakes);
            return Err(NoMemory);
        };
        let reply = self.dispatch.commit(plan, wakes);
        let _most = self.dispatch.execution().len();
        self.tail.push(plan.mark.entry);
        participant.count(self.publisher.prefix(), serial + 1, &mut self.entries);
        self.writer_sleeps = sleeps_on(self.writer_sleeps, &self.dispatch, &self.tail, wakes);
        Ok(reply)
    }

    /// The participant makes an entry. Where there is no room for it, it sees all the history.
    fn enter<R: Wait>(
        &mut self,
        rt: &R,
        participant: &mut Participant<N>,
        call: Call,
        wakes: &mut Wakes,
    ) -> Result<Reply, Shortage>
        requires fits { IsTrue (fits N.layout participant.old.who call) }
        requires step { InStep self.old.history participant.old }
        requires may { MayEnter (dispatched N.layout self.old)
            (own_entry N.layout self.old.history participant.old call) }
        requires begins { MayBegin N.layout self.old participant.old call }
        ensures made { IfOk result (λ reply. Extends N.layout participant.old call reply participant.new) }
        ensures seen { IfOk result (λ _. participant.new.seen ≡ self.old.history
            ++ own_entry N.layout self.old.history participant.old call ∷ []) }
        ensures all { IfOk result (λ _. self.new.history ≡ participant.new.seen) }
        ensures goes_on { IfOk result (λ _. GoesOn self.old self.new) }
        ensures short { IfErr result (λ what. Gains participant.old [] participant.new
            × Lacks N.layout self.old participant.new call what self.new) }
        ensures step { InStep self.new.history participant.new }
        ensures named { SleepersGoOn participant.old.who self.old self.new wakes.old wakes.new }
    {
        let who = participant.who();
        let _own = participant.serial();
        let planned = self.dispatch.plan(who, call);
        match &planned {
            Ok(plan) => match self.make(rt, participant, call, plan, wakes) {
                Ok(reply) => Ok(reply),
                Err(NoMemory) => Err(Shortage::Memory),
            },
            Err(Full) => {
                participant.see(self.publisher.prefix());
                Err(Shortage::Room)
            }
        }
    }

    /// The hub counts the entries that the participant counts, and has all the history that the participant has seen.
    #[inline(always)]
    fn compare(&self, participant: &Participant<N>) -> Result<(), RunFault>
        ensures step { IfOk result (λ _. InStep self.now.history participant.now) }
        ensures stranger { IfErr result (λ f. IsStranger participant.now f) }
    {
        let own = participant.serial();
        let book = self.dispatch.execution().state().serial(participant.who());
        if own != book {
            return Err(RunFault::Stranger {
                own: u64::from(own),
                book: u64::from(book),
            });
        }
        let seen = participant.seen();
        let len = u64::from(self.dispatch.execution().len());
        if len < seen {
            return Err(RunFault::Stranger {
                own: seen,
                book: len,
            });
        }
        Ok(())
    }

    /// Whether the hub takes a call of the participant's: a closed one takes none of callers, a failed one none at all,
    /// and none takes one of a caller that is lent to runs, but for the calls by which they wait.
    #[inline(always)]
    fn admits(&self, participant: &Participant<N>) -> Result<(), RunFault>
        ensures open { IfOk result (λ _. IsOpenTo self.now participant.now.who) }
        ensures step { IfOk result (λ _. InStep self.now.history participant.now) }
        ensures says { IfErr result (λ f. (call : Call) → SaysFault N.layout participant.now call f) }
        ensures first { IfErr result (λ f. TellsFirst self.now participant.now f) }
        ensures leaves { IfErr result (λ f. LeavesHeld self.now f self.now) }
    {
        if self.is_shut_to(participant) {
            return Err(RunFault::Closed);
        }
        if self.dispatch.has_failed() {
            return Err(RunFault::NoMemory { ticket: None });
        }
        self.compare(participant)
    }

    /// Whether it takes no call of the participant's, whatever else is so.
    fn is_shut_to(&self, participant: &Participant<N>) -> bool
        ensures { result ≡ is_shut_to self.now participant.now.who }
    {
        match participant.who() {
            Who::Caller(_) => self.dispatch.is_closed() || self.is_lent(participant),
            Who::Worker(_) => false,
        }
    }

    /// Whether the hub takes a call by a caller that is lent to a run: it does, also once it is closed, until it is
    /// over. No run is awake then.
    #[inline(always)]
    fn admits_in_run(&self, participant: &Participant<N>) -> Result<(), RunFault>
        ensures open { IfOk result (λ _. self.now.failed ≡ false) }
        ensures lives { IfOk result (λ _. (is_caller participant.now.who && is_over N.layout self.now) ≡ false) }
        ensures step { IfOk result (λ _. InStep self.now.history participant.now) }
        ensures says { IfErr result (λ f. (call : Call) → SaysFault N.layout participant.now call f) }
        ensures over { IfErr result (λ f. f ≡ Closed → (self.now.failed ≡ false) × (is_over N.layout self.now ≡ true)) }
        ensures leaves { IfErr result (λ f. LeavesHeld self.now f self.now) }
    {
        if self.dispatch.has_failed() {
            return Err(RunFault::NoMemory { ticket: None });
        }
        if self.is_over() && matches!(participant.who(), Who::Caller(_)) {
            return Err(RunFault::Closed);
        }
        self.compare(participant)
    }

    /// A call of one entry. A closed hub refuses those of callers, and any hub those of callers that it lends to runs.
    pub fn call<R: Wait>(
        &mut self,
        rt: &R,
        participant: &mut Participant<N>,
        call: Call,
        wakes: &mut Wakes,
    ) -> Result<Reply, RunFault>
        requires { IsTrue (fits N.layout participant.old.who call) }
        ensures made { IfOk result (λ reply. Extends N.layout participant.old call reply participant.new
            × InStep self.new.history participant.new) }
        ensures seen { IfOk result (λ _. participant.new.seen ≡ self.old.history
            ++ own_entry N.layout self.old.history participant.old call ∷ []) }
        ensures all { IfOk result (λ _. self.new.history ≡ participant.new.seen) }
        ensures open { IfOk result (λ _. IsOpenTo self.old participant.old.who × GoesOn self.old self.new) }
        ensures refused { IfErr result (λ f. Refused N.layout participant.old call f participant.new) }
        ensures first { IfErr result (λ f. TellsFirst self.old participant.old f) }
        ensures leaves { IfErr result (λ f. LeavesHeld self.old f self.new) }
        ensures named { SleepersGoOn participant.old.who self.old self.new wakes.old wakes.new }
    {
        match self.admits(participant) {
            Ok(()) => {}
            Err(fault) => return Err(fault),
        }
        match self.enter(rt, participant, call, wakes) {
            Ok(reply) => Ok(reply),
            Err(Shortage::Room) => Err(RunFault::Full),
            Err(Shortage::Memory) => Err(RunFault::NoMemory { ticket: None }),
        }
    }

    /// The same by a caller that is lent to a run, as the next entry after the run fell asleep, where its wait was not
    /// refused before that. A closed hub takes it too, until it is over.
    pub fn call_in_run<R: Wait>(
        &mut self,
        rt: &R,
        participant: &mut Participant<N>,
        call: Call,
        wakes: &mut Wakes,
    ) -> Result<Reply, RunFault>
        requires fits { IsTrue (fits N.layout participant.old.who call) }
        requires begins { MayBegin N.layout self.old participant.old call }
        ensures made { IfOk result (λ reply. Extends N.layout participant.old call reply participant.new
            × InStep self.new.history participant.new) }
        ensures seen { IfOk result (λ _. participant.new.seen ≡ self.old.history
            ++ own_entry N.layout self.old.history participant.old call ∷ []) }
        ensures goes_on { IfOk result (λ _. (self.old.failed ≡ false) × GoesOn self.old self.new) }
        ensures refused { IfErr result (λ f. Refused N.layout participant.old call f participant.new) }
        ensures over { IfErr result (λ f. f ≡ Closed → (self.old.failed ≡ false) × (is_over N.layout self.old ≡ true)) }
        ensures leaves { IfErr result (λ f. LeavesHeld self.old f self.new) }
        ensures named { SleepersGoOn participant.old.who self.old self.new wakes.old wakes.new }
    {
        match self.admits_in_run(participant) {
            Ok(()) => {}
            Err(fault) => return Err(fault),
        }
        let entered = self.enter(rt, participant, call, wakes);
        match entered {
            Ok(reply) => Ok(reply),
            Err(Shortage::Room) => Err(RunFault::Full),
            Err(Shortage::Memory) => Err(RunFault::NoMemory { ticket: None }),
        }
    }

    /// Fires what is due, at most `left` times in all, and at most `MOST_FIRES` now, so that a hub may drop what it
    /// keeps before the next. Returns how many times it may still be fired, or None once all is: there was nothing
    /// more, or no room, or it was fired so many times. A closed hub fires too. Whoever has begun to fire keeps it from
    /// being over (`begins_firing`), so a hub that is over fails.
    pub fn fire_some<R: Wait>(
        &mut self,
        rt: &R,
        participant: &mut Participant<N>,
        left: u16,
        firing: &Firing,
        wakes: &mut Wakes,
    ) -> Result<Option<u16>, RunFault>
        requires { is_caller participant.old.who ≡ true }
        ensures fired { IfOk result (λ o. (v : View) → IsFiring N.layout left v participant.old
            → MatchOption o (HasFired N.layout v participant.new) (λ rest. IsFiring N.layout rest v participant.new)) }
        ensures fewer { IfOk result (λ o. IfSome o (λ rest. rest < left)) }
        ensures goes_on { IfOk result (λ _. (self.old.failed ≡ false) × GoesOn self.old self.new) }
        ensures stopped { IfErr result
            (λ f. Stops participant.new None f
            × ((v : View) → IsFiring N.layout left v participant.old → HasFiredSome v participant.new)) }
        ensures leaves { IfErr result (λ f. LeavesHeld self.old f self.new) }
        ensures named { SleepersGoOn participant.old.who self.old self.new wakes.old wakes.new }
    {
        if self.dispatch.has_failed() {
            return Err(RunFault::NoMemory { ticket: None });
        }
        let _firing = firing;
        self.compare(participant)?;
        let most = left.min(MOST_FIRES);
        for _ in 0..most {
            let _who = participant.who();
            if self.is_over() {
                self.fail(wakes);
                return Err(RunFault::NoMemory { ticket: None });
            }
            match self.enter(rt, participant, Call::Fire, wakes) {
                Ok(reply) => {
                    if reply.is_nothing() {
                        return Ok(None);
                    }
                }
                Err(Shortage::Room) => {
                    let _legal = participant.seen();
                    return Ok(None);
                }
                Err(Shortage::Memory) => return Err(RunFault::NoMemory { ticket: None }),
            }
        }
        if left > most {
            Ok(Some(left - most))
        } else {
            Ok(None)
        }
    }

    /// A caller fires from now on, until it gives back what it gets here: after its tick, or after its drain was given
    /// a ticket. Until then the hub is not over. It gets nothing from a hub that is over.
    pub fn begins_firing(&mut self) -> Option<Firing>
        ensures may { is_some result ≡ (not (is_over N.layout self.old) && nat_lt self.old.firing 4294967295) }
        ensures new { self.new
            ≡ (if is_some result then record self.old { firing = self.old.firing + 1 } else self.old) }
    {
        self.dispatch.begins_firing()
    }

    /// A caller fires no more.
    pub fn ends_firing(&mut self, firing: Firing, wakes: &mut Wakes)
        ensures new { self.new ≡ record self.old {
          firing = self.old.firing - 1;
          asleep = self.new.asleep;
          writer_sleeps = self.new.writer_sleeps;
        } }
        ensures named { (who : _) → SleepersGoOn who self.old self.new wakes.old wakes.new }
    {
        self.dispatch.ends_firing(firing, wakes);
        self.writer_sleeps = sleeps_on(self.writer_sleeps, &self.dispatch, &self.tail, wakes);
    }

    /// Ends a ticket of the participant's, if its end would be done now. A closed hub does that too. Otherwise its
    /// caller sleeps from now on, in the same hold of the lock, until it is named.
    pub fn end_or_sleep<R: Wait>(
        &mut self,
        rt: &R,
        participant: &mut Participant<N>,
        ticket: Number,
        wakes: &mut Wakes,
    ) -> Result<Ended, RunFault>
        requires { is_caller participant.old.who ≡ true }
        ensures done { IfOk result
            (λ ended. WhetherDone ended
            (Extends N.layout participant.old (calls.End ticket) replies.Done participant.new
            × InStep self.new.history participant.new) (participant.new ≡ participant.old)) }
        ensures waits { IfOk result (λ ended. EndsOrWaits N.layout self.old participant.old ticket ended self.new) }
        ensures open { IfOk result (λ _. self.old.failed ≡ false) }
        ensures stopped { IfErr result
            (λ f. (participant.new ≡ participant.old) × Stops participant.old (Some ticket) f) }
        ensures leaves { IfErr result (λ f. LeavesHeld self.old f self.new) }
        ensures named { MatchBool (makes_no_end result) (wakes.new ≡ wakes.old)
            (SleepersGoOn participant.old.who self.old self.new wakes.old wakes.new) }
    {
        if self.dispatch.has_failed() {
            return Err(RunFault::NoMemory {
                ticket: Some(ticket),
            });
        }
        self.compare(participant)?;
        let call = Call::End { ticket };
        let Who::Caller(caller) = participant.who() else {
            unreachable!()
        };
        match self.dispatch.plan_end(caller, ticket) {
            EndPlan::Done(plan) => match self.make(rt, participant, call, &plan, wakes) {
                Ok(_) => Ok(Ended::Done),
                Err(NoMemory) => Err(RunFault::NoMemory {
                    ticket: Some(ticket),
                }),
            },
            EndPlan::Waits(found) => Ok(Ended::Not(self.dispatch.sleeps(found))),
            EndPlan::Unknown => Ok(Ended::Not(Sleep::Over)),
        }
    }

    /// Starts a queueing, if the worker would start one now. Otherwise it rests from now on, in the same hold of the
    /// lock, until it is named; or it may go.
    pub fn start_or_rest<R: Wait>(
        &mut self,
        rt: &R,
        participant: &mut Participant<N>,
        wakes: &mut Wakes,
    ) -> Result<Next, RunFault>
        requires { is_caller participant.old.who ≡ false }
        ensures started { IfOk result (λ next. Starts N.layout participant.old next participant.new) }
        ensures none { IfOk result (λ next. StartsOrRests N.layout self.old participant.old next self.new) }
        ensures open { IfOk result (λ _. self.old.failed ≡ false) }
        ensures refused { IfErr result (λ f. Refused N.layout participant.old calls.Take f participant.new) }
        ensures room { IfErr result (λ f. is_full f ≡ false) }
        ensures first { IfErr result (λ f. TellsFirst self.old participant.old f) }
        ensures leaves { IfErr result (λ f. LeavesHeld self.old f self.new) }
        ensures named { MatchBool (makes_no_start result) (wakes.new ≡ wakes.old)
            (SleepersGoOn participant.old.who self.old self.new wakes.old wakes.new) }
    {
        if self.dispatch.has_failed() {
            return Err(RunFault::NoMemory { ticket: None });
        }
        self.compare(participant)?;
        let _legal = self.dispatch.execution().len();
        let Who::Worker(worker) = participant.who() else {
            unreachable!()
        };
        let Some(plan) = self.dispatch.plan_start(worker) else {
            return Ok(Next::Nothing(self.dispatch.idles(worker)));
        };
        let Some(item) = plan.mark.item else {
            unreachable!()
        };
        match self.make(rt, participant, Call::Take, &plan, wakes) {
            Ok(_) => Ok(Next::Runs(item)),
            Err(NoMemory) => Err(RunFault::NoMemory { ticket: None }),
        }
    }

    /// Sends the worker to the reserve, if it would be sent there now.
    pub fn retire<R: Wait>(
        &mut self,
        rt: &R,
        participant: &mut Participant<N>,
        wakes: &mut Wakes,
    ) -> Result<bool, RunFault>
        requires { is_caller participant.old.who ≡ false }
        ensures retired { IfOk result
            (λ b. MatchBool b (Extends N.layout participant.old calls.Retire replies.Retired participant.new)
            (participant.new ≡ participant.old)) }
        ensures kept { IfOk result
            (λ b. MatchBool b (GoesOn self.old self.new)
            ((self.new ≡ self.old) × IsViewKept N.layout self.old.history participant.old)) }
        ensures open { IfOk result (λ _. self.old.failed ≡ false) }
        ensures refused { IfErr result (λ f. Refused N.layout participant.old calls.Retire f participant.new) }
        ensures room { IfErr result (λ f. is_full f ≡ false) }
        ensures first { IfErr result (λ f. TellsFirst self.old participant.old f) }
        ensures leaves { IfErr result (λ f. LeavesHeld self.old f self.new) }
        ensures named { SleepersGoOn participant.old.who self.old self.new wakes.old wakes.new }
    {
        let who = participant.who();
        if self.dispatch.has_failed() {
            return Err(RunFault::NoMemory { ticket: None });
        }
        self.compare(participant)?;
        let told = self.dispatch.execution().reply(who, Call::Retire);
        if !told.is_retired() {
            return Ok(false);
        }
        let planned = self.dispatch.plan(who, Call::Retire);
        let Ok(plan) = &planned else {
            return Ok(false);
        };
        match self.make(rt, participant, Call::Retire, plan, wakes) {
            Ok(_) => Ok(true),
            Err(NoMemory) => Err(RunFault::NoMemory { ticket: None }),
        }
    }

    /// The participant sees all the history.
    pub fn settle(&self, participant: &mut Participant<N>) -> Result<(), RunFault>
        ensures settled { IfOk result (λ _. Settles self.now.history participant.old participant.new) }
        ensures stranger { IfErr result (λ f. (participant.new ≡ participant.old) × IsStranger participant.old f) }
    {
        self.compare(participant)?;
        let history = self.publisher.prefix();
        participant.see(history);
        Ok(())
    }

    /// Whether workers may go: the hub has failed, or it is closed, no active queueing is open, and no caller may still
    /// fire. A hub that is over stays so.
    pub fn is_over(&self) -> bool
        ensures { result ≡ is_over N.layout self.now }
    {
        self.dispatch.is_over()
    }

    /// How many active queueings are open.
    pub fn active_count(&self) -> u32
        ensures { result ≡ active_in N.layout self.now.history }
    {
        self.dispatch.execution().state().active_count()
    }

    /// Callers make no calls from now on. Everybody is named.
    pub fn close(&mut self, wakes: &mut Wakes)
        ensures new { self.new
            ≡ record self.old { closed = true; asleep = self.new.asleep; writer_sleeps = false } }
        ensures nobody { NobodySleeps self.new.asleep }
        ensures all { NamesAll wakes.new }
        ensures more { NamesMore wakes.old wakes.new }
    {
        self.writer_sleeps = false;
        self.dispatch.close(wakes);
    }

    /// Nobody makes a call from now on. Everybody is named.
    pub fn fail(&mut self, wakes: &mut Wakes)
        ensures new { self.new ≡ failed_from self.old self.new.asleep }
        ensures nobody { NobodySleeps self.new.asleep }
        ensures all { NamesAll wakes.new }
        ensures more { NamesMore wakes.old wakes.new }
    {
        self.writer_sleeps = false;
        self.dispatch.fail(wakes);
    }

    /// A caller or a worker is awake again, also where nobody named it.
    pub fn awakes(&mut self, who: Who)
        ensures same { self.new ≡ record self.old { asleep = self.new.asleep } }
        ensures awake { IsUpAgain who self.old.asleep self.new.asleep }
    {
        self.dispatch.awakes(who);
    }

    /// The ledger has counted the entries of the history.
    pub fn audit(&mut self, all: &mut Share<N>)
        requires { all.old.parts ≡ N.parts }
        ensures { (self.new ≡ self.old) × (length self.old.history ≡ all.old.amount) }
    {
        self.entries.audit(all);
    }

    /// Whether so many entries can be kept, or all that the room still allows, or nothing is made any more.
    #[inline(always)]
    pub fn has_space(&self, entries: u32) -> bool
        ensures { result ≡ has_space N.layout self.now entries }
    {
        if self.dispatch.has_failed() {
            return true;
        }
        let space = u64::from(self.tail.space());
        if u64::from(entries) <= space {
            return true;
        }
        let len = u64::from(self.dispatch.execution().len());
        self.dispatch.shape().counts().room <= space + len
    }

    /// Drops all that is kept, which nobody is handed then.
    pub fn drop_kept(&mut self)
        ensures { self.new ≡ record self.old { given = length self.old.history } }
    {
        let _len = self.tail.len();
        self.tail.forget();
    }

    /// Somebody sleeps until there is space. The one who makes it is named.
    pub fn crowds(&mut self, wakes: &mut Wakes)
        ensures new { self.new ≡ record self.old { crowded = true; writer_sleeps = false } }
        ensures named { names_journal wakes.new ≡ true }
        ensures more { NamesMore wakes.old wakes.new }
    {
        self.dispatch.crowds();
        self.writer_sleeps = false;
        wakes.add_journal();
    }

    /// Whether nobody makes a call any more.
    pub fn has_failed(&self) -> bool
        ensures { result ≡ self.now.failed }
    {
        self.dispatch.has_failed()
    }

    /// Whether there is nothing to hand over yet. The one who writes the history down sleeps then from now on, until it
    /// is named.
    pub fn writer_sleeps(&mut self) -> bool
        ensures is { result ≡ not (is_writer_wanted N.layout self.old) }
        ensures new { self.new ≡ record self.old { writer_sleeps = result } }
    {
        let _within = self.tail.first();
        self.writer_sleeps = !is_wanted(&self.dispatch, &self.tail);
        self.writer_sleeps
    }

    /// Who writes the history down, and has all of it so far.
    pub fn journal(&self, spare: Vec<Entry>) -> Journal<N>
        requires { spare.items ≡ [] }
        ensures { result ≡ record { seen = self.now.history; batch = [] } }
    {
        Journal::new(self.publisher.prefix().again(), spare)
    }

    /// Hands over what was entered since the last time. Nothing is copied. Everybody is named if somebody sleeps until
    /// there is space.
    pub fn hand_over(&mut self, journal: &mut Journal<N>, wakes: &mut Wakes) -> Result<(), RunFault>
        ensures handed { IfOk result (λ _. journal.new.seen ≡ self.old.history) }
        ensures batch { IfOk result (λ _. self.old.history ≡ journal.old.seen ++ journal.new.batch) }
        ensures given { IfOk result
            (λ _. self.new ≡ record self.old { given = length self.old.history; crowded = false }) }
        ensures all { IfOk result (λ _. self.old.crowded ≡ true → NamesAll wakes.new) }
        ensures more { NamesMore wakes.old wakes.new }
        ensures refused { IfErr result (λ _. (journal.new.seen ≡ journal.old.seen) × (self.new ≡ self.old)) }
    {
        self.give(journal)?;
        self.dispatch.clears_space(wakes);
        Ok(())
    }

    /// The same of a hub in which nobody sleeps any more.
    pub fn give(&mut self, journal: &mut Journal<N>) -> Result<(), RunFault>
        ensures handed { IfOk result (λ _. journal.new.seen ≡ self.old.history) }
        ensures batch { IfOk result (λ _. self.old.history ≡ journal.old.seen ++ journal.new.batch) }
        ensures given { IfOk result (λ _. self.new ≡ record self.old { given = length self.old.history }) }
        ensures refused { IfErr result (λ _. (journal.new.seen ≡ journal.old.seen) × (self.new ≡ self.old)) }
    {
        let first = self.tail.first();
        journal.take(first, &mut self.tail, self.publisher.prefix())
    }

    /// What was not handed over. It waits for the readers to leave.
    pub fn end<R: Wait>(self, rt: &R) -> Rest
        ensures rest { result.entries.items ≡ drop result.first self.history }
        ensures within { result.first ≤ length self.history }
        ensures legal { IsLegal N.layout (past_of self.history) }
    {
        let Monitor {
            dispatch,
            tail,
            publisher,
            entries: _entries,
            writer_sleeps: _,
        } = self;
        let _len = dispatch.execution().len();
        dispatch.end();
        publisher.end(rt);
        let first = tail.first();
        Rest {
            first,
            entries: tail.into_kept(),
        }
    }
}

/// Whether there is something to write down.
fn is_wanted(dispatch: &Dispatch, tail: &Tail<Entry>) -> bool
    requires all { tail.now.all ≡ dispatch.now.history.entries }
    ensures { (s : Layout) → dispatch.now.history.layout ≡ s → dispatch.now.history.room ≡ s.room → (sleeps : _)
        → result ≡ is_writer_wanted s (held_of dispatch.now tail.now.given tail.now.room sleeps) }
{
    let _within = tail.first();
    let kept = tail.kept().len() as u64;
    dispatch.has_failed()
        || dispatch.is_crowded()
        || (u64::from(tail.room()) <= 2 * kept || dispatch.is_over()) && kept > 0
}

/// Whether the one who writes the history down sleeps on, if it sleeps. It is named where there is something to write.
fn sleeps_on(sleeps: bool, dispatch: &Dispatch, tail: &Tail<Entry>, wakes: &mut Wakes) -> bool
    requires all { tail.now.all ≡ dispatch.now.history.entries }
    ensures wanted { result ≡ true → (s : Layout) → dispatch.now.history.layout ≡ s
        → dispatch.now.history.room ≡ s.room → (writer_sleeps : _)
        → is_writer_wanted s (held_of dispatch.now tail.now.given tail.now.room writer_sleeps) ≡ false }
    ensures sleeps { result ≡ true → sleeps ≡ true }
    ensures named { sleeps ≡ true → (result ≡ true) ⊎ (names_journal wakes.new ≡ true) }
    ensures more { NamesMore wakes.old wakes.new }
{
    if !sleeps {
        return false;
    }
    if is_wanted(dispatch, tail) {
        wakes.add_journal();
        return false;
    }
    true
}
