//! A caller of a hub.
ghost use Rattle.std.specs.Prelude.{◌≡◌, ◌<◌, ◌≤◌, ◌&&◌, ◌++◌, ◌∷◌, [], true, false, length, IfOk, IfErr};
ghost use Rattle.std.specs.Prelude.{MatchOption, Some, None};
ghost use Rattle.std.specs.List.{list_all};
ghost use mathlib.Core.List.{IsPrefix};
ghost use Rattle.cmwq_model.specs.Prelude.{has_numbers, is_callers, past_of, IsLegal, bits, is_tick};
ghost use Rattle.cmwq_model.specs.declared.call.Call.TheVariants as calls;
ghost use Rattle.cmwq_model.specs.declared.id.Who.TheVariants as whos;
ghost use Rattle.cmwq_monitor.specs.Calls.{own_entry};
ghost use Rattle.cmwq_monitor.specs.Participants.{Agree, Gains, is_caller, made_by, newcomer};
ghost use Rattle.cmwq_monitor.specs.Steps.{MayBegin};
ghost use Rattle.cmwq_monitor.specs.Faults.{IsStranger};
ghost use Rattle.cmwq_monitor.specs.Whole.{Completes, BrokeOff};
ghost use Rattle.cmwq_monitor.specs.Settled.{Settles};
ghost use Rattle.cmwq_rt.specs.Promises.{DoneOrBrokeOff, MadeOrRefused};
ghost use Rattle.cmwq_rt.specs.Batches.{MakesBatch, StopsBatch};

use crate::batch::BatchFault;
use crate::calls::{CallerCalls, Calls};
use crate::hold::Hold;
use crate::hub::Hub;
use crate::worker::Worker;
use cmwq_model::{Call, ItemId, Reply, Who};
use cmwq_monitor::{Monitor, Participant, RunFault};
use cmwq_publish::{HubName, Reader};
use std::marker::Model;
use std::sync::Wait;
use std::sync::ledger::Share;

/// One of the callers of a hub. Contracts see who it is, its serial and the history that it has seen.
#[derive(Drop)]
pub struct Caller<N: HubName> {
    participant: Participant<N>,
    reader: Option<Reader<N>>,
}

impl<N: HubName> Model for Caller<N> {
    ghost use Rattle.std.specs.Prelude.{◌≡◌, true};
    ghost use Rattle.cmwq_monitor.specs.Participants.{View, is_caller};

    ghost Value = { View };

    ghost view = { λ c. c.participant };

    ghost invariant = { λ c. is_caller c.participant.who ≡ true };
}

impl<N: HubName> Caller<N> {
    pub(crate) fn new(participant: Participant<N>, reader: Option<Reader<N>>) -> Caller<N>
        requires { is_caller participant.who ≡ true }
        ensures { result ≡ participant }
    {
        Caller {
            participant,
            reader,
        }
    }

    pub(crate) fn settle(&mut self, monitor: &Monitor<N>) -> Result<(), RunFault>
        ensures settled { IfOk result (λ _. Settles monitor.now.history self.old self.new) }
        ensures stranger { IfErr result (λ f. (self.new ≡ self.old) × IsStranger self.old f) }
    {
        monitor.settle(&mut self.participant)
    }

    /// Whether it has made no entry and seen none.
    pub(crate) fn is_new(&self) -> bool
        ensures { result ≡ true → self.now ≡ newcomer self.now.who }
    {
        self.participant.serial() == 0 && self.participant.seen() == 0
    }

    /// Its number among the callers.
    pub(crate) fn number(&self) -> u8
        ensures { self.now.who ≡ whos.Caller (record { 0 = result }) }
    {
        match self.participant.who() {
            Who::Caller(caller) => caller.0,
            Who::Worker(_) => unreachable!(),
        }
    }

    pub(crate) fn participant(&self) -> &Participant<N>
        ensures same { result.now ≡ self.now }
        ensures caller { is_caller self.now.who ≡ true }
    {
        &self.participant
    }

    /// How many entries it has made.
    pub fn serial(&self) -> u64
        ensures { result ≡ self.now.serial }
    {
        self.participant.serial()
    }

    /// Of what two callers of a hub have seen the shorter begins the longer.
    pub fn agrees(&self, other: &Caller<N>)
        ensures { Agree self.now.seen other.now.seen }
    {
        self.participant.agrees(&other.participant);
    }

    /// Of what a caller and a worker of a hub have seen the shorter begins the longer.
    pub fn agrees_with(&self, worker: &Worker<N>)
        ensures { Agree self.now.seen worker.now.seen }
    {
        self.participant.agrees(worker.participant());
    }

    pub(crate) fn into_share(self) -> Share<N>
        ensures { (result.parts ≡ 1) × (result.amount ≡ self.serial) }
    {
        let Caller {
            participant,
            reader: _reader,
        } = self;
        participant.into_share()
    }

    /// The bits of an item (`work_busy`): 1 if it is pending, plus 2 if it runs, after a list of entries that begins
    /// with all that the caller has seen, and that it has seen from then on; none of those that are new is its own. It
    /// takes no lock, no memory, and waits for nobody. None where the reader gives no guard, and for a caller that has
    /// none (`HubParts::with_readers`).
    pub fn busy(&mut self, item: ItemId) -> Option<u8>
        requires { item.0 < N.layout.items }
        ensures bits { MatchOption result (self.new ≡ self.old) (λ b. b ≡ bits (past_of self.new.seen) item.0) }
        ensures seen { IsPrefix self.old.seen self.new.seen }
        ensures legal { IsLegal N.layout (past_of self.new.seen) }
        ensures same { (self.new.who ≡ self.old.who) × (self.new.serial ≡ self.old.serial) }
        ensures own { Gains self.old [] self.new }
    {
        let Who::Caller(caller) = self.participant.who() else {
            return None;
        };
        let own = self.participant.serial();
        let seen = self.participant.seen();
        let found = self.reader.as_mut()?.read(item, caller)?;
        if found.prefix.len() < seen || found.serial != own {
            return None;
        }
        self.participant.see(&found.prefix);
        Some(found.bits)
    }

    /// Makes a call of one entry. It waits for nothing.
    ///
    /// # Errors
    /// `Closed`, `NoMemory` if the hub has failed, `Stranger`, `Full`. It has made no entry then.
    pub fn make<R: Wait>(&mut self, rt: &R, hub: &Hub<N>, call: Call) -> Result<Reply, RunFault>
        requires callers { is_callers call ≡ true }
        requires numbers { has_numbers N.layout call ≡ true }
        ensures { MadeOrRefused N.layout self.old call result self.new }
    {
        let _who = self.participant.who();
        hub.call(rt, &mut self.participant, call)
    }

    /// Makes calls of one entry each, one after another: 64 at most in one hold of the lock. The reply of each is
    /// written to the place of the same number. It waits for nothing.
    ///
    /// # Errors
    /// Those of `make`, with how many calls were made before. No later call is made.
    pub fn make_all<R: Wait>(
        &mut self,
        rt: &R,
        hub: &Hub<N>,
        calls: &[Call],
        replies: &mut [Reply],
    ) -> Result<(), BatchFault<RunFault>>
        requires callers { list_all (λ c. is_callers c && has_numbers N.layout c) calls.now ≡ true }
        requires room { length calls.now ≤ length replies.old }
        ensures made { IfOk result (λ _. MakesBatch N.layout self.old calls.now replies.old replies.new self.new) }
        ensures stopped { IfErr result
            (λ e. StopsBatch N.layout self.old calls.now e.made e.fault replies.old replies.new self.new) }
    {
        let _who = self.participant.who();
        hub.call_all(rt, &mut self.participant, calls, replies)
    }

    /// A whole call under the lock, which is let go while the call waits: it makes its entry and those that belong to
    /// it.
    pub(crate) fn make_locked<'a, R: Wait>(
        &mut self,
        rt: &R,
        hub: &'a Hub<N>,
        hold: Hold<'a, N>,
        call: Call,
    ) -> (Hold<'a, N>, Result<Reply, RunFault>)
        requires callers { is_callers call ≡ true }
        requires numbers { has_numbers N.layout call ≡ true }
        ensures done { IfOk result.1 (λ reply. Completes N.layout self.old call reply self.new) }
        ensures broke { IfErr result.1 (λ f. BrokeOff N.layout self.old call f self.new) }
    {
        match call {
            Call::Tick { ticks } => self.tick_locked(rt, hub, hold, ticks),
            _ => self.wait_out(rt, hub, hold, call),
        }
    }

    /// A call that may give a ticket, which is ended as soon as it may be.
    fn wait_out<'a, R: Wait>(
        &mut self,
        rt: &R,
        hub: &'a Hub<N>,
        hold: Hold<'a, N>,
        call: Call,
    ) -> (Hold<'a, N>, Result<Reply, RunFault>)
        requires callers { is_callers call ≡ true }
        requires numbers { has_numbers N.layout call ≡ true }
        requires waits { is_tick call ≡ false }
        ensures done { IfOk result.1 (λ reply. Completes N.layout self.old call reply self.new) }
        ensures broke { IfErr result.1 (λ f. BrokeOff N.layout self.old call f self.new) }
    {
        let _who = self.participant.who();
        let most = hub.most_at_once(call);
        let mut hold = hub.spacious(rt, hold, self.participant.who(), most);
        let held = &mut hold;
        let called = held
            .monitor
            .call(rt, &mut self.participant, call, &mut held.wakes);
        let reply = match called {
            Ok(reply) => reply,
            Err(fault) => return (hold, Err(fault)),
        };
        let Some(ticket) = reply.ticket() else {
            return (hold, Ok(reply));
        };
        let (hold, ended) = hub.until_ended(rt, hold, &mut self.participant, call, ticket);
        match ended {
            Ok(()) => {}
            Err(fault) => return (hold, Err(fault)),
        }
        (hold, Ok(reply))
    }

    /// The same for a run that waits, as the next entry after the run fell asleep. A closed hub takes it too.
    pub(crate) fn wait_in_run<'a, R: Wait>(
        &mut self,
        rt: &R,
        hub: &'a Hub<N>,
        hold: Hold<'a, N>,
        call: Call,
    ) -> (Hold<'a, N>, Result<Reply, RunFault>)
        requires callers { is_callers call ≡ true }
        requires numbers { has_numbers N.layout call ≡ true }
        requires waits { is_tick call ≡ false }
        requires begins { MayBegin N.layout hold.monitor.value self.old call }
        ensures done { IfOk result.1 (λ reply. Completes N.layout self.old call reply self.new) }
        ensures at_once { IfOk result.1 (λ _. IsPrefix (hold.entry.monitor.value.history
            ++ own_entry N.layout hold.entry.monitor.value.history self.old call ∷ []) self.new.seen) }
        ensures nothing_yet { IfOk result.1
            (λ _. made_by self.old.who hold.entry.monitor.value.history ≡ made_by self.old.who self.old.seen) }
        ensures broke { IfErr result.1 (λ f. BrokeOff N.layout self.old call f self.new) }
    {
        let _who = self.participant.who();
        let mut hold = hold;
        let held = &mut hold;
        let called = held
            .monitor
            .call_in_run(rt, &mut self.participant, call, &mut held.wakes);
        let reply = match called {
            Ok(reply) => reply,
            Err(fault) => return (hold, Err(fault)),
        };
        let Some(ticket) = reply.ticket() else {
            return (hold, Ok(reply));
        };
        let (hold, ended) = hub.until_ended(rt, hold, &mut self.participant, call, ticket);
        match ended {
            Ok(()) => {}
            Err(fault) => return (hold, Err(fault)),
        }
        (hold, Ok(reply))
    }

    /// A tick, and all that is due after it.
    fn tick_locked<'a, R: Wait>(
        &mut self,
        rt: &R,
        hub: &'a Hub<N>,
        hold: Hold<'a, N>,
        ticks: u32,
    ) -> (Hold<'a, N>, Result<Reply, RunFault>)
        ensures done { IfOk result.1 (λ reply. Completes N.layout self.old (calls.Tick ticks) reply self.new) }
        ensures broke { IfErr result.1 (λ f. BrokeOff N.layout self.old (calls.Tick ticks) f self.new) }
    {
        let call = Call::Tick { ticks };
        let most = hub.most_at_once(call);
        let mut hold = hub.spacious(rt, hold, self.participant.who(), most);
        let held = &mut hold;
        let called = held
            .monitor
            .call(rt, &mut self.participant, call, &mut held.wakes);
        let reply = match called {
            Ok(reply) => reply,
            Err(fault) => return (hold, Err(fault)),
        };
        let (hold, fired) = hub.until_fired(rt, hold, &mut self.participant);
        match fired {
            Ok(()) => {}
            Err(fault) => return (hold, Err(fault)),
        }
        (hold, Ok(reply))
    }

    /// A whole call: it makes its entry and those that belong to it, and waits where it gives a ticket.
    ///
    /// # Errors
    /// Those of `make`, with no entry made. `NoMemory` and `Stranger` also after some of its entries, and then
    /// `NoMemory` tells the ticket that stands unended, if there is one.
    pub fn make_whole<R: Wait>(
        &mut self,
        rt: &R,
        hub: &Hub<N>,
        call: Call,
    ) -> Result<Reply, RunFault>
        requires callers { is_callers call ≡ true }
        requires numbers { has_numbers N.layout call ≡ true }
        ensures { DoneOrBrokeOff N.layout self.old call result self.new }
    {
        let (hold, answer) = self.make_locked(rt, hub, hub.lock(rt), call);
        hub.leave(rt, hold);
        answer
    }
}

/// A caller with its hub. Its calls are the methods of `Calls` and `CallerCalls`, which promise what `Caller::make` and
/// `Caller::make_whole` do.
#[derive(Drop)]
pub struct HubCaller<'a, N: HubName, R> {
    /// The leave to wait.
    pub rt: &'a R,
    pub hub: &'a Hub<N>,
    pub caller: Caller<N>,
}

impl<'a, N: HubName, R: Wait> Calls for HubCaller<'a, N, R> {
    type Fault = RunFault;

    type WaitFault = RunFault;

    ghost may_make = { λ c. (is_callers c ≡ true) × (has_numbers N.layout c ≡ true) };

    ghost may_wait = { λ c. (is_callers c ≡ true) × (has_numbers N.layout c ≡ true) };

    ghost made = { λ v c answer w. MadeOrRefused N.layout v.caller c answer w.caller };

    ghost waited = { λ v c answer w. DoneOrBrokeOff N.layout v.caller c answer w.caller };

    /// Makes a call of one entry, as `Caller::make` does.
    ///
    /// # Errors
    /// Those of `Caller::make`.
    fn make(&mut self, call: Call) -> Result<Reply, RunFault> {
        self.caller.make(self.rt, self.hub, call)
    }

    /// Makes a whole call, as `Caller::make_whole` does.
    ///
    /// # Errors
    /// Those of `Caller::make_whole`.
    fn wait(&mut self, call: Call) -> Result<Reply, RunFault> {
        self.caller.make_whole(self.rt, self.hub, call)
    }
}

impl<'a, N: HubName, R: Wait> CallerCalls for HubCaller<'a, N, R> {}
