//! A script while it is played: who may move, and what a move does.
//!
//! A move is what a thread of `run` does in one hold of the hub's lock, or without it: a call of a caller with what it
//! fires, and with its end where that is done at once; the end of a caller's wait; an action of a caller at a gate or a
//! lock; a worker's start, action, or end of a run with the next start. A wait of a run is two moves: it sleeps and
//! takes a caller, which makes the call; and the wait ends, the run wakes and gives the caller back. It is one move
//! where it ends at once, is refused, or finds no caller or no room. A run that finds a lock held makes two moves as
//! well: it sleeps; and it takes the lock and wakes.

ghost use Rattle.std.specs.Prelude.{◌≡◌, ◌+◌, ◌≤◌, ℕ, true, false, length, take, All, Contains, None, IfOk, IfSome};
ghost use Rattle.std.specs.List.{list_any};
ghost use Rattle.cmwq_model.specs.Prelude.{IsLegal};
ghost use Rattle.cmwq_core.specs.History.{past_in};
ghost use Rattle.cmwq_play.specs.Stands as spec;
ghost use Rattle.cmwq_play.specs.Stands.{NoneLeft, has_run, movers_of};
ghost use Rattle.cmwq_play.specs.Searches.{BreaksOff, IsPathTo, Rests};
ghost use Rattle.cmwq_play.specs.Starts.{start_of};
ghost use Rattle.cmwq_play.specs.declared.play.Standing.TheVariants as standing;

mod doors;
mod moves;

use crate::machine::Machine;
use crate::noted::Noted;
use crate::parties::PartyName;
use crate::place::{CallerAt, Doing, WorkerAt};
use crate::setup::Setup;
use crate::waiting::Waits;
use cmwq_json_script::{Action, Holder, Script};
use cmwq_model::{CallerId, Entry, NoMemory, Shape, Who};
use cmwq_state::State;
use std::alloc::{AllocError, Global};
use std::marker::Model;

/// How a play stands.
#[derive(Clone, Copy, Debug, PartialEq, Eq)]
pub enum Standing {
    /// Somebody may move.
    Goes,
    /// All callers have done their actions, no run is under way, and nothing active is open.
    Ended,
    /// Something is left to do, and nobody may move.
    Stuck,
}

/// How many gates there are at most, and how many locks.
const MOST_GATES: usize = 16;

const MOST_LOCKS: usize = 16;

/// A script with its history so far.
#[derive(Drop)]
pub struct Play<'a> {
    alloc: Global,
    setup: &'a Setup<'a>,
    machine: Machine<'a>,
    callers: Vec<CallerAt>,
    workers: Vec<WorkerAt>,
    /// Which gates are open.
    gates: Vec<bool>,
    /// Who holds each lock.
    locks: Vec<Option<Holder>>,
    /// The callers that may be lent, of which the last is lent next.
    free: Vec<u8>,
    /// The runs that wait, as they are noted for each look at a wait.
    waits: Waits,
    noted: Noted,
}

impl<'a> Model for Play<'a> {
    ghost use Rattle.cmwq_json_script.specs.Views.{actions_of};
    ghost use Rattle.cmwq_play.specs.Stands.{Stand};

    ghost Value = { Stand };

    ghost view = { λ p. record {
      scripts = actions_of p.setup.now.script.now.callers;
      does = actions_of p.setup.now.script.now.does;
      history = p.machine;
      callers = p.callers.items;
      workers = p.workers.items;
      gates = p.gates.items;
      locks = p.locks.items;
      free = p.free.items;
    } };
}

/// Fills a list with what the other holds.
pub(crate) fn copy_list<T: Copy>(list: &mut Vec<T>, other: &[T]) -> Result<(), AllocError>
    ensures { IfOk result (λ _. list.new.items ≡ other.now) }
{
    list.clear();
    list.extend_from_slice(other)?;
    Ok(())
}

impl<'a> Play<'a> {
    /// A script before its first move.
    #[tactic(auto, unfolding(crate::specs::Starts::start_of))]
    pub fn new(alloc: Global, setup: &'a Setup<'a>) -> Result<Play<'a>, AllocError>
        ensures { IfOk result (λ play. play ≡ start_of setup.now) }
    {
        let shape = &setup.script.shape;
        let waits = match Waits::new(alloc, shape) {
            Ok(waits) => waits,
            Err(NoMemory) => return Err(AllocError),
        };
        let callers = setup.callers.to_vec(alloc)?;
        let workers = setup.workers.to_vec(alloc)?;
        let gates = vec![in alloc; false; MOST_GATES]?;
        let locks = vec![in alloc; None; MOST_LOCKS]?;
        let free = setup.lent.to_vec(alloc)?;
        let machine = Machine::new(alloc, shape)?;
        Ok(Play {
            alloc,
            setup,
            machine,
            callers,
            workers,
            gates,
            locks,
            free,
            waits,
            noted: Noted::nothing(),
        })
    }

    /// The script of this setup, before its first move.
    pub fn restart(&mut self, setup: &'a Setup<'a>) -> Result<(), AllocError>
        ensures { IfOk result (λ _. self.new ≡ start_of setup.now) }
    {
        let play = Play::new(self.alloc, setup)?;
        *self = play;
        Ok(())
    }

    /// Becomes a copy of the other play, in the tables that it has. The other may be of another setup.
    ///
    /// # Errors
    /// Want of memory. The play is then of no use.
    pub fn copy_from(&mut self, other: &Play<'a>) -> Result<(), AllocError>
        ensures { IfOk result (λ _. self.new ≡ other.now) }
    {
        self.copy_after(other, 0)
    }

    /// The same, where both histories begin with the same entries, so many of them: these are not copied.
    ///
    /// # Errors
    /// Want of memory. The play is then of no use.
    pub fn copy_after(&mut self, other: &Play<'a>, same: usize) -> Result<(), AllocError>
        requires within { same ≤ length other.now.history.entries }
        requires same { take same self.old.history.entries ≡ take same other.now.history.entries }
        ensures { IfOk result (λ _. self.new ≡ other.now) }
    {
        copy_list(&mut self.callers, &other.callers)?;
        copy_list(&mut self.workers, &other.workers)?;
        self.copy_doors(other)?;
        self.machine.copy_after(&other.machine, same)?;
        self.setup = other.setup;
        self.noted = other.noted;
        Ok(())
    }

    fn copy_doors(&mut self, other: &Play<'a>) -> Result<(), AllocError>
        ensures { IfOk result (λ _. self.new ≡ record self.old {
          gates = other.now.gates;
          locks = other.now.locks;
          free = other.now.free;
        }) }
    {
        copy_list(&mut self.gates, &other.gates)?;
        copy_list(&mut self.locks, &other.locks)?;
        copy_list(&mut self.free, &other.free)
    }

    /// How many take part: the callers of the script, and after them all workers.
    pub fn parties(&self) -> usize
        ensures { result ≡ length self.now.callers + length self.now.workers }
    {
        self.callers.len() + self.workers.len()
    }

    /// The name of one who takes part.
    pub fn name_of(&self, party: usize) -> PartyName {
        let callers = self.callers.len();
        match (
            self.callers.get(party),
            self.workers.get(party.saturating_sub(callers)),
        ) {
            (Some(at), _) => PartyName::of(Who::Caller(at.id)),
            (None, Some(at)) => PartyName::of(Who::Worker(at.id)),
            (None, None) => PartyName::of(Who::Caller(CallerId(255))),
        }
    }

    /// The one who takes part by this name, if there is one.
    pub fn party_named(&self, name: PartyName) -> Option<usize> {
        match name.who {
            Who::Caller(caller) => self.callers.iter().position(|at| at.id == caller),
            Who::Worker(worker) => {
                let place = self.workers.iter().position(|at| at.id == worker)?;
                Some(self.callers.len() + place)
            }
        }
    }

    /// The entries so far, the oldest first.
    pub fn history(&self) -> &[Entry]
        ensures entries { result.now ≡ self.now.history.entries }
        ensures legal { IsLegal self.now.history.layout (past_in self.now.history) }
    {
        self.machine.entries()
    }

    /// The script that is played.
    pub fn script(&self) -> &'a Script {
        self.setup.script
    }

    /// What was left out, refused or misused so far.
    pub fn noted(&self) -> &Noted {
        &self.noted
    }

    /// Where the callers of the script stand.
    pub fn callers(&self) -> &[CallerAt]
        ensures { result.now ≡ self.now.callers }
    {
        &self.callers
    }

    /// Where the workers stand.
    pub fn workers(&self) -> &[WorkerAt]
        ensures { result.now ≡ self.now.workers }
    {
        &self.workers
    }

    pub(crate) fn machine(&self) -> &Machine<'a>
        ensures { result.now ≡ self.now.history }
    {
        &self.machine
    }

    /// What stands after the entries: all that a state can be asked.
    pub fn state(&self) -> &State
        ensures { result.now ≡ self.now.history }
    {
        self.machine.execution().state()
    }

    /// The shape of the runtime.
    pub fn shape(&self) -> &'a Shape
        ensures { result.now ≡ self.now.history.layout }
    {
        self.machine.shape()
    }

    fn script_of(&self, k: usize) -> &'a [Action]
        ensures { result.now ≡ spec.script_at self.now k }
    {
        let script: &'a Script = self.setup.script;
        match script.callers.get(k) {
            Some(actions) => actions.as_slice(),
            None => &[],
        }
    }

    fn may_act(&self, action: Action) -> bool
        ensures { result ≡ spec.may_act self.now action }
    {
        match action {
            Action::SleepAt { gate } => self.is_open(gate),
            Action::Lock { lock } => self.is_free(lock),
            Action::Call(_) | Action::Open { .. } | Action::Unlock { .. } => true,
        }
    }

    fn may_call(&self, k: usize, at: &CallerAt) -> bool
        ensures { result ≡ spec.may_call self.now k at.now }
    {
        if let Some(wait) = at.wait {
            return self.machine.would_end(Who::Caller(at.id), wait.ticket);
        }
        match self.script_of(k).get(at.next) {
            Some(action) => self.may_act(*action),
            None => false,
        }
    }

    fn may_do(&self, doing: Doing) -> bool
        ensures { result ≡ spec.may_do self.now doing }
    {
        match doing {
            Doing::AtGate { gate, .. } => self.is_open(gate),
            Doing::AtLock { lock, .. } => self.is_free(lock),
            Doing::Waits { caller, wait } => self
                .machine
                .would_end(Who::Caller(CallerId(caller)), wait.ticket),
            Doing::Acts => true,
        }
    }

    fn may_work(&self, at: &WorkerAt) -> bool
        ensures { result ≡ spec.may_work self.now at.now }
    {
        match at.run {
            Some(run) => self.may_do(run.doing),
            None => self.machine.would_start(at.id).is_some(),
        }
    }

    /// Whether this one may move.
    #[tactic(auto, unfolding(crate::specs::Stands::may))]
    pub fn may_move(&self, party: usize) -> bool
        ensures { result ≡ spec.may self.now party }
    {
        let callers = self.callers.len();
        if party < callers {
            match self.callers.get(party) {
                Some(at) => self.may_call(party, at),
                None => false,
            }
        } else {
            match self.workers.get(party - callers) {
                Some(at) => self.may_work(at),
                None => false,
            }
        }
    }

    /// Those who may move, in order.
    #[tactic(auto, using(crate::proofs::Moving::may_within))]
    pub fn movers(&self) -> Result<Vec<usize>, AllocError>
        ensures all { IfOk result (λ movers. (k : ℕ) → spec.may self.now k ≡ true → Contains movers.items k) }
        ensures sound { IfOk result (λ movers. All (λ k. spec.may self.now k ≡ true) movers.items) }
        ensures list { IfOk result (λ movers. movers.items ≡ movers_of self.now) }
    {
        let mut movers = Vec::new(self.alloc);
        for party in 0..self.parties() {
            if self.may_move(party) {
                movers.push(party)?;
            }
        }
        Ok(movers)
    }

    fn is_call_left(&self, k: usize, at: &CallerAt) -> bool
        ensures { result ≡ spec.calls_left self.now k at.now }
    {
        at.wait.is_some() || at.next < self.script_of(k).len()
    }

    /// Whether a caller waits, or has actions left to do.
    fn has_calls_left(&self) -> bool
        ensures none { result ≡ false → NoneLeft self.now }
        ensures some { result ≡ true → NoneLeft self.now → ⊥ }
    {
        for k in 0..self.callers.len() {
            let at = self.callers[k];
            if self.is_call_left(k, &at) {
                return true;
            }
        }
        false
    }

    /// Whether a run is under way.
    fn has_run(&self) -> bool
        ensures { result ≡ list_any has_run self.now.workers }
    {
        self.workers.iter().any(|at| at.run.is_some())
    }

    fn active_count(&self) -> u32
        ensures { result ≡ spec.active_in self.now.history }
    {
        self.machine.execution().state().active_count()
    }

    /// How it stands, where nobody may move.
    pub fn standing_still(&self) -> Standing
        ensures ended { result ≡ standing.Ended → spec.IsDone self.now }
        ensures stuck { result ≡ standing.Stuck → spec.IsDone self.now → ⊥ }
        ensures goes { result ≡ standing.Goes → ⊥ }
    {
        if self.has_calls_left() || self.has_run() || self.active_count() > 0 {
            Standing::Stuck
        } else {
            Standing::Ended
        }
    }

    /// How it stands.
    #[tactic(none)]
    pub fn standing(&self) -> Standing
        ensures ended { result ≡ standing.Ended → Rests self.now × spec.IsDone self.now }
        ensures stuck { result ≡ standing.Stuck → Rests self.now × (spec.IsDone self.now → ⊥) }
        ensures goes { result ≡ standing.Goes → Rests self.now → ⊥ }
    {
        for party in 0..self.parties() {
            if self.may_move(party) {
                return Standing::Goes;
            }
        }
        self.standing_still()
    }

    /// Plays this path of the script of this setup from the start, up to its end or to the first who may not move.
    /// Returns the place of that one.
    pub fn play_path(
        &mut self,
        setup: &'a Setup<'a>,
        path: &[usize],
    ) -> Result<Option<usize>, AllocError>
        ensures whole { IfOk result (λ place. place ≡ None → IsPathTo (start_of setup.now) path.now self.new) }
        ensures broken { IfOk result (λ place. IfSome place (BreaksOff (start_of setup.now) path.now self.new)) }
    {
        self.restart(setup)?;
        for (place, party) in path.iter().enumerate() {
            if !self.may_move(*party) {
                return Ok(Some(place));
            }
            self.make_move(*party)?;
        }
        Ok(None)
    }
}
