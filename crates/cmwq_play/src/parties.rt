//! What callers and workers wait for, in words.

use crate::noted::{ActionId, Unwaited};
use crate::place::{CallerAt, Doing, RunAt, Ticketed, WorkerAt};
use crate::play::Play;
use cmwq_awaited::{Goal, WaitedFor, goal_of, waited_for};
use cmwq_json_script::{Action, Holder, Script};
use cmwq_model::{CallerId, CpuId, ItemId, PoolId, Queueing, Who, WorkerId};
use std::fmt;
use std::fmt::{Display, Formatter, Write};

/// The names of items, gates and locks, by their numbers.
#[derive(Clone, Copy)]
struct Names<'a> {
    items: &'a [String],
    gates: &'a [String],
    locks: &'a [String],
}

fn name_at<'a>(names: &'a [String], number: usize) -> &'a str {
    match names.get(number) {
        Some(name) => name.as_str(),
        None => "?",
    }
}

impl<'a> Names<'a> {
    fn of(script: &'a Script) -> Names<'a> {
        Names {
            items: &script.names,
            gates: &script.gates,
            locks: &script.locks,
        }
    }

    fn item(&self, item: ItemId) -> &'a str {
        name_at(self.items, usize::from(item.0))
    }
}

/// A wait: what it is for, and the first queueing that it still waits for.
#[derive(Clone, Copy)]
struct Waiting {
    goal: Goal,
    first: Option<WaitedFor>,
}

/// What a party cannot pass now.
#[derive(Clone, Copy)]
enum Door {
    Gate(u8),
    Lock { lock: u8, holder: Option<Holder> },
}

#[derive(Clone, Copy)]
enum State {
    /// A caller of the script waits.
    Calls {
        caller: u8,
        wait: Waiting,
    },
    /// A caller of the script waits at a gate or a lock.
    CallerAt {
        caller: u8,
        door: Door,
    },
    /// A run waits at a gate or a lock.
    RunAt {
        worker: WorkerId,
        item: ItemId,
        door: Door,
    },
    /// A run waits by a caller.
    Waits {
        worker: WorkerId,
        item: ItemId,
        caller: u8,
        wait: Waiting,
    },
    /// A run goes on.
    Runs {
        worker: WorkerId,
        item: ItemId,
    },
    /// A queueing hasn't started.
    Unstarted {
        queueing: Queueing,
    },
}

/// One who has something left to do, and what it waits for.
#[derive(Clone, Copy)]
pub struct Party<'a> {
    names: Names<'a>,
    state: State,
}

fn waiting_of(play: &Play<'_>, wait: Ticketed) -> Option<Waiting> {
    let goal = goal_of(wait.call)?;
    let machine = play.machine();
    let first = waited_for(machine.execution().state(), machine.entries(), wait.ticket);
    Some(Waiting { goal, first })
}

/// The lock, and who holds it.
fn lock_of(play: &Play<'_>, lock: u8) -> Door {
    let holder = play.holder(lock);
    Door::Lock { lock, holder }
}

/// Where a caller that does this next waits.
fn door_of(play: &Play<'_>, action: Action) -> Option<Door> {
    match action {
        Action::SleepAt { gate } => Some(Door::Gate(gate)),
        Action::Lock { lock } => Some(lock_of(play, lock)),
        Action::Call(_) | Action::Open { .. } | Action::Unlock { .. } => None,
    }
}

/// What keeps a caller, if it waits.
fn caller_state(play: &Play<'_>, k: usize, at: CallerAt) -> Option<State> {
    let caller = at.id.0;
    if let Some(wait) = at.wait {
        let wait = waiting_of(play, wait)?;
        return Some(State::Calls { caller, wait });
    }
    if play.may_move(k) {
        return None;
    }
    let actions = play.script().callers.get(k)?;
    let door = door_of(play, *actions.get(at.next)?)?;
    Some(State::CallerAt { caller, door })
}

impl<'a> Party<'a> {
    /// The caller of this place, if it waits.
    pub fn caller(play: &Play<'a>, k: usize) -> Option<Party<'a>> {
        let state = caller_state(play, k, *play.callers().get(k)?)?;
        Some(Party {
            names: Names::of(play.script()),
            state,
        })
    }

    /// The worker of this place, if it has a run.
    pub fn worker(play: &Play<'a>, k: usize) -> Option<Party<'a>> {
        let WorkerAt { id, run } = *play.workers().get(k)?;
        let RunAt { item, doing, .. } = run?;
        let worker = id;
        let state = match doing {
            Doing::AtGate { gate, .. } => {
                let door = Door::Gate(gate);
                State::RunAt { worker, item, door }
            }
            Doing::AtLock { lock, .. } => {
                let door = lock_of(play, lock);
                State::RunAt { worker, item, door }
            }
            Doing::Waits { caller, wait } => State::Waits {
                worker,
                item,
                caller,
                wait: waiting_of(play, wait)?,
            },
            Doing::Acts => State::Runs { worker, item },
        };
        Some(Party {
            names: Names::of(play.script()),
            state,
        })
    }

    /// The queueing of this item that hasn't started, if there is one.
    pub fn unstarted(play: &Play<'a>, item: ItemId) -> Option<Party<'a>> {
        let queueing = play.machine().unstarted(item)?;
        Some(Party {
            names: Names::of(play.script()),
            state: State::Unstarted { queueing },
        })
    }
}

/// The name of a worker: `w0n1`.
#[derive(Clone, Copy)]
struct WorkerName {
    id: WorkerId,
}

impl Display for WorkerName {
    fn fmt<W: Write>(&self, f: &mut Formatter<W>) -> fmt::Result {
        let WorkerId { pool, index } = self.id;
        let letter = if pool.high { 'h' } else { 'n' };
        write!(f, "w{}{letter}{index}", pool.cpu.0)
    }
}

/// What a wait is for, and what it still waits for.
#[derive(Clone, Copy)]
struct WaitWords<'a> {
    names: Names<'a>,
    wait: Waiting,
}

impl<'a> WaitWords<'a> {
    fn write_goal<W: Write>(&self, f: &mut Formatter<W>) -> fmt::Result {
        match self.wait.goal {
            Goal::Flush(queue) => write!(f, "the flush of queue {}", queue.0),
            Goal::Drain(queue) => write!(f, "the drain of queue {}", queue.0),
            Goal::Destroy(queue) => write!(f, "the destruction of queue {}", queue.0),
            Goal::FlushItem(item) => write!(f, "the flush of item {}", self.names.item(item)),
            Goal::CancelSync(item) => {
                write!(f, "the cancelling of item {}", self.names.item(item))
            }
        }
    }
}

impl<'a> Display for WaitWords<'a> {
    fn fmt<W: Write>(&self, f: &mut Formatter<W>) -> fmt::Result {
        self.write_goal(f)?;
        match self.wait.first {
            Some(WaitedFor { number, item }) => {
                let name = self.names.item(item);
                write!(f, ", which waits for queueing {number} of item {name}")
            }
            None => Ok(()),
        }
    }
}

/// A wait of a run that was refused, or found no caller.
#[derive(Clone, Copy)]
pub struct Refused<'a> {
    names: Names<'a>,
    place: ActionId,
    why: Unwaited,
}

impl<'a> Refused<'a> {
    /// The first one of a play, if there is one.
    pub fn first(play: &Play<'a>) -> Option<Refused<'a>> {
        let (place, why) = play.noted().first_refused?;
        Some(Refused {
            names: Names::of(play.script()),
            place,
            why,
        })
    }
}

impl<'a> Display for Refused<'a> {
    fn fmt<W: Write>(&self, f: &mut Formatter<W>) -> fmt::Result {
        let (item, action) = (self.names.item(self.place.item), self.place.action);
        let why = match self.why {
            Unwaited::NoCaller => "too many runs wait",
            Unwaited::NoRoom => "no room",
            Unwaited::Refused => "would wait for ever",
        };
        write!(f, "item {item}, action {action}: {why}")
    }
}

/// A gate or a lock that is not passed.
#[derive(Clone, Copy)]
struct DoorWords<'a> {
    names: Names<'a>,
    door: Door,
}

impl<'a> DoorWords<'a> {
    fn write_lock<W: Write>(
        &self,
        f: &mut Formatter<W>,
        lock: u8,
        holder: Option<Holder>,
    ) -> fmt::Result {
        let lock = name_at(self.names.locks, usize::from(lock));
        write!(f, "for lock {lock}")?;
        match holder {
            Some(Holder::Caller(caller)) => write!(f, ", which caller c{} holds", caller.0),
            Some(Holder::Run(item)) => { write!(f, ", which item {} holds", self.names.item(item)) }
            None => Ok(()),
        }
    }
}

impl<'a> Display for DoorWords<'a> {
    fn fmt<W: Write>(&self, f: &mut Formatter<W>) -> fmt::Result {
        match self.door {
            Door::Gate(gate) => {
                let gate = name_at(self.names.gates, usize::from(gate));
                write!(f, "at gate {gate}")
            }
            Door::Lock { lock, holder } => self.write_lock(f, lock, holder),
        }
    }
}

impl<'a> Party<'a> {
    fn door_words(&self, door: Door) -> DoorWords<'a> {
        DoorWords {
            names: self.names,
            door,
        }
    }

    fn wait_words(&self, wait: Waiting) -> WaitWords<'a> {
        WaitWords {
            names: self.names,
            wait,
        }
    }

    /// Which worker runs which item.
    fn write_run<W: Write>(
        &self,
        f: &mut Formatter<W>,
        worker: WorkerId,
        item: ItemId,
    ) -> fmt::Result {
        let (worker, item) = (WorkerName { id: worker }, self.names.item(item));
        write!(f, "worker {worker} runs item {item}")
    }

    fn write_unstarted<W: Write>(&self, f: &mut Formatter<W>, queueing: Queueing) -> fmt::Result {
        let (number, item) = (queueing.number, self.names.item(queueing.item));
        write!(f, "queueing {number} of item {item} has not started")
    }
}

impl<'a> Display for Party<'a> {
    fn fmt<W: Write>(&self, f: &mut Formatter<W>) -> fmt::Result {
        match self.state {
            State::Calls { caller, wait } => {
                write!(f, "caller c{caller} waits for ")?;
                self.wait_words(wait).fmt(f)
            }
            State::CallerAt { caller, door } => {
                write!(f, "caller c{caller} waits ")?;
                self.door_words(door).fmt(f)
            }
            State::RunAt { worker, item, door } => {
                self.write_run(f, worker, item)?;
                f.write_str(" and waits ")?;
                self.door_words(door).fmt(f)
            }
            State::Waits {
                worker,
                item,
                caller,
                wait,
            } => {
                self.write_run(f, worker, item)?;
                write!(f, " and waits, by caller c{caller}, for ")?;
                self.wait_words(wait).fmt(f)
            }
            State::Runs { worker, item } => self.write_run(f, worker, item),
            State::Unstarted { queueing } => self.write_unstarted(f, queueing),
        }
    }
}

/// The name of one who takes part: `c0`, `w0n1`.
#[derive(Clone, Copy)]
pub struct PartyName {
    pub(crate) who: Who,
}

/// The number that these digits spell, if it is small.
fn small_number(digits: &str) -> Option<u8> {
    match digits.parse::<u8>() {
        Ok(number) => Some(number),
        Err(_) => None,
    }
}

/// The worker that a name says after its `w`.
fn worker_named(text: &str) -> Option<WorkerId> {
    let (cpu, high, index) = match (text.split_once('n'), text.split_once('h')) {
        (Some((cpu, index)), _) => (cpu, false, index),
        (None, Some((cpu, index))) => (cpu, true, index),
        (None, None) => return None,
    };
    let cpu = CpuId(small_number(cpu)?);
    Some(WorkerId {
        pool: PoolId { cpu, high },
        index: small_number(index)?,
    })
}

impl PartyName {
    pub(crate) fn of(who: Who) -> PartyName {
        PartyName { who }
    }

    /// Reads a name.
    pub fn parse(text: &str) -> Option<PartyName> {
        if let Some(caller) = text.strip_prefix('c') {
            let caller = CallerId(small_number(caller)?);
            return Some(PartyName::of(Who::Caller(caller)));
        }
        let worker = worker_named(text.strip_prefix('w')?)?;
        Some(PartyName::of(Who::Worker(worker)))
    }
}

impl Display for PartyName {
    fn fmt<W: Write>(&self, f: &mut Formatter<W>) -> fmt::Result {
        match self.who {
            Who::Caller(caller) => write!(f, "c{}", caller.0),
            Who::Worker(id) => write!(f, "{}", WorkerName { id }),
        }
    }
}
