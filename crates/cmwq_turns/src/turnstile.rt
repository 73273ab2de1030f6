//! Lets one thread move at a time.

use crate::bell::Bell;
use crate::chooser::Schedule;
use crate::party::{Awaited, Party};
use crate::turns::Turns;
use cmwq_model::{CallerId, NoMemory, Shape, Who, WorkerId};
use std::alloc::Global;
use std::sync::atomic::{AtomicBool, Ordering};
use std::sync::{Mutex, Wait};
use std::time::Duration;

/// Threads of a hub take turns at it. The one that has the turn moves alone, until it asks for another turn, sleeps or
/// goes. Whose turn is next follows from the seed and from what all did, whichever thread comes first.
///
/// A method that has no `who` is called by the thread that has the turn.
#[derive(Drop)]
pub struct Turnstile {
    turns: Mutex<Turns>,
    bells: Vec<Bell>,
    has_stopped: AtomicBool,
    is_open: AtomicBool,
}

fn row_of_bells(alloc: Global, many: usize) -> Result<Vec<Bell>, NoMemory> {
    let mut bells = Vec::with_capacity(alloc, many)?;
    for _ in 0..many {
        if bells.push(Bell::new()).is_err() {
            return Err(NoMemory);
        }
    }
    Ok(bells)
}

/// So many nanoseconds, or the most there are.
fn nanoseconds(time: Duration) -> u64 {
    u64::try_from(time.as_nanos()).unwrap_or(u64::MAX)
}

impl Turnstile {
    /// The turnstile of a hub of this shape. The first so many callers have threads of their own, and so do all
    /// workers. One more thread closes the hub when these callers have gone. Nobody moves before all have come.
    pub fn new(
        alloc: Global,
        shape: &Shape,
        threads: u8,
        schedule: Schedule,
        seed: u64,
    ) -> Result<Turnstile, NoMemory> {
        let turns = Turns::new(alloc, shape, threads, schedule, seed)?;
        let bells = row_of_bells(alloc, turns.parties())?;
        Ok(Turnstile {
            turns: Mutex::new(turns),
            bells,
            has_stopped: AtomicBool::new(false),
            is_open: AtomicBool::new(false),
        })
    }

    fn is_open(&self) -> bool {
        self.is_open.load(Ordering::SeqCst)
    }

    /// Whether nobody is to make a call any more: nobody could move, or the hub has failed.
    pub fn has_stopped(&self) -> bool {
        self.has_stopped.load(Ordering::SeqCst)
    }

    /// Rings for the next one. Where it is another, this one waits until it has the turn again.
    fn pass<R: Wait>(&self, rt: &R, own: usize, next: Option<usize>) {
        if next == Some(own) {
            return;
        }
        self.ring(next);
        if !self.is_open() {
            if let Some(bell) = self.bells.get(own) {
                bell.hear(rt);
            }
        }
    }

    fn ring(&self, next: Option<usize>) {
        if let Some(next) = next {
            if let Some(bell) = self.bells.get(next) {
                bell.ring();
            }
        }
    }

    /// Notes whether all has stopped, for those who look without the lock.
    fn note(&self, turns: &Turns) {
        if turns.has_stopped() {
            self.has_stopped.store(true, Ordering::SeqCst);
        }
    }

    /// A caller or a worker comes, and waits for its first turn.
    pub fn come<R: Wait>(&self, rt: &R, who: Who) {
        if self.is_open() {
            return;
        }
        let mut turns = self.turns.lock(rt);
        let own = turns.place_of(who);
        let next = turns.come(own);
        self.note(&*turns);
        drop(turns);
        self.pass(rt, own, next);
    }

    /// The one that closes the hub comes, and waits for its turn. Returns whether it has one: not after all has
    /// stopped.
    pub fn come_to_close<R: Wait>(&self, rt: &R) -> bool {
        if self.is_open() || self.has_stopped() {
            return false;
        }
        let mut turns = self.turns.lock(rt);
        let own = turns.last_place();
        let next = turns.come(own);
        self.note(&*turns);
        drop(turns);
        self.pass(rt, own, next);
        true
    }

    /// Lets others move first.
    pub fn turn<R: Wait>(&self, rt: &R) {
        if self.is_open() {
            return;
        }
        let mut turns = self.turns.lock(rt);
        let own = turns.whose();
        let next = turns.ask();
        self.note(&*turns);
        drop(turns);
        self.pass(rt, own, next);
    }

    /// Sleeps until it is woken, and has the turn again.
    pub fn sleep<R: Wait>(&self, rt: &R, awaited: Awaited) {
        self.sleep_to(rt, awaited, None);
    }

    /// The time that it is after so long, in nanoseconds.
    pub fn time_after<R: Wait>(&self, rt: &R, time: Duration) -> u64 {
        let turns = self.turns.lock(rt);
        turns.now().saturating_add(nanoseconds(time))
    }

    /// Sleeps until it is woken or this time has come, and it has the turn again. Returns whether the time has come, or
    /// all has stopped.
    pub fn sleep_until<R: Wait>(&self, rt: &R, awaited: Awaited, until: u64) -> bool {
        self.sleep_to(rt, awaited, Some(until));
        let turns = self.turns.lock(rt);
        turns.has_stopped() || turns.now() >= until
    }

    fn sleep_to<R: Wait>(&self, rt: &R, awaited: Awaited, until: Option<u64>) {
        if self.is_open() {
            return;
        }
        let mut turns = self.turns.lock(rt);
        let own = turns.whose();
        let next = turns.sleep(awaited, until);
        self.note(&*turns);
        drop(turns);
        self.pass(rt, own, next);
    }

    /// Takes no turn any more.
    pub fn go<R: Wait>(&self, rt: &R) {
        if self.is_open() {
            return;
        }
        let mut turns = self.turns.lock(rt);
        let next = turns.go();
        self.note(&*turns);
        drop(turns);
        self.ring(next);
    }

    /// These callers and workers may go on, or all of them. They want a turn from now on.
    pub fn wake<R: Wait>(
        &self,
        rt: &R,
        callers: &[Option<CallerId>],
        workers: &[Option<WorkerId>],
        all_callers: bool,
        all_workers: bool,
    ) {
        let mut turns = self.turns.lock(rt);
        for name in callers {
            let Some(caller) = name else { break };
            turns.wake_caller(*caller);
        }
        for name in workers {
            let Some(worker) = name else { break };
            turns.wake_worker(*worker);
        }
        turns.wake_all(all_callers, all_workers);
    }

    /// Those who wait for a completion look again.
    pub fn signal<R: Wait>(&self, rt: &R) {
        let mut turns = self.turns.lock(rt);
        turns.signal();
    }

    /// Nobody is to make a call any more. All take turns still, until they have gone.
    pub fn stop<R: Wait>(&self, rt: &R) {
        let mut turns = self.turns.lock(rt);
        turns.stop();
        self.note(&*turns);
    }

    /// Nobody takes turns any more: a thread is missing, and all others are to come to their end.
    pub fn open<R: Wait>(&self, rt: &R) {
        self.stop(rt);
        self.is_open.store(true, Ordering::SeqCst);
        for bell in &self.bells {
            bell.ring();
        }
    }

    /// The time, in nanoseconds. It goes by while all sleep, and a little at each look.
    pub fn now<R: Wait>(&self, rt: &R) -> u64 {
        let mut turns = self.turns.lock(rt);
        turns.look_at_clock()
    }

    /// How many turns were given.
    pub fn count<R: Wait>(&self, rt: &R) -> u64 {
        let turns = self.turns.lock(rt);
        turns.count()
    }

    /// Who has the turn, if anybody has.
    pub fn mover<R: Wait>(&self, rt: &R) -> Option<Party> {
        let turns = self.turns.lock(rt);
        turns.mover()
    }

    /// Whether nobody could move any more though not all had gone.
    pub fn is_stuck<R: Wait>(&self, rt: &R) -> bool {
        let turns = self.turns.lock(rt);
        turns.is_stuck()
    }

    /// All parties as they stood when nobody could move any more: none, if that did not come about.
    pub fn stuck<R: Wait>(&self, rt: &R, alloc: Global) -> Result<Vec<Party>, NoMemory> {
        let turns = self.turns.lock(rt);
        let mut parties = Vec::new(alloc);
        for party in turns.stuck() {
            if parties.push(*party).is_err() {
                return Err(NoMemory);
            }
        }
        Ok(parties)
    }
}
