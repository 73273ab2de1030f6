//! Whose turn it is.

use crate::chooser::{Chooser, Schedule};
use crate::party::{Awaited, Party, Standing};
use cmwq_model::{CallerId, CpuId, NoMemory, PoolId, Shape, Who, WorkerId};
use std::alloc::Global;

/// So many times in a row time may go by with nobody moving but those who slept through it. More count as stuck: they
/// look for what nobody does any more.
const MOST_IDLE: u32 = 1 << 16;

/// A party, and whether it moves because time has gone by.
#[derive(Clone, Copy)]
struct Member {
    party: Party,
    is_by_time: bool,
}

/// Who takes part, and whose turn it is. It takes no memory after `new`.
#[derive(Drop)]
pub(crate) struct Turns {
    /// The callers that have threads, the workers, and the one that closes the hub, in the shape's order.
    members: Vec<Member>,
    /// Those who want a turn now.
    wanting: Vec<usize>,
    /// All parties as they stood when nobody could move any more.
    stuck: Vec<Party>,
    chooser: Chooser,
    /// How many callers have threads, and how many of them have not gone.
    threads: u8,
    callers: u8,
    workers_of_pool: u8,
    /// How many threads are to come before a turn is given.
    coming: u32,
    whose: usize,
    /// How many turns were given.
    count: u64,
    /// The time, in nanoseconds.
    now: u64,
    idle: u32,
    has_stopped: bool,
    is_stuck: bool,
}

impl Turns {
    /// The turns of a hub of this shape, of which so many callers have threads.
    pub(crate) fn new(
        alloc: Global,
        shape: &Shape,
        threads: u8,
        schedule: Schedule,
        seed: u64,
    ) -> Result<Turns, NoMemory> {
        let counts = shape.counts();
        let workers = 2 * usize::from(counts.cpus) * usize::from(counts.workers);
        let parties = usize::from(threads) + workers + 1;
        let mut turns = Turns {
            members: Vec::with_capacity(alloc, parties)?,
            wanting: Vec::with_capacity(alloc, parties)?,
            stuck: Vec::with_capacity(alloc, parties)?,
            chooser: Chooser::new(alloc, parties, schedule, seed)?,
            threads,
            callers: threads,
            workers_of_pool: counts.workers,
            coming: 0,
            whose: 0,
            count: 0,
            now: 0,
            idle: 0,
            has_stopped: false,
            is_stuck: false,
        };
        for caller in 0..threads {
            turns.add(Some(Who::Caller(CallerId(caller))))?;
        }
        for cpu in 0..counts.cpus {
            let cpu = CpuId(cpu);
            turns.add_pool(PoolId { cpu, high: false })?;
            turns.add_pool(PoolId { cpu, high: true })?;
        }
        turns.add(None)?;
        // the last one comes when all callers have gone
        turns.coming = (parties - 1) as u32;
        if threads == 0 {
            turns.coming = parties as u32;
        }
        Ok(turns)
    }

    fn add(&mut self, who: Option<Who>) -> Result<(), NoMemory> {
        let party = Party {
            who,
            standing: Standing::Absent,
        };
        let member = Member {
            party,
            is_by_time: false,
        };
        if self.members.push(member).is_err() {
            return Err(NoMemory);
        }
        Ok(())
    }

    fn add_pool(&mut self, pool: PoolId) -> Result<(), NoMemory> {
        for index in 0..self.workers_of_pool {
            self.add(Some(Who::Worker(WorkerId { pool, index })))?;
        }
        Ok(())
    }

    pub(crate) fn parties(&self) -> usize {
        self.members.len()
    }

    /// The place of a caller that has a thread, or of a worker.
    pub(crate) fn place_of(&self, who: Who) -> usize {
        match who {
            Who::Caller(caller) => usize::from(caller.0),
            Who::Worker(worker) => {
                let pool = 2 * usize::from(worker.pool.cpu.0) + usize::from(worker.pool.high);
                pool.saturating_mul(usize::from(self.workers_of_pool))
                    .saturating_add(usize::from(worker.index))
                    .saturating_add(usize::from(self.threads))
            }
        }
    }

    /// The place of the one that closes the hub.
    pub(crate) fn last_place(&self) -> usize {
        self.members.len().saturating_sub(1)
    }

    fn stand(&mut self, place: usize, standing: Standing) {
        if let Some(member) = self.members.get_mut(place) {
            member.party.standing = standing;
        }
    }

    /// This one has come, and wants its first turn. Returns whose turn is next, if nobody else is to come before.
    pub(crate) fn come(&mut self, place: usize) -> Option<usize> {
        self.coming = self.coming.saturating_sub(1);
        self.stand(place, Standing::Wants);
        self.next()
    }

    /// The one that has the turn wants another.
    pub(crate) fn ask(&mut self) -> Option<usize> {
        let place = self.whose;
        self.stand(place, Standing::Wants);
        self.next()
    }

    /// The one that has the turn sleeps, until this time at the latest, unless the trial has stopped.
    pub(crate) fn sleep(&mut self, awaited: Awaited, until: Option<u64>) -> Option<usize> {
        if self.has_stopped {
            return self.ask();
        }
        let place = self.whose;
        self.stand(place, Standing::Sleeps { awaited, until });
        self.next()
    }

    /// The one that has the turn takes none any more.
    pub(crate) fn go(&mut self) -> Option<usize> {
        let place = self.whose;
        self.stand(place, Standing::Gone);
        if place < usize::from(self.threads) {
            self.callers = self.callers.saturating_sub(1);
            if self.callers == 0 && !self.has_stopped {
                // the hub is closed by a thread that has joined those of all callers
                self.coming = self.coming.saturating_add(1);
            }
        }
        self.next()
    }

    /// Whose turn is next, if all have come. Where nobody may move but somebody is not done, the trial stops.
    fn next(&mut self) -> Option<usize> {
        if self.coming > 0 {
            return None;
        }
        let chosen = match self.choose() {
            Some(chosen) => Some(chosen),
            None if self.are_all_gone() => None,
            None => {
                self.note_stuck();
                self.stop();
                self.choose()
            }
        };
        if let Some(chosen) = chosen {
            self.give(chosen);
        }
        chosen
    }

    fn choose(&mut self) -> Option<usize> {
        self.gather();
        let soonest = self.soonest();
        if self.wanting.is_empty() {
            return soonest;
        }
        if soonest.is_some() && self.chooser.is_hasty() {
            return soonest;
        }
        self.chooser.choose(self.count, &self.wanting)
    }

    /// Gathers those who want a turn.
    fn gather(&mut self) {
        self.wanting.clear();
        for place in 0..self.members.len() {
            if matches!(self.members[place].party.standing, Standing::Wants)
                && self.wanting.push(place).is_err()
            {
                return;
            }
        }
    }

    /// The first of those who may be woken by time, and for which the least time has to go by.
    fn soonest(&self) -> Option<usize> {
        if self.idle >= MOST_IDLE {
            return None;
        }
        let mut soonest = None;
        let mut least = u64::MAX;
        for (place, member) in self.members.iter().enumerate() {
            let Standing::Sleeps {
                until: Some(until),
                ..
            } = member.party.standing
            else {
                continue;
            };
            if soonest.is_none() || until < least {
                soonest = Some(place);
                least = until;
            }
        }
        soonest
    }

    /// It is this one's turn. If it slept until now, the time has come.
    fn give(&mut self, place: usize) {
        self.whose = place;
        self.count = self.count.saturating_add(1);
        let Some(member) = self.members.get_mut(place) else {
            return;
        };
        if let Standing::Sleeps {
            until: Some(until),
            ..
        } = member.party.standing
        {
            self.now = self.now.max(until);
            self.idle = self.idle.saturating_add(1);
            member.is_by_time = true;
        } else if !member.is_by_time {
            self.idle = 0;
        }
        member.party.standing = Standing::Moves;
    }

    fn are_all_gone(&self) -> bool {
        for member in &self.members {
            if member.party.who.is_some() && !matches!(member.party.standing, Standing::Gone) {
                return false;
            }
        }
        true
    }

    fn note_stuck(&mut self) {
        if self.is_stuck {
            return;
        }
        self.is_stuck = true;
        for place in 0..self.members.len() {
            let party = self.members[place].party;
            if self.stuck.push(party).is_err() {
                return;
            }
        }
    }

    /// Everybody who sleeps goes on, to its end.
    pub(crate) fn stop(&mut self) {
        self.has_stopped = true;
        for member in self.members.iter_mut() {
            if matches!(member.party.standing, Standing::Sleeps { .. }) {
                member.party.standing = Standing::Wants;
            }
        }
    }

    /// The caller whose wait may end wants a turn.
    pub(crate) fn wake_caller(&mut self, caller: CallerId) {
        for member in self.members.iter_mut() {
            if let Standing::Sleeps {
                awaited: Awaited::Ticket {
                    caller: sleeper,
                    ..
                },
                ..
            } = member.party.standing
            {
                if sleeper.0 == caller.0 {
                    member.wake();
                }
            }
        }
    }

    /// The worker that may start something wants a turn.
    pub(crate) fn wake_worker(&mut self, worker: WorkerId) {
        let place = self.place_of(Who::Worker(worker));
        if let Some(member) = self.members.get_mut(place) {
            if let Standing::Sleeps {
                awaited: Awaited::Work,
                ..
            } = member.party.standing
            {
                member.wake();
            }
        }
    }

    /// All who sleep in a call or for a call want a turn.
    pub(crate) fn wake_all(&mut self, callers: bool, workers: bool) {
        for member in self.members.iter_mut() {
            if let Standing::Sleeps { awaited, .. } = member.party.standing {
                let is_woken = match awaited {
                    Awaited::Ticket { .. } => callers,
                    Awaited::Work => workers,
                    Awaited::Space => callers || workers,
                    Awaited::Completion | Awaited::Time => false,
                };
                if is_woken {
                    member.wake();
                }
            }
        }
    }

    /// All who wait for a completion want a turn.
    pub(crate) fn signal(&mut self) {
        for member in self.members.iter_mut() {
            if let Standing::Sleeps {
                awaited: Awaited::Completion,
                ..
            } = member.party.standing
            {
                member.wake();
            }
        }
    }

    pub(crate) fn whose(&self) -> usize {
        self.whose
    }

    /// The party that has the turn, if one has.
    pub(crate) fn mover(&self) -> Option<Party> {
        let member = self.members.get(self.whose)?;
        if matches!(member.party.standing, Standing::Moves) {
            Some(member.party)
        } else {
            None
        }
    }

    pub(crate) fn count(&self) -> u64 {
        self.count
    }

    /// The time, which goes on by a microsecond at each look, so that who looks until it has come to its end does so.
    pub(crate) fn look_at_clock(&mut self) -> u64 {
        self.now = self.now.saturating_add(1_000);
        self.now
    }

    pub(crate) fn now(&self) -> u64 {
        self.now
    }

    pub(crate) fn has_stopped(&self) -> bool {
        self.has_stopped
    }

    pub(crate) fn is_stuck(&self) -> bool {
        self.is_stuck
    }

    /// All parties as they stood when nobody could move any more.
    pub(crate) fn stuck(&self) -> &[Party] {
        &self.stuck
    }
}

impl Member {
    /// What it waits for is there.
    fn wake(&mut self) {
        self.party.standing = Standing::Wants;
        self.is_by_time = false;
    }
}
