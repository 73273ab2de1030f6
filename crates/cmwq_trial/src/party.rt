//! Who takes part in a trial, and what it does, in words.

ghost use Rattle.std.specs.Prelude.{◌≡◌, IfSome};

use crate::awaits::{Awaits, Wanted};
use cmwq_awaited::{Goal, WaitedFor, goal_of, waited_for};
use cmwq_core::Execution;
use cmwq_model::{Call, Entry, ItemId, Number, QueueId, Shape, Who, WorkerId};
use cmwq_turns::{Awaited, Party as Member, Standing};
use std::alloc::Global;
use thiserror::Error;

/// One who takes part in a trial.
#[derive(Clone, Copy, Debug, PartialEq, Eq, Error)]
pub enum Role {
    /// The caller of the service with this place.
    #[error("caller c{0}")]
    Caller(u8),
    /// The library's clock.
    #[error("the clock")]
    Clock,
    /// The one that comes when the callers have ended.
    #[error("the end")]
    End,
    #[error("worker w{cpu}{pool}{index}")]
    Worker { cpu: u8, pool: char, index: u8 },
    /// The one that closes the hub at last.
    #[error("the close")]
    Close,
}

/// What it does.
#[derive(Clone, Copy, Debug, PartialEq, Eq, Error)]
pub enum Doing {
    #[error("has ended")]
    Ended,
    #[error("has not begun")]
    Absent,
    #[error("moves")]
    Moves,
    #[error("runs item {0}")]
    Runs(u16),
    #[error("waits for {0}")]
    Waits(Awaits),
    #[error("runs item {0} and waits for {1}")]
    RunsAndWaits(u16, Awaits),
}

/// One who takes part in a trial, and what it does.
#[derive(Clone, Copy, Debug, PartialEq, Eq, Error)]
#[error("{role} {doing}")]
pub struct Party {
    pub role: Role,
    pub doing: Doing,
}

/// Who that is, if the shape's last callers are lent to runs, after so many that have threads.
pub(crate) fn role_of(who: Option<Who>, threads: u8) -> Role {
    match who {
        Some(Who::Caller(caller)) if caller.0.saturating_add(2) == threads => Role::Clock,
        Some(Who::Caller(caller)) if caller.0.saturating_add(1) == threads => Role::End,
        Some(Who::Caller(caller)) => Role::Caller(caller.0),
        Some(Who::Worker(worker)) => role_of_worker(worker),
        None => Role::Close,
    }
}

fn role_of_worker(worker: WorkerId) -> Role {
    Role::Worker {
        cpu: worker.pool.cpu.0,
        pool: if worker.pool.high { 'h' } else { 'n' },
        index: worker.index,
    }
}

/// Whether the party is a caller of the service that has not ended.
fn is_caller_at_work(party: &Member, threads: u8) -> bool {
    matches!(role_of(party.who, threads), Role::Caller(_))
        && !matches!(party.standing, Standing::Gone)
}

/// A history, played again. None if it can't be, as memory runs out.
pub(crate) fn replay(alloc: Global, shape: &Shape, entries: &[Entry]) -> Option<Execution>
    ensures { IfSome result (λ book. book.layout ≡ shape.now) }
{
    let mut book = Execution::new(alloc, shape, shape.counts().room).ok()?;
    for entry in entries {
        if !shape.fits(entry.who, entry.call) || book.next(entry.who, entry.call).is_err() {
            return None;
        }
    }
    Some(book)
}

/// What a history says of those who take part.
#[derive(Drop)]
pub(crate) struct Scene<'a> {
    /// The history, played again.
    pub book: &'a Execution,
    pub shape: &'a Shape,
    pub entries: &'a [Entry],
    /// How many callers have threads: those of the service, the clock and the end.
    pub threads: u8,
    pub have_callers_ended: bool,
    ghost of_shape: { book.now.layout ≡ shape.now },
}

impl<'a> Scene<'a> {
    fn awaits_queue(&self, wanted: Wanted, queue: QueueId, ticket: Number) -> Awaits {
        let queue = queue.0;
        match waited_for(self.book.state(), self.entries, ticket) {
            Some(WaitedFor { number, item }) => Awaits::Queue {
                wanted,
                queue,
                number,
                item: item.0,
            },
            None => Awaits::Turn { wanted, queue },
        }
    }

    fn awaits(&self, role: Role, awaited: Awaited) -> Awaits {
        match awaited {
            Awaited::Ticket { call, ticket, .. } => match goal_of(call) {
                Some(Goal::FlushItem(item) | Goal::CancelSync(item)) => Awaits::Item(item.0),
                Some(Goal::Flush(queue)) => self.awaits_queue(Wanted::Flush, queue, ticket),
                Some(Goal::Drain(queue)) => self.awaits_queue(Wanted::Drain, queue, ticket),
                Some(Goal::Destroy(queue)) => self.awaits_queue(Wanted::Destroy, queue, ticket),
                // no other call gives a ticket
                None => Awaits::Completion,
            },
            Awaited::Completion if role == Role::Clock => Awaits::Time,
            Awaited::Completion if role == Role::End && !self.have_callers_ended => Awaits::Callers,
            Awaited::Completion => Awaits::Completion,
            Awaited::Time => Awaits::Time,
            Awaited::Space => Awaits::Space,
            Awaited::Work => Awaits::Work,
        }
    }

    /// The item that it runs at the end of the history, of a worker.
    #[tactic(auto, using(cmwq_state::proofs::Steps::fits_there))]
    fn item_of(&self, who: Option<Who>) -> Option<ItemId> {
        match who {
            Some(Who::Worker(worker)) if self.shape.fits(Who::Worker(worker), Call::Finish) => {
                Some(self.book.state().queueing_run(worker)?.item)
            }
            Some(Who::Worker(_) | Who::Caller(_)) | None => None,
        }
    }

    fn doing(&self, role: Role, party: &Member) -> Doing {
        match party.standing {
            Standing::Absent => Doing::Absent,
            Standing::Gone => Doing::Ended,
            Standing::Moves | Standing::Wants => match self.item_of(party.who) {
                Some(item) => Doing::Runs(item.0),
                None => Doing::Moves,
            },
            Standing::Sleeps { awaited, .. } => {
                let awaits = self.awaits(role, awaited);
                match self.item_of(party.who) {
                    Some(item) => Doing::RunsAndWaits(item.0, awaits),
                    None => Doing::Waits(awaits),
                }
            }
        }
    }

    /// A party, in words.
    pub(crate) fn told(&self, party: &Member) -> Party {
        let role = role_of(party.who, self.threads);
        Party {
            role,
            doing: self.doing(role, party),
        }
    }
}

/// Whether no caller of the service takes part any more.
pub(crate) fn have_callers_ended(parties: &[Member], threads: u8) -> bool {
    for party in parties {
        if is_caller_at_work(party, threads) {
            return false;
        }
    }
    true
}
