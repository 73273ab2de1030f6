//! What is counted of a history.
ghost use Rattle.std.specs.Prelude.{◌≡◌};
ghost use Rattle.cmwq_summary.specs.Figures.{key_from, keys_of, number_of};

use crate::key::{CPUS, OF_POOL, caller_in, cancelled, holder_in, item_in, place_in, starter};
use crate::kind::{CALL_KINDS, REPLY_KINDS, call_kind, reply_kind};
use cmwq_model::Shape;
use cmwq_state::Effect;

/// What is counted of a history, and by which key, a small number.
#[derive(Clone, Copy)]
pub enum Counter {
    /// Calls, by their kind.
    Calls,
    /// Replies, by their kind.
    Replies,
    /// Queueings, by the place of their queue and CPU.
    Queueings,
    /// Queueings that were started, by place.
    Starts,
    /// Queueings that were cancelled before they started, by place.
    Cancels,
    /// Runs, by the worker that started them.
    WorkerRuns,
    /// Runs, by item.
    ItemRuns,
    /// Queueings that were cancelled, by item.
    ItemCancels,
    /// Calls, by the caller that made them.
    CallerCalls,
    /// Tickets, by the caller to which they were given.
    CallerTickets,
}

/// The counters, in their order.
pub(crate) const COUNTERS: [Counter; 10] = [
    Counter::Calls,
    Counter::Replies,
    Counter::Queueings,
    Counter::Starts,
    Counter::Cancels,
    Counter::WorkerRuns,
    Counter::ItemRuns,
    Counter::ItemCancels,
    Counter::CallerCalls,
    Counter::CallerTickets,
];

impl Counter {
    /// How many keys there are of a shape.
    pub fn keys(self, shape: &Shape) -> usize
        ensures { result ≡ keys_of shape.now self }
    {
        let counts = shape.counts();
        match self {
            Counter::Calls => CALL_KINDS,
            Counter::Replies => REPLY_KINDS,
            Counter::Queueings | Counter::Starts | Counter::Cancels => {
                CPUS * shape.queues().len()
            }
            Counter::WorkerRuns => 2 * OF_POOL * usize::from(counts.cpus),
            Counter::ItemRuns | Counter::ItemCancels => counts.items.into(),
            Counter::CallerCalls | Counter::CallerTickets => counts.callers.into(),
        }
    }

    /// The key under which it counts an entry with this effect, if it does.
    pub(crate) fn key(self, effect: &Effect) -> Option<usize>
        ensures { result ≡ key_from self effect.now }
    {
        match self {
            Counter::Calls => Some(call_kind(effect.entry.call)),
            Counter::Replies => Some(reply_kind(effect.entry.reply)),
            Counter::Queueings => place_in(effect.opened),
            Counter::Starts => place_in(effect.started),
            Counter::Cancels => place_in(cancelled(effect)),
            Counter::WorkerRuns => starter(&effect.entry),
            Counter::ItemRuns => item_in(effect.started),
            Counter::ItemCancels => item_in(cancelled(effect)),
            Counter::CallerCalls => caller_in(effect.entry.who),
            Counter::CallerTickets => holder_in(effect.begun),
        }
    }

    /// Its number in their order.
    pub(crate) fn number(self) -> usize
        ensures { result ≡ number_of self }
    {
        self as usize
    }
}
