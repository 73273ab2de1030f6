//! What an entry does after which something stands, and whose it is.
ghost use Rattle.std.specs.Prelude.{◌≡◌, is_some};
ghost use Rattle.cmwq_model.specs.Prelude.{due_in, item_number, number_started};
ghost use Rattle.cmwq_summary.specs.Figures.{caller_in, worker_number};
ghost use Rattle.cmwq_theory_steps.specs.RoomSteps.{is_slept};
ghost use Rattle.cmwq_views.specs.Since.{is_lent_call, key_if, key_of, row_of_who};

use crate::number::OF_POOL;
use cmwq_base::{Entry, WorkerId};
use cmwq_model::{Call, ItemId, Reply, Who};

/// What an entry does.
#[derive(Clone, Copy)]
pub(crate) enum Deed {
    /// A worker starts a queueing.
    Start,
    /// A worker's run goes to sleep.
    Sleep,
    /// An item is queued.
    Queue,
    /// An item is booked.
    Book,
    /// A caller begins a wait.
    Wait,
    /// A caller makes a call that one that is lent to waits doesn't make.
    Other,
}

impl Deed {
    /// The number of the worker, the item or the caller whose entry it is, if the entry does this.
    pub(crate) fn key(self, entry: &Entry) -> Option<usize>
        ensures { result ≡ key_of self entry.now }
    {
        match self {
            Deed::Start => key_if(starts(entry.reply), row_of_who(entry.who)),
            Deed::Sleep => key_if(sleeps(entry.reply), row_of_who(entry.who)),
            Deed::Queue => key_if(entry.reply.opens(), row_of_item(entry.item())),
            Deed::Book => key_if(books(entry.reply), row_of_item(entry.item())),
            Deed::Wait => key_if(entry.reply.gives_ticket(), row_of_caller(entry.who)),
            Deed::Other => key_if(!is_lent_call(entry.call), row_of_caller(entry.who)),
        }
    }
}

/// The key, if the test holds.
fn key_if(holds: bool, key: Option<usize>) -> Option<usize>
    ensures { result ≡ key_if holds key }
{
    if holds { key } else { None }
}

/// The number of a worker's row.
fn row_of_worker(worker: WorkerId) -> usize
    ensures { result ≡ worker_number worker }
{
    let pool = if worker.pool.high { OF_POOL } else { 0 };
    2 * OF_POOL * usize::from(worker.pool.cpu.0) + pool + usize::from(worker.index)
}

/// The row of a worker.
fn row_of_who(who: Who) -> Option<usize>
    ensures { result ≡ row_of_who who }
{
    match who {
        Who::Worker(worker) => Some(row_of_worker(worker)),
        Who::Caller(_) => None,
    }
}

/// The row of a caller.
fn row_of_caller(who: Who) -> Option<usize>
    ensures { result ≡ caller_in who }
{
    match who {
        Who::Caller(caller) => Some(caller.0.into()),
        Who::Worker(_) => None,
    }
}

/// The row of an item.
fn row_of_item(item: Option<ItemId>) -> Option<usize>
    ensures { result ≡ item_number item }
{
    match item {
        Some(item) => Some(item.0.into()),
        None => None,
    }
}

/// Whether a queueing starts.
fn starts(reply: Reply) -> bool
    ensures { result ≡ is_some (number_started reply) }
{
    reply.number_started().is_some()
}

/// Whether a run goes to sleep.
fn sleeps(reply: Reply) -> bool
    ensures { result ≡ is_slept reply }
{
    matches!(reply, Reply::Slept)
}

/// Whether an item is booked.
fn books(reply: Reply) -> bool
    ensures { result ≡ is_some (due_in reply) }
{
    matches!(reply, Reply::Booked(_) | Reply::Rebooked(_))
}

/// Whether a caller that is lent to waits makes this call.
fn is_lent_call(call: Call) -> bool
    ensures { result ≡ is_lent_call call }
{
    matches!(
        call,
        Call::Flush { .. }
            | Call::Drain { .. }
            | Call::Destroy { .. }
            | Call::FlushItem { .. }
            | Call::FlushDelayed { .. }
            | Call::CancelSync { .. }
            | Call::End { .. }
            | Call::Fire
    )
}
