//! What single entries say.
ghost use Rattle.std.specs.Prelude.{◌≡◌};
ghost use Rattle.cmwq_model.specs.Prelude.{same_pool, same_worker, is_by, item_of, is_of_item, starts, finishes};
ghost use Rattle.cmwq_model.specs.Prelude.{takes_back, replaces};

use cmwq_model::{Entry, Number, PoolId, Reply, Who, WorkerId};

/// Whether these are the same pool.
pub fn is_same_pool(a: PoolId, b: PoolId) -> bool
    ensures { result ≡ same_pool a b }
{
    a.cpu.0 == b.cpu.0 && a.high == b.high
}

/// Whether these are the same worker.
pub fn is_same_worker(a: WorkerId, b: WorkerId) -> bool
    ensures { result ≡ same_worker a b }
{
    is_same_pool(a.pool, b.pool) && a.index == b.index
}

/// Whether the entry is by this caller or worker.
pub fn is_by(who: Who, entry: &Entry) -> bool
    ensures { result ≡ is_by who entry.now }
{
    match entry.who {
        Who::Caller(caller) => match who {
            Who::Caller(other) => caller.0 == other.0,
            Who::Worker(_) => false,
        },
        Who::Worker(worker) => match who {
            Who::Caller(_) => false,
            Who::Worker(other) => is_same_worker(worker, other),
        },
    }
}

/// The item that stands in the call, or in the reply of a fire.
pub fn item_of(entry: &Entry) -> Option<u16>
    ensures { result ≡ item_of entry.now }
{
    match entry.item() {
        Some(item) => Some(item.0),
        None => None,
    }
}

/// Whether the entry is of this item.
pub fn is_of_item(item: u16, entry: &Entry) -> bool
    ensures { result ≡ is_of_item item entry.now }
{
    match item_of(entry) {
        Some(other) => other == item,
        None => false,
    }
}

/// Whether the entry starts this queueing.
pub fn starts(number: Number, entry: &Entry) -> bool
    ensures { result ≡ starts number entry.now }
{
    match entry.reply {
        Reply::Started(other) | Reply::StartedEnlist(other, _) => other == number,
        _ => false,
    }
}

/// Whether the entry finishes this queueing.
pub fn finishes(number: Number, entry: &Entry) -> bool
    ensures { result ≡ finishes number entry.now }
{
    match entry.reply {
        Reply::Finished(other) => other == number,
        _ => false,
    }
}

/// Whether the entry takes this queueing back by its number.
pub fn takes_back(number: Number, entry: &Entry) -> bool
    ensures { result ≡ takes_back number entry.now }
{
    match entry.reply {
        Reply::Cancelled(other) | Reply::TicketCancelled(_, other) => other == number,
        _ => false,
    }
}

/// Whether the answer puts something new in the place of what was pending.
pub fn replaces(reply: Reply) -> bool
    ensures { result ≡ replaces reply }
{
    matches!(reply, Reply::Again(_) | Reply::Rebooked(_))
}
