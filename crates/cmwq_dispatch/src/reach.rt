//! The pools that are to be looked at after an entry.

ghost use Rattle.std.specs.Prelude.{◌≡◌};
ghost use Rattle.cmwq_model.specs.Prelude.{pool_at};
ghost use Rattle.cmwq_theory_wakes.specs.Reach.{own_pool, reach_by_ending, reach_by_reply};
ghost use Rattle.cmwq_theory_wakes.specs.Reach as reaches;
ghost use Rattle.cmwq_dispatch.specs.Reached.{reach_as};

use cmwq_model::{Call, Entry, Place, PoolId, Queueing, Reply, Shape, Who};

/// The pools in which an entry may have let something start.
#[derive(Clone, Copy)]
pub(crate) enum Reach {
    Nowhere,
    Only(PoolId),
    Everywhere,
}

/// The pool in which a queueing at this place runs.
fn pool_of(shape: &Shape, place: Place) -> PoolId
    ensures { result ≡ pool_at shape.now place }
{
    let high = match shape.queues().get(usize::from(place.queue.0)) {
        Some(queue) => queue.high,
        None => false,
    };
    PoolId {
        cpu: place.cpu,
        high,
    }
}

fn at_place(shape: &Shape, place: Place) -> Reach
    ensures { reach_as result ≡ reaches.only (pool_at shape.now place) }
{
    Reach::Only(pool_of(shape, place))
}

/// A worker's own pool.
fn own(who: Who) -> Reach
    ensures { reach_as result ≡ own_pool who }
{
    match who {
        Who::Worker(worker) => Reach::Only(worker.pool),
        Who::Caller(_) => Reach::Nowhere,
    }
}

/// What an entry lets start by what it queues, or by who starts, sleeps or retires. What is queued while its item runs
/// waits for that run, in whose pool it is.
pub(crate) fn reach_by_reply(shape: &Shape, entry: &Entry) -> Reach
    ensures { reach_as result ≡ reach_by_reply shape.now entry.now entry.now.reply }
{
    match entry.reply {
        Reply::Started(_) | Reply::StartedEnlist(_, _) | Reply::Slept | Reply::Retired => own(
            entry.who,
        ),
        Reply::Yes(_) | Reply::Again(_) => match entry.call {
            Call::Queue { queue, cpu, .. }
            | Call::Delay { queue, cpu, .. }
            | Call::Modify { queue, cpu, .. } => at_place(shape, Place { queue, cpu }),
            _ => Reach::Nowhere,
        },
        Reply::Fired(_, _) | Reply::TicketQueued(_) | Reply::Width(_) | Reply::Thawed =>
            Reach::Everywhere,
        _ => Reach::Nowhere,
    }
}

/// What an entry lets start in place of what it takes back. A worker that has finished asks for the next itself.
pub(crate) fn reach_by_ending(shape: &Shape, entry: &Entry, ended: &Option<Queueing>) -> Reach
    ensures { reach_as result ≡ reach_by_ending shape.now entry.now ended.now }
{
    match (ended, entry.reply) {
        (None, _) | (_, Reply::Finished(_)) => Reach::Nowhere,
        (Some(ended), _) => Reach::Only(pool_of(shape, ended.place)),
    }
}
