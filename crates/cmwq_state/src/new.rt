//! The parts of a new state.

ghost use Rattle.std.specs.Prelude.{◌≡◌, ◌*◌, ◌<◌, ◌≤◌, None, false, IfOk, length, map, replicate};
ghost use Rattle.cmwq_pool.specs.PoolState.{new_pool_state};
ghost use Rattle.cmwq_flush.specs.FlushBooks.{new_flush_state};
ghost use Rattle.cmwq_ticket.specs.Rows.{new_tickets};
ghost use Rattle.cmwq_inflight.specs.Flights.{no_flight};
ghost use Rattle.cmwq_pwq.specs.Pwqs.{new_pwq_state};
ghost use Rattle.cmwq_state.specs.Tables.{who_places};

use crate::tables::who_places;
use cmwq_flush::FlushBooks;
use cmwq_inflight::Flights;
use cmwq_model::{Counts, NoMemory, QueueShape};
use cmwq_pool::Pools;
use cmwq_pwq::Pwqs;
use cmwq_ticket::Tickets;
use cmwq_timer::Timers;
use std::alloc::Global;

/// What is kept of callers, workers and items.
#[derive(Drop)]
pub(crate) struct ItemParts {
    pub(crate) serials: Vec<u64>,
    pub(crate) pools: Pools,
    pub(crate) timers: Timers,
    pub(crate) flights: Flights,
}

/// What is kept of flushes and tickets.
#[derive(Drop)]
pub(crate) struct FlushParts {
    pub(crate) books: FlushBooks,
    pub(crate) tickets: Tickets,
}

/// The queues, and what is kept of them.
#[derive(Drop)]
pub(crate) struct QueueParts {
    pub(crate) queues: Vec<QueueShape>,
    pub(crate) gone: Vec<bool>,
    pub(crate) pwqs: Pwqs,
    pub(crate) most: Vec<u32>,
}

/// What is kept of callers, workers and items before the first entry.
pub(crate) fn new_item_parts(alloc: Global, counts: Counts) -> Result<ItemParts, NoMemory>
    ensures serials { IfOk result (λ parts. parts.serials.items ≡ replicate (who_places counts.cpus) 0) }
    ensures pools { IfOk result
        (λ parts. parts.pools ≡ replicate (2 * counts.cpus) (new_pool_state counts.items counts.workers)) }
    ensures timers { IfOk result (λ parts. parts.timers ≡ replicate counts.items None) }
    ensures flights { IfOk result (λ parts. parts.flights ≡ replicate counts.items no_flight) }
{
    let serials = vec![in alloc; 0; who_places(counts.cpus)]?;
    let pools = Pools::new(
        alloc,
        2 * u16::from(counts.cpus),
        counts.items,
        counts.workers,
    )?;
    let timers = Timers::new(alloc, counts.items)?;
    let flights = Flights::new(alloc, counts.items)?;
    Ok(ItemParts {
        serials,
        pools,
        timers,
        flights,
    })
}

/// What is kept of flushes and tickets before the first entry.
pub(crate) fn new_flush_parts(
    alloc: Global,
    counts: Counts,
    queues: usize,
) -> Result<FlushParts, NoMemory>
    requires { queues ≤ 256 }
    ensures books { IfOk result (λ parts. parts.books ≡ new_flush_state queues counts.items counts.callers) }
    ensures tickets { IfOk result (λ parts. parts.tickets ≡ new_tickets counts.callers counts.items queues) }
{
    let books = FlushBooks::new(alloc, queues, counts.items, counts.callers)?;
    let tickets = Tickets::new(alloc, counts.callers, counts.items, queues)?;
    Ok(FlushParts { books, tickets })
}

/// A copy of the queues, and what is kept of them before the first entry.
pub(crate) fn new_queue_parts(
    alloc: Global,
    queues: &[QueueShape],
    items: u16,
) -> Result<QueueParts, NoMemory>
    requires { length queues.now ≤ 256 }
    ensures queues { IfOk result (λ parts. parts.queues.items ≡ queues.now) }
    ensures gone { IfOk result (λ parts. parts.gone.items ≡ replicate (length queues.now) false) }
    ensures pwqs { IfOk result (λ parts. parts.pwqs ≡ new_pwq_state (length queues.now) items) }
    ensures most { IfOk result (λ parts. parts.most.items ≡ map (λ q. q.max_active) queues.now) }
{
    Ok(QueueParts {
        gone: new_gone(alloc, queues.len())?,
        most: new_most(alloc, queues)?,
        queues: queues.to_vec(alloc)?,
        pwqs: Pwqs::new(alloc, queues.len(), items)?,
    })
}

/// The max_active of each queue at first.
fn new_most(alloc: Global, queues: &[QueueShape]) -> Result<Vec<u32>, NoMemory>
    ensures { IfOk result (λ most. most.items ≡ map (λ q. q.max_active) queues.now) }
{
    Ok(
        queues
            .iter()
            .map(|queue| u32::from(queue.max_active))
            .collect(alloc)?,
    )
}

/// No queue is gone at first.
fn new_gone(alloc: Global, queues: usize) -> Result<Vec<bool>, NoMemory>
    ensures { IfOk result (λ gone. gone.items ≡ replicate queues false) }
{
    Ok(vec![in alloc; false; queues]?)
}
