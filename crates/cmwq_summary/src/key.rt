//! The numbers under which an entry is counted.
ghost use Rattle.std.specs.Prelude.{◌≡◌, option_map};
ghost use Rattle.cmwq_model.specs.declared.record.Start as starts;
ghost use Rattle.cmwq_model.specs.Runs as runs;
ghost use Rattle.cmwq_summary.specs.Figures.{caller_in, caller_number, cancelled_from, number_of_item};
ghost use Rattle.cmwq_summary.specs.Figures.{place_number, worker_number};

use cmwq_model::{Entry, MOST_CPUS, MOST_WORKERS, Queueing, Reply, Ticket, Who, WorkerId};
use cmwq_state::Effect;

/// How many CPUs a shape may have.
pub(crate) const CPUS: usize = MOST_CPUS as usize;

/// How many workers a pool may have.
pub(crate) const OF_POOL: usize = MOST_WORKERS as usize;

/// The queueing that an entry cancels: the one that it ends otherwise than by a finish.
pub(crate) fn cancelled(effect: &Effect) -> Option<Queueing>
    ensures { result ≡ cancelled_from effect.now.entry.reply effect.now.ended }
{
    match effect.entry.reply {
        Reply::Finished(_) => None,
        _ => effect.ended,
    }
}

/// The number of a queueing's place.
pub(crate) fn place_in(queueing: Option<Queueing>) -> Option<usize>
    ensures { result ≡ option_map place_number queueing }
{
    match queueing {
        Some(queueing) => {
            Some(CPUS * usize::from(queueing.place.queue.0) + usize::from(queueing.place.cpu.0))
        }
        None => None,
    }
}

/// The number of a queueing's item.
pub(crate) fn item_in(queueing: Option<Queueing>) -> Option<usize>
    ensures { result ≡ option_map number_of_item queueing }
{
    match queueing {
        Some(queueing) => Some(queueing.item.0.into()),
        None => None,
    }
}

/// The number of the caller of a ticket.
pub(crate) fn holder_in(ticket: Option<Ticket>) -> Option<usize>
    ensures { result ≡ option_map caller_number ticket }
{
    match ticket {
        Some(ticket) => Some(ticket.caller.0.into()),
        None => None,
    }
}

/// The number of the caller, if it is one.
pub(crate) fn caller_in(who: Who) -> Option<usize>
    ensures { result ≡ caller_in who }
{
    match who {
        Who::Caller(caller) => Some(caller.0.into()),
        Who::Worker(_) => None,
    }
}

/// The number of a worker.
pub(crate) fn worker_number(worker: WorkerId) -> usize
    ensures { result ≡ worker_number worker }
{
    let pool = if worker.pool.high { OF_POOL } else { 0 };
    2 * OF_POOL * usize::from(worker.pool.cpu.0) + pool + usize::from(worker.index)
}

/// The number of the worker that starts a run by this entry.
pub(crate) fn starter(entry: &Entry) -> Option<usize>
    ensures { result ≡ option_map (λ (start : starts.Start). worker_number start.worker) (runs.start_in entry.now) }
{
    match (entry.who, entry.reply) {
        (Who::Worker(worker), Reply::Started(_) | Reply::StartedEnlist(..)) => Some(worker_number(
            worker,
        )),
        _ => None,
    }
}
