ghost use Rattle.std.specs.Prelude.{◌≡◌, ◌<◌, ◌+◌, ◌++◌, length, option_to_list};
ghost use Rattle.cmwq_model.specs.Prelude.{opens, place_called, place_wanted, cpu_for, queued_at, opening, queueings};
ghost use Rattle.cmwq_model.specs.Prelude.{is_live, unstarted_queueing, is_unstarted, is_pending, queueing_at};
ghost use Rattle.cmwq_model.specs.Prelude.{queue_of, run_queue, runs_elsewhere, is_item_open};
ghost use Rattle.cmwq_plain.specs.Past.{upto, open_upto};

use crate::bookings::{booking, is_booked};
use crate::entries::item_of;
use crate::fate::{is_open, is_started};
use crate::past::Past;
use crate::runs::{item_run, run};
use cmwq_model::{Call, CpuId, Entry, ItemId, Number, Place, Queueing, WorkerId};

/// The place that is asked for: it stands in the call, or in the item's booking.
fn place_wanted(past: &Past<'_>, call: Call, item: u16) -> Option<Place>
    ensures { result ≡ place_wanted past.now call item }
{
    match call.place_called() {
        Some(place) => Some(place),
        None => Some(booking(past, item)?.place),
    }
}

/// The CPU where the item runs, or else the one that is asked for.
fn cpu_for(past: &Past<'_>, item: u16, cpu: CpuId) -> CpuId
    ensures { result ≡ cpu_for past.now item cpu }
{
    match item_run(past, item) {
        Some(start) => start.worker.pool.cpu,
        None => cpu,
    }
}

fn queued_at(past: &Past<'_>, item: u16, place: Place) -> Queueing
    ensures { result ≡ queued_at past.now item place }
{
    Queueing {
        item: ItemId(item),
        place: Place {
            queue: place.queue,
            cpu: cpu_for(past, item, place.cpu),
        },
        number: past.len() as u64,
    }
}

/// What an entry after these opens.
pub fn opening(past: &Past<'_>, entry: &Entry) -> Option<Queueing>
    ensures { result ≡ opening past.now entry.now }
{
    if !entry.reply.opens() {
        return None;
    }
    let item = item_of(entry)?;
    let place = place_wanted(past, entry.call, item)?;
    Some(queued_at(past, item, place))
}

/// What the entry with this number opens.
#[tactic(auto, using(crate::proofs::PastSteps::queueings_step))]
pub fn opening_at(past: &Past<'_>, number: usize) -> Option<Queueing>
    requires { number < length past.now }
    ensures { queueings (upto past.now (number + 1))
        ≡ queueings (upto past.now number) ++ option_to_list result }
{
    opening(&past.before(number), &past.at(number))
}

/// Whether the queueing is open.
pub fn is_live(past: &Past<'_>, queueing: &Queueing) -> bool
    ensures { result ≡ is_live past.now queueing.now }
{
    is_open(past, queueing.item.0, queueing.number)
}

/// What the entry with this number opened, if that is still open.
#[tactic(auto, using(cmwq_lemmas::proofs::Pushed::filter_push), unfolding(crate::specs::Past::open_upto))]
pub fn open_at(past: &Past<'_>, number: usize) -> Option<Queueing>
    requires { number < length past.now }
    ensures { open_upto past.now (number + 1)
        ≡ open_upto past.now number ++ option_to_list result }
{
    match opening_at(past, number) {
        None => None,
        Some(queueing) => {
            if is_live(past, &queueing) {
                Some(queueing)
            } else {
                None
            }
        }
    }
}

fn is_unstarted(past: &Past<'_>, item: u16, queueing: &Queueing) -> bool
    ensures { result ≡ is_unstarted past.now item queueing.now }
{
    queueing.item.0 == item && !is_started(past, queueing.number)
}

/// The item's open queueing that hasn't started.
#[tactic(auto, using(cmwq_lemmas::proofs::Pushed::find_push, crate::proofs::PastSteps::open_ends))]
pub fn unstarted(past: &Past<'_>, item: u16) -> Option<Queueing>
    ensures { result ≡ unstarted_queueing past.now item }
{
    let mut found = None;
    for k in 0..past.len() {
        if let Some(queueing) = open_at(past, k) {
            if found.is_none() && is_unstarted(past, item, &queueing) {
                found = Some(queueing);
            }
        }
    }
    found
}

/// Whether the item is delayed, or has an open queueing that hasn't started.
pub fn is_pending(past: &Past<'_>, item: u16) -> bool
    ensures { result ≡ is_pending past.now item }
{
    is_booked(past, item) || unstarted(past, item).is_some()
}

/// Whether the item has an open queueing.
#[tactic(auto, using(cmwq_lemmas::proofs::Pushed::find_push, crate::proofs::PastSteps::open_ends))]
pub fn is_item_open(past: &Past<'_>, item: u16) -> bool
    ensures { result ≡ is_item_open past.now item }
{
    let mut found: Option<Queueing> = None;
    for k in 0..past.len() {
        if let Some(queueing) = open_at(past, k) {
            if found.is_none() && queueing.item.0 == item {
                found = Some(queueing);
            }
        }
    }
    found.is_some()
}

/// The queueing with this number.
#[tactic(auto, using(crate::proofs::Parts::ends, cmwq_lemmas::proofs::Pushed::find_push, crate::proofs::PastSteps::queueings_none))]
pub fn queueing_at(past: &Past<'_>, number: Number) -> Option<Queueing>
    ensures { result ≡ queueing_at past.now number }
{
    let mut found: Option<Queueing> = None;
    for k in 0..past.len() {
        if let Some(queueing) = opening_at(past, k) {
            if found.is_none() && queueing.number == number {
                found = Some(queueing);
            }
        }
    }
    found
}

fn queue_of(past: &Past<'_>, number: Number) -> Option<u8>
    ensures { result ≡ queue_of past.now number }
{
    Some(queueing_at(past, number)?.place.queue.0)
}

/// The queue of what the worker runs.
pub fn run_queue(past: &Past<'_>, worker: WorkerId) -> Option<u8>
    ensures { result ≡ run_queue past.now worker }
{
    queue_of(past, run(past, worker)?)
}

/// Whether the item runs, but not on this queue.
pub fn runs_elsewhere(past: &Past<'_>, item: u16, queue: u8) -> bool
    ensures { result ≡ runs_elsewhere past.now item queue }
{
    match item_run(past, item) {
        None => false,
        Some(start) => match queue_of(past, start.number) {
            None => true,
            Some(other) => other != queue,
        },
    }
}
