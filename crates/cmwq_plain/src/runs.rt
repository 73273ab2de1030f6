ghost use Rattle.std.specs.Prelude.{◌≡◌};
ghost use Rattle.cmwq_model.specs.Prelude.{entry_at, item_at, is_number_open, last_start, run, has_run, asleep_after};
ghost use Rattle.cmwq_model.specs.Prelude.{is_asleep, runs_awake, runs_asleep, start_in, starts_item};
ghost use Rattle.cmwq_model.specs.Prelude.{item_start, item_run, item_runs};

use crate::entries::{is_by, item_of};
use crate::fate::is_open;
use crate::past::Past;
use cmwq_model::{Entry, Number, Reply, Start, Who, WorkerId};

fn entry_at(past: &Past<'_>, number: Number) -> Option<Entry>
    ensures { result ≡ entry_at past.now number }
{
    if (number as usize) < past.len() {
        Some(past.at(number as usize))
    } else {
        None
    }
}

fn item_at(past: &Past<'_>, number: Number) -> Option<u16>
    ensures { result ≡ item_at past.now number }
{
    item_of(&entry_at(past, number)?)
}

fn is_number_open(past: &Past<'_>, number: Number) -> bool
    ensures { result ≡ is_number_open past.now number }
{
    match item_at(past, number) {
        Some(item) => is_open(past, item, number),
        None => false,
    }
}

/// What the worker started last.
#[tactic(auto, using(crate::proofs::Parts::ends, crate::proofs::PastSteps::last_start_steps))]
fn last_start(past: &Past<'_>, worker: WorkerId) -> Option<Number>
    ensures { result ≡ last_start past.now worker }
{
    let mut last = None;
    for k in 0..past.len() {
        let entry = past.at(k);
        let number = entry.reply.number_started();
        if is_by(Who::Worker(worker), &entry) && number.is_some() {
            last = number;
        }
    }
    last
}

/// The worker's run: what it started last, while that is open.
pub fn run(past: &Past<'_>, worker: WorkerId) -> Option<Number>
    ensures { result ≡ run past.now worker }
{
    let number = last_start(past, worker)?;
    if is_number_open(past, number) {
        Some(number)
    } else {
        None
    }
}

/// Whether the worker has a run.
pub fn has_run(past: &Past<'_>, worker: WorkerId) -> bool
    ensures { result ≡ has_run past.now worker }
{
    run(past, worker).is_some()
}

fn asleep_after(reply: Reply, asleep: bool) -> bool
    ensures { result ≡ asleep_after reply asleep }
{
    match reply {
        Reply::Started(_) | Reply::StartedEnlist(_, _) | Reply::Woke => false,
        Reply::Slept => true,
        _ => asleep,
    }
}

/// Whether of the worker's answers started, slept and woke the last is slept.
#[tactic(auto, using(crate::proofs::Parts::ends, crate::proofs::PastSteps::asleep_steps))]
fn is_asleep(past: &Past<'_>, worker: WorkerId) -> bool
    ensures { result ≡ is_asleep past.now worker }
{
    let mut asleep = false;
    for k in 0..past.len() {
        let entry = past.at(k);
        if is_by(Who::Worker(worker), &entry) {
            asleep = asleep_after(entry.reply, asleep);
        }
    }
    asleep
}

/// Whether the worker has a run that is awake.
pub fn runs_awake(past: &Past<'_>, worker: WorkerId) -> bool
    ensures { result ≡ runs_awake past.now worker }
{
    has_run(past, worker) && !is_asleep(past, worker)
}

/// Whether the worker has a run that sleeps.
pub fn runs_asleep(past: &Past<'_>, worker: WorkerId) -> bool
    ensures { result ≡ runs_asleep past.now worker }
{
    has_run(past, worker) && is_asleep(past, worker)
}

fn start_in(entry: &Entry) -> Option<Start>
    ensures { result ≡ start_in entry.now }
{
    match entry.who {
        Who::Caller(_) => None,
        Who::Worker(worker) => {
            let number = entry.reply.number_started()?;
            Some(Start { worker, number })
        }
    }
}

fn starts_item(past: &Past<'_>, entry: &Entry, item: u16) -> bool
    ensures { result ≡ starts_item past.now entry.now item }
{
    match start_in(entry) {
        None => false,
        Some(start) => match item_at(past, start.number) {
            None => false,
            Some(other) => other == item,
        },
    }
}

#[tactic(auto, using(crate::proofs::Parts::ends, crate::proofs::PastSteps::item_start_steps))]
fn item_start(past: &Past<'_>, item: u16) -> Option<Start>
    ensures { result ≡ item_start past.now item }
{
    let mut last = None;
    for k in 0..past.len() {
        let entry = past.at(k);
        if starts_item(&past.before(k), &entry, item) {
            last = start_in(&entry);
        }
    }
    last
}

/// The item's run: its last start, while the queueing is open.
pub fn item_run(past: &Past<'_>, item: u16) -> Option<Start>
    ensures { result ≡ item_run past.now item }
{
    let start = item_start(past, item)?;
    if is_open(past, item, start.number) {
        Some(start)
    } else {
        None
    }
}

/// Whether the item has a run.
pub fn item_runs(past: &Past<'_>, item: u16) -> bool
    ensures { result ≡ item_runs past.now item }
{
    item_run(past, item).is_some()
}
