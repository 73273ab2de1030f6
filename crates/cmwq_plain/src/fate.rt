ghost use Rattle.std.specs.Prelude.{◌≡◌};
ghost use Rattle.cmwq_model.specs.Prelude.{is_started, is_finished, is_cancelled, is_open};

use crate::entries::{finishes, is_of_item, replaces, starts, takes_back};
use crate::past::Past;
use cmwq_model::Number;

/// Whether the queueing with this number has started.
#[tactic(auto, using(crate::proofs::Parts::ends))]
pub fn is_started(past: &Past<'_>, number: Number) -> bool
    ensures { result ≡ is_started past.now number }
{
    let mut started = false;
    for k in 0..past.len() {
        started = starts(number, &past.at(k)) || started;
    }
    started
}

/// Whether the queueing with this number has finished.
#[tactic(auto, using(crate::proofs::Parts::ends))]
pub fn is_finished(past: &Past<'_>, number: Number) -> bool
    ensures { result ≡ is_finished past.now number }
{
    let mut finished = false;
    for k in 0..past.len() {
        finished = finishes(number, &past.at(k)) || finished;
    }
    finished
}

/// Whether the queueing of this item with this number was cancelled: by its number, or by being replaced before it
/// had started.
#[tactic(auto, using(crate::proofs::Parts::ends, crate::proofs::PastSteps::cancelled_steps))]
pub fn is_cancelled(past: &Past<'_>, item: u16, number: Number) -> bool
    ensures { result ≡ is_cancelled past.now item number }
{
    let mut cancelled = false;
    let mut started = false;
    for k in 0..past.len() {
        let entry = past.at(k);
        let replaced = replaces(entry.reply)
            && is_of_item(item, &entry)
            && (number as usize) < k
            && !started;
        cancelled = cancelled || takes_back(number, &entry) || replaced;
        started = starts(number, &entry) || started;
    }
    cancelled
}

/// Whether the queueing of this item with this number is neither finished nor cancelled.
pub fn is_open(past: &Past<'_>, item: u16, number: Number) -> bool
    ensures { result ≡ is_open past.now item number }
{
    (number as usize) < past.len()
        && !is_finished(past, number)
        && !is_cancelled(past, item, number)
}
