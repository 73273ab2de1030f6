ghost use Rattle.std.specs.Prelude.{◌≡◌, Option};
ghost use Rattle.cmwq_model.specs.Prelude.{is_served_after, serving_from, is_within, holds_up, least_waited, waits_for};
ghost use Rattle.cmwq_plain.specs.Partial.{served_by};

use crate::past::Past;
use crate::queueings::open_at;
use crate::runs::item_run;
use crate::tickets::{flushes, unended_at};
use cmwq_model::{Call, Number, Queueing};

/// Whether fewer than 15 older flushes of the queue are unended.
#[tactic(auto, using(cmwq_lemmas::proofs::Pushed::count_push, crate::proofs::PastSteps::unended_ends))]
fn is_served_after(past: &Past<'_>, queue: u8, number: Number) -> bool
    ensures { result ≡ is_served_after past.now queue number }
{
    let mut count: usize = 0;
    for k in 0..past.len() {
        if let Some(ticket) = unended_at(past, k) {
            if flushes(queue, ticket.call) && ticket.number < number {
                count += 1;
            }
        }
    }
    count < 15
}

/// The position from which the flush with this number is served.
#[tactic(auto, using(crate::proofs::Parts::ends, crate::proofs::Steps::served_steps))]
fn served(past: &Past<'_>, queue: u8, number: Number) -> Option<Number>
    ensures { result ≡ serving_from past.now queue number }
{
    let mut found = None;
    for k in 0..past.len() {
        if found.is_none()
            && (number as usize) <= k
            && is_served_after(&past.before(k + 1), queue, number)
        {
            found = Some(k as u64);
        }
    }
    found
}

fn served_by(past: &Past<'_>, number: Number, call: Call) -> Option<Number>
    ensures { result ≡ served_by past.now number call }
{
    match call {
        Call::Flush { queue } => served(past, queue.0, number),
        _ => None,
    }
}

fn is_within(bound: Option<Number>, number: Number) -> bool
    ensures { result ≡ is_within bound number }
{
    match bound {
        Some(last) => number <= last,
        None => true,
    }
}

/// Whether the ticket of this number waits for the queueing.
fn holds_up(
    past: &Past<'_>,
    bound: Option<Number>,
    number: Number,
    call: Call,
    queueing: &Queueing,
) -> bool
    requires { bound ≡ served_by past.now number call }
    ensures { result ≡ holds_up past.now number call queueing.now }
{
    match call {
        Call::Flush { queue } => {
            queueing.place.queue.0 == queue.0 && is_within(bound, queueing.number)
        }
        Call::Drain { queue } | Call::Destroy { queue } => queueing.place.queue.0 == queue.0,
        Call::FlushItem { item } | Call::FlushDelayed { item } => {
            queueing.item.0 == item.0 && queueing.number <= number
        }
        _ => false,
    }
}

/// The least queueing that the ticket waits for.
#[tactic(auto, using(cmwq_lemmas::proofs::Pushed::find_push, crate::proofs::PastSteps::open_ends))]
fn least_waited(past: &Past<'_>, number: Number, call: Call) -> Option<Number>
    ensures { result ≡ least_waited past.now number call }
{
    let bound = served_by(past, number, call);
    let mut found: Option<Queueing> = None;
    for k in 0..past.len() {
        if let Some(queueing) = open_at(past, k) {
            if found.is_none() && holds_up(past, bound, number, call, &queueing) {
                found = Some(queueing);
            }
        }
    }
    Some(found?.number)
}

/// What the ticket of this number still waits for.
pub fn waits_for(past: &Past<'_>, number: Number, call: Call) -> Option<Number>
    ensures { result ≡ waits_for past.now number call }
{
    match call {
        Call::CancelSync { item } => Some(item_run(past, item.0)?.number),
        _ => least_waited(past, number, call),
    }
}
