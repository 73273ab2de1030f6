ghost use Rattle.std.specs.Prelude.{◌≡◌, ◌<◌, ◌+◌, ◌++◌, length, option_to_list};
ghost use Rattle.cmwq_model.specs.Prelude.{tickets, ends, is_unended, cancels_sync, drains, destroys, flushes};
ghost use Rattle.cmwq_model.specs.Prelude.{is_cancelling, is_draining, is_being_destroyed, ends_destroy, is_gone};
ghost use Rattle.cmwq_model.specs.Prelude.{is_held_by, is_crowded, ticket_of};
ghost use Rattle.cmwq_plain.specs.Past.{upto, unended_upto};

use crate::entries::is_by;
use crate::past::Past;
use cmwq_model::{Call, Entry, Number, Reply, Ticket, Who};

/// Whether the entry ends the ticket.
fn ends(ticket: &Ticket, entry: &Entry) -> bool
    ensures { result ≡ ends ticket.now entry.now }
{
    is_by(Who::Caller(ticket.caller), entry)
        && matches!(entry.call, Call::End { ticket: number } if number == ticket.number)
        && matches!(entry.reply, Reply::Done)
}

/// Whether the ticket is unended.
#[tactic(auto, using(crate::proofs::Parts::ends))]
pub fn is_unended(past: &Past<'_>, ticket: &Ticket) -> bool
    ensures { result ≡ is_unended past.now ticket.now }
{
    let mut ended = false;
    for k in 0..past.len() {
        ended = ends(ticket, &past.at(k)) || ended;
    }
    !ended
}

/// The ticket that the entry with this number gave.
#[tactic(auto, using(crate::proofs::Parts::ends, crate::proofs::PastSteps::tickets_step))]
fn ticket_at(past: &Past<'_>, number: usize) -> Option<Ticket>
    requires { number < length past.now }
    ensures { tickets (upto past.now (number + 1))
        ≡ tickets (upto past.now number) ++ option_to_list result }
{
    past.at(number).ticket(number as u64)
}

/// The ticket that the entry with this number gave, if it is unended.
#[tactic(auto, using(cmwq_lemmas::proofs::Pushed::filter_push), unfolding(crate::specs::Past::unended_upto))]
pub fn unended_at(past: &Past<'_>, number: usize) -> Option<Ticket>
    requires { number < length past.now }
    ensures { unended_upto past.now (number + 1)
        ≡ unended_upto past.now number ++ option_to_list result }
{
    match ticket_at(past, number) {
        None => None,
        Some(ticket) => {
            if is_unended(past, &ticket) {
                Some(ticket)
            } else {
                None
            }
        }
    }
}

/// Whether a cancel_sync of the item is unended.
#[tactic(auto, using(cmwq_lemmas::proofs::Pushed::any_push, crate::proofs::PastSteps::unended_ends))]
pub fn is_cancelling(past: &Past<'_>, item: u16) -> bool
    ensures { result ≡ is_cancelling past.now item }
{
    let mut cancelling = false;
    for k in 0..past.len() {
        if let Some(ticket) = unended_at(past, k) {
            if cancels_sync(item, ticket.call) {
                cancelling = true;
            }
        }
    }
    cancelling
}

fn cancels_sync(item: u16, call: Call) -> bool
    ensures { result ≡ cancels_sync item call }
{
    match call {
        Call::CancelSync { item: other } => other.0 == item,
        _ => false,
    }
}

/// Whether a drain of the queue is unended.
#[tactic(auto, using(cmwq_lemmas::proofs::Pushed::any_push, crate::proofs::PastSteps::unended_ends))]
pub fn is_draining(past: &Past<'_>, queue: u8) -> bool
    ensures { result ≡ is_draining past.now queue }
{
    let mut draining = false;
    for k in 0..past.len() {
        if let Some(ticket) = unended_at(past, k) {
            if drains(queue, ticket.call) {
                draining = true;
            }
        }
    }
    draining
}

fn drains(queue: u8, call: Call) -> bool
    ensures { result ≡ drains queue call }
{
    match call {
        Call::Drain { queue: other } | Call::Destroy { queue: other } => other.0 == queue,
        _ => false,
    }
}

/// Whether a destroy of the queue is unended.
#[tactic(auto, using(cmwq_lemmas::proofs::Pushed::any_push, crate::proofs::PastSteps::unended_ends))]
pub fn is_being_destroyed(past: &Past<'_>, queue: u8) -> bool
    ensures { result ≡ is_being_destroyed past.now queue }
{
    let mut destroying = false;
    for k in 0..past.len() {
        if let Some(ticket) = unended_at(past, k) {
            if destroys(queue, ticket.call) {
                destroying = true;
            }
        }
    }
    destroying
}

fn destroys(queue: u8, call: Call) -> bool
    ensures { result ≡ destroys queue call }
{
    match call {
        Call::Destroy { queue: other } => other.0 == queue,
        _ => false,
    }
}

/// Whether the call asks for the end of an unended destroy of the queue.
fn ends_destroy(past: &Past<'_>, queue: u8, who: Who, call: Call) -> bool
    ensures { result ≡ ends_destroy past.now queue who call }
{
    match call {
        Call::End { ticket } => match ticket_of(past, who, ticket) {
            Some(ticket) => destroys(queue, ticket.call),
            None => false,
        },
        _ => false,
    }
}

/// Whether the queue is gone: the end of a destroy of it was answered done.
#[tactic(auto, using(crate::proofs::Parts::ends, crate::proofs::PastSteps::gone_steps))]
pub fn is_gone(past: &Past<'_>, queue: u8) -> bool
    ensures { result ≡ is_gone past.now queue }
{
    let mut gone = false;
    for k in 0..past.len() {
        let entry = past.at(k);
        gone = gone
            || (matches!(entry.reply, Reply::Done)
                && ends_destroy(&past.before(k), queue, entry.who, entry.call));
    }
    gone
}

/// Whether such a call flushes the queue.
pub fn flushes(queue: u8, call: Call) -> bool
    ensures { result ≡ flushes queue call }
{
    match call {
        Call::Flush { queue: other } => other.0 == queue,
        _ => false,
    }
}

fn is_held_by(who: Who, ticket: &Ticket) -> bool
    ensures { result ≡ is_held_by who ticket.now }
{
    match who {
        Who::Caller(caller) => ticket.caller.0 == caller.0,
        Who::Worker(_) => false,
    }
}

/// Whether the caller has as many unended tickets as it may have.
#[tactic(auto, using(cmwq_lemmas::proofs::Pushed::count_push, crate::proofs::PastSteps::unended_ends))]
pub fn is_crowded(past: &Past<'_>, who: Who) -> bool
    ensures { result ≡ is_crowded past.now who }
{
    let mut count: usize = 0;
    for k in 0..past.len() {
        if let Some(ticket) = unended_at(past, k) {
            if is_held_by(who, &ticket) {
                count += 1;
            }
        }
    }
    64 <= count
}

/// This caller's unended ticket with this number.
#[tactic(auto, using(cmwq_lemmas::proofs::Pushed::find_push, crate::proofs::PastSteps::unended_ends))]
pub fn ticket_of(past: &Past<'_>, who: Who, number: Number) -> Option<Ticket>
    ensures { result ≡ ticket_of past.now who number }
{
    let mut found = None;
    for k in 0..past.len() {
        if let Some(ticket) = unended_at(past, k) {
            if found.is_none() && ticket.number == number && is_held_by(who, &ticket) {
                found = Some(ticket);
            }
        }
    }
    found
}
