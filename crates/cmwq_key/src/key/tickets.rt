//! Unended tickets, in a key.

ghost use Rattle.std.specs.Prelude.{◌≡◌, ◌++◌, true, All, Contains, IfOk};
ghost use Rattle.cmwq_model.specs.Prelude.{has_numbers, holds_up, past_of, still_open, unended_tickets};
ghost use Rattle.cmwq_model.specs.declared.call.Call.TheVariants as call;
ghost use Rattle.cmwq_key.specs.Codes.{codes, told_flag, told_list};
ghost use Rattle.cmwq_key.specs.Keys as spec;
ghost use Rattle.cmwq_key.specs.Numbered.{gathered};

use crate::key::Key;
use crate::key::codes::{push, push_all, push_flag};
use crate::key::numbered::Numbered;
use cmwq_kinds::numbers_of_call;
use cmwq_model::{Call, QueueId, Queueing, Ticket};
use cmwq_state::State;
use std::alloc::AllocError;

/// Writes whether a queueing holds up a ticket.
fn push_whether_held_up(
    key: &mut Key,
    state: &State,
    ticket: Ticket,
    queueing: Queueing,
) -> Result<(), AllocError>
    requires there { has_numbers state.now.layout ticket.call ≡ true }
    requires unended { Contains (unended_tickets (past_of state.now.entries)) ticket }
    requires open { Contains (still_open (past_of state.now.entries)) queueing }
    ensures { IfOk result (λ _. key.new.items ≡ key.old.items
        ++ codes (told_flag (holds_up (past_of state.now.entries) ticket.number ticket.call queueing))) }
{
    push_flag(key, state.holds_up(ticket, queueing))
}

/// Writes which of these queueings hold up a ticket.
#[tactic(auto, unfolding(crate::specs::Keys::told_held_up))]
fn push_held_up(
    key: &mut Key,
    state: &State,
    ticket: Ticket,
    queueings: &[Queueing],
) -> Result<(), AllocError>
    requires there { has_numbers state.now.layout ticket.call ≡ true }
    requires unended { Contains (unended_tickets (past_of state.now.entries)) ticket }
    requires open { All (λ x. Contains (still_open (past_of state.now.entries)) x) queueings.now }
    ensures { IfOk result (λ _. key.new.items
        ≡ key.old.items ++ codes (spec.told_held_up (past_of state.now.entries) ticket queueings.now)) }
{
    push(key, queueings.len() as u64)?;
    for queueing in queueings {
        push_whether_held_up(key, state, ticket, *queueing)?;
    }
    Ok(())
}

/// Writes whether a flush of the queue is served, and by what it is held up.
#[tactic(auto, using(crate::proofs::Coding::codes_more), unfolding(crate::specs::Keys::told_flush))]
fn push_flush(
    key: &mut Key,
    state: &State,
    numbered: &Numbered,
    ticket: Ticket,
    queue: QueueId,
) -> Result<(), AllocError>
    requires call { ticket.call ≡ call.Flush queue }
    requires there { has_numbers state.now.layout ticket.call ≡ true }
    requires unended { Contains (unended_tickets (past_of state.now.entries)) ticket }
    requires unstarted { All (λ x. Contains (still_open (past_of state.now.entries)) x) numbered.now.unstarted }
    requires running { All (λ x. Contains (still_open (past_of state.now.entries)) x) numbered.now.running }
    ensures { IfOk result (λ _. key.new.items ≡ key.old.items
        ++ codes (spec.told_flush (past_of state.now.entries) numbered.now ticket (call.Flush queue))) }
{
    push_flag(key, state.is_flush_served(queue, ticket))?;
    push_held_up(key, state, ticket, numbered.unstarted())?;
    push_held_up(key, state, ticket, numbered.running())?;
    Ok(())
}

/// Writes more of a flush. Of other tickets that follows from the rest.
fn push_if_flush(
    key: &mut Key,
    state: &State,
    numbered: &Numbered,
    ticket: Ticket,
) -> Result<(), AllocError>
    requires numbered { numbered.now ≡ gathered state.now.layout (past_of state.now.entries) }
    requires unended { Contains (unended_tickets (past_of state.now.entries)) ticket }
    ensures { IfOk result (λ _. key.new.items
        ≡ key.old.items ++ codes (spec.told_flush (past_of state.now.entries) numbered.now ticket ticket.call)) }
{
    // it shows that the history is legal, so that its tickets fit its shape
    let _length = state.len();
    match ticket.call {
        Call::Flush { queue } => push_flush(key, state, numbered, ticket, queue),
        _ => Ok(()),
    }
}

#[tactic(auto, using(crate::proofs::Coding::codes_more))]
fn push_ticket(
    key: &mut Key,
    state: &State,
    numbered: &Numbered,
    ticket: Ticket,
) -> Result<(), AllocError>
    requires numbered { numbered.now ≡ gathered state.now.layout (past_of state.now.entries) }
    requires unended { Contains (unended_tickets (past_of state.now.entries)) ticket }
    ensures { IfOk result (λ _. key.new.items
        ≡ key.old.items ++ codes (spec.told_ticket (past_of state.now.entries) numbered.now ticket)) }
{
    push_all(
        key,
        &[numbered.rank(ticket.number), u64::from(ticket.caller.0)],
    )?;
    push_all(key, &numbers_of_call(ticket.call))?;
    push_if_flush(key, state, numbered, ticket)
}

/// Writes the unended tickets.
pub(super) fn push_all_tickets(
    key: &mut Key,
    state: &State,
    numbered: &Numbered,
    all: &[Ticket],
) -> Result<(), AllocError>
    requires numbered { numbered.now ≡ gathered state.now.layout (past_of state.now.entries) }
    requires unended { All (λ t. Contains (unended_tickets (past_of state.now.entries)) t) all.now }
    ensures { IfOk result (λ _. key.new.items ≡ key.old.items
        ++ codes (told_list (spec.told_ticket (past_of state.now.entries) numbered.now) all.now)) }
{
    push(key, all.len() as u64)?;
    for ticket in all {
        push_ticket(key, state, numbered, *ticket)?;
    }
    Ok(())
}
