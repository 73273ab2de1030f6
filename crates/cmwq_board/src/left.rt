//! The tickets that were left: unended ones by which nobody waits any more.

ghost use Rattle.std.specs.Prelude.{◌≡◌, ◌<◌, Contains, true};
ghost use Rattle.std.specs.List.{list_any, range_with_len};
ghost use Rattle.cmwq_model.specs.Prelude.{IsLegal, has_numbers, past_of, unended_tickets};
ghost use Rattle.cmwq_board.specs.Left.{flushes, has_its_numbers, has_newer, is_as_good, is_newer, is_sought};
ghost use Rattle.cmwq_board.specs.Left.{same_wait, sought_of};

use crate::lending::Lending;
use cmwq_model::{Call, CallerId, ItemId, Number, Queueing, Ticket};
use cmwq_state::State;

/// What is sought among the tickets that were left.
#[derive(Clone, Copy)]
pub(crate) enum Sought {
    /// Any.
    Any,
    /// One that is ready.
    Ready,
    /// One that is as good to wait by as a new one of this call, of a caller by which nobody waits.
    For(Call),
}

/// Whether two waits have the same goal.
fn same_wait(call: Call, other: Call) -> bool
    ensures { result ≡ same_wait call other }
{
    match (call, other) {
        (Call::Flush { queue }, Call::Flush { queue: of })
        | (Call::Drain { queue }, Call::Drain { queue: of })
        | (Call::Destroy { queue }, Call::Destroy { queue: of }) => queue.0 == of.0,
        (Call::FlushItem { item }, Call::FlushItem { item: of })
        | (Call::FlushDelayed { item }, Call::FlushDelayed { item: of })
        | (Call::CancelSync { item }, Call::CancelSync { item: of }) => item.0 == of.0,
        _ => false,
    }
}

/// Whether a flush by this call is for the queueing.
fn flushes(call: Call, queueing: Queueing) -> bool
    ensures { result ≡ flushes call queueing }
{
    match call {
        Call::Flush { queue } => queueing.place.queue.0 == queue.0,
        Call::FlushItem { item } | Call::FlushDelayed { item } => queueing.item.0 == item.0,
        _ => false,
    }
}

/// Whether a flush by this call is for the queueing, which was queued after this number.
fn is_newer(call: Call, number: Number, queueing: Queueing) -> bool
    ensures { result ≡ is_newer call number queueing }
{
    flushes(call, queueing) && number < queueing.number
}

/// Whether something of the item was queued after this number that a flush by this call is for.
fn has_newer(state: &State, call: Call, number: Number, item: ItemId) -> bool
    requires { item.0 < state.now.layout.items }
    ensures { result ≡ has_newer (past_of state.now.entries) call number item.0 }
{
    let runs = match state.item_run(item) {
        Some(queueing) => is_newer(call, number, queueing),
        None => false,
    };
    let queued = match state.unstarted(item) {
        Some(queueing) => is_newer(call, number, queueing),
        None => false,
    };
    runs || queued
}

/// Whether something was queued after this number that a flush by this call is for.
fn any_has_newer(state: &State, items: u16, call: Call, number: Number) -> bool
    requires { items ≡ state.now.layout.items }
    ensures { result ≡ list_any (has_newer (past_of state.now.entries) call number) (range_with_len 0 items) }
{
    (0..items).any(|item| has_newer(state, call, number, ItemId(item)))
}

/// Whether a new wait by this call would wait for nothing more than one with the ticket of this number, and would
/// neither queue nor cancel anything.
fn is_as_good(state: &State, items: u16, call: Call, number: Number) -> bool
    requires numbers { has_numbers state.now.layout call ≡ true }
    requires items { items ≡ state.now.layout.items }
    ensures { result ≡ is_as_good state.now.layout (past_of state.now.entries) call number }
{
    match call {
        Call::Flush { .. } => !any_has_newer(state, items, call, number),
        Call::FlushItem { item } => !has_newer(state, call, number, item),
        Call::FlushDelayed { item } => {
            !state.is_booked(item) && !has_newer(state, call, number, item)
        }
        Call::CancelSync { item } => !state.is_pending(item),
        Call::Drain { .. } | Call::Destroy { .. } => true,
        _ => false,
    }
}

/// Whether a ticket of a caller that does this is sought.
fn is_sought(state: &State, items: u16, lending: Lending, sought: Sought, ticket: Ticket) -> bool
    requires numbers { has_its_numbers state.now.layout sought ≡ true }
    requires items { items ≡ state.now.layout.items }
    requires unended { Contains (unended_tickets (past_of state.now.entries)) ticket }
    requires there { has_numbers state.now.layout ticket.call ≡ true }
    ensures { result ≡ is_sought state.now.layout (past_of state.now.entries) lending sought ticket }
{
    match sought {
        Sought::Any => !lending.waits_by(ticket),
        Sought::Ready => !lending.waits_by(ticket) && state.waits_for(ticket).is_none(),
        Sought::For(call) => {
            lending.is_free()
                && same_wait(ticket.call, call)
                && is_as_good(state, items, call, ticket.number)
        }
    }
}

/// The first ticket of a caller that does this which is sought.
pub(crate) fn sought_of(
    state: &State,
    items: u16,
    caller: CallerId,
    lending: Lending,
    sought: Sought,
) -> Option<Ticket>
    requires numbers { has_its_numbers state.now.layout sought ≡ true }
    requires items { items ≡ state.now.layout.items }
    requires caller { caller.0 < state.now.layout.callers }
    requires legal { IsLegal state.now.layout (past_of state.now.entries) }
    ensures { result ≡ sought_of state.now.layout (past_of state.now.entries) caller.0 lending sought }
{
    let _most = state.number();
    let mut index = 0;
    while let Some(ticket) = state.unended(caller, index) {
        if is_sought(state, items, lending, sought, ticket) {
            return Some(ticket);
        }
        index += 1;
    }
    None
}
