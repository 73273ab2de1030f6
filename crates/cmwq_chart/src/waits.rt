//! Waits of callers, in rows.
ghost use Rattle.std.specs.Prelude.{◌≡◌, ◌+◌, ◌≤◌, ◌++◌, length, option_map, None, OnOk};
ghost use Rattle.cmwq_model.specs.Prelude.{is_at};
ghost use Rattle.cmwq_chart.specs.CallerWaits as spec;

use crate::entries::{place_in, push_if_some};
use cmwq_model::{Call, CallerId, Entry, Number, Reply};
use std::alloc::AllocError;

/// A wait of a caller, in a row of its own where several overlap: the places of the entries that gave its ticket and
/// that ended it. One that has not ended has only the first.
#[derive(Clone, Copy)]
pub struct CallerWait {
    pub caller: CallerId,
    pub row: u32,
    pub from: u32,
    pub to: Option<u32>,
}

/// An entry that asks for the end of a wait, and whether that is done then.
#[derive(Clone, Copy)]
pub struct WaitSign {
    pub caller: CallerId,
    pub row: u32,
    pub at: u32,
    pub is_done: bool,
}

/// A caller, and in how many rows its waits stand.
#[derive(Clone, Copy)]
pub struct CallerLane {
    pub caller: CallerId,
    pub rows: u8,
}

/// The first row that is free, or the number of rows.
#[tactic(auto, unfolding(crate::specs::CallerWaits::free_row))]
fn free_row(rows: &[Option<u32>]) -> usize
    ensures row { result ≡ spec.free_row rows.now }
    ensures within { result ≤ length rows.now }
{
    match rows {
        [] => 0,
        [None, ..] => 0,
        [Some(_), others @ ..] => 1 + free_row(others),
    }
}

/// The row in which a ticket waits, or the number of rows.
#[tactic(auto, unfolding(crate::specs::CallerWaits::ticket_row))]
fn ticket_row(rows: &[Option<u32>], ticket: Number) -> usize
    ensures row { result ≡ spec.ticket_row rows.now ticket }
    ensures within { result ≤ length rows.now }
{
    match rows {
        [] => 0,
        [first, others @ ..] => {
            if is_ticket(*first, ticket) {
                0
            } else {
                1 + ticket_row(others, ticket)
            }
        }
    }
}

/// Whether this ticket waits in a row.
fn is_ticket(row: Option<u32>, ticket: Number) -> bool
    ensures { result ≡ is_at row ticket }
{
    match row {
        Some(place) => u64::from(place) == ticket,
        None => false,
    }
}

/// Begins a wait in the first row that is free, or in one more.
fn begin_in_row(rows: &mut Vec<Option<u32>>, place: u32) -> Result<(), AllocError>
    ensures rows { OnOk result (rows.new.items ≡ spec.begun_in_row rows.old.items place) }
    ensures few { OnOk result (length rows.new.items ≤ length rows.old.items + 1) }
{
    let row = free_row(rows);
    if row < rows.len() {
        rows[row] = Some(place);
    } else {
        rows.push(Some(place))?;
    }
    Ok(())
}

/// Leaves a row, if there is it.
fn leave_row(rows: &mut Vec<Option<u32>>, row: usize)
    ensures rows { rows.new.items ≡ spec.left_row rows.old.items row }
    ensures same { length rows.new.items ≡ length rows.old.items }
{
    if row < rows.len() {
        rows[row] = None;
    }
}

/// The ticket whose end a call asks for.
fn end_asked(call: Call) -> Option<Number>
    ensures { result ≡ spec.end_asked call }
{
    match call {
        Call::End { ticket } => Some(ticket),
        _ => None,
    }
}

/// The ticket that an entry ends.
fn number_done(entry: Entry) -> Option<Number>
    ensures { result ≡ spec.number_done entry }
{
    if entry.reply.is_done() {
        end_asked(entry.call)
    } else {
        None
    }
}

/// Takes the rows of a caller beyond an entry of its own at this place.
pub(crate) fn update_rows(
    rows: &mut Vec<Option<u32>>,
    entry: Entry,
    place: u32,
) -> Result<(), AllocError>
    ensures rows { OnOk result (rows.new.items ≡ spec.rows_after entry place rows.old.items) }
    ensures few { OnOk result (length rows.new.items ≤ length rows.old.items + 1) }
{
    if entry.reply.gives_ticket() {
        return begin_in_row(rows, place);
    }
    if let Some(ticket) = number_done(entry) {
        let row = ticket_row(rows, ticket);
        leave_row(rows, row);
    }
    Ok(())
}

/// The wait in a row, if there is such a row and a ticket waits there.
fn wait_in_row(
    rows: &[Option<u32>],
    caller: CallerId,
    row: usize,
    to: Option<u32>,
) -> Option<CallerWait>
    requires few { length rows.now ≤ 4294967295 }
    requires within { row ≤ length rows.now }
    ensures { result ≡ option_map (spec.wait_in caller row to) (spec.ticket_in_row rows.now row) }
{
    let from = place_in(rows, row)?;
    Some(CallerWait {
        caller,
        row: row as u32,
        from,
        to,
    })
}

/// The wait that an entry of the caller at this place ends.
pub(crate) fn wait_ended_in(
    rows: &[Option<u32>],
    entry: Entry,
    caller: CallerId,
    place: u32,
) -> Option<CallerWait>
    requires { length rows.now ≤ 4294967295 }
    ensures { result ≡ spec.wait_ended_in rows.now entry caller place }
{
    let ticket = number_done(entry)?;
    wait_in_row(rows, caller, ticket_row(rows, ticket), Some(place))
}

/// Whether the reply is one to the end of a wait.
fn is_end_answer(reply: Reply) -> bool
    ensures { result ≡ spec.is_end_answer reply }
{
    matches!(reply, Reply::Done | Reply::Waiting(_))
}

/// The sign in a row of an entry of the caller at this place.
fn sign_on(
    rows: &[Option<u32>],
    entry: Entry,
    caller: CallerId,
    place: u32,
    row: usize,
) -> Option<WaitSign>
    requires few { length rows.now ≤ 4294967295 }
    requires within { row ≤ length rows.now }
    ensures { result ≡ spec.sign_on rows.now entry caller place row }
{
    place_in(rows, row)?;
    Some(WaitSign {
        caller,
        row: row as u32,
        at: place,
        is_done: entry.reply.is_done(),
    })
}

/// The sign of an entry of the caller at this place.
pub(crate) fn wait_sign_in(
    rows: &[Option<u32>],
    entry: Entry,
    caller: CallerId,
    place: u32,
) -> Option<WaitSign>
    requires { length rows.now ≤ 4294967295 }
    ensures { result ≡ spec.wait_sign_in rows.now entry caller place }
{
    if !is_end_answer(entry.reply) {
        return None;
    }
    let ticket = end_asked(entry.call)?;
    sign_on(rows, entry, caller, place, ticket_row(rows, ticket))
}

/// Adds the waits that go on in these rows after the others.
pub(crate) fn push_left(
    waits: &mut Vec<CallerWait>,
    rows: &[Option<u32>],
    caller: CallerId,
) -> Result<(), AllocError>
    requires { length rows.now ≤ 4294967295 }
    ensures { OnOk result (waits.new.items ≡ waits.old.items ++ spec.waits_left rows.now caller) }
{
    for row in 0..rows.len() {
        push_if_some(waits, wait_in_row(rows, caller, row, None))?;
    }
    Ok(())
}
