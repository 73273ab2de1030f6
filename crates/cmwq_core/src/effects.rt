//! The entry of a call, and what an entry does, found before it is appended.

ghost use Rattle.std.specs.Prelude.{◌≡◌, ◌<◌, ◌≤◌, ◌∷◌, false, length, true};
ghost use Rattle.std.specs.Option.{option_map_or};
ghost use Rattle.cmwq_model.specs.Prelude.{fits, owed, booking_of, is_booked, item_number, item_of, IsLegal, past_of};
ghost use Rattle.cmwq_model.specs.Prelude.{opening, place_wanted};
ghost use Rattle.cmwq_model.specs.Prelude.{queued_at, unstarted_queueing};
ghost use Rattle.cmwq_theory_steps.specs.Endings.{ending};
ghost use Rattle.cmwq_theory_steps.specs.Histories.{one};
ghost use Rattle.cmwq_theory_steps.specs.RoomSteps.{settles_booked};
ghost use Rattle.cmwq_theory_steps.specs.TicketSteps.{ticket_asked, ticket_ended};
ghost use Rattle.cmwq_state.specs.Effects.{IsEffect, settled_by};
ghost use Rattle.cmwq_core.specs.Effects.{IsInside, ended_from, ends_early, paid_alone, taken_alone, next_for};
ghost use Rattle.cmwq_core.specs.Effects.{started_from};
ghost use Rattle.cmwq_core.specs.History.{next_entry};
ghost use Rattle.std.specs.Prelude.{option_and_then};
ghost use Rattle.cmwq_theory_steps.specs.ItemQueueings.{queueing_run};
ghost use Rattle.cmwq_refinement.specs.Flights.{starting};
ghost use Rattle.cmwq_state.specs.Tables as tables;

use crate::answers::answer;
use cmwq_model::{Booking, Call, Entry, ItemId, Place, Queueing, Reply, Ticket, Who};
use cmwq_state::{Effect, State};

/// The item that is booked anew, or no more.
#[inline(always)]
fn settled_by(entry: Entry) -> Option<ItemId>
    ensures { item_number result ≡ settled_by entry }
{
    if entry.reply.settles() {
        entry.item()
    } else {
        None
    }
}

/// Whether the reply ends a queueing that hasn't started.
#[inline(always)]
fn ends_early(reply: Reply, ended: Option<Queueing>) -> bool
    ensures { result ≡ ends_early reply ended }
{
    match reply {
        Reply::Finished(_) => false,
        _ => ended.is_some(),
    }
}

/// 1 or 0.
#[inline(always)]
fn one(test: bool) -> u64
    ensures one { result ≡ one test }
    ensures few { result ≤ 1 }
{
    if test { 1 } else { 0 }
}

#[inline(always)]
fn paid_alone(reply: Reply) -> u64
    ensures paid { result ≡ paid_alone reply }
    ensures few { result ≤ 2 }
{
    match reply {
        Reply::Started(_) | Reply::StartedEnlist(_, _) => 2,
        Reply::Finished(_) | Reply::Woke | Reply::Done | Reply::Thawed => 1,
        _ => 0,
    }
}

#[inline(always)]
fn taken_alone(reply: Reply) -> u64
    ensures taken { result ≡ taken_alone reply }
    ensures few { result ≤ 1 }
{
    if reply.gives_ticket() {
        return 1;
    }
    match reply {
        Reply::Started(_) | Reply::StartedEnlist(_, _) | Reply::Slept | Reply::Frozen => 1,
        _ => 0,
    }
}

/// What the caller or worker runs.
#[inline(always)]
fn run_of(state: &State, who: Who) -> Option<Queueing>
    requires { tables.IsThere state.now.layout who }
    ensures { result ≡ queueing_run (past_of state.now.entries) who }
{
    match who {
        Who::Worker(worker) => state.queueing_run(worker),
        Who::Caller(_) => None,
    }
}

/// The unstarted queueing of the entry's item.
#[inline(always)]
fn unstarted_of(state: &State, entry: Entry) -> Option<Queueing>
    requires { IsInside state.now.layout entry }
    ensures { result ≡ option_and_then (unstarted_queueing (past_of state.now.entries)) (item_of entry) }
{
    match entry.item() {
        Some(item) => state.unstarted(item),
        None => None,
    }
}

/// Of what the worker runs and the item's unstarted queueing, the one that the reply ends.
#[inline(always)]
fn ended_from(state: &State, entry: Entry) -> Option<Queueing>
    requires there { tables.IsThere state.now.layout entry.who }
    requires inside { IsInside state.now.layout entry }
    ensures { result ≡ ended_from entry.reply (queueing_run (past_of state.now.entries) entry.who)
        (option_and_then (unstarted_queueing (past_of state.now.entries)) (item_of entry)) }
{
    match entry.reply {
        Reply::Finished(_) => run_of(state, entry.who),
        Reply::Cancelled(_) | Reply::TicketCancelled(_, _) | Reply::Again(_) | Reply::Rebooked(_) =>
            unstarted_of(state, entry),
        _ => None,
    }
}

/// The queueing that an entry ends: that of its worker's run, or the item's unstarted one.
#[inline(always)]
pub(crate) fn ended_by(state: &State, entry: Entry) -> Option<Queueing>
    requires there { tables.IsThere state.now.layout entry.who }
    requires inside { IsInside state.now.layout entry }
    requires legal { IsLegal state.now.layout (entry ∷ past_of state.now.entries) }
    ensures { result ≡ ending (past_of state.now.entries) entry }
{
    ended_from(state, entry)
}

#[inline(always)]
fn next_for(state: &State, who: Who) -> Option<Queueing>
    requires { tables.IsThere state.now.layout who }
    ensures { result ≡ next_for state.now.layout (past_of state.now.entries) who }
{
    match who {
        Who::Worker(worker) => state.next_queueing(worker.pool),
        Who::Caller(_) => None,
    }
}

/// What is next for the worker, where the reply starts it.
#[inline(always)]
fn started_from(state: &State, entry: Entry) -> Option<Queueing>
    requires { tables.IsThere state.now.layout entry.who }
    ensures { result ≡ started_from entry.reply (next_for state.now.layout (past_of state.now.entries) entry.who) }
{
    match entry.reply {
        Reply::Started(_) | Reply::StartedEnlist(_, _) => next_for(state, entry.who),
        _ => None,
    }
}

/// The queueing that a take starts.
#[inline(always)]
fn started_by(state: &State, entry: Entry) -> Option<Queueing>
    requires there { tables.IsThere state.now.layout entry.who }
    requires legal { IsLegal state.now.layout (entry ∷ past_of state.now.entries) }
    ensures { result ≡ starting (past_of state.now.entries) entry }
{
    started_from(state, entry)
}

/// Where an item is to be queued: where the call says, or else its booking.
#[inline(always)]
fn place_wanted(state: &State, entry: Entry, item: ItemId) -> Option<Place>
    requires { item.0 < state.now.layout.items }
    ensures { result ≡ place_wanted (past_of state.now.entries) entry.call item.0 }
{
    match entry.call.place_called() {
        Some(place) => Some(place),
        None => state.timer(item).map(|timer| timer.place),
    }
}

/// The queueing of an item at a place: it goes to the CPU where the item runs.
#[inline(always)]
pub(crate) fn queued_at(state: &State, item: ItemId, place: Place) -> Queueing
    requires { item.0 < state.now.layout.items }
    ensures { result ≡ queued_at (past_of state.now.entries) item.0 place }
{
    let cpu = match state.item_run(item) {
        Some(run) => run.place.cpu,
        None => place.cpu,
    };
    Queueing {
        item,
        place: Place {
            queue: place.queue,
            cpu,
        },
        number: state.number(),
    }
}

/// The queueing that an entry opens.
#[inline(always)]
pub(crate) fn opened_by(state: &State, entry: Entry) -> Option<Queueing>
    requires { IsInside state.now.layout entry }
    ensures { result ≡ opening (past_of state.now.entries) entry }
{
    if !entry.reply.opens() {
        return None;
    }
    match entry.item() {
        None => None,
        Some(item) => match place_wanted(state, entry, item) {
            Some(place) => Some(queued_at(state, item, place)),
            None => None,
        },
    }
}

/// Whether the entry's item is booked.
#[inline(always)]
fn is_item_booked(state: &State, entry: Entry) -> bool
    requires { IsInside state.now.layout entry }
    ensures { result ≡ option_map_or (is_booked (past_of state.now.entries)) (item_of entry) false }
{
    match entry.item() {
        Some(item) => state.is_booked(item),
        None => false,
    }
}

/// Whether the entry settles an item that was booked.
#[inline(always)]
fn settles_booked(state: &State, entry: Entry) -> bool
    requires { IsInside state.now.layout entry }
    ensures { result ≡ settles_booked (past_of state.now.entries) entry }
{
    entry.reply.settles() && is_item_booked(state, entry)
}

/// The ticket that an entry ends.
#[inline(always)]
pub(crate) fn done_by(state: &State, entry: Entry) -> Option<Ticket>
    requires { tables.IsThere state.now.layout entry.who }
    ensures { result ≡ ticket_ended (past_of state.now.entries) entry }
{
    match entry.reply {
        Reply::Done => ticket_asked(state, entry.who, entry.call),
        _ => None,
    }
}

/// The ticket of which a call asks the end.
#[inline(always)]
fn ticket_asked(state: &State, who: Who, call: Call) -> Option<Ticket>
    requires { tables.IsThere state.now.layout who }
    ensures { result ≡ ticket_asked (past_of state.now.entries) who call }
{
    match call {
        Call::End { ticket } => state.ticket_of(who, ticket),
        _ => None,
    }
}

/// What is owed after an entry that ends, opens and books this.
#[inline(always)]
fn owed_with(
    state: &State,
    entry: Entry,
    ended: Option<Queueing>,
    opened: Option<Queueing>,
    booked: Option<Booking>,
) -> u64
    requires inside { IsInside state.now.layout entry }
    requires legal { IsLegal state.now.layout (entry ∷ past_of state.now.entries) }
    requires ended { ended ≡ ending (past_of state.now.entries) entry }
    requires opened { opened ≡ opening (past_of state.now.entries) entry }
    requires booked { booked ≡ booking_of entry (length (past_of state.now.entries)) }
    ensures { result ≡ owed state.now.layout (entry ∷ past_of state.now.entries) }
{
    let unbooked = settles_booked(state, entry);
    let taken = taken_alone(entry.reply) + 2 * one(opened.is_some()) + 3 * one(booked.is_some());
    let early = ends_early(entry.reply, ended);
    let paid = paid_alone(entry.reply) + 2 * one(early) + 3 * one(unbooked);
    state.owing() + taken - paid
}

/// The entry of the call.
#[inline(always)]
pub(crate) fn next_entry(state: &State, who: Who, call: Call) -> Entry
    requires fit { fits state.now.layout who call ≡ true }
    ensures entry { result ≡ next_entry state.now who call }
    ensures legal { IsLegal state.now.layout (result ∷ past_of state.now.entries) }
{
    let serial = state.serial(who);
    let reply = answer(state, who, call);
    Entry {
        who,
        serial,
        call,
        reply,
    }
}

/// What an entry does.
#[inline(always)]
pub(crate) fn effect_of(state: &State, entry: Entry) -> Effect
    requires legal { IsLegal state.now.layout (entry ∷ past_of state.now.entries) }
    ensures entry { result.entry ≡ entry }
    ensures is { IsEffect state.now.layout (past_of state.now.entries) result }
{
    let number = state.number();
    let ended = ended_by(state, entry);
    let started = started_by(state, entry);
    let opened = opened_by(state, entry);
    let booked = entry.booking(number);
    let owing = owed_with(state, entry, ended, opened, booked);
    Effect {
        entry,
        ended,
        started,
        opened,
        done: done_by(state, entry),
        begun: entry.ticket(number),
        settled: settled_by(entry),
        booked,
        owing,
    }
}
