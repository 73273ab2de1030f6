//! What has a number that matters: what is open, unended or booked; and the ranks of these numbers.

ghost use Rattle.std.specs.Prelude.{◌≡◌, ◌<◌, ◌≤◌, ◌++◌, ◌^◌, map, option_to_list, IfOk};
ghost use Rattle.cmwq_model.specs.Prelude.{booking, number_booked, past_of, unended_tickets, unstarted_queueing};
ghost use Rattle.cmwq_refinement.specs.Tickets.{tickets_held};
ghost use Rattle.cmwq_state.specs.Flights.{run_open};
ghost use Rattle.cmwq_key.specs.Numbered as spec;
ghost use Rattle.cmwq_key.specs.Numbered.{each_of};

use cmwq_model::{Booking, CallerId, ItemId, Number, Queueing, Ticket};
use cmwq_state::State;
use std::alloc::{AllocError, Global};
use std::marker::Model;

/// What has a number that matters.
#[derive(Drop)]
struct Lists {
    /// The open queueings that have not started, by their items.
    unstarted: Vec<Queueing>,
    /// Those that run, by their items.
    running: Vec<Queueing>,
    /// The unended tickets, by their callers.
    tickets: Vec<Ticket>,
    /// The bookings that stand, by their items.
    booked: Vec<Booking>,
}

/// The same, with the numbers.
#[derive(Drop)]
pub(super) struct Numbered {
    lists: Lists,
    /// The numbers of what is open or unended.
    numbers: Vec<Number>,
    /// Those of what is booked.
    booked: Vec<Number>,
}

impl Model for Numbered {
    ghost use Rattle.cmwq_key.specs.Numbered.{Gathered};

    ghost Value = { Gathered };

    ghost view = { λ n. record {
      unstarted = n.lists.unstarted.items;
      running = n.lists.running.items;
      tickets = n.lists.tickets.items;
      bookings = n.lists.booked.items;
      numbers = n.numbers.items;
      booked = n.booked.items;
    } };
}

/// Adds this one, if there is one.
fn push_some<T: Copy>(list: &mut Vec<T>, found: Option<T>) -> Result<(), AllocError>
    ensures { IfOk result (λ _. list.new.items ≡ list.old.items ++ option_to_list found) }
{
    if let Some(found) = found {
        list.push(found)?;
    }
    Ok(())
}

fn fill_unstarted(list: &mut Vec<Queueing>, state: &State, items: u16) -> Result<(), AllocError>
    requires { items ≤ state.now.layout.items }
    ensures { IfOk result (λ _. list.new.items ≡ each_of (unstarted_queueing (past_of state.now.entries)) items) }
{
    list.clear();
    for item in 0..items {
        push_some(list, state.unstarted(ItemId(item)))?;
    }
    Ok(())
}

fn fill_running(list: &mut Vec<Queueing>, state: &State, items: u16) -> Result<(), AllocError>
    requires { items ≤ state.now.layout.items }
    ensures { IfOk result (λ _. list.new.items ≡ each_of (run_open (past_of state.now.entries)) items) }
{
    list.clear();
    for item in 0..items {
        push_some(list, state.item_run(ItemId(item)))?;
    }
    Ok(())
}

/// The booking of an item.
fn booking_of(state: &State, item: ItemId) -> Option<Booking>
    requires { item.0 < state.now.layout.items }
    ensures { result ≡ booking (past_of state.now.entries) item.0 }
{
    let timer = state.timer(item)?;
    Some(Booking {
        item,
        place: timer.place,
        due: timer.due,
        number: timer.number,
    })
}

fn fill_booked(list: &mut Vec<Booking>, state: &State, items: u16) -> Result<(), AllocError>
    requires { items ≤ state.now.layout.items }
    ensures { IfOk result (λ _. list.new.items ≡ each_of (booking (past_of state.now.entries)) items) }
{
    list.clear();
    for item in 0..items {
        push_some(list, booking_of(state, ItemId(item)))?;
    }
    Ok(())
}

fn push_tickets_of(
    list: &mut Vec<Ticket>,
    state: &State,
    caller: CallerId,
) -> Result<(), AllocError>
    requires { caller.0 < state.now.layout.callers }
    ensures { IfOk result (λ _. list.new.items
        ≡ list.old.items ++ tickets_held (unended_tickets (past_of state.now.entries)) caller.0) }
{
    let before = list.len();
    while let Some(ticket) = state.unended(caller, list.len() - before) {
        list.push(ticket)?;
    }
    Ok(())
}

fn fill_tickets(list: &mut Vec<Ticket>, state: &State, callers: u8) -> Result<(), AllocError>
    requires { callers ≤ state.now.layout.callers }
    ensures { IfOk result (λ _. list.new.items ≡ spec.tickets_of (past_of state.now.entries) callers) }
{
    list.clear();
    for caller in 0..callers {
        push_tickets_of(list, state, CallerId(caller))?;
    }
    Ok(())
}

fn push_queueings(numbers: &mut Vec<Number>, queueings: &[Queueing]) -> Result<(), AllocError>
    ensures { IfOk result (λ _. numbers.new.items ≡ numbers.old.items ++ map spec.number_of queueings.now) }
{
    for queueing in queueings {
        numbers.push(queueing.number)?;
    }
    Ok(())
}

fn push_tickets(numbers: &mut Vec<Number>, tickets: &[Ticket]) -> Result<(), AllocError>
    ensures { IfOk result (λ _. numbers.new.items ≡ numbers.old.items ++ map spec.ticket_number tickets.now) }
{
    for ticket in tickets {
        numbers.push(ticket.number)?;
    }
    Ok(())
}

fn push_bookings(numbers: &mut Vec<Number>, bookings: &[Booking]) -> Result<(), AllocError>
    ensures { IfOk result (λ _. numbers.new.items ≡ numbers.old.items ++ map number_booked bookings.now) }
{
    for booking in bookings {
        numbers.push(booking.number)?;
    }
    Ok(())
}

/// How many of the numbers are less than this one.
fn rank(numbers: &[Number], number: Number) -> u64
    ensures is { result ≡ spec.rank numbers.now number }
    ensures few { result < 2 ^ 63 }
{
    numbers.iter().filter(|other| **other < number).count() as u64
}

impl Lists {
    fn new(alloc: Global) -> Lists {
        Lists {
            unstarted: Vec::new(alloc),
            running: Vec::new(alloc),
            tickets: Vec::new(alloc),
            booked: Vec::new(alloc),
        }
    }

    fn fill(&mut self, state: &State, items: u16, callers: u8) -> Result<(), AllocError>
        requires items { items ≡ state.now.layout.items }
        requires callers { callers ≡ state.now.layout.callers }
        ensures unstarted { IfOk result (λ _. self.new.unstarted.items
            ≡ spec.unstarted_in state.now.layout (past_of state.now.entries)) }
        ensures running { IfOk result (λ _. self.new.running.items
            ≡ spec.running_in state.now.layout (past_of state.now.entries)) }
        ensures tickets { IfOk result (λ _. self.new.tickets.items
            ≡ spec.tickets_in state.now.layout (past_of state.now.entries)) }
        ensures booked { IfOk result (λ _. self.new.booked.items
            ≡ spec.booked_in state.now.layout (past_of state.now.entries)) }
    {
        fill_unstarted(&mut self.unstarted, state, items)?;
        fill_running(&mut self.running, state, items)?;
        fill_tickets(&mut self.tickets, state, callers)?;
        fill_booked(&mut self.booked, state, items)
    }
}

fn fill_numbers(numbers: &mut Vec<Number>, lists: &Lists) -> Result<(), AllocError>
    ensures { IfOk result (λ _. numbers.new.items
        ≡ spec.numbers_of lists.now.unstarted.items lists.now.running.items lists.now.tickets.items) }
{
    numbers.clear();
    push_queueings(numbers, &lists.unstarted)?;
    push_queueings(numbers, &lists.running)?;
    push_tickets(numbers, &lists.tickets)
}

fn fill_booked_numbers(numbers: &mut Vec<Number>, bookings: &[Booking]) -> Result<(), AllocError>
    ensures { IfOk result (λ _. numbers.new.items ≡ spec.booked_numbers bookings.now) }
{
    numbers.clear();
    push_bookings(numbers, bookings)
}

impl Numbered {
    pub(super) fn new(alloc: Global) -> Numbered {
        Numbered {
            lists: Lists::new(alloc),
            numbers: Vec::new(alloc),
            booked: Vec::new(alloc),
        }
    }

    /// Fills these with what has a number that matters in this state.
    #[tactic(auto, unfolding(crate::specs::Numbered::gathered))]
    pub(super) fn fill(&mut self, state: &State, items: u16, callers: u8) -> Result<(), AllocError>
        requires items { items ≡ state.now.layout.items }
        requires callers { callers ≡ state.now.layout.callers }
        ensures { IfOk result (λ _. self.new ≡ spec.gathered state.now.layout (past_of state.now.entries)) }
    {
        self.lists.fill(state, items, callers)?;
        fill_numbers(&mut self.numbers, &self.lists)?;
        fill_booked_numbers(&mut self.booked, &self.lists.booked)
    }

    /// The open queueings that have not started.
    pub(super) fn unstarted(&self) -> &[Queueing]
        ensures { result.now ≡ self.now.unstarted }
    {
        &self.lists.unstarted
    }

    /// Those that run.
    pub(super) fn running(&self) -> &[Queueing]
        ensures { result.now ≡ self.now.running }
    {
        &self.lists.running
    }

    /// The unended tickets.
    pub(super) fn tickets(&self) -> &[Ticket]
        ensures { result.now ≡ self.now.tickets }
    {
        &self.lists.tickets
    }

    /// The bookings that stand.
    pub(super) fn bookings(&self) -> &[Booking]
        ensures { result.now ≡ self.now.bookings }
    {
        &self.lists.booked
    }

    /// The rank of the number of a booking.
    pub(super) fn rank_of_booking(&self, number: Number) -> u64
        ensures { result ≡ spec.rank self.now.booked number }
    {
        rank(&self.booked, number)
    }

    /// The rank of a number among those of what is open or unended.
    pub(super) fn rank(&self, number: Number) -> u64
        ensures is { result ≡ spec.rank self.now.numbers number }
        ensures few { result < 2 ^ 63 }
    {
        rank(&self.numbers, number)
    }

    /// What stands for a number that there may be: one more than its rank, and 0 if there is none.
    pub(super) fn mark(&self, number: Option<Number>) -> u64
        ensures { result ≡ spec.mark self.now.numbers number }
    {
        match number {
            Some(number) => self.rank(number) + 1,
            None => 0,
        }
    }
}
