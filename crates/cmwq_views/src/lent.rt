//! By which caller a run waits that sleeps, and runs that wait for one another in a circle.
ghost use Rattle.std.specs.Prelude.{◌≡◌, ◌<◌, Contains, IfSome, is_some, not, option_and_then};
ghost use Rattle.cmwq_model.specs.Prelude.{is_at, past_of, unended_tickets, waits_for};
ghost use Rattle.cmwq_views.specs.Lent.{cause_by, cause_of_row, cause_of_run, is_in_circle, is_lent_for, is_queued_as};
ghost use Rattle.cmwq_views.specs.Lent.{item_queued, next_row, row_holding, row_keeping, row_keeping_item, row_running};
ghost use Rattle.cmwq_views.specs.Lent.{run_of_row, runs_number, ticket_after_sleep, worker_rows};
ghost use Rattle.cmwq_views.specs.Page.{worker_of_row};
ghost use Rattle.cmwq_views.specs.Since.{last};
ghost use Rattle.cmwq_views.specs.declared.deed.Deed.TheVariants as deed;

use crate::deed::Deed;
use crate::number::{OF_POOL, item_at, worker_at};
use crate::standing::Standing;
use cmwq_model::{Number, Queueing, Ticket};
use cmwq_obstacle::keeper_of;

/// What an unended wait is for.
pub(crate) fn cause_of(standing: &Standing<'_>, ticket: Ticket) -> Option<Number>
    requires { Contains (unended_tickets (past_of standing.now.entries)) ticket }
    ensures { result ≡ waits_for (past_of standing.now.entries) ticket.number ticket.call }
{
    let state = standing.state();
    // it shows that the history is legal, so that its tickets fit its shape
    let _entries = state.len();
    state.waits_for(ticket)
}

/// Whether the option is this number.
fn is_at(option: Option<u64>, number: u64) -> bool
    ensures { result ≡ is_at option number }
{
    match option {
        Some(other) => other == number,
        None => false,
    }
}

/// Whether the caller of an unended wait has made no calls but those that one makes that is lent to waits.
fn has_only_waited(standing: &Standing<'_>, ticket: Ticket) -> bool
    requires { Contains (unended_tickets (past_of standing.now.entries)) ticket }
    ensures { result ≡ not (is_some (last deed.Other (past_of standing.now.entries) ticket.caller.0)) }
{
    // it shows that the history is legal, so that its tickets fit its shape
    let _entries = standing.state().len();
    standing.last(Deed::Other, ticket.caller.0.into()).is_none()
}

/// Whether a run waits by this ticket.
pub(crate) fn is_lent_for(standing: &Standing<'_>, run: Queueing, ticket: Ticket) -> bool
    requires { Contains (unended_tickets (past_of standing.now.entries)) ticket }
    ensures { result ≡ is_lent_for (past_of standing.now.entries) run ticket }
{
    has_only_waited(standing, ticket) && !is_at(cause_of(standing, ticket), run.number)
}

/// The unended wait whose entry is the next one after that by which a worker's run went to sleep.
pub(crate) fn ticket_after_sleep(standing: &Standing<'_>, number: usize) -> Option<Ticket>
    requires { number < worker_rows standing.now.layout }
    ensures { result ≡ ticket_after_sleep (past_of standing.now.entries) number }
{
    let state = standing.state();
    // it shows that the entries are few
    let _entries = state.number();
    match standing.last(Deed::Sleep, number) {
        Some(sleep) => {
            let next = sleep.entry + 1;
            state.ticket(next)
        }
        None => None,
    }
}

/// How many workers the pools of the shape's CPUs may have.
pub(crate) fn worker_rows(standing: &Standing<'_>) -> usize
    ensures { result ≡ worker_rows standing.now.layout }
{
    2 * OF_POOL * usize::from(standing.shape().counts().cpus)
}

/// What a worker runs.
pub(crate) fn run_of_row(standing: &Standing<'_>, number: usize) -> Option<Queueing>
    requires { number < worker_rows standing.now.layout }
    ensures is { result ≡ run_of_row standing.now.layout (past_of standing.now.entries) number }
    ensures there { IfSome result (λ _. (worker_of_row number).index < standing.now.layout.workers) }
{
    let shape = standing.shape();
    let worker = worker_at(shape, number);
    if worker.index < shape.counts().workers {
        standing.state().queueing_run(worker)
    } else {
        None
    }
}

/// What a run waits for by this ticket, if it does.
fn cause_by(standing: &Standing<'_>, run: Queueing, ticket: Ticket) -> Option<Number>
    requires { Contains (unended_tickets (past_of standing.now.entries)) ticket }
    ensures { result ≡ cause_by (past_of standing.now.entries) run ticket }
{
    if is_lent_for(standing, run, ticket) {
        cause_of(standing, ticket)
    } else {
        None
    }
}

/// What a worker's run waits for while it sleeps.
fn cause_of_run(standing: &Standing<'_>, number: usize, run: Queueing) -> Option<Number>
    requires number { number < worker_rows standing.now.layout }
    requires there { (worker_of_row number).index < standing.now.layout.workers }
    ensures { result ≡ cause_of_run (past_of standing.now.entries) number run }
{
    if !standing
        .state()
        .runs_asleep(worker_at(standing.shape(), number))
    {
        return None;
    }
    match ticket_after_sleep(standing, number) {
        Some(ticket) => cause_by(standing, run, ticket),
        None => None,
    }
}

/// What the run of a worker waits for, if it has one.
fn cause_of_row(standing: &Standing<'_>, number: usize) -> Option<Number>
    requires { number < worker_rows standing.now.layout }
    ensures { result ≡ cause_of_row standing.now.layout (past_of standing.now.entries) number }
{
    match run_of_row(standing, number) {
        Some(run) => cause_of_run(standing, number, run),
        None => None,
    }
}

/// Whether a worker runs this queueing.
fn runs_number(standing: &Standing<'_>, queueing: Number, number: usize) -> bool
    requires { number < worker_rows standing.now.layout }
    ensures { result ≡ runs_number standing.now.layout (past_of standing.now.entries) queueing number }
{
    match run_of_row(standing, number) {
        Some(run) => run.number == queueing,
        None => false,
    }
}

/// The worker that runs this queueing.
fn row_running(standing: &Standing<'_>, queueing: Number) -> Option<usize>
    ensures is { result ≡ row_running standing.now.layout (past_of standing.now.entries) queueing }
    ensures there { IfSome result (λ number. number < worker_rows standing.now.layout) }
{
    for number in 0..worker_rows(standing) {
        if runs_number(standing, queueing, number) {
            return Some(number);
        }
    }
    None
}

/// Whether the item with this number has this queueing queued.
fn is_queued_as(standing: &Standing<'_>, queueing: Number, number: usize) -> bool
    requires { number < standing.now.layout.items }
    ensures { result ≡ is_queued_as (past_of standing.now.entries) queueing number }
{
    match standing
        .state()
        .unstarted(item_at(standing.shape(), number))
    {
        Some(queued) => queued.number == queueing,
        None => false,
    }
}

/// How many items the shape has.
fn item_rows(standing: &Standing<'_>) -> usize
    ensures { result ≡ standing.now.layout.items }
{
    usize::from(standing.shape().counts().items)
}

/// The number of the item that has this queueing queued.
fn item_queued(standing: &Standing<'_>, queueing: Number) -> Option<usize>
    ensures is { result ≡ item_queued standing.now.layout (past_of standing.now.entries) queueing }
    ensures there { IfSome result (λ number. number < standing.now.layout.items) }
{
    for number in 0..item_rows(standing) {
        if is_queued_as(standing, queueing, number) {
            return Some(number);
        }
    }
    None
}

/// The worker whose run alone keeps what an item has queued from its start.
fn row_keeping_item(standing: &Standing<'_>, number: usize) -> Option<usize>
    requires { number < standing.now.layout.items }
    ensures is { result ≡ row_keeping_item standing.now.layout (past_of standing.now.entries) number }
    ensures there { IfSome result (λ number. number < worker_rows standing.now.layout) }
{
    let shape = standing.shape();
    match keeper_of(
        standing.state(),
        shape,
        standing.firsts(),
        item_at(shape, number),
    ) {
        Some(run) => row_running(standing, run.number),
        None => None,
    }
}

/// The worker whose run alone keeps this queueing from its start, if it has not started.
fn row_keeping(standing: &Standing<'_>, queueing: Number) -> Option<usize>
    ensures is { result ≡ row_keeping standing.now.layout (past_of standing.now.entries) queueing }
    ensures there { IfSome result (λ number. number < worker_rows standing.now.layout) }
{
    match item_queued(standing, queueing) {
        Some(number) => row_keeping_item(standing, number),
        None => None,
    }
}

/// The worker that runs this queueing, or whose run alone keeps it from its start.
fn row_holding(standing: &Standing<'_>, queueing: Number) -> Option<usize>
    ensures is { result ≡ row_holding standing.now.layout (past_of standing.now.entries) queueing }
    ensures there { IfSome result (λ number. number < worker_rows standing.now.layout) }
{
    match row_running(standing, queueing) {
        Some(number) => Some(number),
        None => row_keeping(standing, queueing),
    }
}

/// The worker for whose run that of this worker waits.
fn next_row(standing: &Standing<'_>, number: usize) -> Option<usize>
    requires { number < worker_rows standing.now.layout }
    ensures is { result ≡ next_row standing.now.layout (past_of standing.now.entries) number }
    ensures there { IfSome result (λ number. number < worker_rows standing.now.layout) }
{
    match cause_of_row(standing, number) {
        Some(queueing) => row_holding(standing, queueing),
        None => None,
    }
}

/// The worker for whose run that of this worker waits, if there is this worker.
fn row_after(standing: &Standing<'_>, number: Option<usize>) -> Option<usize>
    requires { IfSome number (λ number. number < worker_rows standing.now.layout) }
    ensures is { result
        ≡ option_and_then (next_row standing.now.layout (past_of standing.now.entries)) number }
    ensures there { IfSome result (λ number. number < worker_rows standing.now.layout) }
{
    match number {
        Some(number) => next_row(standing, number),
        None => None,
    }
}

/// Whether the option is this row.
fn is_row(option: Option<usize>, row: usize) -> bool
    ensures { result ≡ is_at option row }
{
    match option {
        Some(other) => other == row,
        None => false,
    }
}

/// Whether the waits of runs lead from a worker's run back to it.
pub(crate) fn is_in_circle(standing: &Standing<'_>, number: usize) -> bool
    requires { number < worker_rows standing.now.layout }
    ensures { result ≡ is_in_circle standing.now.layout (past_of standing.now.entries) number }
{
    let rows = worker_rows(standing);
    let mut row = Some(number);
    for _ in 0..rows {
        row = row_after(standing, row);
        if is_row(row, number) {
            return true;
        }
    }
    false
}
