//! What stands at the end of a history, and the lines that tell it.
ghost use Rattle.std.specs.Prelude.{◌≡◌, ◌+◌, ◌*◌, ◌<◌, ◌≤◌, ◌++◌, Contains, Some, if◌then◌else◌, length};
ghost use Rattle.cmwq_model.specs.Prelude.{most_cpus, now, past_of, unended_tickets};
ghost use Rattle.cmwq_model.specs.Prelude.{width};
ghost use Rattle.cmwq_model.specs.Tickets.{most_tickets};
ghost use Rattle.cmwq_model.specs.Widths.{is_shut_down};
ghost use Rattle.cmwq_obstacle.specs.Firsts.{AreFirsts};
ghost use Rattle.cmwq_obstacle.specs.declared.obstacle.Obstacle.TheVariants as obstacles;
ghost use Rattle.cmwq_views.specs.Page.{line_of_entries, worker_of_row};
ghost use Rattle.cmwq_views.specs.Lent.{worker_rows};
ghost use Rattle.cmwq_views.specs.Since.{AreBeginnings, last, rows_of};
ghost use Rattle.cmwq_views.specs.Open.{place_text, said_if, frozen_text, queue_state, queue_line, is_open_on};
ghost use Rattle.cmwq_views.specs.Open.{is_open_anywhere, is_idle_queue, idle_from, queues_text, idle_text, ends_idle};
ghost use Rattle.cmwq_views.specs.Open.{idle_line, queue_row, since_text, tick_text, call_text, cause_text};
ghost use Rattle.cmwq_views.specs.Open.{lent_if, lent_text, asleep_text, waiting_text, sleep_text};
ghost use Rattle.cmwq_views.specs.Open.{queueing_text, run_text, run_line, first_text, others_text, taken_text};
ghost use Rattle.cmwq_views.specs.Open.{reason_text, pending_text, pending_line};
ghost use Rattle.cmwq_views.specs.Open.{booked_text, booked_line, last_wait};
ghost use Rattle.cmwq_views.specs.Open.{wait_text, wait_line, line_count, line_text};
ghost use Rattle.cmwq_views.specs.declared.deed.Deed.TheVariants as deed;

use crate::beginnings::Beginnings;
use crate::deed::Deed;
use crate::lent::{
    cause_of, is_in_circle, is_lent_for, run_of_row, ticket_after_sleep, worker_rows,
};
use crate::number::{caller_at, item_at, queue_at, worker_at};
use crate::row::{Row, head};
use crate::rows::{CPUS, push_worker};
use crate::since::Since;
use crate::write::Rows;
use cmwq_base::{Shape, WorkerId};
use cmwq_core::Judge;
use cmwq_model::{Call, Number, Place, Queueing, Ticket};
use cmwq_obstacle::{Firsts, Obstacle, obstacle_of};
use cmwq_state::State;
use std::marker::Model;

/// What is told of a run that its work function put to sleep.
const BY_ITSELF: &str = ", by its work function";

/// How many unended tickets a caller may have.
const OF_CALLER: usize = 64;

/// What the lines are told of.
#[derive(Clone, Copy)]
pub(crate) enum Section {
    /// A line for each queue.
    Queues,
    /// A line for each worker that runs.
    Runs,
    /// A line for each item with a queueing that hasn't started.
    Pending,
    /// A line for each item that is booked.
    Booked,
    /// A line for each unended ticket of each caller.
    Waits,
}

/// The sections, in their order.
pub(crate) const SECTIONS: [Section; 5] = [
    Section::Queues,
    Section::Runs,
    Section::Pending,
    Section::Booked,
    Section::Waits,
];

/// What stands at the end of a legal history, when it began, which items are the first of their places, and the shape.
/// Contracts see the history.
#[derive(Drop)]
pub(crate) struct Standing<'a> {
    shape: &'a Shape,
    state: &'a State,
    beginnings: &'a Beginnings,
    firsts: &'a Firsts,
}

impl<'a> Model for Standing<'a> {
    ghost use Rattle.std.specs.Prelude.{◌≡◌};
    ghost use Rattle.cmwq_model.specs.Prelude.{past_of};
    ghost use Rattle.cmwq_core.specs.Judged.{Judged};
    ghost use Rattle.cmwq_obstacle.specs.Firsts.{AreFirsts};
    ghost use Rattle.cmwq_views.specs.Since.{AreBeginnings};

    ghost Value = { Judged };

    ghost view = { λ s. record { layout = s.state.now.layout; entries = s.state.now.entries } };

    ghost invariant = { λ s. (s.shape.now ≡ s.state.now.layout)
        × AreBeginnings s.state.now.layout (past_of s.state.now.entries) s.beginnings.now
        × AreFirsts s.state.now.layout (past_of s.state.now.entries) s.firsts.now };
}

impl<'a> Standing<'a> {
    /// What stands after all that a judge has seen.
    pub(crate) fn new(
        shape: &'a Shape,
        judge: &'a Judge,
        beginnings: &'a Beginnings,
        firsts: &'a Firsts,
    ) -> Standing<'a>
        requires shape { shape.now ≡ judge.now.layout }
        requires beginnings { AreBeginnings judge.now.layout (past_of judge.now.entries) beginnings.now }
        requires firsts { AreFirsts judge.now.layout (past_of judge.now.entries) firsts.now }
        ensures { result ≡ judge.now }
    {
        Standing {
            shape,
            state: judge.state(),
            beginnings,
            firsts,
        }
    }

    pub(crate) fn shape(&self) -> &Shape
        ensures { result.now ≡ self.now.layout }
    {
        self.shape
    }

    pub(crate) fn state(&self) -> &State
        ensures layout { result.now.layout ≡ self.now.layout }
        ensures entries { result.now.entries ≡ self.now.entries }
    {
        self.state
    }

    /// The first item that takes a place of each queue on each CPU.
    pub(crate) fn firsts(&self) -> &Firsts
        ensures { AreFirsts self.now.layout (past_of self.now.entries) result.now }
    {
        self.firsts
    }

    /// The last entry of this worker, item or caller that does this.
    #[tactic(auto, using(crate::proofs::Last::last_is))]
    pub(crate) fn last(&self, deed: Deed, row: usize) -> Option<Since>
        requires { row < rows_of self.now.layout deed }
        ensures { result ≡ last deed (past_of self.now.entries) row }
    {
        self.beginnings.last(deed, row)
    }

    /// The line of how many entries there are, and how many ticks went by.
    pub(crate) fn first_row(&self) -> Row
        ensures { result ≡ line_of_entries (length (past_of self.now.entries)) (now (past_of self.now.entries)) }
    {
        head(self.state.len(), self.state.time())
    }
}

/// Spells words where a test holds.
fn push_if(row: &mut Row, holds: bool, words: &str)
    requires { length row.old + length words.now ≤ 512 }
    ensures exact { row.new ≡ row.old ++ said_if holds words.now }
    ensures short { length row.new ≤ length row.old + length words.now }
{
    if holds {
        row.push(words);
    }
}

/// Spells a queue and a CPU.
fn push_place(row: &mut Row, place: Place)
    requires { length row.old + 56 ≤ 512 }
    ensures exact { row.new ≡ row.old ++ place_text place }
    ensures short { length row.new ≤ length row.old + 56 }
{
    row.push_figure(", queue ", place.queue.0.into());
    row.push_figure(" on CPU ", place.cpu.0.into());
}

/// Spells the item and the number of a queueing.
fn push_queueing(row: &mut Row, queueing: Queueing)
    requires { length row.old + 56 ≤ 512 }
    ensures exact { row.new ≡ row.old ++ queueing_text queueing }
    ensures short { length row.new ≤ length row.old + 56 }
{
    row.push_figure("item ", queueing.item.0.into());
    row.push_figure(", queueing ", queueing.number);
}

/// Spells how wide a frozen queue is once it is thawed.
fn push_frozen(row: &mut Row, frozen: bool, most: u32)
    requires { length row.old + 41 ≤ 512 }
    ensures exact { row.new ≡ row.old ++ frozen_text frozen most }
    ensures short { length row.new ≤ length row.old + 41 }
{
    if frozen {
        row.push_figure(", frozen, max_active ", most.into());
    }
}

/// Spells whether a queue is frozen, drains, or is gone.
fn push_state(row: &mut Row, frozen: bool, most: u32, draining: bool, gone: bool)
    requires { length row.old + 60 ≤ 512 }
    ensures exact { row.new ≡ row.old ++ queue_state frozen most draining gone }
    ensures short { length row.new ≤ length row.old + 60 }
{
    push_frozen(row, frozen, most);
    push_if(row, draining, ", draining");
    push_if(row, gone, ", gone");
}

/// Whether a queue is frozen.
fn is_frozen(standing: &Standing<'_>, number: usize) -> bool
    requires { number < length standing.now.layout.queues }
    ensures { result ≡ is_shut_down standing.now.layout (past_of standing.now.entries) number }
{
    standing.shape().queues()[number].freezable && standing.state().is_frozen()
}

fn queue_line(standing: &Standing<'_>, number: usize) -> Row
    requires { number < length standing.now.layout.queues }
    ensures { result ≡ queue_line standing.now.layout (past_of standing.now.entries) number }
{
    let state = standing.state();
    let queue = queue_at(standing.shape(), number);
    let mut row = Row::new();
    row.push_figure("queue ", number as u64);
    row.push_figure(": width ", state.width(queue).into());
    push_state(
        &mut row,
        is_frozen(standing, number),
        state.max_active(queue),
        state.is_draining(queue),
        state.is_gone(queue),
    );
    row.push("\n");
    row
}

/// Whether a queueing of this queue, which is not frozen, is open on this CPU: if one is, one is active.
#[tactic(auto, using(crate::proofs::Idle::open_if_counted))]
fn is_open_on(standing: &Standing<'_>, number: usize, cpu: usize) -> bool
    requires number { number < length standing.now.layout.queues }
    requires cpu { cpu < most_cpus }
    requires wide { 0 < width standing.now.layout (past_of standing.now.entries) number }
    ensures { result ≡ is_open_on (past_of standing.now.entries) number cpu }
{
    // it shows that the number is small
    let _counts = standing.shape().counts();
    let counts = standing.state().active_counts();
    counts[CPUS * number + cpu] > 0
}

/// Whether a queueing of this queue, which is not frozen, is open on any CPU.
fn is_open_anywhere(standing: &Standing<'_>, number: usize) -> bool
    requires number { number < length standing.now.layout.queues }
    requires wide { 0 < width standing.now.layout (past_of standing.now.entries) number }
    ensures { result ≡ is_open_anywhere (past_of standing.now.entries) number }
{
    for cpu in 0..CPUS {
        if is_open_on(standing, number, cpu) {
            return true;
        }
    }
    false
}

/// Whether a queue is idle.
fn is_idle(standing: &Standing<'_>, number: usize) -> bool
    requires { number < length standing.now.layout.queues }
    ensures { result ≡ is_idle_queue standing.now.layout (past_of standing.now.entries) number }
{
    let state = standing.state();
    let queue = queue_at(standing.shape(), number);
    state.width(queue) > 0
        && !state.is_draining(queue)
        && !state.is_gone(queue)
        && !is_open_anywhere(standing, number)
}

/// The first of the idle queues in a row up to this one, of which it was known before it.
fn first_after(is_idle: bool, first: usize, at: usize) -> usize
    requires { at < 256 }
    ensures { result ≡ (if is_idle then first else at + 1) }
{
    if is_idle { first } else { at + 1 }
}

/// The first of the idle queues in a row before this number.
#[tactic(auto, using(crate::proofs::Idle::idle_at_first, crate::proofs::Idle::idle_next))]
fn idle_from(standing: &Standing<'_>, number: usize) -> usize
    requires { number < length standing.now.layout.queues }
    ensures { result ≡ idle_from standing.now.layout (past_of standing.now.entries) number }
{
    // it shows that the number is small
    let _counts = standing.shape().counts();
    let mut first = 0;
    for at in 0..number {
        first = first_after(is_idle(standing, at), first, at);
    }
    first
}

/// Whether this queue is the last of idle queues in a row.
fn ends_idle(standing: &Standing<'_>, number: usize) -> bool
    requires { number < length standing.now.layout.queues }
    ensures { result ≡ ends_idle standing.now.layout (past_of standing.now.entries) number }
{
    // it shows that the number is small
    let _counts = standing.shape().counts();
    let next = number + 1;
    !(next < standing.shape().queues().len() && is_idle(standing, next))
}

/// Spells which queues are in a row.
fn push_queues(row: &mut Row, first: usize, end: usize)
    requires { length row.old + 60 ≤ 512 }
    ensures exact { row.new ≡ row.old ++ queues_text first end }
    ensures short { length row.new ≤ length row.old + 60 }
{
    if first == end {
        row.push_figure("queue ", end as u64);
    } else {
        row.push_figure("queues ", first as u64);
        row.push_figure(" to ", end as u64);
    }
}

fn idle_text(first: usize, end: usize) -> Row
    ensures { result ≡ idle_text first end }
{
    let mut row = Row::new();
    push_queues(&mut row, first, end);
    row.push(" idle");
    row.push("\n");
    row
}

fn idle_line(standing: &Standing<'_>, number: usize) -> Row
    requires { number < length standing.now.layout.queues }
    ensures { result ≡ idle_line standing.now.layout (past_of standing.now.entries) number }
{
    if ends_idle(standing, number) {
        idle_text(idle_from(standing, number), number)
    } else {
        Row::new()
    }
}

/// The line of a queue, or if it is the last of idle ones in a row the line of these.
fn queue_row(standing: &Standing<'_>, number: usize) -> Row
    requires { number < length standing.now.layout.queues }
    ensures { result ≡ queue_row standing.now.layout (past_of standing.now.entries) number }
{
    if is_idle(standing, number) {
        idle_line(standing, number)
    } else {
        queue_line(standing, number)
    }
}

/// Spells since when something stands.
fn push_since(row: &mut Row, name: &str, since: Option<Since>)
    requires { length row.old + (length name.now + 49) ≤ 512 }
    ensures exact { row.new ≡ row.old ++ since_text name.now since }
    ensures short { length row.new ≤ length row.old + (length name.now + 49) }
{
    match since {
        Some(since) => {
            row.push_figure(name, since.entry);
            row.push_figure(" at tick ", since.tick);
        }
        None => {}
    }
}

/// Spells since when something stands that has the number of its entry.
fn push_tick(row: &mut Row, since: Option<Since>)
    requires { length row.old + 33 ≤ 512 }
    ensures exact { row.new ≡ row.old ++ tick_text since }
    ensures short { length row.new ≤ length row.old + 33 }
{
    match since {
        Some(since) => row.push_figure(", since tick ", since.tick),
        None => {}
    }
}

/// Spells a call that waits.
fn push_call(row: &mut Row, call: Call)
    requires { length row.old + 40 ≤ 512 }
    ensures exact { row.new ≡ row.old ++ call_text call }
    ensures short { length row.new ≤ length row.old + 40 }
{
    match call {
        Call::Flush { queue } => row.push_figure(", flush ", queue.0.into()),
        Call::Drain { queue } => row.push_figure(", drain ", queue.0.into()),
        Call::Destroy { queue } => row.push_figure(", destroy ", queue.0.into()),
        Call::FlushItem { item } => row.push_figure(", flush_item ", item.0.into()),
        Call::FlushDelayed { item } => row.push_figure(", flush_delayed ", item.0.into()),
        Call::CancelSync { item } => row.push_figure(", cancel_sync ", item.0.into()),
        _ => {}
    }
}

/// Spells what a wait is for.
fn push_cause(row: &mut Row, cause: Option<Number>)
    requires { length row.old + 45 ≤ 512 }
    ensures exact { row.new ≡ row.old ++ cause_text cause }
    ensures short { length row.new ≤ length row.old + 45 }
{
    match cause {
        Some(number) => row.push_figure(", waits for queueing ", number),
        None => row.push(", may end"),
    }
}

/// Spells by which caller a run waits, and for what, or that its work function put it to sleep.
fn push_lent_if(row: &mut Row, is_lent: bool, ticket: Ticket, cause: Option<Number>)
    requires { length row.old + 120 ≤ 512 }
    ensures exact { row.new ≡ row.old ++ lent_if is_lent ticket cause }
    ensures short { length row.new ≤ length row.old + 120 }
{
    if is_lent {
        row.push_figure(", by caller c", ticket.caller.0.into());
        push_call(row, ticket.call);
        push_cause(row, cause);
    } else {
        row.push(BY_ITSELF);
    }
}

/// Spells by which caller a run waits, and for what, if it does by this ticket.
fn push_lent(row: &mut Row, standing: &Standing<'_>, run: Queueing, ticket: Ticket)
    requires unended { Contains (unended_tickets (past_of standing.now.entries)) ticket }
    requires room { length row.old + 120 ≤ 512 }
    ensures exact { row.new ≡ row.old ++ lent_text (past_of standing.now.entries) run ticket }
    ensures short { length row.new ≤ length row.old + 120 }
{
    push_lent_if(
        row,
        is_lent_for(standing, run, ticket),
        ticket,
        cause_of(standing, ticket),
    );
}

/// Spells since when a worker's run sleeps.
fn push_asleep(row: &mut Row, standing: &Standing<'_>, number: usize)
    requires number { number < worker_rows standing.now.layout }
    requires room { length row.old + 70 ≤ 512 }
    ensures exact { row.new ≡ row.old ++ asleep_text (past_of standing.now.entries) number }
    ensures short { length row.new ≤ length row.old + 70 }
{
    row.push(", asleep");
    push_since(row, " since entry ", standing.last(Deed::Sleep, number));
}

/// Spells by which caller a worker's run that sleeps waits, and for what, or that its work function put it to sleep.
fn push_waiting(row: &mut Row, standing: &Standing<'_>, run: Queueing, number: usize)
    requires number { number < worker_rows standing.now.layout }
    requires room { length row.old + 120 ≤ 512 }
    ensures exact { row.new ≡ row.old ++ waiting_text (past_of standing.now.entries) run number }
    ensures short { length row.new ≤ length row.old + 120 }
{
    match ticket_after_sleep(standing, number) {
        Some(ticket) => push_lent(row, standing, run, ticket),
        None => row.push(BY_ITSELF),
    }
}

/// Spells since when a worker's run sleeps, if it does, why, and whether it waits for itself in the end.
fn push_sleep(row: &mut Row, standing: &Standing<'_>, run: Queueing, number: usize)
    requires number { number < worker_rows standing.now.layout }
    requires there { (worker_of_row number).index < standing.now.layout.workers }
    requires room { length row.old + 210 ≤ 512 }
    ensures exact { row.new
        ≡ row.old ++ sleep_text standing.now.layout (past_of standing.now.entries) run number }
    ensures short { length row.new ≤ length row.old + 210 }
{
    let worker = worker_at(standing.shape(), number);
    if standing.state().runs_asleep(worker) {
        push_asleep(row, standing, number);
        push_waiting(row, standing, run, number);
        push_if(row, is_in_circle(standing, number), ", in a circle");
    }
}

fn run_text(standing: &Standing<'_>, number: usize, run: Queueing) -> Row
    requires number { number < worker_rows standing.now.layout }
    requires there { (worker_of_row number).index < standing.now.layout.workers }
    ensures { result ≡ run_text standing.now.layout (past_of standing.now.entries) number run }
{
    let mut row = Row::new();
    row.push("worker ");
    push_worker(&mut row, worker_at(standing.shape(), number));
    row.push(" runs ");
    push_queueing(&mut row, run);
    push_place(&mut row, run.place);
    push_since(
        &mut row,
        ", since entry ",
        standing.last(Deed::Start, number),
    );
    push_sleep(&mut row, standing, run, number);
    row.push("\n");
    row
}

fn run_line(standing: &Standing<'_>, number: usize) -> Row
    requires { number < worker_rows standing.now.layout }
    ensures { result ≡ run_line standing.now.layout (past_of standing.now.entries) number }
{
    match run_of_row(standing, number) {
        Some(run) => run_text(standing, number, run),
        None => Row::new(),
    }
}

/// Spells whose run holds the pool.
fn push_holder(row: &mut Row, holder: WorkerId)
    requires { length row.old + 80 ≤ 512 }
    ensures exact { row.new ≡ row.old ++ reason_text (Some (obstacles.Held holder)) }
    ensures short { length row.new ≤ length row.old + 80 }
{
    row.push(": the run of worker ");
    push_worker(row, holder);
    row.push(" is awake");
}

/// Spells which queueing is the next to start.
fn push_next(row: &mut Row, next: Queueing)
    requires { length row.old + 80 ≤ 512 }
    ensures exact { row.new ≡ row.old ++ reason_text (Some (obstacles.Behind next)) }
    ensures short { length row.new ≤ length row.old + 80 }
{
    row.push_figure(": queueing ", next.number);
    row.push(" is next");
}

/// Spells how many queueings take places beside one.
fn push_others(row: &mut Row, others: u64)
    requires { length row.old + 30 ≤ 512 }
    ensures exact { row.new ≡ row.old ++ others_text others }
    ensures short { length row.new ≤ length row.old + 30 }
{
    if others > 0 {
        row.push_figure(" and ", others);
        row.push(" more");
    }
}

/// Spells which queueing takes a place of a queue on its CPU, beside others.
fn push_first(row: &mut Row, first: Queueing, others: u64)
    requires { length row.old + 67 ≤ 512 }
    ensures exact { row.new ≡ row.old ++ first_text first others }
    ensures short { length row.new ≤ length row.old + 67 }
{
    row.push_figure(", after queueing ", first.number);
    push_others(row, others);
}

/// Spells the first of so many queueings that take the places of a queue on its CPU.
fn push_taken(row: &mut Row, first: Option<Queueing>, active: u32)
    requires { length row.old + 67 ≤ 512 }
    ensures exact { row.new ≡ row.old ++ taken_text first active }
    ensures short { length row.new ≤ length row.old + 67 }
{
    if let Some(first) = first {
        push_first(row, first, u64::from(active.saturating_sub(1)));
    }
}

/// Spells that a queue has no place left on its CPU.
fn push_full(row: &mut Row, first: Option<Queueing>, active: u32)
    requires { length row.old + 110 ≤ 512 }
    ensures exact { row.new ≡ row.old ++ reason_text (Some (obstacles.NoPlace first active)) }
    ensures short { length row.new ≤ length row.old + 110 }
{
    row.push(": its queue has no place left on its CPU");
    push_taken(row, first, active);
}

/// Spells why a queueing has not started.
fn push_reason(row: &mut Row, why: Option<Obstacle>)
    requires { length row.old + 110 ≤ 512 }
    ensures exact { row.new ≡ row.old ++ reason_text why }
    ensures short { length row.new ≤ length row.old + 110 }
{
    match why {
        None => row.push(": may start"),
        Some(Obstacle::Frozen) => row.push(": its queue is frozen"),
        Some(Obstacle::NoPlace { first, active }) => push_full(row, first, active),
        Some(Obstacle::ItemRuns) => row.push(": its item runs"),
        Some(Obstacle::Held(worker)) => push_holder(row, worker),
        Some(Obstacle::NoWorker) => row.push(": no worker of its pool is idle"),
        Some(Obstacle::Behind(next)) => push_next(row, next),
    }
}

fn pending_text(
    queueing: Queueing,
    since: Option<Since>,
    is_active: bool,
    why: Option<Obstacle>,
) -> Row
    ensures { result ≡ pending_text queueing since is_active why }
{
    let mut row = Row::new();
    row.push("pending ");
    push_queueing(&mut row, queueing);
    push_place(&mut row, queueing.place);
    push_tick(&mut row, since);
    row.push(if is_active { ", active" } else { ", inactive" });
    push_reason(&mut row, why);
    row.push("\n");
    row
}

fn pending_line(standing: &Standing<'_>, number: usize) -> Row
    requires { number < standing.now.layout.items }
    ensures { result ≡ pending_line standing.now.layout (past_of standing.now.entries) number }
{
    let shape = standing.shape();
    let state = standing.state();
    let item = item_at(shape, number);
    match state.unstarted(item) {
        Some(queueing) => pending_text(
            queueing,
            standing.last(Deed::Queue, number),
            state.is_active(queueing),
            obstacle_of(state, shape, standing.firsts(), item),
        ),
        None => Row::new(),
    }
}

fn booked_text(number: usize, due: u64, place: Place, since: Option<Since>) -> Row
    requires { number < 65536 }
    ensures { result ≡ booked_text number due place since }
{
    let mut row = Row::new();
    row.push_figure("booked item ", number as u64);
    row.push_figure(", due ", due);
    push_place(&mut row, place);
    push_since(&mut row, ", since entry ", since);
    row.push("\n");
    row
}

fn booked_line(standing: &Standing<'_>, number: usize) -> Row
    requires { number < standing.now.layout.items }
    ensures { result ≡ booked_line (past_of standing.now.entries) number }
{
    match standing.state().timer(item_at(standing.shape(), number)) {
        Some(timer) => booked_text(
            number,
            timer.due,
            timer.place,
            standing.last(Deed::Book, number),
        ),
        None => Row::new(),
    }
}

/// The last wait of a caller, if it is this one.
fn last_wait(standing: &Standing<'_>, ticket: Ticket) -> Option<Since>
    requires { Contains (unended_tickets (past_of standing.now.entries)) ticket }
    ensures { result ≡ last_wait (past_of standing.now.entries) ticket }
{
    // it shows that the history is legal, so that its tickets fit its shape
    let _entries = standing.state().len();
    match standing.last(Deed::Wait, ticket.caller.0.into()) {
        Some(since) if since.entry == ticket.number => Some(since),
        _ => None,
    }
}

fn wait_text(ticket: Ticket, since: Option<Since>, cause: Option<Number>) -> Row
    ensures { result ≡ wait_text ticket since cause }
{
    let mut row = Row::new();
    row.push_figure("caller c", ticket.caller.0.into());
    row.push_figure(": ticket ", ticket.number);
    push_call(&mut row, ticket.call);
    push_tick(&mut row, since);
    push_cause(&mut row, cause);
    row.push("\n");
    row
}

fn wait_line(standing: &Standing<'_>, number: usize) -> Row
    requires { number < most_tickets * standing.now.layout.callers }
    ensures { result ≡ wait_line (past_of standing.now.entries) number }
{
    let caller = caller_at(standing.shape(), number / OF_CALLER);
    match standing.state().unended(caller, number % OF_CALLER) {
        Some(ticket) => wait_text(
            ticket,
            last_wait(standing, ticket),
            cause_of(standing, ticket),
        ),
        None => Row::new(),
    }
}

/// The lines of a section.
#[derive(Drop)]
pub(crate) struct SectionLines<'a, 'b> {
    pub(crate) standing: &'b Standing<'a>,
    pub(crate) section: Section,
}

impl<'a, 'b> Rows for SectionLines<'a, 'b> {
    ghost count = { λ lines. line_count lines.standing.now.layout lines.section };

    ghost row_of = { λ lines. line_text lines.standing.now.layout (past_of lines.standing.now.entries) lines.section };

    fn len(&self) -> usize {
        let shape = self.standing.shape();
        let counts = shape.counts();
        match self.section {
            Section::Queues => shape.queues().len(),
            Section::Runs => worker_rows(self.standing),
            Section::Pending | Section::Booked => counts.items.into(),
            Section::Waits => OF_CALLER * usize::from(counts.callers),
        }
    }

    fn row(&self, at: usize) -> Row {
        match self.section {
            Section::Queues => queue_row(self.standing, at),
            Section::Runs => run_line(self.standing, at),
            Section::Pending => pending_line(self.standing, at),
            Section::Booked => booked_line(self.standing, at),
            Section::Waits => wait_line(self.standing, at),
        }
    }
}
