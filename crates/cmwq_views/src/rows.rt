//! How the rows of each table are spelled.
ghost use Rattle.std.specs.Prelude.{◌≡◌, ◌+◌, ◌*◌, ◌/◌, ◌<◌, ◌≤◌, ◌++◌, true, flat_map, length, nat_le};
ghost use Rattle.std.specs.List.{list_all};
ghost use Rattle.cmwq_model.specs.Prelude.{past_of, width, most_cpus, most_workers};
ghost use Rattle.cmwq_summary.specs.Kinds.{call_kinds, reply_kinds};
ghost use Rattle.cmwq_views.specs.Page.{call_row, reply_row, item_row, caller_row, longest_text, mean_text};
ghost use Rattle.cmwq_views.specs.Page.{starts_text, named_number, numbers_text, place_numbers, place_waits};
ghost use Rattle.cmwq_views.specs.Page.{span_text, worker_of_row, worker_name, worker_row, place_name, row_text};
ghost use Rattle.cmwq_views.specs.Page.{row_count};
ghost use Rattle.cmwq_views.specs.declared.table.Table.TheVariants as TheTable;

use crate::name::{call_name, reply_name};
use crate::number::{caller_at, worker_at};
use crate::progress::Progress;
use crate::row::Row;
use crate::table::Table;
use crate::write::Rows;
use cmwq_base::{CallerId, QueueId, WorkerId};
use cmwq_model::MOST_CPUS;
use cmwq_summary::{Counter, Span, Total, Waited};

/// How many CPUs a shape may have.
pub(crate) const CPUS: usize = MOST_CPUS as usize;

/// How many rows a table has.
fn rows_in(progress: &Progress<'_>, table: Table) -> usize
    ensures { result ≡ row_count progress.now.layout table }
{
    table.counter().keys(progress.summary().shape())
}

/// The row of a table with this number, from 0.
fn row(progress: &Progress<'_>, table: Table, at: usize) -> Row
    requires { at < row_count progress.now.layout table }
    ensures { result ≡ row_text progress.now.layout (past_of progress.now.entries) table at }
{
    let summary = progress.summary();
    let many = summary.count(table.counter(), at);
    match table {
        Table::Calls => call_row(at, many),
        Table::Replies => reply_row(at, many),
        Table::Places => place_row(progress, at),
        Table::Workers => worker_row(progress, worker_at(summary.shape(), at), many),
        Table::Items => item_row(at, many, summary.count(Counter::ItemCancels, at)),
        Table::Callers => caller_row(progress, caller_at(summary.shape(), at), many),
    }
}

fn call_row(kind: usize, calls: u64) -> Row
    requires { kind < call_kinds }
    ensures { result ≡ call_row kind calls }
{
    let mut row = Row::new();
    if calls > 0 {
        row.push("call ");
        row.push(call_name(kind));
        row.push_figure(": ", calls);
        row.push("\n");
    }
    row
}

fn reply_row(kind: usize, replies: u64) -> Row
    requires { kind < reply_kinds }
    ensures { result ≡ reply_row kind replies }
{
    let mut row = Row::new();
    if replies > 0 {
        row.push("reply ");
        row.push(reply_name(kind));
        row.push_figure(": ", replies);
        row.push("\n");
    }
    row
}

fn item_row(item: usize, runs: u64, cancels: u64) -> Row
    ensures { result ≡ item_row item runs cancels }
{
    let mut row = Row::new();
    if runs > 0 || cancels > 0 {
        row.push_figure("item ", item as u64);
        row.push_figure(": runs ", runs);
        row.push_figure(", cancels ", cancels);
        row.push("\n");
    }
    row
}

fn caller_row(progress: &Progress<'_>, caller: CallerId, calls: u64) -> Row
    requires { caller.0 < progress.now.layout.callers }
    ensures { result ≡ caller_row (past_of progress.now.entries) caller.0 calls }
{
    let summary = progress.summary();
    let mut row = Row::new();
    if calls > 0 {
        let tickets = summary.count(Counter::CallerTickets, caller.0.into());
        row.push_figure("caller c", caller.0.into());
        row.push_figure(": calls ", calls);
        row.push_figure(", tickets ", tickets);
        push_longest(&mut row, tickets, summary.longest_wait(caller));
        row.push("\n");
    }
    row
}

/// Spells the name of a worker.
pub(crate) fn push_worker(row: &mut Row, worker: WorkerId)
    requires { length row.old + 42 ≤ 512 }
    ensures exact { row.new ≡ row.old ++ worker_name worker }
    ensures short { length row.new ≤ length row.old + 42 }
{
    row.push_figure("w", worker.pool.cpu.0.into());
    let letter = if worker.pool.high { "h" } else { "n" };
    row.push_figure(letter, worker.index.into());
}

/// Spells how long something went on.
fn push_span(row: &mut Row, name: &str, span: Span)
    requires { length row.old + (length name.now + 60) ≤ 512 }
    ensures exact { row.new ≡ row.old ++ span_text name.now span }
    ensures short { length row.new ≤ length row.old + (length name.now + 60) }
{
    row.push_figure(name, span.entries);
    row.push_figure(" entries and ", span.ticks);
    row.push(" ticks");
}

fn worker_row(progress: &Progress<'_>, worker: WorkerId, runs: u64) -> Row
    requires here { worker.pool.cpu.0 < progress.now.layout.cpus }
    requires index { worker.index < most_workers }
    ensures { result ≡ worker_row (past_of progress.now.entries) worker runs }
{
    let summary = progress.summary();
    let mut row = Row::new();
    if runs > 0 {
        row.push("worker ");
        push_worker(&mut row, worker);
        row.push_figure(": runs ", runs);
        let spent = summary.spent(worker);
        push_span(&mut row, ", awake ", spent.awake);
        push_span(&mut row, ", asleep ", spent.asleep);
        row.push("\n");
    }
    row
}

/// Spells the queue and the CPU of the place with this number.
fn push_place(row: &mut Row, place: usize)
    requires { length row.old + 54 ≤ 512 }
    ensures exact { row.new ≡ row.old ++ place_name place }
    ensures short { length row.new ≤ length row.old + 54 }
{
    row.push_figure("queue ", place as u64 / CPUS as u64);
    row.push_figure(" on CPU ", place as u64 % CPUS as u64);
}

/// How wide the queue of the place with this number is.
fn width_at(progress: &Progress<'_>, place: usize) -> u32
    requires { place < most_cpus * length progress.now.layout.queues }
    ensures { result ≡ width progress.now.layout (past_of progress.now.entries) (place / most_cpus) }
{
    // it shows that the number is small
    let _queues = progress.summary().shape().counts();
    progress.width(QueueId((place / CPUS) as u8))
}

/// Spells the longest wait of so many.
fn push_longest(row: &mut Row, many: u64, longest: Span)
    requires { length row.old + 75 ≤ 512 }
    ensures exact { row.new ≡ row.old ++ longest_text many longest }
    ensures short { length row.new ≤ length row.old + 75 }
{
    if many == 0 {
        row.push(", longest wait ");
        row.push("-");
    } else {
        push_span(row, ", longest wait ", longest);
    }
}

/// Spells the mean wait of so many, which waited so long together.
fn push_mean(row: &mut Row, many: u64, all: Total)
    requires { length row.old + 111 ≤ 512 }
    ensures exact { row.new ≡ row.old ++ mean_text many all }
    ensures short { length row.new ≤ length row.old + 111 }
{
    if many == 0 {
        row.push(", mean wait ");
        row.push("-");
    } else {
        row.push_sum(", mean wait ", all.entries / u128::from(many));
        row.push_sum(" entries and ", all.ticks / u128::from(many));
        row.push(" ticks");
    }
}

/// Spells how long so many starts waited.
fn push_starts(row: &mut Row, many: u64, waited: Waited)
    requires { length row.old + 186 ≤ 512 }
    ensures exact { row.new ≡ row.old ++ starts_text many waited }
    ensures short { length row.new ≤ length row.old + 186 }
{
    push_longest(row, many, waited.longest);
    push_mean(row, many, waited.all);
}

/// Spells numbers, each after its heading.
fn push_numbers(row: &mut Row, numbers: &[(&str, u64)])
    requires short { list_all (λ n. nat_le (length n.0.now) 20) numbers.now ≡ true }
    requires room { length row.old + 40 * length numbers.now ≤ 512 }
    ensures exact { row.new ≡ row.old ++ flat_map (λ n. named_number n.0.now n.1) numbers.now }
    ensures short { length row.new ≤ length row.old + 40 * length numbers.now }
{
    for (heading, number) in numbers {
        row.push_figure(heading, *number);
    }
}

/// Spells the numbers of a queue and CPU.
fn push_place_numbers(row: &mut Row, progress: &Progress<'_>, place: usize)
    requires place { place < most_cpus * length progress.now.layout.queues }
    requires room { length row.old + 240 ≤ 512 }
    ensures exact { row.new ≡ row.old
        ++ numbers_text (place_numbers progress.now.layout (past_of progress.now.entries) place) }
    ensures short { length row.new ≤ length row.old + 240 }
{
    let summary = progress.summary();
    push_numbers(
        row,
        &[
            (": queueings ", summary.count(Counter::Queueings, place)),
            (", starts ", summary.count(Counter::Starts, place)),
            (", cancelled ", summary.count(Counter::Cancels, place)),
            (", width ", width_at(progress, place).into()),
            (", most open ", summary.most_open(place)),
            (", most active ", summary.most_active(place)),
        ],
    );
}

/// Spells how long the starts there waited.
fn push_waits(row: &mut Row, progress: &Progress<'_>, place: usize)
    requires place { place < most_cpus * length progress.now.layout.queues }
    requires room { length row.old + 186 ≤ 512 }
    ensures exact { row.new ≡ row.old ++ place_waits (past_of progress.now.entries) place }
    ensures short { length row.new ≤ length row.old + 186 }
{
    let summary = progress.summary();
    push_starts(
        row,
        summary.count(Counter::Starts, place),
        summary.start_waits(place),
    );
}

fn place_row(progress: &Progress<'_>, place: usize) -> Row
    requires { place < most_cpus * length progress.now.layout.queues }
    ensures { result ≡ row_text progress.now.layout (past_of progress.now.entries) TheTable.Places place }
{
    let queueings = progress.summary().count(Counter::Queueings, place);
    let mut row = Row::new();
    if queueings > 0 {
        push_place(&mut row, place);
        push_place_numbers(&mut row, progress, place);
        push_waits(&mut row, progress, place);
        row.push("\n");
    }
    row
}

/// The rows of a table.
#[derive(Drop)]
pub(crate) struct TableRows<'a, 'b> {
    pub(crate) progress: &'b Progress<'a>,
    pub(crate) table: Table,
}

impl<'a, 'b> Rows for TableRows<'a, 'b> {
    ghost count = { λ rows. row_count rows.progress.now.layout rows.table };

    ghost row_of = { λ rows. row_text rows.progress.now.layout (past_of rows.progress.now.entries) rows.table };

    fn len(&self) -> usize {
        rows_in(self.progress, self.table)
    }

    fn row(&self, at: usize) -> Row {
        row(self.progress, self.table, at)
    }
}
