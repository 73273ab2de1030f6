//! Parts of a picture, and their texts.
ghost use Rattle.std.specs.Prelude.{◌≡◌, ◌<◌, ◌≤◌, OnOk, OnErr};
ghost use Rattle.std.specs.Io.KnownBytes.{Appends};
ghost use Rattle.cmwq_io.specs.Counts.{Rises};
ghost use Rattle.cmwq_io.specs.Moves.{AppendsFront};
ghost use Rattle.cmwq_chart_text.specs.PartText as spec;

use crate::figures::{Figure, Row};
use crate::filled::write_filled;
use crate::page::{Page, worker_letter};
use crate::spans::{span_end, span_left, span_width};
use crate::templates as template;
use cmwq_base::{Sink, WriteFault, write_all};
use cmwq_chart::{Bar, CallerWait, Level, Sign, SignKind, Sleep, WaitSign};
use cmwq_model::{Entry, Who};
use cmwq_text::entry_line;

/// What a part of a picture shows.
#[derive(Clone, Copy)]
pub enum What {
    /// The name of a row, with a line through the row.
    Row(Row),
    /// The number of an entry, over a line through rows that are so high together.
    Number(u32, u32),
    Figure(Figure),
    /// The item of a bar, on the bar.
    Caption(Bar),
    /// The item of a sign, beside the sign.
    Label(Sign),
}

/// A part of a picture: what stands in a band, and where the upper edge of its row is.
#[derive(Clone, Copy)]
pub struct Part {
    pub what: What,
    pub band: u32,
    pub top: u32,
}

/// Where parts stand: on a page, where the upper edge of the row of a queue on a CPU stands for so many.
#[derive(Clone, Copy)]
pub struct Frame {
    pub page: Page,
    pub scale: u32,
}

/// Writes the name of a row.
fn write_name<W: Sink>(sink: &mut W, scale: u32, top: u64, row: Row) -> Result<(), WriteFault>
    requires { top ≤ 4294967295 }
    ensures ok { OnOk result (Appends (W.written sink.old) (W.written sink.new) (spec.name_text scale top row)) }
    ensures err { OnErr result (AppendsFront (W.written sink.old) (W.written sink.new) (spec.name_text scale top row)) }
    ensures grown { W.troubles sink.old ≤ W.troubles sink.new }
    ensures fault { OnErr result (Rises (W.troubles sink.old) (W.troubles sink.new)) }
{
    match row {
        Row::Caller(caller) => {
            write_filled(
                sink,
                template::CALLER,
                &[top + 11, caller.0.into(), top + 7],
            )
        }
        Row::Worker(worker) => {
            let (cpu, letter) = (worker.pool.cpu.0.into(), worker_letter(worker));
            let numbers = [top + 11, cpu, letter, worker.index.into(), top + 7];
            write_filled(sink, template::WORKER, &numbers)
        }
        Row::Place(place) => {
            let (queue, cpu) = (place.queue.0.into(), place.cpu.0.into());
            let numbers = [top + 16, queue, cpu, top + 29, scale.into(), top + 32];
            write_filled(sink, template::PLACE, &numbers)
        }
    }
}

/// What the template of a bar is filled with.
fn bar_numbers(page: &Page, band: u64, top: u64, bar: &Bar) -> [u64; 13]
    requires { band ≤ 4294967295 }
    ensures { result ≡ spec.bar_numbers page.now band top bar.now }
{
    let item = u64::from(bar.item.0);
    let worker = bar.worker;
    [
        item % 10,
        item,
        bar.number,
        worker.pool.cpu.0.into(),
        worker_letter(worker),
        worker.index.into(),
        span_left(page, bar.from, band),
        top,
        span_width(page, bar.from, bar.to, band),
        item,
        bar.number,
        bar.from.into(),
        span_end(page, bar.to).saturating_sub(1),
    ]
}

/// What the template of a sleep is filled with.
fn sleep_numbers(page: &Page, band: u64, top: u64, sleep: &Sleep) -> [u64; 5]
    requires { band ≤ 4294967295 }
    ensures { result ≡ spec.sleep_numbers page.now band top sleep.now }
{
    [
        span_left(page, sleep.from, band),
        top,
        span_width(page, sleep.from, sleep.to, band),
        sleep.from.into(),
        span_end(page, sleep.to).saturating_sub(1),
    ]
}

/// The upper edge of a row of a caller's waits.
fn wait_top(top: u64, row: u32) -> u64
    requires { top ≤ 4294967295 }
    ensures top { result ≡ spec.wait_top top row }
    ensures within { result ≤ 4294970000 }
{
    top + 18 * (1 + u64::from(row.min(63)))
}

/// What the template of a wait is filled with.
fn wait_numbers(page: &Page, band: u64, top: u64, wait: &CallerWait) -> [u64; 9]
    requires band { band ≤ 4294967295 }
    requires top { top ≤ 4294967295 }
    ensures { result ≡ spec.wait_numbers page.now band top wait.now }
{
    let (caller, ticket) = (u64::from(wait.caller.0), u64::from(wait.from));
    [
        caller,
        ticket,
        span_left(page, wait.from, band),
        wait_top(top, wait.row) + 4,
        span_width(page, wait.from, wait.to, band),
        caller,
        ticket,
        ticket,
        span_end(page, wait.to).saturating_sub(1),
    ]
}

/// How high so many are in the row of a queue on a CPU.
fn level_height(scale: u32, count: u32) -> u64
    requires { 0 < scale }
    ensures { result ≡ spec.level_height scale count }
{
    28 * u64::from(count.min(scale)) / u64::from(scale)
}

/// The template of a level.
fn level_template(scale: u32, level: &Level) -> &'static str
    ensures { result.now ≡ spec.level_template scale level.now }
{
    if scale < level.height.width {
        template::LEVEL_ABOVE
    } else {
        template::LEVEL
    }
}

/// What the template of a level is filled with.
fn level_numbers(frame: &Frame, band: u64, top: u64, level: &Level) -> [u64; 18]
    requires band { band ≤ 4294967295 }
    requires top { top ≤ 4294967295 }
    requires scale { 0 < frame.now.scale }
    ensures { result ≡ spec.level_numbers frame.now band top level.now }
{
    let (page, height, base) = (&frame.page, level.height, top + 32);
    let left = span_left(page, level.from, band);
    let wide = span_width(page, level.from, level.to, band);
    let open = level_height(frame.scale, height.open_count);
    let active = level_height(frame.scale, height.active_count);
    [
        level.place.queue.0.into(),
        level.place.cpu.0.into(),
        height.open_count.into(),
        height.active_count.into(),
        height.width.into(),
        level.from.into(),
        span_end(page, level.to).saturating_sub(1),
        left,
        base.saturating_sub(open),
        wide,
        open,
        left,
        base.saturating_sub(active),
        wide,
        active,
        left,
        base.saturating_sub(level_height(frame.scale, height.width)),
        wide,
    ]
}

/// The template of a sign.
fn sign_template(kind: SignKind) -> &'static str
    ensures { result.now ≡ spec.sign_template kind }
{
    match kind {
        SignKind::Queued => template::QUEUED,
        SignKind::Delayed => template::DELAYED,
        SignKind::Fired => template::FIRED,
        SignKind::Cancelled => template::CANCELLED,
        SignKind::Waits => template::WAITS,
        SignKind::Tick => template::TICK,
        SignKind::Changed => template::CHANGED,
        SignKind::Refused => template::REFUSED,
    }
}

/// How far below the upper edge of its row a sign stands: one of a worker stands below the bars.
fn sign_middle(who: Who) -> u64
    ensures middle { result ≡ spec.sign_middle who }
    ensures few { result ≤ 21 }
{
    match who {
        Who::Caller(_) => 7,
        Who::Worker(_) => 21,
    }
}

/// A shade for each item by its last digit, and one for what is of no item.
fn item_shade(item: Option<u16>) -> u64
    ensures { result ≡ spec.item_shade item }
{
    match item {
        Some(item) => u64::from(item % 10),
        None => 10,
    }
}

/// Writes the line of an entry.
fn write_line<W: Sink>(sink: &mut W, entry: &Entry) -> Result<(), WriteFault>
    ensures ok { OnOk result (Appends (W.written sink.old) (W.written sink.new) (spec.entry_text entry.now)) }
    ensures err { OnErr result (AppendsFront (W.written sink.old) (W.written sink.new) (spec.entry_text entry.now)) }
    ensures grown { W.troubles sink.old ≤ W.troubles sink.new }
    ensures fault { OnErr result (Rises (W.troubles sink.old) (W.troubles sink.new)) }
{
    write_all(sink, entry_line(entry).as_bytes())
}

/// Writes the line of the entry at a place.
fn write_line_at<W: Sink>(sink: &mut W, entries: &[Entry], at: u32) -> Result<(), WriteFault>
    ensures ok { OnOk result (Appends (W.written sink.old) (W.written sink.new) (spec.line_at entries.now at)) }
    ensures err { OnErr result (AppendsFront (W.written sink.old) (W.written sink.new) (spec.line_at entries.now at)) }
    ensures grown { W.troubles sink.old ≤ W.troubles sink.new }
    ensures fault { OnErr result (Rises (W.troubles sink.old) (W.troubles sink.new)) }
{
    match entries.get(at as usize) {
        Some(entry) => write_line(sink, entry),
        None => Ok(()),
    }
}

/// Writes a mark, whose tooltip is the line of the entry at a place.
fn write_mark<W: Sink>(
    sink: &mut W,
    entries: &[Entry],
    template: &str,
    numbers: &[u64],
    at: u32,
) -> Result<(), WriteFault>
    ensures ok { OnOk result
        (Appends (W.written sink.old) (W.written sink.new) (spec.mark_text entries.now template.now numbers.now at)) }
    ensures err { OnErr result
        (AppendsFront (W.written sink.old) (W.written sink.new)
        (spec.mark_text entries.now template.now numbers.now at)) }
    ensures grown { W.troubles sink.old ≤ W.troubles sink.new }
    ensures fault { OnErr result (Rises (W.troubles sink.old) (W.troubles sink.new)) }
{
    write_filled(sink, template, numbers)?;
    write_line_at(sink, entries, at)?;
    write_all(sink, template::MARK_END.as_bytes())?;
    Ok(())
}

/// What the template of a sign is filled with.
fn sign_numbers(page: &Page, top: u64, sign: &Sign) -> [u64; 3]
    requires { top ≤ 4294967295 }
    ensures { result ≡ spec.sign_numbers page.now top sign.now }
{
    let middle = page.middle_of(sign.at.into());
    [item_shade(sign.item), middle, top + sign_middle(sign.who)]
}

/// The template of a sign on a wait.
fn wait_sign_template(is_done: bool) -> &'static str
    ensures { result.now ≡ spec.wait_sign_template is_done }
{
    if is_done {
        template::DONE
    } else {
        template::WAITING
    }
}

/// What the template of a sign on a wait is filled with.
fn wait_sign_numbers(page: &Page, top: u64, sign: &WaitSign) -> [u64; 2]
    requires { top ≤ 4294967295 }
    ensures { result ≡ spec.wait_sign_numbers page.now top sign.now }
{
    [page.middle_of(sign.at.into()), wait_top(top, sign.row) + 7]
}

/// Writes what of a shape stands in a band.
fn write_figure<W: Sink>(
    sink: &mut W,
    frame: &Frame,
    entries: &[Entry],
    band: u64,
    top: u64,
    figure: &Figure,
) -> Result<(), WriteFault>
    requires band { band ≤ 4294967295 }
    requires top { top ≤ 4294967295 }
    requires scale { 0 < frame.now.scale }
    ensures ok { OnOk result
        (Appends (W.written sink.old) (W.written sink.new)
        (spec.figure_text frame.now entries.now band top figure.now)) }
    ensures err { OnErr result
        (AppendsFront (W.written sink.old) (W.written sink.new)
        (spec.figure_text frame.now entries.now band top figure.now)) }
    ensures grown { W.troubles sink.old ≤ W.troubles sink.new }
    ensures fault { OnErr result (Rises (W.troubles sink.old) (W.troubles sink.new)) }
{
    let page = &frame.page;
    match figure {
        Figure::Wait(wait) => {
            let template = if wait.to.is_some() {
                template::WAIT
            } else {
                template::WAIT_ON
            };
            write_filled(sink, template, &wait_numbers(page, band, top, wait))
        }
        Figure::WaitSign(sign) => {
            let numbers = wait_sign_numbers(page, top, sign);
            write_mark(
                sink,
                entries,
                wait_sign_template(sign.is_done),
                &numbers,
                sign.at,
            )
        }
        Figure::Bar(bar) => {
            let template = if bar.to.is_some() {
                template::RUN
            } else {
                template::RUN_ON
            };
            write_filled(sink, template, &bar_numbers(page, band, top, bar))
        }
        Figure::Sleep(sleep) => {
            write_filled(
                sink,
                template::SLEEP,
                &sleep_numbers(page, band, top, sleep),
            )
        }
        Figure::Sign(sign) => {
            let numbers = sign_numbers(page, top, sign);
            write_mark(sink, entries, sign_template(sign.kind), &numbers, sign.at)
        }
        Figure::Level(level) => {
            write_filled(
                sink,
                level_template(frame.scale, level),
                &level_numbers(frame, band, top, level),
            )
        }
    }
}

/// What the template of an entry's number is filled with, over rows that are so high together.
fn number_numbers(page: &Page, top: u64, entry: u32, height: u32) -> [u64; 6]
    requires { top ≤ 4294967295 }
    ensures { result ≡ spec.number_numbers page.now top entry height }
{
    let middle = page.middle_of(entry.into());
    [
        middle,
        top + 18,
        4 + u64::from(height),
        middle,
        top + 14,
        entry.into(),
    ]
}

/// What the template of a bar's item is filled with.
fn caption_numbers(page: &Page, band: u64, top: u64, bar: &Bar) -> [u64; 3]
    requires band { band ≤ 4294967295 }
    requires top { top ≤ 4294967295 }
    ensures { result ≡ spec.caption_numbers page.now band top bar.now }
{
    let left = span_left(page, bar.from, band);
    [left + 2, top + 11, bar.item.0.into()]
}

/// What the template of a sign's item is filled with.
fn label_numbers(page: &Page, top: u64, sign: &Sign) -> [u64; 3]
    requires { top ≤ 4294967295 }
    ensures { result ≡ spec.label_numbers page.now top sign.now }
{
    let middle = page.middle_of(sign.at.into());
    [
        middle + 4,
        top + sign_middle(sign.who) + 3,
        sign.item.unwrap_or(0).into(),
    ]
}

/// Writes a part.
pub(crate) fn write_part<W: Sink>(
    sink: &mut W,
    frame: &Frame,
    entries: &[Entry],
    part: &Part,
) -> Result<(), WriteFault>
    requires { 0 < frame.now.scale }
    ensures ok { OnOk result
        (Appends (W.written sink.old) (W.written sink.new) (spec.part_text frame.now entries.now part.now)) }
    ensures err { OnErr result
        (AppendsFront (W.written sink.old) (W.written sink.new) (spec.part_text frame.now entries.now part.now)) }
    ensures grown { W.troubles sink.old ≤ W.troubles sink.new }
    ensures fault { OnErr result (Rises (W.troubles sink.old) (W.troubles sink.new)) }
{
    let (page, band, top) = (&frame.page, u64::from(part.band), u64::from(part.top));
    match &part.what {
        What::Row(row) => write_name(sink, frame.scale, top, *row),
        What::Number(entry, height) => {
            let numbers = number_numbers(page, top, *entry, *height);
            write_filled(sink, template::NUMBER, &numbers)
        }
        What::Figure(figure) => write_figure(sink, frame, entries, band, top, figure),
        What::Caption(bar) => {
            write_filled(
                sink,
                template::CAPTION,
                &caption_numbers(page, band, top, bar),
            )
        }
        What::Label(sign) => write_filled(sink, template::LABEL, &label_numbers(page, top, sign)),
    }
}
