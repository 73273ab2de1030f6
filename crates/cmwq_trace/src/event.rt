//! Trace events, and their texts.
ghost use Rattle.std.specs.Prelude.{◌≡◌, ◌≤◌, OnOk, OnErr};
ghost use Rattle.std.specs.Io.KnownBytes.{Appends};
ghost use Rattle.cmwq_io.specs.Counts.{Rises};
ghost use Rattle.cmwq_io.specs.Moves.{AppendsFront};
ghost use Rattle.cmwq_trace.specs.Events as spec;

use crate::calls::call_template;
use cmwq_base::{Sink, WriteFault};
use cmwq_chart::{Bar, CallerWait, Level, Sign, Sleep};
use cmwq_chart_text::write_filled;
use cmwq_model::{CallerId, CpuId, PoolId, Who, WorkerId};

/// A part of a trace: one event, but for the head, which names the queues and the callers, and a CPU, which names both
/// of its pools.
#[derive(Clone, Copy)]
pub enum Event {
    Head,
    Cpu(CpuId),
    /// The name of a caller.
    Caller(CallerId),
    /// The name of a row of a caller's waits.
    Row(CallerId, u8),
    /// The name of a worker.
    Lane(WorkerId),
    /// What a caller did.
    Call(CallerId, Sign),
    Wait(CallerWait),
    Run(Bar),
    Sleep(Sleep),
    /// Where an arrow begins: who made the queueing with this number.
    Queued(Who, u64),
    /// Where it ends: the start of the queueing.
    Started(Bar),
    Level(Level),
    End,
}

const HEAD: &str = "{\"traceEvents\":[\n\
    {\"args\":{\"name\":\"queues\"},\"name\":\"process_name\",\"ph\":\"M\",\"pid\":1},\n\
    {\"args\":{\"name\":\"callers\"},\"name\":\"process_name\",\"ph\":\"M\",\"pid\":2}";

const CPU: &str =
    ",\n{\"args\":{\"name\":\"CPU $\"},\"name\":\"process_name\",\"ph\":\"M\",\"pid\":$},\n\
    {\"args\":{\"name\":\"CPU $, high priority\"},\"name\":\"process_name\",\"ph\":\"M\",\"pid\":$}";

const CALLER: &str =
    ",\n{\"args\":{\"name\":\"c$\"},\"name\":\"thread_name\",\"ph\":\"M\",\"pid\":2,\"tid\":$}";

const ROW: &str =
    ",\n{\"args\":{\"name\":\"c$, row $\"},\"name\":\"thread_name\",\"ph\":\"M\",\"pid\":2,\"tid\":$}";

const LANE: &str =
    ",\n{\"args\":{\"name\":\"w$~$\"},\"name\":\"thread_name\",\"ph\":\"M\",\"pid\":$,\"tid\":$}";

const WAIT: &str =
    ",\n{\"args\":{\"caller\":\"c$\",\"done\":true,\"ticket\":$},\"cat\":\"wait\",\"dur\":$,\
    \"name\":\"ticket $\",\"ph\":\"X\",\"pid\":2,\"tid\":$,\"ts\":$}";

const WAIT_ON: &str =
    ",\n{\"args\":{\"caller\":\"c$\",\"done\":false,\"ticket\":$},\"cat\":\"wait\",\"dur\":$,\
    \"name\":\"ticket $\",\"ph\":\"X\",\"pid\":2,\"tid\":$,\"ts\":$}";

const RUN: &str = ",\n{\"args\":{\"finished\":true,\"item\":$,\"queueing\":$,\"worker\":\"w$~$\"},\
    \"cat\":\"run\",\"dur\":$,\"name\":\"item $\",\"ph\":\"X\",\"pid\":$,\"tid\":$,\"ts\":$}";

const RUN_ON: &str =
    ",\n{\"args\":{\"finished\":false,\"item\":$,\"queueing\":$,\"worker\":\"w$~$\"},\
    \"cat\":\"run\",\"dur\":$,\"name\":\"item $\",\"ph\":\"X\",\"pid\":$,\"tid\":$,\"ts\":$}";

const SLEEP: &str = ",\n{\"args\":{\"worker\":\"w$~$\"},\"cat\":\"sleep\",\"dur\":$,\
    \"name\":\"asleep\",\"ph\":\"X\",\"pid\":$,\"tid\":$,\"ts\":$}";

const QUEUED: &str = ",\n{\"cat\":\"queueing\",\"id\":$,\"name\":\"queueing\",\
    \"ph\":\"s\",\"pid\":$,\"tid\":$,\"ts\":$}";

const STARTED: &str = ",\n{\"bp\":\"e\",\"cat\":\"queueing\",\"id\":$,\"name\":\"queueing\",\
    \"ph\":\"f\",\"pid\":$,\"tid\":$,\"ts\":$}";

const LEVEL: &str =
    ",\n{\"args\":{\"active\":$,\"open\":$,\"width\":$},\"name\":\"queue $ on CPU $\",\
    \"ph\":\"C\",\"pid\":1,\"ts\":$}";

const END: &str = "\n]}\n";

/// The process of a pool.
fn pool_process(pool: PoolId) -> u64
    ensures { result ≡ spec.pool_process pool }
{
    3 + 2 * u64::from(pool.cpu.0) + u64::from(pool.high)
}

/// The thread of a worker.
fn worker_thread(worker: WorkerId) -> u64
    ensures { result ≡ spec.worker_thread worker }
{
    let pool = if worker.pool.high { 64 } else { 0 };
    1 + 128 * u64::from(worker.pool.cpu.0) + pool + u64::from(worker.index)
}

/// The thread of a row of a caller's waits, beyond those of all workers.
fn row_thread(caller: CallerId, row: u32) -> u64
    ensures { result ≡ spec.row_thread caller row }
{
    10_000 + 64 * u64::from(caller.0) + u64::from(row)
}

/// The thread of a caller's calls, beyond those of all rows.
fn caller_thread(caller: CallerId) -> u64
    ensures { result ≡ spec.caller_thread caller }
{
    30_000 + u64::from(caller.0)
}

/// The process in which a caller or a worker stands.
fn who_process(who: Who) -> u64
    ensures { result ≡ spec.who_process who }
{
    match who {
        Who::Caller(_) => 2,
        Who::Worker(worker) => pool_process(worker.pool),
    }
}

/// The thread in which it stands.
fn who_thread(who: Who) -> u64
    ensures { result ≡ spec.who_thread who }
{
    match who {
        Who::Caller(caller) => caller_thread(caller),
        Who::Worker(worker) => worker_thread(worker),
    }
}

/// The letter of a pool in the names of its workers.
fn letter(pool: PoolId) -> u64
    ensures { result ≡ spec.letter pool }
{
    if pool.high { 104 } else { 110 }
}

/// How many entries there are from one up to and with another, or to the end of so many.
fn entries_between(from: u32, to: Option<u32>, end: u64) -> u64
    ensures { result ≡ spec.entries_between from to end }
{
    let end = match to {
        Some(last) => u64::from(last) + 1,
        None => end,
    };
    end.saturating_sub(from.into())
}

/// What the template of an event is, in which `$` stands for a number, and `~` for a character.
fn template(event: &Event) -> &'static str
    ensures { result.now ≡ spec.event_template event.now }
{
    match event {
        Event::Head => HEAD,
        Event::Cpu(_) => CPU,
        Event::Caller(_) => CALLER,
        Event::Row(_, _) => ROW,
        Event::Lane(_) => LANE,
        Event::Call(_, sign) => call_template(sign.kind, sign.item),
        Event::Wait(wait) => if wait.to.is_some() { WAIT } else { WAIT_ON },
        Event::Run(bar) => if bar.to.is_some() { RUN } else { RUN_ON },
        Event::Sleep(_) => SLEEP,
        Event::Queued(_, _) => QUEUED,
        Event::Started(_) => STARTED,
        Event::Level(_) => LEVEL,
        Event::End => END,
    }
}

/// What stands for the holes of the templates, and 0 beyond.
fn numbers(event: &Event, end: u64) -> [u64; 10]
    ensures { result ≡ spec.event_numbers end event.now }
{
    match event {
        Event::Head | Event::End => [0; 10],
        Event::Cpu(cpu) => cpu_numbers(*cpu),
        Event::Caller(caller) => caller_numbers(*caller),
        Event::Row(caller, row) => row_numbers(*caller, *row),
        Event::Lane(worker) => lane_numbers(*worker),
        Event::Call(caller, sign) => call_numbers(*caller, sign),
        Event::Wait(wait) => wait_numbers(wait, end),
        Event::Run(bar) => run_numbers(bar, end),
        Event::Sleep(sleep) => sleep_numbers(sleep, end),
        Event::Queued(who, number) => queued_numbers(*who, *number),
        Event::Started(bar) => started_numbers(bar),
        Event::Level(level) => level_numbers(level),
    }
}

fn cpu_numbers(cpu: CpuId) -> [u64; 10]
    ensures { result ≡ spec.cpu_numbers cpu }
{
    let normal = pool_process(PoolId { cpu, high: false });
    let high = pool_process(PoolId { cpu, high: true });
    let cpu = u64::from(cpu.0);
    [cpu, normal, cpu, high, 0, 0, 0, 0, 0, 0]
}

fn caller_numbers(caller: CallerId) -> [u64; 10]
    ensures { result ≡ spec.caller_numbers caller }
{
    [
        caller.0.into(),
        caller_thread(caller),
        0,
        0,
        0,
        0,
        0,
        0,
        0,
        0,
    ]
}

fn row_numbers(caller: CallerId, row: u8) -> [u64; 10]
    ensures { result ≡ spec.row_numbers caller row }
{
    let thread = row_thread(caller, row.into());
    [caller.0.into(), row.into(), thread, 0, 0, 0, 0, 0, 0, 0]
}

fn lane_numbers(worker: WorkerId) -> [u64; 10]
    ensures { result ≡ spec.lane_numbers worker }
{
    let pool = worker.pool;
    let process = pool_process(pool);
    let thread = worker_thread(worker);
    [
        pool.cpu.0.into(),
        letter(pool),
        worker.index.into(),
        process,
        thread,
        0,
        0,
        0,
        0,
        0,
    ]
}

fn call_numbers(caller: CallerId, sign: &Sign) -> [u64; 10]
    ensures { result ≡ spec.call_numbers caller sign.now }
{
    let (at, thread) = (u64::from(sign.at), caller_thread(caller));
    match sign.item {
        Some(item) => {
            let item = u64::from(item);
            [at, item, item, thread, at, 0, 0, 0, 0, 0]
        }
        None => [at, thread, at, 0, 0, 0, 0, 0, 0, 0],
    }
}

fn wait_numbers(wait: &CallerWait, end: u64) -> [u64; 10]
    ensures { result ≡ spec.wait_numbers end wait.now }
{
    let ticket = u64::from(wait.from);
    let entries = entries_between(wait.from, wait.to, end);
    let thread = row_thread(wait.caller, wait.row);
    [
        wait.caller.0.into(),
        ticket,
        entries,
        ticket,
        thread,
        ticket,
        0,
        0,
        0,
        0,
    ]
}

fn run_numbers(bar: &Bar, end: u64) -> [u64; 10]
    ensures { result ≡ spec.run_numbers end bar.now }
{
    let item = u64::from(bar.item.0);
    let pool = bar.worker.pool;
    [
        item,
        bar.number,
        pool.cpu.0.into(),
        letter(pool),
        bar.worker.index.into(),
        entries_between(bar.from, bar.to, end),
        item,
        pool_process(pool),
        worker_thread(bar.worker),
        bar.from.into(),
    ]
}

fn sleep_numbers(sleep: &Sleep, end: u64) -> [u64; 10]
    ensures { result ≡ spec.sleep_numbers end sleep.now }
{
    let pool = sleep.worker.pool;
    [
        pool.cpu.0.into(),
        letter(pool),
        sleep.worker.index.into(),
        entries_between(sleep.from, sleep.to, end),
        pool_process(pool),
        worker_thread(sleep.worker),
        sleep.from.into(),
        0,
        0,
        0,
    ]
}

fn queued_numbers(who: Who, number: u64) -> [u64; 10]
    ensures { result ≡ spec.queued_numbers who number }
{
    [
        number,
        who_process(who),
        who_thread(who),
        number,
        0,
        0,
        0,
        0,
        0,
        0,
    ]
}

fn started_numbers(bar: &Bar) -> [u64; 10]
    ensures { result ≡ spec.started_numbers bar.now }
{
    [
        bar.number,
        pool_process(bar.worker.pool),
        worker_thread(bar.worker),
        bar.from.into(),
        0,
        0,
        0,
        0,
        0,
        0,
    ]
}

fn level_numbers(level: &Level) -> [u64; 10]
    ensures { result ≡ spec.level_numbers level.now }
{
    let height = level.height;
    [
        height.active_count.into(),
        height.open_count.into(),
        height.width.into(),
        level.place.queue.0.into(),
        level.place.cpu.0.into(),
        level.from.into(),
        0,
        0,
        0,
        0,
    ]
}

/// Writes an event of a history of so many entries.
pub(crate) fn write_event<W: Sink>(sink: &mut W, end: u64, event: &Event) -> Result<(), WriteFault>
    ensures ok { OnOk result (Appends (W.written sink.old) (W.written sink.new) (spec.event_text end event.now)) }
    ensures err { OnErr result
        (AppendsFront (W.written sink.old) (W.written sink.new) (spec.event_text end event.now)) }
    ensures grown { W.troubles sink.old ≤ W.troubles sink.new }
    ensures fault { OnErr result (Rises (W.troubles sink.old) (W.troubles sink.new)) }
{
    write_filled(sink, template(event), &numbers(event, end))
}
