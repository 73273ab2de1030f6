//! The log service of `cmwq_demo_log` by the hub itself, with its threads, and with the proof that all its numbers are
//! inside the shape. Two writers gather lines on threads of their own; what is to be done with the lines is done later,
//! by work items.
//!
//! Each line puts off the item that writes the lines that wait to the open file, so that many are written at once. When
//! the file is full, that item queues another one, which closes the file. At the end the queues are drained and
//! destroyed. Printed is what holds of each run: all lines went through both items.
#![tactic(auto)]

ghost use Rattle.std.specs.Prelude.{◌≡◌};
ghost use Rattle.cmwq_demo_hub.specs.Numbers.{HasNumbers};

use anyhow::{Context, Result, ensure};
use cmwq_rt::{
    Call, Caller, CallerCalls, Calls, Counts, CpuId, Entry, Hub, HubCaller, HubName, HubParts,
    ItemId, Participants, QueueId, QueueShape, RunCtx, RunFault, Shape, Work, all_fit, check,
};
use std::marker::Brand;
use std::sync::Wait;
use std::sync::atomic::{AtomicU32, Ordering};
use std::thread::{self, Scope, Threads};

/// One CPU, whose two pools have two workers each; two writers and a keeper; two items; and room for a history of so
/// many entries.
const COUNTS: Counts = Counts {
    cpus: 1,
    workers: 2,
    callers: 3,
    items: 2,
    room: 10_000,
};

/// A queue that lets one item at a time be active on a CPU.
const PLAIN: QueueShape = QueueShape {
    max_active: 1,
    high: false,
    intensive: false,
    freezable: false,
};

/// The item that writes the lines that wait to the open file.
const WRITE: ItemId = ItemId(0);

/// The item that closes the file.
const ROTATE: ItemId = ItemId(1);

/// The queue of the first.
const WRITING: QueueId = QueueId(0);

/// The queue of the second. To close a file may take long, so it is CPU intensive, and holds no writing back.
const ROTATING: QueueId = QueueId(1);

const CPU: CpuId = CpuId(0);

/// How many lines each writer gathers.
const LINES: u32 = 100;

/// For how many ticks no line comes before the lines are written.
const QUIET: u32 = 3;

/// How many lines fill a file.
const FULL: u32 = 50;

/// Counts of lines: those that wait, those in the open file, those in closed files. All threads share it.
#[derive(Default, Drop)]
struct Log {
    waiting: AtomicU32,
    open: AtomicU32,
    closed: AtomicU32,
}

fn move_lines(from: &AtomicU32, to: &AtomicU32) {
    to.fetch_add(from.swap(0, Ordering::SeqCst), Ordering::SeqCst);
}

impl Work for Log {
    // A worker calls this once for each start of an item. It may run on any hub, and so asks whether the numbers of its
    // own call fit.
    fn run<N: HubName, R: Wait>(&self, item: ItemId, context: &mut RunCtx<N, R>) {
        if item == ROTATE {
            return move_lines(&self.open, &self.closed);
        }
        move_lines(&self.waiting, &self.open);
        let is_full = self.open.load(Ordering::SeqCst) >= FULL;
        let (item, queue, cpu) = (ROTATE, ROTATING, CPU);
        let call = Call::Queue { item, queue, cpu };
        if is_full && context.shape().has_numbers(call) {
            // it may be pending, or want room; then the file is closed by a later run
            let _ = context.queue(item, queue, cpu);
        }
    }
}

/// What all threads share. The ghost field, which is no data, tells the proofs of all calls that the numbers above are
/// inside the shape.
struct Service<N: HubName> {
    hub: Hub<N>,
    log: Log,
    ghost numbers: { HasNumbers N.layout },
}

impl<N: HubName> Service<N> {
    /// A writer's thread: each line puts the writing off. After each tenth comes a pause, unless `busy` sees, without a
    /// lock, that the writing neither is pending nor runs.
    fn gather<'x, R: Wait>(&'x self, rt: &'x R, caller: Caller<N>) -> Result<(), RunFault> {
        let hub = &self.hub;
        let mut writer = HubCaller { rt, hub, caller };
        let gathered = self.gather_by(&mut writer);
        drop(writer);
        gathered
    }

    /// The lines of one writer.
    fn gather_by<'x, R: Wait>(&self, writer: &mut HubCaller<'x, N, R>) -> Result<(), RunFault> {
        for line in 1..=LINES {
            self.log.waiting.fetch_add(1, Ordering::SeqCst);
            writer.modify(WRITE, WRITING, CPU, QUIET)?;
            writer.tick(1)?;
            if line % 10 == 0 && writer.caller.busy(WRITE) != Some(0) {
                writer.tick(QUIET)?;
            }
        }
        Ok(())
    }

    /// Ends the service, after its writers: the delay of the last writing goes by, its end is waited for, and the file
    /// is closed.
    fn shut_down<R: Wait>(&self, rt: &R, caller: Caller<N>) -> Result<(), RunFault> {
        let hub = &self.hub;
        let mut keeper = HubCaller { rt, hub, caller };
        let ended = self.end_by(&mut keeper);
        drop(keeper);
        ended
    }

    /// The last calls of the keeper.
    fn end_by<'x, R: Wait>(&self, keeper: &mut HubCaller<'x, N, R>) -> Result<(), RunFault> {
        keeper.tick(QUIET)?;
        keeper.flush(WRITING)?;
        keeper.queue(ROTATE, ROTATING, CPU)?;
        for queue in [WRITING, ROTATING] {
            keeper.drain(queue)?;
            keeper.destroy(queue)?;
        }
        Ok(())
    }
}

/// Starts a thread for each worker, runs both writers at once, and then the keeper.
fn run_threads<'s, E, N: HubName + Send + Sync + 's, R: Threads + Wait + Sync>(
    scope: &Scope<'s, E>,
    rt: &'s R,
    service: &'s Service<N>,
    participants: &mut Participants<N>,
) -> Result<(), RunFault> {
    for _ in 0..2 * COUNTS.workers {
        let mut worker = participants.worker()?;
        let work = move || service.hub.work(rt, &mut worker, &service.log);
        scope.spawn(work).map_err(|_| RunFault::NoThread)?;
    }
    let (one, two) = (participants.caller()?, participants.caller()?);
    let (first, second) = thread::join(rt, || service.gather(rt, one), || service.gather(rt, two));
    first.and(second)?;
    service.shut_down(rt, participants.caller()?)
}

/// Runs all threads to their end. The scope waits for the workers, which go when the hub is closed and nothing is left
/// to run. A worker's fault is told by the callers: the hub fails, and with it their calls.
fn run<'x, N: HubName + Send + Sync + 'static, R: Threads + Wait + Sync>(
    rt: &'x R,
    service: &'x Service<N>,
    mut participants: Participants<N>,
) -> Result<(), RunFault> {
    thread::scope(thread::scope_env(), rt, |scope| -> Result<(), RunFault> {
        let ended = run_threads(scope, rt, service, &mut participants);
        service.hub.close(rt);
        ended
    })
}

/// Runs the service on a hub of these parts, whose name is `N`, and gives its log and its history.
fn serve<N: HubName + Send + Sync + 'static, R: Threads + Wait + Sync>(
    rt: &R,
    parts: HubParts,
) -> Result<(Log, Vec<Entry>), RunFault>
    requires layout { parts.shape ≡ N.layout }
    requires book { parts.opening.book ≡ N.book }
    requires lends { parts.dispatch.first_lent ≡ N.first_lent }
    requires ledger { (parts.blank.name ≡ N.name) × (parts.blank.parts ≡ N.parts) }
    requires numbers { HasNumbers parts.shape }
{
    let (hub, participants) = Hub::<N>::open(parts);
    let log = Log::default();
    let service = Service { hub, log };
    let ended = run(rt, &service, participants);
    let Service { hub, log } = service;
    let (mut callers, mut workers) = ([], []);
    let rest = hub.into_history(rt, &mut callers, &mut workers)?;
    ended.map(|()| (log, rest.entries))
}

/// Prints what holds of each run.
fn tell(rt: &HostRuntime, shape: &Shape, log: &Log, entries: &[Entry]) -> Result<()> {
    let is_whole = entries.len() <= 1_000_000 && all_fit(shape, entries);
    let is_legal = is_whole && check(rt.alloc(), shape, entries)?.is_ok();
    ensure!(is_legal, "an illegal history");
    let (gathered, closed) = (2 * LINES, log.closed.load(Ordering::SeqCst));
    println!(rt; "lines gathered: {gathered}")?;
    println!(rt; "lines in closed files: {closed}")?;
    println!(rt; "the history is legal")?;
    Ok(())
}

/// A fault is told on standard error, with status 1. What the name `Brand` stands for, the parts of this hub, is said
/// to the proof alone.
fn main(rt: HostRuntime) -> Result<()> {
    let alloc = rt.alloc();
    let mut queues = vec![in alloc; PLAIN, PLAIN]?;
    queues[usize::from(ROTATING.0)].intensive = true;
    let shape = Shape::new(COUNTS, queues).context("a shape outside the limits")?;
    let parts = HubParts::new(&rt, alloc, &shape)?;
    let (log, history) = serve::<Brand, HostRuntime>(&rt, parts)?;
    tell(&rt, &shape, &log, history.as_slice())
}
