//! A log service. Two writers gather lines on threads of their own; what is to be done with the lines is done later, by
//! work items.
//!
//! Each line puts off the item that writes the lines that wait to the open file, so that many are written at once. When
//! the file is full, that item queues another one, which closes the file. At the end the queues are drained and
//! destroyed. Printed is what holds of each run, whatever the threads' order: all lines went through both items.
#![tactic(auto)]

use anyhow::{Result, ensure};
use cmwq_service::{
    Client, Context, CpuId, Fault, ItemId, PLAIN, QueueId, QueueShape, Service, Shape,
    ShapeBuilder, all_fit, check, run,
};
use std::alloc::Global;
use std::sync::Wait;
use std::sync::atomic::{AtomicU32, Ordering};
use std::time::Clock;

/// The item that writes the lines that wait to the open file.
const WRITE: ItemId = ItemId(0);

/// The item that closes the file.
const ROTATE: ItemId = ItemId(1);

/// The queue of the first. It is plain: it lets one item at a time be active on a CPU.
const WRITING: QueueId = QueueId(0);

/// The queue of the second. To close a file may take long, so it is CPU intensive, and holds no writing back.
const ROTATING: QueueId = QueueId(1);

const INTENSIVE: QueueShape = QueueShape {
    intensive: true,
    ..PLAIN
};

/// The one CPU.
const CPU: CpuId = CpuId(0);

/// How many writers there are, and how many lines each gathers.
const WRITERS: u8 = 2;

const LINES: u32 = 100;

/// How many all of them gather.
const GATHERED: u32 = WRITERS as u32 * LINES;

/// The service stops by it if a line is not in a closed file at the end.
const LOST: Fault = Fault::Own(1);

/// For how many ticks no line comes before the lines are written.
const QUIET: u32 = 3;

/// How many lines fill a file.
const FULL: u32 = 50;

/// Counts of lines: those that wait, those in the open file, those in closed files. All threads share it.
#[derive(Default, Drop)]
struct Log {
    waiting: AtomicU32,
    open: AtomicU32,
    closed: AtomicU32,
}

fn move_lines(from: &AtomicU32, to: &AtomicU32) {
    to.fetch_add(from.swap(0, Ordering::SeqCst), Ordering::SeqCst);
}

/// Whether lines are to be written or are being written, as a look without a lock tells.
fn is_writing<C: Client>(client: &mut C) -> Result<bool, Fault> {
    let bits = client.busy(WRITE)?;
    Ok(bits != Some(0))
}

impl Service for Log {
    /// The work function: a worker calls it once for each start of an item. What it calls by its context is the
    /// worker's.
    fn run<R: Wait + Clock, C: Context>(
        &self,
        _rt: &R,
        item: ItemId,
        context: &mut C,
    ) -> Result<(), Fault> {
        if item == ROTATE {
            move_lines(&self.open, &self.closed);
            return Ok(());
        }
        move_lines(&self.waiting, &self.open);
        if self.open.load(Ordering::SeqCst) >= FULL {
            // where it is pending already the call is answered that nothing was queued, and the file is closed once
            context.queue(ROTATE, ROTATING, CPU)?;
        }
        Ok(())
    }

    /// A writer's thread: each line puts the writing off (`modify` delays the item anew, whether or not it is pending).
    /// Time is what the writers hand in, a tick for each line. After each tenth comes a pause, in which the lines are
    /// written, unless the writing neither is pending nor runs.
    fn call<R: Wait + Clock, C: Client>(
        &self,
        _rt: &R,
        _place: u8,
        client: &mut C,
    ) -> Result<(), Fault> {
        for line in 1..=LINES {
            self.waiting.fetch_add(1, Ordering::SeqCst);
            client.modify(WRITE, WRITING, CPU, QUIET)?;
            client.tick(1)?;
            if line % 10 == 0 && is_writing(client)? {
                client.tick(QUIET)?;
            }
        }
        Ok(())
    }

    /// What comes after the writers: the delay of the last writing goes by, its end is waited for, the file is closed,
    /// and both queues go.
    fn end<R: Wait + Clock, C: Client>(&self, _rt: &R, client: &mut C) -> Result<(), Fault> {
        client.tick(QUIET)?;
        client.flush(WRITING)?;
        client.queue(ROTATE, ROTATING, CPU)?;
        for queue in [WRITING, ROTATING] {
            client.drain(queue)?;
            client.destroy(queue)?;
        }
        if self.closed.load(Ordering::SeqCst) == GATHERED {
            Ok(())
        } else {
            Err(LOST)
        }
    }
}

fn shape(alloc: Global) -> Result<Shape> {
    let shape = ShapeBuilder::new(alloc)
        .workers(2)
        .callers(WRITERS)
        .items(2)
        .queue(PLAIN)?
        .queue(INTENSIVE)?
        .build()?;
    Ok(shape)
}

/// A fault, or want of memory or of a thread, is told on standard error, with status 1.
fn main(rt: HostRuntime) -> Result<()> {
    let alloc = rt.alloc();
    let shape = shape(alloc)?;
    let log = Log::default();
    let history = run(&rt, alloc, &shape, &log)?;
    // `run` promises a legal history; `check` judges it anew, by other code
    let entries = history.as_slice();
    let fits = entries.len() <= 1_000_000 && all_fit(&shape, entries);
    let is_legal = fits && check(alloc, &shape, entries)?.is_ok();
    ensure!(is_legal, "an illegal history");
    let closed = log.closed.load(Ordering::SeqCst);
    println!(rt; "lines gathered: {GATHERED}")?;
    println!(rt; "lines in closed files: {closed}")?;
    println!(rt; "the history is legal")?;
    Ok(())
}
