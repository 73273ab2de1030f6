//! Trials of a service a second: the calls of the log of `cmwq_demo_log`, in an order for each seed.

use anyhow::{Context as _, Result, ensure};
use cmwq_service::{
    Client, Context, CpuId, Fault, ItemId, PLAIN, QueueId, QueueShape, Service, ShapeBuilder,
};
use cmwq_trial::{Progress, Schedule, Setup, UNIFORM, trials};
use std::sync::Wait;
use std::sync::atomic::{AtomicU32, AtomicU64, Ordering};
use std::thread::Threads;
use std::time::{Clock, Instant};

const WRITE: ItemId = ItemId(0);

const ROTATE: ItemId = ItemId(1);

const WRITING: QueueId = QueueId(0);

const ROTATING: QueueId = QueueId(1);

const CPU: CpuId = CpuId(0);

/// How many writers there are, and how many lines each gathers.
const WRITERS: u8 = 2;

const LINES: u32 = 100;

/// For how many ticks no line comes before the lines are written, and how many lines fill a file.
const QUIET: u32 = 3;

const FULL: u32 = 50;

/// Counts of lines: those that wait, those in the open file, those in closed files.
#[derive(Default, Drop)]
struct Log {
    waiting: AtomicU32,
    open: AtomicU32,
    closed: AtomicU32,
}

fn move_lines(from: &AtomicU32, to: &AtomicU32) {
    to.fetch_add(from.swap(0, Ordering::SeqCst), Ordering::SeqCst);
}

/// Whether lines are to be written or are being written.
fn is_busy<C: Client>(client: &mut C) -> Result<bool, Fault> {
    let bits = client.busy(WRITE)?;
    Ok(bits != Some(0))
}

impl Service for Log {
    fn run<R: Wait + Clock, C: Context>(
        &self,
        _rt: &R,
        item: ItemId,
        context: &mut C,
    ) -> Result<(), Fault> {
        if item == ROTATE {
            move_lines(&self.open, &self.closed);
            return Ok(());
        }
        move_lines(&self.waiting, &self.open);
        if self.open.load(Ordering::SeqCst) >= FULL {
            context.queue(ROTATE, ROTATING, CPU)?;
        }
        Ok(())
    }

    fn call<R: Wait + Clock, C: Client>(
        &self,
        _rt: &R,
        _place: u8,
        client: &mut C,
    ) -> Result<(), Fault> {
        for line in 1..=LINES {
            self.waiting.fetch_add(1, Ordering::SeqCst);
            client.modify(WRITE, WRITING, CPU, QUIET)?;
            client.tick(1)?;
            if line % 10 == 0 && is_busy(client)? {
                client.tick(QUIET)?;
            }
        }
        Ok(())
    }

    fn end<R: Wait + Clock, C: Client>(&self, _rt: &R, client: &mut C) -> Result<(), Fault> {
        client.tick(QUIET)?;
        client.flush(WRITING)?;
        client.queue(ROTATE, ROTATING, CPU)?;
        for queue in [WRITING, ROTATING] {
            client.drain(queue)?;
            client.destroy(queue)?;
        }
        if self.closed.load(Ordering::SeqCst) == u32::from(WRITERS) * LINES {
            Ok(())
        } else {
            Err(Fault::Own(1))
        }
    }
}

/// The setup that a word after the number of seeds says.
fn setup_of(word: Option<&String>) -> Result<Setup> {
    let Some(word) = word else {
        return Ok(UNIFORM);
    };
    ensure!(word.as_str() == "priorities", "no word, or `priorities`");
    let schedule = Schedule::Priorities {
        changes: 3,
        turns: 500,
    };
    Ok(Setup {
        schedule,
        ..UNIFORM
    })
}

/// Runs the trials, and prints how many ended, how long all took, and how many entries and turns they had.
pub fn time<T: Threads + Wait + Clock + Sync>(
    rt: &HostRuntime,
    threads: &T,
    words: &[String],
) -> Result<()> {
    let alloc = rt.alloc();
    let seeds = words.get(1).context("how many seeds?")?;
    let seeds: u64 = seeds.parse().context("how many seeds?")?;
    let setup = setup_of(words.get(2))?;
    let intensive = QueueShape {
        intensive: true,
        ..PLAIN
    };
    let shape = ShapeBuilder::new(alloc)
        .workers(2)
        .callers(WRITERS)
        .items(2)
        .queue(PLAIN)?
        .queue(intensive)?
        .build()?;
    let (entries, turns) = (AtomicU64::new(0), AtomicU64::new(0));
    let start = Instant::now(rt)?;
    let tried = trials(
        threads,
        alloc,
        &shape,
        &setup,
        0..seeds,
        &|_seed| Log::default(),
        &|progress| {
            if let Progress::Ended {
                entries: made,
                turns: given,
                ..
            } = progress
            {
                entries.fetch_add(made, Ordering::SeqCst);
                turns.fetch_add(given, Ordering::SeqCst);
            }
        },
    );
    let spent = start.elapsed(rt)?;
    ensure!(tried.ended == seeds, "a trial failed");
    println!(rt;
        "{} trials, {} us, {} entries, {} turns",
        tried.ended,
        spent.as_micros(),
        entries.load(Ordering::SeqCst),
        turns.load(Ordering::SeqCst)
    )?;
    Ok(())
}
