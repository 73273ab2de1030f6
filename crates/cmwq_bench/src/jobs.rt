//! Runs of a service a second: an item that queues itself, items that queue others, and callers that queue many.

ghost use Rattle.std.specs.Prelude.{◌≤◌};

use anyhow::{Context as _, Result, bail, ensure};
use cmwq_base::{BufferedSink, FromStd};
use cmwq_service::{
    Call, Client, Context, CpuId, Fault, ItemId, PLAIN, QueueId, QueueShape, Reply, Service, Shape,
    ShapeBuilder, run, run_dropping, run_writing,
};
use std::alloc::Global;
use std::str::FromStr;
use std::sync::Wait;
use std::sync::atomic::{AtomicU32, Ordering};
use std::thread::Threads;
use std::time::{Clock, Instant};

/// How many callers there are, and how many items each may have.
const CALLERS: u8 = 4;

const MOST_ITEMS: u16 = 16_383;

/// How many calls stand in a batch, at most.
const BATCH: usize = 64;

/// How many entries are kept at most. Memory is reserved for all of them at once.
const KEPT: u64 = 16_000_000;

/// How many entries wait to be written, at most.
const UNWRITTEN: u32 = 4096;

const QUEUE: QueueShape = QueueShape {
    max_active: 512,
    ..PLAIN
};

const CPU: CpuId = CpuId(0);

/// What is queued over and over.
#[derive(Clone, Copy, PartialEq, Eq)]
enum Load {
    /// An item queues itself.
    Itself,
    /// Each caller queues its first item, which queues its others, and waits for all of them.
    Fanout,
    /// Each caller queues all its items, and waits for them.
    Stream,
}

impl Load {
    fn of(word: &str) -> Option<Load> {
        match word {
            "self" => Some(Load::Itself),
            "fanout" => Some(Load::Fanout),
            "stream" => Some(Load::Stream),
            _ => None,
        }
    }
}

/// Where the history goes.
#[derive(Clone, Copy, PartialEq, Eq)]
enum History {
    Dropped,
    Kept,
    /// To standard output.
    Written,
}

impl History {
    fn of(word: &str) -> Option<History> {
        match word {
            "dropped" => Some(History::Dropped),
            "kept" => Some(History::Kept),
            "written" => Some(History::Written),
            _ => None,
        }
    }
}

/// What all threads share: the load, how often it is to be made, and how many runs there were.
#[derive(Drop)]
struct Jobs {
    load: Load,
    rounds: u32,
    /// How many items each caller has. Caller c has those from c times as many on, and a queue of its own.
    items: u16,
    /// Whether many items are queued in batches.
    in_batches: bool,
    runs: AtomicU32,
}

impl Jobs {
    fn first_of(&self, caller: u8) -> u16 {
        u16::from(caller).saturating_mul(self.items)
    }

    fn queue_of(&self, item: ItemId) -> QueueId {
        match item.0.checked_div(self.items) {
            Some(caller) => QueueId((caller % u16::from(CALLERS)) as u8),
            None => QueueId(0),
        }
    }

    /// Calls that queue the items from this one on, and how many there are: so many, but no more than a batch has.
    fn batch_from(&self, first: u16, many: u16) -> ([Call; BATCH], usize)
        ensures { result.1 ≤ 64 }
    {
        let queue = self.queue_of(ItemId(first));
        let mut calls = [Call::Freeze; BATCH];
        let many = usize::from(many).min(BATCH);
        for (k, call) in calls.iter_mut().enumerate() {
            let item = ItemId(first.saturating_add(k as u16));
            *call = Call::Queue {
                item,
                queue,
                cpu: CPU,
            };
        }
        (calls, many)
    }

    /// A caller queues so many items from this one on.
    fn queue_by_caller<C: Client>(
        &self,
        client: &mut C,
        first: u16,
        many: u16,
    ) -> Result<(), Fault> {
        let mut replies = [Reply::No; BATCH];
        let mut made = 0u16;
        for _ in 0..many {
            if made >= many {
                break;
            }
            let next = first.saturating_add(made);
            if self.in_batches {
                let (calls, some) = self.batch_from(next, many.saturating_sub(made));
                client.make_all(&calls[..some], &mut replies)?;
                made = made.saturating_add(some as u16);
            } else {
                client.queue(ItemId(next), self.queue_of(ItemId(next)), CPU)?;
                made = made.saturating_add(1);
            }
        }
        Ok(())
    }

    /// So does a run.
    fn queue_by_run<C: Context>(
        &self,
        context: &mut C,
        first: u16,
        many: u16,
    ) -> Result<(), Fault> {
        let mut replies = [Reply::No; BATCH];
        let mut made = 0u16;
        for _ in 0..many {
            if made >= many {
                break;
            }
            let next = first.saturating_add(made);
            if self.in_batches {
                let (calls, some) = self.batch_from(next, many.saturating_sub(made));
                context.make_all(&calls[..some], &mut replies)?;
                made = made.saturating_add(some as u16);
            } else {
                context.queue(ItemId(next), self.queue_of(ItemId(next)), CPU)?;
                made = made.saturating_add(1);
            }
        }
        Ok(())
    }
}

impl Service for Jobs {
    fn run<R: Wait + Clock, C: Context>(
        &self,
        _rt: &R,
        item: ItemId,
        context: &mut C,
    ) -> Result<(), Fault> {
        let before = self.runs.fetch_add(1, Ordering::SeqCst);
        match self.load {
            Load::Itself => {
                if before.saturating_add(1) < self.rounds {
                    context.queue(item, self.queue_of(item), CPU)?;
                }
            }
            Load::Fanout => {
                if item.0.checked_rem(self.items) == Some(0) {
                    let others = self.items.saturating_sub(1);
                    self.queue_by_run(context, item.0.saturating_add(1), others)?;
                }
            }
            Load::Stream => {}
        }
        Ok(())
    }

    fn call<R: Wait + Clock, C: Client>(
        &self,
        _rt: &R,
        place: u8,
        client: &mut C,
    ) -> Result<(), Fault> {
        let queue = QueueId(place);
        let first = self.first_of(place);
        match self.load {
            Load::Itself => {
                if place == 0 {
                    client.queue(ItemId(0), queue, CPU)?;
                    client.drain(queue)?;
                }
            }
            Load::Fanout => {
                for _ in 0..self.rounds {
                    client.queue(ItemId(first), queue, CPU)?;
                    client.drain(queue)?;
                }
            }
            Load::Stream => {
                for _ in 0..self.rounds {
                    self.queue_by_caller(client, first, self.items)?;
                    client.flush(queue)?;
                }
            }
        }
        Ok(())
    }

    fn looks(&self) -> bool {
        false
    }
}

/// What the words after `jobs` say.
#[derive(Drop)]
struct Job {
    jobs: Jobs,
    workers: u8,
    history: History,
}

fn number<T: FromStr + Drop>(words: &[String], at: usize, what: &str) -> Result<T>
where
    T::Err: Drop,
{
    let Some(word) = words.get(at) else {
        bail!("{what}?");
    };
    match word.parse() {
        Ok(number) => Ok(number),
        Err(_) => bail!("{what}?"),
    }
}

fn job_of(words: &[String]) -> Result<Job> {
    let load = words.get(1).and_then(|word| Load::of(word));
    let history = words.get(4).and_then(|word| History::of(word));
    let job = Job {
        jobs: Jobs {
            load: load.context("self, fanout or stream?")?,
            rounds: number(words, 2, "how many rounds")?,
            items: number(words, 5, "how many items has each caller")?,
            in_batches: words.get(6).is_some_and(|word| word.as_str() == "batches"),
            runs: AtomicU32::new(0),
        },
        workers: number(words, 3, "how many workers")?,
        history: history.context("dropped, kept or written?")?,
    };
    ensure!((1..=64).contains(&job.workers), "1 to 64 workers");
    ensure!(
        (1..=MOST_ITEMS).contains(&job.jobs.items),
        "1 to 16,383 items for each caller"
    );
    Ok(job)
}

fn shape_of(alloc: Global, job: &Job) -> Result<Shape> {
    let keeps = job.history == History::Kept;
    let mut builder = ShapeBuilder::new(alloc)
        .callers(CALLERS)
        .workers(job.workers)
        .items(job.jobs.items.saturating_mul(u16::from(CALLERS)))
        .room(if keeps { KEPT } else { 1 << 60 });
    for _ in 0..CALLERS {
        builder = builder.queue(QUEUE)?;
    }
    Ok(builder.build()?)
}

fn serve<T: Threads + Wait + Clock + Sync>(
    rt: &HostRuntime,
    threads: &T,
    job: &Job,
    shape: &Shape,
) -> Result<()> {
    let alloc = rt.alloc();
    match job.history {
        History::Dropped => {
            run_dropping(threads, alloc, shape, &job.jobs)?;
        }
        History::Kept => {
            if let Err(stopped) = run(threads, alloc, shape, &job.jobs) {
                bail!("{}", stopped.fault);
            }
        }
        History::Written => {
            let mut output = BufferedSink::new(alloc, FromStd::new(rt.stdout()))?;
            run_writing(threads, alloc, shape, &job.jobs, UNWRITTEN, &mut output)?;
        }
    }
    Ok(())
}

/// Runs the load that the words after `jobs` say, and prints on standard error how many runs a second there were. The
/// words are the load, the rounds, how many workers a pool has, what becomes of the history, how many items each caller
/// has, and `batches` if many items are queued in batches.
pub fn time<T: Threads + Wait + Clock + Sync>(
    rt: &HostRuntime,
    threads: &T,
    words: &[String],
) -> Result<()> {
    let job = job_of(words)?;
    let shape = shape_of(rt.alloc(), &job)?;
    let start = Instant::now(rt)?;
    serve(rt, threads, &job, &shape)?;
    let spent = Instant::now(rt)?.duration_since(start);
    let runs = job.jobs.runs.load(Ordering::SeqCst);
    let per_second = u128::from(runs) * 1_000_000_000 / spent.as_nanos().max(1);
    eprintln!(rt; "{runs} runs, {per_second} a second")?;
    Ok(())
}
