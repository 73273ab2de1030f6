//! Jobs with retries: a job that fails is tried again later, with a limit.
//!
//! Each job is a work item. Its work function tries it; where that fails it delays its own item, longer each time, and
//! after some tries gives up. One more item queues all jobs, as a batch comes in. The library hands in a tick each
//! millisecond, so the delays go by by themselves. A caller queues the batch, and waits until each job is done or given
//! up.
#![tactic(auto)]

use anyhow::Result;
use cmwq_service::{
    Client, Completion, Context, CpuId, Fault, ItemId, PLAIN, QueueId, QueueShape, Service, Shape,
    ShapeBuilder, run,
};
use std::alloc::Global;
use std::sync::Wait;
use std::sync::atomic::{AtomicU32, Ordering};
use std::thread;
use std::time::{Clock, Duration};

/// Up to four jobs are under way at once: one runs, while others sleep.
const QUEUE: QueueShape = QueueShape {
    max_active: 4,
    ..PLAIN
};

/// A worker for each of them, and one more, which may start what comes.
const WORKERS: u8 = 5;

/// The one queue, and the one CPU.
const JOBS: QueueId = QueueId(0);

const CPU: CpuId = CpuId(0);

/// How often each job fails before it would succeed.
const FAILURES: [u32; 6] = [0, 1, 2, 3, 7, 9];

/// How many jobs there are, and how often one is tried.
const COUNT: u16 = 6;

const MOST_TRIES: u32 = 4;

/// The service stops by it if a job is left at the end.
const UNSETTLED: Fault = Fault::Own(1);

/// The item after those of the jobs: it queues them all.
const BATCH: ItemId = ItemId(COUNT);

/// What all threads share: how often each job was tried, how many were done and given up, and what is completed once
/// for each.
#[derive(Drop)]
struct Jobs {
    tries: [AtomicU32; 6],
    done: AtomicU32,
    given_up: AtomicU32,
    settled: Completion,
}

impl Jobs {
    fn new() -> Jobs {
        Jobs {
            tries: Default::default(),
            done: AtomicU32::new(0),
            given_up: AtomicU32::new(0),
            settled: Completion::new(),
        }
    }

    /// A job is settled for good.
    fn settle<C: Context>(&self, context: &C, count: &AtomicU32) {
        count.fetch_add(1, Ordering::SeqCst);
        context.complete(&self.settled);
    }

    /// How many jobs are done or given up.
    fn count_settled(&self) -> u32 {
        let done = self.done.load(Ordering::SeqCst);
        done.saturating_add(self.given_up.load(Ordering::SeqCst))
    }

    /// Tries a job. While it waits for an answer from elsewhere its run sleeps, so that another one may start on the
    /// same CPU. A delay of the item that runs is allowed: it is queued again when the ticks have gone by.
    fn attempt<R: Wait + Clock, C: Context>(
        &self,
        rt: &R,
        item: ItemId,
        context: &mut C,
    ) -> Result<(), Fault> {
        let job = usize::from(item.0);
        let (Some(tries), Some(failures)) = (self.tries.get(job), FAILURES.get(job)) else {
            return Ok(());
        };
        context.sleep()?;
        thread::sleep(rt, Duration::from_millis(1));
        context.wake()?;
        let before = tries.fetch_add(1, Ordering::SeqCst);
        if before >= *failures {
            self.settle(context, &self.done);
        } else if before + 1 >= MOST_TRIES {
            self.settle(context, &self.given_up);
        } else if context.delay(item, JOBS, CPU, 1 << before).is_err() {
            // there is no room for a further try
            self.settle(context, &self.given_up);
        }
        Ok(())
    }
}

impl Service for Jobs {
    /// The work function of all items. It may make as many calls as it likes; one that isn't answered stops the
    /// service, by `?`.
    fn run<R: Wait + Clock, C: Context>(
        &self,
        rt: &R,
        item: ItemId,
        context: &mut C,
    ) -> Result<(), Fault> {
        if item != BATCH {
            return self.attempt(rt, item, context);
        }
        for job in 0..COUNT {
            context.queue(ItemId(job), JOBS, CPU)?;
        }
        Ok(())
    }

    /// Queues the batch, and waits until no job is left.
    fn call<R: Wait + Clock, C: Client>(
        &self,
        _rt: &R,
        _place: u8,
        client: &mut C,
    ) -> Result<(), Fault> {
        client.queue(BATCH, JOBS, CPU)?;
        for _ in 0..COUNT {
            client.wait_for(&self.settled)?;
        }
        Ok(())
    }

    /// Each job is settled.
    fn end<R: Wait + Clock, C: Client>(&self, _rt: &R, _client: &mut C) -> Result<(), Fault> {
        if self.count_settled() == u32::from(COUNT) {
            Ok(())
        } else {
            Err(UNSETTLED)
        }
    }

    /// The clock: a tick each millisecond.
    fn tick_every(&self) -> Option<Duration> {
        Some(Duration::from_millis(1))
    }
}

fn shape(alloc: Global) -> Result<Shape> {
    let shape = ShapeBuilder::new(alloc)
        .workers(WORKERS)
        .callers(1)
        .items(COUNT + 1)
        .queue(QUEUE)?
        .build()?;
    Ok(shape)
}

fn main(rt: HostRuntime) -> Result<()> {
    let alloc = rt.alloc();
    let shape = shape(alloc)?;
    let jobs = Jobs::new();
    let _history = run(&rt, alloc, &shape, &jobs)?;
    let mut tries = 0u32;
    for count in &jobs.tries {
        tries = tries.saturating_add(count.load(Ordering::SeqCst));
    }
    let done = jobs.done.load(Ordering::SeqCst);
    let given_up = jobs.given_up.load(Ordering::SeqCst);
    println!(rt; "jobs done: {done}")?;
    println!(rt; "jobs given up: {given_up}")?;
    println!(rt; "tries: {tries}")?;
    Ok(())
}
