//! How long an item waits from its queueing to its start, beside callers that do nothing and beside busy ones.

use anyhow::{Context as _, Result, ensure};
use cmwq_service::{
    Client, Context, CpuId, Fault, ItemId, PLAIN, QueueId, QueueShape, Service, ShapeBuilder,
    run_dropping,
};
use std::alloc::Global;
use std::sync::Wait;
use std::sync::atomic::{AtomicBool, AtomicU64, Ordering};
use std::thread::{self, Threads};
use std::time::{Clock, Duration, Instant};

/// How often the item is queued.
const TIMES: u16 = 100;

/// How many items each of the other callers queues, over and over.
const OTHERS: u16 = 64;

const CALLERS: u8 = 4;

const QUEUE: QueueShape = QueueShape {
    max_active: 512,
    ..PLAIN
};

const CPU: CpuId = CpuId(0);

/// What all threads share: when it all began, when the item was last queued, and how long it waited each time, in
/// nanoseconds.
#[derive(Drop)]
struct Delays {
    begin: Instant,
    is_loaded: bool,
    queued: AtomicU64,
    delays: Vec<AtomicU64>,
    next: AtomicU64,
    is_over: AtomicBool,
}

impl Delays {
    fn new(alloc: Global, begin: Instant, is_loaded: bool) -> Result<Delays> {
        let mut delays = Vec::new(alloc);
        for _ in 0..TIMES {
            delays.push(AtomicU64::new(0))?;
        }
        Ok(Delays {
            begin,
            is_loaded,
            queued: AtomicU64::new(0),
            delays,
            next: AtomicU64::new(0),
            is_over: AtomicBool::new(false),
        })
    }

    /// How many nanoseconds have passed.
    fn passed<R: Clock>(&self, rt: &R) -> u64 {
        match Instant::now(rt) {
            Ok(now) => u64::try_from(now.duration_since(self.begin).as_nanos()).unwrap_or(u64::MAX),
            Err(_) => 0,
        }
    }

    /// Queues the item over and over, each time after it has ended, and lets all others sleep before.
    fn queue_one<R: Wait + Clock, C: Client>(&self, rt: &R, client: &mut C) -> Result<(), Fault> {
        for _ in 0..TIMES {
            thread::sleep(rt, Duration::from_millis(1));
            self.queued.store(self.passed(rt), Ordering::SeqCst);
            client.queue(ItemId(0), QueueId(0), CPU)?;
            client.flush_item(ItemId(0))?;
        }
        self.is_over.store(true, Ordering::SeqCst);
        Ok(())
    }

    /// Queues many items over and over, until all is measured.
    fn queue_many<R: Wait, C: Client>(
        &self,
        rt: &R,
        place: u8,
        client: &mut C,
    ) -> Result<(), Fault> {
        for _ in rt.forever() {
            if self.is_over.load(Ordering::SeqCst) {
                break;
            }
            for more in 0..OTHERS {
                let item = u16::from(place).saturating_mul(OTHERS).saturating_add(more);
                client.queue(ItemId(item), QueueId(place), CPU)?;
            }
            client.flush(QueueId(place))?;
        }
        Ok(())
    }

    /// The delays in order.
    fn in_order(&self, alloc: Global) -> Result<Vec<u64>> {
        let mut delays = Vec::new(alloc);
        for delay in self.delays.iter() {
            delays.push(delay.load(Ordering::SeqCst))?;
        }
        delays.sort_unstable();
        Ok(delays)
    }
}

impl Service for Delays {
    fn run<R: Wait + Clock, C: Context>(
        &self,
        rt: &R,
        item: ItemId,
        _context: &mut C,
    ) -> Result<(), Fault> {
        if item.0 == 0 {
            let delay = self
                .passed(rt)
                .saturating_sub(self.queued.load(Ordering::SeqCst));
            let number = self.next.fetch_add(1, Ordering::SeqCst);
            if let Some(place) = self.delays.get(number as usize) {
                place.store(delay, Ordering::SeqCst);
            }
        }
        Ok(())
    }

    fn call<R: Wait + Clock, C: Client>(
        &self,
        rt: &R,
        place: u8,
        client: &mut C,
    ) -> Result<(), Fault> {
        match place {
            0 => self.queue_one(rt, client),
            _ if self.is_loaded => self.queue_many(rt, place, client),
            _ => Ok(()),
        }
    }

    fn looks(&self) -> bool {
        false
    }
}

/// Queues an item a hundred times, `idle` or `loaded` as the word after `delays` says, and prints how many nanoseconds
/// it waited for its start: the median, and that under which 99 of the hundred stay.
pub fn time<T: Threads + Wait + Clock + Sync>(
    rt: &HostRuntime,
    threads: &T,
    words: &[String],
) -> Result<()> {
    let alloc = rt.alloc();
    let word = words.get(1).context("idle or loaded?")?;
    let is_loaded = word.as_str() == "loaded";
    ensure!(is_loaded || word.as_str() == "idle", "idle or loaded?");
    let mut builder = ShapeBuilder::new(alloc)
        .callers(CALLERS)
        .workers(4)
        .items(OTHERS * u16::from(CALLERS))
        .room(1 << 60);
    for _ in 0..CALLERS {
        builder = builder.queue(QUEUE)?;
    }
    let shape = builder.build()?;
    let delays = Delays::new(alloc, Instant::now(rt)?, is_loaded)?;
    run_dropping(threads, alloc, &shape, &delays)?;
    let delays = delays.in_order(alloc)?;
    let median = delays.get(49).context("too few")?;
    let late = delays.get(98).context("too few")?;
    println!(rt; "{median} {late}")?;
    Ok(())
}
