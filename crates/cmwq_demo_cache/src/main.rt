//! A write-back cache over two devices, in the way of the kernel's: pages that are written to become dirty, and go to
//! their device later.
//!
//! Each device has a work item that writes its dirty pages back. A page that becomes dirty puts that off by some ticks,
//! so that many pages go at once. A sync writes now and waits (`flush_delayed`). An unmount is an item too: its work
//! function takes the other item back, waits until it does not run (`cancel_sync`), and writes what is left itself.
//! The program prints what holds of each run, in any order of the threads: all pages reached their devices.
#![tactic(auto)]

use anyhow::Result;
use cmwq_service::{
    Client, Context, CpuId, Fault, ItemId, PLAIN, QueueId, QueueShape, Service, Shape,
    ShapeBuilder, run_dropping_with_waits,
};
use std::alloc::Global;
use std::sync::Wait;
use std::sync::atomic::{AtomicU32, Ordering};
use std::time::Clock;

/// Writing back is ordinary work: both devices at once, in the pools of normal priority.
const QUEUE: QueueShape = QueueShape {
    max_active: 2,
    ..PLAIN
};

/// The queue of write-backs, that of unmounts, and the one CPU.
const WRITEBACK: QueueId = QueueId(0);

const UNMOUNT: QueueId = QueueId(1);

const CPU: CpuId = CpuId(0);

/// How many ticks a device has to be left alone before its pages are written back.
const QUIET: u32 = 5;

/// How many pages each device gets, after how many of them comes a sync, and how many are too many to wait.
const PAGES: u32 = 60;

const SYNC: u32 = 20;

const MANY: u32 = 16;

/// The service stops by it if a page is not on its device at the end.
const LOST: Fault = Fault::Own(1);

/// A device: its pages that are dirty in memory, and those that it has. Here they are only counted.
#[derive(Default, Drop)]
struct Device {
    dirty: AtomicU32,
    stored: AtomicU32,
}

impl Device {
    fn write_back(&self) {
        let pages = self.dirty.swap(0, Ordering::SeqCst);
        self.stored.fetch_add(pages, Ordering::SeqCst);
    }
}

/// What all threads share.
#[derive(Default, Drop)]
struct Cache {
    disk: Device,
    tape: Device,
}

/// How many runs may wait: one for each device.
const WAITS: u8 = 2;

/// How many devices there are. Item 0 writes back the disk, and item 1 the tape; items 2 and 3 unmount them.
const DEVICES: u16 = 2;

const DISK: ItemId = ItemId(0);

/// The item that writes back the device which this item unmounts, if it does.
fn unmounted_by(item: ItemId) -> Option<ItemId> {
    if item.0 < DEVICES {
        return None;
    }
    Some(ItemId(item.0 - DEVICES))
}

impl Cache {
    fn device(&self, item: ItemId) -> &Device {
        if item == DISK { &self.disk } else { &self.tape }
    }

    /// Makes a page dirty. The write-back is put off anew (`modify` delays the item whether or not it is pending), but
    /// not if there are too many dirty pages.
    fn touch<C: Client>(&self, client: &mut C, item: ItemId) -> Result<(), Fault> {
        let before = self.device(item).dirty.fetch_add(1, Ordering::SeqCst);
        let ticks = if before >= MANY { 0 } else { QUIET };
        client.modify(item, WRITEBACK, CPU, ticks)?;
        Ok(())
    }
}

impl Service for Cache {
    /// The work function: a worker calls it once for each start of an item.
    fn run<R: Wait + Clock, C: Context>(
        &self,
        _rt: &R,
        item: ItemId,
        context: &mut C,
    ) -> Result<(), Fault> {
        match unmounted_by(item) {
            Some(device) => {
                // no write-back is pending or runs after this
                context.cancel_sync(device)?;
                self.device(device).write_back();
            }
            None => self.device(item).write_back(),
        }
        Ok(())
    }

    /// A thread for each device. A call that isn't answered ends it with its fault, and with it the service: `?`.
    fn call<R: Wait + Clock, C: Client>(
        &self,
        _rt: &R,
        place: u8,
        client: &mut C,
    ) -> Result<(), Fault> {
        let item = ItemId(u16::from(place));
        for page in 1..=PAGES {
            self.touch(client, item)?;
            client.tick(1)?;
            if page % SYNC == 0 {
                client.flush_delayed(item)?;
            }
        }
        let unmount = ItemId(DEVICES + u16::from(place));
        client.queue(unmount, UNMOUNT, CPU)?;
        client.flush_item(unmount)?;
        Ok(())
    }

    /// What comes when both devices are unmounted: the queues go.
    fn end<R: Wait + Clock, C: Client>(&self, _rt: &R, client: &mut C) -> Result<(), Fault> {
        for queue in [WRITEBACK, UNMOUNT] {
            client.drain(queue)?;
            client.destroy(queue)?;
        }
        for device in [&self.disk, &self.tape] {
            if device.stored.load(Ordering::SeqCst) != PAGES {
                return Err(LOST);
            }
        }
        Ok(())
    }
}

fn shape(alloc: Global) -> Result<Shape> {
    let shape = ShapeBuilder::new(alloc)
        .workers(4)
        .callers_and_waits(2, WAITS)
        .items(4)
        .queue(QUEUE)?
        .queue(QUEUE)?
        .build()?;
    Ok(shape)
}

fn main(rt: HostRuntime) -> Result<()> {
    let alloc = rt.alloc();
    let shape = shape(alloc)?;
    let cache = Cache::default();
    // the history would say which call was answered what, and in which order; here nobody looks at it
    run_dropping_with_waits(&rt, alloc, &shape, &cache, WAITS)?;
    let disk = cache.disk.stored.load(Ordering::SeqCst);
    let tape = cache.tape.stored.load(Ordering::SeqCst);
    println!(rt; "pages on the disk: {disk}")?;
    println!(rt; "pages on the tape: {tape}")?;
    Ok(())
}
