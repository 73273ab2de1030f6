//! What `bench/run` times beside the words of `cmwq`. At a number from 1 to 4: so many callers, each on a thread of its
//! own, that look at an item over and over, without a lock. At `ticks`, a number of callers and one of readers: so many
//! callers that tick one hub, of which so many may look. At `steps`: the calls of a file, made in a Book. At `jobs`:
//! runs of a service. At `delays`: how long an item waits for its start. At `trials`, a number of seeds: trials of a
//! service.
#![tactic(auto)]

mod delays;
mod jobs;
mod schedules;
mod steps;

ghost use Rattle.std.specs.Prelude.{◌≡◌, ◌<◌};

use anyhow::{Context, Result, ensure};
use cmwq_model::{Counts, ItemId, QueueShape, Shape};
use cmwq_rt::{Caller, CallerCalls, Hub, HubCaller, HubName, HubParts, Participants, RunFault};
use std::alloc::Global;
use std::marker::Brand;
use std::sync::Wait;
use std::thread::{self, Scope, Threads};

const COUNTS: Counts = Counts {
    cpus: 1,
    workers: 1,
    callers: 64,
    items: 1,
    room: 1_000_000,
};

const QUEUE: QueueShape = QueueShape {
    max_active: 1,
    high: false,
    intensive: false,
    freezable: false,
};

const ITEM: ItemId = ItemId(0);

/// How often each caller looks.
const LOOKS: u32 = 2_000_000;

/// How many entries the hub keeps.
const ROOM: u32 = 1_000_000;

/// How many ticks all callers make together, or a few less. Each is two entries: its own, and that of a fire which
/// finds nothing due.
const TICKS: u32 = 500_000;

/// What each caller does over and over.
#[derive(Clone, Copy)]
enum Task {
    Look,
    Tick { times: u32 },
}

/// What the threads share. The ghost field, which is no data, tells the proofs that the item is there.
struct Bench<N: HubName> {
    hub: Hub<N>,
    task: Task,
    ghost item: { 0 < N.layout.items },
}

impl<N: HubName> Bench<N> {
    /// How often the item was neither pending nor running.
    fn look(&self, mut caller: Caller<N>) -> u64 {
        let mut idle = 0u64;
        for _ in 0..LOOKS {
            if caller.busy(ITEM) == Some(0) {
                idle = idle.wrapping_add(1);
            }
        }
        idle
    }

    /// How many ticks were made.
    fn tick<R: Wait>(&self, rt: &R, caller: Caller<N>, times: u32) -> u64 {
        let hub = &self.hub;
        let mut clock = HubCaller { rt, hub, caller };
        let mut made = 0u64;
        for _ in 0..times {
            if clock.tick(1).is_ok() {
                made = made.wrapping_add(1);
            }
        }
        made
    }

    fn act<R: Wait>(&self, rt: &R, caller: Caller<N>) -> u64 {
        match self.task {
            Task::Look => self.look(caller),
            Task::Tick { times } => self.tick(rt, caller, times),
        }
    }
}

/// Starts a thread for each of so many callers, and adds up what they did.
fn run_threads<'s, E, N: HubName + Send + Sync + 's, R: Threads + Wait + Sync>(
    scope: &Scope<'s, E>,
    rt: &'s R,
    alloc: Global,
    bench: &'s Bench<N>,
    mut participants: Participants<N>,
    callers: u8,
) -> Result<u64, RunFault> {
    let mut threads = Vec::new(alloc);
    for _ in 0..callers {
        let caller = participants.caller()?;
        let started = scope.spawn(move || bench.act(rt, caller));
        let thread = started.map_err(|_| RunFault::NoThread)?;
        if threads.push(thread).is_err() {
            return Err(RunFault::NoMemory { ticket: None });
        }
    }
    let mut done = 0u64;
    for thread in threads {
        done = done.wrapping_add(thread.join(rt));
    }
    Ok(done)
}

fn run<'x, N: HubName + Send + Sync + 'static, R: Threads + Wait + Sync>(
    rt: &'x R,
    alloc: Global,
    bench: &'x Bench<N>,
    participants: Participants<N>,
    callers: u8,
) -> Result<u64, RunFault> {
    thread::scope(thread::scope_env(), rt, |scope| -> Result<u64, RunFault> {
        run_threads(scope, rt, alloc, bench, participants, callers)
    })
}

/// Runs the callers on a hub of these parts, whose name is `N`.
fn measure<N: HubName + Send + Sync + 'static, R: Threads + Wait + Sync>(
    rt: &R,
    alloc: Global,
    parts: HubParts,
    callers: u8,
    task: Task,
) -> Result<u64, RunFault>
    requires layout { parts.shape ≡ N.layout }
    requires book { parts.opening.book ≡ N.book }
    requires lends { parts.dispatch.first_lent ≡ N.first_lent }
    requires ledger { (parts.blank.name ≡ N.name) × (parts.blank.parts ≡ N.parts) }
    requires item { 0 < parts.shape.items }
{
    let (hub, participants) = Hub::<N>::open(parts);
    let bench = Bench { hub, task };
    let done = run(rt, alloc, &bench, participants, callers);
    let Bench { hub, task: _ } = bench;
    let (mut settled, mut workers) = ([], []);
    hub.into_history(rt, &mut settled, &mut workers)?;
    done
}

/// What a run of this program measures.
struct Job {
    callers: u8,
    readers: u8,
    task: Task,
}

/// The job that the words after the program's name say.
fn job_of(words: &[String]) -> Result<Job> {
    let what = words
        .first()
        .context("how many callers, `ticks`, or `steps`?")?;
    if what.as_str() != "ticks" {
        let callers: u8 = what.parse().context("how many callers?")?;
        ensure!((1..=4).contains(&callers), "1 to 4 callers");
        return Ok(Job {
            callers,
            readers: callers,
            task: Task::Look,
        });
    }
    let callers = words.get(1).context("how many callers?")?;
    let callers: u8 = callers.parse().context("how many callers?")?;
    let readers = words.get(2).context("how many readers?")?;
    let readers: u8 = readers.parse().context("how many readers?")?;
    ensure!((1..=64).contains(&callers), "1 to 64 callers");
    let times = TICKS / u32::from(callers.max(1));
    Ok(Job {
        callers,
        readers,
        task: Task::Tick { times },
    })
}

fn main(rt: HostRuntime) -> Result<()> {
    let alloc = rt.alloc();
    let args: Vec<String> = std::env::args(&rt)?.collect(alloc)?;
    let words = args.get(1..).unwrap_or(&[]);
    if words.first().is_some_and(|word| word.as_str() == "steps") {
        return steps::time(&rt);
    }
    if words.first().is_some_and(|word| word.as_str() == "jobs") {
        return jobs::time(&rt, &rt, words);
    }
    if words.first().is_some_and(|word| word.as_str() == "delays") {
        return delays::time(&rt, &rt, words);
    }
    if words.first().is_some_and(|word| word.as_str() == "trials") {
        return schedules::time(&rt, &rt, words);
    }
    let Job {
        callers,
        readers,
        task,
    } = job_of(words)?;
    let queues = vec![in alloc; QUEUE]?;
    let shape = Shape::new(COUNTS, queues).context("a shape outside the limits")?;
    let parts = HubParts::with_readers(&rt, alloc, &shape, ROOM, readers)?;
    let done = measure::<Brand, HostRuntime>(&rt, alloc, parts, callers, task)?;
    match task {
        Task::Look => {
            let all = u64::from(callers) * u64::from(LOOKS);
            ensure!(done == all, "the item was busy");
            println!(rt; "{done} looks by {callers}")?;
        }
        Task::Tick { .. } => println!(rt; "{done} ticks by {callers} beside {readers} readers")?,
    }
    Ok(())
}
