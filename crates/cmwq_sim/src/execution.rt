//! A scenario replayed over the book, millisecond by millisecond.

ghost use Rattle.std.specs.Prelude.{◌≡◌, ℕ, drop, MatchOption, ◌≤◌, ◌<◌, ◌+◌, ◌++◌, ◌∷◌, [], ◌==◌, ◌&&◌, not, map};
ghost use Rattle.std.specs.Prelude.{find, filter, IsTrue, IfOk, OnOk, IfSome, IsNone};
ghost use Rattle.std.specs.List.{AllByRecursion};
ghost use Rattle.cmwq_model.specs.declared.id.Who.TheVariants as who;
ghost use Rattle.cmwq_model.specs.Prelude.{fits, number_started};
ghost use Rattle.cmwq_core.specs.History.{takes, next_entry, with_entry, past_in};
ghost use Rattle.cmwq_sim.specs.Plan.{plan_of, event_of};
ghost use Rattle.cmwq_sim.specs.Limits.{IsWithinLimits};
ghost use Rattle.cmwq_sim.specs.Lines as lines;
ghost use Rattle.cmwq_sim.specs.Ends.{moment_after};
ghost use Rattle.cmwq_sim.specs.Shows as shows;
ghost use Rattle.cmwq_sim.specs.Takers.{IsTaker, NoTaker};
ghost use Rattle.cmwq_sim.specs.Standing.{moment_in, Stands, StandsAt, started_one, starts_lines, LessFirst};
ghost use Rattle.cmwq_sim.specs.Rooms.{IsRoomy};

use crate::scenario::{LineKind, Scenario, SimQueue, TableLine};
use crate::times::{item_count, part_at, queue_of, whole_time};
use cmwq_core::Book;
use cmwq_model::{
    Call, CallerId, Counts, CpuId, ItemId, NoMemory, Number, PoolId, QueueId, QueueShape, Reply,
    Shape, Who, WorkerId,
};
use std::alloc::{AllocError, Global};
use std::mem::{drop, replace};

/// An item on the CPU's list: what is left of its burn, and which of its parts comes next.
#[derive(Clone, Copy)]
struct Running {
    item: u8,
    burn: u16,
    next: usize,
}

/// An item that sleeps: when it wakes, and which of its parts comes next.
#[derive(Clone, Copy)]
struct Asleep {
    item: u8,
    until: u32,
    next: usize,
}

/// The book says who waits. The slot of an item is the worker that it started in.
#[derive(Drop)]
struct Execution {
    book: Book,
    cpu: Vec<Running>,
    sleeping: Vec<Asleep>,
    slots: [u8; 8],
    lines: Vec<TableLine>,
}

const POOL: PoolId = PoolId {
    cpu: CpuId(0),
    high: false,
};

fn worker(index: u8) -> Who
    ensures { result ≡ who.Worker (shows.plan_worker index) }
{
    Who::Worker(WorkerId { pool: POOL, index })
}

/// A call for which there is room.
fn call(book: &mut Book, who: Who, call: Call)
    requires fitting { IsTrue (fits book.old.layout who call) }
    requires room { IsTrue (takes book.old who call) }
    ensures { book.new ≡ with_entry book.old (next_entry book.old who call) }
{
    match book.step(who, call) {
        Ok(_) => (),
        Err(_) => unreachable!(),
    }
}

fn tell(
    alloc: Global,
    lines: &mut Vec<TableLine>,
    at: u32,
    kind: LineKind,
    item: u8,
) -> Result<(), AllocError>
    ensures { OnOk result (map event_of lines.new.items ≡ map event_of lines.old.items
        ++ record { at = at; kind = kind; items = item ∷ [] } ∷ []) }
{
    let mut items = Vec::new(alloc);
    items.push(item)?;
    lines.push(TableLine { at, kind, items })?;
    Ok(())
}

/// One line for all that start.
fn tell_starts(lines: &mut Vec<TableLine>, at: u32, items: Vec<u8>) -> Result<(), AllocError>
    ensures { OnOk result (map event_of lines.new.items ≡ map event_of lines.old.items ++ starts_lines at items.items) }
{
    if !items.is_empty() {
        lines.push(TableLine {
            at,
            kind: LineKind::Starts,
            items,
        })?;
    }
    Ok(())
}

fn started(reply: Reply) -> Option<Number>
    ensures { result ≡ number_started reply }
{
    match reply {
        Reply::Started(number) | Reply::StartedEnlist(number, _) => Some(number),
        _ => None,
    }
}

fn first(cpu: &[Running]) -> Option<Running>
    ensures { MatchOption result (cpu.now ≡ []) (λ job. cpu.now ≡ job ∷ drop 1 cpu.now) }
{
    match cpu {
        [] => None,
        [job, ..] => Some(*job),
    }
}

fn burn_first(cpu: &mut [Running])
    requires { AllByRecursion (λ j. 1 ≤ j.burn) cpu.old }
    ensures { LessFirst cpu.old cpu.new }
{
    if let [job, ..] = cpu {
        job.burn -= 1;
    }
}

fn is_due(sleeper: &Asleep, at: u32, item: u8) -> bool
    ensures { result ≡ ((sleeper.now.item == item) && (sleeper.now.until == at)) }
{
    sleeper.item == item && sleeper.until == at
}

/// The sleeper of this item, if its time is over.
fn due(sleeping: &[Asleep], at: u32, item: u8) -> Option<Asleep>
    ensures { result ≡ find (λ x. (x.item == item) && (x.until == at)) sleeping.now }
{
    for sleeper in sleeping {
        if is_due(sleeper, at, item) {
            return Some(*sleeper);
        }
    }
    None
}

fn is_other(sleeper: &Asleep, item: u8) -> bool
    ensures { result ≡ not (sleeper.now.item == item) }
{
    sleeper.item != item
}

fn forget(sleeping: &mut Vec<Asleep>, item: u8)
    ensures { sleeping.new.items ≡ filter (λ x. not (x.item == item)) sleeping.old.items }
{
    sleeping.retain(|x| is_other(x, item));
}

fn queue_shape(queue: SimQueue) -> QueueShape
    ensures { result ≡ shows.queue_shape queue }
{
    QueueShape {
        max_active: queue.max_active,
        high: false,
        intensive: queue.intensive,
        freezable: false,
    }
}

fn queue_shapes(alloc: Global, queues: &[SimQueue]) -> Result<Vec<QueueShape>, AllocError>
    ensures { IfOk result (λ shapes. shapes.items ≡ map shows.queue_shape queues.now) }
{
    queues
        .iter()
        .map(|queue| queue_shape(*queue))
        .collect(alloc)
}

fn shape_of(alloc: Global, scenario: &Scenario) -> Result<Shape, AllocError>
    requires { IsWithinLimits (plan_of scenario.now) }
    ensures { IfOk result (λ shape. shape ≡ shows.layout_for (plan_of scenario.now)) }
{
    let queues = queue_shapes(alloc, &scenario.queues)?;
    let counts = Counts {
        cpus: 1,
        workers: 8,
        callers: 1,
        items: 8,
        room: 1000,
    };
    match Shape::new(counts, queues) {
        Some(shape) => Ok(shape),
        None => unreachable!(),
    }
}

/// Queues the items one after the other.
fn queue_all(book: &mut Book, scenario: &Scenario)
    requires limits { IsWithinLimits (plan_of scenario.now) }
    requires fresh { book.old ≡ record { layout = shows.layout_for (plan_of scenario.now); room = 1000; entries = [] } }
    ensures layout { book.new.layout ≡ shows.layout_for (plan_of scenario.now) }
    ensures room { book.new.room ≡ 1000 }
    ensures shows { (slot : ℕ → ℕ)
        → shows.Shows (plan_of scenario.now) (past_in book.new) (lines.queued_at_first (plan_of scenario.now)) slot }
    ensures roomy { IsRoomy (plan_of scenario.now) (past_in book.new) (lines.queued_at_first (plan_of scenario.now)) }
{
    for item in 0..item_count(scenario) {
        let queue = queue_of(scenario, item);
        let queued = Call::Queue {
            item: ItemId(u16::from(item)),
            queue: QueueId(queue),
            cpu: CpuId(0),
        };
        call(book, Who::Caller(CallerId(0)), queued);
    }
}

impl Execution {
    fn new(alloc: Global, scenario: &Scenario) -> Result<Execution, NoMemory>
        requires { IsWithinLimits (plan_of scenario.now) }
        ensures { IfOk result
            (λ execution. StandsAt (plan_of scenario.now) execution (lines.queued_at_first (plan_of scenario.now))) }
    {
        let shape = shape_of(alloc, scenario)?;
        let mut book = Book::new(alloc, &shape, 1000)?;
        queue_all(&mut book, scenario);
        Ok(Execution {
            book,
            cpu: Vec::new(alloc),
            sleeping: Vec::new(alloc),
            slots: [0; 8],
            lines: Vec::new(alloc),
        })
    }

    /// If the first of the CPU's list has burnt its time, it sleeps, or ends if nothing is left.
    fn serve(&mut self, alloc: Global, scenario: &Scenario, at: u32) -> Result<(), AllocError>
        requires stands { Stands (plan_of scenario.now) self.old }
        requires early { at ≤ 64000 }
        ensures { OnOk result
            (StandsAt (plan_of scenario.now) self.new
            (lines.serve (plan_of scenario.now) at (moment_in (plan_of scenario.now) self.old))) }
    {
        let Some(job) = first(&self.cpu) else {
            return Ok(());
        };
        if job.burn > 0 {
            return Ok(());
        }
        let slot = worker(self.slots[usize::from(job.item)]);
        self.cpu.remove(0);
        match part_at(scenario, job.item, job.next) {
            Some(pause) => {
                call(&mut self.book, slot, Call::Sleep);
                self.sleeping.push(Asleep {
                    item: job.item,
                    until: at + u32::from(pause),
                    next: job.next + 1,
                })?;
                tell(alloc, &mut self.lines, at, LineKind::Sleeps, job.item)?;
                Ok(())
            }
            None => {
                call(&mut self.book, slot, Call::Finish);
                tell(alloc, &mut self.lines, at, LineKind::Ends, job.item)?;
                Ok(())
            }
        }
    }

    /// If this item sleeps and its time is over, it wakes, and burns or ends.
    fn wake_item(
        &mut self,
        alloc: Global,
        scenario: &Scenario,
        at: u32,
        item: u8,
    ) -> Result<(), AllocError>
        requires stands { Stands (plan_of scenario.now) self.old }
        requires early { at ≤ 64000 }
        ensures { OnOk result
            (StandsAt (plan_of scenario.now) self.new
            (lines.wake_item (plan_of scenario.now) at (moment_in (plan_of scenario.now) self.old) item)) }
    {
        let Some(sleeper) = due(&self.sleeping, at, item) else {
            return Ok(());
        };
        let slot = worker(self.slots[usize::from(item)]);
        forget(&mut self.sleeping, item);
        call(&mut self.book, slot, Call::Wake);
        match part_at(scenario, item, sleeper.next) {
            Some(burn) => {
                self.cpu.push(Running {
                    item,
                    burn,
                    next: sleeper.next + 1,
                })?;
                tell(alloc, &mut self.lines, at, LineKind::WakesBurns, item)?;
                Ok(())
            }
            None => {
                call(&mut self.book, slot, Call::Finish);
                tell(alloc, &mut self.lines, at, LineKind::WakesEnds, item)?;
                Ok(())
            }
        }
    }

    fn wake(&mut self, alloc: Global, scenario: &Scenario, at: u32) -> Result<(), AllocError>
        requires stands { Stands (plan_of scenario.now) self.old }
        requires early { at ≤ 64000 }
        ensures { OnOk result
            (StandsAt (plan_of scenario.now) self.new
            (lines.wake_sleepers (plan_of scenario.now) at (moment_in (plan_of scenario.now) self.old))) }
    {
        for item in 0..item_count(scenario) {
            self.wake_item(alloc, scenario, at, item)?;
        }
        Ok(())
    }

    /// The first worker whose take would start an item, and that item. A take that starts one has room.
    fn taker(&self, scenario: &Scenario) -> Option<(u8, u8)>
        requires { Stands (plan_of scenario.now) self.now }
        ensures some { IfSome result (λ t. IsTaker self.now.book.layout (past_in self.now.book) t.0 t.1) }
        ensures none { IsNone result → NoTaker self.now.book.layout (past_in self.now.book) 8 }
    {
        for index in 0..8 {
            if let Ok(mark) = self.book.would(worker(index), Call::Take) {
                if let Some(number) = started(mark.entry.reply) {
                    return Some((index, number as u8));
                }
            }
        }
        None
    }

    /// Items start while a take would start one, and one line tells them all.
    fn start(&mut self, alloc: Global, scenario: &Scenario, at: u32) -> Result<(), AllocError>
        requires stands { Stands (plan_of scenario.now) self.old }
        requires early { at ≤ 64000 }
        ensures { OnOk result
            (StandsAt (plan_of scenario.now) self.new
            (lines.start (plan_of scenario.now) at (moment_in (plan_of scenario.now) self.old))) }
    {
        let mut items = Vec::new(alloc);
        while let Some((index, item)) = self.taker(scenario) {
            self.start_item(scenario, index, item)?;
            items.push(item)?;
        }
        tell_starts(&mut self.lines, at, items)?;
        Ok(())
    }

    fn start_item(&mut self, scenario: &Scenario, index: u8, item: u8) -> Result<(), AllocError>
        requires stands { Stands (plan_of scenario.now) self.old }
        requires taker { IsTaker self.old.book.layout (past_in self.old.book) index item }
        ensures { OnOk result
            (StandsAt (plan_of scenario.now) self.new
            (started_one (plan_of scenario.now) (moment_in (plan_of scenario.now) self.old) item)) }
    {
        call(&mut self.book, worker(index), Call::Take);
        self.slots[usize::from(item)] = index;
        let burn = match part_at(scenario, item, 0) {
            Some(burn) => burn,
            None => unreachable!(),
        };
        self.cpu.push(Running {
            item,
            burn,
            next: 1,
        })?;
        Ok(())
    }

    /// The first of the CPU's list burns.
    fn burn(&mut self, scenario: &Scenario)
        requires stands { Stands (plan_of scenario.now) self.old }
        requires burns { AllByRecursion (λ j. 1 ≤ j.burn) self.old.cpu.items }
        ensures { StandsAt (plan_of scenario.now) self.new (lines.burn (moment_in (plan_of scenario.now) self.old)) }
    {
        burn_first(self.cpu.as_mut_slice());
    }

    fn millisecond(&mut self, alloc: Global, scenario: &Scenario, at: u32) -> Result<(), AllocError>
        requires stands { Stands (plan_of scenario.now) self.old }
        requires after { moment_in (plan_of scenario.now) self.old ≡ moment_after (plan_of scenario.now) at }
        requires early { at ≤ 64000 }
        ensures { OnOk result
            (StandsAt (plan_of scenario.now) self.new (moment_after (plan_of scenario.now) (at + 1))) }
    {
        self.serve(alloc, scenario, at)?;
        self.wake(alloc, scenario, at)?;
        self.start(alloc, scenario, at)?;
        self.burn(scenario);
        Ok(())
    }

    /// Each millisecond, until all items have ended. The lines are handed out.
    fn run(&mut self, alloc: Global, scenario: &Scenario) -> Result<Vec<TableLine>, NoMemory>
        requires { StandsAt (plan_of scenario.now) self.old (lines.queued_at_first (plan_of scenario.now)) }
        ensures { IfOk result (λ told. map event_of told.items ≡ lines.scenario_lines (plan_of scenario.now)) }
    {
        for at in 0..whole_time(scenario) + 1 {
            self.millisecond(alloc, scenario, at)?;
        }
        Ok(replace(&mut self.lines, Vec::new(alloc)))
    }
}

/// The lines of a scenario: what befalls its items on one CPU with a pool of eight workers, until all have ended. The
/// error says that memory ran out.
pub fn replay(alloc: Global, scenario: &Scenario) -> Result<Vec<TableLine>, NoMemory>
    requires { IsWithinLimits (plan_of scenario.now) }
    ensures { IfOk result (λ told. map event_of told.items ≡ lines.scenario_lines (plan_of scenario.now)) }
{
    let mut execution = Execution::new(alloc, scenario)?;
    let told = execution.run(alloc, scenario);
    drop(execution);
    told
}
