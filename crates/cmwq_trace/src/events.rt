//! The events of a trace, in their order.
ghost use Rattle.std.specs.Prelude.{◌≡◌, ◌∷◌, ◌++◌, [], flat_map, map, IfOk, OnOk};
ghost use Rattle.std.specs.List.{range_with_len};
ghost use Rattle.cmwq_trace.specs.Events as spec;
ghost use Rattle.cmwq_trace.specs.declared.event.Event.TheVariants as TheEvent;

use crate::event::Event;
use cmwq_chart::{Bar, CallerLane, CallerWait, Level, Shapes, Sign, Sleep};
use cmwq_model::{CpuId, Entry, Shape, Who, WorkerId};
use std::alloc::{AllocError, Global};

/// Names the pools of so many CPUs.
fn push_cpus(events: &mut Vec<Event>, cpus: u8) -> Result<(), AllocError>
    ensures { OnOk result (events.new.items ≡ events.old.items ++ map spec.cpu_event (range_with_len 0 cpus)) }
{
    for cpu in 0..cpus {
        events.push(Event::Cpu(CpuId(cpu)))?;
    }
    Ok(())
}

/// Names the rows of a caller's waits.
fn push_rows(events: &mut Vec<Event>, lane: CallerLane) -> Result<(), AllocError>
    ensures { OnOk result (events.new.items ≡ events.old.items ++ spec.rows_events lane) }
{
    for row in 0..lane.rows {
        events.push(Event::Row(lane.caller, row))?;
    }
    Ok(())
}

/// Names a caller, and the rows of its waits.
fn push_caller(events: &mut Vec<Event>, lane: CallerLane) -> Result<(), AllocError>
    ensures { OnOk result (events.new.items ≡ events.old.items ++ spec.caller_events lane) }
{
    events.push(Event::Caller(lane.caller))?;
    push_rows(events, lane)?;
    Ok(())
}

fn push_callers(events: &mut Vec<Event>, callers: &[CallerLane]) -> Result<(), AllocError>
    ensures { OnOk result (events.new.items ≡ events.old.items ++ flat_map spec.caller_events callers.now) }
{
    for lane in callers {
        push_caller(events, *lane)?;
    }
    Ok(())
}

fn of_lanes(alloc: Global, lanes: &[WorkerId]) -> Result<Vec<Event>, AllocError>
    ensures { IfOk result (λ events. events.items ≡ map TheEvent.Lane lanes.now) }
{
    lanes
        .iter()
        .map(|worker| Event::Lane(*worker))
        .collect(alloc)
}

/// Adds what a caller did.
fn push_call(events: &mut Vec<Event>, sign: Sign) -> Result<(), AllocError>
    ensures { OnOk result (events.new.items ≡ events.old.items ++ spec.call_events sign) }
{
    if let Who::Caller(caller) = sign.who {
        events.push(Event::Call(caller, sign))?;
    }
    Ok(())
}

fn push_calls(events: &mut Vec<Event>, signs: &[Sign]) -> Result<(), AllocError>
    ensures { OnOk result (events.new.items ≡ events.old.items ++ flat_map spec.call_events signs.now) }
{
    for sign in signs {
        push_call(events, *sign)?;
    }
    Ok(())
}

/// Who made the entry with this number.
fn maker_of(entries: &[Entry], number: u64) -> Option<Who>
    ensures { result ≡ spec.maker_of entries.now number }
{
    match entries.get(number as usize) {
        Some(entry) => Some(entry.who),
        None => None,
    }
}

/// Adds the arrow from who made a queueing to the start of its run.
fn push_arrow(events: &mut Vec<Event>, maker: Option<Who>, bar: Bar) -> Result<(), AllocError>
    ensures { OnOk result (events.new.items ≡ events.old.items ++ spec.arrow_from bar maker) }
{
    if let Some(who) = maker {
        events.extend_from_slice(&[Event::Queued(who, bar.number), Event::Started(bar)])?;
    }
    Ok(())
}

fn push_arrows(events: &mut Vec<Event>, entries: &[Entry], bars: &[Bar]) -> Result<(), AllocError>
    ensures { OnOk result
        (events.new.items ≡ events.old.items ++ flat_map (spec.arrow_events entries.now) bars.now) }
{
    for bar in bars {
        push_arrow(events, maker_of(entries, bar.number), *bar)?;
    }
    Ok(())
}

fn of_waits(alloc: Global, waits: &[CallerWait]) -> Result<Vec<Event>, AllocError>
    ensures { IfOk result (λ events. events.items ≡ map TheEvent.Wait waits.now) }
{
    waits.iter().map(|wait| Event::Wait(*wait)).collect(alloc)
}

fn of_runs(alloc: Global, bars: &[Bar]) -> Result<Vec<Event>, AllocError>
    ensures { IfOk result (λ events. events.items ≡ map TheEvent.Run bars.now) }
{
    bars.iter().map(|bar| Event::Run(*bar)).collect(alloc)
}

fn of_sleeps(alloc: Global, sleeps: &[Sleep]) -> Result<Vec<Event>, AllocError>
    ensures { IfOk result (λ events. events.items ≡ map TheEvent.Sleep sleeps.now) }
{
    sleeps
        .iter()
        .map(|sleep| Event::Sleep(*sleep))
        .collect(alloc)
}

fn of_levels(alloc: Global, levels: &[Level]) -> Result<Vec<Event>, AllocError>
    ensures { IfOk result (λ events. events.items ≡ map TheEvent.Level levels.now) }
{
    levels
        .iter()
        .map(|level| Event::Level(*level))
        .collect(alloc)
}

/// The names of processes and threads.
fn names_of(
    alloc: Global,
    cpus: u8,
    callers: &[CallerLane],
    lanes: &[WorkerId],
) -> Result<Vec<Event>, AllocError>
    ensures { IfOk result (λ names. names.items ≡ spec.names_of cpus callers.now lanes.now) }
{
    let mut names = Vec::new(alloc);
    names.push(Event::Head)?;
    push_cpus(&mut names, cpus)?;
    push_callers(&mut names, callers)?;
    names.append(&mut of_lanes(alloc, lanes)?)?;
    Ok(names)
}

/// The events of the trace of a history of this shape, with these entries and shapes. The error says that memory ran
/// out.
#[tactic(auto, unfolding(crate::specs::Events::events_of))]
pub fn events_of(
    alloc: Global,
    shape: &Shape,
    entries: &[Entry],
    shapes: &Shapes,
) -> Result<Vec<Event>, AllocError>
    ensures { IfOk result
        (λ events. events.items ≡ spec.events_of shape.now entries.now shapes.now.callers.lanes.items
        shapes.now.lanes.items shapes.now.signs.items shapes.now.callers.waits.items shapes.now.bars.items
        shapes.now.sleeps.items shapes.now.levels.items) }
{
    let cpus = shape.counts().cpus;
    let mut events = names_of(alloc, cpus, &shapes.callers.lanes, &shapes.lanes)?;
    push_calls(&mut events, &shapes.signs)?;
    events.append(&mut of_waits(alloc, &shapes.callers.waits)?)?;
    events.append(&mut of_runs(alloc, &shapes.bars)?)?;
    events.append(&mut of_sleeps(alloc, &shapes.sleeps)?)?;
    push_arrows(&mut events, entries, &shapes.bars)?;
    events.append(&mut of_levels(alloc, &shapes.levels)?)?;
    events.push(Event::End)?;
    Ok(events)
}
