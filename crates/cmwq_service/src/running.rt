//! Runs a service on threads.
ghost use Rattle.std.specs.Prelude.{◌≡◌, ◌⊎◌, ℕ, List, IfOk, IfErr, OnOk};
ghost use Rattle.cmwq_model.specs.Prelude.{Layout, past_of};
ghost use Rattle.cmwq_model.specs.declared.entry.Entry as entries;
ghost use Rattle.cmwq_core.specs.Relied.{IsReliable};
ghost use Rattle.cmwq_engine.specs.Ended.{IsRest};
ghost use Rattle.cmwq_service.specs.Serving.{IsRestOfServed, IsServed};

use crate::crew::Serving;
use crate::fault::{Fault, NO_MEMORY, Stopped};
use crate::service::Service;
use cmwq_engine::Tally;
use cmwq_model::{Entry, Shape};
use cmwq_monitor::Rest;
use cmwq_rt::HubParts;
use std::alloc::Global;
use std::sync::Wait;
use std::thread::Threads;
use std::time::Clock;

/// A service that stopped before it had a history.
fn stopped_at_first(alloc: Global, fault: Fault) -> Stopped
    ensures { (s : Layout) → IsReliable s (past_of result.history.items) }
{
    Stopped {
        fault,
        history: Vec::new(alloc),
    }
}

/// Gives the whole history.
fn give_all<S: Service>(
    alloc: Global,
    rest: Rest,
    outcome: Result<Tally, Fault>,
) -> Result<Vec<Entry>, Stopped>
    ensures served { (s : Layout) (waits : ℕ)
        → OnOk outcome (IsRestOfServed s waits S.calls S.ends S.does rest.first rest.entries.items)
        → IfOk result (λ history. IsServed s waits S.calls S.ends S.does history.items) }
    ensures stopped { (s : Layout) → IsRest s rest.first rest.entries.items
        → IfErr result (λ stopped. IsReliable s (past_of stopped.history.items)) }
    ensures whole { rest.first ≡ 0 → IfErr result (λ stopped. stopped.history ≡ rest.entries) }
{
    let Rest { first, entries } = rest;
    // no journal took any
    if first != 0 {
        return Err(stopped_at_first(alloc, NO_MEMORY));
    }
    match outcome {
        Ok(_) => Ok(entries),
        Err(fault) => Err(Stopped {
            fault,
            history: entries,
        }),
    }
}

/// How many callers of the service look at items.
pub fn readers_of<S: Service>(shape: &Shape, service: &S) -> u8
    ensures { (result ≡ 0) ⊎ (result ≡ shape.now.callers) }
{
    if service.looks() {
        shape.counts().callers
    } else {
        0
    }
}

/// Runs a service on a hub of these parts: what the hub kept of its history, and how it ended.
fn serve<'s, S: Service + Send + Sync, R: Threads + Wait + Sync, Q: Wait + Clock + Sync>(
    rt: &R,
    alloc: Global,
    parts: HubParts,
    serving: &Serving<'s, S, Q>,
) -> (Rest, Result<Tally, Fault>)
    ensures rest { IsRest parts.shape result.0.first result.0.entries.items }
    ensures served { OnOk result.1
        (IsRestOfServed parts.shape serving.now.waits S.calls S.ends S.does result.0.first result.0.entries.items) }
{
    let (rest, ended) = cmwq_engine::run(&*rt, alloc, parts, &*serving, &*serving);
    match ended {
        Ok(tally) => (rest, Ok(tally)),
        Err(fault) => (rest, Err(serving.fault(fault))),
    }
}

/// Runs a service on a hub of these parts, which keeps all of its history, and returns that. The handle by which
/// threads are started and joined may be another than the one that the service is given.
///
/// # Errors
/// Those of `run_with_waits`.
pub fn run_served<'s, S: Service + Send + Sync, R: Threads + Wait + Sync, Q: Wait + Clock + Sync>(
    rt: &R,
    alloc: Global,
    parts: HubParts,
    serving: &Serving<'s, S, Q>,
) -> Result<Vec<Entry>, Stopped>
    ensures served { IfOk result
        (λ history. IsServed parts.shape serving.now.waits S.calls S.ends S.does history.items) }
    ensures stopped { IfErr result (λ stopped. IsReliable parts.shape (past_of stopped.history.items)) }
{
    let (rest, outcome) = serve(rt, alloc, parts, serving);
    give_all::<S>(alloc, rest, outcome)
}

/// Runs a service on a new hub of this shape: a thread for each worker, for each of the service's callers, for the
/// clock and for the end. When the callers have ended, `end` is called. Then the hub is closed, the workers run what is
/// active, and the whole history is returned. All entries are kept until then, so the shape's room may be at most
/// 4,294,967,295. No run waits: `Context::wait` returns `NoCaller`.
///
/// # Errors
/// The first fault that a function of the service, a worker, or the clock has returned; `NoThread` if a thread cannot
/// be made; `NoPlace` if the shape has fewer than two callers; `Unfinished` if an active queueing is open at the end;
/// `NoMemory`. All threads have ended then. The history so far is returned with the fault.
pub fn run<S: Service + Send + Sync, R: Threads + Wait + Clock + Sync>(
    rt: &R,
    alloc: Global,
    shape: &Shape,
    service: &S,
) -> Result<Vec<Entry>, Stopped>
    ensures served { IfOk result (λ history. IsServed shape.now 0 S.calls S.ends S.does history.items) }
    ensures stopped { IfErr result (λ stopped. IsReliable shape.now (past_of stopped.history.items)) }
{
    run_with_waits(rt, alloc, shape, service, 0)
}

/// The same, but so many runs may wait at the same time (`Context::wait`). The shape has as many callers more, which
/// are lent to them (`ShapeBuilder::callers_and_waits`).
///
/// # Errors
/// Those of `run`; `NoPlace` if the shape has fewer callers than two and those that are lent.
pub fn run_with_waits<S: Service + Send + Sync, R: Threads + Wait + Clock + Sync>(
    rt: &R,
    alloc: Global,
    shape: &Shape,
    service: &S,
    waits: u8,
) -> Result<Vec<Entry>, Stopped>
    ensures served { IfOk result (λ history. IsServed shape.now waits S.calls S.ends S.does history.items) }
    ensures stopped { IfErr result (λ stopped. IsReliable shape.now (past_of stopped.history.items)) }
{
    let serving = match Serving::new(rt, service, shape, waits) {
        Ok(serving) => serving,
        Err(fault) => return Err(stopped_at_first(alloc, fault)),
    };
    match HubParts::keeping_all(rt, alloc, shape, readers_of(shape, service)) {
        Ok(parts) => run_served(rt, alloc, parts, &serving),
        Err(fault) => Err(stopped_at_first(alloc, Fault::Run { fault })),
    }
}

/// The same as `run`, but the history is dropped while it is made. So the shape's room may be as great as any, and no
/// memory holds it.
///
/// # Errors
/// Those of `run`.
pub fn run_dropping<S: Service + Send + Sync, R: Threads + Wait + Clock + Sync>(
    rt: &R,
    alloc: Global,
    shape: &Shape,
    service: &S,
) -> Result<(), Fault>
    ensures { OnOk result ((history : List entries.Entry) × IsServed shape.now 0 S.calls S.ends S.does history) }
{
    run_dropping_with_waits(rt, alloc, shape, service, 0)
}

/// The same as `run_with_waits`, but the history is dropped while it is made.
///
/// # Errors
/// Those of `run_with_waits`.
pub fn run_dropping_with_waits<S: Service + Send + Sync, R: Threads + Wait + Clock + Sync>(
    rt: &R,
    alloc: Global,
    shape: &Shape,
    service: &S,
    waits: u8,
) -> Result<(), Fault>
    ensures { OnOk result ((history : List entries.Entry) × IsServed shape.now waits S.calls S.ends S.does history) }
{
    let serving = Serving::new(rt, service, shape, waits)?;
    match HubParts::dropping(rt, alloc, shape, readers_of(shape, service)) {
        Ok(parts) => {
            let (_rest, outcome) = serve(rt, alloc, parts, &serving);
            match outcome {
                Ok(_) => Ok(()),
                Err(fault) => Err(fault),
            }
        }
        Err(fault) => Err(Fault::Run { fault }),
    }
}
