//! Runs a service whose history is written while it is made.
ghost use Rattle.std.specs.Prelude.{◌≡◌, IfOk, OnOk, OnErr, IsErrOf};
ghost use Rattle.cmwq_io.specs.Counts.{Rises};
ghost use Rattle.cmwq_rt_journal.specs.Kept.{WritesFront};
ghost use Rattle.cmwq_service.specs.Writing.{WritesServed};
ghost use Rattle.cmwq_service.specs.declared.writing.Unwritten.TheVariants as unwritten;

use crate::crew::Serving;
use crate::fault::Fault;
use crate::running::readers_of;
use crate::service::Service;
use cmwq_io::Sink;
use cmwq_model::Shape;
use cmwq_rt_journal::{Unwritten as Unended, run_with_journal};
use std::alloc::Global;
use std::sync::Wait;
use std::thread::Threads;
use std::time::Clock;
use thiserror::Error;

/// Why the history of a service was not written to its end.
#[derive(Clone, Copy, Debug, PartialEq, Eq, Error)]
pub enum Unwritten {
    /// A write or a flush of the sink failed.
    #[error("write fault")]
    Sink,
    /// The service stopped, by the first fault of a thread, or of the hub.
    #[error("{fault}")]
    Stopped { fault: Fault },
}

/// The same as `run`, but the history is written to a sink while it is made, as text of format 3, and flushed after
/// each batch. So many entries are kept at a time, or as many as one move may make where that is more; who makes a
/// call waits while there is no space for it. What is made is written after a tenth of a second at the latest.
/// The shape's room may be as great as any. The answer is how many entries were written, and the text ends with a line
/// that says so.
///
/// # Errors
/// `Sink` where a write or a flush failed, which stops the service. `Stopped` otherwise, with the first fault that a
/// function of the service, a worker, or the clock has answered; `NoThread` where a thread can't be made; `NoPlace`
/// where the shape has fewer than two callers; `Unfinished` where an active queueing is open at the end; `NoMemory`.
/// All threads have ended then. A front of the text of a legal history is written, with no last line, unless the sink
/// failed after it.
pub fn run_writing<S: Service + Send + Sync, R: Threads + Wait + Clock + Sync, O: Sink>(
    rt: &R,
    alloc: Global,
    shape: &Shape,
    service: &S,
    kept: u32,
    output: &mut O,
) -> Result<u64, Unwritten>
    ensures whole { IfOk result
        (λ n. WritesServed shape.now 0 S.calls S.ends S.does n (O.written output.old) (O.written output.new)) }
    ensures flushed { OnOk result (O.held output.new ≡ 0) }
    ensures front { OnErr result (WritesFront shape.now (O.written output.old) (O.written output.new)) }
    ensures sink { IsErrOf result unwritten.Sink → Rises (O.troubles output.old) (O.troubles output.new) }
{
    run_writing_with_waits(rt, alloc, shape, service, 0, kept, output)
}

/// The same, but so many runs may wait at the same time (`run_with_waits`).
///
/// # Errors
/// Those of `run_writing`; `NoPlace` if the shape has fewer callers than two and those that are lent.
pub fn run_writing_with_waits<S: Service + Send + Sync, R: Threads + Wait + Clock + Sync, O: Sink>(
    rt: &R,
    alloc: Global,
    shape: &Shape,
    service: &S,
    waits: u8,
    kept: u32,
    output: &mut O,
) -> Result<u64, Unwritten>
    ensures whole { IfOk result
        (λ n. WritesServed shape.now waits S.calls S.ends S.does n (O.written output.old) (O.written output.new)) }
    ensures flushed { OnOk result (O.held output.new ≡ 0) }
    ensures front { OnErr result (WritesFront shape.now (O.written output.old) (O.written output.new)) }
    ensures sink { IsErrOf result unwritten.Sink → Rises (O.troubles output.old) (O.troubles output.new) }
{
    let serving = match Serving::new(rt, service, shape, waits) {
        Ok(serving) => serving,
        Err(fault) => return Err(Unwritten::Stopped { fault }),
    };
    let readers = readers_of(shape, service);
    match run_with_journal(rt, alloc, shape, readers, kept, &serving, &serving, output) {
        Ok(tally) => Ok(tally.answered),
        Err(Unended::Sink) => Err(Unwritten::Sink),
        Err(Unended::Run(fault)) => Err(Unwritten::Stopped {
            fault: serving.fault(fault),
        }),
    }
}
