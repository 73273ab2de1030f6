//! The word `trace`.

ghost use Rattle.std.specs.Prelude.{◌≡◌, length, Option, Result, IfOk, IfSome, IsErrOf, OnErr, OnOk, Err};
ghost use Rattle.cmwq_io.specs.Counts.{Rises};
ghost use Rattle.cmwq_model.specs.declared.verdict.Illegal.{Illegal as TheIllegal};
ghost use Rattle.cmwq_model.specs.Prelude.{past_of};
ghost use Rattle.cmwq_base.specs.declared.refusal.Refusal.{Refusal as TheRefusal};
ghost use Rattle.cmwq_history.specs.Faults.{FaultsAreTrue};
ghost use Rattle.cmwq_history.specs.Verdicts.{check_status};
ghost use Rattle.cmwq_history.specs.Views.{IsFlushed, WriteEnds};
ghost use Rattle.cmwq_chart_levels.specs.Seen.{IsSeen};
ghost use Rattle.cmwq_trace.specs.TraceText.{events_text};
ghost use Rattle.cmwq_views.specs.Trace.{TraceEnds, trace_bytes, traced_text};

use cmwq_base::{Refusal, Shape, Sink, Source};
use cmwq_chart_levels::{Seen, shapes_of};
use cmwq_core::Judge;
use cmwq_history::{View, run_view};
use cmwq_trace::{Event, events_of, write_trace};
use std::alloc::Global;

/// The events of the trace of a legal history.
#[tactic(auto, unfolding(crate::specs::Trace::trace_bytes))]
fn events_in(alloc: Global, shape: &Shape, seen: &Seen) -> Result<Vec<Event>, Refusal>
    requires { IsSeen shape.now (past_of seen.now.entries.items) seen.now }
    ensures events { IfOk result
        (λ events. events_text (length seen.now.entries.items) events.items
        ≡ trace_bytes shape.now seen.now.entries.items) }
    ensures err { OnErr result (result ≡ Err Refusal.NoMemory) }
{
    let shapes = shapes_of(alloc, shape, seen)?;
    Ok(events_of(alloc, shape, &seen.entries, &shapes)?)
}

/// Writes the trace of a legal history. All memory is taken before the first byte is written.
fn write_events<O: Sink>(
    alloc: Global,
    output: &mut O,
    shape: &Shape,
    seen: &Seen,
) -> Result<(), Refusal>
    requires { IsSeen shape.now (past_of seen.now.entries.items) seen.now }
    ensures ends { WriteEnds (O.written output.old) (O.written output.new)
        (trace_bytes shape.now seen.now.entries.items) result }
    ensures flushed { OnOk result (O.held output.new ≡ 0) }
    ensures fault { IsErrOf result Refusal.WriteFault → Rises (O.troubles output.old) (O.troubles output.new) }
{
    let events = events_in(alloc, shape, seen)?;
    write_trace(output, seen.entries.len() as u64, &events)?;
    Ok(())
}

/// The trace.
struct Trace;

impl<W: Sink> View<W> for Trace {
    type Made = Seen;

    ghost text_of = { λ view. traced_text };

    fn write(
        &self,
        alloc: Global,
        seen: &Seen,
        shape: &Shape,
        _: &Judge,
        _: u8,
        sink: &mut W,
    ) -> Result<(), Refusal> {
        write_events(alloc, sink, shape, seen)
    }
}

/// Reads all of a history of any format, and writes the trace of a legal one as JSON, as `run_view` does a view.
pub fn run_trace<S: Source, O: Sink, E: Sink>(
    alloc: Global,
    input: &mut S,
    output: &mut O,
    errors: &mut E,
) -> u8
    ensures ends { (ended : Result (Option TheIllegal) TheRefusal)
        × (result ≡ check_status ended)
        × IfSome (S.left input.old) (λ text. TraceEnds text (O.written output.old) (O.written output.new) ended)
        × IsFlushed ended (O.held output.new)
        × FaultsAreTrue ended S.troubles input.old input.new O.troubles output.old output.new }
{
    run_view(alloc, &Trace, input, output, errors)
}
