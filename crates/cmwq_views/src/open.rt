//! The subcommand `open`: what is still going on at the end of a history.
ghost use Rattle.std.specs.Prelude.{◌≡◌, ◌≤◌, flat_map, Option, Result, IfErr, IfSome, OnOk, OnErr};
ghost use Rattle.std.specs.Io.KnownBytes.{Appends};
ghost use Rattle.cmwq_model.specs.Prelude.{past_of};
ghost use Rattle.cmwq_model.specs.declared.verdict.Illegal.{Illegal as TheIllegal};
ghost use Rattle.cmwq_io.specs.Counts.{Rises};
ghost use Rattle.cmwq_io.specs.Moves.{AppendsFront};
ghost use Rattle.cmwq_base.specs.declared.refusal.Refusal.{Refusal as TheRefusal};
ghost use Rattle.cmwq_history.specs.Faults.{FaultsAreTrue};
ghost use Rattle.cmwq_history.specs.Verdicts.{check_status};
ghost use Rattle.cmwq_history.specs.Views.{IsFlushed};
ghost use Rattle.cmwq_views.specs.Open.{OpenEnds, open_text, section_text, standing_text};
ghost use Rattle.cmwq_views.specs.declared.standing.TheConstants as constants;

use crate::beginnings::Beginnings;
use crate::standing::{SECTIONS, SectionLines, Standing};
use crate::write::write_rows;
use cmwq_base::{Refusal, Shape, Sink, Source, WriteFault, flush_all, write_all};
use cmwq_core::Judge;
use cmwq_history::{View, run_front_view};
use cmwq_obstacle::Firsts;
use std::alloc::Global;

fn write_sections<W: Sink>(sink: &mut W, standing: &Standing<'_>) -> Result<(), WriteFault>
    ensures ok { OnOk result
        (Appends (W.written sink.old) (W.written sink.new)
        (flat_map (section_text standing.now.layout (past_of standing.now.entries)) constants.SECTIONS)) }
    ensures err { OnErr result
        (AppendsFront (W.written sink.old) (W.written sink.new)
        (flat_map (section_text standing.now.layout (past_of standing.now.entries)) constants.SECTIONS)) }
    ensures grown { W.troubles sink.old ≤ W.troubles sink.new }
    ensures fault { OnErr result (Rises (W.troubles sink.old) (W.troubles sink.new)) }
{
    for section in &SECTIONS {
        let lines = SectionLines {
            standing,
            section: *section,
        };
        write_rows(sink, &lines)?;
    }
    Ok(())
}

/// Writes the lines of what stands, and flushes. Takes no memory.
///
/// # Errors
/// `WriteFault` where the sink fails, also at the flush; a front of the lines has been written then.
fn write_standing<W: Sink>(sink: &mut W, standing: &Standing<'_>) -> Result<(), Refusal>
    ensures ok { OnOk result
        (Appends (W.written sink.old) (W.written sink.new)
        (standing_text standing.now.layout (past_of standing.now.entries))) }
    ensures err { OnErr result
        (AppendsFront (W.written sink.old) (W.written sink.new)
        (standing_text standing.now.layout (past_of standing.now.entries))) }
    ensures flushed { OnOk result (W.held sink.new ≡ 0) }
    ensures only { IfErr result (λ e. e ≡ Refusal.WriteFault) }
    ensures fault { OnErr result (Rises (W.troubles sink.old) (W.troubles sink.new)) }
{
    write_all(sink, standing.first_row().as_bytes())?;
    write_sections(sink, standing)?;
    flush_all(sink)?;
    Ok(())
}

/// What still goes on at the end.
struct OpenView;

impl<W: Sink> View<W> for OpenView {
    type Made = Beginnings;

    ghost text_of = { λ view. open_text };

    fn write(
        &self,
        alloc: Global,
        beginnings: &Beginnings,
        shape: &Shape,
        judge: &Judge,
        _: u8,
        sink: &mut W,
    ) -> Result<(), Refusal> {
        let firsts = Firsts::new(alloc, judge.state(), shape)?;
        let standing = Standing::new(shape, judge, beginnings, &firsts);
        write_standing(sink, &standing)
    }
}

/// Reads all of a history of any format, or where `is_front` says so of a history of which a front was written, and
/// writes what is still going on at its end, as `run_front_view` does a view: how many entries and ticks
/// there are, each queue with its width, and whether it is frozen, drains or is gone, each run with its worker, each
/// queueing that hasn't started and why, each booking, and each unended wait with the queueing that it waits for. It
/// says since which entry and tick each of these stands. Idle queues in a row have one line.
pub fn run_open<S: Source, O: Sink, E: Sink>(
    alloc: Global,
    input: &mut S,
    output: &mut O,
    errors: &mut E,
    is_front: bool,
) -> u8
    ensures ends { (ended : Result (Option TheIllegal) TheRefusal)
        × (result ≡ check_status ended)
        × IfSome (S.left input.old) (λ text. OpenEnds is_front text (O.written output.old) (O.written output.new) ended)
        × IsFlushed ended (O.held output.new)
        × FaultsAreTrue ended S.troubles input.old input.new O.troubles output.old output.new }
{
    run_front_view(alloc, &OpenView, input, output, errors, is_front)
}
