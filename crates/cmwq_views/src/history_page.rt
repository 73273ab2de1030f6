//! The word `page`.

ghost use Rattle.std.specs.Prelude.{◌≡◌, Option, Result, IfSome, IsErrOf, OnOk};
ghost use Rattle.cmwq_io.specs.Counts.{Rises};
ghost use Rattle.cmwq_model.specs.declared.verdict.Illegal.{Illegal as TheIllegal};
ghost use Rattle.cmwq_model.specs.Prelude.{past_of};
ghost use Rattle.cmwq_base.specs.declared.refusal.Refusal.{Refusal as TheRefusal};
ghost use Rattle.cmwq_history.specs.Faults.{FaultsAreTrue};
ghost use Rattle.cmwq_history.specs.Verdicts.{check_status};
ghost use Rattle.cmwq_history.specs.Views.{IsFlushed, WriteEnds};
ghost use Rattle.cmwq_chart_levels.specs.Seen.{IsSeen};
ghost use Rattle.cmwq_views.specs.HistoryPage.{HistoryPageEnds, history_page, history_page_of};

use cmwq_base::{Refusal, Shape, Sink, Source};
use cmwq_chart_levels::{Seen, shapes_of};
use cmwq_chart_text::Window;
use cmwq_core::Judge;
use cmwq_history::{View, run_view};
use cmwq_page::write_page;
use std::alloc::Global;

/// Writes the page of a legal history, which opens at a window. All memory is taken before the first byte is written.
#[tactic(auto, unfolding(crate::specs::HistoryPage::history_page))]
fn write_history_page<O: Sink>(
    alloc: Global,
    output: &mut O,
    window: Window,
    shape: &Shape,
    seen: &Seen,
) -> Result<(), Refusal>
    requires { IsSeen shape.now (past_of seen.now.entries.items) seen.now }
    ensures ends { WriteEnds (O.written output.old) (O.written output.new)
        (history_page window shape.now seen.now.entries.items) result }
    ensures flushed { OnOk result (O.held output.new ≡ 0) }
    ensures fault { IsErrOf result Refusal.WriteFault → Rises (O.troubles output.old) (O.troubles output.new) }
{
    let shapes = shapes_of(alloc, shape, seen)?;
    write_page(output, shape, &seen.entries, &shapes, window)?;
    Ok(())
}

/// The page, which opens at a window.
#[derive(Drop)]
struct HistoryPage {
    window: Window,
}

impl<W: Sink> View<W> for HistoryPage {
    type Made = Seen;

    ghost text_of = { λ view. history_page_of view.window };

    fn write(
        &self,
        alloc: Global,
        seen: &Seen,
        shape: &Shape,
        _: &Judge,
        _: u8,
        sink: &mut W,
    ) -> Result<(), Refusal> {
        write_history_page(alloc, sink, self.window, shape, seen)
    }
}

/// Reads all of a history of any format, and writes the page of a legal one, which opens at the window, as HTML, as
/// `run_view` does a view.
pub fn run_page<S: Source, O: Sink, E: Sink>(
    alloc: Global,
    input: &mut S,
    output: &mut O,
    errors: &mut E,
    window: Window,
) -> u8
    ensures ends { (ended : Result (Option TheIllegal) TheRefusal)
        × (result ≡ check_status ended)
        × IfSome (S.left input.old)
        (λ text. HistoryPageEnds window text (O.written output.old) (O.written output.new) ended)
        × IsFlushed ended (O.held output.new)
        × FaultsAreTrue ended S.troubles input.old input.new O.troubles output.old output.new }
{
    run_view(alloc, &HistoryPage { window }, input, output, errors)
}
