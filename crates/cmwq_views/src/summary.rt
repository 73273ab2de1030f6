//! The word `summary`.
ghost use Rattle.std.specs.Prelude.{◌≡◌, Option, Result, IfSome};
ghost use Rattle.cmwq_model.specs.declared.verdict.Illegal.{Illegal as TheIllegal};
ghost use Rattle.cmwq_base.specs.declared.refusal.Refusal.{Refusal as TheRefusal};
ghost use Rattle.cmwq_history.specs.Faults.{FaultsAreTrue};
ghost use Rattle.cmwq_history.specs.Verdicts.{check_status};
ghost use Rattle.cmwq_history.specs.Views.{IsFlushed};
ghost use Rattle.cmwq_views.specs.Summary.{SummaryEnds, summary_text};

use crate::page::write_page;
use crate::progress::Progress;
use cmwq_base::{NoMemory, Refusal, Shape, Sink, Source};
use cmwq_core::Judge;
use cmwq_history::{Fold, Step, View, run_view};
use cmwq_state::Effect;
use cmwq_summary::Summary;
use std::alloc::Global;

/// The figures of a history, which are kept while its entries come.
#[derive(Drop)]
struct Figures {
    summary: Summary,
}

impl Fold for Figures {
    ghost use Rattle.cmwq_views.specs.Summary.{IsSummaryOf};

    type Told = Effect;

    ghost is_of = { λ s past figures. IsSummaryOf s past figures.summary };

    fn begin(alloc: Global, shape: &Shape) -> Result<Self, NoMemory> {
        Ok(Figures {
            summary: Summary::new(alloc, shape.copy(alloc)?)?,
        })
    }

    fn take(&mut self, step: &Step<'_, Effect>) -> Result<(), NoMemory> {
        self.summary.add(step.told(), step.state().active_counts());
        Ok(())
    }
}

/// The page of the figures.
struct Page;

impl<W: Sink> View<W> for Page {
    type Made = Figures;

    ghost text_of = { λ view. summary_text };

    fn write(
        &self,
        _: Global,
        figures: &Figures,
        _: &Shape,
        judge: &Judge,
        _: u8,
        sink: &mut W,
    ) -> Result<(), Refusal> {
        let progress = Progress::new(judge, &figures.summary);
        write_page(sink, &progress)
    }
}

/// Reads all of a history of any format, and writes the page of its summary, as `run_view` does a view.
pub fn run_summary<S: Source, O: Sink, E: Sink>(
    alloc: Global,
    input: &mut S,
    output: &mut O,
    errors: &mut E,
) -> u8
    ensures ends { (ended : Result (Option TheIllegal) TheRefusal)
        × (result ≡ check_status ended)
        × IfSome (S.left input.old) (λ text. SummaryEnds text (O.written output.old) (O.written output.new) ended)
        × IsFlushed ended (O.held output.new)
        × FaultsAreTrue ended S.troubles input.old input.new O.troubles output.old output.new }
{
    run_view(alloc, &Page, input, output, errors)
}
