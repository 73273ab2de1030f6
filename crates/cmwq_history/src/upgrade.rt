//! The word `upgrade`.

ghost use Rattle.std.specs.Prelude.{◌≡◌, Option, Result, IfSome};
ghost use Rattle.cmwq_model.specs.declared.verdict.Illegal.{Illegal as TheIllegal};
ghost use Rattle.cmwq_base.specs.declared.refusal.Refusal.{Refusal as TheRefusal};
ghost use Rattle.cmwq_history.specs.Faults.{FaultsAreTrue};
ghost use Rattle.cmwq_history.specs.Verdicts.{check_status};
ghost use Rattle.cmwq_history.specs.Upgrade.{UpgradeEnds, NewestStay, upgraded_text};
ghost use Rattle.cmwq_history.specs.Views.{IsFlushed};

use crate::fold::Kept;
use crate::output::write_history;
use crate::view::{View, run_view};
use cmwq_base::{Refusal, Shape, Sink, Source};
use cmwq_core::Judge;
use std::alloc::Global;

/// The history itself, in its format, or in format 2 if that is 1.
struct Upgrade;

impl<W: Sink> View<W> for Upgrade {
    type Made = Kept;

    ghost text_of = { λ view. upgraded_text };

    fn write(
        &self,
        _: Global,
        kept: &Kept,
        shape: &Shape,
        _: &Judge,
        version: u8,
        sink: &mut W,
    ) -> Result<(), Refusal> {
        write_history(sink, version.max(2), shape, &kept.entries)
    }
}

/// Reads all of a history of any format, and writes a legal one in format 2, or in 3 if it is of that, with the same
/// shape and entries, as `run_view` does a view.
pub fn run_upgrade<S: Source, O: Sink, E: Sink>(
    alloc: Global,
    input: &mut S,
    output: &mut O,
    errors: &mut E,
) -> u8
    ensures ends { (ended : Result (Option TheIllegal) TheRefusal)
        × (result ≡ check_status ended)
        × IfSome (S.left input.old) (λ text. UpgradeEnds text (O.written output.old) (O.written output.new) ended)
        × IsFlushed ended (O.held output.new)
        × FaultsAreTrue ended S.troubles input.old input.new O.troubles output.old output.new }
{
    run_view(alloc, &Upgrade, input, output, errors)
}

/// So a legal history of format 2 or 3 comes out as it was, byte for byte.
pub fn newest_stay()
    ensures { NewestStay }
{}
