//! Bars: the runs of a history.
ghost use Rattle.std.specs.Prelude.{◌≡◌, ◌≤◌, ◌∷◌, [], length, map, IfOk, OnOk};
ghost use Rattle.cmwq_model.specs.Prelude.{past_of, IsLegal, Layout};
ghost use Rattle.cmwq_chart.specs.Bars as spec;

use crate::entries::place_in;
use cmwq_model::{Entry, ItemId, Number, Queueing, Reply, Who, WorkerId};
use std::alloc::{AllocError, Global};

/// A run: what was started by which worker, and the places of the entries that started and finished it. One that has
/// not finished has only the first.
#[derive(Clone, Copy)]
pub struct Bar {
    pub worker: WorkerId,
    pub item: ItemId,
    pub number: Number,
    pub from: u32,
    pub to: Option<u32>,
}

/// The bar that an entry after these begins, which starts this queueing. Its end is still to come.
#[tactic(auto, using(crate::proofs::BarSteps::bar_begun, crate::proofs::Steps::length_past))]
pub(crate) fn bar_begun(entries: &[Entry], entry: Entry, started: Option<Queueing>) -> Option<Bar>
    requires short { length entries.now ≤ 1073741824 }
    requires legal { (s : Layout) × IsLegal s (entry ∷ past_of entries.now) }
    requires started { started ≡ spec.started_by (past_of entries.now) entry }
    ensures { result ≡ spec.bar_of [] (past_of entries.now) entry }
{
    let queueing = started?;
    match entry.who {
        Who::Worker(worker) => Some(Bar {
            worker,
            item: queueing.item,
            number: queueing.number,
            from: entries.len() as u32,
            to: None,
        }),
        Who::Caller(_) => None,
    }
}

/// Keeps the place of an entry that finishes a queueing, if it is the first.
fn keep_finish(finishes: &mut Vec<Option<u32>>, entry: Entry, place: u32)
    ensures { spec.FinishIsKept finishes.old.items finishes.new.items entry place }
{
    if let Reply::Finished(number) = entry.reply {
        if let Some(finish) = finishes.get_mut(number as usize) {
            *finish = finish.or(Some(place));
        }
    }
}

/// Takes the finishes of all queueings beyond an entry after these, whose own queueing has none.
#[tactic(auto, using(crate::proofs::Steps::length_past))]
pub(crate) fn update_finishes(
    finishes: &mut Vec<Option<u32>>,
    entries: &[Entry],
    entry: Entry,
) -> Result<(), AllocError>
    requires short { length entries.now ≤ 1073741824 }
    requires legal { (s : Layout) × IsLegal s (entry ∷ past_of entries.now) }
    requires finishes { spec.AreFinishes (past_of entries.now) finishes.old.items }
    ensures { OnOk result (spec.AreFinishes (entry ∷ past_of entries.now) finishes.new.items) }
{
    keep_finish(finishes, entry, entries.len() as u32);
    finishes.push(None)?;
    Ok(())
}

/// These bars, each with its end.
pub(crate) fn ended_bars(
    alloc: Global,
    bars: &[Bar],
    finishes: &[Option<u32>],
) -> Result<Vec<Bar>, AllocError>
    ensures { IfOk result (λ ended. ended.items ≡ map (spec.ended_bar finishes.now) bars.now) }
{
    bars.iter()
        .map(|bar| Bar {
            to: place_in(finishes, bar.number as usize),
            ..*bar
        })
        .collect(alloc)
}
