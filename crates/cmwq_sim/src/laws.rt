//! What holds of the lines of every scenario, as theorems.

ghost use Rattle.cmwq_sim.specs.Ends.{AllItemsEnd, EachEndsOnce};

/// When as many milliseconds have passed as the items have in all, each has ended.
#[tactic(auto, using(crate::proofs::Outset::all_items_end))]
pub fn all_items_end()
    ensures { AllItemsEnd }
{}

/// Each item has one line that tells its end.
pub fn each_ends_once()
    ensures { EachEndsOnce }
{}
