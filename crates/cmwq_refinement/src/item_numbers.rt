//! Where the open numbers of items are those of a history, the calls for one more entry make them those of the longer
//! history, and what they answer is what the definitions say.

ghost use Rattle.cmwq_refinement.specs.ItemNumbers.{NumbersAtFirst, NumbersRefine, ItemsWaitForLeast};
ghost use Rattle.cmwq_refinement.specs.ItemNumbers.{ReadyItemsWaitForNothing, RunThenUnstarted, EntriesApplyToNumbers};

/// Where the open numbers of items are those of a history, the calls for one more entry make them those of the longer
/// history, and what they answer is what the definitions say.
pub fn item_numbers_refine()
    ensures numbers_at_first { NumbersAtFirst }
    ensures numbers_refine { NumbersRefine }
    ensures items_wait_for_least { ItemsWaitForLeast }
    ensures ready_items_wait_for_nothing { ReadyItemsWaitForNothing }
    ensures items_have_run_then_unstarted { RunThenUnstarted }
    ensures entries_apply_to_numbers { EntriesApplyToNumbers }
{}
