//! Worked tables, as theorems.

ghost use Rattle.cmwq_sim.specs.Tables.{WithOneActive, WithThreeActive, WithTwoActive, WithIntensive};

/// One item after the other.
#[tactic(auto, unfolding(crate::specs::Lines::starting_items, crate::specs::Lines::scenario_lines))]
pub fn tables_with_one_active()
    ensures { WithOneActive }
{}

/// While one sleeps the next starts.
#[tactic(auto, unfolding(crate::specs::Lines::starting_items, crate::specs::Lines::scenario_lines))]
pub fn tables_with_three_active()
    ensures { WithThreeActive }
{}

/// The third starts when the first two have ended.
#[tactic(auto, unfolding(crate::specs::Lines::starting_items, crate::specs::Lines::scenario_lines))]
pub fn tables_with_two_active()
    ensures { WithTwoActive }
{}

/// Items of a queue that is CPU intensive start beside each other.
#[tactic(auto, unfolding(crate::specs::Lines::starting_items, crate::specs::Lines::scenario_lines))]
pub fn tables_with_intensive()
    ensures { WithIntensive }
{}
