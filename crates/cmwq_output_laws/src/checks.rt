//! What `step`, `upgrade` and a journal write is a legal history.

ghost use Rattle.cmwq_output_laws.specs.Checks.{LegalHistoriesAreChecked, StepIsChecked, UpgradeIsChecked};
ghost use Rattle.cmwq_output_laws.specs.Checks.{StepsPassCheck, UpgradesPassCheck};

/// The text of a legal history in format 3 is read as that history: so what a journal writes of a hub is, with its last
/// line, as long as its entries and its time are within the limits of the format.
pub fn legal_histories_are_checked()
    ensures { LegalHistoriesAreChecked }
{}

/// What `step` writes is read as a history of format 2, or 3 where its calls were of that, with the shape that was read
/// and the entries of the steps, and it is legal.
pub fn step_is_checked()
    ensures { StepIsChecked }
{}

/// What `upgrade` writes of a legal history is read as one of format 2 or 3, with its shape and entries, and it is
/// legal.
pub fn upgrade_is_checked()
    ensures { UpgradeIsChecked }
{}

/// So where a run of `step` answers, each run of `check` on what it wrote ends with status 0, unless memory ran out, or
/// the source or the output failed.
pub fn steps_pass_check()
    ensures { StepsPassCheck }
{}

/// And so where a run of `upgrade` answers that the history is legal.
pub fn upgrades_pass_check()
    ensures { UpgradesPassCheck }
{}
