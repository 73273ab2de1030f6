ghost use Rattle.cmwq_theory_steps.specs.Looks.{ActiveByLooks};

/// A queueing is active where it is open and is below max_active, or was just before an entry that changed a width.
pub fn active_by_looks()
    ensures { ActiveByLooks }
{}
