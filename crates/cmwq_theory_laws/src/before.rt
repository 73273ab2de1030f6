//! Where widths don't change and no queue is destroyed, histories are legal exactly where they were before they could.

ghost use Rattle.cmwq_theory_laws.specs.FirstWidths.{ActiveAsBefore, NoneGoneBefore, LegalAsBefore};

/// Where each width is that of the layout all the time, the active queueings are the first open ones, as they were, and
/// became active in the same order.
pub fn active_are_as_before()
    ensures { ActiveAsBefore }
{}

/// A history without set_max, freeze, thaw and destroy is legal exactly where it was.
pub fn legal_are_as_before()
    ensures { LegalAsBefore }
{}

/// Without a destroy of it no queue is gone.
pub fn none_gone_before()
    ensures { NoneGoneBefore }
{}
