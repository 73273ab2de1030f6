//! What bars are, in every legal history.

ghost use Rattle.cmwq_output_laws.specs.BarLaws.{BarsAreOfStarts, LanesAreApart, StartsHaveOneBar};

/// Each entry that starts a queueing begins exactly one bar, of its worker, which ends where that worker finishes the
/// queueing, or else is what the worker runs at the end.
pub fn starts_have_one_bar()
    ensures { StartsHaveOneBar }
{}

/// In any history each bar begins at an entry that starts its queueing, by its worker.
pub fn bars_are_of_starts()
    ensures { BarsAreOfStarts }
{}

/// Of two bars of one worker the one that begins first ends before the other begins.
pub fn bars_of_a_lane_are_apart()
    ensures { LanesAreApart }
{}
