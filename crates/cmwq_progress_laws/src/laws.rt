//! Where every schedule of a script ends, so does each course of turns in which somebody moves whenever somebody may.

ghost use Rattle.cmwq_progress_laws.specs.Needed.{AllMustEnd, PremisesMayHold, SomebodyMustMove};
ghost use Rattle.cmwq_progress_laws.specs.Progress.{EndedMovedOn, FairTurnsEnd, MovesAreFew, MovingOnEnds};

/// If every schedule of a script ends, and somebody moves then or later whenever somebody may, all is done at last.
pub fn moving_on_ends()
    ensures { MovingOnEnds }
{}

/// So it is if each party that may move has a turn then or later, unless it no longer may.
pub fn fair_turns_end()
    ensures { FairTurnsEnd }
{}

/// Where all is done at last, somebody did move then or later whenever somebody might.
pub fn ended_moved_on()
    ensures { EndedMovedOn }
{}

/// If every schedule ends within so many moves, no course of turns has more.
pub fn moves_are_few()
    ensures { MovesAreFew }
{}

/// A script whose every schedule ends, with the turns of its only caller, which have their end.
pub fn premises_may_hold()
    ensures { PremisesMayHold }
{}

/// The same script with turns of nobody, which have none.
pub fn somebody_must_move()
    ensures { SomebodyMustMove }
{}

/// A script that gets stuck has no such end, whatever the turns are.
pub fn all_must_end()
    ensures { AllMustEnd }
{}
