//! What `chart` draws of a legal history.

ghost use Rattle.cmwq_chart_laws.specs.Causes.{NothingElseIsCharted};
ghost use Rattle.cmwq_chart_laws.specs.Charts.{ChartsAreOfParts, ChartsAreOfRows};
ghost use Rattle.cmwq_chart_laws.specs.Levels.{LevelsAreDrawn};
ghost use Rattle.cmwq_chart_laws.specs.Waits.{TicketsAreDrawn};

/// The text of a chart is that of the picture of its figures.
pub fn charts_are_of_parts()
    ensures { ChartsAreOfParts }
{}

/// The rows of these figures have numbers in the ranges of their types, so the laws of pictures hold of charts.
pub fn charts_are_of_rows()
    ensures { ChartsAreOfRows }
{}

/// Each figure of a chart is of entries of its history, at its places and by who its row names: a bar of a start and a
/// finish, a sleep, a wait or a mark of theirs, and a level is true after each entry that it covers.
pub fn nothing_else_is_charted()
    ensures { NothingElseIsCharted }
{}

/// Each entry that gives a ticket has exactly one wait, in its caller's row, in each band that shows an entry from this
/// one to that by which the wait is done, or to the end if none is, and in no other.
pub fn tickets_are_drawn()
    ensures { TicketsAreDrawn }
{}

/// Of each queue on a CPU that had a queueing exactly one level, in its row, covers each entry that a band shows, and
/// says what is open and active and how wide the queue is after it. A band leaves the row out only where nothing is
/// open.
pub fn levels_are_drawn()
    ensures { LevelsAreDrawn }
{}
