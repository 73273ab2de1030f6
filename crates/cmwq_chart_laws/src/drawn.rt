//! What is drawn of shapes, on every page.

ghost use Rattle.cmwq_chart_laws.specs.Drawn.{FiguresAreBelowNames, FiguresAreDrawn, NothingElseIsDrawn};
ghost use Rattle.cmwq_chart_laws.specs.Drawn.{NumbersAreDrawn, RowsAreDrawn, RowsAreStacked, RowsAreToldApart};

/// Rows whose numbers are in the ranges of their types are told apart by their numbers.
pub fn rows_are_told_apart()
    ensures { RowsAreToldApart }
{}

/// In each band each row has its name, each figure that stands there, and the items of these, each once and in this
/// order, if one of these figures shows something, and else nothing.
pub fn rows_are_drawn()
    ensures { RowsAreDrawn }
{}

/// So the figures in a row of a band are exactly those that stand there, if one of them shows something.
pub fn figures_are_drawn()
    ensures { FiguresAreDrawn }
{}

/// Each part of a picture is the name of a row that shows something, the number of an entry that is shown there, a
/// figure of the list that stands there, or its item: nothing else is drawn.
pub fn nothing_else_is_drawn()
    ensures { NothingElseIsDrawn }
{}

/// Read in their order, what belongs to a row stands below its name: the last name up to it is that of its row, in the
/// same band and at the same height.
pub fn figures_are_below_names()
    ensures { FiguresAreBelowNames }
{}

/// Each entry that is shown and is to have a number has it once, in its band.
pub fn numbers_are_drawn()
    ensures { NumbersAreDrawn }
{}

/// Rows do not overlap: read in their order, each name stands below the rows before it, and each band below the one
/// before it.
pub fn rows_are_stacked()
    ensures { RowsAreStacked }
{}
