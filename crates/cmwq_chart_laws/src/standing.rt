//! In which bands figures stand.

ghost use Rattle.cmwq_chart_laws.specs.Standing.{FiguresStandWithEntries, FlatLevelsStandAtTheirEnds};

/// A figure stands in a band if and only if one of its entries is shown there.
pub fn figures_stand_with_entries()
    ensures { FiguresStandWithEntries }
{}

/// A level at which nothing is open stands in the first and the last of these bands alone.
pub fn flat_levels_stand_at_their_ends()
    ensures { FlatLevelsStandAtTheirEnds }
{}
