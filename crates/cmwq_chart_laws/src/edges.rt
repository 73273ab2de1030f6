//! Where the edges of what is drawn stand.

ghost use Rattle.cmwq_chart_laws.specs.Edges.{BarsDoNotOverlap, ColumnsAreApart, FiguresHaveEdges, MarksAreInside};

/// The columns of a band stand one after the other, each as wide as the others.
pub fn columns_are_apart()
    ensures { ColumnsAreApart }
{}

/// A mark of an entry stands inside the column of the entry.
pub fn marks_are_inside()
    ensures { MarksAreInside }
{}

/// In a band a bar, a sleep, a wait or a level reaches from the column of its first entry to that of its last, where
/// these are shown there, and else to the edges of the band.
pub fn figures_have_edges()
    ensures { FiguresHaveEdges }
{}

/// In a legal history no two bars of a worker overlap in the picture: in each band the one that begins first ends
/// before the other begins.
pub fn bars_do_not_overlap()
    ensures { BarsDoNotOverlap }
{}
