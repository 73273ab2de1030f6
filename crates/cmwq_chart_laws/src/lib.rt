//! Laws of charts, over the definitions alone: what a reader finds in a picture, and where.
#![tactic(auto)]

mod charts;
mod drawn;
mod edges;
mod marks;
mod page_rows;
mod standing;

pub use charts::{
    charts_are_of_parts, charts_are_of_rows, levels_are_drawn, nothing_else_is_charted,
    tickets_are_drawn,
};
pub use drawn::{
    figures_are_below_names, figures_are_drawn, nothing_else_is_drawn, numbers_are_drawn,
    rows_are_drawn, rows_are_stacked, rows_are_told_apart,
};
pub use edges::{bars_do_not_overlap, columns_are_apart, figures_have_edges, marks_are_inside};
pub use marks::{
    ends_are_drawn, finishes_are_drawn, replies_are_marked, signs_are_drawn, sleeps_are_drawn,
    starts_are_drawn, wakes_are_drawn,
};
pub use page_rows::rows_tell_histories;
pub use standing::{figures_stand_with_entries, flat_levels_stand_at_their_ends};
