//! The rows of a page's entries tell the history.

ghost use Rattle.cmwq_chart_laws.specs.PageRows.{RowsTellHistories};

/// Two legal histories of one layout whose entries have the same rows on a page are the same.
pub fn rows_tell_histories()
    ensures { RowsTellHistories }
{}
