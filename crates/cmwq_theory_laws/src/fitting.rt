//! A legal history can be written, and read again.

ghost use Rattle.cmwq_theory_laws.specs.Fitting.{EntriesFit, LegalHistoriesFit};

/// The call of each legal entry fits, and the items and workers that its reply names are of the layout.
pub fn entries_fit()
    ensures { EntriesFit }
{}

/// Each entry of a legal history fits its layout, and where the callers, workers and calls are inside the ranges of
/// their types, so are all serials and replies, up to as many entries as there are numbers for them, and while the time
/// is within its room.
pub fn legal_histories_fit()
    ensures { LegalHistoriesFit }
{}
