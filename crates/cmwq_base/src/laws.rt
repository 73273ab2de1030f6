//! What the texts of whole files keep, over every value.
ghost use Rattle.cmwq_base.specs.FileLaws.{CallFilesSpelledSo, FrontsAreWholeLines, HistoriesHaveOneText};
ghost use Rattle.cmwq_base.specs.FileLaws.{HistoriesAreOfTheirFormat, HistoriesReadAgain, OldHistoriesReadAgain};
ghost use Rattle.cmwq_base.specs.FileLaws.{CallFilesReadAgain};

/// A history and its shape have one text in each format: what is read of a file is spelled so.
pub fn histories_have_one_text()
    ensures { HistoriesHaveOneText }
{}

/// What is read of a file of calls is spelled so, but for each max_active that is taken as another one.
pub fn call_files_spelled_so()
    ensures { CallFilesSpelledSo }
{}

/// A front is read as its whole lines are with the last line that they lack.
pub fn fronts_are_whole_lines()
    ensures { FrontsAreWholeLines }
{}

/// What is read of a history has nothing that its format doesn't have.
pub fn histories_are_of_their_format()
    ensures { HistoriesAreOfTheirFormat }
{}

/// The text of a history and its shape is read again as itself.
pub fn histories_read_again()
    ensures { HistoriesReadAgain }
{}

/// So is its text in format 1, if that format has all that stands in it.
pub fn old_histories_read_again()
    ensures { OldHistoriesReadAgain }
{}

/// The text of calls and their shape is read again as itself.
pub fn call_files_read_again()
    ensures { CallFilesReadAgain }
{}
