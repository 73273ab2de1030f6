//! What the texts of lines keep, over every value.
ghost use Rattle.cmwq_text.specs.Laws.{CallsReadAgain, EntriesReadAgain, CountsReadAgain, QueuesReadAgain};
ghost use Rattle.cmwq_text.specs.Laws.{CallsSpelledSo, EntriesSpelledSo, CountsSpelledSo, QueuesSpelledSo};
ghost use Rattle.cmwq_text.specs.Laws.{EndsReadAgain, EndsSpelledSo, EntriesStandApart, LinesAreShort};

/// Each line of calls that is spelled is read again as itself.
pub fn calls_read_again()
    ensures { CallsReadAgain }
{}

/// Each line of an entry that is spelled is read again as itself.
pub fn entries_read_again()
    ensures { EntriesReadAgain }
{}

/// Each shape line that is spelled is read again as itself.
pub fn counts_read_again()
    ensures { CountsReadAgain }
{}

/// Each line of a queue that is spelled is read again as itself, in a file of calls and in a history.
pub fn queues_read_again()
    ensures { QueuesReadAgain }
{}

/// What is read from a line of calls is spelled so, if it is inside some shape.
pub fn calls_spelled_so()
    ensures { CallsSpelledSo }
{}

/// What is read from a line of an entry is spelled so, if it is inside some shape.
pub fn entries_spelled_so()
    ensures { EntriesSpelledSo }
{}

/// What is read from a shape line is spelled so.
pub fn counts_spelled_so()
    ensures { CountsSpelledSo }
{}

/// What is read from a line of a queue in a history is spelled so.
pub fn queues_spelled_so()
    ensures { QueuesSpelledSo }
{}

/// Each last line of a history that is spelled is read again as itself.
pub fn ends_read_again()
    ensures { EndsReadAgain }
{}

/// What is read from a last line of a history is spelled so.
pub fn ends_spelled_so()
    ensures { EndsSpelledSo }
{}

/// No text of an entry begins another's.
pub fn entries_stand_apart()
    ensures { EntriesStandApart }
{}

/// No line that is spelled is longer than 120 bytes and its line feed.
pub fn lines_are_short()
    ensures { LinesAreShort }
{}
