//! The text of one line: shapes, queues, calls and entries, read and spelled.
#![tactic(auto)]

mod call;
mod end;
mod entry;
mod expected;
mod format;
mod id;
mod keyword;
mod laws;
mod line;
mod number;
mod reply;
mod shape;
mod spelling;
mod verdict;
mod word;

pub use call::read_call;
pub use end::{end_line, read_end};
pub use entry::{entry_fits, read_entry};
pub use expected::{Expected, Form, NumberOf, expected_after, is_new_at, limits};
pub use format::{
    OLD_CALLERS, OLD_CPUS, OLD_ITEMS, OLD_QUEUES, OLD_ROOM, OLD_WORKERS, is_calls_line,
    is_version_line, line_limit, needs_end, queue_limit, read_call_of_format,
    read_counts_of_format, read_entry_of_format, read_queue_of_format,
};
pub use keyword::{KEYWORDS, Keyword};
pub use laws::{
    calls_read_again, calls_spelled_so, counts_read_again, counts_spelled_so, ends_read_again,
    ends_spelled_so, entries_read_again, entries_spelled_so, entries_stand_apart, lines_are_short,
    queues_read_again, queues_spelled_so,
};
pub use line::LineText;
pub use number::read_number;
pub use reply::reply_fits;
pub use shape::{begins_queue, read_counts, read_queue_of_calls, read_queue_of_history};
pub use spelling::{counts_line, entry_line, queue_line, spell_entry, version_line};
pub use verdict::{illegal_line, legal_line};
