//! Files of calls and histories, read from sources and written to sinks, with the items of the layers below.
#![tactic(auto)]

mod files;
mod gather;
mod laws;
mod reading;
mod refusal;
mod stage;
#[tactic(auto, using(crate::proofs::UsualLines::spelled), unfolding(cmwq_text::specs::Words::space_words, cmwq_text::specs::CallText::call_words, cmwq_text::specs::ReplyText::reply_words, cmwq_text::specs::Keywords::keyword_text))]
mod usual;
mod writing;

pub use cmwq_io::{
    BufferedSink, FailsAt, FromStd, Memory, ReadFault, Sink, Source, Trouble, WriteFault,
    flush_all, tell, write_all,
};
pub use cmwq_model::{
    Booking, Call, CallerId, Counts, CpuId, Entry, Illegal, ItemId, Mark, NoMemory, Number, Place,
    PoolId, QueueId, QueueShape, Queueing, Reply, Shape, Start, Ticket, Wanted, Who, WorkerId,
};
pub use cmwq_text::{entry_fits, reply_fits};
pub use files::{CallFile, HistoryFile, read_calls, read_history};
pub use gather::{Gather, Listed};
pub use laws::{
    call_files_read_again, call_files_spelled_so, fronts_are_whole_lines,
    histories_are_of_their_format, histories_have_one_text, histories_read_again,
    old_histories_read_again,
};
pub use reading::{TOO_MANY_LINES, read_file};
pub use refusal::Refusal;
pub use stage::{Contents, FileLine, Stage};
pub use writing::{write_end, write_entries, write_entry, write_shape};
