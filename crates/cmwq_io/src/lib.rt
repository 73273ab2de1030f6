//! Where bytes come from and go to: sources and sinks that count their failures, calls that try again when
//! they are interrupted, the lines of a source, and a sink that gathers small writes.
#![tactic(auto)]

mod buffered;
mod fails_at;
mod from_std;
mod lines;
mod memory;
mod outcomes;
mod patient;
mod sink;
mod source;
mod telling;
mod trouble;

pub use buffered::BufferedSink;
pub use fails_at::FailsAt;
pub use from_std::FromStd;
pub use lines::{Found, LINE_LIMIT, Line, Lines};
pub use memory::Memory;
pub use patient::{flush_all, read_some, write_all};
pub use sink::Sink;
pub use source::Source;
pub use telling::tell;
pub use trouble::{ReadFault, Trouble, WriteFault};
