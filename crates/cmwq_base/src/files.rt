//! Files of calls and histories.

ghost use Rattle.std.specs.Prelude.{◌≡◌, ◌⊎◌, ◌≤◌, length, IfSome, IfOk, IsErrOf, IsTrue};
ghost use Rattle.std.specs.List.{All};
ghost use Rattle.cmwq_model.specs.Prelude.{fits, AllFit};
ghost use Rattle.cmwq_text.specs.Formats.{line_limit, room_limit};
ghost use Rattle.cmwq_io.specs.Counts.{Rises};
ghost use Rattle.cmwq_base.specs.Gives.{Gives};
ghost use Rattle.cmwq_base.specs.Kinds.{call_file_of, history_file_of};

use crate::gather::Listed;
use crate::reading::read_file;
use crate::refusal::Refusal;
use crate::stage::FileLine;
use crate::usual::{read_usual_call, read_usual_entry};
use cmwq_io::Source;
use cmwq_model::{Call, Entry, QueueShape, Shape, Who};
use std::alloc::Global;

impl FileLine for (Who, Call) {
    ghost use Rattle.cmwq_base.specs.Kinds.{calls_kind};

    ghost kind = { calls_kind };

    fn says_format(version: u8, line: &[u8]) -> bool {
        cmwq_text::is_calls_line(version, line)
    }

    fn read_queue(_version: u8, line: &[u8]) -> Option<QueueShape> {
        cmwq_text::read_queue_of_calls(line)
    }

    #[inline(always)]
    fn read(version: u8, line: &[u8]) -> Option<Self> {
        cmwq_text::read_call_of_format(version, line)
    }

    #[inline(always)]
    fn read_usual(_version: u8, bytes: &[u8]) -> Option<(Self, &[u8])> {
        read_usual_call(bytes)
    }

    fn needs_end(_version: u8) -> bool {
        false
    }

    #[inline(always)]
    fn fits(&self, shape: &Shape) -> bool {
        let (who, call) = *self;
        shape.fits(who, call)
    }
}

impl FileLine for Entry {
    ghost use Rattle.cmwq_base.specs.Kinds.{history_kind};

    ghost kind = { history_kind };

    fn says_format(version: u8, line: &[u8]) -> bool {
        cmwq_text::is_version_line(version, line)
    }

    fn read_queue(version: u8, line: &[u8]) -> Option<QueueShape> {
        cmwq_text::read_queue_of_format(version, line)
    }

    #[inline(always)]
    fn read(version: u8, line: &[u8]) -> Option<Self> {
        cmwq_text::read_entry_of_format(version, line)
    }

    #[inline(always)]
    fn read_usual(version: u8, bytes: &[u8]) -> Option<(Self, &[u8])> {
        read_usual_entry(version, bytes)
    }

    fn needs_end(version: u8) -> bool {
        cmwq_text::needs_end(version)
    }

    #[inline(always)]
    fn fits(&self, shape: &Shape) -> bool {
        cmwq_text::entry_fits(shape, self)
    }
}

/// A file of calls: a shape, and calls that fit it.
#[derive(Debug, Drop)]
pub struct CallFile {
    pub shape: Shape,
    pub calls: Vec<(Who, Call)>,
    /// The format in which it was read: 3 where its first line says so, and else 1.
    pub version: u8,
}

/// A history: a shape, and entries that fit it.
#[derive(Debug, Drop)]
pub struct HistoryFile {
    pub shape: Shape,
    pub entries: Vec<Entry>,
    /// The format in which it was read, 1, 2 or 3.
    pub version: u8,
}

ghost use Rattle.cmwq_base.specs.Views.{calls_in, file_of_history};

/// Reads a file of calls to the end of the source. One whose first line is `calls 3` has the limits of format 3. After
/// an error nothing is kept, and the source has been read up to a place that isn't said.
///
/// # Errors
/// The first refusal in the order of the bytes; `ReadFault` where the source fails, `NoMemory` where memory runs out.
pub fn read_calls<S: Source>(alloc: Global, source: &mut S) -> Result<CallFile, Refusal>
    ensures exact { IfSome (S.left source.old) (λ text. Gives calls_in result (call_file_of text)) }
    ensures version { IfOk result (λ file. (file.version ≡ 1) ⊎ (file.version ≡ 3)) }
    ensures room { IfOk result (λ file. file.shape.room ≤ room_limit file.version) }
    ensures few { IfOk result (λ file. length file.calls.items ≤ line_limit file.version) }
    ensures fitting { IfOk result (λ file. All (λ x. IsTrue (fits file.shape x.0 x.1)) file.calls.items) }
    ensures fault { IsErrOf result Refusal.ReadFault → Rises (S.troubles source.old) (S.troubles source.new) }
    ensures nothing_written { IsErrOf result Refusal.WriteFault → ⊥ }
{
    let file = read_file::<Listed<(Who, Call)>, S>(alloc, source, false)?;
    Ok(CallFile {
        shape: file.all.shape,
        calls: file.all.items,
        version: file.version,
    })
}

/// Reads a history to the end of the source, as `read_calls` does. Format 2 is that of a history whose first line is
/// `history 2`, and 3 that of one with `history 3`, whose last line says how many entries stand before it. Any reply
/// may follow any call.
///
/// # Errors
/// As those of `read_calls`.
pub fn read_history<S: Source>(alloc: Global, source: &mut S) -> Result<HistoryFile, Refusal>
    ensures exact { IfSome (S.left source.old) (λ text. Gives file_of_history result (history_file_of text)) }
    ensures version { IfOk result (λ file. (1 ≤ file.version) × (file.version ≤ 3)) }
    ensures room { IfOk result (λ file. file.shape.room ≤ room_limit file.version) }
    ensures few { IfOk result (λ file. length file.entries.items ≤ line_limit file.version) }
    ensures fitting { IfOk result (λ file. AllFit file.shape file.entries.items) }
    ensures fault { IsErrOf result Refusal.ReadFault → Rises (S.troubles source.old) (S.troubles source.new) }
    ensures nothing_written { IsErrOf result Refusal.WriteFault → ⊥ }
{
    let file = read_file::<Listed<Entry>, S>(alloc, source, false)?;
    Ok(HistoryFile {
        shape: file.all.shape,
        entries: file.all.items,
        version: file.version,
    })
}
