//! The rows of entries.
ghost use Rattle.std.specs.Prelude.{◌≡◌, ◌∷◌, ◌≤◌, OnOk, OnErr};
ghost use Rattle.std.specs.Io.KnownBytes.{Appends};
ghost use Rattle.cmwq_io.specs.Counts.{Rises};
ghost use Rattle.cmwq_io.specs.Moves.{AppendsFront};
ghost use Rattle.cmwq_kinds.specs.Numbers.{numbers_of_call};
ghost use Rattle.cmwq_page.specs.Entries as spec;
ghost use Rattle.cmwq_page.specs.Rows.{who_number};

use crate::rows::who_number;
use cmwq_base::{Sink, WriteFault};
use cmwq_chart_text::write_filled;
use cmwq_kinds::{numbers_of_call, numbers_of_reply};
use cmwq_model::{Call, Entry, Reply, Who};

/// The first part of an entry's row, with a hole for each number: who made it, the call's kind, and what stands in the
/// call.
fn call_template(call: &Call) -> &'static str
    ensures { result.now ≡ spec.call_template call.now }
{
    match call {
        Call::Queue { .. } => "$ $ $ $ $ ",
        Call::Delay { .. } | Call::Modify { .. } => "$ $ $ $ $ $ ",
        Call::SetMax { .. } => "$ $ $ $ ",
        Call::Cancel { .. }
        | Call::Tick { .. }
        | Call::Flush { .. }
        | Call::Drain { .. }
        | Call::FlushItem { .. }
        | Call::FlushDelayed { .. }
        | Call::CancelSync { .. }
        | Call::End { .. }
        | Call::Destroy { .. } => "$ $ $ ",
        Call::Fire
        | Call::Take
        | Call::Finish
        | Call::Sleep
        | Call::Wake
        | Call::Retire
        | Call::Freeze
        | Call::Thaw => "$ $ ",
    }
}

/// The last part: the reply's kind, and what stands in the reply.
fn reply_template(reply: &Reply) -> &'static str
    ensures { result.now ≡ spec.reply_template reply.now }
{
    match reply {
        Reply::Fired(..) | Reply::TicketCancelled(..) | Reply::StartedEnlist(..) => "$ $ $\n",
        Reply::Yes(_)
        | Reply::Booked(_)
        | Reply::Again(_)
        | Reply::Rebooked(_)
        | Reply::Cancelled(_)
        | Reply::Now(_)
        | Reply::Ticket(_)
        | Reply::TicketQueued(_)
        | Reply::TicketUnbooked(_)
        | Reply::TicketNo(_)
        | Reply::Waiting(_)
        | Reply::Started(_)
        | Reply::Finished(_)
        | Reply::Width(_) => "$ $\n",
        Reply::No
        | Reply::Foreign
        | Reply::Draining
        | Reply::Misuse
        | Reply::Unbooked
        | Reply::Nothing
        | Reply::Idle
        | Reply::Crowded
        | Reply::Done
        | Reply::Held
        | Reply::Slept
        | Reply::Woke
        | Reply::Retired
        | Reply::Kept
        | Reply::Frozen
        | Reply::Thawed
        | Reply::Gone
        | Reply::Timers => "$\n",
    }
}

/// Who made a call, and the call's numbers.
#[tactic(auto, using(crate::proofs::Five::five))]
fn call_numbers(who: Who, call: Call) -> [u64; 6]
    ensures { result ≡ who_number who ∷ numbers_of_call call }
{
    let [kind, first, second, third, fourth] = numbers_of_call(call);
    [who_number(who), kind, first, second, third, fourth]
}

/// Writes the row of an entry.
#[tactic(auto, unfolding(crate::specs::Entries::entry_text))]
fn write_entry<W: Sink>(sink: &mut W, entry: &Entry) -> Result<(), WriteFault>
    ensures ok { OnOk result (Appends (W.written sink.old) (W.written sink.new) (spec.entry_text entry.now)) }
    ensures err { OnErr result (AppendsFront (W.written sink.old) (W.written sink.new) (spec.entry_text entry.now)) }
    ensures grown { W.troubles sink.old ≤ W.troubles sink.new }
    ensures fault { OnErr result (Rises (W.troubles sink.old) (W.troubles sink.new)) }
{
    let numbers = call_numbers(entry.who, entry.call);
    write_filled(sink, call_template(&entry.call), &numbers)?;
    write_filled(
        sink,
        reply_template(&entry.reply),
        &numbers_of_reply(entry.reply),
    )?;
    Ok(())
}

/// Writes the rows of entries, one after the other.
pub(crate) fn write_entries<W: Sink>(sink: &mut W, entries: &[Entry]) -> Result<(), WriteFault>
    ensures ok { OnOk result (Appends (W.written sink.old) (W.written sink.new) (spec.entries_text entries.now)) }
    ensures err { OnErr result
        (AppendsFront (W.written sink.old) (W.written sink.new) (spec.entries_text entries.now)) }
    ensures grown { W.troubles sink.old ≤ W.troubles sink.new }
    ensures fault { OnErr result (Rises (W.troubles sink.old) (W.troubles sink.new)) }
{
    for entry in entries {
        write_entry(sink, entry)?;
    }
    Ok(())
}
