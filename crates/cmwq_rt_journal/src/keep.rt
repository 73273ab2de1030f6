//! The journal of a hub as text of format 3.

ghost use Rattle.std.specs.Prelude.{◌≡◌, ◌≤◌, ℕ, [], ◌++◌, List, Option, length, true, OnOk, IfErr};
ghost use Rattle.std.specs.Io.KnownBytes.{Appends};
ghost use mathlib.Core.List.{IsPrefix};
ghost use Rattle.cmwq_io.specs.Counts.{Rises};
ghost use Rattle.cmwq_model.specs.Prelude.{IsLegal, past_of};
ghost use Rattle.cmwq_text.specs.HistoryText.{body_text, text_of_format};
ghost use Rattle.cmwq_rt_journal.specs.Faults.{Broke, EndBroke, ending_text, is_of_sink};

use crate::fault::JournalFault;
use crate::lines::{write_batch, write_head, write_last};
use cmwq_io::Sink;
use cmwq_monitor::{Journal, Rest, RunFault};
use cmwq_publish::HubName;
use cmwq_rt::Hub;
use std::sync::Wait;
use std::time::{Clock, Duration};

/// Writes the history of a hub as text of format 3 while it is made, but for its last line, until the hub has failed:
/// so who has joined all callers and workers ends it by `Hub::fail`. It flushes after each batch, and waits for the
/// next no longer than `time`. It takes no memory, and writes without the hub's lock.
///
/// # Errors
/// `Late` where the journal has entries already: the hub is as it was. Otherwise the hub has failed, so that everybody
/// answers: `Write` where the sink fails; the entries that were not written whole are those of the journal's batch, and
/// what is left in the hub. `Hub` where `Hub::hand_over_within` answers a fault.
pub fn keep_journal<N: HubName, R: Wait + Clock, O: Sink>(
    rt: &R,
    hub: &Hub<N>,
    journal: &mut Journal<N>,
    time: Duration,
    output: &mut O,
) -> Result<(), JournalFault>
    ensures began { OnOk result (journal.old.seen ≡ []) }
    ensures written { OnOk result
        (Appends (O.written output.old) (O.written output.new) (body_text 3 N.layout journal.new.seen)) }
    ensures flushed { OnOk result (O.held output.new ≡ 0) }
    ensures legal { IsLegal N.layout (past_of journal.new.seen) }
    ensures grown { O.troubles output.old ≤ O.troubles output.new }
    ensures broke { IfErr result
        (λ f. Broke N.layout journal.old.seen journal.new.seen (O.written output.old) (O.written output.new) f) }
    ensures sink { IfErr result (λ f. is_of_sink f ≡ true → Rises (O.troubles output.old) (O.troubles output.new)) }
{
    let late = journal.len();
    if late > 0 {
        return Err(JournalFault::Late(late));
    }
    let kept = keep_from_start(rt, hub, journal, time, output);
    let _legal = journal.len();
    match kept {
        Ok(()) => Ok(()),
        Err(fault) => {
            hub.fail(rt);
            Err(fault)
        }
    }
}

fn keep_from_start<N: HubName, R: Wait + Clock, O: Sink>(
    rt: &R,
    hub: &Hub<N>,
    journal: &mut Journal<N>,
    time: Duration,
    output: &mut O,
) -> Result<(), JournalFault>
    requires { journal.old.seen ≡ [] }
    ensures written { OnOk result
        (Appends (O.written output.old) (O.written output.new) (body_text 3 N.layout journal.new.seen)) }
    ensures flushed { OnOk result (O.held output.new ≡ 0) }
    ensures grown { O.troubles output.old ≤ O.troubles output.new }
    ensures broke { IfErr result
        (λ f. Broke N.layout journal.old.seen journal.new.seen (O.written output.old) (O.written output.new) f) }
    ensures sink { IfErr result (λ f. is_of_sink f ≡ true → Rises (O.troubles output.old) (O.troubles output.new)) }
{
    if write_head(output, hub.shape()).is_err() {
        return Err(JournalFault::Write { written: 0 });
    }
    for _ in rt.forever() {
        let written = journal.len();
        let more = match hub.hand_over_within(rt, journal, time) {
            Ok(more) => more,
            Err(fault) => return Err(JournalFault::Hub { fault, written }),
        };
        match write_batch(output, journal.batch()) {
            Ok(()) => {}
            Err(_) => return Err(JournalFault::Write { written }),
        }
        if !more {
            return Ok(());
        }
    }
    unreachable!()
}

/// Ends the text that `keep_journal` wrote of a hub that is no more: the entries that were not handed over to the
/// journal, and the line that says how many all are. It flushes, and takes no memory.
///
/// # Errors
/// `Write` where the sink fails; a front of the lines has been written then. `Hub` with a `Stranger` where the rest
/// doesn't begin where the journal ends: nothing was written.
pub fn end_journal<N: HubName, O: Sink>(
    journal: &Journal<N>,
    rest: &Rest,
    output: &mut O,
) -> Result<(), JournalFault>
    ensures follows { OnOk result (rest.now.first ≡ length journal.now.seen) }
    ensures written { OnOk result
        (Appends (O.written output.old) (O.written output.new) (ending_text journal.now.seen rest.now.entries.items)) }
    ensures whole { OnOk result ((start : Option (List ℕ))
        → Appends start (O.written output.old) (body_text 3 N.layout journal.now.seen)
        → Appends start (O.written output.new)
        (text_of_format 3 N.layout (journal.now.seen ++ rest.now.entries.items))) }
    ensures flushed { OnOk result (O.held output.new ≡ 0) }
    ensures broke { IfErr result
        (λ f. EndBroke journal.now.seen rest.now.first rest.now.entries.items (O.written output.old)
        (O.written output.new) f) }
    ensures sink { IfErr result (λ f. is_of_sink f ≡ true → Rises (O.troubles output.old) (O.troubles output.new)) }
{
    let own = journal.len();
    let stranger = JournalFault::Hub {
        fault: RunFault::Stranger {
            own,
            book: rest.first,
        },
        written: own,
    };
    if rest.first != own {
        return Err(stranger);
    }
    let Some(all) = own.checked_add(rest.entries.len() as u64) else {
        return Err(stranger);
    };
    match write_last(output, rest.entries.as_slice(), all) {
        Ok(()) => Ok(()),
        Err(_) => Err(JournalFault::Write { written: own }),
    }
}

/// Takes the history of a hub and drops it, for who wants none, as long as `keep_journal` would write it.
///
/// # Errors
/// What `Hub::hand_over` answers: the hub has failed then.
pub fn drop_journal<N: HubName, R: Wait>(
    rt: &R,
    hub: &Hub<N>,
    journal: &mut Journal<N>,
) -> Result<(), RunFault>
    ensures grown { IsPrefix journal.old.seen journal.new.seen }
    ensures legal { IsLegal N.layout (past_of journal.new.seen) }
{
    for _ in rt.forever() {
        let _legal = journal.len();
        match hub.hand_over(rt, journal) {
            Ok(true) => {}
            Ok(false) => return Ok(()),
            Err(fault) => {
                hub.fail(rt);
                return Err(fault);
            }
        }
    }
    unreachable!()
}
