//! Runs all threads of a hub, and writes its history while it is made.
ghost use Rattle.std.specs.Prelude.{◌≡◌, ◌≤◌, ℕ, List, Option, [], true, IfOk, IfErr, OnOk, OnErr, IsErrOf};
ghost use Rattle.std.specs.Io.KnownBytes.{Appends};
ghost use Rattle.cmwq_io.specs.Counts.{Rises};
ghost use Rattle.cmwq_io.specs.Moves.{AppendsFront};
ghost use Rattle.cmwq_model.specs.Prelude.{past_of, IsLegal};
ghost use Rattle.cmwq_text.specs.HistoryText.{body_text, text_of_format};
ghost use Rattle.cmwq_rt.specs.Places.{shares};
ghost use Rattle.cmwq_engine.specs.Ended.{EndsAll};
ghost use Rattle.cmwq_rt_journal.specs.Faults.{is_of_sink};
ghost use Rattle.cmwq_rt_journal.specs.Journaled.{TellsOf, WritesLeft, is_quiet};
ghost use Rattle.cmwq_rt_journal.specs.Kept.{HasKept, WritesFront};
ghost use Rattle.cmwq_rt_journal.specs.declared.fault.Unwritten.TheVariants as unwritten;

use crate::beside::{Beside, run_beside};
use crate::fault::{JournalFault, Unwritten};
use crate::keep::end_journal;
use cmwq_engine::beside::{Counted, end_with};
use cmwq_engine::{Crew, Shared, Tally, lending_for};
use cmwq_io::Sink;
use cmwq_model::{Entry, Shape};
use cmwq_monitor::{Journal, RunFault};
use cmwq_rt::ending::into_monitor;
use cmwq_rt::{Hub, HubName, HubParts, Work};
use std::alloc::Global;
use std::marker::Brand;
use std::sync::Wait;
use std::thread::Threads;
use std::time::Clock;

/// What is told where a journal broke off. It is the only one of its hub and as large as what the hub keeps.
fn told(fault: JournalFault) -> Unwritten
    ensures sink { result ≡ unwritten.Sink → is_of_sink fault ≡ true }
    ensures tells { is_quiet result ≡ true }
{
    match fault {
        JournalFault::Write { .. } => Unwritten::Sink,
        JournalFault::Late(book) => Unwritten::Run(RunFault::Stranger { own: 0, book }),
        JournalFault::Hub {
            fault: RunFault::Stranger { own, book },
            ..
        } => Unwritten::Run(RunFault::Stranger { own, book }),
        JournalFault::Hub { .. } => Unwritten::Run(RunFault::NoMemory { ticket: None }),
    }
}

/// Writes the last line of a text whose entries are all written.
fn write_end<N: HubName, O: Sink>(
    journal: &Journal<N>,
    counted: Counted,
    output: &mut O,
) -> Result<Tally, Unwritten>
    requires rest { counted.rest.entries.items ≡ [] }
    ensures written { IfOk result (λ t. t ≡ counted.tally) }
    ensures whole { OnOk result ((start : Option (List ℕ))
        → Appends start (O.written output.old) (body_text 3 N.layout journal.now.seen)
        → Appends start (O.written output.new) (text_of_format 3 N.layout journal.now.seen)) }
    ensures flushed { OnOk result (O.held output.new ≡ 0) }
    ensures front { OnErr result ((start : Option (List ℕ))
        → Appends start (O.written output.old) (body_text 3 N.layout journal.now.seen)
        → AppendsFront start (O.written output.new) (text_of_format 3 N.layout journal.now.seen)) }
    ensures tells { IfErr result (λ f. is_quiet f ≡ true) }
    ensures sink { IsErrOf result unwritten.Sink → Rises (O.troubles output.old) (O.troubles output.new) }
{
    match end_journal(journal, &counted.rest, output) {
        Ok(()) => Ok(counted.tally),
        Err(fault) => Err(told(fault)),
    }
}

/// Ends a run whose threads have ended: what its journal wrote is made whole, if all went well.
fn end_run<N: HubName, C: Crew, W: Work, R: Wait, O: Sink>(
    rt: &R,
    hub: Hub<N>,
    beside: Beside<N>,
    crew: &C,
    work: &W,
    output: &mut O,
) -> Result<Tally, Unwritten>
    requires parts { N.parts ≡ shares }
    requires ends { EndsAll N.layout (W.does work.now N.layout) (C.calls crew.now) (C.roles crew.now N.layout)
        beside.ends }
    requires legal { IsLegal N.layout (past_of beside.journal.seen) }
    ensures whole { IfOk result (λ t. (start : Option (List ℕ))
        → HasKept N.layout beside.journal.seen start (O.written output.old) beside.kept
        → WritesLeft N.layout (W.does work.now N.layout) (C.calls crew.now) (C.roles crew.now N.layout) t.answered
        t.full t.left_out start (O.written output.new)) }
    ensures flushed { OnOk result (O.held output.new ≡ 0) }
    ensures front { OnErr result ((start : Option (List ℕ))
        → HasKept N.layout beside.journal.seen start (O.written output.old) beside.kept
        → WritesFront N.layout start (O.written output.new)) }
    ensures tells { IfErr result (TellsOf N.layout (C.calls crew.now) (C.roles crew.now N.layout)) }
    ensures sink { IsErrOf result unwritten.Sink
        → ((start : ℕ) → start ≤ O.troubles output.old
        → IfErr beside.kept (λ f. is_of_sink f ≡ true → Rises start (O.troubles output.old))
        → Rises start (O.troubles output.new)) }
{
    let Beside {
        ends,
        journal,
        kept,
    } = beside;
    if let Err(fault) = kept {
        into_monitor(hub).end(rt);
        return Err(told(fault));
    }
    let ends = match ends {
        Ok(ends) => ends,
        Err(fault) => {
            into_monitor(hub).end(rt);
            return Err(Unwritten::Run(fault));
        }
    };
    let mut journal = journal;
    match end_with(rt, hub, ends, crew, work, &mut journal) {
        Ok(counted) => write_end(&journal, counted, output),
        Err(fault) => Err(Unwritten::Run(fault)),
    }
}

/// Runs all threads on a hub of these parts, and writes its history.
fn write_parts<
    'x,
    N: HubName + Send + Sync + 'static,
    C: Crew + Sync,
    W: Work + Sync,
    R: Threads + Wait + Clock + Sync,
    O: Sink,
>(
    rt: &'x R,
    alloc: Global,
    parts: HubParts,
    spare: Vec<Entry>,
    crew: &'x C,
    work: &'x W,
    output: &mut O,
) -> Result<Tally, Unwritten>
    requires layout { parts.shape ≡ N.layout }
    requires book { parts.opening.book ≡ N.book }
    requires lends { (C.roles crew.now parts.shape).threads ≡ N.first_lent }
    requires ledger { (parts.blank.name ≡ N.name) × (parts.blank.parts ≡ N.parts) }
    requires fits { C.fits crew.now N.layout }
    requires spare { spare.items ≡ [] }
    ensures whole { IfOk result
        (λ t. WritesLeft N.layout (W.does work.now N.layout) (C.calls crew.now) (C.roles crew.now N.layout) t.answered
        t.full t.left_out (O.written output.old) (O.written output.new)) }
    ensures flushed { OnOk result (O.held output.new ≡ 0) }
    ensures front { OnErr result (WritesFront N.layout (O.written output.old) (O.written output.new)) }
    ensures tells { IfErr result (TellsOf N.layout (C.calls crew.now) (C.roles crew.now N.layout)) }
    ensures sink { IsErrOf result unwritten.Sink → Rises (O.troubles output.old) (O.troubles output.new) }
{
    let (hub, participants) = Hub::<N>::open(lending_for(parts, crew));
    let journal = hub.journal(rt, spare);
    let beside = run_beside(
        &Shared {
            rt,
            alloc,
            hub: &hub,
            crew,
            work,
        },
        participants,
        journal,
        output,
    );
    match beside {
        Ok(beside) => end_run(rt, hub, beside, crew, work, output),
        Err(fault) => {
            into_monitor(hub).end(rt);
            Err(Unwritten::Run(fault))
        }
    }
}

/// Runs a crew and its work on a new hub, as `cmwq_engine::run` does, and writes the history with its shape in format 3
/// while it is made, flushed after each batch: so many entries are kept at a time, or as many as one move may make if
/// that is more (`HubParts::least_kept`), and what is made is written after a tenth of a second at the latest. The
/// journal is kept in this thread, beside one that runs all others. So many callers have a reader
/// (`HubParts::with_readers`).
///
/// # Errors
/// `Sink` where the sink failed. `Run` with what `cmwq_engine::run` answers, all threads having ended, or with
/// `NoMemory` or `NoThread` for the journal. A front of the text of a legal history is written then, and no last line
/// but where the sink failed after it.
pub fn run_with_journal<
    'x,
    C: Crew + Sync,
    W: Work + Sync,
    R: Threads + Wait + Clock + Sync,
    O: Sink,
>(
    rt: &'x R,
    alloc: Global,
    shape: &Shape,
    readers: u8,
    kept: u32,
    crew: &'x C,
    work: &'x W,
    output: &mut O,
) -> Result<Tally, Unwritten>
    requires { C.fits crew.now shape.now }
    ensures whole { IfOk result
        (λ t. WritesLeft shape.now (W.does work.now shape.now) (C.calls crew.now) (C.roles crew.now shape.now)
        t.answered t.full t.left_out (O.written output.old) (O.written output.new)) }
    ensures flushed { OnOk result (O.held output.new ≡ 0) }
    ensures front { OnErr result (WritesFront shape.now (O.written output.old) (O.written output.new)) }
    ensures tells { IfErr result (TellsOf shape.now (C.calls crew.now) (C.roles crew.now shape.now)) }
    ensures sink { IsErrOf result unwritten.Sink → Rises (O.troubles output.old) (O.troubles output.new) }
{
    // a move is made only where there is space for all its entries
    let kept = kept.max(HubParts::least_kept(shape));
    let Ok(spare) = Vec::with_capacity(alloc, kept as usize) else {
        return Err(Unwritten::Run(RunFault::NoMemory { ticket: None }));
    };
    match HubParts::with_readers(rt, alloc, shape, kept, readers) {
        Ok(parts) => write_parts::<Brand, C, W, R, O>(rt, alloc, parts, spare, crew, work, output),
        Err(fault) => Err(Unwritten::Run(fault)),
    }
}
