//! Runs all threads beside the journal that writes their history.
ghost use Rattle.std.specs.Prelude.{◌≡◌, ◌≤◌, true, IfOk, IfErr, OnOk};
ghost use Rattle.cmwq_io.specs.Counts.{Rises};
ghost use Rattle.cmwq_model.specs.Prelude.{past_of, IsLegal};
ghost use Rattle.cmwq_rt.specs.Places.{all_free};
ghost use Rattle.cmwq_engine.specs.Ended.{EndsAll, is_silent};
ghost use Rattle.cmwq_rt_journal.specs.Faults.{is_of_sink};
ghost use Rattle.cmwq_rt_journal.specs.Kept.{HasKept};

use crate::fault::JournalFault;
use crate::keep::keep_journal;
use cmwq_engine::beside::{start_all, stop};
use cmwq_engine::{Crew, Ends, Shared};
use cmwq_io::Sink;
use cmwq_monitor::{Journal, RunFault};
use cmwq_rt::{HubName, Participants, Work};
use std::sync::Wait;
use std::thread::{self, Scope, Threads};
use std::time::{Clock, Duration};

/// No longer than so do the last entries of a quiet hub stay unwritten.
const MILLISECONDS: u64 = 100;

/// What a run leaves, and its journal.
#[derive(Drop)]
pub(crate) struct Beside<N: HubName> {
    pub ends: Result<Ends<N>, RunFault>,
    pub journal: Journal<N>,
    pub kept: Result<(), JournalFault>,
}

/// Keeps the journal in this thread while another runs all others.
fn keep_beside_run<
    's,
    E,
    N: HubName + Send + Sync + 's,
    C: Crew + Sync,
    W: Work + Sync,
    R: Threads + Wait + Clock + Sync,
    O: Sink,
>(
    scope: &Scope<'s, E>,
    shared: &'s Shared<'s, N, C, W, R>,
    participants: Participants<N>,
    journal: Journal<N>,
    output: &mut O,
) -> Result<Beside<N>, RunFault>
    requires fresh { participants ≡ all_free }
    requires fits { C.fits shared.now.crew.now N.layout }
    ensures ends { IfOk result
        (λ b. EndsAll N.layout (W.does shared.now.work.now N.layout) (C.calls shared.now.crew.now)
        (C.roles shared.now.crew.now N.layout) b.ends) }
    ensures legal { IfOk result (λ b. IsLegal N.layout (past_of b.journal.seen)) }
    ensures kept { IfOk result
        (λ b. HasKept N.layout b.journal.seen (O.written output.old) (O.written output.new) b.kept) }
    ensures grown { OnOk result (O.troubles output.old ≤ O.troubles output.new) }
    ensures sink { IfOk result
        (λ b. IfErr b.kept (λ f. is_of_sink f ≡ true → Rises (O.troubles output.old) (O.troubles output.new))) }
    ensures none { IfErr result (λ f. (is_silent f ≡ true) × (output.new ≡ output.old)) }
{
    let conductor = match start_all(scope, shared, participants) {
        Ok(conductor) => conductor,
        Err(fault) => return Err(fault),
    };
    let mut journal = journal;
    let time = Duration::from_millis(MILLISECONDS);
    let kept = keep_journal(shared.rt, shared.hub, &mut journal, time, output);
    if kept.is_err() {
        stop(shared);
    }
    Ok(Beside {
        ends: conductor.join(shared.rt),
        journal,
        kept,
    })
}

/// What a reference that came back from a closure refers to is as it is.
fn take_back<O>(output: &mut O)
    ensures { output.new ≡ output.old }
{
    let _ = output;
}

/// Runs all threads in a scope of their own, and keeps the journal meanwhile.
pub(crate) fn run_beside<
    'x,
    N: HubName + Send + Sync,
    C: Crew + Sync,
    W: Work + Sync,
    R: Threads + Wait + Clock + Sync,
    O: Sink,
>(
    shared: &'x Shared<'x, N, C, W, R>,
    participants: Participants<N>,
    journal: Journal<N>,
    output: &mut O,
) -> Result<Beside<N>, RunFault>
    requires fresh { participants ≡ all_free }
    requires fits { C.fits shared.now.crew.now N.layout }
    ensures ends { IfOk result
        (λ b. EndsAll N.layout (W.does shared.now.work.now N.layout) (C.calls shared.now.crew.now)
        (C.roles shared.now.crew.now N.layout) b.ends) }
    ensures legal { IfOk result (λ b. IsLegal N.layout (past_of b.journal.seen)) }
    ensures kept { IfOk result
        (λ b. HasKept N.layout b.journal.seen (O.written output.old) (O.written output.new) b.kept) }
    ensures grown { OnOk result (O.troubles output.old ≤ O.troubles output.new) }
    ensures sink { IfOk result
        (λ b. IfErr b.kept (λ f. is_of_sink f ≡ true → Rises (O.troubles output.old) (O.troubles output.new))) }
    ensures none { IfErr result (λ f. (is_silent f ≡ true) × (output.new ≡ output.old)) }
{
    let (beside, output) = thread::scope(
        thread::scope_env(),
        shared.rt,
        move |scope| -> (Result<Beside<N>, RunFault>, &mut O)
            requires { (participants ≡ all_free) × C.fits shared.now.crew.now N.layout }
            ensures { (result.1.ghost_name ≡ output.entry.ghost_name)
                × IfOk result.0
                (λ b. EndsAll N.layout (W.does shared.entry.now.work.now N.layout) (C.calls shared.entry.now.crew.now)
                (C.roles shared.entry.now.crew.now N.layout) b.ends
                × IsLegal N.layout (past_of b.journal.seen)
                × HasKept N.layout b.journal.seen (O.written output.entry.now) (O.written result.1.now) b.kept
                × IfErr b.kept (λ f. is_of_sink f ≡ true
                → Rises (O.troubles output.entry.now) (O.troubles result.1.now)))
                × OnOk result.0 (O.troubles output.entry.now ≤ O.troubles result.1.now)
                × IfErr result.0 (λ f. (is_silent f ≡ true) × (result.1.now ≡ output.entry.now)) }
        {
            let beside = keep_beside_run(scope, shared, participants, journal, output);
            (beside, output)
        },
    );
    take_back(output);
    beside
}
