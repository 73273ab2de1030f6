//! The subcommand `explore`.

ghost use Rattle.std.specs.Prelude.{◌≡◌, ◌⊎◌, IfOk, IfSome, Ok, true};
ghost use Rattle.serde_json.specs.View.{view};
ghost use Rattle.cmwq_json_script.specs.Runs.{run_said};
ghost use Rattle.cmwq_json_script.specs.Scripts.{run_of};
ghost use Rattle.cmwq_play.specs.Starts.{first_stand};
ghost use Rattle.cmwq_cmd_explore.specs.Verdicts.{NeverBoth, OfRun, SaysHistory, SaysOf, SaysOfHistory, SaysOfPath};
ghost use Rattle.cmwq_cmd_explore.specs.Verdicts.{SaysPath, Tells, is_told, status_of};

use crate::all::{explore_all, write_histories};
use crate::history::explore_history;
use crate::path::explore_path;
use crate::seeds::{explore_seed, explore_seeds};
use crate::verdict::Verdict;
use crate::watching::Watching;
use cmwq_base::{HistoryFile, read_history};
use cmwq_explore::{Limits, all_end_or_one_is_stuck};
use cmwq_history::{refusal_status, tell_full};
use cmwq_io::{Sink, Source, tell};
use cmwq_json::{Fault, fault_status, read_value};
use cmwq_json_script::{Script, read_script};
use serde_json::Value;
use std::alloc::Global;
use std::time::Clock;

/// How many moves are made at most of all schedules, where no other number is given.
const MOVES: u64 = 100_000_000;

/// How the moves of a seed are chosen.
#[derive(Clone, Copy, Debug)]
pub struct Seeding {
    /// By so many priority changes less one, or None: each of those who may move is as likely.
    pub pct: Option<u64>,
    /// How many moves a schedule has at most, or None: as many as the room of the script allows.
    pub moves: Option<u64>,
}

/// Which schedules are played, and what is written of them.
#[derive(Clone, Copy, Debug)]
pub enum Task {
    /// The one of a seed: its history.
    OfSeed {
        seed: u64,
        seeding: Seeding,
    },
    /// Those of so many seeds, from the first on: how they ended, and the shortest that got stuck.
    OfSeeds {
        first: u64,
        times: u64,
        seeding: Seeding,
    },
    /// All, within so many moves: the same. A state that comes again is not searched again, unless each schedule is to
    /// be played.
    All {
        moves: Option<u64>,
        is_plain: bool,
        is_first: bool,
    },
    /// All, each played: the history of each that ended.
    Histories {
        moves: Option<u64>,
    },
}

/// Does a task.
fn explore_script<O: Sink, E: Sink, C: Clock>(
    alloc: Global,
    script: &Script,
    task: Task,
    output: &mut O,
    errors: &mut E,
    clock: Option<&C>,
) -> Result<Verdict, Fault>
    ensures { IfOk result
        (λ verdict. Tells task (run_of script.now) (O.written output.old) (O.written output.new) verdict) }
{
    match task {
        Task::OfSeed { seed, seeding } => {
            explore_seed(alloc, script, seed, seeding, output, errors)
        }
        Task::OfSeeds {
            first,
            times,
            seeding,
        } => {
            let mut watching = Watching::new(alloc, output, errors, clock, false);
            explore_seeds(alloc, script, first, times, seeding, &mut watching)
        }
        Task::All {
            moves,
            is_plain,
            is_first,
        } => {
            let mut watching = Watching::new(alloc, output, errors, clock, false);
            let limits = Limits {
                moves: moves.unwrap_or(MOVES),
                is_plain,
                is_first,
            };
            explore_all(alloc, script, limits, &mut watching)
        }
        Task::Histories { moves } => {
            let mut watching = Watching::new(alloc, output, errors, clock, true);
            write_histories(alloc, script, moves.unwrap_or(MOVES), &mut watching)
        }
    }
}

/// The script that a value says.
fn script_of(alloc: Global, value: &Value) -> Result<Script, Fault>
    ensures { IfOk result (λ script. run_said (view value.now) ≡ Ok (run_of script)) }
{
    match read_script(alloc, value)? {
        Ok(script) => Ok(script),
        Err(refused) => Err(Fault::Member(refused)),
    }
}

/// Reads a script.
fn script_in<S: Source>(alloc: Global, input: &mut S) -> Result<Script, Fault>
    ensures { IfOk result (λ script. IfSome (S.left input.old) (OfRun (λ r. r ≡ run_of script))) }
{
    let value = read_value(alloc, input)?;
    let script = script_of(alloc, &value);
    drop(value);
    script
}

/// Reads a script, and explores it.
fn explore<S: Source, O: Sink, E: Sink, C: Clock>(
    alloc: Global,
    input: &mut S,
    output: &mut O,
    errors: &mut E,
    task: Task,
    clock: Option<&C>,
) -> Result<Verdict, Fault>
    ensures { IfOk result (λ verdict. IfSome (S.left input.old)
        (OfRun (λ r. Tells task r (O.written output.old) (O.written output.new) verdict))) }
{
    let script = script_in(alloc, input)?;
    let verdict = explore_script(alloc, &script, task, output, errors, clock);
    drop(script);
    verdict
}

/// Reads all of a script in JSON, plays schedules of it in one thread, and writes what came of them: of one seed the
/// history, of many the figures and the shortest schedule that got stuck. Returns the exit status: 0 all ended, 1
/// refused input, 2 more priority changes than moves, 4 no memory, or of one seed calls left out, 5 a fault of reading
/// or writing, 6 all ended, and waits were refused, 7 a schedule that got stuck, 8 none that got stuck but not all
/// tried, 9 all ended, and a lock was misused. Shows how far it is by this clock, if there is one.
pub fn run_explore<S: Source, O: Sink, E: Sink, C: Clock>(
    alloc: Global,
    input: &mut S,
    output: &mut O,
    errors: &mut E,
    task: Task,
    clock: Option<&C>,
) -> u8
    ensures { is_told result ≡ true → IfSome (S.left input.old)
        (OfRun (SaysOf result task (O.written output.old) (O.written output.new))) }
{
    match explore(alloc, input, output, errors, task, clock) {
        Ok(verdict) => tell_verdict(verdict, errors),
        Err(fault) => {
            tell(errors, fault);
            fault_status(fault)
        }
    }
}

/// Reads all of a script in JSON, plays the moves in it that a file names, and writes the history of them. Returns the
/// exit status: that of the schedule of a seed, or 1 where the file names nobody, or one who may not move.
pub fn run_path<S: Source, P: Source, O: Sink, E: Sink>(
    alloc: Global,
    input: &mut S,
    path: &mut P,
    output: &mut O,
    errors: &mut E,
) -> u8
    ensures { is_told result ≡ true → IfSome (S.left input.old)
        (OfRun (SaysOfPath result (O.written output.old) (O.written output.new))) }
{
    match play_path(alloc, input, path, output, errors) {
        Ok(verdict) => tell_verdict(verdict, errors),
        Err(fault) => {
            tell(errors, fault);
            fault_status(fault)
        }
    }
}

/// Reads a script, and plays the moves that a file names.
fn play_path<S: Source, P: Source, O: Sink, E: Sink>(
    alloc: Global,
    input: &mut S,
    path: &mut P,
    output: &mut O,
    errors: &mut E,
) -> Result<Verdict, Fault>
    ensures { IfOk result (λ verdict. IfSome (S.left input.old)
        (OfRun (λ r. SaysPath (first_stand r) r.version (O.written output.old) (O.written output.new) verdict))) }
{
    let script = script_in(alloc, input)?;
    let verdict = explore_path(alloc, &script, path, output, errors);
    drop(script);
    verdict
}

/// Reads a history and a script, and writes the moves of the schedule that left the history. Returns the exit status: 0
/// there is one, 1 refused input, or a history of another shape, 3 no schedule leaves the history, and the first entry
/// that none leaves is told, if it is not left by all that go on, 8 none was found by so many tries of a move.
pub fn run_follow<S: Source, P: Source, O: Sink, E: Sink>(
    alloc: Global,
    input: &mut S,
    history: &mut P,
    output: &mut O,
    errors: &mut E,
    moves: Option<u64>,
) -> u8
    ensures { (result ≡ 0) ⊎ (result ≡ 3) → IfSome (S.left input.old) (λ script. IfSome (P.left history.old)
        (λ text. OfRun (λ r. SaysOfHistory result text r) script)) }
{
    let file = match read_history(alloc, history) {
        Ok(file) => file,
        Err(refusal) => {
            tell(errors, refusal);
            return refusal_status(refusal);
        }
    };
    match follow_file(alloc, input, &file, output, moves) {
        Ok(verdict) => tell_verdict(verdict, errors),
        Err(fault) => {
            tell(errors, fault);
            fault_status(fault)
        }
    }
}

/// Reads a script, and finds the schedule of it that left a history.
fn follow_file<S: Source, O: Sink>(
    alloc: Global,
    input: &mut S,
    file: &HistoryFile,
    output: &mut O,
    moves: Option<u64>,
) -> Result<Verdict, Fault>
    ensures { IfOk result (λ verdict. IfSome (S.left input.old)
        (OfRun (λ r. SaysHistory (first_stand r) file.now.entries.items verdict))) }
{
    let script = script_in(alloc, input)?;
    let verdict = explore_history(alloc, &script, file, moves, output);
    drop(script);
    verdict
}

/// Tells how schedules ended, and returns the exit status.
pub(crate) fn tell_verdict<E: Sink>(verdict: Verdict, errors: &mut E) -> u8
    ensures { result ≡ status_of verdict }
{
    match verdict {
        Verdict::AllEnd | Verdict::Unplayable => {}
        Verdict::OtherShape => tell(errors, "the history has another shape than the script"),
        Verdict::Strays(entries) => tell(
            errors,
            format_args!("no schedule of the script leaves entry {entries} of the history"),
        ),
        Verdict::GoesOn => tell(
            errors,
            "each schedule of the script that leaves the entries of the history goes on in the same move",
        ),
        Verdict::TooDeep(moves) => tell(
            errors,
            format_args!("--pct: the schedule of seed 0 has {moves} moves"),
        ),
        Verdict::LeftOut(left_out) => tell_full(errors, left_out),
        Verdict::Refused(refused) => tell(errors, format_args!("waits refused {refused}")),
        Verdict::RefusedIn(schedules) => {
            tell(
                errors,
                format_args!("waits refused in {schedules} schedules"),
            );
        }
        Verdict::Misused => tell(errors, "a lock is misused"),
        Verdict::Stuck => tell(errors, "a schedule is stuck"),
        Verdict::Bounded => tell(errors, "not all was tried"),
    }
    verdict.status()
}

/// No script is one of which every schedule ends, and one gets stuck: so the statuses 0 and 7 of all schedules rule
/// each other out.
pub fn never_both()
    ensures { NeverBoth }
{
    all_end_or_one_is_stuck();
}
