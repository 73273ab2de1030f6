//! The schedule that left a history.

ghost use Rattle.std.specs.Prelude.{◌≡◌, IfOk};
ghost use Rattle.cmwq_json_script.specs.Scripts.{run_of};
ghost use Rattle.cmwq_play.specs.Stands.{Stand};
ghost use Rattle.cmwq_play.specs.Starts.{first_stand, start_of};
ghost use Rattle.cmwq_follow.specs.Followed.{IfBreaks, IfPath, LeaveAtMost, Leaves};
ghost use Rattle.cmwq_cmd_explore.specs.Verdicts.{SaysHistory};

use crate::report::{flush, write_found_path};
use crate::verdict::Verdict;
use cmwq_base::{HistoryFile, Shape};
use cmwq_follow::{Followed, follow};
use cmwq_io::Sink;
use cmwq_json::Fault;
use cmwq_json_script::Script;
use cmwq_model::Entry;
use cmwq_play::{Play, Setup};
use std::alloc::Global;

/// How many moves are tried at most, where no other number is given.
const MOVES: u64 = 100_000_000;

/// Whether two shapes are the same.
fn is_same_shape(one: &Shape, other: &Shape) -> bool {
    let (queues, others) = (one.queues(), other.queues());
    if one.counts() != other.counts() || queues.len() != others.len() {
        return false;
    }
    for k in 0..queues.len() {
        if queues[k] != others[k] {
            return false;
        }
    }
    true
}

/// Writes the moves of the schedule that left a history.
fn write_way<O: Sink>(output: &mut O, play: &Play<'_>, path: &[usize]) -> Result<(), Fault> {
    write_found_path(output, play, path)?;
    flush(output)
}

/// The same, with a play that knows the names of the parties.
fn tell_way<'a, O: Sink>(
    alloc: Global,
    setup: &'a Setup<'a>,
    path: &[usize],
    output: &mut O,
) -> Result<(), Fault> {
    let play = Play::new(alloc, setup)?;
    let written = write_way(output, &play, path);
    drop(play);
    written
}

/// Writes what was found.
fn tell_followed<'a, O: Sink>(
    alloc: Global,
    setup: &'a Setup<'a>,
    followed: &Followed,
    entries: &[Entry],
    output: &mut O,
) -> Result<Verdict, Fault>
    ensures { (start : Stand) → IfPath followed.now (λ path. Leaves start entries.now path)
        → IfBreaks followed.now (λ most. LeaveAtMost start entries.now most)
        → IfOk result (λ verdict. SaysHistory start entries.now verdict) }
{
    match followed {
        Followed::Path(path) => {
            tell_way(alloc, setup, path, output)?;
            Ok(Verdict::AllEnd)
        }
        Followed::Breaks(most) if *most == entries.len() => Ok(Verdict::GoesOn),
        Followed::Breaks(most) => Ok(Verdict::Strays(*most as u64)),
        Followed::Unknown => Ok(Verdict::Bounded),
    }
}

/// Finds the schedule of a setup that left these entries, by so many tries of a move at most, and writes its moves.
fn follow_history<'a, O: Sink>(
    alloc: Global,
    setup: &'a Setup<'a>,
    entries: &[Entry],
    moves: u64,
    output: &mut O,
) -> Result<Verdict, Fault>
    ensures { IfOk result (λ verdict. SaysHistory (start_of setup.now) entries.now verdict) }
{
    let followed = follow(alloc, setup, entries, moves)?;
    tell_followed(alloc, setup, &followed, entries, output)
}

/// Finds the schedule of a script that left a history, and writes its moves.
pub(crate) fn explore_history<O: Sink>(
    alloc: Global,
    script: &Script,
    file: &HistoryFile,
    moves: Option<u64>,
    output: &mut O,
) -> Result<Verdict, Fault>
    ensures { IfOk result
        (λ verdict. SaysHistory (first_stand (run_of script.now)) file.now.entries.items verdict) }
{
    if !is_same_shape(&script.shape, &file.shape) {
        return Ok(Verdict::OtherShape);
    }
    let setup = Setup::new(alloc, script)?;
    let told = follow_history(alloc, &setup, &file.entries, moves.unwrap_or(MOVES), output);
    drop(setup);
    told
}
