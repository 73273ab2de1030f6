//! All schedules of a script.

ghost use Rattle.std.specs.Prelude.{◌≡◌, IfOk};
ghost use Rattle.cmwq_json_script.specs.Scripts.{run_of};
ghost use Rattle.cmwq_cmd_explore.specs.Verdicts.{SaysAll, ends_found};

use crate::report::{
    firsts_of, flush, write_cut_off, write_found, write_parties, write_path, write_refused,
};
use crate::seeds::write_play;
use crate::verdict::{Ends, Verdict};
use crate::watching::Watching;
use cmwq_explore::{Finding, Limits, Progress, Way, first_return, search_all};
use cmwq_io::Sink;
use cmwq_json::Fault;
use cmwq_json_script::Script;
use cmwq_play::{Play, Setup};
use std::alloc::{AllocError, Global};
use std::time::Clock;

/// The moves of a way, the first one first.
fn moves_of(alloc: Global, way: &[usize]) -> Result<Vec<usize>, AllocError> {
    let mut moves = way.to_vec(alloc)?;
    moves.reverse();
    Ok(moves)
}

/// The ends of the schedules that were found.
fn ends_of(finding: &Finding) -> Ends
    ensures { result ≡ ends_found finding.now }
{
    Ends {
        ended: finding.ended,
        stuck: finding.stuck,
        cut: finding.cut,
        short_of_room: finding.short_of_room,
        with_refusals: finding.with_refusals,
        with_misuse: finding.with_misuse,
    }
}

/// What is shown of all schedules: the moves of one of them at most.
#[derive(Drop)]
enum Shown {
    Stuck(Vec<usize>),
    CutOff(Vec<usize>),
    Refusing(Vec<usize>),
    None,
}

fn shown_of(alloc: Global, finding: &Finding) -> Result<Shown, AllocError> {
    let ways: (&Way, &Way, &Way) = (&finding.nearest, &finding.cutting, &finding.refusing);
    Ok(match ways {
        (Some(way), _, _) => Shown::Stuck(moves_of(alloc, way)?),
        (None, Some(way), _) => Shown::CutOff(moves_of(alloc, way)?),
        (None, None, Some(way)) => Shown::Refusing(moves_of(alloc, way)?),
        (None, None, None) => Shown::None,
    })
}

/// What a search found.
#[derive(Clone, Copy)]
struct Found<'a> {
    ends: Ends,
    progress: &'a Progress,
}

/// Writes what was found, and a schedule that gets stuck.
fn tell_stuck<'a, O: Sink>(
    alloc: Global,
    setup: &'a Setup<'a>,
    play: &mut Play<'a>,
    moves: &[usize],
    found: Found<'_>,
    output: &mut O,
) -> Result<(), Fault> {
    play.play_path(setup, moves)?;
    let firsts = firsts_of(alloc, play)?;
    write_found(output, found.progress, &found.ends)?;
    write_path(output, "stuck", play, moves)?;
    write_parties(output, "", play, &firsts)?;
    write_play(output, setup.script().version, play)
}

/// Writes what was found, and a schedule that was cut off.
fn tell_cut_off<'a, O: Sink>(
    alloc: Global,
    setup: &'a Setup<'a>,
    play: &Play<'a>,
    moves: &[usize],
    found: Found<'_>,
    output: &mut O,
) -> Result<(), Fault> {
    let again = first_return(alloc, setup, moves)?;
    write_found(output, found.progress, &found.ends)?;
    write_path(output, "cut off", play, moves)?;
    write_cut_off(output, again)?;
    flush(output)
}

/// Writes what was found, and a way to a wait that is refused.
fn tell_refusing<'a, O: Sink>(
    setup: &'a Setup<'a>,
    play: &mut Play<'a>,
    moves: &[usize],
    found: Found<'_>,
    output: &mut O,
) -> Result<(), Fault> {
    play.play_path(setup, moves)?;
    write_found(output, found.progress, &found.ends)?;
    write_path(output, "way to a refused wait", play, moves)?;
    write_refused(output, play)?;
    write_play(output, setup.script().version, play)
}

/// Writes what a search found, and the schedule that is shown. That is played before anything is written, since a play
/// takes memory.
fn tell_shown<'a, O: Sink>(
    alloc: Global,
    setup: &'a Setup<'a>,
    play: &mut Play<'a>,
    shown: &Shown,
    found: Found<'_>,
    output: &mut O,
) -> Result<(), Fault> {
    match shown {
        Shown::Stuck(moves) => tell_stuck(alloc, setup, play, moves, found, output),
        Shown::CutOff(moves) => tell_cut_off(alloc, setup, play, moves, found, output),
        Shown::Refusing(moves) => tell_refusing(setup, play, moves, found, output),
        Shown::None => {
            write_found(output, found.progress, &found.ends)?;
            flush(output)
        }
    }
}

/// The same, in a play of its own.
fn tell_with_play<'a, O: Sink>(
    alloc: Global,
    setup: &'a Setup<'a>,
    shown: &Shown,
    found: Found<'_>,
    output: &mut O,
) -> Result<(), Fault> {
    let mut play = Play::new(alloc, setup)?;
    let told = tell_shown(alloc, setup, &mut play, shown, found, output);
    drop(play);
    told
}

/// Writes what a search of a script found.
fn tell_found<O: Sink>(
    alloc: Global,
    script: &Script,
    finding: &Finding,
    progress: &Progress,
    output: &mut O,
) -> Result<(), Fault> {
    let ends = ends_of(finding);
    let found = Found { ends, progress };
    let shown = shown_of(alloc, finding)?;
    let setup = Setup::new(alloc, script)?;
    let told = tell_with_play(alloc, &setup, &shown, found, output);
    drop(setup);
    told
}

/// Searches all schedules, and writes what was found.
pub(crate) fn explore_all<O: Sink, E: Sink, C: Clock>(
    alloc: Global,
    script: &Script,
    limits: Limits,
    watching: &mut Watching<'_, O, E, C>,
) -> Result<Verdict, Fault>
    ensures { IfOk result (λ verdict. SaysAll (run_of script.now) verdict) }
{
    let (finding, progress) = search_all(alloc, script, limits, watching)?;
    watching.end_progress();
    tell_found(alloc, script, &finding, &progress, watching.output())?;
    Ok(ends_of(&finding).verdict())
}

/// Plays each schedule, and writes the history of each that ends.
pub(crate) fn write_histories<O: Sink, E: Sink, C: Clock>(
    alloc: Global,
    script: &Script,
    moves: u64,
    watching: &mut Watching<'_, O, E, C>,
) -> Result<Verdict, Fault>
    ensures { IfOk result (λ verdict. SaysAll (run_of script.now) verdict) }
{
    let limits = Limits {
        moves,
        is_plain: true,
        is_first: false,
    };
    let (finding, _) = search_all(alloc, script, limits, watching)?;
    watching.end_progress();
    if watching.has_failed() {
        return Err(Fault::WriteFault);
    }
    Ok(ends_of(&finding).verdict())
}
