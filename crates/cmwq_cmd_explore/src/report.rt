//! What is written of schedules. It takes no memory, so that a report is whole, or has not begun.

ghost use Rattle.std.specs.Prelude.{◌<◌, IfOk};
ghost use Rattle.cmwq_core.specs.History.{past_in};
ghost use Rattle.cmwq_obstacle.specs.Firsts.{AreFirsts};

use crate::verdict::Ends;
use arrayvec::ArrayString;
use cmwq_explore::{Progress, Return};
use cmwq_io::{Sink, flush_all, write_all};
use cmwq_json::Fault;
use cmwq_model::{ItemId, Queueing, WorkerId};
use cmwq_obstacle::{Firsts, Obstacle, obstacle_of};
use cmwq_play::{Party, PartyName, Play, Refused};
use std::alloc::Global;
use std::fmt;
use std::fmt::{Display, Formatter, Write};

/// Room for a line, whose names have 16 characters at most.
type Line = ArrayString<256>;

fn spell<D: Display + Drop>(words: D) -> Result<Line, fmt::Error> {
    let mut line = Line::new();
    write!(line, "{words}")?;
    Ok(line)
}

fn write_words<O: Sink, D: Display + Drop>(output: &mut O, words: D) -> Result<(), Fault> {
    let Ok(line) = spell(words) else {
        return Err(Fault::WriteFault);
    };
    match write_all(output, line.as_bytes()) {
        Ok(()) => Ok(()),
        Err(_) => Err(Fault::WriteFault),
    }
}

/// Ends a report that no history follows.
pub(crate) fn flush<O: Sink>(output: &mut O) -> Result<(), Fault> {
    match flush_all(output) {
        Ok(()) => Ok(()),
        Err(_) => Err(Fault::WriteFault),
    }
}

/// A number of schedules, of which there may be more than can be counted.
#[derive(Clone, Copy)]
struct Count(u64);

impl Display for Count {
    fn fmt<W: Write>(&self, f: &mut Formatter<W>) -> fmt::Result {
        match self.0 {
            u64::MAX => write!(f, "at least {}", u64::MAX),
            count => write!(f, "{count}"),
        }
    }
}

/// How many came to each end, and in how many of those that ended or got stuck something was found.
fn write_ends<O: Sink>(output: &mut O, ends: &Ends) -> Result<(), Fault> {
    let (ended, stuck, cut) = (Count(ends.ended), Count(ends.stuck), Count(ends.cut));
    write_words(
        output,
        format_args!("ended {ended}, stuck {stuck}, cut off {cut}\n"),
    )?;
    let (short, refused) = (Count(ends.short_of_room), Count(ends.with_refusals));
    write_words(
        output,
        format_args!("calls left out in {short}, waits refused in {refused}\n"),
    )?;
    match ends.with_misuse {
        0 => Ok(()),
        misuse => write_words(output, format_args!("locks misused in {}\n", Count(misuse))),
    }
}

/// What came of the schedules of so many seeds.
pub(crate) fn write_seeds<O: Sink>(
    output: &mut O,
    times: u64,
    moves: u64,
    ends: &Ends,
) -> Result<(), Fault> {
    write_words(output, format_args!("seeds {times}, moves {moves}\n"))?;
    write_ends(output, ends)
}

/// What came of all schedules.
pub(crate) fn write_found<O: Sink>(
    output: &mut O,
    progress: &Progress,
    ends: &Ends,
) -> Result<(), Fault> {
    let schedules = ends.ended.saturating_add(ends.stuck);
    let schedules = Count(schedules.saturating_add(ends.cut));
    let (states, moves) = (progress.states, progress.moves);
    write_words(
        output,
        format_args!("schedules {schedules}, states {states}, moves {moves}\n"),
    )?;
    write_ends(output, ends)
}

/// The shortest schedule of a kind: its seed.
pub(crate) fn write_seed<O: Sink>(
    output: &mut O,
    kind: &str,
    seed: u64,
    moves: u64,
) -> Result<(), Fault> {
    write_words(
        output,
        format_args!("shortest {kind}: seed {seed}, {moves} moves\n"),
    )
}

/// The shortest schedule of a kind: who made each move.
pub(crate) fn write_path<O: Sink>(
    output: &mut O,
    kind: &str,
    play: &Play<'_>,
    path: &[usize],
) -> Result<(), Fault> {
    let moves = path.len();
    write_words(output, format_args!("shortest {kind}: {moves} moves\n"))?;
    write_names(output, play, path)
}

/// The schedule that left a history: who made each move.
pub(crate) fn write_found_path<O: Sink>(
    output: &mut O,
    play: &Play<'_>,
    path: &[usize],
) -> Result<(), Fault> {
    let moves = path.len();
    write_words(
        output,
        format_args!("a schedule of {moves} moves leaves this history\n"),
    )?;
    write_names(output, play, path)
}

/// The names of parties, on one line.
fn write_names<O: Sink>(output: &mut O, play: &Play<'_>, path: &[usize]) -> Result<(), Fault> {
    for (k, party) in path.iter().enumerate() {
        let space = if k == 0 { "" } else { " " };
        let name = play.name_of(*party);
        write_words(output, format_args!("{space}{name}"))?;
    }
    write_words(output, "\n")
}

/// Whether a state comes again in a schedule that was cut off.
pub(crate) fn write_cut_off<O: Sink>(output: &mut O, again: Option<Return>) -> Result<(), Fault> {
    match again {
        Some(Return { first, again }) => write_words(
            output,
            format_args!("the state after {first} moves comes again after {again}: a livelock\n"),
        ),
        None => write_words(output, "no state comes again\n"),
    }
}

/// The first wait that was refused.
pub(crate) fn write_refused<O: Sink>(output: &mut O, play: &Play<'_>) -> Result<(), Fault> {
    match Refused::first(play) {
        Some(refused) => write_words(output, format_args!("{refused}\n")),
        None => Ok(()),
    }
}

/// The first items of a play's places, of which a report of what everybody waits for tells. They are found before it
/// begins, since they take memory.
pub(crate) fn firsts_of(alloc: Global, play: &Play<'_>) -> Result<Firsts, Fault>
    ensures { IfOk result (λ firsts. AreFirsts play.now.history.layout (past_in play.now.history) firsts) }
{
    Ok(Firsts::new(alloc, play.state(), play.shape())?)
}

/// What everybody waits for who has something left, each on a line with this before it.
pub(crate) fn write_parties<O: Sink>(
    output: &mut O,
    before: &str,
    play: &Play<'_>,
    firsts: &Firsts,
) -> Result<(), Fault>
    requires { AreFirsts play.now.history.layout (past_in play.now.history) firsts.now }
{
    for k in 0..play.callers().len() {
        write_party(output, before, Party::caller(play, k))?;
    }
    for k in 0..play.workers().len() {
        write_party(output, before, Party::worker(play, k))?;
    }
    for item in 0..play.shape().counts().items {
        write_unstarted(output, before, play, firsts, ItemId(item))?;
    }
    Ok(())
}

/// The name of a worker that takes part.
fn worker_name(play: &Play<'_>, worker: WorkerId) -> Option<PartyName> {
    let callers = play.callers().len();
    for (k, at) in play.workers().iter().enumerate() {
        if at.id == worker {
            return Some(play.name_of(callers.saturating_add(k)));
        }
    }
    None
}

/// Why a queueing has not started, in words.
#[derive(Clone, Copy)]
struct ObstacleWords {
    obstacle: Option<Obstacle>,
    /// Whose run holds the pool.
    holder: Option<PartyName>,
}

/// Writes which queueings take the places of a queue on its CPU: the first of so many.
fn write_taken<W: Write>(
    f: &mut Formatter<W>,
    first: Option<Queueing>,
    active: u32,
) -> fmt::Result {
    match first {
        Some(first) if active > 1 => {
            let more = active - 1;
            write!(f, ", after queueing {} and {more} more", first.number)
        }
        Some(first) => write!(f, ", after queueing {}", first.number),
        None => Ok(()),
    }
}

impl Display for ObstacleWords {
    fn fmt<W: Write>(&self, f: &mut Formatter<W>) -> fmt::Result {
        match (self.obstacle, self.holder) {
            (Some(Obstacle::Frozen), _) => f.write_str(": its queue is frozen"),
            (Some(Obstacle::NoPlace { first, active }), _) => {
                f.write_str(": its queue has no place left on its CPU")?;
                write_taken(f, first, active)
            }
            (Some(Obstacle::ItemRuns), _) => f.write_str(": its item runs"),
            (Some(Obstacle::Held(_)), Some(name)) => {
                write!(f, ": the run of worker {name} is awake")
            }
            (Some(Obstacle::Held(_)), None) => f.write_str(": a run is awake"),
            (Some(Obstacle::NoWorker), _) => f.write_str(": no worker of its pool is idle"),
            (Some(Obstacle::Behind(next)), _) => write!(f, ": queueing {} is next", next.number),
            (None, _) => Ok(()),
        }
    }
}

/// The queueing of an item that has not started, if there is one, and why.
fn write_unstarted<O: Sink>(
    output: &mut O,
    before: &str,
    play: &Play<'_>,
    firsts: &Firsts,
    item: ItemId,
) -> Result<(), Fault>
    requires firsts { AreFirsts play.now.history.layout (past_in play.now.history) firsts.now }
    requires item { item.0 < play.now.history.layout.items }
{
    let Some(party) = Party::unstarted(play, item) else {
        return Ok(());
    };
    let obstacle = obstacle_of(play.state(), play.shape(), firsts, item);
    let holder = match obstacle {
        Some(Obstacle::Held(worker)) => worker_name(play, worker),
        _ => None,
    };
    let why = ObstacleWords { obstacle, holder };
    write_words(output, format_args!("{before}{party}{why}\n"))
}

fn write_party<O: Sink>(
    output: &mut O,
    before: &str,
    party: Option<Party<'_>>,
) -> Result<(), Fault> {
    match party {
        Some(party) => write_words(output, format_args!("{before}{party}\n")),
        None => Ok(()),
    }
}
