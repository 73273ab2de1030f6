//! The search for the schedule that left a history.

ghost use Rattle.std.specs.Prelude.{◌≡◌, ◌<◌, ◌≤◌, ◌++◌, ◌∷◌, ℕ, [], List, length, take, IfOk};
ghost use mathlib.Core.List.{IsPrefix};
ghost use Rattle.cmwq_model.specs.declared.entry.Entry.{Entry};
ghost use Rattle.cmwq_play.specs.Searches.{after};
ghost use Rattle.cmwq_play.specs.Stands.{Stand};
ghost use Rattle.cmwq_play.specs.Starts.{start_of};
ghost use Rattle.cmwq_follow.specs.Followed.{IfBreaks, IfPath, LeaveAtMost, Leaves};
ghost use Rattle.cmwq_follow.specs.Ways.{IsDeadEnd, IsKept, IsTrying, IsUnderWay};
ghost use Rattle.cmwq_follow.specs.declared.search.Step.TheVariants as steps;
ghost use Rattle.cmwq_follow.specs.declared.search.Tried.TheVariants as tried;

use crate::same::is_same_entry;
use cmwq_model::{CallerId, Entry, Who};
use cmwq_play::{Doing, Play, Setup};
use std::alloc::{AllocError, Global};
use std::mem;

/// Whether a schedule left a history.
#[derive(Drop)]
pub enum Followed {
    /// The schedule with these moves left it.
    Path(Vec<usize>),
    /// No schedule leaves more of its first entries than so many.
    Breaks(usize),
    /// So many moves were tried, and there may be others.
    Unknown,
}

/// What came of a try.
#[derive(Clone, Copy, PartialEq, Eq)]
enum Step {
    /// The search goes on.
    Goes,
    /// The whole history was left.
    Whole,
    /// There is nothing more to try.
    Exhausted,
}

/// Who was tried in a stand.
#[derive(Clone, Copy)]
enum Tried {
    Nobody,
    /// The likely one, and of the others each before the next.
    Others { likely: usize, next: usize },
}

/// The way of a search, which leads from the start to where it stands.
#[derive(Drop)]
struct Way {
    /// Those who moved.
    path: Vec<usize>,
    /// Who was tried in each stand of the way.
    tries: Vec<Tried>,
    /// The most entries that were left of the history.
    most: usize,
}

/// The play in which moves are tried, from where the way stands.
#[derive(Drop)]
struct Trial<'a> {
    play: Play<'a>,
    /// So many entries of it are the first of the history.
    kept: usize,
}

/// The worker whose run waits by this caller, as a party.
fn lender(play: &Play<'_>, caller: CallerId) -> usize {
    let callers = play.callers().len();
    for (k, at) in play.workers().iter().enumerate() {
        if let Some(run) = at.run {
            if matches!(run.doing, Doing::Waits { caller: lent, .. } if lent == caller.0) {
                return callers.saturating_add(k);
            }
        }
    }
    0
}

/// The party that is likely to make this entry.
fn likely(play: &Play<'_>, entry: &Entry) -> usize {
    let callers = play.callers().len();
    match entry.who {
        Who::Caller(caller) if usize::from(caller.0) < callers => usize::from(caller.0),
        Who::Caller(caller) => lender(play, caller),
        Who::Worker(id) => {
            for (k, at) in play.workers().iter().enumerate() {
                if at.id == id {
                    return callers.saturating_add(k);
                }
            }
            0
        }
    }
}

/// How many first entries are those of the history, where a move added some to a beginning of it.
fn agreeing(play: &Play<'_>, next: &Play<'_>, history: &[Entry]) -> usize
    ensures within { IsPrefix play.now.history.entries next.now.history.entries
        → result ≤ length next.now.history.entries }
    ensures same { IsPrefix play.now.history.entries history.now
        → IsPrefix play.now.history.entries next.now.history.entries
        → IsPrefix (take result next.now.history.entries) history.now }
    ensures most { (n : ℕ) → n ≤ length next.now.history.entries
        → IsPrefix (take n next.now.history.entries) history.now → n ≤ result }
{
    let made = next.history();
    for k in play.history().len()..made.len() {
        if k >= history.len() {
            return k;
        }
        if !is_same_entry(&made[k], &history[k]) {
            return k;
        }
    }
    made.len()
}

impl Way {
    /// Before the first move.
    fn new(alloc: Global) -> Result<Way, AllocError>
        ensures { (start : Stand) (history : List Entry) → start.history.entries ≡ [] → 0 < length history
            → IfOk result (λ way. IsUnderWay start history way start) }
    {
        let mut tries = Vec::new(alloc);
        tries.push(Tried::Nobody)?;
        Ok(Way {
            path: Vec::new(alloc),
            tries,
            most: 0,
        })
    }

    /// What was found, where this came of the last try.
    fn found(self, step: Step) -> Followed
        ensures path { IfPath result (λ path. (step ≡ steps.Whole) × (path ≡ self.path.items)) }
        ensures breaks { IfBreaks result (λ most. (step ≡ steps.Exhausted) × (most ≡ self.most)) }
    {
        match step {
            Step::Whole => Followed::Path(self.path),
            Step::Exhausted => Followed::Breaks(self.most),
            Step::Goes => Followed::Unknown,
        }
    }
}

/// Plays these moves of a setup.
fn play_again<'a>(
    setup: &'a Setup<'a>,
    play: &mut Play<'a>,
    path: &[usize],
) -> Result<(), AllocError>
    ensures { IfOk result (λ _. play.new ≡ after (start_of setup.now) path.now) }
{
    play.restart(setup)?;
    for party in path {
        play.make_move(*party)?;
    }
    Ok(())
}

/// Goes back to the stand before the last move.
fn go_back<'a>(setup: &'a Setup<'a>, play: &mut Play<'a>, way: &mut Way) -> Result<Step, AllocError>
    ensures goes { (history : List Entry) → IsDeadEnd (start_of setup.now) history way.old play.old
        → IfOk result (λ step. step ≡ steps.Goes → IsUnderWay (start_of setup.now) history way.new play.new) }
    ensures whole { IfOk result (λ step. step ≡ steps.Whole → ⊥) }
    ensures exhausted { (history : List Entry) → IsDeadEnd (start_of setup.now) history way.old play.old → IfOk result
        (λ step. step ≡ steps.Exhausted → LeaveAtMost (start_of setup.now) history way.new.most) }
{
    if way.path.pop().is_none() {
        return Ok(Step::Exhausted);
    }
    play_again(setup, play, &way.path)?;
    Ok(Step::Goes)
}

/// Notes a move.
fn note(way: &mut Way, party: usize) -> Result<(), AllocError>
    ensures path { IfOk result (λ _. way.new.path.items ≡ way.old.path.items ++ party ∷ []) }
    ensures tries { IfOk result (λ _. way.new.tries.items ≡ way.old.tries.items ++ tried.Nobody ∷ []) }
    ensures most { IfOk result (λ _. way.new.most ≡ way.old.most) }
{
    way.path.push(party)?;
    way.tries.push(Tried::Nobody)?;
    Ok(())
}

/// Tries the move of this party.
fn try_move<'a>(
    play: &mut Play<'a>,
    trial: &mut Trial<'a>,
    way: &mut Way,
    party: usize,
    history: &[Entry],
) -> Result<Step, AllocError>
    requires left { IsPrefix play.old.history.entries history.now }
    requires kept { IsKept history.now trial.old }
    ensures kept { IfOk result (λ _. IsKept history.now trial.new) }
    ensures goes { (start : Stand) → IsTrying start history.now way.old play.old party
        → IfOk result (λ step. step ≡ steps.Goes → IsUnderWay start history.now way.new play.new) }
    ensures whole { (start : Stand) → IsTrying start history.now way.old play.old party
        → IfOk result (λ step. step ≡ steps.Whole → Leaves start history.now way.new.path.items) }
    ensures exhausted { IfOk result (λ step. step ≡ steps.Exhausted → ⊥) }
{
    if !play.may_move(party) {
        return Ok(Step::Goes);
    }
    trial
        .play
        .copy_after(play, trial.kept.min(play.history().len()))?;
    trial.kept = play.history().len();
    trial.play.make_move(party)?;
    let same = agreeing(play, &trial.play, history);
    way.most = way.most.max(same);
    let made = trial.play.history().len();
    if same < made {
        return Ok(Step::Goes);
    }
    mem::swap(play, &mut trial.play);
    note(way, party)?;
    Ok(if same == history.len() {
        Step::Whole
    } else {
        Step::Goes
    })
}

/// The party that is likely to make the next entry.
fn likely_next(play: &Play<'_>, history: &[Entry]) -> usize {
    match history.get(play.history().len()) {
        Some(entry) => likely(play, entry),
        None => 0,
    }
}

/// Makes the next try.
fn advance<'a>(
    setup: &'a Setup<'a>,
    play: &mut Play<'a>,
    trial: &mut Trial<'a>,
    way: &mut Way,
    history: &[Entry],
) -> Result<Step, AllocError>
    requires way { IsUnderWay (start_of setup.now) history.now way.old play.old }
    requires kept { IsKept history.now trial.old }
    ensures kept { IfOk result (λ _. IsKept history.now trial.new) }
    ensures goes { IfOk result
        (λ step. step ≡ steps.Goes → IsUnderWay (start_of setup.now) history.now way.new play.new) }
    ensures whole { IfOk result
        (λ step. step ≡ steps.Whole → Leaves (start_of setup.now) history.now way.new.path.items) }
    ensures exhausted { IfOk result
        (λ step. step ≡ steps.Exhausted → LeaveAtMost (start_of setup.now) history.now way.new.most) }
{
    let Some(tried) = way.tries.pop() else {
        return Ok(Step::Exhausted);
    };
    match tried {
        Tried::Nobody => {
            let likely = likely_next(play, history);
            way.tries.push(Tried::Others { likely, next: 0 })?;
            try_move(play, trial, way, likely, history)
        }
        Tried::Others { likely, next } if next < play.parties() => {
            let later = next + 1;
            way.tries.push(Tried::Others {
                likely,
                next: later,
            })?;
            if next == likely {
                Ok(Step::Goes)
            } else {
                try_move(play, trial, way, next, history)
            }
        }
        Tried::Others { .. } => go_back(setup, play, way),
    }
}

/// Makes so many tries at most. Returns what came of the last one.
fn go<'a>(
    setup: &'a Setup<'a>,
    play: &mut Play<'a>,
    trial: &mut Trial<'a>,
    way: &mut Way,
    history: &[Entry],
    moves: u64,
) -> Result<Step, AllocError>
    requires way { IsUnderWay (start_of setup.now) history.now way.old play.old }
    requires kept { IsKept history.now trial.old }
    ensures whole { IfOk result
        (λ step. step ≡ steps.Whole → Leaves (start_of setup.now) history.now way.new.path.items) }
    ensures exhausted { IfOk result
        (λ step. step ≡ steps.Exhausted → LeaveAtMost (start_of setup.now) history.now way.new.most) }
{
    for _ in 0..moves {
        let step = advance(setup, play, trial, way, history)?;
        if step != Step::Goes {
            return Ok(step);
        }
    }
    Ok(Step::Goes)
}

/// The same, with a play for the way.
fn go_with<'a>(
    alloc: Global,
    setup: &'a Setup<'a>,
    trial: &mut Trial<'a>,
    way: &mut Way,
    history: &[Entry],
    moves: u64,
) -> Result<Step, AllocError>
    requires way { IsUnderWay (start_of setup.now) history.now way.old (start_of setup.now) }
    requires kept { IsKept history.now trial.old }
    ensures whole { IfOk result
        (λ step. step ≡ steps.Whole → Leaves (start_of setup.now) history.now way.new.path.items) }
    ensures exhausted { IfOk result
        (λ step. step ≡ steps.Exhausted → LeaveAtMost (start_of setup.now) history.now way.new.most) }
{
    let mut play = Play::new(alloc, setup)?;
    let step = go(setup, &mut play, trial, way, history, moves);
    drop(play);
    step
}

/// The same, with a play for the tries too.
fn go_from_start<'a>(
    alloc: Global,
    setup: &'a Setup<'a>,
    way: &mut Way,
    history: &[Entry],
    moves: u64,
) -> Result<Step, AllocError>
    requires { IsUnderWay (start_of setup.now) history.now way.old (start_of setup.now) }
    ensures whole { IfOk result
        (λ step. step ≡ steps.Whole → Leaves (start_of setup.now) history.now way.new.path.items) }
    ensures exhausted { IfOk result
        (λ step. step ≡ steps.Exhausted → LeaveAtMost (start_of setup.now) history.now way.new.most) }
{
    let mut trial = Trial {
        play: Play::new(alloc, setup)?,
        kept: 0,
    };
    let step = go_with(alloc, setup, &mut trial, way, history, moves);
    drop(trial);
    step
}

/// Finds the schedule of a script that left this history, by so many tries of a move at most.
///
/// # Errors
/// Want of memory.
pub fn follow<'a>(
    alloc: Global,
    setup: &'a Setup<'a>,
    history: &[Entry],
    moves: u64,
) -> Result<Followed, AllocError>
    ensures path { IfOk result
        (λ followed. IfPath followed (λ path. Leaves (start_of setup.now) history.now path)) }
    ensures breaks { IfOk result
        (λ followed. IfBreaks followed (λ most. LeaveAtMost (start_of setup.now) history.now most)) }
{
    if history.is_empty() {
        return Ok(Followed::Path(Vec::new(alloc)));
    }
    let mut way = Way::new(alloc)?;
    let step = go_from_start(alloc, setup, &mut way, history, moves)?;
    Ok(way.found(step))
}
