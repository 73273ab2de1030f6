//! The schedules of many seeds.

ghost use Rattle.std.specs.Prelude.{◌≡◌, ◌≤◌, ◌<◌, ◌+◌, ◌-◌, ◌^◌, if◌then◌else◌, Some, None, IfOk};
ghost use Rattle.cmwq_explore.specs.Seeds.{TellsSeeds, goes_on, has_ended, is_stuck, ones, shorter_of};
ghost use Rattle.cmwq_play.specs.Starts.{start_of};
ghost use Rattle.cmwq_explore.specs.declared.chance.Chooser.TheVariants as choosers;

use crate::chance::{Chooser, play_by};
use crate::progress::{Progress, Watch};
use cmwq_play::{Play, Setup, Standing};
use std::alloc::{AllocError, Global};

/// Which schedules are played: those of the seeds from one up to another, without that one, each of so many moves at
/// most.
#[derive(Clone, Copy, Debug)]
pub struct Seeds {
    pub first: u64,
    pub end: u64,
    pub chooser: Chooser,
    pub moves: u64,
}

/// A seed, and how many moves its schedule has.
#[derive(Clone, Copy, Debug)]
pub struct StuckSeed {
    pub seed: u64,
    pub moves: u64,
}

/// How the schedules of seeds ended.
#[derive(Clone, Copy, Debug)]
pub struct Tally {
    pub ended: u64,
    pub stuck: u64,
    /// How many were cut off by the limit of moves.
    pub cut: u64,
    /// How many moves were made.
    pub moves: u64,
    /// In how many of those that ended or got stuck calls were left out for want of room.
    pub short_of_room: u64,
    /// In how many of them waits of runs were refused.
    pub with_refusals: u64,
    /// In how many of them a lock was let go by one who did not hold it.
    pub with_misuse: u64,
    /// A shortest that got stuck, of those the one of the least seed.
    pub shortest: Option<StuckSeed>,
    /// The same of those that ended or got stuck in which a wait of a run was refused.
    pub refusing: Option<StuckSeed>,
    /// The same of those that were cut off.
    pub cutting: Option<StuckSeed>,
}

/// The shorter one, and the first if both are equally long.
fn shorter(one: Option<StuckSeed>, other: StuckSeed) -> Option<StuckSeed>
    ensures { result ≡ Some (shorter_of one other) }
{
    match one {
        Some(one) if one.moves <= other.moves => Some(one),
        _ => Some(other),
    }
}

fn more_if(count: u64, is_more: bool) -> u64 {
    if is_more {
        count.saturating_add(1)
    } else {
        count
    }
}

impl Tally {
    /// Of no seed.
    fn nothing() -> Tally
        ensures { (result.ended ≡ 0) × (result.stuck ≡ 0) × (result.cut ≡ 0) × (result.shortest ≡ None) }
    {
        Tally {
            ended: 0,
            stuck: 0,
            cut: 0,
            moves: 0,
            short_of_room: 0,
            with_refusals: 0,
            with_misuse: 0,
            shortest: None,
            refusing: None,
            cutting: None,
        }
    }

    /// Adds what was noted in a schedule, if it ended or got stuck.
    fn note(&mut self, play: &Play<'_>, standing: Standing, seed: StuckSeed)
        ensures { (self.new.ended ≡ self.old.ended) × (self.new.stuck ≡ self.old.stuck)
            × (self.new.cut ≡ self.old.cut) × (self.new.shortest ≡ self.old.shortest) }
    {
        if standing == Standing::Goes {
            return;
        }
        let noted = play.noted();
        let is_held = standing == Standing::Ended && play.holds_a_lock();
        let misused = noted.misused > 0 || is_held;
        self.short_of_room = more_if(self.short_of_room, noted.left_out > 0);
        self.with_refusals = more_if(self.with_refusals, noted.refused > 0);
        self.with_misuse = more_if(self.with_misuse, misused);
        if noted.refused > 0 {
            self.refusing = shorter(self.refusing, seed);
        }
    }

    /// One more, which ended so.
    fn count(&mut self, standing: Standing, seed: StuckSeed)
        requires { self.old.ended + self.old.stuck + self.old.cut < 2 ^ 64 - 1 }
        ensures ended { self.new.ended ≡ self.old.ended + ones (has_ended standing) }
        ensures stuck { self.new.stuck ≡ self.old.stuck + ones (is_stuck standing) }
        ensures cut { self.new.cut ≡ self.old.cut + ones (goes_on standing) }
        ensures shortest { self.new.shortest
            ≡ (if is_stuck standing then Some (shorter_of self.old.shortest seed) else self.old.shortest) }
    {
        match standing {
            Standing::Ended => self.ended += 1,
            Standing::Stuck => {
                self.stuck += 1;
                self.shortest = shorter(self.shortest, seed);
            }
            Standing::Goes => {
                self.cut += 1;
                self.cutting = shorter(self.cutting, seed);
            }
        }
    }
}

/// Plays the schedules of these seeds, and returns how they ended.
///
/// # Errors
/// Want of memory.
pub fn play_seeds<'a, W: Watch>(
    alloc: Global,
    setup: &'a Setup<'a>,
    play: &mut Play<'a>,
    seeds: Seeds,
    watch: &mut W,
) -> Result<Tally, AllocError>
    requires { seeds.first ≤ seeds.end }
    ensures { seeds.chooser ≡ choosers.Uniform → IfOk result
        (λ tally. TellsSeeds (start_of setup.now) seeds.moves seeds.first (seeds.end - seeds.first) tally) }
{
    let mut progress = Progress::nothing();
    let mut tally = Tally::nothing();
    let mut path = Vec::new(alloc);
    for seed in seeds.first..seeds.end {
        let moves = play_by(
            alloc,
            setup,
            play,
            seed,
            seeds.chooser,
            seeds.moves,
            &mut path,
        )?;
        let standing = play.standing();
        let played = StuckSeed { seed, moves };
        tally.count(standing, played);
        tally.note(play, standing, played);
        progress.count_end(standing);
        progress.shortest = tally.shortest;
        progress.count_moves(moves, watch);
    }
    tally.moves = progress.moves;
    Ok(tally)
}
