//! Schedules by chance: whose move comes next is a function of a seed.

ghost use Rattle.std.specs.Prelude.{◌≡◌, ◌<◌, [], length, max, IfOk};
ghost use Rattle.cmwq_explore.specs.Chances.{IsPlay, after_draw, chosen_by, drawn_below};
ghost use Rattle.cmwq_play.specs.Starts.{start_of};
ghost use Rattle.cmwq_explore.specs.declared.chance.Chooser.TheVariants as choosers;

use cmwq_play::{Play, Setup};
use rand_core::SeedableRng;
use rand_core::utils::NextWord;
use rand_xoshiro::SplitMix64;
use std::alloc::{AllocError, Global};

/// How the next to move is chosen.
#[derive(Clone, Copy, Debug, PartialEq, Eq)]
pub enum Chooser {
    /// Each of those who may move is as likely.
    Uniform,
    /// The first of those who may move, in a random order of all, in which so many less one among the first `moves`
    /// movers go to the end after their move: probabilistic concurrency testing (Burckhardt, Kothari, Musuvathi,
    /// Nagarakatte).
    Pct { depth: u64, moves: u64 },
}

/// A number below this one, which isn't 0.
#[tactic(auto, unfolding(crate::specs::Chances::drawn, crate::specs::Chances::after_draw))]
fn below(generator: &mut SplitMix64, limit: u64) -> u64
    ensures drawn { result ≡ drawn_below limit generator.old }
    ensures after { generator.new ≡ after_draw generator.old }
    ensures small { result < max limit 1 }
{
    generator.next_word() % limit.max(1)
}

/// Exchanges two of a list.
fn swap(list: &mut Vec<u64>, one: usize, other: usize) {
    if one < list.len() && other < list.len() {
        list.swap(one, other);
    }
}

/// The order of the parties, and at which moves it changes.
#[derive(Drop)]
struct Order {
    /// The greater goes first.
    priorities: Vec<u64>,
    changes: Vec<u64>,
}

impl Order {
    fn new(
        alloc: Global,
        parties: usize,
        generator: &mut SplitMix64,
        depth: u64,
        moves: u64,
    ) -> Result<Order, AllocError> {
        let mut priorities = Vec::new(alloc);
        for k in 0..parties {
            priorities.push(depth.saturating_add(k as u64))?;
        }
        for k in 1..parties {
            let other = below(generator, k as u64 + 1) as usize;
            swap(&mut priorities, k, other);
        }
        let mut changes = Vec::new(alloc);
        for _ in 1..depth {
            changes.push(below(generator, moves))?;
        }
        Ok(Order {
            priorities,
            changes,
        })
    }

    fn priority(&self, party: usize) -> u64 {
        match self.priorities.get(party) {
            Some(priority) => *priority,
            None => 0,
        }
    }

    /// The place of the first of these.
    fn first_of(&self, movers: &[usize]) -> usize
        requires { 0 < length movers.now }
        ensures { result < length movers.now }
    {
        let mut first = 0usize;
        for place in 1..movers.len() {
            if self.priority(movers[place]) > self.priority(movers[first]) {
                first = place;
            }
        }
        first
    }

    /// A party has made the move of this number.
    fn has_moved(&mut self, party: usize, number: u64) {
        for (k, change) in self.changes.iter().enumerate() {
            if *change == number {
                if let Some(priority) = self.priorities.get_mut(party) {
                    *priority = k as u64;
                }
            }
        }
    }
}

/// Plays from the start, by a seed, until nobody may move, or so many moves were made. The path takes those who moved,
/// in place of what it held. Returns how many moves were made.
///
/// # Errors
/// Want of memory.
pub fn play_by<'a>(
    alloc: Global,
    setup: &'a Setup<'a>,
    play: &mut Play<'a>,
    seed: u64,
    chooser: Chooser,
    moves: u64,
    path: &mut Vec<usize>,
) -> Result<u64, AllocError>
    ensures plays { IfOk result (λ made. IsPlay (start_of setup.now) moves made path.new.items play.new) }
    ensures chosen { chooser ≡ choosers.Uniform
        → IfOk result (λ _. path.new.items ≡ chosen_by moves seed (start_of setup.now)) }
{
    play.restart(setup)?;
    path.clear();
    let mut generator = SplitMix64::seed_from_u64(seed);
    match chooser {
        Chooser::Uniform => play_uniform(play, &mut generator, moves, path),
        Chooser::Pct {
            depth,
            moves: among,
        } => {
            let order = Order::new(alloc, play.parties(), &mut generator, depth, among)?;
            play_in_order(play, order, moves, path)
        }
    }
}

/// Each of those who may move is as likely.
fn play_uniform(
    play: &mut Play<'_>,
    generator: &mut SplitMix64,
    moves: u64,
    path: &mut Vec<usize>,
) -> Result<u64, AllocError>
    requires { path.old.items ≡ [] }
    ensures plays { IfOk result (λ made. IsPlay play.old moves made path.new.items play.new) }
    ensures chosen { IfOk result (λ _. path.new.items ≡ chosen_by moves generator.old play.old) }
{
    for number in 0..moves {
        let movers = play.movers()?;
        if movers.is_empty() {
            return Ok(number);
        }
        let party = movers[below(generator, movers.len() as u64) as usize];
        play.make_move(party)?;
        path.push(party)?;
    }
    Ok(moves)
}

/// The first in the order moves.
fn play_in_order(
    play: &mut Play<'_>,
    order: Order,
    moves: u64,
    path: &mut Vec<usize>,
) -> Result<u64, AllocError>
    requires { path.old.items ≡ [] }
    ensures plays { IfOk result (λ made. IsPlay play.old moves made path.new.items play.new) }
{
    let mut order = order;
    for number in 0..moves {
        let movers = play.movers()?;
        if movers.is_empty() {
            return Ok(number);
        }
        let party = movers[order.first_of(&movers)];
        play.make_move(party)?;
        path.push(party)?;
        order.has_moved(party, number);
    }
    Ok(moves)
}
