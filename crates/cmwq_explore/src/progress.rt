//! How far a search, or the schedules of seeds, came.

ghost use Rattle.cmwq_explore.specs.Cuts.{HasGoneOn};

use crate::seeds::StuckSeed;
use cmwq_play::{Play, Standing};

/// After how many moves the watch looks. It has a clock for how often it shows something.
const MOVES_A_LOOK: u64 = 1_024;

/// How far a search, or the schedules of seeds, came.
#[derive(Clone, Copy, Debug)]
pub struct Progress {
    /// How many states were searched.
    pub states: u64,
    /// How often a state came again that had been searched.
    pub again: u64,
    /// How many moves were made.
    pub moves: u64,
    /// How many times a schedule was played that ended, and how many times one that got stuck.
    pub ended: u64,
    pub stuck: u64,
    /// A shortest schedule of a seed that got stuck.
    pub shortest: Option<StuckSeed>,
    next_look: u64,
}

/// Watches a search, or the schedules of seeds.
pub trait Watch {
    /// The search or the schedules have come so far.
    fn looks(&mut self, progress: &Progress);

    /// A search goes on after a move of this party.
    fn goes_on(&mut self, party: usize);

    /// A search goes back to before the last move after which it went on.
    fn goes_back(&mut self);

    /// A play of a search may not go on.
    fn ends(&mut self, play: &Play<'_>, standing: Standing);
}

impl Progress {
    pub(crate) fn nothing() -> Progress {
        Progress {
            states: 0,
            again: 0,
            moves: 0,
            ended: 0,
            stuck: 0,
            shortest: None,
            next_look: MOVES_A_LOOK,
        }
    }

    /// So many moves more were made.
    pub(crate) fn count_moves<W: Watch>(&mut self, moves: u64, watch: &mut W)
        ensures { HasGoneOn self.old self.new }
    {
        self.moves = self.moves.saturating_add(moves);
        if self.moves >= self.next_look {
            self.next_look = self.moves.saturating_add(MOVES_A_LOOK);
            watch.looks(self);
        }
    }

    /// A schedule was played that stands so at its end.
    pub(crate) fn count_end(&mut self, standing: Standing)
        ensures { HasGoneOn self.old self.new }
    {
        match standing {
            Standing::Ended => self.ended = self.ended.saturating_add(1),
            Standing::Stuck => self.stuck = self.stuck.saturating_add(1),
            Standing::Goes => {}
        }
    }
}
