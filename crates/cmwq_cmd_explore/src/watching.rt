//! What is written while schedules are played: how far it is, which of them is stuck, and histories.

use arrayvec::ArrayString;
use cmwq_explore::{Progress, StuckSeed, Watch};
use cmwq_history::write_history;
use cmwq_io::{Sink, flush_all, write_all};
use cmwq_play::{Play, Standing};
use std::alloc::Global;
use std::fmt;
use std::fmt::{Display, Formatter, Write};
use std::time::{Clock, Duration};

/// After how many milliseconds it is shown again how far it is.
const INTERVAL: u64 = 500;

/// Takes away the line that shows how far it is.
const CLEARED: &str = "\r\u{1b}[K";

/// Shows how far it is, by a clock. A schedule that is stuck is told of before the end, since a search may be broken
/// off: of several that were found since the last time, the shortest one.
#[derive(Drop)]
struct Showing<'a, C> {
    clock: &'a C,
    /// When it was shown last, by this clock.
    last: Duration,
    /// Those who moved to where the search is, as long as there was memory for them.
    path: Vec<usize>,
    /// How many moves lead there.
    depth: usize,
    /// How many moves the shortest schedule has that is stuck.
    fewest: usize,
    /// What is to be told of that one, or nothing.
    found: String,
}

/// Where to all that goes.
#[derive(Drop)]
pub(crate) struct Watching<'a, O, E, C> {
    output: &'a mut O,
    errors: &'a mut E,
    showing: Option<Showing<'a, C>>,
    writes_histories: bool,
    has_failed: bool,
}

/// Room for what is shown of how far it is.
type Shown = ArrayString<192>;

/// The seed of a shortest schedule that is stuck, if it is of a seed.
#[derive(Clone, Copy)]
struct SeedWords(Option<StuckSeed>);

impl Display for SeedWords {
    fn fmt<W: Write>(&self, f: &mut Formatter<W>) -> fmt::Result {
        match self.0 {
            Some(StuckSeed { seed, moves }) => write!(
                f,
                ", the shortest: seed {seed}, {moves} moves"
            ),
            None => Ok(()),
        }
    }
}

fn spell(progress: &Progress) -> Result<Shown, fmt::Error> {
    let mut shown = Shown::new();
    let (moves, ended, stuck) = (progress.moves, progress.ended, progress.stuck);
    let seed = SeedWords(progress.shortest);
    write!(
        shown,
        "{CLEARED}cmwq: {moves} moves, {ended} ended, {stuck} stuck{seed}"
    )?;
    Ok(shown)
}

/// What is told of a schedule that is stuck: who made each move.
fn write_stuck(text: &mut String, play: &Play<'_>, path: &[usize]) -> fmt::Result {
    write!(text, "{CLEARED}cmwq: stuck after {} moves:", path.len())?;
    for party in path {
        write!(text, " {}", play.name_of(*party))?;
    }
    text.write_str("\n")
}

impl<'a, C: Clock> Showing<'a, C> {
    fn new(alloc: Global, clock: &'a C) -> Showing<'a, C> {
        Showing {
            clock,
            last: clock.monotonic().unwrap_or(Duration::ZERO),
            path: Vec::new(alloc),
            depth: 0,
            fewest: usize::MAX,
            found: String::new(alloc),
        }
    }

    /// Whether it is time to show something.
    fn is_due(&mut self) -> bool {
        let Ok(now) = self.clock.monotonic() else {
            return false;
        };
        if now.saturating_sub(self.last) < Duration::from_millis(INTERVAL) {
            return false;
        }
        self.last = now;
        true
    }

    fn goes_on(&mut self, party: usize) {
        if self.path.len() == self.depth {
            let _ = self.path.push(party);
        }
        self.depth = self.depth.saturating_add(1);
    }

    fn goes_back(&mut self) {
        self.depth = self.depth.saturating_sub(1);
        self.path.truncate(self.depth);
    }

    /// Has something to tell if this play is stuck after fewer moves than each before it.
    fn is_stuck(&mut self, play: &Play<'_>) {
        if self.path.len() != self.depth || self.depth >= self.fewest {
            return;
        }
        self.fewest = self.depth;
        self.found.clear();
        if write_stuck(&mut self.found, play, self.path.as_slice()).is_err() {
            self.found.clear();
        }
    }
}

fn show<E: Sink>(errors: &mut E, text: &str) {
    let _ = write_all(errors, text.as_bytes());
    let _ = flush_all(errors);
}

impl<'a, O: Sink, E: Sink, C: Clock> Watching<'a, O, E, C> {
    /// Shows how far it is by this clock, if there is one.
    pub(crate) fn new(
        alloc: Global,
        output: &'a mut O,
        errors: &'a mut E,
        clock: Option<&'a C>,
        writes_histories: bool,
    ) -> Watching<'a, O, E, C> {
        Watching {
            output,
            errors,
            showing: match clock {
                Some(clock) => Some(Showing::new(alloc, clock)),
                None => None,
            },
            writes_histories,
            has_failed: false,
        }
    }

    pub(crate) fn output(&mut self) -> &mut O {
        self.output
    }

    /// Whether a history wasn't written.
    pub(crate) fn has_failed(&self) -> bool {
        self.has_failed
    }

    /// Takes away what was shown.
    pub(crate) fn end_progress(&mut self) {
        if self.showing.is_some() {
            show(self.errors, CLEARED);
        }
    }

    fn write_ended(&mut self, play: &Play<'_>) {
        let script = play.script();
        let version = script.version.max(2);
        if write_history(self.output, version, &script.shape, play.history()).is_err() {
            self.has_failed = true;
        }
    }
}

impl<'a, O: Sink, E: Sink, C: Clock> Watch for Watching<'a, O, E, C> {
    fn looks(&mut self, progress: &Progress) {
        let Some(showing) = &mut self.showing else {
            return;
        };
        if !showing.is_due() {
            return;
        }
        show(self.errors, showing.found.as_str());
        showing.found.clear();
        if let Ok(shown) = spell(progress) {
            show(self.errors, shown.as_str());
        }
    }

    fn goes_on(&mut self, party: usize) {
        if let Some(showing) = &mut self.showing {
            showing.goes_on(party);
        }
    }

    fn goes_back(&mut self) {
        if let Some(showing) = &mut self.showing {
            showing.goes_back();
        }
    }

    fn ends(&mut self, play: &Play<'_>, standing: Standing) {
        match (standing, &mut self.showing) {
            (Standing::Stuck, Some(showing)) => showing.is_stuck(play),
            (Standing::Ended, _) if self.writes_histories && !self.has_failed => {
                self.write_ended(play);
            }
            _ => {}
        }
    }
}
