//! The options of `explore`, and what the matches of a word have under a name.
ghost use Rattle.std.specs.Prelude.{◌≡◌, is_some};
ghost use Rattle.clap.specs.Words.{first_of, found_of, rows_of};
ghost use Rattle.cmwq_cli.specs.Explore.{count, has_searching, has_seeding, is_of_one_kind, of_all, of_path, of_seeds};
ghost use Rattle.cmwq_cli.specs.Explore.{has_flag, has_no_priority, has_seeds, number_found, of_history, of_times};
ghost use Rattle.cmwq_cli.specs.Explore.{options_found, schedules_of};

use crate::unclear::Unclear;
use crate::word::Schedules;
use clap::ArgMatches;

/// The options of `explore`.
#[derive(Clone, Copy)]
pub(crate) struct Options {
    seed: Option<u64>,
    times: Option<u64>,
    pct: Option<u64>,
    moves: Option<u64>,
    from: Option<u64>,
    all: bool,
    histories: bool,
    plain: bool,
    first: bool,
    path: bool,
    follow: bool,
}

/// Whether the matches of a word have the flag of this name.
pub(crate) fn has_flag(matches: &ArgMatches, name: &str) -> bool
    ensures { result ≡ has_flag name.now (rows_of (found_of matches.now)) }
{
    matches.get_one::<bool>(name).unwrap_or(false)
}

/// The number that the matches of a word have under this name.
pub(crate) fn number_found(matches: &ArgMatches, name: &str) -> Option<u64>
    ensures { result ≡ number_found name.now (rows_of (found_of matches.now)) }
{
    matches.get_one::<u64>(name)
}

/// Whether the matches of a word have a text under this name.
fn has_text(matches: &ArgMatches, name: &str) -> bool
    ensures { result ≡ is_some (first_of name.now (rows_of (found_of matches.now))) }
{
    matches.get_str(name).is_some()
}

/// The options of `explore` that the matches hold.
pub(crate) fn options_found(matches: &ArgMatches) -> Options
    ensures { result ≡ options_found (rows_of (found_of matches.now)) }
{
    Options {
        seed: number_found(matches, "seed"),
        times: number_found(matches, "times"),
        pct: number_found(matches, "pct"),
        moves: number_found(matches, "moves"),
        from: number_found(matches, "from"),
        all: has_flag(matches, "all"),
        histories: has_flag(matches, "histories"),
        plain: has_flag(matches, "plain"),
        first: has_flag(matches, "first"),
        path: has_text(matches, "path"),
        follow: has_text(matches, "follow"),
    }
}

/// The first of these options that is given.
fn given(options: &[(&'static str, bool)]) -> Option<&'static str> {
    for (name, is_given) in options {
        if *is_given {
            return Some(*name);
        }
    }
    None
}

/// How many of these are so.
fn count(one: bool, two: bool, three: bool) -> u8
    ensures { result ≡ count one two three }
{
    u8::from(one) + u8::from(two) + u8::from(three)
}

/// Whether there are so many seeds from one on: the one behind them has a number too.
fn has_seeds(from: u64, times: u64) -> bool
    ensures { result ≡ has_seeds from times }
{
    times <= u64::MAX - from
}

impl Options {
    /// Whether they say of one kind which schedules are meant.
    fn is_of_one_kind(self) -> bool
        ensures { result ≡ is_of_one_kind self }
    {
        let played = count(self.seed.is_some(), self.times.is_some(), self.all);
        played + count(self.path, self.follow, false) == 1
    }

    /// Whether one is given that is of seeds alone.
    fn has_seeding(self) -> bool
        ensures { result ≡ has_seeding self }
    {
        self.pct.is_some() || self.from.is_some()
    }

    /// Whether one is given that is of all schedules alone.
    fn has_searching(self) -> bool
        ensures { result ≡ has_searching self }
    {
        self.histories || self.plain || self.first
    }

    /// The schedules of seeds, if nothing is given that is not of them.
    fn of_seeds(self) -> Option<Schedules>
        ensures { result ≡ of_seeds self }
    {
        let (pct, moves) = (self.pct, self.moves);
        match (self.seed, self.times) {
            (Some(_), _) if self.from.is_some() => None,
            (Some(seed), _) => Some(Schedules::OfSeed { seed, pct, moves }),
            (None, Some(times)) => self.of_times(times),
            (None, None) => None,
        }
    }

    /// The schedules of so many seeds, if there are as many.
    fn of_times(self, times: u64) -> Option<Schedules>
        ensures { result ≡ of_times self times }
    {
        let (from, pct, moves) = (self.from.unwrap_or(0), self.pct, self.moves);
        if has_seeds(from, times) {
            Some(Schedules::OfSeeds {
                from,
                times,
                pct,
                moves,
            })
        } else {
            None
        }
    }

    /// Whether there are no priorities by which the next to move is chosen.
    fn has_no_priority(self) -> bool
        ensures { result ≡ has_no_priority self }
    {
        self.pct == Some(0)
    }

    /// All schedules, or the history of each.
    fn of_all(self) -> Option<Schedules>
        ensures { result ≡ of_all self }
    {
        let (moves, plain, first) = (self.moves, self.plain, self.first);
        match (self.histories, plain || first) {
            (false, _) => Some(Schedules::All {
                moves,
                plain,
                first,
            }),
            (true, false) => Some(Schedules::Histories { moves }),
            (true, true) => None,
        }
    }

    /// The schedules that are meant, if they are of one kind.
    pub(crate) fn schedules(self) -> Option<Schedules>
        ensures { result ≡ schedules_of self }
    {
        if !self.is_of_one_kind() {
            return None;
        }
        let (has_seeding, has_searching) = (self.has_seeding(), self.has_searching());
        if self.path {
            self.of_path()
        } else if self.follow {
            self.of_history()
        } else if self.all {
            if has_seeding { None } else { self.of_all() }
        } else if has_searching || self.has_no_priority() {
            None
        } else {
            self.of_seeds()
        }
    }

    /// What is wrong with options that ask for no schedules.
    pub(crate) fn unclear(self) -> Unclear {
        match (self.asking(), self.asking_too()) {
            (None, _) => Unclear::NoSchedules,
            (Some(one), Some(other)) => Unclear::Conflict(one, other),
            (Some(one), None) => self.unclear_beside(one),
        }
    }

    /// What is wrong beside the one option that says which schedules are meant.
    fn unclear_beside(self, one: &'static str) -> Unclear {
        match self.foreign() {
            Some(other) => Unclear::Conflict(one, other),
            None if self.histories && self.plain => Unclear::Conflict("--histories", "--plain"),
            None if self.histories && self.first => Unclear::Conflict("--histories", "--first"),
            None if self.has_no_priority() => Unclear::NoPriority,
            None => Unclear::FewerSeeds {
                from: self.from.unwrap_or(0),
                times: self.times.unwrap_or(0),
            },
        }
    }

    /// The options that say which schedules are meant, and whether each is given.
    fn kinds(self) -> [(&'static str, bool); 5] {
        [
            ("--seed", self.seed.is_some()),
            ("--times", self.times.is_some()),
            ("--all", self.all),
            ("--path", self.path),
            ("--follow", self.follow),
        ]
    }

    /// The first option that says which schedules are meant.
    fn asking(self) -> Option<&'static str> {
        given(&self.kinds())
    }

    /// The last one, if it is another.
    fn asking_too(self) -> Option<&'static str> {
        let mut kinds = self.kinds();
        kinds.reverse();
        match given(&kinds) {
            last if last == self.asking() => None,
            last => last,
        }
    }

    /// The first option that is not for the schedules that are meant.
    fn foreign(self) -> Option<&'static str> {
        let is_of_seeds = self.seed.is_some() || self.times.is_some();
        given(&[
            ("--from", self.from.is_some() && self.times.is_none()),
            ("--pct", self.pct.is_some() && !is_of_seeds),
            ("--plain", self.plain && !self.all),
            ("--first", self.first && !self.all),
            ("--histories", self.histories && !self.all),
            ("--moves", self.moves.is_some() && self.path),
        ])
    }

    /// The schedule that a file says, if no other option is given.
    fn of_path(self) -> Option<Schedules>
        ensures { result ≡ of_path self }
    {
        if self.has_seeding() || self.has_searching() || self.moves.is_some() {
            None
        } else {
            Some(Schedules::Path)
        }
    }

    /// The schedule that left a history, if no other option is given than how many tries there are.
    fn of_history(self) -> Option<Schedules>
        ensures { result ≡ of_history self }
    {
        if self.has_seeding() || self.has_searching() {
            None
        } else {
            Some(Schedules::Follow { moves: self.moves })
        }
    }
}
