//! The subcommands in their order, and the arguments of each.

use crate::help::{EXPLAIN_HELP, FILE_HELP, FRONT_HELP, LEAVE_OUT_HELP, NAMES_HELP, Page};

/// What follows an argument's name on the command line.
#[derive(Clone, Copy)]
pub(crate) enum Kind {
    /// `--name` alone.
    Flag,
    /// `--name` and a number.
    Number,
    /// `--name` and the name of a file.
    File,
    /// `--name` and the numbers of items.
    Items,
    /// The name of a file by itself.
    Input,
}

/// An argument of a subcommand.
#[derive(Clone, Copy)]
pub(crate) struct Argument<'a> {
    pub(crate) name: &'a str,
    pub(crate) kind: Kind,
    pub(crate) help: &'a str,
}

/// A subcommand: its name, what the program's help tells of it, what its own help shows below its usage, and its
/// arguments.
#[derive(Clone, Copy)]
pub(crate) struct Subcommand<'a> {
    pub(crate) name: &'a str,
    pub(crate) about: &'a str,
    pub(crate) page: Page,
    pub(crate) arguments: &'a [Argument<'a>],
}

/// What it reads.
const INPUT: Argument<'static> = Argument {
    name: "FILE",
    kind: Kind::Input,
    help: FILE_HELP,
};

/// Of what it refuses.
const EXPLAIN: Argument<'static> = Argument {
    name: "explain",
    kind: Kind::Flag,
    help: EXPLAIN_HELP,
};

/// For a history whose writing was cut off.
const FRONT: Argument<'static> = Argument {
    name: "front",
    kind: Kind::Flag,
    help: FRONT_HELP,
};

/// For what shows a history.
const NAMES: Argument<'static> = Argument {
    name: "names",
    kind: Kind::File,
    help: NAMES_HELP,
};

/// The subcommands.
pub(crate) const SUBCOMMANDS: [Subcommand<'static>; 12] = [
    Subcommand {
        name: "step",
        about: "Reads call lines and writes the history of their answers",
        page: Page::Step,
        arguments: &[
            Argument {
                name: "live",
                kind: Kind::Flag,
                help: "Writes the entry of each call before it reads the next line, and ends at the first call \
                    without room",
            },
            INPUT,
            EXPLAIN,
        ],
    },
    Subcommand {
        name: "check",
        about: "Reads a history and writes whether it is legal, or its first wrong entry",
        page: Page::Check,
        arguments: &[FRONT, INPUT, EXPLAIN],
    },
    Subcommand {
        name: "upgrade",
        about: "Reads a history and writes it, if it is legal: one of format 1 in format 2, and others as they are",
        page: Page::Upgrade,
        arguments: &[INPUT, EXPLAIN],
    },
    Subcommand {
        name: "summary",
        about: "Reads a history and writes its figures, if it is legal",
        page: Page::Summary,
        arguments: &[NAMES, INPUT, EXPLAIN],
    },
    Subcommand {
        name: "open",
        about: "Reads a history and writes what is still going on at its end, if it is legal",
        page: Page::Open,
        arguments: &[FRONT, NAMES, INPUT, EXPLAIN],
    },
    Subcommand {
        name: "resume",
        about: "Reads a history and writes the calls by which a new one takes it over, if it is legal",
        page: Page::Resume,
        arguments: &[
            FRONT,
            Argument {
                name: "leave-out",
                kind: Kind::Items,
                help: LEAVE_OUT_HELP,
            },
            INPUT,
            EXPLAIN,
        ],
    },
    Subcommand {
        name: "chart",
        about: "Reads a history and writes its picture as SVG, if it is legal",
        page: Page::Chart,
        arguments: &[
            Argument {
                name: "from",
                kind: Kind::Number,
                help: "Shows the history from this entry on",
            },
            Argument {
                name: "to",
                kind: Kind::Number,
                help: "Shows it up to this entry, without that one",
            },
            Argument {
                name: "all",
                kind: Kind::Flag,
                help: "Shows them all, also where they are more than 20,000 entries",
            },
            NAMES,
            INPUT,
            EXPLAIN,
        ],
    },
    Subcommand {
        name: "trace",
        about: "Reads a history and writes its trace in JSON, if it is legal",
        page: Page::Trace,
        arguments: &[NAMES, INPUT, EXPLAIN],
    },
    Subcommand {
        name: "page",
        about: "Reads a history and writes it as an HTML page to zoom and search, if it is legal",
        page: Page::Page,
        arguments: &[
            Argument {
                name: "from",
                kind: Kind::Number,
                help: "Opens at this entry",
            },
            Argument {
                name: "to",
                kind: Kind::Number,
                help: "Opens with the entries up to this one, without it",
            },
            NAMES,
            INPUT,
            EXPLAIN,
        ],
    },
    Subcommand {
        name: "replay",
        about: "Reads a scenario in JSON and writes its table of times and events",
        page: Page::Replay,
        arguments: &[INPUT, EXPLAIN],
    },
    Subcommand {
        name: "run",
        about: "Reads a script in JSON, runs it on threads and writes the history of that run",
        page: Page::Run,
        arguments: &[INPUT, EXPLAIN],
    },
    Subcommand {
        name: "explore",
        about: "Reads a script in JSON and plays schedules of it in one thread",
        page: Page::Explore,
        arguments: &[
            Argument {
                name: "seed",
                kind: Kind::Number,
                help: "Plays the schedule of this seed, and writes its history",
            },
            Argument {
                name: "times",
                kind: Kind::Number,
                help: "Plays the schedules of so many seeds",
            },
            Argument {
                name: "from",
                kind: Kind::Number,
                help: "Begins with this seed, in place of 0",
            },
            Argument {
                name: "pct",
                kind: Kind::Number,
                help: "Lets the first in a random order move, in which so many less one go to the end at random \
                    moves; without it, each that may move is equally likely",
            },
            Argument {
                name: "all",
                kind: Kind::Flag,
                help: "Tries all schedules, and visits each state once",
            },
            Argument {
                name: "plain",
                kind: Kind::Flag,
                help: "Plays each schedule by itself, also where it comes to a state that was visited",
            },
            Argument {
                name: "first",
                kind: Kind::Flag,
                help: "Ends with the first schedule that gets stuck",
            },
            Argument {
                name: "histories",
                kind: Kind::Flag,
                help: "Writes the history of each schedule that ends, in place of how many there are",
            },
            Argument {
                name: "moves",
                kind: Kind::Number,
                help: "Makes at most so many moves: of all schedules, and in search of one, in place of 100,000,000; \
                    or of each one, in place of as many as its room allows",
            },
            Argument {
                name: "path",
                kind: Kind::File,
                help: "Plays the schedule with the moves in this file, as a report prints them",
            },
            Argument {
                name: "follow",
                kind: Kind::File,
                help: "Finds the schedule that left the history in this file, or the first entry that none leaves",
            },
            INPUT,
            EXPLAIN,
        ],
    },
];
