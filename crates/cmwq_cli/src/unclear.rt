//! Why a command line that clap takes asks for nothing.

use clap::error::ErrorKind;
use std::fmt::{self, Display, Formatter, Write};

/// What is wrong with the options of a subcommand.
#[derive(Clone, Copy)]
pub(crate) enum Unclear {
    /// None of `explore` says which schedules are meant.
    NoSchedules,
    /// The second of these is not for what the first asks for.
    Conflict(&'static str, &'static str),
    /// There are no priorities.
    NoPriority,
    /// The seeds from this one on are fewer than these.
    FewerSeeds { from: u64, times: u64 },
    /// The window ends before it begins.
    NoWindow { from: u64, to: u64 },
}

impl Unclear {
    /// Which of clap's errors it is.
    pub(crate) fn kind(self) -> ErrorKind {
        match self {
            Unclear::NoSchedules => ErrorKind::MissingRequiredArgument,
            Unclear::Conflict(..) => ErrorKind::ArgumentConflict,
            Unclear::NoPriority | Unclear::FewerSeeds { .. } | Unclear::NoWindow { .. } => {
                ErrorKind::ValueValidation
            }
        }
    }
}

impl Display for Unclear {
    fn fmt<W: Write>(&self, f: &mut Formatter<W>) -> fmt::Result {
        match *self {
            Unclear::NoSchedules => f.write_str(
                "cmwq explore takes one of --seed N, --times N, --all, --path FILE and --follow FILE: --times also \
                with --from N, --seed and --times with --pct D and --moves N, --all with --moves N and either \
                --histories or --plain and --first, --follow with --moves N",
            ),
            Unclear::Conflict(one, other) => {
                write!(f, "the argument '{other}' cannot be used with '{one}'")
            }
            Unclear::NoPriority => {
                f.write_str("invalid value '0' for '--pct <NUMBER>': it is 1 or more")
            }
            Unclear::FewerSeeds { from, times } => {
                let last = u64::MAX - 1;
                write!(
                    f,
                    "--times {times} --from {from}: the last seed that --times plays is {last}"
                )
            }
            Unclear::NoWindow { from, to } => {
                write!(
                    f,
                    "--from {from} --to {to}: the window ends before it begins"
                )
            }
        }
    }
}
