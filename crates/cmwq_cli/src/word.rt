//! Which word a command line asks for.
ghost use Rattle.std.specs.Prelude.{◌≡◌, true, IfOk, IfErr, IsSome, Some, option_and_then, option_map};
ghost use Rattle.clap.specs.Words.{found_of, kind_of, rows_of, subcommand_rows_of};
ghost use Rattle.cmwq_cli.specs.Word.{asked_found, chart_found, is_window, page_found, request, texts, word_found};
ghost use Rattle.cmwq_cli.specs.Word.{is_word_taken, window_found, word_matched};
ghost use Rattle.cmwq_cli.specs.Explore.{followed_found, other_found};

use crate::command::command;
use crate::options::{has_flag, number_found, options_found};
use crate::unclear::Unclear;
use clap::error::ErrorKind;
use clap::{ArgMatches, Error};
use std::alloc::Global;

/// What the program is asked to do.
#[derive(Clone, Copy, Debug, PartialEq, Eq)]
pub enum Word {
    /// Answers call lines with their history.
    Step {
        /// Whether each call is answered before the next line is read.
        live: bool,
    },
    /// Judges a history, or the front of one whose writing was cut off.
    Check {
        /// Whether it is judged by the whole lines that are there.
        front: bool,
    },
    /// Writes a legal history in the newest format.
    Upgrade,
    /// Writes the figures of a legal history.
    Summary,
    /// Writes what is still going on at the end of a legal history, or of the front of one.
    Open {
        /// Whether it is told of the whole lines that are there.
        front: bool,
    },
    /// Writes the calls by which a new history takes over what a legal one left, or the front of one.
    Resume {
        /// Whether it takes over the whole lines that are there.
        front: bool,
    },
    /// Writes the picture of a legal history.
    Chart {
        /// From which entry on, if not from the first.
        from: Option<u64>,
        /// Up to which entry, without that one, if not to the end.
        to: Option<u64>,
        /// Whether it shows more entries than a picture shows well.
        all: bool,
    },
    /// Writes the trace of a legal history.
    Trace,
    /// Writes the page of a legal history.
    Page {
        /// At which entry it opens, if not at the first.
        from: Option<u64>,
        /// Up to which entry, without that one, if not to the end.
        to: Option<u64>,
    },
    /// Writes the table of a scenario.
    Replay,
    /// Runs a script on threads and writes its history.
    Run,
    /// Plays schedules of a script in one thread.
    Explore {
        /// Which ones.
        schedules: Schedules,
    },
}

/// Which schedules of a script are played.
#[derive(Clone, Copy, Debug, PartialEq, Eq)]
pub enum Schedules {
    /// The one of a seed, chosen by so many priority changes less one, or else uniformly, and of so many moves at most.
    OfSeed {
        seed: u64,
        pct: Option<u64>,
        moves: Option<u64>,
    },
    /// Those of so many seeds from one on.
    OfSeeds {
        from: u64,
        times: u64,
        pct: Option<u64>,
        moves: Option<u64>,
    },
    /// All, up to so many moves: each state once or each schedule by itself, and to the end or to the first that is
    /// stuck.
    All {
        moves: Option<u64>,
        plain: bool,
        first: bool,
    },
    /// The history of each that ends, up to so many moves.
    Histories {
        moves: Option<u64>,
    },
    /// The one whose moves a file says.
    Path,
    /// The one that left the history in a file, found by so many tries of a move.
    Follow {
        moves: Option<u64>,
    },
}

/// A subcommand, what it reads, and whether what it refuses is explained.
#[derive(Clone, Copy)]
pub struct Asked<'a> {
    pub word: Word,
    /// Whether a second line on standard error says where and why the input is refused.
    pub explain: bool,
    /// The name of the file to read, as it was given. None, or `-`: standard input.
    pub file: Option<&'a str>,
    /// The name of the file with the names, or with the moves or the history of `explore`.
    pub other: Option<&'a str>,
    /// The items whose runs `resume` leaves out, as they were given.
    pub leave_out: Option<&'a str>,
}

/// The window that the matches of a word ask for: from where, and up to where.
fn window_found(matches: &ArgMatches) -> (Option<u64>, Option<u64>)
    ensures { result ≡ window_found (rows_of (found_of matches.now)) }
{
    (number_found(matches, "from"), number_found(matches, "to"))
}

/// Whether a window does not end before it begins.
fn is_window(from: Option<u64>, to: Option<u64>) -> bool
    ensures { result ≡ is_window from to }
{
    match (from, to) {
        (Some(from), Some(to)) => from <= to,
        _ => true,
    }
}

/// The word `chart` with these matches, if they have a window.
fn chart_found(matches: &ArgMatches) -> Option<Word>
    ensures { result ≡ chart_found (rows_of (found_of matches.now)) }
{
    let (from, to) = window_found(matches);
    if is_window(from, to) {
        let all = has_flag(matches, "all");
        Some(Word::Chart { from, to, all })
    } else {
        None
    }
}

/// The word `page` with these matches, if they have a window.
fn page_found(matches: &ArgMatches) -> Option<Word>
    ensures { result ≡ page_found (rows_of (found_of matches.now)) }
{
    let (from, to) = window_found(matches);
    if is_window(from, to) {
        Some(Word::Page { from, to })
    } else {
        None
    }
}

/// The word with this name and these matches.
fn word_found(name: &str, matches: &ArgMatches) -> Option<Word>
    ensures { result ≡ word_found (name.now, rows_of (found_of matches.now)) }
{
    match name {
        "step" => Some(Word::Step {
            live: has_flag(matches, "live"),
        }),
        "check" => Some(Word::Check {
            front: has_flag(matches, "front"),
        }),
        "upgrade" => Some(Word::Upgrade),
        "summary" => Some(Word::Summary),
        "open" => Some(Word::Open {
            front: has_flag(matches, "front"),
        }),
        "resume" => Some(Word::Resume {
            front: has_flag(matches, "front"),
        }),
        "chart" => chart_found(matches),
        "trace" => Some(Word::Trace),
        "page" => page_found(matches),
        "replay" => Some(Word::Replay),
        "run" => Some(Word::Run),
        "explore" => match options_found(matches).schedules() {
            Some(schedules) => Some(Word::Explore { schedules }),
            None => None,
        },
        _ => None,
    }
}

/// The name of the file with moves or with a history that the matches hold.
fn followed_found<'a>(matches: &ArgMatches<'a>) -> Option<&'a str>
    ensures { option_map (λ name. name.now) result ≡ followed_found (rows_of (found_of matches.now)) }
{
    match matches.get_str("path") {
        Some(name) => Some(name),
        None => matches.get_str("follow"),
    }
}

/// The name of the other file that the matches hold.
fn other_found<'a>(matches: &ArgMatches<'a>) -> Option<&'a str>
    ensures { option_map (λ name. name.now) result ≡ other_found (rows_of (found_of matches.now)) }
{
    match matches.get_str("names") {
        Some(name) => Some(name),
        None => followed_found(matches),
    }
}

/// What is asked by the word with this name and these matches.
fn asked_found<'a>(name: &str, matches: &ArgMatches<'a>) -> Option<Asked<'a>>
    ensures { option_map request result ≡ asked_found (name.now, rows_of (found_of matches.now)) }
{
    match word_found(name, matches) {
        Some(word) => Some(Asked {
            word,
            explain: has_flag(matches, "explain"),
            file: matches.get_str("FILE"),
            other: other_found(matches),
            leave_out: matches.get_str("leave-out"),
        }),
        None => None,
    }
}

/// What is asked by the word that these matches of a command line hold.
fn asked_in<'a>(matches: &ArgMatches<'a>) -> Option<Asked<'a>>
    ensures { option_map request result ≡ option_and_then asked_found (subcommand_rows_of matches.now) }
{
    match matches.subcommand() {
        Some((name, found)) => asked_found(name, found),
        None => None,
    }
}

/// The word that clap's matches of the command line hold.
#[tactic(auto, unfolding(crate::specs::Word::is_word_taken, crate::specs::Word::word_matched))]
fn word_in<'a>(alloc: Global, words: &'a [&'a str]) -> Result<Option<Asked<'a>>, Error>
    ensures ok { IfOk result (λ asked. option_map request asked ≡ word_matched (texts words.entry.now)) }
    ensures err { IfErr result (λ e. is_word_taken (texts words.entry.now) ≡ true → kind_of e ≡ ErrorKind.OutOfMemory) }
{
    let matches = command(alloc)?.try_get_matches_from(words)?;
    Ok(asked_in(&matches))
}

/// Reads the command line, whose first word is the program's name. An error is clap's, to be printed as it says:
/// help and the version that were asked for, a wrong use, or want of memory.
pub fn word_of<'a>(alloc: Global, words: &'a [&'a str]) -> Result<Asked<'a>, Error>
    ensures ok { IfOk result (λ asked. word_matched (texts words.entry.now) ≡ Some (request asked)) }
    ensures err { IfErr result (λ e. is_word_taken (texts words.entry.now) ≡ true
        → IsSome (word_matched (texts words.entry.now)) → kind_of e ≡ ErrorKind.OutOfMemory) }
{
    match word_in(alloc, words)? {
        Some(asked) => Ok(asked),
        None => Err(unclear(alloc, words)?),
    }
}

/// What is wrong with the options of a subcommand that asks for nothing.
fn unclear_in(matches: &ArgMatches) -> Unclear {
    match matches.subcommand() {
        Some(("explore", found)) => options_found(found).unclear(),
        Some((_, found)) => {
            let (from, to) = window_found(found);
            Unclear::NoWindow {
                from: from.unwrap_or(0),
                to: to.unwrap_or(0),
            }
        }
        None => Unclear::NoSchedules,
    }
}

/// What is told of a command line that clap takes, and that asks for nothing.
fn unclear<'a>(alloc: Global, words: &'a [&'a str]) -> Result<Error, Error> {
    let matches = command(alloc)?.try_get_matches_from(words)?;
    let unclear = unclear_in(&matches);
    let text = format!(in alloc; "{unclear}")?;
    Ok(command(alloc)?.error(unclear.kind(), text.as_str())?)
}
