//! The schedule whose moves a file says.

ghost use Rattle.std.specs.Prelude.{◌≡◌, ℕ, true, List, IfOk, IfSome, None};
ghost use Rattle.cmwq_json_script.specs.Scripts.{run_of};
ghost use Rattle.cmwq_play.specs.Searches.{IsPathTo};
ghost use Rattle.cmwq_play.specs.Starts.{first_stand, start_of};
ghost use Rattle.cmwq_cmd_explore.specs.Verdicts.{SaysPath, is_refused};

use crate::report::firsts_of;
use crate::seeds::{tell_parties, write_played};
use crate::verdict::Verdict;
use cmwq_io::{Sink, Source, tell};
use cmwq_json::{Fault, read_bytes};
use cmwq_json_script::Script;
use cmwq_play::{PartyName, Play, Setup};
use std::alloc::Global;

/// A name of a path that is no party, or one that may not move: how many moves stand before it.
#[derive(Clone, Copy)]
enum Wrong {
    Name { moves: usize },
    Move { moves: usize, name: PartyName },
}

/// The parties that a text names, one after another.
fn parties_in(
    alloc: Global,
    play: &Play<'_>,
    text: &str,
) -> Result<Result<Vec<usize>, Wrong>, Fault> {
    let mut path = Vec::new(alloc);
    for word in text.split_whitespace() {
        let party = match PartyName::parse(word) {
            Some(name) => play.party_named(name),
            None => None,
        };
        let Some(party) = party else {
            return Ok(Err(Wrong::Name { moves: path.len() }));
        };
        path.push(party)?;
    }
    Ok(Ok(path))
}

/// Tells what is wrong with a path.
fn tell_wrong<E: Sink>(errors: &mut E, wrong: Wrong) -> Verdict
    ensures { is_refused result ≡ true }
{
    match wrong {
        Wrong::Name { moves } => tell(
            errors,
            format_args!("path: after {moves} moves there is a name of nobody"),
        ),
        Wrong::Move { moves, name } => tell(
            errors,
            format_args!("path: after {moves} moves {name} may not move"),
        ),
    }
    Verdict::Unplayable
}

/// Plays the moves that a text names.
fn play_text<'a, E: Sink>(
    alloc: Global,
    setup: &'a Setup<'a>,
    play: &mut Play<'a>,
    text: &str,
    errors: &mut E,
) -> Result<Option<Verdict>, Fault>
    ensures whole { IfOk result
        (λ wrong. wrong ≡ None → (path : List ℕ) × IsPathTo (start_of setup.now) path play.new) }
    ensures refused { IfOk result (λ wrong. IfSome wrong (λ verdict. is_refused verdict ≡ true)) }
{
    let path = match parties_in(alloc, play, text)? {
        Ok(path) => path,
        Err(wrong) => return Ok(Some(tell_wrong(errors, wrong))),
    };
    let Some(moves) = play.play_path(setup, &path)? else {
        return Ok(None);
    };
    let firsts = firsts_of(alloc, play)?;
    let name = play.name_of(path[moves]);
    let wrong = tell_wrong(errors, Wrong::Move { moves, name });
    tell_parties(errors, play, &firsts, play.standing());
    Ok(Some(wrong))
}

/// Plays the moves that a file names.
fn play_file<'a, P: Source, E: Sink>(
    alloc: Global,
    setup: &'a Setup<'a>,
    play: &mut Play<'a>,
    path: &mut P,
    errors: &mut E,
) -> Result<Option<Verdict>, Fault>
    ensures whole { IfOk result
        (λ wrong. wrong ≡ None → (path : List ℕ) × IsPathTo (start_of setup.now) path play.new) }
    ensures refused { IfOk result (λ wrong. IfSome wrong (λ verdict. is_refused verdict ≡ true)) }
{
    let bytes = read_bytes(alloc, path)?;
    match str::from_utf8(&bytes) {
        Ok(text) => play_text(alloc, setup, play, text, errors),
        Err(_) => Ok(Some(tell_wrong(errors, Wrong::Name { moves: 0 }))),
    }
}

/// Plays the moves that a file names in this play, and writes the history of them.
fn play_and_write<'a, P: Source, O: Sink, E: Sink>(
    alloc: Global,
    setup: &'a Setup<'a>,
    play: &mut Play<'a>,
    path: &mut P,
    output: &mut O,
    errors: &mut E,
) -> Result<Verdict, Fault>
    ensures { IfOk result (λ verdict. SaysPath (start_of setup.now) setup.now.script.now.version
        (O.written output.old) (O.written output.new) verdict) }
{
    match play_file(alloc, setup, play, path, errors)? {
        Some(verdict) => Ok(verdict),
        None => write_played(alloc, play, setup.script().version, output, errors),
    }
}

/// The same, in a play of its own.
fn play_with_setup<'a, P: Source, O: Sink, E: Sink>(
    alloc: Global,
    setup: &'a Setup<'a>,
    path: &mut P,
    output: &mut O,
    errors: &mut E,
) -> Result<Verdict, Fault>
    ensures { IfOk result (λ verdict. SaysPath (start_of setup.now) setup.now.script.now.version
        (O.written output.old) (O.written output.new) verdict) }
{
    let mut play = Play::new(alloc, setup)?;
    let verdict = play_and_write(alloc, setup, &mut play, path, output, errors);
    drop(play);
    verdict
}

/// Plays the moves that a file names, and writes the history of them.
pub(crate) fn explore_path<P: Source, O: Sink, E: Sink>(
    alloc: Global,
    script: &Script,
    path: &mut P,
    output: &mut O,
    errors: &mut E,
) -> Result<Verdict, Fault>
    ensures { IfOk result (λ verdict. SaysPath (first_stand (run_of script.now)) script.now.version
        (O.written output.old) (O.written output.new) verdict) }
{
    let setup = Setup::new(alloc, script)?;
    let verdict = play_with_setup(alloc, &setup, path, output, errors);
    drop(setup);
    verdict
}
