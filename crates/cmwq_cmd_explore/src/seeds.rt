//! The schedules of seeds.

ghost use Rattle.std.specs.Prelude.{◌≡◌, true, false, length, max, IfErr, IfOk, None, Ok};
ghost use Rattle.cmwq_model.specs.Prelude.{IsLegal};
ghost use Rattle.cmwq_core.specs.History.{past_in};
ghost use Rattle.cmwq_json_script.specs.Scripts.{run_of};
ghost use Rattle.cmwq_obstacle.specs.Firsts.{AreFirsts};
ghost use Rattle.cmwq_play.specs.Starts.{first_stand, start_of};
ghost use Rattle.cmwq_explore.specs.declared.chance.Chooser.TheVariants as choosers;
ghost use Rattle.cmwq_cmd_explore.specs.Players.{HasPlayed, IsPlayer, IsSamePlayer, start_in, version_in};
ghost use Rattle.cmwq_cmd_explore.specs.Verdicts.{HasWritten, SaysSeed, SaysSeeds, Writes};
ghost use Rattle.cmwq_cmd_explore.specs.Verdicts.{ends_counted, is_refused, moves_in, standing_of};

use crate::explore::Seeding;
use crate::report::{
    firsts_of, flush, write_cut_off, write_parties, write_refused, write_seed, write_seeds,
};
use crate::verdict::{Ends, Verdict};
use crate::watching::Watching;
use cmwq_explore::{Chooser, Seeds, StuckSeed, Tally, first_return, play_by, play_seeds};
use cmwq_history::write_history;
use cmwq_io::Sink;
use cmwq_json::Fault;
use cmwq_json_script::Script;
use cmwq_obstacle::Firsts;
use cmwq_play::{Play, Setup, Standing};
use std::alloc::Global;
use std::time::Clock;

/// Writes the history of a play.
pub(crate) fn write_play<O: Sink>(output: &mut O, version: u8, play: &Play<'_>) -> Result<(), Fault>
    ensures text { IfOk result
        (λ _. Writes (max version 2) play.now.history (O.written output.old) (O.written output.new)) }
    ensures legal { IsLegal play.now.history.layout (past_in play.now.history) }
{
    match write_history(output, version.max(2), play.shape(), play.history()) {
        Ok(()) => Ok(()),
        Err(_) => Err(Fault::WriteFault),
    }
}

/// How one play ended.
pub(crate) fn verdict_of_play(play: &Play<'_>, standing: Standing) -> Verdict
    ensures standing { standing_of result ≡ standing }
    ensures played { is_refused result ≡ false }
{
    let noted = play.noted();
    match standing {
        Standing::Stuck => Verdict::Stuck,
        Standing::Goes => Verdict::Bounded,
        Standing::Ended if noted.misused > 0 || play.holds_a_lock() => Verdict::Misused,
        Standing::Ended => match (noted.left_out, noted.refused) {
            (0, 0) => Verdict::AllEnd,
            (0, refused) => Verdict::Refused(refused),
            (left_out, _) => Verdict::LeftOut(left_out),
        },
    }
}

/// A play of the schedules of seeds.
#[derive(Drop)]
struct Player<'a> {
    alloc: Global,
    setup: &'a Setup<'a>,
    /// How many moves a schedule has at most.
    moves: u64,
    play: Play<'a>,
    /// Those who moved in it.
    path: Vec<usize>,
}

impl<'a> Player<'a> {
    /// No seed was played yet.
    fn new(alloc: Global, setup: &'a Setup<'a>, seeding: Seeding) -> Result<Player<'a>, Fault>
        ensures { IfOk result (λ player. IsPlayer setup.now seeding player) }
    {
        Ok(Player {
            alloc,
            setup,
            moves: seeding.moves.unwrap_or(setup.most_moves()),
            play: Play::new(alloc, setup)?,
            path: Vec::new(alloc),
        })
    }

    /// Plays the schedule of a seed. Returns how many moves it has.
    fn play_seed(&mut self, seed: u64, chooser: Chooser) -> Result<u64, Fault>
        ensures same { IfOk result (λ _. IsSamePlayer self.old self.new) }
        ensures played { IfOk result (λ _. HasPlayed self.new seed chooser) }
        ensures moves { IfOk result (λ moves. moves ≡ length self.new.path.items) }
    {
        let made = play_by(
            self.alloc,
            self.setup,
            &mut self.play,
            seed,
            chooser,
            self.moves,
            &mut self.path,
        )?;
        Ok(made)
    }

    /// How the next to move is chosen; or that more priority changes are asked for than the first schedule has moves.
    fn chooser(&mut self, pct: Option<u64>) -> Result<Result<Chooser, Verdict>, Fault>
        ensures same { IfOk result (λ _. IsSamePlayer self.old self.new) }
        ensures uniform { pct ≡ None → IfOk result (λ chooser. chooser ≡ Ok choosers.Uniform) }
        ensures refused { IfOk result (λ chooser. IfErr chooser (λ verdict. is_refused verdict ≡ true)) }
    {
        let Some(depth) = pct else {
            return Ok(Ok(Chooser::Uniform));
        };
        let moves = self.play_seed(0, Chooser::Uniform)?;
        if depth > moves {
            return Ok(Err(Verdict::TooDeep(moves)));
        }
        Ok(Ok(Chooser::Pct { depth, moves }))
    }
}

/// Tells what everybody waits for, unless the play ended. What can't be told changes nothing.
pub(crate) fn tell_parties<E: Sink>(
    errors: &mut E,
    play: &Play<'_>,
    firsts: &Firsts,
    standing: Standing,
)
    requires { AreFirsts play.now.history.layout (past_in play.now.history) firsts.now }
{
    if standing != Standing::Ended {
        let _ = write_parties(errors, "cmwq: ", play, firsts);
    }
}

/// Writes the history of a play, and what everybody waits for if it didn't end.
pub(crate) fn write_played<O: Sink, E: Sink>(
    alloc: Global,
    play: &Play<'_>,
    version: u8,
    output: &mut O,
    errors: &mut E,
) -> Result<Verdict, Fault>
    ensures says { IfOk result (λ verdict. HasWritten version play.now (O.written output.old) (O.written output.new)
        verdict) }
{
    let standing = play.standing();
    let firsts = firsts_of(alloc, play)?;
    tell_parties(errors, play, &firsts, standing);
    write_play(output, version, play)?;
    Ok(verdict_of_play(play, standing))
}

/// Plays the schedule of a seed, and writes its history.
fn write_seed_of<'a, O: Sink, E: Sink>(
    player: &mut Player<'a>,
    seed: u64,
    pct: Option<u64>,
    output: &mut O,
    errors: &mut E,
) -> Result<Verdict, Fault>
    ensures { IfOk result (λ verdict. SaysSeed (start_in player.old) (version_in player.old) player.old.moves seed pct
        (O.written output.old) (O.written output.new) verdict) }
{
    match player.chooser(pct)? {
        Ok(chooser) => {
            player.play_seed(seed, chooser)?;
            write_played(
                player.alloc,
                &player.play,
                player.setup.script().version,
                output,
                errors,
            )
        }
        Err(verdict) => Ok(verdict),
    }
}

/// The schedule of one seed of a setup.
fn explore_one<'a, O: Sink, E: Sink>(
    alloc: Global,
    setup: &'a Setup<'a>,
    seed: u64,
    seeding: Seeding,
    output: &mut O,
    errors: &mut E,
) -> Result<Verdict, Fault>
    ensures { IfOk result (λ verdict. SaysSeed (start_of setup.now) setup.now.script.now.version
        (moves_in (run_of setup.now.script.now) seeding) seed seeding.pct (O.written output.old) (O.written output.new)
        verdict) }
{
    let mut player = Player::new(alloc, setup, seeding)?;
    let verdict = write_seed_of(&mut player, seed, seeding.pct, output, errors);
    drop(player);
    verdict
}

/// The schedule of one seed: its history, and what everybody waits for if it didn't end.
pub(crate) fn explore_seed<O: Sink, E: Sink>(
    alloc: Global,
    script: &Script,
    seed: u64,
    seeding: Seeding,
    output: &mut O,
    errors: &mut E,
) -> Result<Verdict, Fault>
    ensures { IfOk result (λ verdict. SaysSeed (first_stand (run_of script.now)) script.now.version
        (moves_in (run_of script.now) seeding) seed seeding.pct (O.written output.old) (O.written output.new) verdict) }
{
    let setup = Setup::new(alloc, script)?;
    let verdict = explore_one(alloc, &setup, seed, seeding, output, errors);
    drop(setup);
    verdict
}

/// What is told of the schedules of seeds: how many ended so, and at most one of them.
#[derive(Clone, Copy)]
enum Shown {
    Stuck(StuckSeed),
    Refusing(StuckSeed),
    CutOff(StuckSeed),
    None,
}

fn shown_of(tally: &Tally) -> Shown {
    match (tally.shortest, tally.refusing, tally.cutting) {
        (Some(seed), _, _) => Shown::Stuck(seed),
        (None, _, Some(seed)) => Shown::CutOff(seed),
        (None, Some(seed), None) => Shown::Refusing(seed),
        (None, None, None) => Shown::None,
    }
}

/// The ends of the schedules of seeds.
fn ends_of(tally: &Tally) -> Ends
    ensures { result ≡ ends_counted tally.now }
{
    Ends {
        ended: tally.ended,
        stuck: tally.stuck,
        cut: tally.cut,
        short_of_room: tally.short_of_room,
        with_refusals: tally.with_refusals,
        with_misuse: tally.with_misuse,
    }
}

/// Plays the schedules of so many seeds, and writes what came of them.
fn write_seeds_of<'a, O: Sink, E: Sink, C: Clock>(
    player: &mut Player<'a>,
    first: u64,
    times: u64,
    pct: Option<u64>,
    watching: &mut Watching<'_, O, E, C>,
) -> Result<Verdict, Fault>
    ensures { IfOk result (λ verdict. SaysSeeds (start_in player.old) player.old.moves first times pct verdict) }
{
    let chooser = match player.chooser(pct)? {
        Ok(chooser) => chooser,
        Err(verdict) => return Ok(verdict),
    };
    let seeds = Seeds {
        first,
        end: first.saturating_add(times),
        chooser,
        moves: player.moves,
    };
    let tally = play_seeds(
        player.alloc,
        player.setup,
        &mut player.play,
        seeds,
        watching,
    )?;
    watching.end_progress();
    tell_seeds(player, times, chooser, &tally, watching.output())?;
    Ok(ends_of(&tally).verdict())
}

/// What is written of the schedules of so many seeds.
#[derive(Clone, Copy)]
struct Figures {
    times: u64,
    moves: u64,
    ends: Ends,
}

impl Figures {
    fn write<O: Sink>(&self, output: &mut O) -> Result<(), Fault> {
        write_seeds(output, self.times, self.moves, &self.ends)
    }

    /// Writes them, and which seed is shown.
    fn write_with<O: Sink>(
        &self,
        output: &mut O,
        what: &str,
        shown: StuckSeed,
    ) -> Result<(), Fault> {
        self.write(output)?;
        write_seed(output, what, shown.seed, shown.moves)
    }
}

/// Writes the figures, and the schedule of a seed that got stuck.
fn tell_stuck<'a, O: Sink>(
    player: &mut Player<'a>,
    chooser: Chooser,
    shown: StuckSeed,
    figures: Figures,
    output: &mut O,
) -> Result<(), Fault> {
    player.play_seed(shown.seed, chooser)?;
    let firsts = firsts_of(player.alloc, &player.play)?;
    figures.write_with(output, "stuck", shown)?;
    write_parties(output, "", &player.play, &firsts)?;
    write_play(output, player.setup.script().version, &player.play)
}

/// Writes the figures, and the schedule of a seed in which a wait is refused.
fn tell_refusing<'a, O: Sink>(
    player: &mut Player<'a>,
    chooser: Chooser,
    shown: StuckSeed,
    figures: Figures,
    output: &mut O,
) -> Result<(), Fault> {
    player.play_seed(shown.seed, chooser)?;
    figures.write_with(output, "with a refused wait", shown)?;
    write_refused(output, &player.play)?;
    write_play(output, player.setup.script().version, &player.play)
}

/// Writes the figures, and whether the schedule of a seed that was cut off comes to a state again.
fn tell_cut_off<'a, O: Sink>(
    player: &mut Player<'a>,
    chooser: Chooser,
    shown: StuckSeed,
    figures: Figures,
    output: &mut O,
) -> Result<(), Fault> {
    player.play_seed(shown.seed, chooser)?;
    let again = first_return(player.alloc, player.setup, &player.path)?;
    figures.write_with(output, "cut off", shown)?;
    write_cut_off(output, again)?;
    flush(output)
}

/// What came of so many seeds. The schedule that is shown is played again before anything is written, since a play
/// takes memory.
fn tell_seeds<'a, O: Sink>(
    player: &mut Player<'a>,
    times: u64,
    chooser: Chooser,
    tally: &Tally,
    output: &mut O,
) -> Result<(), Fault> {
    let figures = Figures {
        times,
        moves: tally.moves,
        ends: ends_of(tally),
    };
    match shown_of(tally) {
        Shown::Stuck(shown) => tell_stuck(player, chooser, shown, figures, output),
        Shown::Refusing(shown) => tell_refusing(player, chooser, shown, figures, output),
        Shown::CutOff(shown) => tell_cut_off(player, chooser, shown, figures, output),
        Shown::None => {
            figures.write(output)?;
            flush(output)
        }
    }
}

/// The schedules of so many seeds of a setup.
fn explore_many<'a, O: Sink, E: Sink, C: Clock>(
    alloc: Global,
    setup: &'a Setup<'a>,
    first: u64,
    times: u64,
    seeding: Seeding,
    watching: &mut Watching<'_, O, E, C>,
) -> Result<Verdict, Fault>
    ensures { IfOk result (λ verdict. SaysSeeds (start_of setup.now) (moves_in (run_of setup.now.script.now) seeding)
        first times seeding.pct verdict) }
{
    let mut player = Player::new(alloc, setup, seeding)?;
    let verdict = write_seeds_of(&mut player, first, times, seeding.pct, watching);
    drop(player);
    verdict
}

/// The schedules of so many seeds from the first on, in a play of their own.
pub(crate) fn explore_seeds<O: Sink, E: Sink, C: Clock>(
    alloc: Global,
    script: &Script,
    first: u64,
    times: u64,
    seeding: Seeding,
    watching: &mut Watching<'_, O, E, C>,
) -> Result<Verdict, Fault>
    ensures { IfOk result (λ verdict. SaysSeeds (first_stand (run_of script.now)) (moves_in (run_of script.now) seeding)
        first times seeding.pct verdict) }
{
    let setup = Setup::new(alloc, script)?;
    let verdict = explore_many(alloc, &setup, first, times, seeding, watching);
    drop(setup);
    verdict
}
