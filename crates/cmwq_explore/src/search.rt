//! All schedules of a script, depth first. A state that comes again is not searched again, if that is asked for.

ghost use Rattle.std.specs.Prelude.{◌≡◌, ◌⊎◌, ◌<◌, ◌+◌, ◌-◌, ◌^◌, ℕ, true, false, length, All, IfOk, IfSome};
ghost use Rattle.std.specs.Prelude.{map};
ghost use Rattle.std.specs.List.{list_any};
ghost use Rattle.cmwq_json_script.specs.Scripts.{run_of};
ghost use Rattle.cmwq_play.specs.Stands as spec;
ghost use Rattle.cmwq_key.specs.Alike.{IsStand, names_ticket};
ghost use Rattle.cmwq_explore.specs.Cuts.{HasLonger, IsLater, IsLimited, IsSameSearch, MayCut};
ghost use Rattle.cmwq_explore.specs.Findings.{JoinsMove, Tells, TellsAll};
ghost use Rattle.cmwq_play.specs.Searches.{IsReached, AllEndOrOneIsStuck, Rests, StuckAreLong};
ghost use Rattle.cmwq_explore.specs.Seens.{IsKeyed, IsSearch, JoinsSeen, KnowsOf};
ghost use Rattle.cmwq_play.specs.Starts.{first_stand, start_of};

use crate::finding::{Finding, Marks, copy_of};
use crate::progress::{Progress, Watch};
use crate::seen::Seen;
use cmwq_json_script::{Action, Script};
use cmwq_key::{Key, KeyWriter};
use cmwq_model::Call;
use cmwq_play::{Play, Setup};
use std::alloc::{AllocError, Global};

/// How many moves a schedule of a search has at most; a longer one is cut off.
pub const MOST_MOVES: usize = 2_000;

/// What limits a search, and how it goes.
#[derive(Clone, Copy, Debug)]
pub struct Limits {
    /// How many moves are made at most, in all.
    pub moves: u64,
    /// Whether each schedule is played, even where it comes to a state that was searched already.
    pub is_plain: bool,
    /// Whether the search ends with the first schedule that gets stuck.
    pub is_first: bool,
}

/// A search under way.
#[derive(Drop)]
struct Search<'a> {
    alloc: Global,
    limits: Limits,
    progress: Progress,
    /// Whether a state that comes again is not searched again.
    merges: bool,
    /// What was found of the states that were searched.
    seen: Seen,
    writer: KeyWriter,
    /// The key of the state that was come to last.
    key: Key,
    /// Plays that are not used now.
    spare: Vec<Play<'a>>,
}

impl<'a> Search<'a> {
    /// No state was searched yet.
    fn new(alloc: Global, limits: Limits, merges: bool) -> Search<'a>
        ensures search { (start : spec.Stand) → (merges ≡ true → IsStand start) → IsSearch start result }
        ensures limits { result.limits ≡ limits }
    {
        Search {
            alloc,
            limits,
            progress: Progress::nothing(),
            merges,
            seen: Seen::new(alloc),
            writer: KeyWriter::new(alloc),
            key: Vec::new(alloc),
            spare: Vec::new(alloc),
        }
    }

    /// One state more is searched.
    fn count_state(&mut self)
        ensures { IsSameSearch self.old self.new }
    {
        self.progress.states = self.progress.states.saturating_add(1);
    }

    /// A state came again.
    fn count_again(&mut self)
        ensures { IsSameSearch self.old self.new }
    {
        self.progress.again = self.progress.again.saturating_add(1);
    }

    /// Whether no move more is to be made.
    fn is_at_limit(&self) -> bool
        ensures { result ≡ true → IsLimited self.now.limits self.now.progress }
    {
        self.progress.moves >= self.limits.moves
            || (self.limits.is_first && self.progress.stuck > 0)
    }

    /// A schedule may not go on.
    fn end<W: Watch>(&mut self, play: &Play<'a>, watch: &mut W) -> Finding
        ensures same { IsSameSearch self.old self.new }
        ensures tells { Rests play.now → (depth : ℕ) → Tells depth result play.now }
        ensures whole { result.cut ≡ 0 }
    {
        let standing = play.standing_still();
        watch.ends(play, standing);
        self.progress.count_end(standing);
        Finding::at_end(self.alloc, standing, play.holds_a_lock())
    }

    /// Sees that there is a play that is not used.
    fn have_spare(&mut self, setup: &'a Setup<'a>) -> Result<(), AllocError>
        ensures same { IsSameSearch self.old self.new }
        ensures some { IfOk result (λ _. 0 < length self.new.spare.items) }
    {
        if self.spare.is_empty() {
            let play = Play::new(self.alloc, setup)?;
            self.spare.push(play)?;
        }
        Ok(())
    }

    /// A copy of this play.
    fn copy_of(&mut self, setup: &'a Setup<'a>, play: &Play<'a>) -> Result<Play<'a>, AllocError>
        ensures same { IsSameSearch self.old self.new }
        ensures copy { IfOk result (λ copy. copy ≡ play.now) }
    {
        self.have_spare(setup)?;
        let last = self.spare.len() - 1;
        self.spare[last].copy_from(play)?;
        Ok(self.spare.swap_remove(last))
    }

    /// Searches all schedules from the state at which the play stands.
    #[cycle(searching)]
    fn visit<W: Watch>(
        &mut self,
        setup: &'a Setup<'a>,
        play: &mut Play<'a>,
        depth: usize,
        watch: &mut W,
    ) -> Result<Finding, AllocError>
        requires search { IsSearch (start_of setup.now) self.old }
        requires reached { IsReached (start_of setup.now) play.old }
        ensures search { IfOk result (λ _. IsSearch (start_of setup.now) self.new) }
        ensures later { IfOk result (λ _. IsLater self.old self.new) }
        ensures tells { IfOk result (λ finding. Tells depth finding play.old) }
        ensures cut { IfOk result (λ finding. 0 < finding.cut → MayCut depth play.old self.new) }
    {
        self.count_state();
        let movers = play.movers()?;
        if movers.is_empty() {
            return Ok(self.end(play, watch));
        }
        if depth == 0 {
            let mut finding = Finding::nothing();
            finding.cut_here(self.alloc);
            return Ok(finding);
        }
        self.visit_after(setup, play, depth - 1, &movers, watch)
    }

    /// Searches all schedules that go on by a move of one of these. The last of them moves in the play itself.
    #[cycle(searching)]
    fn visit_after<W: Watch>(
        &mut self,
        setup: &'a Setup<'a>,
        play: &mut Play<'a>,
        depth: usize,
        movers: &[usize],
        watch: &mut W,
    ) -> Result<Finding, AllocError>
        requires search { IsSearch (start_of setup.now) self.old }
        requires reached { IsReached (start_of setup.now) play.old }
        requires movers { All (λ k. spec.may play.old k ≡ true) movers.now }
        requires some { 0 < length movers.now }
        requires deep { depth < 2 ^ 64 - 1 }
        ensures search { IfOk result (λ _. IsSearch (start_of setup.now) self.new) }
        ensures later { IfOk result (λ _. IsLater self.old self.new) }
        ensures tells { IfOk result (λ finding. TellsAll (depth + 1) finding play.old movers.now) }
        ensures cut { IfOk result (λ finding. 0 < finding.cut → MayCut (depth + 1) play.old self.new) }
    {
        let mut finding = Finding::nothing();
        let last = movers.len() - 1;
        for k in 0..movers.len() {
            if self.is_at_limit() {
                finding.cut_here(self.alloc);
                return Ok(finding);
            }
            self.visit_move(
                setup,
                play,
                depth,
                movers[k],
                k == last,
                &mut finding,
                watch,
            )?;
        }
        Ok(finding)
    }

    /// Adds all schedules that go on by a move of this party. Where it is the last, it moves in the play itself.
    #[cycle(searching)]
    fn visit_move<W: Watch>(
        &mut self,
        setup: &'a Setup<'a>,
        play: &mut Play<'a>,
        depth: usize,
        party: usize,
        is_last: bool,
        finding: &mut Finding,
        watch: &mut W,
    ) -> Result<(), AllocError>
        requires search { IsSearch (start_of setup.now) self.old }
        requires reached { IsReached (start_of setup.now) play.old }
        requires may { spec.may play.old party ≡ true }
        requires deep { depth < 2 ^ 64 - 1 }
        ensures search { IfOk result (λ _. IsSearch (start_of setup.now) self.new) }
        ensures later { IfOk result (λ _. IsLater self.old self.new) }
        ensures play { IfOk result (λ _. is_last ≡ false → play.new ≡ play.old) }
        ensures joins { IfOk result (λ _. JoinsMove depth play.old party finding.old finding.new) }
        ensures cut { IfOk result
            (λ _. 0 < finding.new.cut → (0 < finding.old.cut) ⊎ MayCut (depth + 1) play.old self.new) }
    {
        if is_last {
            return self.go_on(setup, play, depth, party, finding, watch);
        }
        let mut next = self.copy_of(setup, play)?;
        let went = self.go_on(setup, &mut next, depth, party, finding, watch);
        self.spare.push(next)?;
        went
    }

    /// Makes the move of this party in the play, and adds all schedules that go on from there.
    #[cycle(searching)]
    fn go_on<W: Watch>(
        &mut self,
        setup: &'a Setup<'a>,
        play: &mut Play<'a>,
        depth: usize,
        party: usize,
        finding: &mut Finding,
        watch: &mut W,
    ) -> Result<(), AllocError>
        requires search { IsSearch (start_of setup.now) self.old }
        requires reached { IsReached (start_of setup.now) play.old }
        requires may { spec.may play.old party ≡ true }
        requires deep { depth < 2 ^ 64 - 1 }
        ensures search { IfOk result (λ _. IsSearch (start_of setup.now) self.new) }
        ensures later { IfOk result (λ _. IsLater self.old self.new) }
        ensures joins { IfOk result (λ _. JoinsMove depth play.old party finding.old finding.new) }
        ensures cut { IfOk result
            (λ _. 0 < finding.new.cut → (0 < finding.old.cut) ⊎ MayCut (depth + 1) play.old self.new) }
    {
        let before = *play.noted();
        play.make_move(party)?;
        self.progress.count_moves(1, watch);
        let marks = Marks::between(&before, play.noted());
        if self.joins_seen(play, depth, party, marks, finding)? {
            return Ok(());
        }
        let key = self.kept_key()?;
        watch.goes_on(party);
        let child = self.visit(setup, play, depth, watch)?;
        watch.goes_back();
        finding.join(self.alloc, &child, party, marks)?;
        self.keep(key, child)
    }

    /// Adds what is known of the state to which this party's move led, if it came again. Its key is kept.
    fn joins_seen(
        &mut self,
        play: &Play<'a>,
        depth: usize,
        party: usize,
        marks: Marks,
        finding: &mut Finding,
    ) -> Result<bool, AllocError>
        requires { depth < 2 ^ 64 - 1 }
        ensures same { IsSameSearch self.old self.new }
        ensures key { IfOk result (λ is. is ≡ false → IsKeyed play.now self.new) }
        ensures kept { IfOk result (λ is. is ≡ false → finding.new ≡ finding.old) }
        ensures joins { IfOk result (λ is. is ≡ true
            → JoinsSeen self.old.seen play.now depth party marks finding.old finding.new) }
    {
        if !self.merges {
            return Ok(false);
        }
        self.writer.write(&mut self.key, play)?;
        match self.seen.get(&self.key) {
            Some(known) if known.height <= depth => {
                finding.join(self.alloc, known, party, marks)?;
                self.count_again();
                Ok(true)
            }
            _ => Ok(false),
        }
    }

    /// The key at hand, if what is found of its state is to be kept.
    fn kept_key(&self) -> Result<Option<Key>, AllocError>
        ensures { IfOk result (λ key. IfSome key
            (λ key. (self.now.merges ≡ true) × (key.items ≡ self.now.key.items))) }
    {
        if !self.merges {
            return Ok(None);
        }
        let key = copy_of(self.alloc, &self.key)?;
        Ok(Some(key))
    }

    /// Keeps what was found of the state with this key, if there is one, unless something was cut off there.
    fn keep(&mut self, key: Option<Key>, finding: Finding) -> Result<(), AllocError>
        ensures search { (start : spec.Stand) → IsSearch start self.old
            → IfSome key (λ key. KnowsOf start key.items finding) → IfOk result (λ _. IsSearch start self.new) }
        ensures later { IsLater self.old self.new }
    {
        match key {
            Some(key) if finding.cut == 0 => self.seen.put(key, finding),
            _ => Ok(()),
        }
    }

    /// Searches all schedules of the script.
    fn visit_all<W: Watch>(
        &mut self,
        setup: &'a Setup<'a>,
        watch: &mut W,
    ) -> Result<Finding, AllocError>
        requires { IsSearch (start_of setup.now) self.old }
        ensures later { IfOk result (λ _. IsLater self.old self.new) }
        ensures tells { IfOk result (λ finding. Tells MOST_MOVES finding (start_of setup.now)) }
        ensures cut { IfOk result (λ finding. 0 < finding.cut → MayCut MOST_MOVES (start_of setup.now) self.new) }
    {
        let mut play = Play::new(self.alloc, setup)?;
        let found = self.visit(setup, &mut play, MOST_MOVES, watch);
        drop(play);
        found
    }
}

/// Searches all schedules of this setup.
fn search_from<'a, W: Watch>(
    alloc: Global,
    setup: &'a Setup<'a>,
    limits: Limits,
    merges: bool,
    watch: &mut W,
) -> Result<(Finding, Progress), AllocError>
    requires { merges ≡ true → IsStand (start_of setup.now) }
    ensures tells { IfOk result (λ r. Tells MOST_MOVES r.0 (start_of setup.now)) }
    ensures cut { IfOk result
        (λ r. 0 < r.0.cut → IsLimited limits r.1 ⊎ HasLonger MOST_MOVES (start_of setup.now)) }
{
    let mut search = Search::new(alloc, limits, merges);
    let found = search.visit_all(setup, watch);
    let progress = search.progress;
    drop(search);
    Ok((found?, progress))
}

/// Whether an action names a ticket, which in a script none does.
fn names_ticket(action: Action) -> bool
    ensures { result ≡ names_ticket action }
{
    matches!(action, Action::Call(Call::End { .. }))
}

fn names_one(actions: &[Action]) -> bool
    ensures { result ≡ list_any names_ticket actions.now }
{
    actions.iter().any(|action| names_ticket(*action))
}

fn any_names_ticket(all: &[Vec<Action>]) -> bool
    ensures { result ≡ list_any (list_any names_ticket) (map (λ actions. actions.items) all.now) }
{
    all.iter().any(|actions| names_one(actions))
}

/// Whether a state that comes again need not be searched again: not where each schedule is to be played, nor where an
/// action of the script names a ticket, since then states that differ in their numbers are not the same.
fn may_merge(script: &Script, limits: Limits) -> bool
    ensures { result ≡ true → IsStand (first_stand (run_of script.now)) }
{
    if limits.is_plain || any_names_ticket(&script.callers) {
        return false;
    }
    !any_names_ticket(&script.does)
}

/// Tries all schedules of a script, depth first, within the limits, and returns what was found of them, and how far it
/// came. Unless the search is plain, a state that comes again is not searched again: what was found of it counts once
/// more for each way to it. States are the same if they differ in nothing but the numbers of entries. Something is cut
/// off only if the search came to a limit, or if a schedule has more than `MOST_MOVES` moves.
///
/// # Errors
/// Want of memory.
pub fn search_all<W: Watch>(
    alloc: Global,
    script: &Script,
    limits: Limits,
    watch: &mut W,
) -> Result<(Finding, Progress), AllocError>
    ensures tells { IfOk result (λ r. Tells MOST_MOVES r.0 (first_stand (run_of script.now))) }
    ensures cut { IfOk result
        (λ r. 0 < r.0.cut → IsLimited limits r.1 ⊎ HasLonger MOST_MOVES (first_stand (run_of script.now))) }
{
    let setup = Setup::new(alloc, script)?;
    let found = search_from(alloc, &setup, limits, may_merge(script, limits), watch);
    drop(setup);
    found
}

/// Where every schedule ends, none gets stuck: so what `search_all` tells is never both.
pub fn all_end_or_one_is_stuck()
    ensures { AllEndOrOneIsStuck }
{}

/// Where no schedule of fewer moves gets stuck, one that does is as long at least.
pub fn stuck_are_long()
    ensures { StuckAreLong }
{}
