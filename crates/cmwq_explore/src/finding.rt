//! What is known of the schedules from one state on.

ghost use Rattle.std.specs.Prelude.{◌≡◌, ◌<◌, ◌+◌, ◌-◌, ◌^◌, max, IfOk};
ghost use Rattle.cmwq_explore.specs.Findings.{CountsMarked, HasEnded, HasStuck, Joins, is_shorter, longer_by, marked};
ghost use Rattle.cmwq_explore.specs.Findings.{marks_between, no_finding, shorter, sum, way_of};
ghost use Rattle.cmwq_play.specs.declared.play.Standing.TheVariants as standings;

use cmwq_play::{Noted, Standing};
use std::alloc::{AllocError, Global};

/// A way through the moves of these parties, the last first.
pub type Way = Option<Vec<usize>>;

/// What is known of all schedules from one state on.
#[derive(Drop)]
pub struct Finding {
    /// How many moves they have at most.
    pub height: usize,
    /// How many of them end, with nothing left to do.
    pub ended: u64,
    /// How many get stuck.
    pub stuck: u64,
    /// How many are cut off by a limit.
    pub cut: u64,
    /// In how many of those that end or get stuck calls are left out for want of room.
    pub short_of_room: u64,
    /// In how many of them waits of runs are refused.
    pub with_refusals: u64,
    /// In how many of them a lock is let go by one who does not hold it.
    pub with_misuse: u64,
    /// A shortest one that gets stuck, of those the first.
    pub nearest: Way,
    /// A shortest way to a wait that is refused, and over it.
    pub refusing: Way,
    /// A shortest way to where a limit cuts off.
    pub cutting: Way,
}

/// What a move left out, had refused, or misused.
#[derive(Clone, Copy)]
pub(crate) struct Marks {
    left_out: bool,
    refused: bool,
    misused: bool,
}

impl Marks {
    /// What was noted between these two.
    pub(crate) fn between(before: &Noted, after: &Noted) -> Marks
        ensures { result ≡ marks_between before.now after.now }
    {
        Marks {
            left_out: after.left_out > before.left_out,
            refused: after.refused > before.refused,
            misused: after.misused > before.misused,
        }
    }
}

/// The shorter of this way and another one that goes on from the move of this party; this one, if they are equally
/// long.
fn keep_shorter(alloc: Global, way: &mut Way, other: &Way, party: usize) -> Result<(), AllocError>
    ensures { IfOk result
        (λ _. way_of way.new ≡ shorter (way_of way.old) (longer_by party (way_of other.now))) }
{
    let Some(other) = other else {
        return Ok(());
    };
    if is_shorter(way, other.len()) {
        return Ok(());
    }
    let mut longer = copy_of(alloc, other)?;
    longer.push(party)?;
    *way = Some(longer);
    Ok(())
}

/// Whether a way has at most one move more than this.
fn is_shorter(way: &Way, moves: usize) -> bool
    ensures { result ≡ is_shorter (way_of way.now) moves }
{
    match way {
        Some(way) => way.len().saturating_sub(1) <= moves,
        None => false,
    }
}

/// So many of a child's schedules: all that were played to their end where the move itself is marked, and else those
/// that are marked after it.
fn marked(is_marked: bool, child: &Finding, after: u64) -> u64
    ensures { result ≡ marked is_marked child.now after }
{
    if is_marked {
        child.ended.saturating_add(child.stuck)
    } else {
        after
    }
}

impl Finding {
    /// Of no schedule.
    pub(crate) fn nothing() -> Finding
        ensures { result ≡ no_finding }
    {
        Finding {
            height: 0,
            ended: 0,
            stuck: 0,
            cut: 0,
            short_of_room: 0,
            with_refusals: 0,
            with_misuse: 0,
            nearest: None,
            refusing: None,
            cutting: None,
        }
    }

    /// Of the schedule without moves, where nobody may move.
    pub(crate) fn at_end(alloc: Global, standing: Standing, holds_a_lock: bool) -> Finding
        ensures ended { standing ≡ standings.Ended → HasEnded result }
        ensures stuck { standing ≡ standings.Stuck → HasStuck result }
        ensures whole { result.cut ≡ 0 }
    {
        let with_misuse = u64::from(holds_a_lock);
        match standing {
            Standing::Stuck => Finding {
                stuck: 1,
                nearest: Some(Vec::new(alloc)),
                ..Finding::nothing()
            },
            Standing::Ended | Standing::Goes => Finding {
                ended: 1,
                with_misuse,
                ..Finding::nothing()
            },
        }
    }

    /// One more is cut off here.
    pub(crate) fn cut_here(&mut self, alloc: Global)
        ensures cut { 0 < self.new.cut }
        ensures same { (self.new.height ≡ self.old.height) × (self.new.stuck ≡ self.old.stuck)
            × (self.new.nearest ≡ self.old.nearest) }
    {
        self.cut = self.cut.saturating_add(1);
        self.cutting = Some(Vec::new(alloc));
    }

    /// Adds the schedules that go on by the move of this party, after which this was found.
    pub(crate) fn join(
        &mut self,
        alloc: Global,
        child: &Finding,
        party: usize,
        marks: Marks,
    ) -> Result<(), AllocError>
        requires { child.now.height < 2 ^ 64 - 1 }
        ensures { IfOk result (λ _. Joins child.now party marks self.old self.new) }
    {
        self.count(child, marks);
        keep_shorter(alloc, &mut self.nearest, &child.nearest, party)?;
        keep_shorter(alloc, &mut self.cutting, &child.cutting, party)?;
        if marks.refused {
            return keep_shorter(alloc, &mut self.refusing, &Some(Vec::new(alloc)), party);
        }
        keep_shorter(alloc, &mut self.refusing, &child.refusing, party)
    }

    fn count(&mut self, child: &Finding, marks: Marks)
        requires { child.now.height < 2 ^ 64 - 1 }
        ensures height { self.new.height ≡ max self.old.height (child.now.height + 1) }
        ensures cut { self.new.cut ≡ sum self.old.cut child.now.cut }
        ensures ended { self.new.ended ≡ sum self.old.ended child.now.ended }
        ensures stuck { self.new.stuck ≡ sum self.old.stuck child.now.stuck }
        ensures marked { CountsMarked child.now marks self.old self.new }
        ensures ways { (self.new.nearest ≡ self.old.nearest) × (self.new.cutting ≡ self.old.cutting)
            × (self.new.refusing ≡ self.old.refusing) }
    {
        let short = marked(marks.left_out, child, child.short_of_room);
        let refusals = marked(marks.refused, child, child.with_refusals);
        let misuse = marked(marks.misused, child, child.with_misuse);
        self.height = self.height.max(child.height + 1);
        self.ended = self.ended.saturating_add(child.ended);
        self.stuck = self.stuck.saturating_add(child.stuck);
        self.cut = self.cut.saturating_add(child.cut);
        self.short_of_room = self.short_of_room.saturating_add(short);
        self.with_refusals = self.with_refusals.saturating_add(refusals);
        self.with_misuse = self.with_misuse.saturating_add(misuse);
    }
}

/// A list, copied.
pub(crate) fn copy_of<T: Copy>(alloc: Global, list: &[T]) -> Result<Vec<T>, AllocError>
    ensures { IfOk result (λ copy. copy.items ≡ list.now) }
{
    let mut copy = Vec::new(alloc);
    copy.extend_from_slice(list)?;
    Ok(copy)
}
