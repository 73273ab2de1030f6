//! The verdict of a history.

ghost use Rattle.std.specs.Prelude.{◌≡◌, ◌≤◌, ◌∷◌, false, [], length, None, IfOk, IfSome, OnOk, OnErr, IfErr};
ghost use Rattle.std.specs.Prelude.{IsTrue, true};
ghost use Rattle.cmwq_model.specs.Prelude.{fits, has_room, is_layout, AllFit, IsFirstWrong, IsLegal, most_room};
ghost use Rattle.cmwq_model.specs.Prelude.{past_of, Wants};
ghost use Rattle.cmwq_core.specs.History.{next_entry as entry_due};
ghost use Rattle.cmwq_core.specs.Judged.{judged_none, seen_too};

use crate::effects::next_entry;
use crate::entering::{Told, enter};
use crate::execution::Full;
use cmwq_model::{Entry, Illegal, NoMemory, Shape, Wanted};
use cmwq_state::State;
use std::alloc::Global;
use std::marker::Model;

/// The room of a judge's state, from which it takes no more entries than numbers allow.
const ALL_ROOM: u64 = 4_611_686_018_427_387_904;

/// Judges a history that comes entry by entry, and keeps none of it. Contracts see all that was right so far.
#[derive(Drop)]
pub struct Judge {
    state: State,
}

impl Model for Judge {
    ghost use Rattle.std.specs.Prelude.{◌≡◌, IsTrue};
    ghost use Rattle.cmwq_model.specs.Prelude.{is_layout};
    ghost use Rattle.cmwq_core.specs.Judged.{Judged};

    ghost Value = { Judged };

    ghost view = { λ j. record { layout = j.state.layout; entries = j.state.entries } };

    ghost invariant = { λ j. IsTrue (is_layout j.state.layout) × (j.state.room ≡ 4611686018427387904) };
}

impl Judge {
    /// A judge of a history of this shape, which has seen no entry. No later call takes memory; the error says that it
    /// ran out.
    pub fn new(alloc: Global, shape: &Shape) -> Result<Judge, NoMemory>
        ensures { IfOk result (λ judge. judge ≡ judged_none shape.now) }
    {
        // it shows that the shape is inside the limits
        let _counts = shape.counts();
        Ok(Judge {
            state: State::new(alloc, shape, ALL_ROOM)?,
        })
    }

    /// Lets the judge go, as `State::end` does a state.
    pub fn end(self) {
        self.state.end();
    }

    /// How many entries were right. They are a legal history.
    pub fn len(&self) -> u64
        ensures len { result ≡ length self.now.entries }
        ensures few { result ≤ most_room }
        ensures inside { IsTrue (is_layout self.now.layout) }
        ensures legal { IsLegal self.now.layout (past_of self.now.entries) }
    {
        self.state.len()
    }

    /// What stands after the entries that were right: all that a state can be asked.
    pub fn state(&self) -> &State
        ensures layout { result.now.layout ≡ self.now.layout }
        ensures entries { result.now.entries ≡ self.now.entries }
    {
        &self.state
    }

    /// Judges one entry more. An entry that is the one that its call gets after those that were right is taken, and
    /// what it does is told, as an `Effect`, or nothing, as `()`, which costs less. Of any other, what should stand
    /// there is returned: the serial, or if the serial is right the reply.
    ///
    /// # Errors
    /// `Full` for a right entry, if there would be more than 2^62 entries or ticks. The judge is then as it was, as
    /// after a wrong entry.
    pub fn next<T: Told>(&mut self, entry: &Entry) -> Result<Result<T, Wanted>, Full>
        requires { fits self.old.layout entry.now.who entry.now.call ≡ true }
        ensures told { IfOk result
            (λ verdict. IfOk verdict (T.tells self.old.layout (past_of self.old.entries) entry.now)) }
        ensures room { IfOk result
            (λ verdict. OnOk verdict (has_room self.old.layout most_room (past_of self.old.entries) entry.now.who
            entry.now.call ≡ true)) }
        ensures seen { IfOk result (λ verdict. OnOk verdict (self.new ≡ seen_too self.old entry.now)) }
        ensures wrong { IfOk result
            (λ verdict. IfErr verdict (Wants self.old.layout (past_of self.old.entries) entry.now)) }
        ensures same { IfOk result (λ verdict. OnErr verdict (self.new ≡ self.old)) }
        ensures full { OnErr result (IsLegal self.old.layout (entry.now ∷ past_of self.old.entries)
            × (has_room self.old.layout most_room (past_of self.old.entries) entry.now.who entry.now.call ≡ false)
            × (self.new ≡ self.old)) }
    {
        if let Some(wanted) = wanted(&self.state, entry) {
            return Ok(Err(wanted));
        }
        match enter::<T>(&mut self.state, entry) {
            Ok(told) => Ok(Ok(told)),
            Err(Full) => Err(Full),
        }
    }
}

/// What should stand in an entry that is another than the one that its call gets.
#[inline(always)]
fn wanted(state: &State, entry: &Entry) -> Option<Wanted>
    requires { fits state.now.layout entry.now.who entry.now.call ≡ true }
    ensures right { result ≡ None → entry.now ≡ entry_due state.now entry.now.who entry.now.call }
    ensures legal { result ≡ None → IsLegal state.now.layout (entry.now ∷ past_of state.now.entries) }
    ensures wrong { IfSome result (Wants state.now.layout (past_of state.now.entries) entry.now) }
{
    let due = next_entry(state, entry.who, entry.call);
    if entry.serial != due.serial {
        return Some(Wanted::Serial(due.serial));
    }
    if !entry.reply.is_same(due.reply) {
        return Some(Wanted::Reply(due.reply));
    }
    None
}

/// Judges a history: whether each of its entries is the one that its call gets at that point. Room isn't looked at. The
/// outer error says that memory ran out.
///
/// # Errors
/// The first entry that isn't, with the serial that should stand there, or if the serial is right the reply.
pub fn check(
    alloc: Global,
    shape: &Shape,
    entries: &[Entry],
) -> Result<Result<(), Illegal>, NoMemory>
    requires few { length entries.now ≤ 1073741824 }
    requires fitting { AllFit shape.now entries.now }
    ensures legal { IfOk result (λ verdict. OnOk verdict (IsLegal shape.now (past_of entries.now))) }
    ensures illegal { IfOk result (λ verdict. IfErr verdict (λ i. IsFirstWrong shape.now entries.now i)) }
{
    let mut judge = Judge::new(alloc, shape)?;
    let verdict = verdict(&mut judge, entries);
    judge.end();
    Ok(verdict)
}

/// The verdict of a history, by a judge that has seen none of it.
fn verdict(judge: &mut Judge, entries: &[Entry]) -> Result<(), Illegal>
    requires few { length entries.now ≤ 1073741824 }
    requires fitting { AllFit judge.old.layout entries.now }
    requires fresh { judge.old ≡ judged_none judge.old.layout }
    ensures legal { OnOk result (IsLegal judge.old.layout (past_of entries.now)) }
    ensures illegal { IfErr result (IsFirstWrong judge.old.layout entries.now) }
{
    for at in 0..entries.len() {
        let entry = &entries[at];
        // it shows that they are few, on which the time rests
        let _ticks = entry.call.ticks();
        // and it that the shape is inside the limits, on which the room does
        let _len = judge.len();
        match judge.next::<()>(entry) {
            Ok(Ok(())) => {}
            Ok(Err(wanted)) => {
                return Err(Illegal {
                    at: at as u64,
                    wanted,
                });
            }
            Err(Full) => unreachable!(),
        }
    }
    let _legal = judge.len();
    Ok(())
}
