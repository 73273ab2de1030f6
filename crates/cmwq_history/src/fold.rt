//! What is made of a history while it is read.

ghost use Rattle.std.specs.Prelude.{◌≡◌, true, IfOk, OnOk, IfErr};
ghost use Rattle.cmwq_model.specs.Prelude.{fits, past_of, Wants};
ghost use Rattle.cmwq_history.specs.Following.{IsFollowed};

use crate::step::Step;
use cmwq_base::{Entry, NoMemory, Shape, Wanted};
use cmwq_core::{Full, Judge, Told};
use std::alloc::Global;

/// What is made of a legal history, one entry after the other. It looks back at none of them.
pub trait Fold: Sized {
    ghost use Rattle.std.specs.Prelude.{[], List, IfOk, OnOk};
    ghost use Rattle.cmwq_model.specs.Prelude.{Layout};
    ghost use Rattle.cmwq_model.specs.declared.entry.Entry.{Entry};
    ghost use Rattle.cmwq_history.specs.Steps.{after};

    /// What it is told of each entry: `()`, or what the entry does, an `Effect`.
    type Told: Told + Drop;

    /// It is what is made of a history of this shape, whose entries are sorted with the newest first.
    ghost is_of: { Layout → List Entry → Self → Type 0 };

    /// Makes it of no entries. The error says that memory ran out.
    fn begin(alloc: Global, shape: &Shape) -> Result<Self, NoMemory>
        ensures { IfOk result (is_of shape.now []) };

    /// Takes one more entry. The error says that memory ran out.
    fn take(&mut self, step: &Step<'_, Self::Told>) -> Result<(), NoMemory>
        requires { is_of step.now.layout step.now.past self.old }
        ensures { OnOk result (is_of step.now.layout (after step.now) self.new) };
}

/// Has one more entry judged, and taken if it is right. If it is wrong, returns what should stand there. The error says
/// that memory ran out.
#[tactic(auto, using(crate::proofs::Followed::step_made, crate::proofs::Followed::past_more))]
pub(crate) fn follow<F: Fold>(
    made: &mut F,
    judge: &mut Judge,
    entry: &Entry,
) -> Result<Result<(), Wanted>, NoMemory>
    requires fit { fits judge.old.layout entry.now.who entry.now.call ≡ true }
    requires made { F.is_of judge.old.layout (past_of judge.old.entries) made.old }
    ensures right { IfOk result (λ verdict. OnOk verdict (IsFollowed F.is_of judge.old entry.now judge.new made.new)) }
    ensures wrong { IfOk result
        (λ verdict. IfErr verdict (Wants judge.old.layout (past_of judge.old.entries) entry.now)) }
{
    // it shows that the shape is inside the limits
    let _len = judge.len();
    match judge.next::<F::Told>(entry) {
        Ok(Ok(told)) => {
            made.take(&Step::new(entry, told, judge))?;
            Ok(Ok(()))
        }
        Ok(Err(wanted)) => Ok(Err(wanted)),
        Err(Full) => Err(NoMemory),
    }
}

/// Nothing is made: the history is judged alone.
#[derive(Debug, Drop)]
pub struct Nothing;

impl Fold for Nothing {
    type Told = ();

    ghost is_of = { λ s past made. Unit {0} };

    fn begin(_: Global, _: &Shape) -> Result<Self, NoMemory> {
        Ok(Nothing)
    }

    fn take(&mut self, _: &Step<'_, ()>) -> Result<(), NoMemory> {
        Ok(())
    }
}

/// All entries, with the oldest first.
#[derive(Debug, Drop)]
pub struct Kept {
    pub entries: Vec<Entry>,
}

impl Fold for Kept {
    ghost use Rattle.std.specs.Prelude.{◌≡◌};
    ghost use Rattle.cmwq_model.specs.Prelude.{past_of};

    type Told = ();

    ghost is_of = { λ s past kept. past_of kept.entries.items ≡ past };

    fn begin(alloc: Global, _: &Shape) -> Result<Self, NoMemory> {
        Ok(Kept {
            entries: Vec::new(alloc),
        })
    }

    #[tactic(auto, using(crate::proofs::Followed::past_more))]
    fn take(&mut self, step: &Step<'_, ()>) -> Result<(), NoMemory> {
        match self.entries.push(*step.entry()) {
            Ok(()) => Ok(()),
            Err(_) => Err(NoMemory),
        }
    }
}
