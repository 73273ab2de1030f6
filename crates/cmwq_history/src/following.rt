//! A history that is judged while it is read, and of which something is made.

ghost use Rattle.std.specs.Prelude.{◌≡◌, length, IfOk, OnOk, IfErr};
ghost use Rattle.cmwq_model.specs.Prelude.{IsLegal, IsFirstWrong, past_of};
ghost use Rattle.cmwq_history.specs.Following.{judged_of};
ghost use Rattle.cmwq_history.specs.Verdicts.{IsVerdictOf};

use crate::fold::{Fold, follow};
use cmwq_base::{Entry, Gather, Illegal, NoMemory, Shape};
use cmwq_core::Judge;
use cmwq_state::Trail;
use std::alloc::Global;
use std::marker::Model;

/// How it went so far.
#[derive(Clone, Copy, Debug)]
pub(crate) enum Course {
    /// All entries were right.
    Legal,
    /// This is the first that was wrong.
    Wrong(Illegal),
    /// Memory ran out.
    Failed,
}

/// Judges the entries of a history as they come, and has something made of them. Keeps none itself. After the first
/// wrong one it takes the others without judging them. The judge and what is made are boxed, since the reader hands
/// what gathers on by value before and after its lines.
#[derive(Drop)]
pub struct Following<F: Fold + Drop> {
    shape: Shape,
    judge: Box<Judge>,
    made: Box<F>,
    course: Course,
    all: Trail<Entry>,
}

impl<F: Fold + Drop> Model for Following<F> {
    ghost use Rattle.cmwq_history.specs.Verdicts.{Seen};
    ghost use Rattle.cmwq_history.specs.Following.{IsFollowing};

    ghost Value = { Seen };

    ghost view = { λ f. record { layout = f.shape; entries = f.all } };

    ghost invariant = { λ f. IsFollowing F.is_of f.shape f.all f.judge.value f.made.value f.course };
}

/// What is known of a legal history.
#[derive(Clone, Copy)]
pub struct Legal<'a, F> {
    pub shape: &'a Shape,
    pub judge: &'a Judge,
    pub made: &'a F,
}

impl<F: Fold + Drop> Following<F> {
    /// What is known of the entries, if they are legal, and else the first that is wrong. The outer error says that
    /// memory ran out.
    pub fn legal(&self) -> Result<Result<Legal<'_, F>, Illegal>, NoMemory>
        ensures shape { IfOk result (λ verdict. IfOk verdict (λ l. l.shape.now ≡ self.now.layout)) }
        ensures judge { IfOk result (λ verdict. IfOk verdict (λ l. l.judge.now ≡ judged_of self.now)) }
        ensures made { IfOk result
            (λ verdict. IfOk verdict (λ l. F.is_of self.now.layout (past_of self.now.entries) l.made.now)) }
        ensures legal { IfOk result (λ verdict. OnOk verdict (IsLegal self.now.layout (past_of self.now.entries))) }
        ensures wrong { IfOk result (λ verdict. IfErr verdict (IsFirstWrong self.now.layout self.now.entries)) }
    {
        // its length says that what was right is legal
        let _right = self.judge.len();
        match self.course {
            Course::Legal => Ok(Ok(Legal {
                shape: &self.shape,
                judge: &self.judge,
                made: &self.made,
            })),
            Course::Wrong(illegal) => Ok(Err(illegal)),
            Course::Failed => Err(NoMemory),
        }
    }

    /// Whether all entries are legal, or which is the first that is wrong. The error says that memory ran out.
    pub(crate) fn verdict(&self) -> Result<Option<Illegal>, NoMemory>
        ensures { IfOk result (IsVerdictOf self.now.layout self.now.entries) }
    {
        match self.legal()? {
            Ok(_) => Ok(None),
            Err(illegal) => Ok(Some(illegal)),
        }
    }

    /// How many entries there are.
    pub fn entries(&self) -> u64
        ensures { result ≡ length self.now.entries }
    {
        self.all.len()
    }
}

/// A value on the heap.
fn boxed<T: Drop>(alloc: Global, value: T) -> Result<Box<T>, NoMemory>
    ensures { IfOk result (λ boxed. boxed.value ≡ value) }
{
    Box::new(alloc, value).ok().ok_or(NoMemory)
}

impl<F: Fold + Drop> Gather for Following<F> {
    type Item = Entry;

    ghost layout = { λ f. f.layout };

    ghost items = { λ f. f.entries };

    fn begin(alloc: Global, shape: Shape) -> Result<Self, NoMemory> {
        let judge = Judge::new(alloc, &shape)?;
        let judge = boxed(alloc, judge)?;
        let made = F::begin(alloc, &shape)?;
        let made = boxed(alloc, made)?;
        let all = Trail::new();
        Ok(Following {
            shape,
            judge,
            made,
            course: Course::Legal,
            all,
        })
    }

    fn shape(&self) -> &Shape {
        &self.shape
    }

    fn len(&self) -> u64 {
        self.all.len()
    }

    #[tactic(auto, using(crate::proofs::Followed::wrong_stays, crate::proofs::Followed::wrong_now, crate::proofs::Followed::past_more))]
    fn take(&mut self, item: Entry) -> Result<(), NoMemory> {
        match self.course {
            // what comes after it is only counted
            Course::Wrong(_) => self.all.push(&item),
            Course::Failed => return Err(NoMemory),
            Course::Legal => {
                let at = self.judge.len();
                match follow(&mut *self.made, &mut self.judge, &item) {
                    Ok(Ok(())) => self.all.push(&item),
                    Ok(Err(wanted)) => {
                        self.course = Course::Wrong(Illegal { at, wanted });
                        self.all.push(&item);
                    }
                    Err(NoMemory) => {
                        self.course = Course::Failed;
                        return Err(NoMemory);
                    }
                }
            }
        }
        Ok(())
    }
}
