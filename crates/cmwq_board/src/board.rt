//! A hub without threads: what its calls return, who sleeps, and who is to be woken.

ghost use Rattle.std.specs.Prelude.{◌≡◌, ◌≤◌, IfOk, IfErr, OnErr, IsTrue, None, Some, [], is_ok, length, min};
ghost use Rattle.std.specs.Prelude.{max, replicate, vec_capacity};
ghost use Rattle.cmwq_model.specs.Prelude.{IsLegal, unended_tickets};
ghost use Rattle.cmwq_model.specs.declared.id.Who.TheVariants as who;
ghost use Rattle.cmwq_dispatch.specs.Asleep.{NobodySleeps};
ghost use Rattle.cmwq_dispatch.specs.Dispatched.{Stands, is_new, is_over, past_now};
ghost use Rattle.cmwq_dispatch.specs.Naming.{NamesAll, NamesMore};
ghost use Rattle.cmwq_board.specs.Boarded.{IsBoard, asked, board_of, failed, handed_out, is_new_board, is_own, kept_in};
ghost use Rattle.cmwq_board.specs.Boarded.{layout_of};
ghost use Rattle.cmwq_board.specs.Boarded.{least_kept, most_made, past_of_board, stopped, with_asleep};
ghost use Rattle.cmwq_board.specs.Lent.{first_lent};
ghost use Rattle.cmwq_board.specs.NewsAfter.{quiet};
ghost use Rattle.cmwq_board.specs.Machine.{Named, StartNamed, bare, step};
ghost use Rattle.cmwq_board.specs.Machine.Move.{Calls, Finishes, Starts};
ghost use Rattle.cmwq_board.specs.Runs.{waiting_runs};
ghost use Rattle.cmwq_waits.specs.HeldUp.{AreWaiting};
ghost use Rattle.cmwq_waits.specs.Refused.{AreApart};

mod begin;
mod items;
mod left;
mod time;
mod waits;

use crate::calls::is_single;
use crate::entering::{Startable, enter, finish_run, has_worker, make, plan_of};
use crate::fault::BoardFault;
use crate::lending::Lending;
use crate::news::{News, QUIET};
use crate::runs::Runs;
use cmwq_core::Full;
use cmwq_dispatch::{Dispatch, Firing, Sleep, Wakes};
use cmwq_model::{Call, CallerId, Entry, ItemId, NoMemory, Number, Reply, Shape, Who, WorkerId};
use cmwq_state::Tail;
use std::alloc::{AllocError, Global};
use std::marker::Model;
use std::mem::replace;

/// What a worker does next.
#[derive(Clone, Copy, Debug)]
pub enum Start {
    /// It runs this item, by the queueing of this number.
    Runs { item: ItemId, number: Number },
    /// There is nothing to start. It rests until it is named.
    Rests,
    /// There will be nothing to start any more. It may go.
    Over,
}

/// What a worker finished.
#[derive(Clone, Copy, Debug)]
pub struct Finish {
    /// The queueing that it ran.
    pub number: Number,
    /// Whether it was sent to the reserve.
    pub retired: bool,
}

/// What became of a wait that is begun.
#[derive(Clone, Copy, Debug)]
pub enum Begun {
    /// Nothing is waited for.
    Ended { reply: Reply },
    /// The wait goes on until its end is done, by the caller that is lent to it.
    Waits { party: CallerId, reply: Reply },
}

/// What became of a wait that is to be ended.
#[derive(Clone, Copy, Debug, PartialEq, Eq)]
pub enum Ended {
    /// It has ended, and its caller may be lent again.
    Done,
    /// It is not ready. What its caller does meanwhile.
    Not(Sleep),
}

/// A hub without threads. Contracts see its history, who sleeps, how many entries were handed out, what the callers do
/// that are lent to waits, and the news.
pub struct Board {
    dispatch: Dispatch,
    tail: Tail<Entry>,
    /// What each of the last callers of the shape does.
    lent: Vec<Lending>,
    /// How many drains are unended.
    drains: u64,
    /// What whoever may still fire has: there is one while any drain is unended.
    firing: Option<Firing>,
    /// Whether a ticket may have been left that is unended. If not, no ticket is looked at.
    left: bool,
    /// What has changed since a shell asked.
    news: News,
    /// Room for the runs that wait.
    runs: Runs,
}

impl Model for Board {
    ghost use Rattle.std.specs.Prelude.{◌≡◌, ◌≤◌, is_some, length, nat_lt, true};
    ghost use Rattle.cmwq_dispatch.specs.Dispatched.{past_now};
    ghost use Rattle.cmwq_board.specs.Boarded.{Boarded, IsBoard, board_of};
    ghost use Rattle.cmwq_board.specs.Lent.{HasLeft, unended_drains};

    ghost Value = { Boarded };

    ghost view = { λ b. board_of b.dispatch b.tail.given b.tail.room b.lent.items b.news };

    ghost invariant = { λ b. (b.tail.all ≡ b.dispatch.history.entries)
        × (b.drains ≡ unended_drains (past_now b.dispatch)) × (is_some b.firing ≡ nat_lt 0 b.drains)
        × IsBoard b.dispatch b.tail.room b.lent.items
        × (HasLeft b.dispatch.history.layout (past_now b.dispatch) b.lent.items → b.left ≡ true)
        × (length b.lent.items ≤ b.runs) };
}

/// How many entries one call makes at most: the end of a drain ends it, fires each item, and wakes the run that waited.
fn most_made(shape: &Shape) -> u32
    ensures { result ≡ most_made shape.now }
{
    u32::from(shape.counts().items) + 2
}

/// A dispatch with no entries, and the room of the shape, of which no caller is lent to runs.
fn new_dispatch(alloc: Global, shape: &Shape) -> Result<Dispatch, NoMemory>
    ensures new { IfOk result
        (λ dispatch. dispatch ≡ is_new shape.now shape.now.room shape.now.callers dispatch.asleep) }
    ensures nobody { IfOk result (λ dispatch. NobodySleeps dispatch.asleep) }
{
    let counts = shape.counts();
    Dispatch::new(alloc, shape, counts.room, CallerId(counts.callers))
}

/// How many entries a board keeps at least.
fn least_kept(shape: &Shape) -> u32
    ensures { result ≡ least_kept shape.now }
{
    2 * (u32::from(shape.counts().items) + 2)
}

/// No entries, of which so many are kept, or as many as two calls may make if that is more: a call's own, and those of
/// a ticket that was left and is ended then.
fn new_tail(alloc: Global, shape: &Shape, kept: u32) -> Result<Tail<Entry>, AllocError>
    ensures { IfOk result
        (λ tail. tail ≡ record { all = []; given = 0; room = max kept (least_kept shape.now) }) }
{
    Tail::new(alloc, kept.max(least_kept(shape)))
}

/// So many callers may be lent, or all if the shape has fewer, and there is room for as many runs that wait.
fn new_lent(alloc: Global, shape: &Shape, lent: u8) -> Result<(Vec<Lending>, Runs), NoMemory>
    ensures lent { IfOk result (λ all. all.0.items ≡ replicate (min lent shape.now.callers) Lending.Free) }
    ensures runs { IfOk result (λ all. all.1 ≡ min lent shape.now.callers) }
{
    let lent = lent.min(shape.counts().callers);
    let free = Vec::from_elem(alloc, Lending::Free, usize::from(lent))?;
    let runs = Runs::new(alloc, lent)?;
    Ok((free, runs))
}

impl Board {
    /// A board with no entries, which keeps so many entries at a time, or as many as two calls may make if that is
    /// more. The last `lent` callers of the shape, or all if it has fewer, are lent to waits, and the others are the
    /// user's own. No later call takes memory; the error says that it ran out.
    pub fn new(alloc: Global, shape: &Shape, kept: u32, lent: u8) -> Result<Board, NoMemory>
        ensures new { IfOk result (λ board. board ≡ is_new_board shape.now kept (min lent shape.now.callers)
            board.dispatch.asleep) }
        ensures nobody { IfOk result (λ board. NobodySleeps board.dispatch.asleep) }
    {
        let tail = new_tail(alloc, shape, kept)?;
        let (lent, runs) = new_lent(alloc, shape, lent)?;
        let dispatch = new_dispatch(alloc, shape)?;
        Ok(Board::of_parts(dispatch, tail, lent, runs))
    }

    /// The board of these parts, in which nobody waits.
    fn of_parts(dispatch: Dispatch, tail: Tail<Entry>, lent: Vec<Lending>, runs: Runs) -> Board
        requires kept { tail.all ≡ dispatch.history.entries }
        requires none { unended_tickets (past_now dispatch) ≡ [] }
        requires board { IsBoard dispatch tail.room lent.items }
        requires room { length lent.items ≤ runs }
        ensures { result ≡ board_of dispatch tail.given tail.room lent.items quiet }
    {
        Board {
            dispatch,
            tail,
            lent,
            drains: 0,
            firing: None,
            left: false,
            news: QUIET,
            runs,
        }
    }

    /// Lets the board go.
    pub fn close(self) {
        let Board {
            mut dispatch,
            tail: _tail,
            lent: _lent,
            drains: _,
            firing,
            left: _,
            news: _,
            runs: _runs,
        } = self;
        if let Some(firing) = firing {
            let mut wakes = Wakes::new();
            dispatch.ends_firing(firing, &mut wakes);
            let _named = wakes.into_named();
        }
        dispatch.end();
    }

    /// What holds of each board. Each run that waits has started and is open, its ticket is unended, and none waits
    /// twice. Nothing runs.
    pub fn stands(&self)
        ensures stands { Stands self.now.dispatch }
        ensures legal { IsLegal (layout_of self.now) (past_of_board self.now) }
        ensures board { IsBoard self.now.dispatch self.now.keeps self.now.lent }
        ensures waiting { AreWaiting (past_of_board self.now) (waiting_runs self.now) }
        ensures apart { AreApart (waiting_runs self.now) }
    {
        self.dispatch.stands();
    }

    /// The first of the callers that are lent.
    fn first_lent(&self) -> u8
        ensures first { result ≡ first_lent (layout_of self.now) self.now.lent }
        ensures few { length self.now.lent ≤ (layout_of self.now).callers }
        ensures small { (layout_of self.now).callers ≤ 255 }
    {
        let callers = self.dispatch.shape().counts().callers;
        callers - self.lent.len() as u8
    }

    /// Whether it is a worker, or a caller of the user's own.
    fn is_own(&self, who: Who) -> bool
        ensures { result ≡ is_own self.now who }
    {
        match who {
            Who::Caller(caller) => caller.0 < self.first_lent(),
            Who::Worker(_) => true,
        }
    }

    /// A call of one entry, by a caller of the user's own or in a run of this worker: queue, delay, modify, cancel,
    /// set_max, freeze and thaw, and of workers sleep, wake and retire. Then the tickets are ended that were left and
    /// are ready now.
    pub fn call(&mut self, who: Who, call: Call, wakes: &mut Wakes) -> Result<Reply, BoardFault>
        ensures core { bare self.new ≡ (step (bare self.old) (Calls who call)).core }
        ensures outcome { result ≡ (step (bare self.old) (Calls who call)).outcome }
        ensures named { Named result who self.old self.new wakes.old wakes.new }
    {
        if !is_single(&call) || !self.is_own(who) || !self.dispatch.shape().fits(who, call) {
            return Err(BoardFault::Refused);
        }
        if self.dispatch.has_failed() {
            return Err(BoardFault::Failed);
        }
        if self.dispatch.is_closed() && matches!(who, Who::Caller(_)) {
            return Err(BoardFault::Closed);
        }
        if self.tail.space() == 0 {
            return Err(BoardFault::Crowded);
        }
        let entered = enter(&mut self.dispatch, &mut self.tail, who, call, wakes);
        match entered {
            Ok(reply) => {
                self.news = self.news.after_reply(reply);
                self.clears(wakes);
                Ok(reply)
            }
            Err(Full) => Err(BoardFault::Full),
        }
    }

    /// The worker starts the next queueing of its pool. If it would start nothing it rests from now on, in the same
    /// call, until it is named; or it may go.
    pub fn start(&mut self, worker: WorkerId, wakes: &mut Wakes) -> Result<Start, BoardFault>
        ensures core { bare self.new ≡ (step (bare self.old) (Starts worker)).core }
        ensures outcome { result ≡ (step (bare self.old) (Starts worker)).outcome }
        ensures named { StartNamed result worker self.old self.new wakes.old wakes.new }
    {
        if !has_worker(self.dispatch.shape(), worker) {
            return Err(BoardFault::Refused);
        }
        if self.dispatch.has_failed() {
            return Ok(Start::Over);
        }
        if self.dispatch.execution().state().has_run(worker) {
            return Err(BoardFault::Misuse);
        }
        let Some(startable) = plan_of(&self.dispatch, worker) else {
            return match self.dispatch.idles(worker) {
                Sleep::Sleeps => Ok(Start::Rests),
                Sleep::Over => Ok(Start::Over),
                Sleep::LooksAgain => unreachable!(),
            };
        };
        if self.tail.space() == 0 {
            return Err(BoardFault::Crowded);
        }
        let Startable { plan, item, number } = startable;
        make(&mut self.dispatch, &mut self.tail, &plan, wakes);
        Ok(Start::Runs { item, number })
    }

    /// The worker's run ends. The worker is sent to the reserve if it would be. Then the tickets are ended that were
    /// left and are ready now.
    pub fn finish(&mut self, worker: WorkerId, wakes: &mut Wakes) -> Result<Finish, BoardFault>
        ensures core { bare self.new ≡ (step (bare self.old) (Finishes worker)).core }
        ensures outcome { result ≡ (step (bare self.old) (Finishes worker)).outcome }
        ensures named { Named result (who.Worker worker) self.old self.new wakes.old wakes.new }
    {
        if !has_worker(self.dispatch.shape(), worker) {
            return Err(BoardFault::Refused);
        }
        if self.dispatch.has_failed() {
            return Err(BoardFault::Failed);
        }
        if !self.dispatch.execution().state().runs_awake(worker) {
            return Err(BoardFault::Misuse);
        }
        if self.tail.space() < 2 {
            return Err(BoardFault::Crowded);
        }
        let finished = finish_run(&mut self.dispatch, &mut self.tail, worker, wakes);
        match finished {
            Ok(finish) => {
                self.clears(wakes);
                Ok(finish)
            }
            Err(Full) => Err(BoardFault::Full),
        }
    }

    /// Callers begin nothing from now on, and waits of runs go on. It is over once nothing active is open and no drain
    /// may still fire. Everybody is named.
    pub fn stop(&mut self, wakes: &mut Wakes)
        ensures new { self.new ≡ with_asleep (stopped self.old) self.new.dispatch.asleep }
        ensures nobody { NobodySleeps self.new.dispatch.asleep }
        ensures all { NamesAll wakes.new }
        ensures more { NamesMore wakes.old wakes.new }
    {
        self.dispatch.close(wakes);
    }

    /// Nobody makes an entry from now on. Everybody is named.
    pub fn fail(&mut self, wakes: &mut Wakes)
        ensures new { self.new ≡ with_asleep (failed self.old) self.new.dispatch.asleep }
        ensures nobody { NobodySleeps self.new.dispatch.asleep }
        ensures all { NamesAll wakes.new }
        ensures more { NamesMore wakes.old wakes.new }
    {
        self.dispatch.fail(wakes);
    }

    /// What has changed since this was called last. From then on that is news no more.
    pub fn news(&mut self) -> News
        ensures told { result ≡ self.old.news }
        ensures new { self.new ≡ asked self.old }
    {
        replace(&mut self.news, QUIET)
    }

    /// Whether nobody will have anything to do any more.
    pub fn is_over(&self) -> bool
        ensures { result ≡ is_over self.now.dispatch }
    {
        self.dispatch.is_over()
    }

    /// How many entries there are, those that were handed out too.
    pub fn len(&self) -> u64
        ensures { result ≡ length self.now.dispatch.history.entries }
    {
        self.tail.len()
    }

    /// How many entries may be kept.
    pub fn keeps(&self) -> u32
        ensures { result ≡ self.now.keeps }
    {
        self.tail.room()
    }

    /// Hands out the entries that are kept, the oldest first: `out` has them then, and the board keeps its entries in
    /// what `out` was. Nothing is copied, and no memory is taken. It refuses a buffer that is not empty, or that cannot
    /// hold as many as may be kept.
    pub fn hand_out(&mut self, out: &mut Vec<Entry>) -> Result<(), BoardFault>
        ensures handed { IfOk result (λ _. out.new.items ≡ kept_in self.old) }
        ensures large { IfOk result (λ _. self.old.keeps ≤ vec_capacity out.new) }
        ensures new { IfOk result (λ _. self.new ≡ handed_out self.old) }
        ensures takes { out.old.items ≡ [] → self.old.keeps ≤ vec_capacity out.old → IsTrue (is_ok result) }
        ensures refused { IfErr result (λ fault. fault ≡ BoardFault.Refused) }
        ensures same { OnErr result ((self.new ≡ self.old) × (out.new ≡ out.old)) }
    {
        if !out.is_empty() || out.capacity() < self.tail.room() as usize {
            return Err(BoardFault::Refused);
        }
        self.tail.give(out);
        Ok(())
    }
}
