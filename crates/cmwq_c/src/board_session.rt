//! A board that C has, and what its calls do by their numbers.
ghost use Rattle.std.specs.Prelude.{◌≡◌, ◌≢◌, ◌⊎◌, ◌≤◌, ◌<◌, true, false, IfOk, IfErr, length};
ghost use Rattle.cmwq_model.specs.Calls as model;
ghost use Rattle.cmwq_model.specs.Prelude.{is_layout};
ghost use Rattle.cmwq_dispatch.specs.Dispatched.{is_over};
ghost use Rattle.cmwq_board.specs.Boarded.{asked, handed_out, kept_in, layout_of, past_of_board};
ghost use Rattle.cmwq_board.specs.Items.{item_state};
ghost use Rattle.cmwq_board.specs.declared.board.Begun.{Begun};
ghost use Rattle.cmwq_board.specs.declared.board.Ended.{Ended};
ghost use Rattle.cmwq_board.specs.declared.board.Start.{Start};
ghost use Rattle.cmwq_c.specs.BoardCalls.{AdvancesTo, BeginsAs, Calls, Ends, EndsAs, Fails};
ghost use Rattle.cmwq_c.specs.BoardCalls.{IsDueNumber, IsNewBoard, LeavesBy, StartsAs, Stops};
ghost use Rattle.cmwq_c.specs.BoardStatuses.{advance_status, begin_done, begin_status, begun_number, begun_reply};
ghost use Rattle.cmwq_c.specs.BoardStatuses.{end_done, end_status, ended_number, finish_status, hand_out_status};
ghost use Rattle.cmwq_c.specs.BoardStatuses.{item_after};
ghost use Rattle.cmwq_c.specs.BoardStatuses.{item_status, leave_status, news_number, number_after, party_after, run_of};
ghost use Rattle.cmwq_c.specs.BoardStatuses.{single_status, start_done, start_number, start_status};
ghost use Rattle.cmwq_c.specs.Items.{item_numbers};
ghost use Rattle.cmwq_c.specs.Lined.{no_lines};
ghost use Rattle.cmwq_c.specs.Numbers.{asked_of, reply_numbers, shape_of, worker_meant};

use crate::lines::Lines;
use crate::numbers::{
    CallNumbers, ItemNumbers, QueueNumbers, ReplyNumbers, ShapeNumbers, WakesNumbers, WhoNumbers,
    queues_of,
};
use crate::status::{
    DONE, LOOK_AGAIN, NO_MEMORY, OVER, REFUSED, RESTS, WAITS, fault_number, wait_fault_number,
};
use crate::told;
use crate::wakes::{forget, tell};
use cmwq_board::{Begun, Board, Ended, News, Start};
use cmwq_dispatch::{Sleep, Wakes};
use cmwq_model::{CallerId, ItemId, NoMemory, Shape, Who, WorkerId};
use std::alloc::Global;
use std::marker::Model;

/// A board, which is closed where it is let go.
pub struct BoardSession {
    board: Board,
}

impl Model for BoardSession {
    ghost use Rattle.cmwq_board.specs.Boarded.{Boarded};

    ghost Value = { Boarded };

    ghost view = { λ s. s.board };
}

impl Drop for BoardSession {
    fn drop(self) {
        let BoardSession { board } = self;
        board.close();
    }
}

/// The run that waits, where a worker calls.
fn run_of(who: Who) -> Option<WorkerId>
    ensures { result ≡ run_of who }
{
    match who {
        Who::Caller(_) => None,
        Who::Worker(worker) => Some(worker),
    }
}

/// A board of this shape with no entries, whose last `lent` callers are lent to waits, or the status that says why
/// there is none.
pub fn board_of(
    alloc: Global,
    shape: &ShapeNumbers,
    queues: &[QueueNumbers],
    lent: u8,
) -> Result<Box<BoardSession, Global>, u32>
    ensures made { IfOk result (λ b. IsNewBoard (shape_of shape.now queues.now) shape.now.keep lent b.value) }
    ensures inside { IfOk result (λ _. is_layout (shape_of shape.now queues.now) ≡ true) }
    ensures few { IfOk result (λ _. lent ≤ shape.now.callers) }
    ensures status { IfErr result (λ s. ((s ≡ 1) × ((is_layout (shape_of shape.now queues.now) ≡ false)
        ⊎ (shape.now.callers < lent))) ⊎ (s ≡ 4)) }
{
    if shape.callers < lent {
        return Err(REFUSED);
    }
    let Ok(settings) = queues_of(alloc, queues) else {
        return Err(NO_MEMORY);
    };
    let Some(inside) = Shape::new(shape.counts(), settings) else {
        return Err(REFUSED);
    };
    let Ok(board) = Board::new(alloc, &inside, shape.keep, lent) else {
        return Err(NO_MEMORY);
    };
    match Box::new(alloc, BoardSession { board }) {
        Ok(made) => Ok(made),
        Err(_) => Err(NO_MEMORY),
    }
}

/// The status of a start, and what is started.
fn started(start: Start, item: &mut u16, number: &mut u64) -> u32
    ensures status { result ≡ start_number start }
    ensures item { item.new ≡ item_after start item.old }
    ensures number { number.new ≡ number_after start number.old }
{
    match start {
        Start::Runs {
            item: begun,
            number: queueing,
        } => {
            *item = begun.0;
            *number = queueing;
            DONE
        }
        Start::Rests => RESTS,
        Start::Over => OVER,
    }
}

/// The status of a wait that has begun, its reply, and who waits.
fn began(begun: Begun, party: &mut u8, reply: &mut ReplyNumbers) -> u32
    ensures status { result ≡ begun_number begun }
    ensures party { party.new ≡ party_after begun party.old }
    ensures reply { reply.new ≡ reply_numbers (begun_reply begun) }
{
    match begun {
        Begun::Ended { reply: made } => {
            *reply = told::reply_numbers(made);
            DONE
        }
        Begun::Waits {
            party: lent,
            reply: made,
        } => {
            *party = lent.0;
            *reply = told::reply_numbers(made);
            WAITS
        }
    }
}

/// The status of a wait that was to be ended.
fn ended_number(ended: Ended) -> u32
    ensures { result ≡ ended_number ended }
{
    match ended {
        Ended::Done => DONE,
        Ended::Not(Sleep::Sleeps) => WAITS,
        Ended::Not(Sleep::Over) => OVER,
        Ended::Not(Sleep::LooksAgain) => LOOK_AGAIN,
    }
}

/// A ticket that was left has ended.
const LEFT_ENDED: u32 = 1;

/// A drain has ended, or an item was delayed.
const DUE_EARLIER: u32 = 2;

/// What has changed, as bits.
fn news_number(news: News) -> u32
    ensures { result ≡ news_number news }
{
    let left_ended = if news.left_ended { LEFT_ENDED } else { 0 };
    let due_earlier = if news.due_earlier { DUE_EARLIER } else { 0 };
    left_ended + due_earlier
}

impl BoardSession {
    /// Makes the one entry of this call.
    pub fn call(
        &mut self,
        call: &CallNumbers,
        reply: &mut ReplyNumbers,
        told: &mut WakesNumbers,
    ) -> u32
        ensures status { result ≡ single_status self.old (asked_of call.now) }
        ensures calls { result ≡ 0 → Calls (asked_of call.now) self.old self.new reply.new told.new }
        ensures kept { result ≢ 0 → (self.new ≡ self.old) × (reply.new ≡ reply.old) × (told.new ≡ told.old) }
    {
        let Some((who, call)) = call.asked() else {
            return REFUSED;
        };
        let mut wakes = Wakes::new();
        let called = self.board.call(who, call, &mut wakes);
        match called {
            Ok(made) => {
                *reply = told::reply_numbers(made);
                tell(wakes, told);
                DONE
            }
            Err(fault) => {
                forget(wakes);
                fault_number(fault)
            }
        }
    }

    /// The worker starts something, or rests, or is over.
    #[tactic(auto, using(crate::proofs::Faults::start_fault_stays, crate::proofs::Faults::start_is_done))]
    pub fn start(
        &mut self,
        worker: &WhoNumbers,
        item: &mut u16,
        number: &mut u64,
        told: &mut WakesNumbers,
    ) -> u32
        ensures status { start_done result ≡ start_status self.old (worker_meant worker.now) }
        ensures starts { start_done result ≡ 0 → (answer : Start) × (result ≡ start_number answer)
            × (item.new ≡ item_after answer item.old) × (number.new ≡ number_after answer number.old)
            × StartsAs (worker_meant worker.now) answer self.old self.new told.new }
        ensures kept { start_done result ≢ 0 → (self.new ≡ self.old) × (item.new ≡ item.old)
            × (number.new ≡ number.old) × (told.new ≡ told.old) }
    {
        let Some(worker) = worker.worker_meant() else {
            return REFUSED;
        };
        let mut wakes = Wakes::new();
        let begun = self.board.start(worker, &mut wakes);
        match begun {
            Ok(answer) => {
                tell(wakes, told);
                started(answer, item, number)
            }
            Err(fault) => {
                forget(wakes);
                fault_number(fault)
            }
        }
    }

    /// The worker's run ends.
    pub fn finish(&mut self, worker: &WhoNumbers, told: &mut WakesNumbers) -> u32
        ensures status { result ≡ finish_status self.old (worker_meant worker.now) }
        ensures ends { result ≡ 0 → Ends (worker_meant worker.now) self.old self.new told.new }
        ensures kept { result ≢ 0 → (self.new ≡ self.old) × (told.new ≡ told.old) }
    {
        let Some(worker) = worker.worker_meant() else {
            return REFUSED;
        };
        let mut wakes = Wakes::new();
        let finished = self.board.finish(worker, &mut wakes);
        match finished {
            Ok(_finish) => {
                tell(wakes, told);
                DONE
            }
            Err(fault) => {
                forget(wakes);
                fault_number(fault)
            }
        }
    }

    /// A wait begins.
    #[tactic(auto, using(crate::proofs::Faults::begin_fault_stays, crate::proofs::Faults::begin_is_done))]
    pub fn begin(
        &mut self,
        call: &CallNumbers,
        party: &mut u8,
        reply: &mut ReplyNumbers,
        told: &mut WakesNumbers,
    ) -> u32
        ensures status { begin_done result ≡ begin_status self.old (asked_of call.now) }
        ensures begins { begin_done result ≡ 0 → (answer : Begun) × (result ≡ begun_number answer)
            × (party.new ≡ party_after answer party.old) × (reply.new ≡ reply_numbers (begun_reply answer))
            × BeginsAs (asked_of call.now) answer self.old self.new told.new }
        ensures kept { begin_done result ≢ 0 → (self.new ≡ self.old) × (party.new ≡ party.old)
            × (reply.new ≡ reply.old) × (told.new ≡ told.old) }
    {
        let Some((who, call)) = call.asked() else {
            return REFUSED;
        };
        let mut wakes = Wakes::new();
        let begun = self.board.begin(run_of(who), call, &mut wakes);
        match begun {
            Ok(answer) => {
                tell(wakes, told);
                began(answer, party, reply)
            }
            Err(fault) => {
                forget(wakes);
                wait_fault_number(fault)
            }
        }
    }

    /// The wait of this party ends, or goes on.
    #[tactic(auto, using(crate::proofs::Faults::end_fault_stays, crate::proofs::Faults::end_is_done))]
    pub fn end(&mut self, party: u8, told: &mut WakesNumbers) -> u32
        ensures status { end_done result ≡ end_status self.old party }
        ensures ends { end_done result ≡ 0 → (answer : Ended) × (result ≡ ended_number answer)
            × EndsAs party answer self.old self.new told.new }
        ensures kept { end_done result ≢ 0 → (self.new ≡ self.old) × (told.new ≡ told.old) }
    {
        let mut wakes = Wakes::new();
        let ended = self.board.end(CallerId(party), &mut wakes);
        match ended {
            Ok(answer) => {
                tell(wakes, told);
                ended_number(answer)
            }
            Err(fault) => {
                forget(wakes);
                fault_number(fault)
            }
        }
    }

    /// Nobody waits by this party any more.
    pub fn leave(&mut self, party: u8, told: &mut WakesNumbers) -> u32
        ensures status { result ≡ leave_status self.old party }
        ensures leaves { result ≡ 0 → LeavesBy party self.old self.new told.new }
        ensures kept { result ≢ 0 → (self.new ≡ self.old) × (told.new ≡ told.old) }
    {
        let mut wakes = Wakes::new();
        let left = self.board.leaves(CallerId(party), &mut wakes);
        match left {
            Ok(()) => {
                tell(wakes, told);
                DONE
            }
            Err(fault) => {
                forget(wakes);
                fault_number(fault)
            }
        }
    }

    /// So many ticks go by.
    pub fn advance(&mut self, caller: u8, ticks: u32, now: &mut u64, told: &mut WakesNumbers) -> u32
        ensures status { result ≡ advance_status self.old caller ticks }
        ensures advances { result ≡ 0 → AdvancesTo caller ticks self.old self.new now.new told.new }
        ensures kept { result ≢ 0 → (self.new ≡ self.old) × (now.new ≡ now.old) × (told.new ≡ told.old) }
    {
        let mut wakes = Wakes::new();
        let advanced = self.board.advance(CallerId(caller), ticks, &mut wakes);
        match advanced {
            Ok(tick) => {
                *now = tick;
                tell(wakes, told);
                DONE
            }
            Err(fault) => {
                forget(wakes);
                fault_number(fault)
            }
        }
    }

    /// The tick that it is.
    pub fn time(&self) -> u64
        ensures { result ≡ model.now (past_of_board self.now) }
    {
        self.board.time()
    }

    /// The least tick at which a timer may fire, or the greatest number.
    pub fn due(&self) -> u64
        ensures { IsDueNumber (past_of_board self.now) (layout_of self.now).items result }
    {
        match self.board.due() {
            Some(tick) => tick,
            None => u64::MAX,
        }
    }

    /// What an item does.
    pub fn item(&self, item: u16, state: &mut ItemNumbers) -> u32
        ensures status { result ≡ item_status self.now item }
        ensures state { result ≡ 0 → state.new ≡ item_numbers (item_state (past_of_board self.now) item) }
        ensures kept { result ≢ 0 → state.new ≡ state.old }
    {
        match self.board.item(ItemId(item)) {
            Some(found) => {
                *state = told::item_numbers(&found);
                DONE
            }
            None => REFUSED,
        }
    }

    /// Callers begin nothing from now on.
    pub fn stop(&mut self, told: &mut WakesNumbers)
        ensures { Stops self.old self.new told.new }
    {
        let mut wakes = Wakes::new();
        self.board.stop(&mut wakes);
        tell(wakes, told);
    }

    /// Nobody makes an entry from now on.
    pub fn fail(&mut self, told: &mut WakesNumbers)
        ensures { Fails self.old self.new told.new }
    {
        let mut wakes = Wakes::new();
        self.board.fail(&mut wakes);
        tell(wakes, told);
    }

    /// Whether nobody will have anything to do any more.
    pub fn is_over(&self) -> bool
        ensures { result ≡ is_over self.now.dispatch }
    {
        self.board.is_over()
    }

    /// What has changed since this was called last.
    pub fn news(&mut self) -> u32
        ensures told { result ≡ news_number self.old.news }
        ensures new { self.new ≡ asked self.old }
    {
        news_number(self.board.news())
    }

    /// How many entries there are.
    pub fn len(&self) -> u64
        ensures { result ≡ length self.now.dispatch.history.entries }
    {
        self.board.len()
    }

    /// Lines that can take what the board keeps. The error says that memory ran out.
    pub fn lines(&self, alloc: Global) -> Result<Lines, NoMemory>
        ensures { IfOk result (λ lines. lines ≡ no_lines self.now.keeps) }
    {
        Lines::new(alloc, self.board.keeps())
    }

    /// The lines take all that the board keeps.
    pub fn hand_out(&mut self, lines: &mut Lines) -> u32
        ensures status { result ≡ hand_out_status self.old lines.old }
        ensures board { result ≡ 0 → self.new ≡ handed_out self.old }
        ensures left { result ≡ 0 → lines.new.left ≡ kept_in self.old }
        ensures holds { result ≡ 0 → self.old.keeps ≤ lines.new.holds }
        ensures kept { result ≢ 0 → (self.new ≡ self.old) × (lines.new ≡ lines.old) }
    {
        lines.take(&mut self.board)
    }
}
