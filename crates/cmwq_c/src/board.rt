//! A hub without threads for C: a board behind a handle.
ghost use Rattle.std.specs.Prelude.{◌≡◌, ◌≢◌, ◌⊎◌, ◌≤◌, ◌<◌, true, false, length, None};
ghost use Rattle.cmwq_model.specs.Calls as model;
ghost use Rattle.cmwq_model.specs.Prelude.{is_layout};
ghost use Rattle.cmwq_dispatch.specs.Dispatched.{is_over};
ghost use Rattle.cmwq_board.specs.Boarded.{asked, layout_of, past_of_board};
ghost use Rattle.cmwq_board.specs.Items.{item_state};
ghost use Rattle.cmwq_board.specs.declared.board.Begun.{Begun};
ghost use Rattle.cmwq_board.specs.declared.board.Ended.{Ended};
ghost use Rattle.cmwq_board.specs.declared.board.Start.{Start};
ghost use Rattle.cmwq_c.specs.BoardCalls.{AdvancesTo, BeginsAs, Calls, Ends, EndsAs, Fails, IsDueNumber, IsNewBoard};
ghost use Rattle.cmwq_c.specs.BoardCalls.{LeavesBy, StartsAs, Stops, due_number};
ghost use Rattle.cmwq_c.specs.BoardStatuses.{advance_status, begin_done, begin_status, begun_number, begun_reply};
ghost use Rattle.cmwq_c.specs.BoardStatuses.{end_done, end_status, ended_number, finish_status, item_after};
ghost use Rattle.cmwq_c.specs.BoardStatuses.{item_status};
ghost use Rattle.cmwq_c.specs.BoardStatuses.{leave_status, news_number, number_after, party_after, single_status};
ghost use Rattle.cmwq_c.specs.BoardStatuses.{start_done, start_number, start_status};
ghost use Rattle.cmwq_c.specs.Items.{item_numbers};
ghost use Rattle.cmwq_c.specs.Numbers.{asked_of, reply_numbers, shape_of, worker_meant};
ghost use Rattle.cmwq_c.specs.Statuses.{if_live};

use crate::board_session::board_of;
use crate::handle::BoardHandle;
use crate::numbers::{
    CallNumbers, ItemNumbers, QueueNumbers, ReplyNumbers, ShapeNumbers, WakesNumbers, WhoNumbers,
};
use crate::status::{CLOSED, DONE};
use std::alloc::Global;
use std::mem;

/// Opens a board with no entries, whose last `lent` callers are lent to waits. A board that the handle had is closed. 0
/// done, 1 a shape outside the limits or with fewer callers, 4 no memory; then the handle is as it was.
#[unsafe(no_mangle)]
pub extern "C" fn cmwq_board_open(
    alloc: Global,
    board: &mut BoardHandle,
    shape: &ShapeNumbers,
    queues: &[QueueNumbers],
    lent: u8,
) -> u32
    ensures live { result ≡ 0 → board.new.live ≡ true }
    ensures board { result ≡ 0
        → IsNewBoard (shape_of shape.now queues.now) shape.now.keep lent board.new.held.board }
    ensures inside { result ≡ 0 → is_layout (shape_of shape.now queues.now) ≡ true }
    ensures few { result ≡ 0 → lent ≤ shape.now.callers }
    ensures status { (result ≡ 0) ⊎ ((result ≡ 1) × ((is_layout (shape_of shape.now queues.now) ≡ false)
        ⊎ (shape.now.callers < lent))) ⊎ (result ≡ 4) }
    ensures kept { result ≢ 0 → board.new ≡ board.old }
{
    match board_of(alloc, shape, queues, lent) {
        Ok(made) => {
            cmwq_board_close(alloc, board);
            *board = BoardHandle::of(made);
            DONE
        }
        Err(status) => status,
    }
}

/// Gives up a board, if there is one.
#[unsafe(no_mangle)]
pub extern "C" fn cmwq_board_close(alloc: Global, board: &mut BoardHandle)
    ensures { board.new.live ≡ false }
{
    mem::replace(board, BoardHandle::none()).into_box(alloc);
}

/// Makes one entry: queue, delay, modify, cancel, set_max, freeze or thaw, and by a worker also sleep, wake or retire.
/// 0 done, 1 no such call, 2 closed, 3 no room, 6 crowded, 8 stopped, 9 failed.
#[unsafe(no_mangle)]
pub extern "C" fn cmwq_board_call(
    alloc: Global,
    board: &mut BoardHandle,
    call: &CallNumbers,
    reply: &mut ReplyNumbers,
    wakes: &mut WakesNumbers,
) -> u32
    ensures status { result ≡ if_live board.old.live (single_status board.old.held.board (asked_of call.now)) }
    ensures live { board.new.live ≡ board.old.live }
    ensures calls { result ≡ 0
        → Calls (asked_of call.now) board.old.held.board board.new.held.board reply.new wakes.new }
    ensures kept { result ≢ 0 → (reply.new ≡ reply.old) × (wakes.new ≡ wakes.old) }
    ensures same { result ≢ 0 → board.old.live ≡ true → board.new.held.board ≡ board.old.held.board }
{
    match mem::replace(board, BoardHandle::none()).into_box(alloc) {
        Some(mut made) => {
            let answer = made.as_mut().call(call, reply, wakes);
            *board = BoardHandle::of(made);
            answer
        }
        None => CLOSED,
    }
}

/// A worker starts the next queueing of its pool. 0 it runs the item, by the queueing of the number; 15 there is
/// nothing to start, and it rests until it is named; 16 it may go. 1 no such worker, 2 closed, 6 crowded, 10 it has a
/// run.
#[unsafe(no_mangle)]
pub extern "C" fn cmwq_board_start(
    alloc: Global,
    board: &mut BoardHandle,
    worker: &WhoNumbers,
    item: &mut u16,
    number: &mut u64,
    wakes: &mut WakesNumbers,
) -> u32
    ensures status { start_done result
        ≡ if_live board.old.live (start_status board.old.held.board (worker_meant worker.now)) }
    ensures live { board.new.live ≡ board.old.live }
    ensures starts { start_done result ≡ 0 → (answer : Start) × (result ≡ start_number answer)
        × (item.new ≡ item_after answer item.old) × (number.new ≡ number_after answer number.old)
        × StartsAs (worker_meant worker.now) answer board.old.held.board board.new.held.board wakes.new }
    ensures kept { start_done result ≢ 0
        → (item.new ≡ item.old) × (number.new ≡ number.old) × (wakes.new ≡ wakes.old) }
    ensures same { start_done result ≢ 0 → board.old.live ≡ true → board.new.held.board ≡ board.old.held.board }
{
    match mem::replace(board, BoardHandle::none()).into_box(alloc) {
        Some(mut made) => {
            let answer = made.as_mut().start(worker, item, number, wakes);
            *board = BoardHandle::of(made);
            answer
        }
        None => CLOSED,
    }
}

/// The worker's run ends, and the worker is sent to the reserve if it should be. 0 done, 1 no such worker, 2 closed, 3
/// no room, 6 crowded, 9 failed, 10 it has no run that is awake.
#[unsafe(no_mangle)]
pub extern "C" fn cmwq_board_finish(
    alloc: Global,
    board: &mut BoardHandle,
    worker: &WhoNumbers,
    wakes: &mut WakesNumbers,
) -> u32
    ensures status { result ≡ if_live board.old.live (finish_status board.old.held.board (worker_meant worker.now)) }
    ensures live { board.new.live ≡ board.old.live }
    ensures ends { result ≡ 0 → Ends (worker_meant worker.now) board.old.held.board board.new.held.board wakes.new }
    ensures kept { result ≢ 0 → wakes.new ≡ wakes.old }
    ensures same { result ≢ 0 → board.old.live ≡ true → board.new.held.board ≡ board.old.held.board }
{
    match mem::replace(board, BoardHandle::none()).into_box(alloc) {
        Some(mut made) => {
            let answer = made.as_mut().finish(worker, wakes);
            *board = BoardHandle::of(made);
            answer
        }
        None => CLOSED,
    }
}

/// A wait begins, by a lent caller: of the worker's run, if a worker calls, and else of nobody's run. 0 it has ended,
/// 14 it goes on, by this party. 1 no such call, 2 closed, 3 no room, 6 crowded, 8 stopped, 9 failed, 10 the worker has
/// no run, 11 the run would wait for itself, 12 a deadlock, 13 no caller is left.
#[unsafe(no_mangle)]
pub extern "C" fn cmwq_board_begin(
    alloc: Global,
    board: &mut BoardHandle,
    call: &CallNumbers,
    party: &mut u8,
    reply: &mut ReplyNumbers,
    wakes: &mut WakesNumbers,
) -> u32
    ensures status { begin_done result
        ≡ if_live board.old.live (begin_status board.old.held.board (asked_of call.now)) }
    ensures live { board.new.live ≡ board.old.live }
    ensures begins { begin_done result ≡ 0 → (answer : Begun) × (result ≡ begun_number answer)
        × (party.new ≡ party_after answer party.old) × (reply.new ≡ reply_numbers (begun_reply answer))
        × BeginsAs (asked_of call.now) answer board.old.held.board board.new.held.board wakes.new }
    ensures kept { begin_done result ≢ 0
        → (party.new ≡ party.old) × (reply.new ≡ reply.old) × (wakes.new ≡ wakes.old) }
    ensures same { begin_done result ≢ 0 → board.old.live ≡ true → board.new.held.board ≡ board.old.held.board }
{
    match mem::replace(board, BoardHandle::none()).into_box(alloc) {
        Some(mut made) => {
            let answer = made.as_mut().begin(call, party, reply, wakes);
            *board = BoardHandle::of(made);
            answer
        }
        None => CLOSED,
    }
}

/// The wait of this party ends if it is ready. 0 it has ended, 14 the party sleeps until it is named, 16 it never ends,
/// 17 the same call is to be made again. 1 no lent caller, 2 closed, 6 crowded, 9 failed, 10 nobody waits by it.
#[unsafe(no_mangle)]
pub extern "C" fn cmwq_board_end(
    alloc: Global,
    board: &mut BoardHandle,
    party: u8,
    wakes: &mut WakesNumbers,
) -> u32
    ensures status { end_done result ≡ if_live board.old.live (end_status board.old.held.board party) }
    ensures live { board.new.live ≡ board.old.live }
    ensures ends { end_done result ≡ 0 → (answer : Ended) × (result ≡ ended_number answer)
        × EndsAs party answer board.old.held.board board.new.held.board wakes.new }
    ensures kept { end_done result ≢ 0 → wakes.new ≡ wakes.old }
    ensures same { end_done result ≢ 0 → board.old.live ≡ true → board.new.held.board ≡ board.old.held.board }
{
    match mem::replace(board, BoardHandle::none()).into_box(alloc) {
        Some(mut made) => {
            let answer = made.as_mut().end(party, wakes);
            *board = BoardHandle::of(made);
            answer
        }
        None => CLOSED,
    }
}

/// Nobody waits by this party any more. Its ticket is ended by a later call once it is ready, and nobody is named then.
/// A run that went to sleep for the wait sleeps until its worker wakes it by a call. 0 done, 1 no lent caller, 2
/// closed, 9 failed, 10 nobody waits by it.
#[unsafe(no_mangle)]
pub extern "C" fn cmwq_board_leave(
    alloc: Global,
    board: &mut BoardHandle,
    party: u8,
    wakes: &mut WakesNumbers,
) -> u32
    ensures status { result ≡ if_live board.old.live (leave_status board.old.held.board party) }
    ensures live { board.new.live ≡ board.old.live }
    ensures leaves { result ≡ 0 → LeavesBy party board.old.held.board board.new.held.board wakes.new }
    ensures kept { result ≢ 0 → wakes.new ≡ wakes.old }
    ensures same { result ≢ 0 → board.old.live ≡ true → board.new.held.board ≡ board.old.held.board }
{
    match mem::replace(board, BoardHandle::none()).into_box(alloc) {
        Some(mut made) => {
            let answer = made.as_mut().leave(party, wakes);
            *board = BoardHandle::of(made);
            answer
        }
        None => CLOSED,
    }
}

/// So many ticks go by, and what is due is fired, by a caller that is not lent. 0 done, and it is this tick. 1 no such
/// caller, 2 closed, 3 no room, 6 crowded, 8 stopped, 9 failed.
#[unsafe(no_mangle)]
pub extern "C" fn cmwq_board_advance(
    alloc: Global,
    board: &mut BoardHandle,
    caller: u8,
    ticks: u32,
    now: &mut u64,
    wakes: &mut WakesNumbers,
) -> u32
    ensures status { result ≡ if_live board.old.live (advance_status board.old.held.board caller ticks) }
    ensures live { board.new.live ≡ board.old.live }
    ensures advances { result ≡ 0
        → AdvancesTo caller ticks board.old.held.board board.new.held.board now.new wakes.new }
    ensures kept { result ≢ 0 → (now.new ≡ now.old) × (wakes.new ≡ wakes.old) }
    ensures same { result ≢ 0 → board.old.live ≡ true → board.new.held.board ≡ board.old.held.board }
{
    match mem::replace(board, BoardHandle::none()).into_box(alloc) {
        Some(mut made) => {
            let answer = made.as_mut().advance(caller, ticks, now, wakes);
            *board = BoardHandle::of(made);
            answer
        }
        None => CLOSED,
    }
}

/// The tick that it is. 0 where the handle is closed.
#[unsafe(no_mangle)]
pub extern "C" fn cmwq_board_time(alloc: Global, board: &mut BoardHandle) -> u64
    ensures live { board.new.live ≡ board.old.live }
    ensures same { board.old.live ≡ true → board.new.held.board ≡ board.old.held.board }
    ensures time { board.old.live ≡ true → result ≡ model.now (past_of_board board.old.held.board) }
    ensures closed { board.old.live ≡ false → result ≡ 0 }
{
    match mem::replace(board, BoardHandle::none()).into_box(alloc) {
        Some(made) => {
            let answer = made.as_ref().time();
            *board = BoardHandle::of(made);
            answer
        }
        None => 0,
    }
}

/// The least tick at which a timer may fire. The greatest number where there is none, or the handle is closed.
#[unsafe(no_mangle)]
pub extern "C" fn cmwq_board_due(alloc: Global, board: &mut BoardHandle) -> u64
    ensures live { board.new.live ≡ board.old.live }
    ensures same { board.old.live ≡ true → board.new.held.board ≡ board.old.held.board }
    ensures due { board.old.live ≡ true
        → IsDueNumber (past_of_board board.old.held.board) (layout_of board.old.held.board).items result }
    ensures closed { board.old.live ≡ false → result ≡ due_number None }
{
    match mem::replace(board, BoardHandle::none()).into_box(alloc) {
        Some(made) => {
            let answer = made.as_ref().due();
            *board = BoardHandle::of(made);
            answer
        }
        None => u64::MAX,
    }
}

/// Says what an item does. 0 done, 1 no such item, 2 closed.
#[unsafe(no_mangle)]
pub extern "C" fn cmwq_board_item(
    alloc: Global,
    board: &mut BoardHandle,
    item: u16,
    state: &mut ItemNumbers,
) -> u32
    ensures status { result ≡ if_live board.old.live (item_status board.old.held.board item) }
    ensures live { board.new.live ≡ board.old.live }
    ensures same { board.old.live ≡ true → board.new.held.board ≡ board.old.held.board }
    ensures state { result ≡ 0 → state.new ≡ item_numbers (item_state (past_of_board board.old.held.board) item) }
    ensures kept { result ≢ 0 → state.new ≡ state.old }
{
    match mem::replace(board, BoardHandle::none()).into_box(alloc) {
        Some(made) => {
            let answer = made.as_ref().item(item, state);
            *board = BoardHandle::of(made);
            answer
        }
        None => CLOSED,
    }
}

/// Callers begin nothing from now on, and everybody is named. 0 done, 2 closed.
#[unsafe(no_mangle)]
pub extern "C" fn cmwq_board_stop(
    alloc: Global,
    board: &mut BoardHandle,
    wakes: &mut WakesNumbers,
) -> u32
    ensures status { result ≡ if_live board.old.live 0 }
    ensures live { board.new.live ≡ board.old.live }
    ensures stops { result ≡ 0 → Stops board.old.held.board board.new.held.board wakes.new }
    ensures kept { result ≢ 0 → wakes.new ≡ wakes.old }
{
    match mem::replace(board, BoardHandle::none()).into_box(alloc) {
        Some(mut made) => {
            made.as_mut().stop(wakes);
            *board = BoardHandle::of(made);
            DONE
        }
        None => CLOSED,
    }
}

/// Nobody makes an entry from now on, and everybody is named. 0 done, 2 closed.
#[unsafe(no_mangle)]
pub extern "C" fn cmwq_board_fail(
    alloc: Global,
    board: &mut BoardHandle,
    wakes: &mut WakesNumbers,
) -> u32
    ensures status { result ≡ if_live board.old.live 0 }
    ensures live { board.new.live ≡ board.old.live }
    ensures fails { result ≡ 0 → Fails board.old.held.board board.new.held.board wakes.new }
    ensures kept { result ≢ 0 → wakes.new ≡ wakes.old }
{
    match mem::replace(board, BoardHandle::none()).into_box(alloc) {
        Some(mut made) => {
            made.as_mut().fail(wakes);
            *board = BoardHandle::of(made);
            DONE
        }
        None => CLOSED,
    }
}

/// Whether nobody will have anything to do any more. True where the handle is closed.
#[unsafe(no_mangle)]
pub extern "C" fn cmwq_board_is_over(alloc: Global, board: &mut BoardHandle) -> bool
    ensures live { board.new.live ≡ board.old.live }
    ensures same { board.old.live ≡ true → board.new.held.board ≡ board.old.held.board }
    ensures over { board.old.live ≡ true → result ≡ is_over board.old.held.board.dispatch }
    ensures closed { board.old.live ≡ false → result ≡ true }
{
    match mem::replace(board, BoardHandle::none()).into_box(alloc) {
        Some(made) => {
            let answer = made.as_ref().is_over();
            *board = BoardHandle::of(made);
            answer
        }
        None => true,
    }
}

/// What has changed since this was called last, of which no call told: 1 a ticket that was left has ended, plus 2 a
/// drain has ended, or an item was delayed. 0 where the handle is closed.
#[unsafe(no_mangle)]
pub extern "C" fn cmwq_board_news(alloc: Global, board: &mut BoardHandle) -> u32
    ensures live { board.new.live ≡ board.old.live }
    ensures asked { board.old.live ≡ true → board.new.held.board ≡ asked board.old.held.board }
    ensures news { board.old.live ≡ true → result ≡ news_number board.old.held.board.news }
    ensures closed { board.old.live ≡ false → result ≡ 0 }
{
    match mem::replace(board, BoardHandle::none()).into_box(alloc) {
        Some(mut made) => {
            let answer = made.as_mut().news();
            *board = BoardHandle::of(made);
            answer
        }
        None => 0,
    }
}

/// How many entries there are, with those that were handed out. 0 where the handle is closed.
#[unsafe(no_mangle)]
pub extern "C" fn cmwq_board_len(alloc: Global, board: &mut BoardHandle) -> u64
    ensures live { board.new.live ≡ board.old.live }
    ensures same { board.old.live ≡ true → board.new.held.board ≡ board.old.held.board }
    ensures count { board.old.live ≡ true → result ≡ length board.old.held.board.dispatch.history.entries }
    ensures closed { board.old.live ≡ false → result ≡ 0 }
{
    match mem::replace(board, BoardHandle::none()).into_box(alloc) {
        Some(made) => {
            let answer = made.as_ref().len();
            *board = BoardHandle::of(made);
            answer
        }
        None => 0,
    }
}
