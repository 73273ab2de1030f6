//! The entries of a board for C, by lines of text.
ghost use Rattle.std.specs.Prelude.{◌≡◌, ◌≢◌, ◌⊎◌, ◌≤◌, [], true, false, length};
ghost use Rattle.cmwq_board.specs.Boarded.{handed_out, kept_in};
ghost use Rattle.cmwq_c.specs.BoardStatuses.{hand_out_status, write_status};
ghost use Rattle.cmwq_c.specs.Lined.{WritesLines, no_lines, with_left};
ghost use Rattle.cmwq_c.specs.Statuses.{if_live};

use crate::board_session::BoardSession;
use crate::handle::{BoardHandle, LinesHandle};
use crate::lines::Lines;
use crate::status::{CLOSED, DONE, NO_MEMORY};
use std::alloc::Global;
use std::mem;

/// Opens lines that can take what the board keeps. Lines that the handle had are closed. 0 done, 2 the board is closed,
/// 4 no memory; then the handle is as it was.
#[unsafe(no_mangle)]
pub extern "C" fn cmwq_lines_open(
    alloc: Global,
    lines: &mut LinesHandle,
    board: &mut BoardHandle,
) -> u32
    ensures live { result ≡ 0 → lines.new.live ≡ true }
    ensures lines { result ≡ 0 → lines.new.held.lines ≡ no_lines board.old.held.board.keeps }
    ensures board { board.new.live ≡ board.old.live }
    ensures same { board.old.live ≡ true → board.new.held.board ≡ board.old.held.board }
    ensures open { board.old.live ≡ true → (result ≡ 0) ⊎ (result ≡ 4) }
    ensures closed { board.old.live ≡ false → result ≡ 2 }
    ensures kept { result ≢ 0 → lines.new ≡ lines.old }
{
    match mem::replace(board, BoardHandle::none()).into_box(alloc) {
        Some(made) => {
            let opened = made.as_ref().lines(alloc);
            *board = BoardHandle::of(made);
            match opened {
                Ok(none) => keep_lines(alloc, lines, none),
                Err(_) => NO_MEMORY,
            }
        }
        None => CLOSED,
    }
}

/// Puts these lines into the handle.
fn keep_lines(alloc: Global, lines: &mut LinesHandle, new: Lines) -> u32
    ensures live { result ≡ 0 → lines.new.live ≡ true }
    ensures lines { result ≡ 0 → lines.new.held.lines ≡ new }
    ensures status { (result ≡ 0) ⊎ (result ≡ 4) }
    ensures kept { result ≢ 0 → lines.new ≡ lines.old }
{
    match Box::new(alloc, new) {
        Ok(made) => {
            cmwq_lines_close(alloc, lines);
            *lines = LinesHandle::of(made);
            DONE
        }
        Err(_) => NO_MEMORY,
    }
}

/// Gives up lines, if there are any.
#[unsafe(no_mangle)]
pub extern "C" fn cmwq_lines_close(alloc: Global, lines: &mut LinesHandle)
    ensures { lines.new.live ≡ false }
{
    mem::replace(lines, LinesHandle::none()).into_box(alloc);
}

/// The lines take all that the board keeps. Nothing is copied. 0 done, 1 lines are left, or they are too small for this
/// board, 2 either is closed.
#[unsafe(no_mangle)]
pub extern "C" fn cmwq_board_hand_out(
    alloc: Global,
    board: &mut BoardHandle,
    lines: &mut LinesHandle,
) -> u32
    ensures status { result ≡ if_live board.old.live
        (if_live lines.old.live (hand_out_status board.old.held.board lines.old.held.lines)) }
    ensures live { (board.new.live ≡ board.old.live) × (lines.new.live ≡ lines.old.live) }
    ensures board { result ≡ 0 → board.new.held.board ≡ handed_out board.old.held.board }
    ensures left { result ≡ 0 → lines.new.held.lines.left ≡ kept_in board.old.held.board }
    ensures holds { result ≡ 0 → board.old.held.board.keeps ≤ lines.new.held.lines.holds }
    ensures same_board { result ≢ 0 → board.old.live ≡ true → board.new.held.board ≡ board.old.held.board }
    ensures same_lines { result ≢ 0 → lines.old.live ≡ true → lines.new.held.lines ≡ lines.old.held.lines }
{
    match mem::replace(board, BoardHandle::none()).into_box(alloc) {
        Some(mut made) => {
            let answer = hand_out(alloc, made.as_mut(), lines);
            *board = BoardHandle::of(made);
            answer
        }
        None => CLOSED,
    }
}

/// The lines of the handle take all that the board keeps, if there are lines.
fn hand_out(alloc: Global, board: &mut BoardSession, lines: &mut LinesHandle) -> u32
    ensures status { result ≡ if_live lines.old.live (hand_out_status board.old lines.old.held.lines) }
    ensures live { lines.new.live ≡ lines.old.live }
    ensures board { result ≡ 0 → board.new ≡ handed_out board.old }
    ensures left { result ≡ 0 → lines.new.held.lines.left ≡ kept_in board.old }
    ensures holds { result ≡ 0 → board.old.keeps ≤ lines.new.held.lines.holds }
    ensures same_board { result ≢ 0 → board.new ≡ board.old }
    ensures same_lines { result ≢ 0 → lines.old.live ≡ true → lines.new.held.lines ≡ lines.old.held.lines }
{
    match mem::replace(lines, LinesHandle::none()).into_box(alloc) {
        Some(mut made) => {
            let answer = board.hand_out(made.as_mut());
            *lines = LinesHandle::of(made);
            answer
        }
        None => CLOSED,
    }
}

/// Writes as many whole lines as the buffer holds. 0 done, and no byte where none are left; 2 closed, 5 the buffer
/// doesn't hold the first.
#[unsafe(no_mangle)]
pub extern "C" fn cmwq_lines_write(
    alloc: Global,
    lines: &mut LinesHandle,
    out: &mut [u8],
    written: &mut usize,
) -> u32
    ensures status { result ≡ if_live lines.old.live (write_status lines.old.held.lines.left (length out.old)) }
    ensures live { lines.new.live ≡ lines.old.live }
    ensures lines { result ≡ 0
        → WritesLines lines.old.held.lines lines.new.held.lines written.new out.old out.new }
    ensures kept { result ≢ 0 → (out.new ≡ out.old) × (written.new ≡ written.old) }
    ensures same { result ≢ 0 → lines.old.live ≡ true → lines.new.held.lines ≡ lines.old.held.lines }
{
    match mem::replace(lines, LinesHandle::none()).into_box(alloc) {
        Some(mut made) => {
            let answer = made.as_mut().write(out, written);
            *lines = LinesHandle::of(made);
            answer
        }
        None => CLOSED,
    }
}

/// Forgets what is left. 0 done, 2 closed.
#[unsafe(no_mangle)]
pub extern "C" fn cmwq_lines_forget(alloc: Global, lines: &mut LinesHandle) -> u32
    ensures status { result ≡ if_live lines.old.live 0 }
    ensures live { lines.new.live ≡ lines.old.live }
    ensures forgotten { result ≡ 0 → lines.new.held.lines ≡ with_left lines.old.held.lines [] }
{
    match mem::replace(lines, LinesHandle::none()).into_box(alloc) {
        Some(mut made) => {
            made.as_mut().forget();
            *lines = LinesHandle::of(made);
            DONE
        }
        None => CLOSED,
    }
}
