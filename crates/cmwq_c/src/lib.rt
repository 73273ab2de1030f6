//! The Book for C: a runtime of one thread behind a handle, by numbers or by lines of text. And a hub without threads,
//! `cmwq_board`, behind a handle too.
#![tactic(auto)]

ghost use Rattle.std.specs.Prelude.{◌≡◌, ◌≢◌, ◌⊎◌, ◌<◌, ◌+◌, ℕ, true, false, List, length, count_by, Some, None, Err};
ghost use Rattle.std.specs.Prelude.{IfSome, nat_lt};
ghost use Rattle.cmwq_model.specs.declared.verdict.Illegal.{Illegal};
ghost use Rattle.cmwq_model.specs.Prelude.{is_layout, still_open, is_active};
ghost use Rattle.cmwq_model.specs.Calls as calls;
ghost use Rattle.cmwq_model.specs.Legal as legal;
ghost use Rattle.cmwq_text.specs.CallText.{call_read};
ghost use Rattle.cmwq_text.specs.EntryText.{entry_text};
ghost use Rattle.cmwq_text.specs.HistoryText.{head_text};
ghost use Rattle.cmwq_core.specs.History.{next_entry, past_in, is_ready};
ghost use Rattle.cmwq_core.specs.Lasting.{lasting_at_first, with_made, with_none_kept, lasting_entry};
ghost use Rattle.cmwq_c.specs.Numbers.{shape_of, who_of_numbers, asked_of, reply_numbers, entry_numbers};
ghost use Rattle.cmwq_base.specs.declared.refusal.Refusal.{Refusal};
ghost use Rattle.cmwq_base.specs.Kinds.{history_file_of};
ghost use Rattle.cmwq_c.specs.Verdicts.{Judges};
ghost use Rattle.cmwq_c.specs.Statuses.{call_status, line_status, entry_status, entry_line_status, found_status};
ghost use Rattle.cmwq_c.specs.Statuses.{serial_status, if_live, IsTextWritten};

mod apart;
mod board;
mod board_lines;
mod board_session;
mod handle;
mod head;
mod held;
mod judge;
mod laws;
mod lines;
mod numbers;
mod resume;
mod session;
mod status;
mod taken;
mod told;
mod wakes;

use crate::handle::Handle;
use crate::numbers::{
    CallNumbers, EntryNumbers, QueueNumbers, ReplyNumbers, ShapeNumbers, WhoNumbers,
};
use crate::status::{CLOSED, DONE, REFUSED};
use crate::taken::{book_of, entry_of, foretell, line_of, line_step, number_step, serial_of};
use cmwq_model::ItemId;
pub use laws::{calls_read_again, fields_lie_as_told, replies_stand_apart, wakes_are_told};
use std::alloc::Global;
use std::mem;

/// What cmwq.h has as CMWQ_VERSION.
const VERSION: u32 = 1_000_000;

/// Opens a book with no entries. A book that the handle had is closed. 0 done, 1 a shape outside the limits, 4 no
/// memory; then the handle is as it was.
#[unsafe(no_mangle)]
pub extern "C" fn cmwq_open(
    alloc: Global,
    book: &mut Handle,
    shape: &ShapeNumbers,
    queues: &[QueueNumbers],
) -> u32
    ensures live { result ≡ 0 → book.new.live ≡ true }
    ensures book { result ≡ 0 → book.new.held.book ≡ lasting_at_first (shape_of shape.now queues.now) shape.now.keep }
    ensures inside { result ≡ 0 → is_layout (shape_of shape.now queues.now) ≡ true }
    ensures status { (result ≡ 0) ⊎ ((result ≡ 1) × (is_layout (shape_of shape.now queues.now) ≡ false))
        ⊎ (result ≡ 4) }
    ensures kept { result ≢ 0 → book.new ≡ book.old }
{
    match book_of(alloc, shape, queues) {
        Ok(made) => {
            cmwq_close(alloc, book);
            *book = Handle::of(made);
            DONE
        }
        Err(status) => status,
    }
}

/// Gives up a book, if there is one.
#[unsafe(no_mangle)]
pub extern "C" fn cmwq_close(alloc: Global, book: &mut Handle)
    ensures { book.new.live ≡ false }
{
    mem::replace(book, Handle::none()).into_box(alloc);
}

/// Makes the call of these numbers, and says its reply. 0 done, 1 no call or one outside the shape, 2 closed, 3 no
/// room, 6 no entry more can be kept.
#[unsafe(no_mangle)]
pub extern "C" fn cmwq_step(
    alloc: Global,
    book: &mut Handle,
    call: &CallNumbers,
    reply: &mut ReplyNumbers,
) -> u32
    ensures status { result ≡ if_live book.old.live (call_status book.old.held.book (asked_of call.now)) }
    ensures live { book.new.live ≡ book.old.live }
    ensures made { result ≡ 0
        → IfSome (asked_of call.now)
        (λ a. book.new.held.book ≡ with_made book.old.held.book (next_entry book.old.held.book.history a.0 a.1)) }
    ensures reply { result ≡ 0
        → IfSome (asked_of call.now)
        (λ a. reply.new ≡ reply_numbers (next_entry book.old.held.book.history a.0 a.1).reply) }
    ensures kept { result ≢ 0 → reply.new ≡ reply.old }
    ensures same { result ≢ 0 → book.old.live ≡ true → book.new.held.book ≡ book.old.held.book }
{
    match mem::replace(book, Handle::none()).into_box(alloc) {
        Some(mut made) => {
            let answer = number_step(made.as_mut(), call, reply);
            *book = Handle::of(made);
            answer
        }
        None => CLOSED,
    }
}

/// Makes the call of a line, and writes the line of its entry, with its line feed. 0 done, 1 no line of a call or a
/// call outside the shape, 2 closed, 3 no room, 5 the buffer doesn't hold the line, 6 no entry more can be kept.
#[unsafe(no_mangle)]
pub extern "C" fn cmwq_step_line(
    alloc: Global,
    book: &mut Handle,
    line: &[u8],
    out: &mut [u8],
    written: &mut usize,
) -> u32
    ensures status { result
        ≡ if_live book.old.live (line_status book.old.held.book (call_read line.now) (length out.old)) }
    ensures live { book.new.live ≡ book.old.live }
    ensures made { result ≡ 0
        → IfSome (call_read line.now)
        (λ a. book.new.held.book ≡ with_made book.old.held.book (next_entry book.old.held.book.history a.0 a.1)) }
    ensures text { result ≡ 0
        → IfSome (call_read line.now)
        (λ a. IsTextWritten (entry_text (next_entry book.old.held.book.history a.0 a.1)) written.new out.old out.new) }
    ensures kept { result ≢ 0 → (out.new ≡ out.old) × (written.new ≡ written.old) }
    ensures same { result ≢ 0 → book.old.live ≡ true → book.new.held.book ≡ book.old.held.book }
{
    match mem::replace(book, Handle::none()).into_box(alloc) {
        Some(mut made) => {
            let answer = line_step(made.as_mut(), line, out, written);
            *book = Handle::of(made);
            answer
        }
        None => CLOSED,
    }
}

/// Says what a step of this call would be answered, and makes nothing. The statuses are those of the step.
#[unsafe(no_mangle)]
pub extern "C" fn cmwq_would(
    alloc: Global,
    book: &mut Handle,
    call: &CallNumbers,
    reply: &mut ReplyNumbers,
) -> u32
    ensures status { result ≡ if_live book.old.live (call_status book.old.held.book (asked_of call.now)) }
    ensures live { book.new.live ≡ book.old.live }
    ensures same { book.old.live ≡ true → book.new.held.book ≡ book.old.held.book }
    ensures reply { result ≡ 0
        → IfSome (asked_of call.now)
        (λ a. reply.new ≡ reply_numbers (next_entry book.old.held.book.history a.0 a.1).reply) }
    ensures kept { result ≢ 0 → reply.new ≡ reply.old }
{
    match mem::replace(book, Handle::none()).into_box(alloc) {
        Some(made) => {
            let answer = foretell(made.as_ref(), call, reply);
            *book = Handle::of(made);
            answer
        }
        None => CLOSED,
    }
}

/// Whether the ticket with this number stands and waits for nothing, so that its end would be answered done. False
/// where the handle is closed.
#[unsafe(no_mangle)]
pub extern "C" fn cmwq_ready(alloc: Global, book: &mut Handle, ticket: u64) -> bool
    ensures live { book.new.live ≡ book.old.live }
    ensures same { book.old.live ≡ true → book.new.held.book ≡ book.old.held.book }
    ensures ready { book.old.live ≡ true → result ≡ is_ready (past_in book.old.held.book.history) ticket }
    ensures closed { book.old.live ≡ false → result ≡ false }
{
    match mem::replace(book, Handle::none()).into_box(alloc) {
        Some(made) => {
            let answer = made.as_ref().book().execution().ready(ticket);
            *book = Handle::of(made);
            answer
        }
        None => false,
    }
}

/// Says the bits of an item (`work_busy`): 1 if it is pending, plus 2 if it runs. 0 done, 1 no such item, 2 closed.
#[unsafe(no_mangle)]
pub extern "C" fn cmwq_bits(alloc: Global, book: &mut Handle, item: u16, bits: &mut u8) -> u32
    ensures status { result
        ≡ if_live book.old.live (found_status (nat_lt item book.old.held.book.history.layout.items)) }
    ensures live { book.new.live ≡ book.old.live }
    ensures same { book.old.live ≡ true → book.new.held.book ≡ book.old.held.book }
    ensures bits { result ≡ 0 → bits.new ≡ legal.bits (past_in book.old.held.book.history) item }
    ensures kept { result ≢ 0 → bits.new ≡ bits.old }
{
    match mem::replace(book, Handle::none()).into_box(alloc) {
        Some(made) => {
            let found = made.as_ref().bits(ItemId(item));
            *book = Handle::of(made);
            match found {
                Some(these) => {
                    *bits = these;
                    DONE
                }
                None => REFUSED,
            }
        }
        None => CLOSED,
    }
}

/// Says how many entries a caller or worker has, which is the serial of its next. 0 done, 1 no such caller or worker, 2
/// closed.
#[unsafe(no_mangle)]
pub extern "C" fn cmwq_serial(
    alloc: Global,
    book: &mut Handle,
    who: &WhoNumbers,
    serial: &mut u64,
) -> u32
    ensures status { result
        ≡ if_live book.old.live (serial_status book.old.held.book.history.layout (who_of_numbers who.now)) }
    ensures live { book.new.live ≡ book.old.live }
    ensures same { book.old.live ≡ true → book.new.held.book ≡ book.old.held.book }
    ensures serial { result ≡ 0
        → IfSome (who_of_numbers who.now) (λ w. serial.new ≡ calls.serial_of (past_in book.old.held.book.history) w) }
    ensures kept { result ≢ 0 → serial.new ≡ serial.old }
{
    match mem::replace(book, Handle::none()).into_box(alloc) {
        Some(made) => {
            let answer = serial_of(made.as_ref(), who, serial);
            *book = Handle::of(made);
            answer
        }
        None => CLOSED,
    }
}

/// How many entries there are. 0 where the handle is closed, as at the counts below.
#[unsafe(no_mangle)]
pub extern "C" fn cmwq_len(alloc: Global, book: &mut Handle) -> u64
    ensures live { book.new.live ≡ book.old.live }
    ensures same { book.old.live ≡ true → book.new.held.book ≡ book.old.held.book }
    ensures count { book.old.live ≡ true → result ≡ length book.old.held.book.history.entries }
    ensures closed { book.old.live ≡ false → result ≡ 0 }
{
    match mem::replace(book, Handle::none()).into_box(alloc) {
        Some(made) => {
            let answer = made.as_ref().book().len();
            *book = Handle::of(made);
            answer
        }
        None => 0,
    }
}

/// How many entries more there is room for, what is owed among them.
#[unsafe(no_mangle)]
pub extern "C" fn cmwq_room_left(alloc: Global, book: &mut Handle) -> u64
    ensures live { book.new.live ≡ book.old.live }
    ensures same { book.old.live ≡ true → book.new.held.book ≡ book.old.held.book }
    ensures count { book.old.live ≡ true → result + length book.old.held.book.history.entries
        ≡ book.old.held.book.history.room }
    ensures closed { book.old.live ≡ false → result ≡ 0 }
{
    match mem::replace(book, Handle::none()).into_box(alloc) {
        Some(made) => {
            let answer = made.as_ref().room_left();
            *book = Handle::of(made);
            answer
        }
        None => 0,
    }
}

/// How many entries were forgotten, which is the number of the first that is kept.
#[unsafe(no_mangle)]
pub extern "C" fn cmwq_first(alloc: Global, book: &mut Handle) -> u64
    ensures live { book.new.live ≡ book.old.live }
    ensures same { book.old.live ≡ true → book.new.held.book ≡ book.old.held.book }
    ensures count { book.old.live ≡ true → result ≡ book.old.held.book.given }
    ensures closed { book.old.live ≡ false → result ≡ 0 }
{
    match mem::replace(book, Handle::none()).into_box(alloc) {
        Some(made) => {
            let answer = made.as_ref().book().first();
            *book = Handle::of(made);
            answer
        }
        None => 0,
    }
}

/// How many queueings are open.
#[unsafe(no_mangle)]
pub extern "C" fn cmwq_open_count(alloc: Global, book: &mut Handle) -> u32
    ensures live { book.new.live ≡ book.old.live }
    ensures same { book.old.live ≡ true → book.new.held.book ≡ book.old.held.book }
    ensures count { book.old.live ≡ true → result ≡ length (still_open (past_in book.old.held.book.history)) }
    ensures closed { book.old.live ≡ false → result ≡ 0 }
{
    match mem::replace(book, Handle::none()).into_box(alloc) {
        Some(made) => {
            let answer = made.as_ref().book().execution().state().open_count();
            *book = Handle::of(made);
            answer
        }
        None => 0,
    }
}

/// How many of them are active.
#[unsafe(no_mangle)]
pub extern "C" fn cmwq_active_count(alloc: Global, book: &mut Handle) -> u32
    ensures live { book.new.live ≡ book.old.live }
    ensures same { book.old.live ≡ true → book.new.held.book ≡ book.old.held.book }
    ensures count { book.old.live ≡ true
        → result ≡ count_by (is_active book.old.held.book.history.layout (past_in book.old.held.book.history))
        (still_open (past_in book.old.held.book.history)) }
    ensures closed { book.old.live ≡ false → result ≡ 0 }
{
    match mem::replace(book, Handle::none()).into_box(alloc) {
        Some(made) => {
            let answer = made.as_ref().book().execution().state().active_count();
            *book = Handle::of(made);
            answer
        }
        None => 0,
    }
}

/// Writes the entry with this number as numbers. 0 done, 1 it isn't kept, 2 closed.
#[unsafe(no_mangle)]
pub extern "C" fn cmwq_entry(
    alloc: Global,
    book: &mut Handle,
    number: u64,
    entry: &mut EntryNumbers,
) -> u32
    ensures status { result ≡ if_live book.old.live (entry_status (lasting_entry book.old.held.book number)) }
    ensures live { book.new.live ≡ book.old.live }
    ensures same { book.old.live ≡ true → book.new.held.book ≡ book.old.held.book }
    ensures entry { result ≡ 0 → IfSome (lasting_entry book.old.held.book number) (λ e. entry.new ≡ entry_numbers e) }
    ensures kept { result ≢ 0 → entry.new ≡ entry.old }
{
    match mem::replace(book, Handle::none()).into_box(alloc) {
        Some(made) => {
            let answer = entry_of(made.as_ref(), number, entry);
            *book = Handle::of(made);
            answer
        }
        None => CLOSED,
    }
}

/// Writes the line of the entry with this number. 0 done, 1 it isn't kept, 2 closed, 5 the buffer doesn't hold the
/// line.
#[unsafe(no_mangle)]
pub extern "C" fn cmwq_entry_line(
    alloc: Global,
    book: &mut Handle,
    number: u64,
    out: &mut [u8],
    written: &mut usize,
) -> u32
    ensures status { result ≡ if_live book.old.live
        (entry_line_status (lasting_entry book.old.held.book number) (length out.old)) }
    ensures live { book.new.live ≡ book.old.live }
    ensures same { book.old.live ≡ true → book.new.held.book ≡ book.old.held.book }
    ensures text { result ≡ 0
        → IfSome (lasting_entry book.old.held.book number)
        (λ e. IsTextWritten (entry_text e) written.new out.old out.new) }
    ensures kept { result ≢ 0 → (out.new ≡ out.old) × (written.new ≡ written.old) }
{
    match mem::replace(book, Handle::none()).into_box(alloc) {
        Some(made) => {
            let answer = line_of(made.as_ref(), number, out, written);
            *book = Handle::of(made);
            answer
        }
        None => CLOSED,
    }
}

/// Forgets all entries that are kept, so that as many more can be. 0 done, 2 closed.
#[unsafe(no_mangle)]
pub extern "C" fn cmwq_forget(alloc: Global, book: &mut Handle) -> u32
    ensures status { result ≡ if_live book.old.live 0 }
    ensures live { book.new.live ≡ book.old.live }
    ensures forgotten { result ≡ 0 → book.new.held.book ≡ with_none_kept book.old.held.book }
{
    match mem::replace(book, Handle::none()).into_box(alloc) {
        Some(mut made) => {
            made.as_mut().forget();
            *book = Handle::of(made);
            DONE
        }
        None => CLOSED,
    }
}

/// Judges a whole history file, of any format, as `check` does, and writes the line of its verdict. 0 legal, 1 no
/// history, 4 no memory, 5 the buffer doesn't hold the line, 7 not legal.
#[unsafe(no_mangle)]
pub extern "C" fn cmwq_check(alloc: Global, text: &[u8], out: &mut [u8], written: &mut usize) -> u32
    ensures legal { result ≡ 0 → (line : List ℕ) × Judges text.now None line
        × IsTextWritten line written.new out.old out.new }
    ensures illegal { result ≡ 7 → (line : List ℕ) × ((i : Illegal) × Judges text.now (Some i) line)
        × IsTextWritten line written.new out.old out.new }
    ensures refused { result ≡ 1 → (e : Refusal) × (history_file_of text.now ≡ Err e) }
    ensures kept { result ≢ 0 → result ≢ 7 → (out.new ≡ out.old) × (written.new ≡ written.old) }
{
    judge::judge(alloc, text, out, written)
}

/// Writes the lines that begin a history of this shape, of format 3. 0 done, 1 a shape outside the limits, 4 no memory,
/// 5 the buffer doesn't hold them.
#[unsafe(no_mangle)]
pub extern "C" fn cmwq_head(
    alloc: Global,
    shape: &ShapeNumbers,
    queues: &[QueueNumbers],
    out: &mut [u8],
    written: &mut usize,
) -> u32
    ensures text { result ≡ 0
        → IsTextWritten (head_text 3 (shape_of shape.now queues.now)) written.new out.old out.new }
    ensures inside { result ≡ 0 → is_layout (shape_of shape.now queues.now) ≡ true }
    ensures status { (result ≡ 0) ⊎ ((result ≡ 1) × (is_layout (shape_of shape.now queues.now) ≡ false))
        ⊎ (result ≡ 4) ⊎ ((result ≡ 5) × (length out.old < length (head_text 3 (shape_of shape.now queues.now)))) }
    ensures kept { result ≢ 0 → (out.new ≡ out.old) × (written.new ≡ written.old) }
{
    head::head(alloc, shape, queues, out, written)
}

/// The version of the library: major * 1000000 + minor * 1000 + patch.
#[unsafe(no_mangle)]
pub extern "C" fn cmwq_version() -> u32
    ensures { result ≡ 1000000 }
{
    VERSION
}
