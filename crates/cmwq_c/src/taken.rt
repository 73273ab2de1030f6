//! What the calls of C do, on a book.
ghost use Rattle.std.specs.Prelude.{◌≡◌, ◌≢◌, ◌⊎◌, ◌≤◌, true, false, length, IfSome, IfNone, IfOk, IfErr, None, Some};
ghost use Rattle.std.specs.Prelude.{◌<◌};
ghost use Rattle.cmwq_model.specs.Prelude.{is_layout};
ghost use Rattle.cmwq_model.specs.Calls as calls;
ghost use Rattle.cmwq_text.specs.CallText.{call_read};
ghost use Rattle.cmwq_text.specs.EntryText.{entry_text};
ghost use Rattle.cmwq_core.specs.History.{next_entry, past_in};
ghost use Rattle.cmwq_core.specs.Plans.{IsPlan};
ghost use Rattle.cmwq_core.specs.Lasting.{lasting_at_first, with_made, lasting_entry, has_space};
ghost use Rattle.cmwq_c.specs.Numbers.{shape_of, who_of_numbers, asked_of, reply_numbers, entry_numbers};
ghost use Rattle.cmwq_c.specs.Statuses.{call_status, line_status, space_status, entry_status, entry_line_status};
ghost use Rattle.cmwq_c.specs.Statuses.{serial_status, IsTextWritten};

use crate::numbers::{
    CallNumbers, EntryNumbers, QueueNumbers, ReplyNumbers, ShapeNumbers, WhoNumbers, queues_of,
};
use crate::session::Session;
use crate::status::{DONE, NO_MEMORY, REFUSED, SHORT, status_of};
use crate::told;
use cmwq_core::Plan;
use cmwq_model::{Number, Shape};
use cmwq_text::{entry_line, read_call};
use std::alloc::Global;

/// A book of this shape with no entries, or the status that says why there is none.
pub fn book_of(
    alloc: Global,
    shape: &ShapeNumbers,
    queues: &[QueueNumbers],
) -> Result<Box<Session, Global>, u32>
    ensures made { IfOk result (λ b. b.value ≡ lasting_at_first (shape_of shape.now queues.now) shape.now.keep) }
    ensures inside { IfOk result (λ b. is_layout (shape_of shape.now queues.now) ≡ true) }
    ensures status { IfErr result (λ s. ((s ≡ 1) × (is_layout (shape_of shape.now queues.now) ≡ false)) ⊎ (s ≡ 4)) }
{
    let Ok(settings) = queues_of(alloc, queues) else {
        return Err(NO_MEMORY);
    };
    let Some(inside) = Shape::new(shape.counts(), settings) else {
        return Err(REFUSED);
    };
    let Ok(session) = Session::new(alloc, inside, shape.keep) else {
        return Err(NO_MEMORY);
    };
    match Box::new(alloc, session) {
        Ok(made) => Ok(made),
        Err(_) => Err(NO_MEMORY),
    }
}

/// Makes the call of these numbers.
pub fn number_step(session: &mut Session, call: &CallNumbers, reply: &mut ReplyNumbers) -> u32
    ensures status { result ≡ call_status session.old (asked_of call.now) }
    ensures made { result ≡ 0
        → IfSome (asked_of call.now)
        (λ a. session.new ≡ with_made session.old (next_entry session.old.history a.0 a.1)) }
    ensures reply { result ≡ 0
        → IfSome (asked_of call.now) (λ a. reply.new ≡ reply_numbers (next_entry session.old.history a.0 a.1).reply) }
    ensures kept { result ≢ 0 → (session.new ≡ session.old) × (reply.new ≡ reply.old) }
{
    let Some((who, call)) = call.asked() else {
        return REFUSED;
    };
    match session.step(who, call) {
        Ok(entry) => {
            *reply = told::reply_numbers(entry.reply);
            DONE
        }
        Err(refusal) => status_of(refusal),
    }
}

/// Says what the call of these numbers would be answered.
pub fn foretell(session: &Session, call: &CallNumbers, reply: &mut ReplyNumbers) -> u32
    ensures status { result ≡ call_status session.now (asked_of call.now) }
    ensures reply { result ≡ 0
        → IfSome (asked_of call.now) (λ a. reply.new ≡ reply_numbers (next_entry session.now.history a.0 a.1).reply) }
    ensures kept { result ≢ 0 → reply.new ≡ reply.old }
{
    let Some((who, call)) = call.asked() else {
        return REFUSED;
    };
    match session.plan(who, call) {
        Ok(plan) => {
            *reply = told::reply_numbers(plan.mark.entry.reply);
            DONE
        }
        Err(refusal) => status_of(refusal),
    }
}

/// Puts a text at the front of a buffer, if that holds it.
pub fn put(text: &[u8], out: &mut [u8]) -> Option<usize>
    ensures written { IfSome result (λ n. IsTextWritten text.now n out.old out.new) }
    ensures fits { IfSome result (λ n. length text.now ≤ length out.old) }
    ensures short { IfNone result (length out.old < length text.now) }
    ensures kept { IfNone result (out.new ≡ out.old) }
{
    let n = text.len();
    if out.len() < n {
        return None;
    }
    out[..n].copy_from_slice(text);
    Some(n)
}

/// Makes the call of this line, and writes the line of its entry.
pub fn line_step(session: &mut Session, line: &[u8], out: &mut [u8], written: &mut usize) -> u32
    ensures status { result ≡ line_status session.old (call_read line.now) (length out.old) }
    ensures made { result ≡ 0
        → IfSome (call_read line.now)
        (λ a. session.new ≡ with_made session.old (next_entry session.old.history a.0 a.1)) }
    ensures text { result ≡ 0
        → IfSome (call_read line.now)
        (λ a. IsTextWritten (entry_text (next_entry session.old.history a.0 a.1)) written.new out.old out.new) }
    ensures kept { result ≢ 0 → (session.new ≡ session.old) × (out.new ≡ out.old) × (written.new ≡ written.old) }
{
    let Some((who, call)) = read_call(line) else {
        return REFUSED;
    };
    match session.plan(who, call) {
        Ok(plan) => planned_step(session, &plan, out, written),
        Err(refusal) => status_of(refusal),
    }
}

/// Makes what was planned, if its line can be written.
fn planned_step(session: &mut Session, plan: &Plan, out: &mut [u8], written: &mut usize) -> u32
    requires plan { (who : _) × (call : _) × IsPlan session.old.history who call plan.now }
    requires space { has_space session.old ≡ true }
    ensures status { result ≡ space_status (length out.old) (entry_text plan.now.mark.entry) }
    ensures made { result ≡ 0 → session.new ≡ with_made session.old plan.now.mark.entry }
    ensures text { result ≡ 0 → IsTextWritten (entry_text plan.now.mark.entry) written.new out.old out.new }
    ensures kept { result ≢ 0 → (session.new ≡ session.old) × (out.new ≡ out.old) × (written.new ≡ written.old) }
{
    match put(entry_line(&plan.mark.entry).as_bytes(), out) {
        Some(n) => {
            *written = n;
            session.commit(plan);
            DONE
        }
        None => SHORT,
    }
}

/// Writes the entry with this number as numbers.
pub fn entry_of(session: &Session, number: Number, entry: &mut EntryNumbers) -> u32
    ensures status { result ≡ entry_status (lasting_entry session.now number) }
    ensures entry { result ≡ 0 → IfSome (lasting_entry session.now number) (λ e. entry.new ≡ entry_numbers e) }
    ensures kept { result ≢ 0 → entry.new ≡ entry.old }
{
    match session.book().entry(number) {
        Some(found) => {
            *entry = told::entry_numbers(&found);
            DONE
        }
        None => REFUSED,
    }
}

/// Writes the line of the entry with this number.
pub fn line_of(session: &Session, number: Number, out: &mut [u8], written: &mut usize) -> u32
    ensures status { result ≡ entry_line_status (lasting_entry session.now number) (length out.old) }
    ensures text { result ≡ 0
        → IfSome (lasting_entry session.now number) (λ e. IsTextWritten (entry_text e) written.new out.old out.new) }
    ensures kept { result ≢ 0 → (out.new ≡ out.old) × (written.new ≡ written.old) }
{
    let Some(entry) = session.book().entry(number) else {
        return REFUSED;
    };
    match put(entry_line(&entry).as_bytes(), out) {
        Some(n) => {
            *written = n;
            DONE
        }
        None => SHORT,
    }
}

/// Says how many entries this caller or worker has.
pub fn serial_of(session: &Session, who: &WhoNumbers, serial: &mut u64) -> u32
    ensures status { result ≡ serial_status session.now.history.layout (who_of_numbers who.now) }
    ensures serial { result ≡ 0
        → IfSome (who_of_numbers who.now) (λ w. serial.new ≡ calls.serial_of (past_in session.now.history) w) }
    ensures kept { result ≢ 0 → serial.new ≡ serial.old }
{
    let Some(who) = who.who() else {
        return REFUSED;
    };
    match session.serial(who) {
        Some(count) => {
            *serial = count;
            DONE
        }
        None => REFUSED,
    }
}
