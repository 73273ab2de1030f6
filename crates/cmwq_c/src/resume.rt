//! The calls by which a new history takes over what one left that a text says.
ghost use Rattle.std.specs.Prelude.{◌≡◌, ◌≢◌, ◌⊎◌, ◌+◌, ◌<◌, ◌≤◌, ℕ, List, if◌then◌else◌, length, map, nat_le, IfErr};
ghost use Rattle.std.specs.Prelude.{IfNone, IfOk, IfSome};
ghost use Rattle.cmwq_c.specs.Numbers.{counts_of_numbers};
ghost use Rattle.cmwq_c.specs.Resumed.{AreCallsWritten, IsRefusedAt, IsResumed, IsWhy, IsWrongAt, first_calls_numbers};
ghost use Rattle.cmwq_c.specs.Resumed.{is_set, why_of};
ghost use Rattle.cmwq_c.specs.declared.numbers.CallNumbers.{CallNumbers as TheCalls};
ghost use Rattle.cmwq_c.specs.declared.numbers.ShapeNumbers.{ShapeNumbers as TheShape};
ghost use Rattle.cmwq_c.specs.declared.resume.Why.TheVariants as why;

use crate::numbers::{CallNumbers, ShapeNumbers};
use crate::status::{DONE, ILLEGAL, NO_MEMORY, REFUSED, SHORT};
use crate::told;
use cmwq_base::{Gather, Refusal, read_file};
use cmwq_cmd_resume::Ticks;
use cmwq_history::Following;
use cmwq_io::Memory;
use cmwq_model::{Call, CallerId, Counts, NoMemory, Who};
use cmwq_resume::resume_calls;
use std::alloc::Global;

/// What a history left: its shape, and the calls by which a new one takes that over.
#[derive(Drop)]
pub(crate) struct Left {
    shape: ShapeNumbers,
    queues: usize,
    calls: Vec<CallNumbers>,
}

/// Why there are no such calls. Lines are counted from 1.
#[derive(Clone, Copy)]
pub(crate) enum Why {
    NoMemory,
    /// It is no history, and this line is wrong; 0: a line is too long.
    Refused(u64),
    /// The entry in this line is the first that is wrong.
    Illegal(u64),
}

impl From<NoMemory> for Why {
    ghost from_gives = { λ _ e. e ≡ why.NoMemory };

    fn from(_error: NoMemory) -> Why {
        Why::NoMemory
    }
}

/// The truth values of flags. The error says that memory ran out.
fn flags_of(alloc: Global, numbers: &[u8]) -> Result<Vec<bool>, NoMemory>
    ensures { IfOk result (λ flags. flags.items ≡ map is_set numbers.now) }
{
    let mut flags = Vec::with_capacity(alloc, numbers.len())?;
    for number in numbers {
        flags.push_reserved(*number != 0);
    }
    Ok(flags)
}

/// The numbers of these calls of caller 0. The error says that memory ran out.
fn numbers_of(alloc: Global, calls: &[Call]) -> Result<Vec<CallNumbers>, NoMemory>
    ensures { IfOk result (λ numbers. numbers.items ≡ map first_calls_numbers calls.now) }
{
    let who = told::who_numbers(Who::Caller(CallerId(0)));
    let mut numbers = Vec::with_capacity(alloc, calls.len())?;
    for call in calls {
        numbers.push_reserved(told::call_numbers(who, *call));
    }
    Ok(numbers)
}

fn shape_numbers(counts: Counts) -> ShapeNumbers
    ensures counts { counts_of_numbers result ≡ counts }
    ensures keep { result.keep ≡ 0 }
{
    ShapeNumbers {
        room: counts.room,
        keep: 0,
        items: counts.items,
        cpus: counts.cpus,
        workers: counts.workers,
        callers: counts.callers,
    }
}

/// Why a text is refused.
fn why_refused(refusal: Refusal) -> Why
    ensures { result ≡ why_of refusal }
{
    match refusal {
        Refusal::BadLine(line) | Refusal::BadShape(line) | Refusal::NoSuchId(line) => {
            Why::Refused(line)
        }
        Refusal::TooLong => Why::Refused(0),
        _ => Why::NoMemory,
    }
}

/// The line of the entry before which there are so many.
fn line_of_entry(version: u8, queues: usize, at: u64) -> u64
    requires queues { queues ≤ 255 }
    requires at { at ≤ 4611686018427387904 }
    ensures { result ≡ (if nat_le 2 version then 3 else 2) + queues + at }
{
    let before = if version >= 2 { 3 } else { 2 };
    before + queues as u64 + at
}

/// What the history left that the text says, or of whose front.
#[tactic(auto, using(crate::proofs::Resumed::is_refused, crate::proofs::Resumed::is_wrong, crate::proofs::Resumed::few_before, crate::proofs::Resumed::is_resumed))]
fn left_by(alloc: Global, text: &[u8], left_out: &[u8]) -> Result<Left, Why>
    ensures left { IfOk result (λ l. IsResumed text.now left_out.now l.shape l.queues l.calls.items) }
    ensures why { IfErr result (IsWhy text.now) }
{
    let flags = flags_of(alloc, left_out)?;
    let mut input = Memory::reader(text);
    let file = match read_file::<Following<Ticks>, _>(alloc, &mut input, true) {
        Ok(file) => file,
        Err(refusal) => return Err(why_refused(refusal)),
    };
    let counts = file.all.shape().counts();
    let queues = file.all.shape().queues().len();
    match file.all.legal()? {
        Ok(legal) => {
            let calls = resume_calls(alloc, legal.shape, legal.judge.state(), &flags)?;
            Ok(Left {
                shape: shape_numbers(counts),
                queues,
                calls: numbers_of(alloc, &calls)?,
            })
        }
        Err(illegal) => Err(Why::Illegal(line_of_entry(file.version, queues, illegal.at))),
    }
}

/// Puts the calls at the front of a buffer, if that holds them.
fn put_calls(calls: &[CallNumbers], out: &mut [CallNumbers]) -> Option<usize>
    ensures written { IfSome result (λ n. AreCallsWritten calls.now n out.old out.new) }
    ensures short { IfNone result (length out.old < length calls.now) }
    ensures kept { IfNone result (out.new ≡ out.old) }
{
    let n = calls.len();
    if out.len() < n {
        return None;
    }
    out[..n].copy_from_slice(calls);
    Some(n)
}

/// Writes the calls of caller 0 by which a new history takes over what this one left, or of which the text is a front,
/// and its shape, whose `keep` is 0. The run of an item that was broken off is not queued again if its flag isn't 0. 0
/// done, 1 no history, 4 no memory, 5 the buffer doesn't hold the calls, 7 not legal. At 1 and 7 the number of the line
/// that is wrong is written, from 1, or 0 where a line is too long.
#[unsafe(no_mangle)]
pub extern "C" fn cmwq_resume(
    alloc: Global,
    text: &[u8],
    left_out: &[u8],
    shape: &mut ShapeNumbers,
    queues: &mut usize,
    calls: &mut [CallNumbers],
    count: &mut usize,
    line: &mut u64,
) -> u32
    ensures done { result ≡ 0 → (made : List TheCalls)
        × IsResumed text.now left_out.now shape.new queues.new made
        × AreCallsWritten made count.new calls.old calls.new }
    ensures short { result ≡ 5 → (s : TheShape) × ((q : ℕ) × ((made : List TheCalls)
        × IsResumed text.now left_out.now s q made × (length calls.old < length made))) }
    ensures refused { result ≡ 1 → IsRefusedAt text.now line.new }
    ensures illegal { result ≡ 7 → IsWrongAt text.now line.new }
    ensures status { (result ≡ 0) ⊎ (result ≡ 1) ⊎ (result ≡ 4) ⊎ (result ≡ 5) ⊎ (result ≡ 7) }
    ensures kept { result ≢ 0 → (shape.new ≡ shape.old) × (queues.new ≡ queues.old) × (calls.new ≡ calls.old)
        × (count.new ≡ count.old) }
    ensures line { result ≢ 1 → result ≢ 7 → line.new ≡ line.old }
{
    match left_by(alloc, text, left_out) {
        Ok(left) => match put_calls(&left.calls, calls) {
            Some(n) => {
                *shape = left.shape;
                *queues = left.queues;
                *count = n;
                DONE
            }
            None => SHORT,
        },
        Err(Why::NoMemory) => NO_MEMORY,
        Err(Why::Refused(at)) => {
            *line = at;
            REFUSED
        }
        Err(Why::Illegal(at)) => {
            *line = at;
            ILLEGAL
        }
    }
}
