//! Reads usual lines in one pass, where they stand: those of the most frequent calls and replies, with numbers of at
//! most nine digits. Each reader returns what the bytes begin with, and the bytes after it. `None` says nothing of the
//! bytes.

ghost use Rattle.std.specs.Prelude.{ℕ, ◌≡◌, ◌<◌, ◌≤◌, ◌++◌, ◌∷◌, [], true, decimal, IfSome};
ghost use Rattle.cmwq_text.specs.Words.{space_words};
ghost use Rattle.cmwq_text.specs.IdText.{pool_letter, who_text};
ghost use Rattle.cmwq_text.specs.CallText.{call_words, is_of_kind};
ghost use Rattle.cmwq_base.specs.Kinds.{calls_kind, history_kind};
ghost use Rattle.cmwq_base.specs.Usual.{BeginsLine, IsUsualCall, IsUsualReply, IsUsualWho};

use cmwq_model::{
    Call, CallerId, CpuId, Entry, ItemId, Number, PoolId, QueueId, Reply, Who, WorkerId,
};

/// The most digits of a number after its first one.
const MORE_DIGITS: usize = 8;

/// The bytes after a text, if they begin with it.
#[inline(always)]
fn after<'a>(bytes: &'a [u8], word: &[u8]) -> Option<&'a [u8]>
    ensures { IfSome result (λ left. bytes.now ≡ word.now ++ left.now) }
{
    if bytes.len() < word.len() {
        return None;
    }
    for at in 0..word.len() {
        if bytes[at] != word[at] {
            return None;
        }
    }
    Some(&bytes[word.len()..])
}

/// The number of this first digit and the digits that the bytes begin with.
#[inline(always)]
fn more_digits(first: u32, bytes: &[u8]) -> (u32, &[u8])
    requires some { 0 < first }
    requires digit { first < 10 }
    ensures exact { decimal first ++ bytes.now ≡ decimal result.0 ++ result.1.now }
    ensures few { result.0 < 1000000000 }
{
    let most = bytes.len().min(MORE_DIGITS);
    let mut value = first;
    for at in 0..most {
        let byte = bytes[at];
        if !byte.is_ascii_digit() {
            return (value, &bytes[at..]);
        }
        value = value * 10 + u32::from(byte - b'0');
    }
    (value, &bytes[most..])
}

/// A number.
#[inline(always)]
fn number_at(bytes: &[u8]) -> Option<(u32, &[u8])>
    ensures exact { IfSome result (λ n. bytes.now ≡ decimal n.0 ++ n.1.now) }
    ensures few { IfSome result (λ n. n.0 < 1000000000) }
{
    match bytes {
        [b'0', left @ ..] => Some((0, left)),
        [first, left @ ..] if first.is_ascii_digit() => {
            Some(more_digits(u32::from(*first - b'0'), left))
        }
        _ => None,
    }
}

/// A number that a byte holds.
#[inline(always)]
fn byte_at(bytes: &[u8]) -> Option<(u8, &[u8])>
    ensures { IfSome result (λ n. bytes.now ≡ decimal n.0 ++ n.1.now) }
{
    let (number, left) = number_at(bytes)?;
    match u8::try_from(number) {
        Ok(byte) => Some((byte, left)),
        Err(_) => None,
    }
}

/// A number after a space.
#[inline(always)]
fn spaced_number(bytes: &[u8]) -> Option<(u32, &[u8])>
    ensures exact { IfSome result (λ n. bytes.now ≡ 32 ∷ decimal n.0 ++ n.1.now) }
    ensures few { IfSome result (λ n. n.0 < 1000000000) }
{
    let left = after(bytes, b" ")?;
    let (number, left) = number_at(left)?;
    Some((number, left))
}

/// An item after a space.
#[inline(always)]
fn spaced_item(bytes: &[u8]) -> Option<(ItemId, &[u8])>
    ensures { IfSome result (λ i. bytes.now ≡ 32 ∷ decimal i.0.0 ++ i.1.now) }
{
    let (number, left) = spaced_number(bytes)?;
    match u16::try_from(number) {
        Ok(item) => Some((ItemId(item), left)),
        Err(_) => None,
    }
}

/// A queue after a space.
#[inline(always)]
fn spaced_queue(bytes: &[u8]) -> Option<(QueueId, &[u8])>
    ensures { IfSome result (λ q. bytes.now ≡ 32 ∷ decimal q.0.0 ++ q.1.now) }
{
    let left = after(bytes, b" ")?;
    let (queue, left) = byte_at(left)?;
    Some((QueueId(queue), left))
}

/// A CPU after a space.
#[inline(always)]
fn spaced_cpu(bytes: &[u8]) -> Option<(CpuId, &[u8])>
    ensures { IfSome result (λ c. bytes.now ≡ 32 ∷ decimal c.0.0 ++ c.1.now) }
{
    let left = after(bytes, b" ")?;
    let (cpu, left) = byte_at(left)?;
    Some((CpuId(cpu), left))
}

/// The letter of a pool, as whether its priority is high.
#[inline(always)]
fn pool_at(bytes: &[u8]) -> Option<(bool, &[u8])>
    ensures { IfSome result (λ p. bytes.now ≡ pool_letter p.0 ∷ p.1.now) }
{
    if let Some(left) = after(bytes, b"n") {
        return Some((false, left));
    }
    let left = after(bytes, b"h")?;
    Some((true, left))
}

/// A worker.
#[inline(always)]
fn worker_at(bytes: &[u8]) -> Option<(Who, &[u8])>
    ensures { IfSome result (λ w. IsUsualWho bytes.now w.0 w.1.now) }
{
    let left = after(bytes, b"w")?;
    let (cpu, left) = byte_at(left)?;
    let (high, left) = pool_at(left)?;
    let (index, left) = byte_at(left)?;
    let pool = PoolId {
        cpu: CpuId(cpu),
        high,
    };
    Some((Who::Worker(WorkerId { pool, index }), left))
}

/// A caller.
#[inline(always)]
fn caller_at(bytes: &[u8]) -> Option<(Who, &[u8])>
    ensures { IfSome result (λ w. IsUsualWho bytes.now w.0 w.1.now) }
{
    let left = after(bytes, b"c")?;
    let (caller, left) = byte_at(left)?;
    Some((Who::Caller(CallerId(caller)), left))
}

/// A caller or a worker.
#[inline(always)]
fn who_at(bytes: &[u8]) -> Option<(Who, &[u8])>
    ensures { IfSome result (λ w. IsUsualWho bytes.now w.0 w.1.now) }
{
    match bytes {
        [b'c', ..] => caller_at(bytes),
        [b'w', ..] => worker_at(bytes),
        _ => None,
    }
}

/// A call without numbers, whose text is this.
#[inline(always)]
fn alone<'a>(bytes: &'a [u8], text: &[u8], call: Call) -> Option<(Call, &'a [u8])>
    requires { IsUsualCall text.now call [] }
    ensures { IfSome result (λ c. IsUsualCall bytes.now c.0 c.1.now) }
{
    let left = after(bytes, text)?;
    Some((call, left))
}

/// `cancel`, and its item.
#[inline(always)]
fn cancel_at(bytes: &[u8]) -> Option<(Call, &[u8])>
    ensures { IfSome result (λ c. IsUsualCall bytes.now c.0 c.1.now) }
{
    let left = after(bytes, b" cancel")?;
    let (item, left) = spaced_item(left)?;
    Some((Call::Cancel { item }, left))
}

/// `flush`, and its queue.
#[inline(always)]
fn flush_at(bytes: &[u8]) -> Option<(Call, &[u8])>
    ensures { IfSome result (λ c. IsUsualCall bytes.now c.0 c.1.now) }
{
    let left = after(bytes, b" flush")?;
    let (queue, left) = spaced_queue(left)?;
    Some((Call::Flush { queue }, left))
}

/// `tick`, and its ticks.
#[inline(always)]
fn tick_at(bytes: &[u8]) -> Option<(Call, &[u8])>
    ensures { IfSome result (λ c. IsUsualCall bytes.now c.0 c.1.now) }
{
    let left = after(bytes, b" tick")?;
    let (ticks, left) = spaced_number(left)?;
    Some((Call::Tick { ticks }, left))
}

/// `end`, and its ticket.
#[inline(always)]
fn end_at(bytes: &[u8]) -> Option<(Call, &[u8])>
    ensures { IfSome result (λ c. IsUsualCall bytes.now c.0 c.1.now) }
{
    let left = after(bytes, b" end")?;
    let (ticket, left) = spaced_number(left)?;
    let ticket = Number::from(ticket);
    Some((Call::End { ticket }, left))
}

/// An item, a queue and a CPU, each after a space.
#[inline(always)]
fn place_at(bytes: &[u8]) -> Option<(ItemId, QueueId, CpuId, &[u8])>
    ensures { IfSome result (λ p. bytes.now
        ≡ space_words (decimal p.0.0 ∷ decimal p.1.0 ∷ decimal p.2.0 ∷ []) ++ p.3.now) }
{
    let (item, left) = spaced_item(bytes)?;
    let (queue, left) = spaced_queue(left)?;
    let (cpu, left) = spaced_cpu(left)?;
    Some((item, queue, cpu, left))
}

/// `queue`, and its place.
#[inline(always)]
fn queue_at(bytes: &[u8]) -> Option<(Call, &[u8])>
    ensures { IfSome result (λ c. IsUsualCall bytes.now c.0 c.1.now) }
{
    let left = after(bytes, b" queue")?;
    let (item, queue, cpu, left) = place_at(left)?;
    Some((Call::Queue { item, queue, cpu }, left))
}

/// A place, and the ticks after it.
#[inline(always)]
fn booking_at(bytes: &[u8]) -> Option<(ItemId, QueueId, CpuId, u32, &[u8])>
    ensures { IfSome result (λ b. bytes.now
        ≡ space_words (decimal b.0.0 ∷ decimal b.1.0 ∷ decimal b.2.0 ∷ decimal b.3 ∷ []) ++ b.4.now) }
{
    let (item, queue, cpu, left) = place_at(bytes)?;
    let (ticks, left) = spaced_number(left)?;
    Some((item, queue, cpu, ticks, left))
}

/// `delay`, its place and its ticks.
#[inline]
fn delay_at(bytes: &[u8]) -> Option<(Call, &[u8])>
    ensures { IfSome result (λ c. IsUsualCall bytes.now c.0 c.1.now) }
{
    let left = after(bytes, b" delay")?;
    let (item, queue, cpu, ticks, left) = booking_at(left)?;
    let call = Call::Delay {
        item,
        queue,
        cpu,
        ticks,
    };
    Some((call, left))
}

/// `modify`, its place and its ticks.
#[inline]
fn modify_at(bytes: &[u8]) -> Option<(Call, &[u8])>
    ensures { IfSome result (λ c. IsUsualCall bytes.now c.0 c.1.now) }
{
    let left = after(bytes, b" modify")?;
    let (item, queue, cpu, ticks, left) = booking_at(left)?;
    let call = Call::Modify {
        item,
        queue,
        cpu,
        ticks,
    };
    Some((call, left))
}

/// A call after a space. Its first letters tell which one it can be.
#[inline(always)]
fn call_at(bytes: &[u8]) -> Option<(Call, &[u8])>
    ensures { IfSome result (λ c. IsUsualCall bytes.now c.0 c.1.now) }
{
    match bytes {
        [_, b'q', ..] => queue_at(bytes),
        [_, b't', b'a', ..] => alone(bytes, b" take", Call::Take),
        [_, b'f', b'i', b'n', ..] => alone(bytes, b" finish", Call::Finish),
        [_, b'e', ..] => end_at(bytes),
        [_, b'f', b'l', ..] => flush_at(bytes),
        [_, b's', ..] => alone(bytes, b" sleep", Call::Sleep),
        [_, b'w', ..] => alone(bytes, b" wake", Call::Wake),
        [_, b'f', ..] => alone(bytes, b" fire", Call::Fire),
        [_, b'd', ..] => delay_at(bytes),
        [_, b'm', ..] => modify_at(bytes),
        [_, b't', ..] => tick_at(bytes),
        [_, b'c', ..] => cancel_at(bytes),
        _ => None,
    }
}

/// Whether such a who makes such calls.
#[inline(always)]
fn is_of_kind(who: Who, call: Call) -> bool
    ensures { result ≡ is_of_kind who call }
{
    match who {
        Who::Caller(_) => call.is_callers(),
        Who::Worker(_) => call.is_workers(),
    }
}

/// The usual line of a file of calls.
#[inline(always)]
pub(crate) fn read_usual_call(bytes: &[u8]) -> Option<((Who, Call), &[u8])>
    ensures { IfSome result (λ c. (v : ℕ) → BeginsLine calls_kind v bytes.now c.0 c.1.now) }
{
    let (who, left) = who_at(bytes)?;
    let (call, left) = call_at(left)?;
    let left = after(left, b"\n")?;
    if is_of_kind(who, call) {
        Some(((who, call), left))
    } else {
        None
    }
}

/// A word, and a number after it.
#[inline(always)]
fn numbered<'a>(bytes: &'a [u8], word: &[u8]) -> Option<(Number, &'a [u8])>
    ensures exact { IfSome result (λ n. 32 ∷ bytes.now ≡ space_words (word.now ∷ decimal n.0 ∷ []) ++ n.1.now) }
    ensures few { IfSome result (λ n. n.0 < 1000000000) }
{
    let left = after(bytes, word)?;
    let (number, left) = spaced_number(left)?;
    Some((Number::from(number), left))
}

/// A reply without numbers, whose text is this.
#[inline(always)]
fn word_alone<'a>(bytes: &'a [u8], word: &[u8], reply: Reply) -> Option<(Reply, &'a [u8])>
    requires { IsUsualReply word.now reply [] }
    ensures { IfSome result (λ r. IsUsualReply bytes.now r.0 r.1.now) }
{
    let left = after(bytes, word)?;
    Some((reply, left))
}

/// `yes`, and its number.
#[inline(always)]
fn yes_at(bytes: &[u8]) -> Option<(Reply, &[u8])>
    ensures { IfSome result (λ r. IsUsualReply bytes.now r.0 r.1.now) }
{
    let (number, left) = numbered(bytes, b"yes")?;
    Some((Reply::Yes(number), left))
}

/// `finished`, and its number.
#[inline(always)]
fn finished_at(bytes: &[u8]) -> Option<(Reply, &[u8])>
    ensures { IfSome result (λ r. IsUsualReply bytes.now r.0 r.1.now) }
{
    let (number, left) = numbered(bytes, b"finished")?;
    Some((Reply::Finished(number), left))
}

/// `cancelled`, and its number.
#[inline(always)]
fn cancelled_at(bytes: &[u8]) -> Option<(Reply, &[u8])>
    ensures { IfSome result (λ r. IsUsualReply bytes.now r.0 r.1.now) }
{
    let (number, left) = numbered(bytes, b"cancelled")?;
    Some((Reply::Cancelled(number), left))
}

/// `booked`, and its time.
#[inline(always)]
fn booked_at(bytes: &[u8]) -> Option<(Reply, &[u8])>
    ensures { IfSome result (λ r. IsUsualReply bytes.now r.0 r.1.now) }
{
    let (time, left) = numbered(bytes, b"booked")?;
    Some((Reply::Booked(time), left))
}

/// `rebooked`, and its time.
#[inline(always)]
fn rebooked_at(bytes: &[u8]) -> Option<(Reply, &[u8])>
    ensures { IfSome result (λ r. IsUsualReply bytes.now r.0 r.1.now) }
{
    let (time, left) = numbered(bytes, b"rebooked")?;
    Some((Reply::Rebooked(time), left))
}

/// `now`, and its time.
#[inline(always)]
fn now_at(bytes: &[u8]) -> Option<(Reply, &[u8])>
    ensures { IfSome result (λ r. IsUsualReply bytes.now r.0 r.1.now) }
{
    let (time, left) = numbered(bytes, b"now")?;
    Some((Reply::Now(time), left))
}

/// `ticket`, and its number. A reply with more words is not usual.
#[inline(always)]
fn ticket_at(bytes: &[u8]) -> Option<(Reply, &[u8])>
    ensures { IfSome result (λ r. IsUsualReply bytes.now r.0 r.1.now) }
{
    let (number, left) = numbered(bytes, b"ticket")?;
    Some((Reply::Ticket(number), left))
}

/// `started`, its number, and the index of a worker if one was enlisted.
#[inline(always)]
fn started_at(bytes: &[u8]) -> Option<(Reply, &[u8])>
    ensures { IfSome result (λ r. IsUsualReply bytes.now r.0 r.1.now) }
{
    let (number, left) = numbered(bytes, b"started")?;
    match after(left, b" enlist ") {
        Some(left) => {
            let (index, left) = byte_at(left)?;
            Some((Reply::StartedEnlist(number, index), left))
        }
        None => Some((Reply::Started(number), left)),
    }
}

/// `fired`, its item and its number.
#[inline(always)]
fn fired_at(bytes: &[u8]) -> Option<(Reply, &[u8])>
    ensures { IfSome result (λ r. IsUsualReply bytes.now r.0 r.1.now) }
{
    let left = after(bytes, b"fired")?;
    let (item, left) = spaced_item(left)?;
    let (number, left) = spaced_number(left)?;
    Some((Reply::Fired(item, Number::from(number)), left))
}

/// A reply. Its first letters tell which one it can be.
#[inline(always)]
fn reply_at(bytes: &[u8]) -> Option<(Reply, &[u8])>
    ensures { IfSome result (λ r. IsUsualReply bytes.now r.0 r.1.now) }
{
    match bytes {
        [b'y', ..] => yes_at(bytes),
        [b's', b't', ..] => started_at(bytes),
        [b'f', b'i', b'n', ..] => finished_at(bytes),
        [b't', ..] => ticket_at(bytes),
        [b'd', ..] => word_alone(bytes, b"done", Reply::Done),
        [b's', ..] => word_alone(bytes, b"slept", Reply::Slept),
        [b'w', ..] => word_alone(bytes, b"woke", Reply::Woke),
        [b'f', ..] => fired_at(bytes),
        [b'n', b'o', b'w', ..] => now_at(bytes),
        [b'n', b'o', b't', ..] => word_alone(bytes, b"nothing", Reply::Nothing),
        [b'n', ..] => word_alone(bytes, b"no", Reply::No),
        [b'b', ..] => booked_at(bytes),
        [b'r', ..] => rebooked_at(bytes),
        [b'c', ..] => cancelled_at(bytes),
        _ => None,
    }
}

/// The usual line of a history of format 2 or 3.
#[inline(always)]
pub(crate) fn read_usual_entry(version: u8, bytes: &[u8]) -> Option<(Entry, &[u8])>
    ensures { IfSome result (λ e. BeginsLine history_kind version bytes.now e.0 e.1.now) }
{
    if version < 2 {
        return None;
    }
    let (who, left) = who_at(bytes)?;
    let (serial, left) = spaced_number(left)?;
    let serial = Number::from(serial);
    let (call, left) = call_at(left)?;
    let left = after(left, b" = ")?;
    let (reply, left) = reply_at(left)?;
    let left = after(left, b"\n")?;
    if is_of_kind(who, call) {
        let entry = Entry {
            who,
            serial,
            call,
            reply,
        };
        Some((entry, left))
    } else {
        None
    }
}
