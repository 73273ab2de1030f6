//! Calls that are refused before they are made, and by which limit.
ghost use Rattle.std.specs.Prelude.{◌≡◌, ◌++◌, ◌&&◌, ℕ, true, false, not, if◌then◌else◌, List, Some, IfNone, IfSome};
ghost use Rattle.std.specs.Prelude.{nat_eq, codes};
ghost use Rattle.std.proofs.Common.{rules};
ghost use Rattle.std.specs.Cmp.Lexicographic.{pointwise};
ghost use Rattle.std.specs.Cmp.Rules.{comparing};
ghost use Rattle.std.specs.List.{find, list_all};
ghost use Rattle.std.specs.Ordering.{on};
ghost use Rattle.cmwq_model.specs.Prelude.{has_numbers, is_callers, is_workers};
ghost use Rattle.cmwq_service.specs.Outside.{IsFirstOutside, IsOutside, cpu_limit, is_allowed, is_broken};
ghost use Rattle.cmwq_service.specs.Outside.{item_limit, limit_broken, limit_in_batch, look_outside, makers_limit};
ghost use Rattle.cmwq_service.specs.Outside.{numbers_asked, queue_limit};
ghost use Rattle.cmwq_service.specs.declared.outside.Asked.TheVariants as asked;

use cmwq_kinds::numbers_of_call;
use cmwq_model::{Call, CallerId, CpuId, Entry, ItemId, QueueId, Reply, Shape, Who};
use cmwq_text::entry_line;
use std::error::Error;
use std::fmt;
use std::fmt::Write;

/// What was asked of a hub.
#[derive(Clone, Copy, Debug)]
pub enum Asked {
    Call(Call),
    /// A look at an item (`Client::busy`), which is no call of a history.
    Busy(ItemId),
}

impl PartialEq for Asked {
    ghost eq = { on numbers_asked (pointwise nat_eq) };

    ghost laws = { Prim.search (comparing, rules) };

    #[tactic(auto, unfolding(cmwq_kinds::specs::Numbers::numbers_of_call))]
    fn eq(&self, other: &Asked) -> bool {
        match (self, other) {
            (Asked::Call(one), Asked::Call(other)) => {
                numbers_of_call(*one) == numbers_of_call(*other)
            }
            (Asked::Busy(one), Asked::Busy(other)) => one == other,
            _ => false,
        }
    }
}

impl Eq for Asked {
    ghost laws = { Prim.search (comparing, rules) };
}

/// The call in the line of an entry that caller 0 makes first, and that is answered by no.
fn call_text(line: &[u8]) -> &[u8]
    ensures { (text : List ℕ) → line.now ≡ codes "c0 0 " ++ text ++ codes " = no\n" → result.now ≡ text }
{
    let text = line.strip_prefix(b"c0 0 ").unwrap_or(line);
    text.strip_suffix(b" = no\n").unwrap_or(text)
}

/// Writes a call as histories spell it.
fn write_call<W: Write>(f: &mut fmt::Formatter<W>, call: Call) -> fmt::Result {
    let line = entry_line(&Entry {
        who: Who::Caller(CallerId(0)),
        serial: 0,
        call,
        reply: Reply::No,
    });
    for byte in call_text(line.as_bytes()) {
        f.write_char(char::from(*byte))?;
    }
    Ok(())
}

impl fmt::Display for Asked {
    fn fmt<W: Write>(&self, f: &mut fmt::Formatter<W>) -> fmt::Result {
        match self {
            Asked::Call(call) => write_call(f, *call),
            Asked::Busy(item) => write!(f, "busy {}", item.0),
        }
    }
}

/// What limits a call: how many items, queues or CPUs there are, from 0 on, the least max_active, or who makes it.
#[derive(Clone, Copy, Debug, PartialEq, Eq)]
pub enum Limit {
    Item { item: u16, items: u16 },
    Queue { queue: u8, queues: u8 },
    Cpu { cpu: u8, cpus: u8 },
    /// It is 1 at least.
    MaxActive { max_active: u32 },
    /// Only workers make such a call.
    OfWorkers,
    /// Only callers make such a call.
    OfCallers,
}

impl Limit {
    /// Whether the number isn't inside it.
    fn is_broken(self) -> bool
        ensures { result ≡ is_broken self }
    {
        match self {
            Limit::Item { item, items } => item >= items,
            Limit::Queue { queue, queues } => queue >= queues,
            Limit::Cpu { cpu, cpus } => cpu >= cpus,
            Limit::MaxActive { max_active } => max_active < 1,
            Limit::OfWorkers | Limit::OfCallers => false,
        }
    }
}

fn item_limit(shape: &Shape, item: ItemId) -> Limit
    ensures { result ≡ item_limit shape.now item }
{
    Limit::Item {
        item: item.0,
        items: shape.counts().items,
    }
}

fn queue_limit(shape: &Shape, queue: QueueId) -> Limit
    ensures { result ≡ queue_limit shape.now queue }
{
    // a shape, as its counts say, has 255 queues at most
    let _counts = shape.counts();
    Limit::Queue {
        queue: queue.0,
        queues: shape.queues().len() as u8,
    }
}

fn cpu_limit(shape: &Shape, cpu: CpuId) -> Limit
    ensures { result ≡ cpu_limit shape.now cpu }
{
    Limit::Cpu {
        cpu: cpu.0,
        cpus: shape.counts().cpus,
    }
}

/// The first limit that a call breaks.
fn limit_broken(shape: &Shape, call: Call) -> Limit
    requires { has_numbers shape.now call ≡ false }
    ensures { limit_broken shape.now call ≡ Some result }
{
    match call {
        Call::Queue { item, queue, cpu }
        | Call::Delay {
            item,
            queue,
            cpu,
            ..
        }
        | Call::Modify {
            item,
            queue,
            cpu,
            ..
        } => {
            let (item, queue) = (item_limit(shape, item), queue_limit(shape, queue));
            if item.is_broken() {
                item
            } else if queue.is_broken() {
                queue
            } else {
                cpu_limit(shape, cpu)
            }
        }
        Call::Cancel { item }
        | Call::FlushItem { item }
        | Call::FlushDelayed { item }
        | Call::CancelSync { item } => item_limit(shape, item),
        Call::Flush { queue } | Call::Drain { queue } | Call::Destroy { queue } => {
            queue_limit(shape, queue)
        }
        Call::SetMax { queue, max_active } => {
            let queue = queue_limit(shape, queue);
            if queue.is_broken() {
                queue
            } else {
                Limit::MaxActive { max_active }
            }
        }
        _ => unreachable!(),
    }
}

/// Who alone makes a call that others don't.
fn makers_limit(call: Call) -> Limit
    ensures { result ≡ makers_limit call }
{
    if call.is_callers() {
        Limit::OfCallers
    } else {
        Limit::OfWorkers
    }
}

impl fmt::Display for Limit {
    fn fmt<W: Write>(&self, f: &mut fmt::Formatter<W>) -> fmt::Result {
        let (name, number, count) = match *self {
            Limit::Item { item, items } => ("item", item, items),
            Limit::Queue { queue, queues } => ("queue", queue.into(), queues.into()),
            Limit::Cpu { cpu, cpus } => ("CPU", cpu.into(), cpus.into()),
            Limit::MaxActive { max_active } => {
                return write!(f, "max_active {max_active} is less than 1");
            }
            Limit::OfWorkers => return write!(f, "only workers make this call"),
            Limit::OfCallers => return write!(f, "only callers make this call"),
        };
        let plural = if count == 1 { "" } else { "s" };
        write!(
            f,
            "{name} {number} is outside the shape, which has {count} {name}{plural}"
        )
    }
}

/// A call that isn't made, and the first limit that it breaks.
#[derive(Clone, Copy, Debug, PartialEq, Eq)]
pub struct Outside {
    pub asked: Asked,
    pub limit: Limit,
}

impl Outside {
    /// That of a call of which a number isn't inside the shape.
    pub(crate) fn of_call(shape: &Shape, call: Call) -> Outside
        requires { has_numbers shape.now call ≡ false }
        ensures { IsOutside shape.now call result }
    {
        Outside {
            asked: Asked::Call(call),
            limit: limit_broken(shape, call),
        }
    }

    /// That of a look at an item that isn't inside the shape.
    pub(crate) fn of_look(shape: &Shape, item: ItemId) -> Outside
        ensures { result ≡ look_outside shape.now item }
    {
        Outside {
            asked: Asked::Busy(item),
            limit: item_limit(shape, item),
        }
    }

    /// That of a call in a batch: the maker of the batch makes no such call, or a number of it isn't inside the shape.
    fn in_batch(shape: &Shape, call: Call, is_made: bool) -> Outside
        requires { (is_made && has_numbers shape.now call) ≡ false }
        ensures asked { result.asked ≡ asked.Call call }
        ensures limit { limit_in_batch is_made shape.now call ≡ Some result.limit }
    {
        Outside {
            asked: Asked::Call(call),
            limit: if is_made {
                limit_broken(shape, call)
            } else {
                makers_limit(call)
            },
        }
    }
}

impl fmt::Display for Outside {
    fn fmt<W: Write>(&self, f: &mut fmt::Formatter<W>) -> fmt::Result {
        write!(f, "{}: {}", self.asked, self.limit)
    }
}

impl Error for Outside {}

#[tactic(auto, using(crate::proofs::FirstOutside::it_fails))]
fn first_not_of_callers(shape: &Shape, calls: &[Call]) -> Option<Call>
    ensures first { result ≡ find (λ c. not (is_allowed is_callers shape.now c)) calls.now }
    ensures fails { IfSome result (λ c. is_allowed is_callers shape.now c ≡ false) }
{
    calls
        .iter()
        .copied()
        .find(|call| !(call.is_callers() && shape.has_numbers(*call)))
}

#[tactic(auto, using(crate::proofs::FirstOutside::it_fails))]
fn first_not_of_workers(shape: &Shape, calls: &[Call]) -> Option<Call>
    ensures first { result ≡ find (λ c. not (is_allowed is_workers shape.now c)) calls.now }
    ensures fails { IfSome result (λ c. is_allowed is_workers shape.now c ≡ false) }
{
    calls
        .iter()
        .copied()
        .find(|call| !(call.is_workers() && shape.has_numbers(*call)))
}

/// The first of these calls that callers don't make, or of which a number isn't inside the shape.
#[tactic(auto, using(crate::proofs::FirstOutside::all_pass, crate::proofs::FirstOutside::one_fails))]
pub(crate) fn outside_for_callers(shape: &Shape, calls: &[Call]) -> Option<Outside>
    ensures none { IfNone result (list_all (is_allowed is_callers shape.now) calls.now ≡ true) }
    ensures some { IfSome result (λ _. list_all (is_allowed is_callers shape.now) calls.now ≡ false) }
    ensures first { IfSome result (IsFirstOutside is_callers shape.now calls.now) }
{
    let call = first_not_of_callers(shape, calls)?;
    Some(Outside::in_batch(shape, call, call.is_callers()))
}

/// The first of these calls that workers don't make, or of which a number isn't inside the shape.
#[tactic(auto, using(crate::proofs::FirstOutside::all_pass, crate::proofs::FirstOutside::one_fails))]
pub(crate) fn outside_for_workers(shape: &Shape, calls: &[Call]) -> Option<Outside>
    ensures none { IfNone result (list_all (is_allowed is_workers shape.now) calls.now ≡ true) }
    ensures some { IfSome result (λ _. list_all (is_allowed is_workers shape.now) calls.now ≡ false) }
    ensures first { IfSome result (IsFirstOutside is_workers shape.now calls.now) }
{
    let call = first_not_of_workers(shape, calls)?;
    Some(Outside::in_batch(shape, call, call.is_workers()))
}
