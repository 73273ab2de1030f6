//! Calls and replies as numbers: that of the kind, and those that stand in it.
ghost use Rattle.std.specs.Prelude.{◌≡◌, IsTrue};
ghost use Rattle.cmwq_kinds.specs.Numbers.{numbers_of_call, numbers_of_place, numbers_of_reply};

use cmwq_model::{Call, CpuId, ItemId, QueueId, Reply};

fn numbers_of_place(kind: u64, item: ItemId, queue: QueueId, cpu: CpuId, ticks: u32) -> [u64; 5]
    ensures { result ≡ numbers_of_place kind item.0 queue.0 cpu.0 ticks }
{
    [
        kind,
        u64::from(item.0),
        u64::from(queue.0),
        u64::from(cpu.0),
        u64::from(ticks),
    ]
}

/// A call as numbers: that of its kind, those that stand in it, by the order of its fields, and 0 for each it lacks.
/// No two calls have the same.
#[tactic(auto, unfolding(crate::specs::Numbers::numbers_of_call))]
pub fn numbers_of_call(call: Call) -> [u64; 5]
    ensures { result ≡ numbers_of_call call }
{
    match call {
        Call::Queue { item, queue, cpu } => numbers_of_place(0, item, queue, cpu, 0),
        Call::Delay {
            item,
            queue,
            cpu,
            ticks,
        } => numbers_of_place(1, item, queue, cpu, ticks),
        Call::Modify {
            item,
            queue,
            cpu,
            ticks,
        } => numbers_of_place(2, item, queue, cpu, ticks),
        Call::Cancel { item } => [3, u64::from(item.0), 0, 0, 0],
        Call::Tick { ticks } => [4, u64::from(ticks), 0, 0, 0],
        Call::Fire => [5, 0, 0, 0, 0],
        Call::Flush { queue } => [6, u64::from(queue.0), 0, 0, 0],
        Call::Drain { queue } => [7, u64::from(queue.0), 0, 0, 0],
        Call::FlushItem { item } => [8, u64::from(item.0), 0, 0, 0],
        Call::FlushDelayed { item } => [9, u64::from(item.0), 0, 0, 0],
        Call::CancelSync { item } => [10, u64::from(item.0), 0, 0, 0],
        Call::End { ticket } => [11, ticket, 0, 0, 0],
        Call::Take => [12, 0, 0, 0, 0],
        Call::Finish => [13, 0, 0, 0, 0],
        Call::Sleep => [14, 0, 0, 0, 0],
        Call::Wake => [15, 0, 0, 0, 0],
        Call::Retire => [16, 0, 0, 0, 0],
        Call::SetMax { queue, max_active } => {
            [17, u64::from(queue.0), u64::from(max_active), 0, 0]
        }
        Call::Freeze => [18, 0, 0, 0, 0],
        Call::Thaw => [19, 0, 0, 0, 0],
        Call::Destroy { queue } => [20, u64::from(queue.0), 0, 0, 0],
    }
}

/// A reply as numbers, in the same way.
#[tactic(auto, unfolding(crate::specs::Numbers::numbers_of_reply))]
pub fn numbers_of_reply(reply: Reply) -> [u64; 3]
    ensures { result ≡ numbers_of_reply reply }
{
    match reply {
        Reply::Yes(number) => [0, number, 0],
        Reply::Booked(due) => [1, due, 0],
        Reply::Again(number) => [2, number, 0],
        Reply::Rebooked(due) => [3, due, 0],
        Reply::No => [4, 0, 0],
        Reply::Foreign => [5, 0, 0],
        Reply::Draining => [6, 0, 0],
        Reply::Misuse => [7, 0, 0],
        Reply::Cancelled(number) => [8, number, 0],
        Reply::Unbooked => [9, 0, 0],
        Reply::Now(time) => [10, time, 0],
        Reply::Fired(item, number) => [11, u64::from(item.0), number],
        Reply::Nothing => [12, 0, 0],
        Reply::Ticket(ticket) => [13, ticket, 0],
        Reply::TicketQueued(ticket) => [14, ticket, 0],
        Reply::TicketCancelled(ticket, number) => [15, ticket, number],
        Reply::TicketUnbooked(ticket) => [16, ticket, 0],
        Reply::TicketNo(ticket) => [17, ticket, 0],
        Reply::Idle => [18, 0, 0],
        Reply::Crowded => [19, 0, 0],
        Reply::Done => [20, 0, 0],
        Reply::Waiting(number) => [21, number, 0],
        Reply::Started(number) => [22, number, 0],
        Reply::StartedEnlist(number, index) => [23, number, u64::from(index)],
        Reply::Held => [24, 0, 0],
        Reply::Finished(number) => [25, number, 0],
        Reply::Slept => [26, 0, 0],
        Reply::Woke => [27, 0, 0],
        Reply::Retired => [28, 0, 0],
        Reply::Kept => [29, 0, 0],
        Reply::Width(width) => [30, u64::from(width), 0],
        Reply::Frozen => [31, 0, 0],
        Reply::Thawed => [32, 0, 0],
        Reply::Gone => [33, 0, 0],
        Reply::Timers => [34, 0, 0],
    }
}

/// Whether the other call is this one.
pub fn is_same_call(one: Call, other: Call) -> bool
    ensures same { IsTrue result → one ≡ other }
    ensures differs { one ≡ other → IsTrue result }
{
    numbers_of_call(one) == numbers_of_call(other)
}
