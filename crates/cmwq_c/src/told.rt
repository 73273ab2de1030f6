//! Replies, calls, entries and what an item does, written for C.
ghost use Rattle.std.specs.Prelude.{◌≡◌};
ghost use Rattle.cmwq_c.specs.Numbers.{plain, with_number, with_two, reply_numbers, who_numbers, bare, numbers_of_item};
ghost use Rattle.cmwq_c.specs.Numbers.{of_queue, of_place, call_numbers, entry_numbers};
ghost use Rattle.cmwq_c.specs.Items.{item_numbers, not_pending, pending_at, pending_numbers};

use crate::numbers::{CallNumbers, EntryNumbers, ItemNumbers, ReplyNumbers, WhoNumbers};
use cmwq_board::{ItemState, Pending};
use cmwq_model::{Call, CpuId, Entry, ItemId, Place, QueueId, Reply, Who};

fn plain(kind: u8) -> ReplyNumbers
    ensures { result ≡ plain kind }
{
    with_two(kind, 0, 0)
}

fn with_number(kind: u8, number: u64) -> ReplyNumbers
    ensures { result ≡ with_number kind number }
{
    with_two(kind, number, 0)
}

fn with_two(kind: u8, number: u64, other: u64) -> ReplyNumbers
    ensures { result ≡ with_two kind number other }
{
    ReplyNumbers {
        number,
        other,
        item: 0,
        kind,
    }
}

/// The numbers of a reply.
#[tactic(auto, unfolding(crate::specs::Numbers::reply_numbers))]
pub fn reply_numbers(reply: Reply) -> ReplyNumbers
    ensures { result ≡ reply_numbers reply }
{
    match reply {
        Reply::Yes(k) => with_number(0, k),
        Reply::Booked(t) => with_number(1, t),
        Reply::Again(k) => with_number(2, k),
        Reply::Rebooked(t) => with_number(3, t),
        Reply::No => plain(4),
        Reply::Foreign => plain(5),
        Reply::Draining => plain(6),
        Reply::Misuse => plain(7),
        Reply::Cancelled(n) => with_number(8, n),
        Reply::Unbooked => plain(9),
        Reply::Now(t) => with_number(10, t),
        Reply::Fired(i, k) => ReplyNumbers {
            item: i.0,
            ..with_number(11, k)
        },
        Reply::Nothing => plain(12),
        Reply::Ticket(k) => with_number(13, k),
        Reply::TicketQueued(k) => with_number(14, k),
        Reply::TicketCancelled(k, n) => with_two(15, k, n),
        Reply::TicketUnbooked(k) => with_number(16, k),
        Reply::TicketNo(k) => with_number(17, k),
        Reply::Idle => plain(18),
        Reply::Crowded => plain(19),
        Reply::Done => plain(20),
        Reply::Waiting(n) => with_number(21, n),
        Reply::Started(n) => with_number(22, n),
        Reply::StartedEnlist(n, x) => with_two(23, n, x.into()),
        Reply::Held => plain(24),
        Reply::Finished(n) => with_number(25, n),
        Reply::Slept => plain(26),
        Reply::Woke => plain(27),
        Reply::Retired => plain(28),
        Reply::Kept => plain(29),
        Reply::Width(w) => with_number(30, w.into()),
        Reply::Frozen => plain(31),
        Reply::Thawed => plain(32),
        Reply::Gone => plain(33),
        Reply::Timers => plain(34),
    }
}

/// The numbers of a caller or worker.
pub fn who_numbers(who: Who) -> WhoNumbers
    ensures { result ≡ who_numbers who }
{
    match who {
        Who::Caller(caller) => WhoNumbers {
            kind: 0,
            index: caller.0,
            cpu: 0,
        },
        Who::Worker(worker) => WhoNumbers {
            kind: if worker.pool.high { 2 } else { 1 },
            index: worker.index,
            cpu: worker.pool.cpu.0,
        },
    }
}

fn bare(who: WhoNumbers, kind: u8) -> CallNumbers
    ensures { result ≡ bare who kind }
{
    CallNumbers {
        ticket: 0,
        number: 0,
        item: 0,
        kind,
        queue: 0,
        cpu: 0,
        who,
    }
}

fn of_item(who: WhoNumbers, kind: u8, item: ItemId) -> CallNumbers
    ensures { result ≡ numbers_of_item who kind item }
{
    CallNumbers {
        item: item.0,
        ..bare(who, kind)
    }
}

fn of_queue(who: WhoNumbers, kind: u8, queue: QueueId) -> CallNumbers
    ensures { result ≡ of_queue who kind queue }
{
    CallNumbers {
        queue: queue.0,
        ..bare(who, kind)
    }
}

fn of_place(
    who: WhoNumbers,
    kind: u8,
    item: ItemId,
    queue: QueueId,
    cpu: CpuId,
    ticks: u32,
) -> CallNumbers
    ensures { result ≡ of_place who kind item queue cpu ticks }
{
    CallNumbers {
        number: ticks,
        item: item.0,
        queue: queue.0,
        cpu: cpu.0,
        ..bare(who, kind)
    }
}

/// The numbers of a call.
#[tactic(auto, unfolding(crate::specs::Numbers::call_numbers))]
pub fn call_numbers(who: WhoNumbers, call: Call) -> CallNumbers
    ensures { result ≡ call_numbers who call }
{
    match call {
        Call::Queue { item, queue, cpu } => of_place(who, 0, item, queue, cpu, 0),
        Call::Delay {
            item,
            queue,
            cpu,
            ticks,
        } => of_place(who, 1, item, queue, cpu, ticks),
        Call::Modify {
            item,
            queue,
            cpu,
            ticks,
        } => of_place(who, 2, item, queue, cpu, ticks),
        Call::Cancel { item } => of_item(who, 3, item),
        Call::Tick { ticks } => CallNumbers {
            number: ticks,
            ..bare(who, 4)
        },
        Call::Fire => bare(who, 5),
        Call::Flush { queue } => of_queue(who, 6, queue),
        Call::Drain { queue } => of_queue(who, 7, queue),
        Call::FlushItem { item } => of_item(who, 8, item),
        Call::FlushDelayed { item } => of_item(who, 9, item),
        Call::CancelSync { item } => of_item(who, 10, item),
        Call::End { ticket } => CallNumbers {
            ticket,
            ..bare(who, 11)
        },
        Call::Take => bare(who, 12),
        Call::Finish => bare(who, 13),
        Call::Sleep => bare(who, 14),
        Call::Wake => bare(who, 15),
        Call::Retire => bare(who, 16),
        Call::SetMax { queue, max_active } => CallNumbers {
            number: max_active,
            ..of_queue(who, 17, queue)
        },
        Call::Freeze => bare(who, 18),
        Call::Thaw => bare(who, 19),
        Call::Destroy { queue } => of_queue(who, 20, queue),
    }
}

/// The numbers of an entry.
pub fn entry_numbers(entry: &Entry) -> EntryNumbers
    ensures { result ≡ entry_numbers entry.now }
{
    EntryNumbers {
        serial: entry.serial,
        call: call_numbers(who_numbers(entry.who), entry.call),
        reply: reply_numbers(entry.reply),
    }
}

fn not_pending() -> ItemNumbers
    ensures { result ≡ not_pending }
{
    ItemNumbers {
        number: 0,
        run: 0,
        pending: 0,
        queue: 0,
        cpu: 0,
        runs: 0,
        worker: WhoNumbers {
            kind: 0,
            index: 0,
            cpu: 0,
        },
    }
}

fn pending_at(kind: u8, place: Place, number: u64) -> ItemNumbers
    ensures { result ≡ pending_at kind place number }
{
    ItemNumbers {
        number,
        pending: kind,
        queue: place.queue.0,
        cpu: place.cpu.0,
        ..not_pending()
    }
}

fn pending_numbers(pending: Pending) -> ItemNumbers
    ensures { result ≡ pending_numbers pending }
{
    match pending {
        Pending::No => not_pending(),
        Pending::Booked { place, due } => pending_at(1, place, due),
        Pending::Queued { place, number } => pending_at(2, place, number),
    }
}

/// The numbers of what an item does.
pub fn item_numbers(state: &ItemState) -> ItemNumbers
    ensures { result ≡ item_numbers state.now }
{
    let pending = pending_numbers(state.pending);
    match state.run {
        Some(run) => ItemNumbers {
            run: run.number,
            runs: 1,
            worker: who_numbers(Who::Worker(run.worker)),
            ..pending
        },
        None => pending,
    }
}
