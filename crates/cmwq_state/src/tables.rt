//! Where each pool, flush book and serial stands, and how one thing that an entry did is applied to them.

ghost use Rattle.std.specs.Prelude.{◌≡◌, ◌*◌, ◌<◌, length, is_some, true, false, IfSome, Some};
ghost use Rattle.cmwq_model.specs.declared.call.Call.{Call};
ghost use Rattle.cmwq_model.specs.declared.id.Who.{Who};
ghost use Rattle.cmwq_model.specs.declared.id.PoolId.{PoolId};
ghost use Rattle.cmwq_model.specs.declared.entry.Entry.{Entry};
ghost use Rattle.cmwq_model.specs.Prelude.{Layout, fits, most_cpus, pool_at, finishes, frozen_after, item_number};
ghost use Rattle.cmwq_model.specs.Prelude.{number_finished};
ghost use Rattle.cmwq_pool.specs.Pools.{pool_numbered, with_pool};
ghost use Rattle.cmwq_refinement.specs.Pools.{MayAllBeAdded, MayReplyInPool, pool_after_activation, pool_after_cancel};
ghost use Rattle.cmwq_refinement.specs.Pools.{pool_after_reply, pool_after_worker};
ghost use Rattle.cmwq_refinement.specs.FlushBooks.{flushes_after_begun, flushes_after_done, flushes_after_end};
ghost use Rattle.cmwq_refinement.specs.FlushBooks.{flushes_after_opening};
ghost use Rattle.cmwq_refinement.specs.ItemNumbers.{numbers_after_end, numbers_after_opening};
ghost use Rattle.cmwq_refinement.specs.Timers.{MayBeSet, timers_after_settling};
ghost use Rattle.cmwq_state.specs.Tables as tables;
ghost use Rattle.cmwq_state.specs.Tables.{EachBook, EachPool, IsThere, ListEachItemOnce, MayBeDoneInBooks, MayBeListed};
ghost use Rattle.cmwq_state.specs.Tables.{MayBeginInBooks, MayCancelInPools, MayEndInBooks, MayListOne, MayOpenInBooks};
ghost use Rattle.cmwq_state.specs.Tables.{MayReplyToWorker, only, pool_in, pool_with, pool_without, those_in};
ghost use Rattle.cmwq_refinement.specs.Flights.{MayEndInFlight, MayEndOf, MayOpenInFlight, MayStartInFlight};
ghost use Rattle.cmwq_refinement.specs.Flights.{flights_after_end, flights_after_opening, flights_after_start};
ghost use Rattle.cmwq_refinement.specs.Tickets.{MayEndTicket, MayGiveTicket, tickets_after_end, tickets_after_giving};
ghost use Rattle.cmwq_state.specs.Gone.{LosesQueue, MayLoseQueue};
ghost use Rattle.cmwq_pwq.specs.Pwqs.{AreBehind, ArePlaced, IsPassed, IsPlacedIf, MayEndInPwqs, MayOpenInPwqs};
ghost use Rattle.cmwq_pwq.specs.Pwqs.{is_waiting, pwqs_after_end, pwqs_after_opening, width_by};
ghost use Rattle.cmwq_state.specs.Widths.{MaySetWidth, SetsWidth};
ghost use Rattle.cmwq_model.specs.Widths.{keeps_widths};

use cmwq_flush::FlushBooks;
use cmwq_inflight::Flights;
use cmwq_model::{
    Booking, Call, ItemId, MOST_CALLERS, MOST_WORKERS, Number, Place, PoolId, QueueShape, Queueing,
    Reply, Ticket, Who,
};
use cmwq_pool::Pools;
use cmwq_pwq::Pwqs;
use cmwq_ticket::Tickets;
use cmwq_timer::Timers;

/// Whoever makes a call that fits a layout is there: so `fits` of a shape shows of whom the serial may be asked.
pub fn those_who_fit_are_there()
    ensures { (s : Layout) (who : Who) (c : Call) → fits s who c ≡ true → IsThere s who }
{}

/// The number of a pool: two stand beside each other for each CPU.
#[inline(always)]
pub(crate) fn pool_place(pool: PoolId) -> u16
    ensures { result ≡ tables.pool_place pool }
{
    2 * u16::from(pool.cpu.0) + u16::from(pool.high)
}

#[inline(always)]
pub(crate) fn who_place(who: Who) -> usize
    ensures { result ≡ tables.who_place who }
{
    match who {
        Who::Caller(caller) => usize::from(caller.0),
        Who::Worker(worker) => {
            usize::from(MOST_CALLERS)
                + usize::from(MOST_WORKERS) * usize::from(pool_place(worker.pool))
                + usize::from(worker.index)
        }
    }
}

/// How many serials are kept for so many CPUs.
pub(crate) fn who_places(cpus: u8) -> usize
    ensures { result ≡ tables.who_places cpus }
{
    usize::from(MOST_CALLERS) + usize::from(MOST_WORKERS) * (2 * usize::from(cpus))
}

/// Applies a reply to the pool of its worker.
#[inline(always)]
fn reply_in_pool(pools: &mut Pools, pool: u16, worker: u8, reply: Reply)
    requires pool { pool < length pools.old }
    requires may { MayReplyInPool reply (pool_numbered pools.old pool) worker }
    ensures { pools.new ≡ with_pool (pool_after_reply reply worker) pool pools.old }
{
    match reply {
        Reply::Started(_) | Reply::StartedEnlist(_, _) => {
            pools.start(pool, worker);
        }
        Reply::Finished(_) => {
            pools.finish(pool, worker);
        }
        Reply::Slept => pools.sleep(pool, worker),
        Reply::Woke => pools.wake(pool, worker),
        Reply::Retired => pools.retire(pool, worker),
        _ => {}
    }
}

/// Applies a worker's reply to its pool.
#[inline(always)]
pub(crate) fn reply_in_pools(pools: &mut Pools, who: Who, reply: Reply)
    requires { MayReplyToWorker who reply pools.old }
    ensures { EachPool (λ p. pool_after_worker p who reply) pools.old pools.new }
{
    if let Who::Worker(worker) = who {
        reply_in_pool(pools, pool_place(worker.pool), worker.index, reply);
    }
}

/// Ends a queueing in the flush book of its queue and among the numbers of its item.
#[inline(always)]
pub(crate) fn end_in_books(books: &mut FlushBooks, ended: Option<Queueing>)
    requires { MayEndInBooks ended books.old }
    ensures books { EachBook (flushes_after_end ended) books.old books.new }
    ensures numbers { books.new.opened ≡ numbers_after_end ended books.old.opened }
{
    if let Some(queueing) = ended {
        books.ended(queueing.place.queue, queueing.item, queueing.number);
    }
}

/// Opens a queueing in the flush book of its queue and among the numbers of its item.
#[inline(always)]
pub(crate) fn open_in_books(books: &mut FlushBooks, opened: Option<Queueing>)
    requires { MayOpenInBooks opened books.old }
    ensures books { EachBook (flushes_after_opening opened) books.old books.new }
    ensures numbers { books.new.opened ≡ numbers_after_opening opened books.old.opened }
{
    if let Some(queueing) = opened {
        books.opened(queueing.place.queue, queueing.item, queueing.number);
    }
}

/// Takes a queueing that was cancelled or replaced from its pool.
#[inline(always)]
pub(crate) fn remove_from_pool(pools: &mut Pools, pool: PoolId, number: Number, item: ItemId)
    requires { tables.pool_place pool < length pools.old }
    ensures { EachPool (pool_without pool number item.0) pools.old pools.new }
{
    pools.remove(pool_place(pool), number, item);
}

#[inline(always)]
fn place_pool(queues: &[QueueShape], place: Place) -> PoolId
    requires { place.queue.0 < length queues.now }
    ensures is { (s : Layout) → s.queues ≡ queues.now → result ≡ pool_at s place }
    ensures cpu { result.cpu ≡ place.cpu }
{
    PoolId {
        cpu: place.cpu,
        high: queues[usize::from(place.queue.0)].high,
    }
}

#[inline(always)]
fn is_finish_of(reply: Reply, number: Number) -> bool
    ensures { (e : Entry) → e.reply ≡ reply → result ≡ finishes number e }
{
    match reply {
        Reply::Finished(finished) => finished == number,
        _ => false,
    }
}

/// Applies the end of a queueing to its pool: where it didn't finish, it is listed no more.
#[inline(always)]
pub(crate) fn cancel_in_pools(
    queues: &[QueueShape],
    pools: &mut Pools,
    reply: Reply,
    ended: Option<Queueing>,
)
    requires { MayCancelInPools ended queues.now pools.old }
    ensures { (s : Layout) (e : Entry) → s.queues ≡ queues.now → e.reply ≡ reply
        → EachPool (λ p. pool_after_cancel s p e ended) pools.old pools.new }
{
    if let Some(queueing) = ended {
        if !is_finish_of(reply, queueing.number) {
            let pool = place_pool(queues, queueing.place);
            remove_from_pool(pools, pool, queueing.number, queueing.item);
        }
    }
}

/// Sets the timer of what is booked, or else clears that of the item whose booking is settled.
#[inline(always)]
pub(crate) fn set_timers(timers: &mut Timers, settled: Option<ItemId>, booked: Option<Booking>)
    requires { MayBeSet (item_number settled) booked timers.old }
    ensures { timers.new ≡ timers_after_settling (item_number settled) booked timers.old }
{
    match booked {
        Some(made) => timers.book(made.item, made.place, made.due, made.number),
        None => {
            if let Some(item) = settled {
                timers.unbook(item);
            }
        }
    }
}

/// Ends a flush in the book of its queue. What other tickets wait for is read off what is open.
#[inline(always)]
pub(crate) fn done_in_books(books: &mut FlushBooks, done: Option<Ticket>)
    requires { MayBeDoneInBooks done books.old }
    ensures books { EachBook (flushes_after_done done) books.old books.new }
    ensures numbers { books.new.opened ≡ books.old.opened }
{
    if let Some(ticket) = done {
        if let Call::Flush { queue } = ticket.call {
            books.end(queue, ticket.number);
        }
    }
}

/// Begins a flush in the book of its queue.
#[inline(always)]
pub(crate) fn begin_in_books(books: &mut FlushBooks, begun: Option<Ticket>)
    requires { MayBeginInBooks begun books.old }
    ensures books { EachBook (flushes_after_begun begun) books.old books.new }
    ensures numbers { books.new.opened ≡ books.old.opened }
{
    if let Some(ticket) = begun {
        if let Call::Flush { queue } = ticket.call {
            books.begin(queue, ticket.number);
        }
    }
}

/// Lists a queueing that became active in its pool.
#[inline(always)]
fn list_one(queues: &[QueueShape], pools: &mut Pools, queueing: Queueing)
    requires { MayListOne queues.now queueing pools.old }
    ensures { EachPool (pool_with queues.now queueing) pools.old pools.new }
{
    let queue = queues[usize::from(queueing.place.queue.0)];
    let pool = PoolId {
        cpu: queueing.place.cpu,
        high: queue.high,
    };
    pools.add(
        pool_place(pool),
        queueing.number,
        queueing.item,
        queue.intensive,
    );
}

/// Lists what became active in its pools.
#[inline(always)]
pub(crate) fn list_active(queues: &[QueueShape], pools: &mut Pools, activated: &[Queueing])
    requires there { MayBeListed queues.now activated.now pools.old }
    requires may { (p : PoolId)
        → MayAllBeAdded (only queues.now) (those_in queues.now p activated.now) (pool_in pools.old p) }
    requires once { ListEachItemOnce queues.now activated.now pools.old }
    ensures { EachPool (λ p. pool_after_activation (only queues.now) (those_in queues.now p activated.now)) pools.old
        pools.new }
{
    for queueing in activated {
        list_one(queues, pools, *queueing);
    }
}

/// Sets a queue's max_active to what a set_max was answered.
#[inline(always)]
pub(crate) fn set_width(most: &mut Vec<u32>, call: Call, reply: Reply)
    requires { MaySetWidth call most.old.items }
    ensures { SetsWidth call reply most.old.items most.new.items }
{
    if let Call::SetMax { queue, .. } = call {
        if let Reply::Width(width) = reply {
            most[usize::from(queue.0)] = width;
        }
    }
}

/// Whether the system is frozen after this reply.
#[inline(always)]
pub(crate) fn frozen_after(reply: Reply, frozen: bool) -> bool
    ensures { result ≡ frozen_after reply frozen }
{
    match reply {
        Reply::Frozen => true,
        Reply::Thawed => false,
        _ => frozen,
    }
}

/// Ends a queueing and opens one in what waits.
#[cold]
fn move_waiting(pwqs: &mut Pwqs, ended: Option<Queueing>, opened: Option<Queueing>)
    requires ended { MayEndInPwqs ended pwqs.old }
    requires opened { MayOpenInPwqs opened (pwqs_after_end ended pwqs.old) }
    ensures { pwqs.new ≡ pwqs_after_opening opened (pwqs_after_end ended pwqs.old) }
{
    if let Some(queueing) = ended {
        pwqs.end(queueing);
    }
    if let Some(queueing) = opened {
        pwqs.open(queueing);
    }
}

/// Ends a queueing and opens one in what waits; what is below max_active then becomes active. All that wait are
/// looked at only where the widths may have changed.
#[inline(always)]
pub(crate) fn move_pwqs(
    pwqs: &mut Pwqs,
    queues: &[QueueShape],
    most: &[u32],
    frozen: bool,
    reply: Reply,
    ended: Option<Queueing>,
    opened: Option<Queueing>,
)
    requires most { length most.now ≡ length queues.now }
    requires counts { length pwqs.old.counts ≡ most_cpus * length queues.now }
    requires ended { MayEndInPwqs ended pwqs.old }
    requires ended_placed { IsPlacedIf (length queues.now) ended }
    requires ran { is_some (number_finished reply) ≡ true → IfSome ended (λ x. is_waiting pwqs.old x ≡ false) }
    requires opened { MayOpenInPwqs opened (pwqs_after_end ended pwqs.old) }
    requires opened_placed { IsPlacedIf (length queues.now) opened }
    requires behind { keeps_widths reply ≡ true
        → AreBehind (width_by queues.now most.now frozen) pwqs.old.counts pwqs.old.waiting }
    requires placed { ArePlaced (length queues.now)
        (pwqs_after_opening opened (pwqs_after_end ended pwqs.old)).waiting }
    ensures { IsPassed (width_by queues.now most.now frozen) (pwqs_after_opening opened (pwqs_after_end ended pwqs.old))
        pwqs.new }
{
    if reply.keeps_widths() {
        pwqs.go_on(queues, most, frozen, ended, reply.is_finish(), opened);
    } else {
        move_waiting(pwqs, ended, opened);
        pwqs.pass(queues, most, frozen);
    }
}

/// Ends a queueing in flight: the run of its item where it finished, or else the unstarted one.
#[inline(always)]
fn end_flight(flights: &mut Flights, reply: Reply, queueing: Queueing)
    requires { MayEndOf reply queueing flights.old }
    ensures { flights.new ≡ flights_after_end reply (Some queueing) flights.old }
{
    if reply.is_finish() {
        flights.finish(queueing.item);
    } else {
        flights.take_back(queueing.item);
    }
}

/// Ends a queueing in flight, starts one, and opens one.
#[inline(always)]
pub(crate) fn move_flights(
    flights: &mut Flights,
    reply: Reply,
    ended: Option<Queueing>,
    started: Option<Queueing>,
    opened: Option<Queueing>,
)
    requires ended { MayEndInFlight reply ended flights.old }
    requires started { MayStartInFlight started (flights_after_end reply ended flights.old) }
    requires opened { MayOpenInFlight opened (flights_after_start started (flights_after_end reply ended flights.old)) }
    ensures { flights.new
        ≡ flights_after_opening opened (flights_after_start started (flights_after_end reply ended flights.old)) }
{
    if let Some(queueing) = ended {
        end_flight(flights, reply, queueing);
    }
    if let Some(queueing) = started {
        flights.start(queueing.item);
    }
    if let Some(queueing) = opened {
        flights.open(queueing);
    }
}

/// Ends a ticket, and gives one.
#[inline(always)]
pub(crate) fn move_tickets(tickets: &mut Tickets, done: Option<Ticket>, begun: Option<Ticket>)
    requires ended { MayEndTicket done tickets.old }
    requires given { MayGiveTicket begun (tickets_after_end done tickets.old) }
    ensures { tickets.new ≡ tickets_after_giving begun (tickets_after_end done tickets.old) }
{
    if let Some(ticket) = done {
        tickets.end(ticket.caller, ticket.number);
    }
    if let Some(ticket) = begun {
        tickets.give(ticket);
    }
}

/// Marks a queue as gone once its destroy ends.
#[inline(always)]
pub(crate) fn lose_queue(gone: &mut Vec<bool>, done: Option<Ticket>)
    requires { MayLoseQueue done gone.old.items }
    ensures { LosesQueue done gone.old.items gone.new.items }
{
    if let Some(ticket) = done {
        if let Call::Destroy { queue } = ticket.call {
            gone[usize::from(queue.0)] = true;
        }
    }
}
