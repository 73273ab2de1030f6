//! How an entry is applied to each part: one that is that of a past is then that of the longer past.

ghost use Rattle.std.specs.Prelude.{◌≡◌, ◌∷◌, List};
ghost use Rattle.cmwq_model.specs.declared.entry.Entry as entries;
ghost use Rattle.cmwq_model.specs.Prelude.{Layout, newly_active};
ghost use Rattle.cmwq_refinement.specs.Flights.{flights_of};
ghost use Rattle.cmwq_refinement.specs.Tickets.{tickets_of};
ghost use Rattle.cmwq_refinement.specs.Timers.{timers_of};
ghost use Rattle.cmwq_state.specs.Effects.{IsNextEffect};
ghost use Rattle.cmwq_state.specs.Gone.{AreGone};
ghost use Rattle.cmwq_state.specs.Pwqs.{ArePwqsOf};
ghost use Rattle.cmwq_state.specs.Tables.{ArePools, AreBooks, AreSerials};
ghost use Rattle.cmwq_state.specs.Widths.{AreWidths};

use crate::effect::Effect;
use crate::tables::{
    begin_in_books, cancel_in_pools, done_in_books, end_in_books, frozen_after, list_active,
    lose_queue, move_flights, move_pwqs, move_tickets, open_in_books, reply_in_pools, set_timers,
    set_width, who_place,
};
use cmwq_flush::FlushBooks;
use cmwq_inflight::Flights;
use cmwq_model::{QueueShape, Queueing};
use cmwq_pool::Pools;
use cmwq_pwq::Pwqs;
use cmwq_ticket::Tickets;
use cmwq_timer::Timers;

/// Each queue's max_active, and whether the freezable queues are frozen, which is answered.
#[inline(always)]
pub(crate) fn apply_widths(most: &mut Vec<u32>, frozen: bool, effect: &Effect) -> bool
    requires { (s : Layout) × (past : List entries.Entry) × IsNextEffect s past effect.now
        × AreWidths s past most.old.items frozen }
    ensures { (s : Layout) (past : List entries.Entry) → IsNextEffect s past effect.now
        → AreWidths s past most.old.items frozen → AreWidths s (effect.now.entry ∷ past) most.new.items result }
{
    let entry = effect.entry;
    set_width(most, entry.call, entry.reply);
    frozen_after(entry.reply, frozen)
}

/// The pool workqueues, by the widths after the entry. What became active is found on the way.
#[inline(always)]
pub(crate) fn apply_pwqs(
    pwqs: &mut Pwqs,
    queues: &[QueueShape],
    most: &[u32],
    frozen: bool,
    effect: &Effect,
)
    requires { (s : Layout) × (past : List entries.Entry) × IsNextEffect s past effect.now × (queues.now ≡ s.queues)
        × AreWidths s (effect.now.entry ∷ past) most.now frozen × ArePwqsOf s past pwqs.old }
    ensures { (s : Layout) (past : List entries.Entry) → IsNextEffect s past effect.now → queues.now ≡ s.queues
        → AreWidths s (effect.now.entry ∷ past) most.now frozen → ArePwqsOf s past pwqs.old
        → ArePwqsOf s (effect.now.entry ∷ past) pwqs.new × (pwqs.new.activated ≡ newly_active s past effect.now.entry) }
{
    move_pwqs(
        pwqs,
        queues,
        most,
        frozen,
        effect.entry.reply,
        effect.ended,
        effect.opened,
    );
}

/// The pools, with what became active.
#[inline(always)]
pub(crate) fn apply_pools(
    pools: &mut Pools,
    queues: &[QueueShape],
    activated: &[Queueing],
    effect: &Effect,
)
    requires { (s : Layout) × (past : List entries.Entry) × IsNextEffect s past effect.now × (queues.now ≡ s.queues)
        × (activated.now ≡ newly_active s past effect.now.entry) × ArePools s past pools.old }
    ensures { (s : Layout) (past : List entries.Entry) → IsNextEffect s past effect.now → queues.now ≡ s.queues
        → activated.now ≡ newly_active s past effect.now.entry → ArePools s past pools.old
        → ArePools s (effect.now.entry ∷ past) pools.new }
{
    let entry = effect.entry;
    reply_in_pools(pools, entry.who, entry.reply);
    cancel_in_pools(queues, pools, entry.reply, effect.ended);
    list_active(queues, pools, activated);
}

/// The flush book of each queue, and the open numbers of items.
#[inline(always)]
pub(crate) fn apply_books(books: &mut FlushBooks, effect: &Effect)
    requires { (s : Layout) × (past : List entries.Entry) × IsNextEffect s past effect.now × AreBooks s past books.old }
    ensures { (s : Layout) (past : List entries.Entry) → IsNextEffect s past effect.now → AreBooks s past books.old
        → AreBooks s (effect.now.entry ∷ past) books.new }
{
    end_in_books(books, effect.ended);
    open_in_books(books, effect.opened);
    done_in_books(books, effect.done);
    begin_in_books(books, effect.begun);
}

/// The queueings in flight.
#[inline(always)]
pub(crate) fn apply_flights(flights: &mut Flights, effect: &Effect)
    requires { (s : Layout) × (past : List entries.Entry) × IsNextEffect s past effect.now
        × (flights.old ≡ flights_of s past) }
    ensures { (s : Layout) (past : List entries.Entry) → IsNextEffect s past effect.now
        → flights.old ≡ flights_of s past → flights.new ≡ flights_of s (effect.now.entry ∷ past) }
{
    move_flights(
        flights,
        effect.entry.reply,
        effect.ended,
        effect.started,
        effect.opened,
    );
}

/// The unended tickets.
#[inline(always)]
pub(crate) fn apply_tickets(tickets: &mut Tickets, effect: &Effect)
    requires { (s : Layout) × (past : List entries.Entry) × IsNextEffect s past effect.now
        × (tickets.old ≡ tickets_of s past) }
    ensures { (s : Layout) (past : List entries.Entry) → IsNextEffect s past effect.now
        → tickets.old ≡ tickets_of s past → tickets.new ≡ tickets_of s (effect.now.entry ∷ past) }
{
    move_tickets(tickets, effect.done, effect.begun);
}

/// Which queues are gone.
#[inline(always)]
pub(crate) fn apply_gone(gone: &mut Vec<bool>, effect: &Effect)
    requires { (s : Layout) × (past : List entries.Entry) × IsNextEffect s past effect.now
        × AreGone s past gone.old.items }
    ensures { (s : Layout) (past : List entries.Entry) → IsNextEffect s past effect.now → AreGone s past gone.old.items
        → AreGone s (effect.now.entry ∷ past) gone.new.items }
{
    lose_queue(gone, effect.done);
}

/// The bookings.
#[inline(always)]
pub(crate) fn apply_timers(timers: &mut Timers, effect: &Effect)
    requires { (s : Layout) × (past : List entries.Entry) × IsNextEffect s past effect.now
        × (timers.old ≡ timers_of s past) }
    ensures { (s : Layout) (past : List entries.Entry) → IsNextEffect s past effect.now → timers.old ≡ timers_of s past
        → timers.new ≡ timers_of s (effect.now.entry ∷ past) }
{
    set_timers(timers, effect.settled, effect.booked);
}

/// How many entries each caller and each worker has.
#[inline(always)]
pub(crate) fn apply_serials(serials: &mut Vec<u64>, effect: &Effect)
    requires { (s : Layout) × (past : List entries.Entry) × IsNextEffect s past effect.now
        × AreSerials s past serials.old.items }
    ensures { (s : Layout) (past : List entries.Entry) → IsNextEffect s past effect.now
        → AreSerials s past serials.old.items → AreSerials s (effect.now.entry ∷ past) serials.new.items }
{
    let entry = effect.entry;
    serials[who_place(entry.who)] = entry.serial + 1;
}
