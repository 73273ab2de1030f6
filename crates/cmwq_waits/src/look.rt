//! What runs that wait hold up, read off a state: as it stands once a run has begun to wait.

ghost use Rattle.std.specs.Prelude.{◌≡◌, ◌<◌, ◌≤◌, if◌then◌else◌, Contains, false, true, length, filter};
ghost use Rattle.std.specs.Prelude.{option_to_list};
ghost use Rattle.std.specs.List.{list_any};
ghost use Rattle.cmwq_model.specs.Prelude.{has_numbers, is_ahead, is_started, is_unstarted, past_of, pool_at};
ghost use Rattle.cmwq_model.specs.Prelude.{same_pool, still_open};
ghost use Rattle.cmwq_model.specs.Active as active;
ghost use Rattle.cmwq_state.specs.Waits.{IsUnendedOrNext};
ghost use Rattle.cmwq_waits.specs.HeldUp.{awaits, has_run_of, have_all_places, have_all_workers, is_held_up, is_kept};
ghost use Rattle.cmwq_waits.specs.HeldUp.{places_ahead};
ghost use Rattle.cmwq_waits.specs.Looks.{AreSeen, KeepNone, WaitsForQueue, awaited_by};
ghost use Rattle.cmwq_waits.specs.Looks.{IsKnown, IsScene, IsSeen, holds_unstarted, is_item_held, unstarted_left};

use crate::calls::item_taken_back;
use crate::run_wait::RunWait;
use cmwq_model::{Call, CpuId, ItemId, Place, QueueId, Queueing, Shape, Ticket};
use cmwq_state::State;
use std::marker::Model;

/// What a ticket waits for.
#[derive(Clone, Copy)]
enum Awaited {
    Item(ItemId),
    Queue(QueueId),
}

/// A state, and what is different in it once a run waits: what its call takes back, and what it queues.
#[derive(Drop)]
pub(crate) struct Look<'a> {
    pub(crate) state: &'a State,
    pub(crate) shape: &'a Shape,
    pub(crate) taken_back: Option<ItemId>,
    pub(crate) queued: Option<Queueing>,
}

impl<'a> Model for Look<'a> {
    ghost use Rattle.std.specs.Prelude.{◌≡◌};
    ghost use Rattle.cmwq_model.specs.Prelude.{IsLegal, past_of};
    ghost use Rattle.cmwq_waits.specs.HeldUp.{Scene};
    ghost use Rattle.cmwq_waits.specs.Refused.{scene_with};
    ghost use Rattle.cmwq_waits.specs.Looks.{IsQueuedNext};

    ghost Value = { Scene };

    ghost view = { λ l. scene_with l.shape.now (past_of l.state.now.entries) l.taken_back l.queued };

    ghost invariant = { λ l. (l.state.now.layout ≡ l.shape.now) × IsLegal l.shape.now (past_of l.state.now.entries)
        × IsQueuedNext l.shape.now (past_of l.state.now.entries) l.queued };
}

/// The unstarted queueing of an item, unless it is taken back.
fn unstarted_left(state: &State, taken_back: Option<ItemId>, item: ItemId) -> Option<Queueing>
    requires { item.0 < state.now.layout.items }
    ensures { result ≡ unstarted_left (past_of state.now.entries) taken_back item.0 }
{
    match taken_back {
        Some(taken) if taken.0 == item.0 => None,
        _ => state.unstarted(item),
    }
}

/// Whether they are on the same queue and CPU, and the first is older.
fn is_ahead(queueing: &Queueing, of: &Queueing) -> bool
    ensures { result ≡ is_ahead of.now queueing.now }
{
    queueing.place.queue.0 == of.place.queue.0
        && queueing.place.cpu.0 == of.place.cpu.0
        && queueing.number < of.number
}

fn one_if(test: bool) -> u32
    ensures { result ≡ (if test then 1 else 0) }
{
    if test { 1 } else { 0 }
}

impl<'a> Look<'a> {
    /// It is the scene of a legal history. Nothing runs.
    fn scene(&self)
        ensures { IsScene self.now }
    {
        let _seen = (self.taken_back, self.queued);
    }

    /// The unstarted queueing of an item.
    fn unstarted(&self, item: ItemId) -> Option<Queueing>
        requires { item.0 < self.now.layout.items }
        ensures { filter (is_unstarted self.now.past item.0) self.now.opened ≡ option_to_list result }
    {
        match self.queued {
            Some(queueing) if queueing.item.0 == item.0 => Some(queueing),
            _ => unstarted_left(self.state, self.taken_back, item),
        }
    }

    /// Whether the queueings at a place run by workers of the same pool.
    fn same_pool(&self, place: &Place, other: &Place) -> bool
        ensures { result ≡ same_pool (pool_at self.now.layout place.now) (pool_at self.now.layout other.now) }
    {
        let queues = self.shape.queues();
        let is_high = |queue: QueueId| match queues.get(usize::from(queue.0)) {
            Some(queue) => queue.high,
            None => false,
        };
        place.cpu.0 == other.cpu.0 && is_high(place.queue) == is_high(other.queue)
    }

    /// Whether these runs have all workers of the pool of a place.
    fn have_all_workers(&self, set: &[RunWait], place: &Place) -> bool
        ensures { result ≡ have_all_workers self.now.layout set.now place.now }
    {
        let many = set
            .iter()
            .filter(|wait| self.same_pool(&wait.run.place, place))
            .count();
        usize::from(self.shape.counts().workers) <= many
    }

    /// How many queueings of the item that this run is of are ahead of one.
    fn places_ahead(&self, wait: &RunWait, of: &Queueing) -> u32
        requires { IsSeen self.now.past wait.now }
        ensures is { result ≡ places_ahead self.now of.now wait.now }
        ensures few { result ≤ 2 }
    {
        self.scene();
        let behind = match self.unstarted(wait.run.item) {
            Some(queueing) => is_ahead(&queueing, of),
            None => false,
        };
        one_if(is_ahead(&wait.run, of)) + one_if(behind)
    }

    /// Whether these runs, and what their items have queued behind them, have all places before this one.
    fn have_all_places(&self, set: &[RunWait], of: &Queueing) -> bool
        requires seen { AreSeen self.now.past set.now }
        requires queue { of.now.place.queue.0 < length self.now.layout.queues }
        ensures { result ≡ have_all_places self.now set.now of.now }
    {
        self.scene();
        let mut held = 0u32;
        for wait in set {
            held = held.saturating_add(self.places_ahead(wait, of));
        }
        self.state.max_active(of.place.queue) <= held
    }

    fn is_active(&self, queueing: &Queueing) -> bool
        requires { Contains self.now.opened queueing.now }
        ensures { result ≡ active.is_active self.now.layout self.now.past queueing.now }
    {
        self.scene();
        queueing.number < self.state.number() && self.state.is_active(*queueing)
    }

    /// Whether an unstarted queueing can only start after one of these runs has ended.
    fn keeps_unstarted(&self, set: &[RunWait], queueing: &Queueing) -> bool
        requires seen { AreSeen self.now.past set.now }
        requires open { Contains self.now.opened queueing.now }
        requires unstarted { is_started self.now.past queueing.now.number ≡ false }
        ensures { result ≡ is_kept self.now set.now queueing.now }
    {
        self.scene();
        has_run_of(set, queueing.item)
            || self.have_all_workers(set, &queueing.place)
            || !self.is_active(queueing) && self.have_all_places(set, queueing)
    }

    /// Whether the ticket waits for the unstarted queueing of an item, and these runs keep that.
    fn holds_item(&self, set: &[RunWait], ticket: Ticket, item: ItemId) -> bool
        requires seen { AreSeen self.now.past set.now }
        requires known { IsKnown self.now ticket }
        requires item { item.0 < self.now.layout.items }
        ensures { result ≡ is_item_held self.now set.now ticket item.0 }
    {
        self.scene();
        match self.unstarted(item) {
            Some(queueing) => self.state.holds_up(ticket, queueing)
                && self.keeps_unstarted(set, &queueing),
            None => false,
        }
    }

    /// Whether these runs have all workers or all places of the queue on some CPU. Where they do not, they keep the
    /// unstarted queueings of their own items alone.
    fn fill(&self, set: &[RunWait], queue: QueueId) -> bool
        requires seen { AreSeen self.now.past set.now }
        requires queue { queue.0 < length self.now.layout.queues }
        ensures { result ≡ false → KeepNone self.now set.now queue.0 }
    {
        self.scene();
        for cpu in 0..self.shape.counts().cpus {
            let last = Queueing {
                item: ItemId(0),
                place: Place {
                    queue,
                    cpu: CpuId(cpu),
                },
                number: self.state.number(),
            };
            if self.have_all_workers(set, &last.place) || self.have_all_places(set, &last) {
                return true;
            }
        }
        false
    }

    /// Whether the ticket waits for an unstarted queueing of the queue that these runs keep.
    fn holds_queue(&self, set: &[RunWait], ticket: Ticket, queue: QueueId) -> bool
        requires seen { AreSeen self.now.past set.now }
        requires known { IsKnown self.now ticket }
        requires queue { queue.0 < length self.now.layout.queues }
        requires waits { WaitsForQueue self.now ticket queue.0 }
        ensures { result ≡ list_any (holds_unstarted self.now set.now ticket) self.now.opened }
    {
        self.scene();
        for wait in set {
            if self.holds_item(set, ticket, wait.run.item) {
                return true;
            }
        }
        if !self.fill(set, queue) {
            return false;
        }
        for item in 0..self.shape.counts().items {
            if self.holds_item(set, ticket, ItemId(item)) {
                return true;
            }
        }
        false
    }

    /// Whether the ticket waits for one of these runs.
    fn awaits_one(&self, set: &[RunWait], ticket: Ticket) -> bool
        requires seen { AreSeen self.now.past set.now }
        requires known { IsKnown self.now ticket }
        ensures { result ≡ list_any (λ w. awaits self.now.past ticket w.run) set.now }
    {
        self.scene();
        for wait in set {
            if self.awaits_run(ticket, wait.run) {
                return true;
            }
        }
        false
    }

    /// Whether the ticket waits for this run.
    pub(crate) fn awaits_run(&self, ticket: Ticket, run: Queueing) -> bool
        requires known { IsKnown self.now ticket }
        requires open { Contains (still_open self.now.past) run }
        requires started { is_started self.now.past run.number ≡ true }
        ensures { result ≡ awaits self.now.past ticket run }
    {
        match item_taken_back(ticket.call) {
            Some(item) => item.0 == run.item.0,
            None => self.state.holds_up(ticket, run),
        }
    }

    /// Whether these runs hold the ticket up.
    pub(crate) fn is_held_up(&self, set: &[RunWait], ticket: Ticket) -> bool
        requires seen { AreSeen self.now.past set.now }
        requires known { IsKnown self.now ticket }
        ensures { result ≡ is_held_up self.now set.now ticket }
    {
        self.scene();
        self.awaits_one(set, ticket) || self.holds_unstarted(set, ticket)
    }

    fn holds_unstarted(&self, set: &[RunWait], ticket: Ticket) -> bool
        requires seen { AreSeen self.now.past set.now }
        requires known { IsKnown self.now ticket }
        ensures { result ≡ list_any (holds_unstarted self.now set.now ticket) self.now.opened }
    {
        self.scene();
        match awaited_by(ticket.call) {
            Some(Awaited::Item(item)) => self.holds_item(set, ticket, item),
            Some(Awaited::Queue(queue)) => self.holds_queue(set, ticket, queue),
            None => false,
        }
    }
}

/// What is queued that a ticket of this call waits for: what is of an item, or of a queue. A cancel_sync waits for its
/// item's run alone.
fn awaited_by(call: Call) -> Option<Awaited>
    ensures { result ≡ awaited_by call }
{
    match call {
        Call::FlushItem { item } | Call::FlushDelayed { item } => Some(Awaited::Item(item)),
        Call::Flush { queue } | Call::Drain { queue } | Call::Destroy { queue } => {
            Some(Awaited::Queue(queue))
        }
        Call::CancelSync { .. }
        | Call::Queue { .. }
        | Call::Delay { .. }
        | Call::Modify { .. }
        | Call::Cancel { .. }
        | Call::Tick { .. }
        | Call::Fire
        | Call::End { .. }
        | Call::Take
        | Call::Finish
        | Call::Sleep
        | Call::Wake
        | Call::Retire
        | Call::SetMax { .. }
        | Call::Freeze
        | Call::Thaw => None,
    }
}

/// Whether one of these runs is of the item.
fn has_run_of(set: &[RunWait], item: ItemId) -> bool
    ensures { result ≡ has_run_of set.now item.0 }
{
    set.iter().any(|wait| wait.run.item.0 == item.0)
}
