ghost use Rattle.std.specs.Prelude.{◌≡◌, ◌+◌, ◌-◌, ◌<◌, length, nat_lt, slice_index, IfOk, IsTrue};
ghost use Rattle.cmwq_ticket.specs.Counts.{is_counted, no_counts, more_at, less_at, counts_with, counts_without};
ghost use Rattle.cmwq_ticket.specs.Counts.{HasCount, HaveRoom};

use cmwq_model::{Call, NoMemory};
use std::alloc::Global;
use std::marker::Model;

/// How many unended tickets are cancel_syncs of each item, destroys of each queue, and drains or destroys of each
/// queue.
#[derive(Drop)]
pub(crate) struct Counts {
    cancels: Vec<u16>,
    destroys: Vec<u16>,
    drains: Vec<u16>,
}

impl Model for Counts {
    ghost use Rattle.cmwq_ticket.specs.Counts.{TicketCounts};

    ghost Value = { TicketCounts };

    ghost view = { λ a. record { cancels = a.cancels.items; destroys = a.destroys.items; drains = a.drains.items } };
}

impl Counts {
    /// No ticket, of so many items and queues.
    pub(crate) fn new(alloc: Global, items: u16, queues: usize) -> Result<Self, NoMemory>
        ensures { IfOk result (λ counts. counts ≡ no_counts items queues) }
    {
        Ok(Counts {
            cancels: vec![in alloc; 0; usize::from(items)]?,
            destroys: vec![in alloc; 0; queues]?,
            drains: vec![in alloc; 0; queues]?,
        })
    }

    /// Makes these counts a copy of the others, which are of as many items and queues.
    pub(crate) fn copy_from(&mut self, other: &Counts)
        requires cancels { length self.old.cancels ≡ length other.now.cancels }
        requires destroys { length self.old.destroys ≡ length other.now.destroys }
        requires drains { length self.old.drains ≡ length other.now.drains }
        ensures { self.new ≡ other.now }
    {
        self.cancels.copy_from_slice(&other.cancels);
        self.destroys.copy_from_slice(&other.destroys);
        self.drains.copy_from_slice(&other.drains);
    }

    /// How many cancel each item.
    pub(crate) fn cancels(&self) -> &[u16]
        ensures { result.now ≡ self.now.cancels }
    {
        &self.cancels
    }

    /// How many destroy each queue.
    pub(crate) fn destroys(&self) -> &[u16]
        ensures { result.now ≡ self.now.destroys }
    {
        &self.destroys
    }

    /// How many drain or destroy each queue.
    pub(crate) fn drains(&self) -> &[u16]
        ensures { result.now ≡ self.now.drains }
    {
        &self.drains
    }

    /// A ticket of this call was given.
    pub(crate) fn raise(&mut self, call: Call)
        requires counted { IsTrue (is_counted (length self.old.cancels) (length self.old.drains) call) }
        requires sized { length self.old.destroys ≡ length self.old.drains }
        requires room { HaveRoom self.old }
        ensures { self.new ≡ counts_with call self.old }
    {
        match call {
            Call::CancelSync { item } => raise(&mut self.cancels, usize::from(item.0)),
            Call::Drain { queue } => raise(&mut self.drains, usize::from(queue.0)),
            Call::Destroy { queue } => {
                raise(&mut self.destroys, usize::from(queue.0));
                raise(&mut self.drains, usize::from(queue.0));
            }
            _ => {}
        }
    }

    /// A ticket of this call was ended.
    pub(crate) fn lower(&mut self, call: Call)
        requires { HasCount call self.old }
        ensures { self.new ≡ counts_without call self.old }
    {
        match call {
            Call::CancelSync { item } => lower(&mut self.cancels, usize::from(item.0)),
            Call::Drain { queue } => lower(&mut self.drains, usize::from(queue.0)),
            Call::Destroy { queue } => {
                lower(&mut self.destroys, usize::from(queue.0));
                lower(&mut self.drains, usize::from(queue.0));
            }
            _ => {}
        }
    }
}

/// Whether something is counted at this place.
pub(crate) fn has_some(counts: &[u16], place: usize) -> bool
    ensures { result ≡ nat_lt 0 (slice_index counts.now place) }
{
    place < counts.len() && counts[place] > 0
}

fn raise(counts: &mut Vec<u16>, place: usize)
    requires there { place < length counts.old.items }
    requires room { slice_index counts.old.items place < 65535 }
    ensures { counts.new.items ≡ more_at place counts.old.items }
{
    counts[place] += 1;
}

fn lower(counts: &mut Vec<u16>, place: usize)
    requires { 0 < slice_index counts.old.items place }
    ensures { counts.new.items ≡ less_at place counts.old.items }
{
    counts[place] -= 1;
}
