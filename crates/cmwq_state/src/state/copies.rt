//! Copies of a state.

ghost use Rattle.std.specs.Prelude.{◌≡◌, ◌↔◌, IfOk, IsOk, IsTrue, OnErr};
ghost use Rattle.cmwq_state.specs.State.{AreOfOneSize};

use crate::state::State;
use cmwq_model::NoMemory;
use std::mem::replace;

impl State {
    /// Makes this a copy of another state. Where both are of as many CPUs, workers, callers, items and queues, no
    /// memory is taken.
    ///
    /// # Errors
    /// `NoMemory` where it ran out. The state is then the old one.
    pub fn copy_from(&mut self, other: &State) -> Result<(), NoMemory>
        ensures copy { IfOk result (λ done. self.new ≡ other.now) }
        ensures old { OnErr result (self.new ≡ self.old) }
        ensures succeeds { AreOfOneSize self.old.layout other.now.layout → IsOk result }
    {
        if !self.has_size_of(other) {
            let alloc = *self.gone.allocator();
            let fresh = State::start(alloc, other.counts, &other.queues, other.room)?;
            replace(self, fresh).end();
        }
        self.overwrite(other);
        Ok(())
    }

    /// Whether both are of as many CPUs, workers, callers, items and queues.
    fn has_size_of(&self, other: &State) -> bool
        ensures { IsTrue result ↔ AreOfOneSize self.now.layout other.now.layout }
    {
        self.counts.cpus == other.counts.cpus
            && self.counts.workers == other.counts.workers
            && self.counts.callers == other.counts.callers
            && self.counts.items == other.counts.items
            && self.queues.len() == other.queues.len()
    }

    /// Makes this a copy of a state of the same size, in the memory that it has.
    fn overwrite(&mut self, other: &State)
        requires { AreOfOneSize self.old.layout other.now.layout }
        ensures { self.new ≡ other.now }
    {
        self.counts = other.counts;
        self.queues.copy_from_slice(&other.queues);
        self.room = other.room;
        self.entries.copy_from(&other.entries);
        self.pools.copy_from(&other.pools);
        self.books.copy_from(&other.books);
        self.timers.copy_from(&other.timers);
        self.time = other.time;
        self.serials.copy_from_slice(&other.serials);
        self.flights.copy_from(&other.flights);
        self.tickets.copy_from(&other.tickets);
        self.gone.copy_from_slice(&other.gone);
        self.pwqs.copy_from(&other.pwqs);
        self.most.copy_from_slice(&other.most);
        self.frozen = other.frozen;
        self.owing = other.owing;
    }
}
