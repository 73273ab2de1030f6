ghost use Rattle.std.specs.Prelude.{◌≡◌};
ghost use Rattle.cmwq_timer.specs.Due.{is_held, timer_may_fire, is_sooner};

use cmwq_model::{Number, Place};

/// A timer that is set for an item (the kernel's `timer_list` in a `delayed_work`).
#[derive(Clone, Copy)]
pub struct Timer {
    /// The queue and the CPU on which the item is to be queued.
    pub place: Place,
    /// The tick at which it is due.
    pub due: u64,
    /// The number of the entry that booked it.
    pub number: Number,
}

impl Timer {
    /// Whether it may fire at the tick `now`: it is due, and nothing in `holds` holds its queue back.
    pub fn may_fire(&self, now: u64, holds: &[u16]) -> bool
        ensures { result ≡ timer_may_fire now holds.now self.now }
    {
        self.due <= now && !self.is_held(holds)
    }

    /// Whether something holds its queue back. A queue that `holds` has no number of is free.
    fn is_held(&self, holds: &[u16]) -> bool
        ensures { result ≡ is_held holds.now self.now }
    {
        let queue = usize::from(self.place.queue.0);
        queue < holds.len() && holds[queue] > 0
    }

    /// Whether it fires before the other: it is due earlier, or at the same tick and was booked earlier.
    pub fn is_sooner(&self, other: &Timer) -> bool
        ensures { result ≡ is_sooner self.now other.now }
    {
        self.due < other.due || self.due == other.due && self.number < other.number
    }
}
