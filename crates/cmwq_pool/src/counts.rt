ghost use Rattle.std.specs.Prelude.{◌≡◌, ◌+◌, ◌≤◌, ◌<◌, length, map, slice_set, if◌then◌else◌};
ghost use Rattle.std.specs.List.{range_with_len};
ghost use Rattle.cmwq_pool.specs.Slots.{new_slot};
ghost use Rattle.cmwq_pool.specs.Workers.{counts_of};

use crate::slot::Slot;

/// How many of a pool's workers are idle, are enlisted and have a run, have a run, and hold the pool.
#[derive(Clone, Copy)]
pub(crate) struct WorkerCounts {
    pub(crate) idle: u8,
    pub(crate) occupied: u8,
    pub(crate) running: u8,
    pub(crate) holding: u8,
}

impl WorkerCounts {
    /// Those of a new pool: worker 0 is idle, if there is one.
    pub(crate) fn new(workers: u8) -> WorkerCounts
        ensures { result ≡ counts_of (map new_slot (range_with_len 0 workers)) }
    {
        WorkerCounts {
            idle: workers.min(1),
            occupied: 0,
            running: 0,
            holding: 0,
        }
    }

    /// Those of these slots once one of them is another.
    pub(crate) fn after(self, slots: &[Slot], worker: u8, slot: &Slot) -> WorkerCounts
        requires few { length slots.now ≤ 255 }
        requires counted { self ≡ counts_of slots.now }
        requires worker { worker < length slots.now }
        ensures { result ≡ counts_of (slice_set slots.now worker slot.now) }
    {
        let before = &slots[usize::from(worker)];
        WorkerCounts {
            idle: recounted(self.idle, before.is_idle(), slot.is_idle()),
            occupied: recounted(self.occupied, before.is_occupied(), slot.is_occupied()),
            running: recounted(self.running, before.has_run(), slot.has_run()),
            holding: recounted(self.holding, before.is_holding(), slot.is_holding()),
        }
    }
}

/// A count after something that it counted, or not, is to be counted, or not.
fn recounted(count: u8, was: bool, is: bool) -> u8
    requires fits { count + (if is then 1 else 0) ≤ 255 + (if was then 1 else 0) }
    requires had { (if was then 1 else 0) ≤ count + (if is then 1 else 0) }
    ensures { result + (if was then 1 else 0) ≡ count + (if is then 1 else 0) }
{
    match (was, is) {
        (false, true) => count + 1,
        (true, false) => count - 1,
        _ => count,
    }
}
