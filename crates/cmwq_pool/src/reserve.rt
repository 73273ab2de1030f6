//! Which of a pool's first 64 workers are of the reserve, a bit for each.

ghost use Rattle.std.specs.Prelude.{◌≡◌, ◌≤◌, ◌-◌, ◌<◌, length, map, find, slice_set};
ghost use Rattle.std.specs.List.{range_with_len};
ghost use Rattle.cmwq_pool.specs.Slots.{new_slot, slot_indices, is_reserve_at};
ghost use Rattle.cmwq_pool.specs.Workers.{AreReserveBits};

use crate::slot::Slot;

/// How many workers have a bit.
const BITS: u8 = 64;

/// The bits of a new pool, of which worker 0 is enlisted.
pub(crate) fn new_reserve(workers: u8) -> u64
    ensures { AreReserveBits result (map new_slot (range_with_len 0 workers)) }
{
    let mut bits = 0;
    for worker in 1..workers.clamp(1, BITS) {
        bits |= 1 << worker;
    }
    bits
}

/// The bits of these slots once one of them is another.
pub(crate) fn reserve_after(bits: u64, slots: &[Slot], worker: u8, slot: &Slot) -> u64
    requires bits { AreReserveBits bits slots.now }
    requires worker { worker < length slots.now }
    ensures { AreReserveBits result (slice_set slots.now worker slot.now) }
{
    let before = &slots[usize::from(worker)];
    if worker < BITS && slot.enlisted != before.enlisted {
        bits ^ (1 << worker)
    } else {
        bits
    }
}

/// The first worker of the reserve. Past those with a bit each slot is looked at.
pub(crate) fn first_reserve(bits: u64, slots: &[Slot]) -> Option<u8>
    requires few { length slots.now ≤ 255 }
    requires bits { AreReserveBits bits slots.now }
    ensures { result ≡ find (is_reserve_at slots.now) (slot_indices slots.now) }
{
    if bits == 0 {
        first_reserve_from(slots, BITS)
    } else {
        Some(bits.trailing_zeros() as u8)
    }
}

/// The first worker of the reserve from this one on.
fn first_reserve_from(slots: &[Slot], first: u8) -> Option<u8>
    requires { length slots.now ≤ 255 }
    ensures { result ≡ find (is_reserve_at slots.now) (range_with_len first (length slots.now - first)) }
{
    (first..slots.len() as u8).find(|index| !slots[usize::from(*index)].enlisted)
}
