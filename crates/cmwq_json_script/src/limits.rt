//! The limits of a script, by the format of its history.

ghost use Rattle.std.specs.Prelude.{◌≡◌, ◌≤◌};
ghost use Rattle.cmwq_model.specs.Prelude.{most_callers, most_cpus, most_items, most_queues, most_room, most_workers};
ghost use Rattle.cmwq_json_script.specs.Limits as spec;

use cmwq_model::{MOST_CALLERS, MOST_CPUS, MOST_ITEMS, MOST_QUEUES, MOST_ROOM, MOST_WORKERS};
use cmwq_text::{OLD_CALLERS, OLD_CPUS, OLD_ITEMS, OLD_QUEUES, OLD_ROOM, OLD_WORKERS};

/// The format that has the limits of every shape.
const LONG: u8 = 3;

/// How many CPUs there may be.
pub fn cpus_in(version: u8) -> u8
    ensures is { result ≡ spec.cpus_in version }
    ensures most { result ≤ most_cpus }
{
    if version == LONG { MOST_CPUS } else { OLD_CPUS }
}

/// How many workers a pool may have.
pub fn workers_in(version: u8) -> u8
    ensures is { result ≡ spec.workers_in version }
    ensures most { result ≤ most_workers }
{
    if version == LONG {
        MOST_WORKERS
    } else {
        OLD_WORKERS
    }
}

/// How many callers there may be.
pub fn callers_in(version: u8) -> u8
    ensures is { result ≡ spec.callers_in version }
    ensures least { 1 ≤ result }
    ensures most { result ≤ most_callers }
{
    if version == LONG {
        MOST_CALLERS
    } else {
        OLD_CALLERS
    }
}

/// How many runs may wait at once: there is a caller beside theirs at least.
pub fn most_waits(version: u8) -> u8
    ensures is { result ≡ spec.most_waits version }
{
    callers_in(version) - 1
}

/// How many items there may be.
pub fn items_in(version: u8) -> usize
    ensures is { result ≡ spec.items_in version }
    ensures most { result ≤ most_items }
{
    usize::from(if version == LONG {
        MOST_ITEMS
    } else {
        OLD_ITEMS
    })
}

/// How many queues there may be.
pub fn queues_in(version: u8) -> usize
    ensures is { result ≡ spec.queues_in version }
    ensures most { result ≤ most_queues }
{
    if version == LONG {
        MOST_QUEUES
    } else {
        OLD_QUEUES
    }
}

/// How great the room may be, in entries.
pub fn room_in(version: u8) -> u64
    ensures is { result ≡ spec.room_in version }
    ensures most { result ≤ most_room }
{
    if version == LONG { MOST_ROOM } else { OLD_ROOM }
}
