//! What stands in the lists of pools, each item with what is noted of it.

ghost use Rattle.std.specs.Prelude.{◌≡◌, ℕ, ◌+◌, ◌<◌, ◌^◌, Some, IfSome, length, map, find, not, slice_get};
ghost use Rattle.std.specs.List.{list_any};
ghost use Rattle.cmwq_list.specs.Lists.{list_at, AreListedOnce};
ghost use Rattle.cmwq_pool.specs.Slots.{slots_run_item};
ghost use Rattle.cmwq_pool.specs.PoolState.{is_task};
ghost use Rattle.cmwq_pool.specs.Upkeep.{noted_task};

use crate::notes::Notes;
use crate::pool_workers::PoolWorkers;
use crate::task::Task;
use cmwq_list::Lists;
use cmwq_model::{ItemId, Number};

/// The task of an item that a pool lists.
pub(crate) fn task_of(notes: &Notes, item: u32) -> Task
    requires item { item < length notes.now }
    requires few { length notes.now < 2 ^ 16 }
    ensures { result ≡ noted_task notes.now item }
{
    let note = notes.get(item as usize);
    Task {
        number: note.number,
        item: ItemId(item as u16),
        intensive: note.intensive,
    }
}

/// The first item of a list that none of these workers runs.
pub(crate) fn first_free(lists: &Lists, list: u16, workers: &PoolWorkers) -> Option<u32>
    requires { list < length lists.now.lists }
    ensures first { result ≡ find (λ i. not (slots_run_item workers.now i)) (list_at lists.now.lists list) }
    ensures once { AreListedOnce lists.now }
{
    let mut at = lists.first(list);
    for index in 0..lists.len(list) {
        let item = at?;
        if !workers.run_item(item) {
            return Some(item);
        }
        at = lists.next(item);
    }
    None
}

/// The first task of a list.
pub(crate) fn first_task(lists: &Lists, notes: &Notes, list: u16) -> Option<Task>
    requires list { list < length lists.now.lists }
    requires noted { length notes.now ≡ lists.now.items }
    requires few { length notes.now < 2 ^ 16 }
    ensures { result ≡ slice_get (map (noted_task notes.now) (list_at lists.now.lists list)) 0 }
{
    if lists.len(list) == 0 {
        return None;
    }
    let item = lists.first(list)?;
    Some(task_of(notes, item))
}

/// The task after an item's in a list. Where the item isn't in the list, any task or none.
pub(crate) fn task_after(lists: &Lists, notes: &Notes, list: u16, item: u32) -> Option<Task>
    requires list { list < length lists.now.lists }
    requires item { item < lists.now.items }
    requires noted { length notes.now ≡ lists.now.items }
    requires few { length notes.now < 2 ^ 16 }
    ensures next { (k : ℕ) → slice_get (list_at lists.now.lists list) k ≡ Some item
        → result ≡ slice_get (map (noted_task notes.now) (list_at lists.now.lists list)) (k + 1) }
    ensures known { IfSome result (λ task. task.item.0 < lists.now.items) }
{
    if lists.len(list) == 0 {
        return None;
    }
    let next = lists.next(item)?;
    if (next as usize) < notes.len() {
        Some(task_of(notes, next))
    } else {
        None
    }
}

/// Whether this queueing of an item stands in a list.
pub(crate) fn is_listed(
    lists: &Lists,
    notes: &Notes,
    list: u16,
    number: Number,
    item: ItemId,
) -> bool
    requires list { list < length lists.now.lists }
    requires noted { length notes.now ≡ lists.now.items }
    ensures listed { result
        ≡ list_any (is_task number item.0) (map (noted_task notes.now) (list_at lists.now.lists list)) }
    ensures once { AreListedOnce lists.now }
{
    let index = usize::from(item.0);
    if lists.len(list) == 0 || index >= notes.len() || notes.get(index).number != number {
        return false;
    }
    match lists.list_of(u32::from(item.0)) {
        Some(owner) => owner == list,
        None => false,
    }
}
