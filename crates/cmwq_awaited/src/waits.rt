//! What a wait is for, and what it still waits for.

ghost use Rattle.std.specs.Prelude.{◌≡◌, option_map};
ghost use Rattle.cmwq_model.specs.Prelude.{past_of};
ghost use Rattle.cmwq_awaited.specs.Waits as spec;

use cmwq_model::{Call, Entry, ItemId, Number, QueueId};
use cmwq_state::State;

/// What a wait is for.
#[derive(Clone, Copy, Debug)]
pub enum Goal {
    /// The end of what is queued on a queue.
    Flush(QueueId),
    /// An empty queue.
    Drain(QueueId),
    /// An empty queue, which is then gone.
    Destroy(QueueId),
    /// The end of what is queued of an item.
    FlushItem(ItemId),
    /// The end of an item's run.
    CancelSync(ItemId),
}

/// What a wait by this call is for. Each kind of call is named, so that a new kind of wait is thought of here.
pub fn goal_of(call: Call) -> Option<Goal>
    ensures { result ≡ spec.goal_of call }
{
    match call {
        Call::Flush { queue } => Some(Goal::Flush(queue)),
        Call::Drain { queue } => Some(Goal::Drain(queue)),
        Call::Destroy { queue } => Some(Goal::Destroy(queue)),
        Call::FlushItem { item } | Call::FlushDelayed { item } => Some(Goal::FlushItem(item)),
        Call::CancelSync { item } => Some(Goal::CancelSync(item)),
        Call::Queue { .. }
        | Call::Delay { .. }
        | Call::Modify { .. }
        | Call::Cancel { .. }
        | Call::Tick { .. }
        | Call::Fire
        | Call::End { .. }
        | Call::Take
        | Call::Finish
        | Call::Sleep
        | Call::Wake
        | Call::Retire
        | Call::SetMax { .. }
        | Call::Freeze
        | Call::Thaw => None,
    }
}

/// The first queueing that a wait still waits for.
#[derive(Clone, Copy, Debug)]
pub struct WaitedFor {
    pub number: Number,
    pub item: ItemId,
}

/// The queueing with this number, where these are the entries of the history.
fn of_entry(entries: &[Entry], number: Number) -> Option<WaitedFor>
    ensures { option_map (λ a. (a.number, a.item.0)) result ≡ spec.of_entry entries.now number }
{
    let item = match entries.get(number as usize) {
        Some(entry) => entry.item(),
        None => None,
    };
    match item {
        Some(item) => Some(WaitedFor { number, item }),
        None => None,
    }
}

/// What the wait with this ticket still waits for, where these are the entries of the history. None if it is over.
#[tactic(auto, using(crate::proofs::Awaiting::awaits, crate::proofs::Awaiting::is_over, crate::proofs::Awaiting::is_none))]
pub fn waited_for(state: &State, entries: &[Entry], ticket: Number) -> Option<WaitedFor>
    ensures { option_map (λ a. (a.number, a.item.0)) result
        ≡ spec.waited_for (past_of state.now.entries) entries.now ticket }
{
    match state.ticket(ticket) {
        Some(ticket) => match state.waits_for(ticket) {
            Some(number) => of_entry(entries, number),
            None => None,
        },
        None => None,
    }
}
