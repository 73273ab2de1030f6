//! What the call of a wait does to an item. Each kind of call is named, so that a new one is thought of here.

ghost use Rattle.std.specs.Prelude.{◌≡◌};
ghost use Rattle.cmwq_waits.specs.Refused.{item_flushed, item_taken_back};

use cmwq_model::{Call, ItemId};

/// The item of which the call takes back what has not started.
pub(crate) fn item_taken_back(call: Call) -> Option<ItemId>
    ensures { result ≡ item_taken_back call }
{
    match call {
        Call::CancelSync { item } => Some(item),
        Call::FlushItem { .. }
        | Call::FlushDelayed { .. }
        | Call::Flush { .. }
        | Call::Drain { .. }
        | Call::Destroy { .. }
        | Call::Queue { .. }
        | Call::Delay { .. }
        | Call::Modify { .. }
        | Call::Cancel { .. }
        | Call::Tick { .. }
        | Call::Fire
        | Call::End { .. }
        | Call::Take
        | Call::Finish
        | Call::Sleep
        | Call::Wake
        | Call::Retire
        | Call::SetMax { .. }
        | Call::Freeze
        | Call::Thaw => None,
    }
}

/// The item that the call queues if it is booked.
pub(crate) fn item_flushed(call: Call) -> Option<ItemId>
    ensures { result ≡ item_flushed call }
{
    match call {
        Call::FlushDelayed { item } => Some(item),
        Call::FlushItem { .. }
        | Call::CancelSync { .. }
        | Call::Flush { .. }
        | Call::Drain { .. }
        | Call::Destroy { .. }
        | Call::Queue { .. }
        | Call::Delay { .. }
        | Call::Modify { .. }
        | Call::Cancel { .. }
        | Call::Tick { .. }
        | Call::Fire
        | Call::End { .. }
        | Call::Take
        | Call::Finish
        | Call::Sleep
        | Call::Wake
        | Call::Retire
        | Call::SetMax { .. }
        | Call::Freeze
        | Call::Thaw => None,
    }
}
