//! Which calls the methods of a board make.

ghost use Rattle.std.specs.Prelude.{◌≡◌};
ghost use Rattle.cmwq_board.specs.Asked.{is_single, is_wait};

use cmwq_model::Call;

/// Whether it is a call of one entry that no other method makes.
pub(crate) fn is_single(call: &Call) -> bool
    ensures { result ≡ is_single call.now }
{
    matches!(
        call,
        Call::Queue { .. }
            | Call::Delay { .. }
            | Call::Modify { .. }
            | Call::Cancel { .. }
            | Call::SetMax { .. }
            | Call::Freeze
            | Call::Thaw
            | Call::Sleep
            | Call::Wake
            | Call::Retire
    )
}

/// Whether it is a call that may wait.
pub(crate) fn is_wait(call: &Call) -> bool
    ensures { result ≡ is_wait call.now }
{
    matches!(
        call,
        Call::Flush { .. }
            | Call::Drain { .. }
            | Call::Destroy { .. }
            | Call::FlushItem { .. }
            | Call::FlushDelayed { .. }
            | Call::CancelSync { .. }
    )
}
