//! Why a call of a board made no entry.

ghost use Rattle.std.specs.Prelude.{◌≡◌};
ghost use Rattle.cmwq_board.specs.Faults.{fault_of_stuck};

use cmwq_dispatch::Stuck;

/// Why a call of one who waits for nothing made no entry.
#[derive(Clone, Copy, Debug, PartialEq, Eq)]
pub enum BoardFault {
    /// The shape has no such number, or another method makes this call.
    Refused,
    /// It failed: nobody makes an entry any more.
    Failed,
    /// It was stopped: callers begin nothing.
    Closed,
    /// It can't be done at this point: the worker has no run that is awake, or has one, or nobody waits by this caller.
    Misuse,
    /// There is not enough space for the entries. What is kept is to be handed out first.
    Crowded,
    /// There is no room for the call, and never will be.
    Full,
}

/// Why a wait did not begin.
#[derive(Clone, Copy, Debug, PartialEq, Eq)]
pub enum WaitFault {
    /// As of a call that waits for nothing.
    Board { fault: BoardFault },
    /// It would wait for its own run to end.
    Itself,
    /// It would wait for what cannot end or start before this run, or runs that wait for it, have ended.
    Deadlock,
    /// No caller is left to be lent to it.
    NoCaller,
}

pub(crate) fn fault_of(stuck: Stuck) -> WaitFault
    ensures { result ≡ fault_of_stuck stuck }
{
    match stuck {
        Stuck::Itself => WaitFault::Itself,
        Stuck::Circle => WaitFault::Deadlock,
    }
}
