//! What calls of C return: the statuses of cmwq.h.
ghost use Rattle.std.specs.Prelude.{◌≡◌, Some};
ghost use Rattle.cmwq_c.specs.Statuses.{status_of};
ghost use Rattle.cmwq_c.specs.BoardStatuses.{fault_number, wait_fault_number};

use crate::session::Refusal;
use cmwq_board::{BoardFault, WaitFault};

/// Done.
pub const DONE: u32 = 0;

/// No such call, entry, item, caller or worker, or a shape outside the limits.
pub const REFUSED: u32 = 1;

/// The handle has no book.
pub const CLOSED: u32 = 2;

/// There is no room for the entry and for what would be owed then.
pub const FULL: u32 = 3;

/// Memory ran out.
pub const NO_MEMORY: u32 = 4;

/// The buffer doesn't hold the line.
pub const SHORT: u32 = 5;

/// As many entries are kept as may be.
pub const CROWDED: u32 = 6;

/// The history isn't legal.
pub const ILLEGAL: u32 = 7;

/// The board was stopped: callers begin nothing.
pub const STOPPED: u32 = 8;

/// The board has failed: nobody makes an entry.
pub const FAILED: u32 = 9;

/// It isn't possible at this point.
pub const NOT_NOW: u32 = 10;

/// The run would wait for its own end.
pub const ITSELF: u32 = 11;

/// The wait could never end.
pub const DEADLOCK: u32 = 12;

/// As many waits are under way as callers are lent.
pub const NO_CALLER: u32 = 13;

/// The wait goes on.
pub const WAITS: u32 = 14;

/// The worker rests.
pub const RESTS: u32 = 15;

/// There will be nothing to do any more.
pub const OVER: u32 = 16;

/// Nobody is asleep: the same call is to be made again.
pub const LOOK_AGAIN: u32 = 17;

/// The status of a call that isn't made.
pub fn status_of(refusal: Refusal) -> u32
    ensures { result ≡ status_of (Some refusal) }
{
    match refusal {
        Refusal::Unfit => REFUSED,
        Refusal::Full => FULL,
        Refusal::Crowded => CROWDED,
    }
}

/// The status of a board's call that made no entry.
pub fn fault_number(fault: BoardFault) -> u32
    ensures { result ≡ fault_number fault }
{
    match fault {
        BoardFault::Refused => REFUSED,
        BoardFault::Full => FULL,
        BoardFault::Crowded => CROWDED,
        BoardFault::Closed => STOPPED,
        BoardFault::Failed => FAILED,
        BoardFault::Misuse => NOT_NOW,
    }
}

/// The status of a wait that did not begin.
pub fn wait_fault_number(fault: WaitFault) -> u32
    ensures { result ≡ wait_fault_number fault }
{
    match fault {
        WaitFault::Board { fault } => fault_number(fault),
        WaitFault::Itself => ITSELF,
        WaitFault::Deadlock => DEADLOCK,
        WaitFault::NoCaller => NO_CALLER,
    }
}
