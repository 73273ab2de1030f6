//! Why a call isn't answered, and why a service stopped.
ghost use Rattle.std.specs.Prelude.{◌≡◌, true, None, Some};
ghost use Rattle.cmwq_monitor.specs.declared.fault.RunFault.TheVariants.{NoMemory};
ghost use Rattle.cmwq_rt.specs.Waiting.{is_wait};
ghost use Rattle.cmwq_service.specs.Calls.{IsBatchAnswer, IsFaultOfWait, awaited_by};
ghost use Rattle.cmwq_service.specs.declared.fault.Fault.TheVariants.{Run};

use crate::outside::Outside;
use cmwq_model::{Call, Entry, ItemId};
use cmwq_rt::{BatchFault, RunFault, WaitFault};
use std::alloc::{AllocError, AllocFailed};
use thiserror::Error;

/// What a run would wait for.
#[derive(Clone, Copy, Debug, PartialEq, Eq, Error)]
pub enum Awaited {
    #[error("item {0}")]
    Item(u16),
    #[error("queue {0}")]
    Queue(u16),
}

/// Why a call fails, or why a function of the service gives up: `?` makes one of a call's fault, and of want of memory.
#[derive(Clone, Copy, Debug, PartialEq, Eq, Error)]
pub enum Fault {
    /// A number of the call isn't inside the shape, or in a batch, its maker makes no such calls. It has made no entry.
    #[error("{0}")]
    Outside(Outside),
    /// What the hub answered. Unless `RunFault` says so, the call has made no entry.
    #[error("{fault}")]
    Run { fault: RunFault },
    /// The run of this item would wait for itself to end. No call was made, but a run that was asleep is awake.
    #[error("item {item} would wait for {awaited}, and so for itself")]
    Itself { item: u16, awaited: Awaited },
    /// The wait of this item's run could never end, because of runs that wait. No call was made, but a run that was
    /// asleep is awake.
    #[error("item {item} would wait for {awaited} for ever")]
    Deadlock { item: u16, awaited: Awaited },
    /// As many runs wait as callers are lent. No call was made, but a run that was asleep is awake.
    #[error("item {item} cannot wait for {awaited}: too many runs wait")]
    NoCaller { item: u16, awaited: Awaited },
    /// What a function of the service returns for a reason of its own, by a number of its own. No call returns it.
    #[error("fault {0} of the service")]
    Own(u32),
}

/// What such a call waits for.
fn awaited_by(call: Call) -> Awaited
    requires { is_wait call ≡ true }
    ensures { awaited_by call ≡ Some result }
{
    match call {
        Call::FlushItem { item } | Call::FlushDelayed { item } | Call::CancelSync { item } => {
            Awaited::Item(item.0)
        }
        Call::Flush { queue } | Call::Drain { queue } => Awaited::Queue(u16::from(queue.0)),
        _ => unreachable!(),
    }
}

/// The fault of this item's run.
pub(crate) fn fault_of_wait(item: ItemId, call: Call, fault: WaitFault) -> Fault
    requires { is_wait call ≡ true }
    ensures { IsFaultOfWait item call fault result }
{
    let (item, awaited) = (item.0, awaited_by(call));
    match fault {
        WaitFault::Itself => Fault::Itself { item, awaited },
        WaitFault::Deadlock => Fault::Deadlock { item, awaited },
        WaitFault::NoCaller => Fault::NoCaller { item, awaited },
        WaitFault::Run { fault } => Fault::Run { fault },
    }
}

/// What the hub answered to a batch, as a service sees it.
pub(crate) fn in_batch(answer: Result<(), BatchFault<RunFault>>) -> Result<(), BatchFault<Fault>>
    ensures { IsBatchAnswer answer result }
{
    match answer {
        Ok(()) => Ok(()),
        Err(BatchFault { made, fault }) => Err(BatchFault {
            made,
            fault: Fault::Run { fault },
        }),
    }
}

impl From<BatchFault<Fault>> for Fault {
    ghost from_gives = { λ stopped fault. fault ≡ stopped.fault };

    fn from(stopped: BatchFault<Fault>) -> Fault {
        stopped.fault
    }
}

impl From<AllocError> for Fault {
    ghost from_gives = { λ _ e. e ≡ Run (NoMemory None) };

    fn from(_error: AllocError) -> Fault {
        NO_MEMORY
    }
}

impl<T: Drop> From<AllocFailed<T>> for Fault {
    ghost from_gives = { λ _ e. e ≡ Run (NoMemory None) };

    fn from(_error: AllocFailed<T>) -> Fault {
        Fault::from(AllocError)
    }
}

pub(crate) const NO_MEMORY: Fault = Fault::Run {
    fault: RunFault::NoMemory { ticket: None },
};

/// Why a service stopped, and its history so far.
#[derive(Debug, Drop, Error)]
#[error("{fault}")]
pub struct Stopped {
    /// The first fault of a thread, or of the hub.
    pub fault: Fault,
    /// What was made before all threads had ended, the oldest entry first.
    pub history: Vec<Entry>,
}
