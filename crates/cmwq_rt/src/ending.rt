//! For a layer above that ends a hub itself, as that of scripts does. Who uses a hub ends it with `Hub::into_history`.
ghost use Rattle.std.specs.Prelude.{◌≡◌, IfOk, IfErr};
ghost use Rattle.cmwq_monitor.specs.Faults.{IsStranger};
ghost use Rattle.cmwq_monitor.specs.Settled.{Settles};

use crate::caller::Caller;
use crate::hub::Hub;
use crate::worker::Worker;
use cmwq_monitor::{Monitor, RunFault};
use cmwq_publish::HubName;
use std::sync::ledger::Share;

/// What lay under the lock.
pub fn into_monitor<N: HubName>(hub: Hub<N>) -> Monitor<N> {
    hub.into_monitor()
}

/// The caller sees the whole history that lay under the lock of a hub that is no more.
///
/// # Errors
/// `Stranger` where that was another hub's.
pub fn settle_caller<N: HubName>(
    caller: &mut Caller<N>,
    monitor: &Monitor<N>,
) -> Result<(), RunFault>
    ensures settled { IfOk result (λ _. Settles monitor.now.history caller.old caller.new) }
    ensures stranger { IfErr result (λ f. (caller.new ≡ caller.old) × IsStranger caller.old f) }
{
    caller.settle(monitor)
}

/// The worker sees the whole history that lay under the lock of a hub that is no more.
///
/// # Errors
/// `Stranger` where that was another hub's.
pub fn settle_worker<N: HubName>(
    worker: &mut Worker<N>,
    monitor: &Monitor<N>,
) -> Result<(), RunFault>
    ensures settled { IfOk result (λ _. Settles monitor.now.history worker.old worker.new) }
    ensures stranger { IfErr result (λ f. (worker.new ≡ worker.old) × IsStranger worker.old f) }
{
    worker.settle(monitor)
}

/// What the hub's ledger has of a caller: as many entries as its serial says.
pub fn share_of_caller<N: HubName>(caller: Caller<N>) -> Share<N>
    ensures { (result.parts ≡ 1) × (result.amount ≡ caller.serial) }
{
    caller.into_share()
}

/// What the hub's ledger has of a worker: as many entries as its serial says.
pub fn share_of_worker<N: HubName>(worker: Worker<N>) -> Share<N>
    ensures { (result.parts ≡ 1) × (result.amount ≡ worker.serial) }
{
    worker.into_share()
}
