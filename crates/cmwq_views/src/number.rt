//! The queues, items, callers and workers of a shape, by the numbers of their rows.
ghost use Rattle.std.specs.Prelude.{◌≡◌, ◌*◌, ◌<◌, length};
ghost use Rattle.cmwq_model.specs.Prelude.{most_workers};
ghost use Rattle.cmwq_views.specs.Page.{worker_of_row};

use cmwq_base::{CallerId, CpuId, ItemId, PoolId, QueueId, Shape, WorkerId};
use cmwq_model::MOST_WORKERS;

/// How many workers a pool may have.
pub(crate) const OF_POOL: usize = MOST_WORKERS as usize;

/// The queue with this number.
pub(crate) fn queue_at(shape: &Shape, number: usize) -> QueueId
    requires { number < length shape.now.queues }
    ensures { result.0 ≡ number }
{
    // it shows that the number is small
    let _counts = shape.counts();
    QueueId(number as u8)
}

/// The item with this number.
pub(crate) fn item_at(shape: &Shape, number: usize) -> ItemId
    requires { number < shape.now.items }
    ensures { result.0 ≡ number }
{
    // it shows that the number is small
    let _items = shape.counts().items;
    ItemId(number as u16)
}

/// The caller with this number.
pub(crate) fn caller_at(shape: &Shape, number: usize) -> CallerId
    requires { number < shape.now.callers }
    ensures { result.0 ≡ number }
{
    // it shows that the number is small
    let _callers = shape.counts().callers;
    CallerId(number as u8)
}

/// The worker with this number, of as many as the pools of the shape's CPUs may have.
pub(crate) fn worker_at(shape: &Shape, number: usize) -> WorkerId
    requires { number < 2 * most_workers * shape.now.cpus }
    ensures is { result ≡ worker_of_row number }
    ensures here { result.pool.cpu.0 < shape.now.cpus }
{
    // it shows that the number is small
    let _cpus = shape.counts().cpus;
    WorkerId {
        pool: PoolId {
            cpu: CpuId((number / (2 * OF_POOL)) as u8),
            high: number / OF_POOL % 2 == 1,
        },
        index: (number % OF_POOL) as u8,
    }
}
