ghost use Rattle.std.specs.Prelude.{◌≡◌};
ghost use Rattle.cmwq_model.specs.Prelude.{queue_at, first_width, is_freezable, is_intensive, pool_at};

use cmwq_model::{Place, PoolId, QueueShape, Shape};

/// How many workers each pool has.
pub fn workers(shape: &Shape) -> u8
    ensures { result ≡ shape.now.workers }
{
    shape.counts().workers
}

/// How many CPUs there are.
pub fn cpus(shape: &Shape) -> u8
    ensures { result ≡ shape.now.cpus }
{
    shape.counts().cpus
}

/// How many items there are.
pub fn items(shape: &Shape) -> u16
    ensures { result ≡ shape.now.items }
{
    shape.counts().items
}

/// The greatest number of entries and of what they owe.
pub fn room_of(shape: &Shape) -> usize
    ensures { result ≡ shape.now.room }
{
    shape.counts().room as usize
}

/// The queue's settings, or those of a queue without width where there is none.
fn queue_at(shape: &Shape, queue: u8) -> QueueShape
    ensures { result ≡ queue_at shape.now queue }
{
    let none = QueueShape {
        max_active: 0,
        high: false,
        intensive: false,
        freezable: false,
    };
    shape.queues().get(queue as usize).copied().unwrap_or(none)
}

/// Max_active of the queue at first.
pub fn first_width(shape: &Shape, queue: u8) -> u16
    ensures { result ≡ first_width shape.now queue }
{
    queue_at(shape, queue).max_active
}

/// Whether a freeze stops the queue.
pub fn is_freezable(shape: &Shape, queue: u8) -> bool
    ensures { result ≡ is_freezable shape.now queue }
{
    queue_at(shape, queue).freezable
}

/// Whether the queue's runs let others start beside them.
pub fn is_intensive(shape: &Shape, queue: u8) -> bool
    ensures { result ≡ is_intensive shape.now queue }
{
    queue_at(shape, queue).intensive
}

/// The pool in which a queueing at this place runs.
pub fn pool_at(shape: &Shape, place: Place) -> PoolId
    ensures { result ≡ pool_at shape.now place }
{
    PoolId {
        cpu: place.cpu,
        high: queue_at(shape, place.queue.0).high,
    }
}
