//! The rows of queues and of shapes.
ghost use Rattle.std.specs.Prelude.{◌≡◌};
ghost use Rattle.cmwq_page.specs.Rows as spec;

use crate::row::Row;
use cmwq_chart::{Bar, CallerWait, Level, Sleep};
use cmwq_model::{QueueShape, Who, WorkerId};

/// The number of a worker, beyond those of all callers: those of a pool stand together, and those of a CPU's pools.
pub(crate) fn worker_number(worker: WorkerId) -> u64
    ensures { result ≡ spec.worker_number worker }
{
    let high = if worker.pool.high { 64 } else { 0 };
    256 + 128 * u64::from(worker.pool.cpu.0) + high + u64::from(worker.index)
}

/// The number of a caller or a worker.
pub(crate) fn who_number(who: Who) -> u64
    ensures { result ≡ spec.who_number who }
{
    match who {
        Who::Caller(caller) => caller.0.into(),
        Who::Worker(worker) => worker_number(worker),
    }
}

/// The entry that ends something, which is never the first, or 0 if it goes on.
fn end_number(to: Option<u32>) -> u64
    ensures { result ≡ spec.end_number to }
{
    match to {
        Some(last) => last.into(),
        None => 0,
    }
}

impl Row for QueueShape {
    ghost template_of = { λ queue. spec.four };

    ghost numbers_of = { spec.queue_numbers };

    fn template(&self) -> &'static str {
        "$ $ $ $\n"
    }

    fn numbers(&self) -> [u64; 6] {
        [
            self.max_active.into(),
            self.high.into(),
            self.intensive.into(),
            self.freezable.into(),
            0,
            0,
        ]
    }
}

impl Row for CallerWait {
    ghost template_of = { λ wait. spec.four };

    ghost numbers_of = { spec.wait_numbers };

    fn template(&self) -> &'static str {
        "$ $ $ $\n"
    }

    fn numbers(&self) -> [u64; 6] {
        [
            self.caller.0.into(),
            self.row.into(),
            self.from.into(),
            end_number(self.to),
            0,
            0,
        ]
    }
}

impl Row for Bar {
    ghost template_of = { λ bar. spec.four };

    ghost numbers_of = { spec.run_numbers };

    fn template(&self) -> &'static str {
        "$ $ $ $\n"
    }

    fn numbers(&self) -> [u64; 6] {
        [
            worker_number(self.worker),
            self.number,
            self.from.into(),
            end_number(self.to),
            0,
            0,
        ]
    }
}

impl Row for Sleep {
    ghost template_of = { λ sleep. spec.three };

    ghost numbers_of = { spec.sleep_numbers };

    fn template(&self) -> &'static str {
        "$ $ $\n"
    }

    fn numbers(&self) -> [u64; 6] {
        [
            worker_number(self.worker),
            self.from.into(),
            end_number(self.to),
            0,
            0,
            0,
        ]
    }
}

impl Row for Level {
    ghost template_of = { λ level. spec.six };

    ghost numbers_of = { spec.level_numbers };

    fn template(&self) -> &'static str {
        "$ $ $ $ $ $\n"
    }

    fn numbers(&self) -> [u64; 6] {
        [
            self.place.queue.0.into(),
            self.place.cpu.0.into(),
            self.from.into(),
            self.height.open_count.into(),
            self.height.active_count.into(),
            self.height.width.into(),
        ]
    }
}
