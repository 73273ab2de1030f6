//! What a user writes.

use crate::client::Client;
use crate::context::Context;
use crate::fault::Fault;
use cmwq_model::ItemId;
use std::sync::Wait;
use std::time::{Clock, Duration};

/// A service: what its items do, what each of its callers does, and what comes at the end. All threads share it.
///
/// A function that answers a fault stops the service: all calls that are made or wait from then on answer a fault too,
/// so that all threads come to their end, and `run` answers the first one.
pub trait Service {
    ghost use Rattle.std.specs.Prelude.{OnOk};
    ghost use Rattle.cmwq_service.specs.Serving.{Conduct, Ending, ItemConduct, may_end};

    /// What a caller does, by its place, as a relation of its first and its last view. The history that `run` returns
    /// has it. A service that leaves it out states nothing.
    ghost calls: { Conduct } = { λ _ _ _ _. Unit {0} };

    /// What the caller does that comes at the end, if it makes an entry, as a relation of its first and its last view.
    /// The history that `run` returns has it. A service that leaves it out states nothing.
    ghost ends: { Ending } = { λ _ _ _. Unit {0} };

    /// What one run of an item does, as a relation of its worker's first and last view. The history that `run` returns
    /// has it of each run. A service that leaves it out states nothing.
    ghost does: { ItemConduct } = { λ _ _ _ _. Unit {0} };

    /// Runs an item, in a worker's thread, once for each start of one of its queueings (the kernel's `work_func_t`).
    fn run<R: Wait + Clock, C: Context>(
        &self,
        rt: &R,
        item: ItemId,
        context: &mut C,
    ) -> Result<(), Fault>
        ensures { OnOk result (does C.layout item (C.view context.old) (C.view context.new)) };

    /// What the caller of this place does, on a thread of its own. Places are numbered from 0; there are as many as the
    /// shape has callers, without the library's own two and those that are lent to runs that wait.
    fn call<R: Wait + Clock, C: Client>(
        &self,
        rt: &R,
        place: u8,
        client: &mut C,
    ) -> Result<(), Fault>
        ensures { OnOk result (calls place C.layout (C.view client.old) (C.view client.new)) };

    /// What comes when all callers have ended, by a caller of its own, before the hub is closed. Nothing, where it is
    /// left out.
    fn end<R: Wait + Clock, C: Client>(&self, rt: &R, client: &mut C) -> Result<(), Fault>
        ensures { OnOk result (may_end ends 0 C.layout (C.view client.old) (C.view client.new)) }
    {
        let (_, _) = (rt, client);
        Ok(())
    }

    /// Whether a caller of the service looks at items by `busy`. Each entry costs less if none does, and `busy` then
    /// returns None.
    fn looks(&self) -> bool {
        true
    }

    /// How long after a tick of the system's clock comes the next one, which the library hands in until `end` has come
    /// to its end. A late one isn't made up for. There are none where it is left out: time is then what callers hand in
    /// by `tick`. Where both do, the ticks add up.
    fn tick_every(&self) -> Option<Duration> {
        None
    }
}
