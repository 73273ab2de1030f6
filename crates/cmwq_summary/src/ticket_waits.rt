//! How long the tickets of each caller were waited for.
ghost use Rattle.std.specs.Prelude.{◌≡◌, ◌<◌, [], IfOk};
ghost use Rattle.cmwq_model.specs.Prelude.{Layout};
ghost use Rattle.cmwq_summary.specs.Parts.{AreTicketWaits};
ghost use Rattle.cmwq_summary.specs.Summed.{GoOn, MayGoOn};

use crate::counter::Counter;
use crate::givings::{Giving, Givings};
use crate::key::holder_in;
use crate::span::Span;
use crate::waits::Waits;
use cmwq_model::{NoMemory, Shape};
use cmwq_state::Effect;
use std::alloc::Global;

/// How long the tickets of each caller were waited for that are ended, and when the others were given.
#[derive(Drop)]
pub(crate) struct TicketWaits {
    pub(crate) waits: Waits,
    pub(crate) givings: Givings,
}

impl TicketWaits {
    /// Those of no entries. The error says that memory ran out.
    pub(crate) fn new(alloc: Global, shape: &Shape) -> Result<TicketWaits, NoMemory>
        ensures { IfOk result (AreTicketWaits shape.now []) }
    {
        let waits = Waits::new(alloc, Counter::CallerTickets.keys(shape))?;
        let givings = Givings::new(alloc, Counter::CallerTickets.keys(shape))?;
        Ok(TicketWaits { waits, givings })
    }

    /// One entry more, after which it is now.
    pub(crate) fn add(&mut self, effect: &Effect, now: Span)
        requires { MayGoOn AreTicketWaits effect.now now self.old }
        ensures { GoOn AreTicketWaits effect.now now self.old self.new }
    {
        let waited = self.givings.waited(effect.done, now);
        self.waits.add(holder_in(effect.done), waited);
        self.givings.remove(effect.done);
        let number = now.entries.saturating_sub(1);
        self.givings.add(
            holder_in(effect.begun),
            Giving {
                number,
                moment: now,
            },
        );
    }
}
