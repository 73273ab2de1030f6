//! How long the starts of each queue on each CPU were waited for.
ghost use Rattle.std.specs.Prelude.{◌≡◌, ◌<◌, [], length, IfOk};
ghost use Rattle.cmwq_model.specs.Prelude.{Layout};
ghost use Rattle.cmwq_summary.specs.Parts.{AreStartWaits};
ghost use Rattle.cmwq_summary.specs.Summed.{GoOn, MayGoOn};

use crate::counter::Counter;
use crate::key::place_in;
use crate::openings::Openings;
use crate::span::Span;
use crate::waits::Waits;
use cmwq_model::{NoMemory, Shape};
use cmwq_state::Effect;
use std::alloc::Global;

/// How long the starts of each queue on each CPU were waited for, and when the others were queued.
#[derive(Drop)]
pub(crate) struct StartWaits {
    pub(crate) waits: Waits,
    pub(crate) openings: Openings,
}

impl StartWaits {
    /// Those of no entries. The error says that memory ran out.
    pub(crate) fn new(alloc: Global, shape: &Shape) -> Result<StartWaits, NoMemory>
        ensures { IfOk result (AreStartWaits shape.now []) }
    {
        let waits = Waits::new(alloc, Counter::Starts.keys(shape))?;
        let openings = Openings::new(alloc, Counter::ItemRuns.keys(shape))?;
        Ok(StartWaits { waits, openings })
    }

    /// One entry more, after which it is now.
    pub(crate) fn add(&mut self, effect: &Effect, now: Span)
        requires { MayGoOn AreStartWaits effect.now now self.old }
        ensures { GoOn AreStartWaits effect.now now self.old self.new }
    {
        let waited = self.openings.waited(effect.started, now);
        self.waits.add(place_in(effect.started), waited);
        self.openings.add(effect.opened, now);
    }
}
