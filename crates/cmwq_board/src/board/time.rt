//! Time: ticks, and the timers that fire.

ghost use Rattle.std.specs.Prelude.{◌≡◌, ◌<◌};
ghost use Rattle.cmwq_core.specs.History.{past_in};
ghost use Rattle.cmwq_model.specs.Calls as model;
ghost use Rattle.cmwq_model.specs.declared.id.Who.TheVariants as who;
ghost use Rattle.cmwq_board.specs.Boarded.{layout_of, past_of_board};
ghost use Rattle.cmwq_board.specs.Items.{IsDue, due_of, lesser};
ghost use Rattle.cmwq_board.specs.Machine.{Named, bare, step};
ghost use Rattle.cmwq_board.specs.Machine.Move.{Advances};

use crate::board::{Board, most_made};
use crate::entering::tick;
use crate::fault::BoardFault;
use cmwq_core::Full;
use cmwq_dispatch::Wakes;
use cmwq_model::{CallerId, ItemId, Who};
use cmwq_state::State;

impl Board {
    /// So many ticks go by, and what is due is fired, by a caller of the user's own. It returns the tick that it is.
    pub fn advance(
        &mut self,
        caller: CallerId,
        ticks: u32,
        wakes: &mut Wakes,
    ) -> Result<u64, BoardFault>
        ensures core { bare self.new ≡ (step (bare self.old) (Advances caller ticks)).core }
        ensures outcome { result ≡ (step (bare self.old) (Advances caller ticks)).outcome }
        ensures named { Named result (who.Caller caller) self.old self.new wakes.old wakes.new }
    {
        if !self.is_own(Who::Caller(caller)) {
            return Err(BoardFault::Refused);
        }
        if self.dispatch.has_failed() {
            return Err(BoardFault::Failed);
        }
        if self.dispatch.is_closed() {
            return Err(BoardFault::Closed);
        }
        if self.tail.space() < most_made(self.dispatch.shape()) {
            return Err(BoardFault::Crowded);
        }
        let ticked = tick(&mut self.dispatch, &mut self.tail, caller, ticks, wakes);
        match ticked {
            Ok(()) => Ok(self.time()),
            Err(Full) => Err(BoardFault::Full),
        }
    }

    /// The tick that it is.
    pub fn time(&self) -> u64
        ensures { result ≡ model.now (past_of_board self.now) }
    {
        self.dispatch.execution().state().time()
    }

    /// The least tick of a booking that may fire then: of an item that is delayed on a queue that no drain holds back.
    /// It looks at each item.
    pub fn due(&self) -> Option<u64>
        ensures { IsDue (past_of_board self.now) (layout_of self.now).items result }
    {
        let state = self.dispatch.execution().state();
        let mut least = None;
        for item in 0..self.dispatch.shape().counts().items {
            least = lesser(least, due_of(state, ItemId(item)));
        }
        least
    }
}

/// When the item may fire: as it is booked, if no drain holds its queue back.
fn due_of(state: &State, item: ItemId) -> Option<u64>
    requires { item.0 < state.now.layout.items }
    ensures { result ≡ due_of (past_in state.now) item.0 }
{
    let timer = state.timer(item)?;
    if state.is_draining(timer.place.queue) {
        None
    } else {
        Some(timer.due)
    }
}

/// The lesser of two ticks.
fn lesser(least: Option<u64>, due: Option<u64>) -> Option<u64>
    ensures { result ≡ lesser least due }
{
    match (least, due) {
        (None, _) => due,
        (_, None) => least,
        (Some(before), Some(after)) => { if before <= after { least } else { due } }
    }
}
