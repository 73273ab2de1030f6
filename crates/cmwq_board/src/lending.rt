//! What a caller that is lent to waits does.

ghost use Rattle.std.specs.Prelude.{◌≡◌};
ghost use Rattle.std.specs.List.{list_any};
ghost use Rattle.cmwq_model.specs.Prelude.{same_worker};
ghost use Rattle.cmwq_board.specs.Left.{is_free};
ghost use Rattle.cmwq_board.specs.Lent.{is_wait_of, waits_by};

use cmwq_model::{Ticket, WorkerId};

/// What a caller that is lent to waits does.
#[derive(Clone, Copy, Debug)]
pub enum Lending {
    /// It may be lent. It may have tickets of waits that were left.
    Free,
    /// Somebody waits by it until this ticket is ready.
    Waits {
        ticket: Ticket,
        /// The worker whose run waits, and whether the run went to sleep for that.
        run: Option<WorkerId>,
        slept: bool,
    },
}

/// Whether the run of this worker waits by any of them.
pub(crate) fn any_wait_of(lent: &[Lending], worker: WorkerId) -> bool
    ensures { result ≡ list_any (is_wait_of worker) lent.now }
{
    lent.iter().any(|lending| lending.is_wait_of(worker))
}

/// Whether these are the same worker.
fn is_same_worker(one: WorkerId, other: WorkerId) -> bool
    ensures { result ≡ same_worker one other }
{
    one.pool.cpu.0 == other.pool.cpu.0
        && one.pool.high == other.pool.high
        && one.index == other.index
}

impl Lending {
    /// Whether it may be lent.
    pub(crate) fn is_free(&self) -> bool
        ensures { result ≡ is_free self.now }
    {
        matches!(self, Lending::Free)
    }

    /// Whether the run of this worker waits by it.
    pub(crate) fn is_wait_of(&self, worker: WorkerId) -> bool
        ensures { result ≡ is_wait_of worker self.now }
    {
        match self {
            Lending::Waits { run: Some(of), .. } => is_same_worker(*of, worker),
            _ => false,
        }
    }

    /// Whether somebody waits by this ticket of it.
    pub(crate) fn waits_by(&self, ticket: Ticket) -> bool
        ensures { result ≡ waits_by ticket self.now }
    {
        match self {
            Lending::Free => false,
            Lending::Waits { ticket: of, .. } => of.number == ticket.number,
        }
    }
}
