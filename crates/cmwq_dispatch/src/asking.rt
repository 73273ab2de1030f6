//! What is asked of an execution, to decide who is to be woken.

ghost use Rattle.std.specs.Prelude.{◌≡◌, ◌<◌, true};
ghost use Rattle.cmwq_core.specs.History.{past_in};
ghost use Rattle.cmwq_theory_wakes.specs.Readiness.{is_unready};
ghost use Rattle.cmwq_theory_wakes.specs.Rest.{IsOfItsCall};
ghost use Rattle.cmwq_theory_wakes.specs.Starting.{allows_start};

use cmwq_core::Execution;
use cmwq_model::{PoolId, Ticket, Who};

/// Whether the wait of this ticket is not ready to end. It is false of a ticket that isn't the caller's any more.
pub(crate) fn is_unready(execution: &Execution, ticket: &Ticket) -> bool
    requires caller { ticket.now.caller.0 < execution.now.layout.callers }
    requires call { IsOfItsCall (past_in execution.now) ticket.now }
    ensures { result ≡ true → is_unready (past_in execution.now) ticket.now.number ticket.now.call ≡ true }
{
    let state = execution.state();
    match state.ticket_of(Who::Caller(ticket.caller), ticket.number) {
        Some(found) => state.waits_for(found).is_some(),
        None => false,
    }
}

/// Whether an idle worker of this pool would start something.
pub(crate) fn allows_start(execution: &Execution, pool: PoolId) -> bool
    requires { pool.cpu.0 < execution.now.layout.cpus }
    ensures { result ≡ allows_start execution.now.layout (past_in execution.now) pool }
{
    let state = execution.state();
    state.next(pool).is_some() && state.runnable(pool) == 0
}
