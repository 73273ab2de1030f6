//! The answers to what workers ask.

ghost use Rattle.std.specs.Prelude.{◌≡◌, option_map};
ghost use Rattle.cmwq_model.specs.declared.id.Who.TheVariants.{Worker};
ghost use Rattle.cmwq_model.specs.Prelude.{own_answer, worker_answer, retire_answer, take_answer, start_of};
ghost use Rattle.cmwq_model.specs.Prelude.{finish_answer, past_of};
ghost use Rattle.cmwq_model.specs.Active as active;
ghost use Rattle.cmwq_refinement.specs.ByNumber.{number_of_queueing};
ghost use Rattle.cmwq_state.specs.Tables as tables;

use cmwq_model::{Call, Number, Reply, Who, WorkerId};
use cmwq_state::State;

#[tactic(auto, unfolding(cmwq_model::specs::Answer::retire_answer))]
fn retire_answer(state: &State, worker: WorkerId) -> Reply
    requires { tables.IsThere state.now.layout (Worker worker) }
    ensures { result ≡ retire_answer state.now.layout (past_of state.now.entries) worker }
{
    if !state.is_enlisted(worker) || state.has_run(worker) {
        Reply::Misuse
    } else if state.may_retire(worker) {
        Reply::Retired
    } else {
        Reply::Kept
    }
}

#[inline(always)]
fn start_answer(state: &State, worker: WorkerId, next: Option<Number>) -> Reply
    requires there { tables.IsThere state.now.layout (Worker worker) }
    requires is { next
        ≡ option_map number_of_queueing (active.next state.now.layout (past_of state.now.entries) worker.pool) }
    ensures { result
        ≡ start_of state.now.layout (past_of state.now.entries) worker
        (active.next state.now.layout (past_of state.now.entries) worker.pool) }
{
    match next {
        None => Reply::Nothing,
        Some(number) => {
            if 0 < state.runnable(worker.pool) {
                return Reply::Held;
            }
            match state.enlisted_by(worker) {
                None => Reply::Started(number),
                Some(index) => Reply::StartedEnlist(number, index),
            }
        }
    }
}

#[tactic(auto, unfolding(cmwq_model::specs::Answer::take_answer))]
#[inline(always)]
fn take_answer(state: &State, worker: WorkerId) -> Reply
    requires { tables.IsThere state.now.layout (Worker worker) }
    ensures { result ≡ take_answer state.now.layout (past_of state.now.entries) worker }
{
    if !state.is_enlisted(worker) || state.has_run(worker) {
        return Reply::Misuse;
    }
    start_answer(state, worker, state.next(worker.pool))
}

#[tactic(auto, unfolding(cmwq_model::specs::Answer::finish_answer))]
#[inline(always)]
fn finish_answer(state: &State, worker: WorkerId) -> Reply
    requires { tables.IsThere state.now.layout (Worker worker) }
    ensures { result ≡ finish_answer (past_of state.now.entries) worker }
{
    if !state.runs_awake(worker) {
        return Reply::Misuse;
    }
    match state.run(worker) {
        None => Reply::Misuse,
        Some(number) => Reply::Finished(number),
    }
}

#[inline(always)]
fn worker_answer(state: &State, worker: WorkerId, call: Call) -> Reply
    requires { tables.IsThere state.now.layout (Worker worker) }
    ensures { result ≡ worker_answer state.now.layout (past_of state.now.entries) worker call }
{
    match call {
        Call::Sleep => {
            if state.runs_awake(worker) {
                Reply::Slept
            } else {
                Reply::Misuse
            }
        }
        Call::Wake => {
            if state.runs_asleep(worker) {
                Reply::Woke
            } else {
                Reply::Misuse
            }
        }
        Call::Retire => retire_answer(state, worker),
        Call::Take => take_answer(state, worker),
        Call::Finish => finish_answer(state, worker),
        _ => Reply::Misuse,
    }
}

#[inline(always)]
pub(crate) fn own_answer(state: &State, who: Who, call: Call) -> Reply
    requires { tables.IsThere state.now.layout who }
    ensures { result ≡ own_answer state.now.layout (past_of state.now.entries) who call }
{
    match who {
        Who::Caller(_) => Reply::Misuse,
        Who::Worker(worker) => worker_answer(state, worker, call),
    }
}
