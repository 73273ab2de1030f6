//! The key of a state: all that its schedules depend on. Numbers of entries stand in it by their ranks, so that states
//! that differ in nothing else have the same key.

ghost use Rattle.std.specs.Prelude.{◌≡◌, ◌++◌, IfOk};
ghost use Rattle.cmwq_model.specs.Prelude.{past_of};
ghost use Rattle.cmwq_key.specs.Codes.{codes};
ghost use Rattle.cmwq_key.specs.Keys as spec;
ghost use Rattle.cmwq_key.specs.Numbered.{gathered};
ghost use Rattle.cmwq_key.specs.SameKeys.{SameKeysAreAlike};

mod codes;
mod numbered;
mod opened;
mod parties;
mod pools;
mod tickets;

use cmwq_model::{Queueing, Shape};
use cmwq_play::Play;
use cmwq_state::State;
use codes::{flag, push_all};
use numbered::Numbered;
use opened::{push_all_booked, push_all_running, push_all_unstarted};
use parties::{push_callers, push_free, push_gates, push_locks, push_workers};
use pools::{push_pools, push_queues};
use std::alloc::{AllocError, Global};
use tickets::push_all_tickets;

/// The key of a state. States with the same key differ in nothing that matters to their schedules.
pub type Key = Vec<u16>;

/// Writes keys. Its lists are used again for each.
#[derive(Drop)]
pub struct KeyWriter {
    numbered: Numbered,
    /// What stands on a worklist.
    listed: Vec<Queueing>,
}

/// Writes how long the history is, what time it is, and whether the system is frozen.
fn push_times(key: &mut Key, state: &State) -> Result<(), AllocError>
    ensures { IfOk result
        (λ _. key.new.items ≡ key.old.items ++ codes (spec.told_times (past_of state.now.entries))) }
{
    push_all(
        key,
        &[state.number(), state.time(), flag(state.is_frozen())],
    )
}

/// Writes what is open, unended or booked.
#[tactic(auto, using(crate::proofs::Coding::codes_more), unfolding(crate::specs::Keys::told_gathered))]
fn push_numbered(key: &mut Key, state: &State, numbered: &Numbered) -> Result<(), AllocError>
    requires { numbered.now ≡ gathered state.now.layout (past_of state.now.entries) }
    ensures { IfOk result (λ _. key.new.items ≡ key.old.items
        ++ codes (spec.told_gathered state.now.layout (past_of state.now.entries) numbered.now)) }
{
    push_all_unstarted(key, state, numbered, numbered.unstarted())?;
    push_all_running(key, numbered, numbered.running())?;
    push_all_tickets(key, state, numbered, numbered.tickets())?;
    push_all_booked(key, numbered, numbered.bookings())
}

/// Writes the gates, the locks, and the callers that may be lent.
#[tactic(auto, using(crate::proofs::Coding::codes_more))]
fn push_doors(key: &mut Key, play: &Play<'_>) -> Result<(), AllocError>
    ensures { IfOk result (λ _. key.new.items ≡ key.old.items ++ codes (spec.told_doors play.now)) }
{
    push_gates(key, play.gates())?;
    push_locks(key, play.locks())?;
    push_free(key, play.free())
}

/// Writes where the parties stand.
#[tactic(auto, using(crate::proofs::Coding::codes_more), unfolding(crate::specs::Keys::told_parties))]
fn push_parties(
    key: &mut Key,
    play: &Play<'_>,
    state: &State,
    numbered: &Numbered,
) -> Result<(), AllocError>
    requires { state.now ≡ play.now.history }
    ensures { IfOk result (λ _. key.new.items ≡ key.old.items ++ codes (spec.told_parties numbered.now play.now)) }
{
    push_callers(key, state, numbered, play.callers())?;
    push_workers(key, state, numbered, play.workers())?;
    push_doors(key, play)
}

impl KeyWriter {
    /// Nothing is written yet.
    pub fn new(alloc: Global) -> KeyWriter {
        KeyWriter {
            numbered: Numbered::new(alloc),
            listed: Vec::new(alloc),
        }
    }

    /// Writes the history of a runtime of this shape.
    #[tactic(auto, using(crate::proofs::Coding::codes_more), unfolding(crate::specs::Keys::told_history))]
    fn push_history(
        &mut self,
        key: &mut Key,
        state: &State,
        shape: &Shape,
    ) -> Result<(), AllocError>
        requires { shape.now ≡ state.now.layout }
        ensures numbered { IfOk result
            (λ _. self.new.numbered ≡ gathered state.now.layout (past_of state.now.entries)) }
        ensures key { IfOk result (λ _. key.new.items ≡ key.old.items
            ++ codes (spec.told_history state.now.layout (past_of state.now.entries) self.new.numbered)) }
    {
        let counts = shape.counts();
        let queues = shape.queues().len() as u8;
        self.numbered.fill(state, counts.items, counts.callers)?;
        push_times(key, state)?;
        push_numbered(key, state, &self.numbered)?;
        push_queues(key, state, queues)?;
        push_pools(
            key,
            state,
            &self.numbered,
            &mut self.listed,
            counts.cpus,
            counts.workers,
        )
    }

    /// Writes the key of this state, in place of what the list held.
    #[tactic(auto, using(crate::proofs::Coding::codes_more), unfolding(crate::specs::Keys::key_of))]
    pub fn write(&mut self, key: &mut Key, play: &Play<'_>) -> Result<(), AllocError>
        ensures { IfOk result (λ _. key.new.items ≡ spec.key_of play.now) }
    {
        key.clear();
        let state = play.state();
        self.push_history(key, state, play.shape())?;
        push_parties(key, play, state, &self.numbered)
    }
}

/// States to which schedules of one script lead are alike if they have the same key. So a search need visit only one of
/// them.
pub fn same_keys_are_alike()
    ensures { SameKeysAreAlike }
{}
