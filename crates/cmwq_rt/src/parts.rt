//! The parts of a hub that has no name yet.
ghost use Rattle.std.specs.Prelude.{◌≡◌, ◌+◌, [], IfOk, IfErr, None};
ghost use Rattle.cmwq_dispatch.specs.Dispatched.{is_new};
ghost use Rattle.cmwq_monitor.specs.declared.fault.RunFault.TheVariants as faults;
ghost use Rattle.cmwq_rt.specs.Places.{all_free, shares};

use crate::condvars::Condvars;
use crate::hub::Hub;
use crate::participants::Participants;
use cmwq_model::{CallerId, Entry, MOST_CALLERS, MOST_CPUS, MOST_WORKERS, NoMemory, Shape};
use cmwq_monitor::{Dispatch, MOST_FIRES, Monitor, RunFault};
use cmwq_publish::{HubName, Opening};
use cmwq_state::Tail;
use cmwq_turns::Turnstile;
use std::alloc::Global;
use std::sync::ledger::Blank;
use std::sync::{Arc, Wait};

/// How many shares the ledger of a hub's entries is cut into: one for each caller and each worker that there may be.
const SHARES: u64 = MOST_CALLERS as u64 + 2 * MOST_WORKERS as u64 * MOST_CPUS as u64;

/// How many entries a hub keeps that drops them, at most: those of a move with one portion of its fires.
const MOST_KEPT: u32 = 4 + MOST_FIRES as u32;

/// All that a hub needs. No call of the hub takes memory.
pub struct HubParts {
    pub shape: Shape,
    pub dispatch: Dispatch,
    tail: Tail<Entry>,
    pub opening: Opening,
    condvars: Condvars,
    pub blank: Blank,
    is_dropping: bool,
    turns: Option<Arc<Turnstile, Global>>,
    ghost dispatch_is: { dispatch ≡ is_new shape shape.room dispatch.first_lent dispatch.asleep },
    ghost tail_is: { tail ≡ record { all = []; given = 0; room = tail.room } },
    ghost opening_is: { opening.layout ≡ shape },
    ghost shares: { blank.parts ≡ shares },
}

/// What is made beside the published history. The dispatch is made last, as it has the most to drop.
struct Rest {
    shape: Shape,
    condvars: Condvars,
    tail: Tail<Entry>,
    dispatch: Dispatch,
}

fn rest_of(alloc: Global, shape: &Shape, kept: u32) -> Result<Rest, NoMemory>
    ensures shape { IfOk result (λ r. r.shape ≡ shape.now) }
    ensures dispatch { IfOk result
        (λ r. r.dispatch ≡ is_new shape.now shape.now.room r.dispatch.first_lent r.dispatch.asleep) }
    ensures lends { IfOk result (λ r. r.dispatch.first_lent ≡ shape.now.callers) }
    ensures tail { IfOk result (λ r. r.tail ≡ record { all = []; given = 0; room = r.tail.room }) }
{
    let counts = shape.counts();
    Ok(Rest {
        shape: shape.copy(alloc)?,
        condvars: Condvars::new(alloc, shape)?,
        tail: Tail::new(alloc, kept)?,
        dispatch: Dispatch::new(alloc, shape, counts.room, CallerId(counts.callers))?,
    })
}

impl HubParts {
    /// The execution, the published history with a reader for each caller, a condvar for each caller and worker, and
    /// the ledger of entries. No caller is lent to runs (`lending_from`).
    ///
    /// # Errors
    /// `NoMemory` where memory runs out.
    pub fn new<R: Wait>(rt: &R, alloc: Global, shape: &Shape) -> Result<HubParts, RunFault>
        ensures shape { IfOk result (λ p. p.shape ≡ shape.now) }
        ensures readers { IfOk result (λ p. p.opening.readers ≡ shape.now.callers) }
        ensures lends { IfOk result (λ p. p.dispatch.first_lent ≡ shape.now.callers) }
        ensures fault { IfErr result (λ f. f ≡ faults.NoMemory None) }
    {
        let readers = shape.counts().callers;
        HubParts::keeping_all(rt, alloc, shape, readers)
    }

    /// The same, with so many readers in place of one for each caller (`with_readers`).
    ///
    /// # Errors
    /// `NoMemory` where memory runs out.
    pub fn keeping_all<R: Wait>(
        rt: &R,
        alloc: Global,
        shape: &Shape,
        readers: u8,
    ) -> Result<HubParts, RunFault>
        ensures shape { IfOk result (λ p. p.shape ≡ shape.now) }
        ensures readers { IfOk result (λ p. p.opening.readers ≡ readers) }
        ensures lends { IfOk result (λ p. p.dispatch.first_lent ≡ shape.now.callers) }
        ensures fault { IfErr result (λ f. f ≡ faults.NoMemory None) }
    {
        let Ok(kept) = u32::try_from(shape.counts().room) else {
            return Err(RunFault::NoMemory { ticket: None });
        };
        HubParts::with_readers(rt, alloc, shape, kept, readers)
    }

    /// How many entries a hub of this shape is to keep at a time, at least: those of one move. There are most where a
    /// run drains a queue that is drained at once: it sleeps, the call and its end are made, each item may fire, and it
    /// wakes. Where fewer are kept, such a move waits for ever for space.
    pub fn least_kept(shape: &Shape) -> u32
        ensures { result ≡ 4 + shape.now.items }
    {
        4 + u32::from(shape.counts().items)
    }

    /// The same, where so many entries are kept until a journal takes them (`least_kept`).
    ///
    /// # Errors
    /// `NoMemory` where memory runs out.
    pub fn keeping<R: Wait>(
        rt: &R,
        alloc: Global,
        shape: &Shape,
        kept: u32,
    ) -> Result<HubParts, RunFault>
        ensures shape { IfOk result (λ p. p.shape ≡ shape.now) }
        ensures readers { IfOk result (λ p. p.opening.readers ≡ shape.now.callers) }
        ensures lends { IfOk result (λ p. p.dispatch.first_lent ≡ shape.now.callers) }
        ensures fault { IfErr result (λ f. f ≡ faults.NoMemory None) }
    {
        let readers = shape.counts().callers;
        HubParts::with_readers(rt, alloc, shape, kept, readers)
    }

    /// The same, with so many readers in place of one for each caller: the callers that are given out first have one
    /// each, and `busy` of the others returns None. Each reader makes all entries dearer, whether it looks or not.
    ///
    /// # Errors
    /// `NoMemory` where memory runs out.
    pub fn with_readers<R: Wait>(
        rt: &R,
        alloc: Global,
        shape: &Shape,
        kept: u32,
        readers: u8,
    ) -> Result<HubParts, RunFault>
        ensures shape { IfOk result (λ p. p.shape ≡ shape.now) }
        ensures readers { IfOk result (λ p. p.opening.readers ≡ readers) }
        ensures lends { IfOk result (λ p. p.dispatch.first_lent ≡ shape.now.callers) }
        ensures fault { IfErr result (λ f. f ≡ faults.NoMemory None) }
    {
        let Ok(opening) = Opening::new(rt, alloc, shape, usize::from(readers)) else {
            return Err(RunFault::NoMemory { ticket: None });
        };
        let Ok(rest) = rest_of(alloc, shape, kept) else {
            opening.end(rt);
            return Err(RunFault::NoMemory { ticket: None });
        };
        let Rest {
            shape,
            condvars,
            tail,
            dispatch,
        } = rest;
        Ok(HubParts {
            shape,
            dispatch,
            tail,
            opening,
            condvars,
            blank: Blank::new(SHARES),
            is_dropping: false,
            turns: None,
        })
    }

    /// The same of a hub that drops all that it keeps when there is no space for more. No journal is to be kept of it.
    ///
    /// # Errors
    /// `NoMemory` where memory runs out.
    pub fn dropping<R: Wait>(
        rt: &R,
        alloc: Global,
        shape: &Shape,
        readers: u8,
    ) -> Result<HubParts, RunFault>
        ensures shape { IfOk result (λ p. p.shape ≡ shape.now) }
        ensures readers { IfOk result (λ p. p.opening.readers ≡ readers) }
        ensures lends { IfOk result (λ p. p.dispatch.first_lent ≡ shape.now.callers) }
        ensures fault { IfErr result (λ f. f ≡ faults.NoMemory None) }
    {
        let kept = HubParts::least_kept(shape).min(MOST_KEPT);
        let mut parts = HubParts::with_readers(rt, alloc, shape, kept, readers)?;
        parts.is_dropping = true;
        Ok(parts)
    }

    /// The same of a hub in a trial, whose threads take turns (`turns`): a thread of each of the turnstile's callers,
    /// of each worker, and of the one that closes the hub. They move only in their turns.
    ///
    /// # Errors
    /// `NoMemory` where memory runs out.
    pub fn in_turns<R: Wait>(
        rt: &R,
        alloc: Global,
        shape: &Shape,
        readers: u8,
        turnstile: Arc<Turnstile, Global>,
    ) -> Result<HubParts, RunFault>
        ensures shape { IfOk result (λ p. p.shape ≡ shape.now) }
        ensures readers { IfOk result (λ p. p.opening.readers ≡ readers) }
        ensures lends { IfOk result (λ p. p.dispatch.first_lent ≡ shape.now.callers) }
        ensures fault { IfErr result (λ f. f ≡ faults.NoMemory None) }
    {
        let mut parts = HubParts::keeping_all(rt, alloc, shape, readers)?;
        parts.turns = Some(turnstile);
        Ok(parts)
    }

    /// The same of a hub whose callers from this number on are lent to runs that wait (`Lent`), and make no other
    /// calls: each returns `Closed`. Without this call none is lent, and each wait of a run returns `NoCaller`.
    pub fn lending_from(self, first: CallerId) -> HubParts
        ensures lends { result.dispatch.first_lent ≡ first.0 }
        ensures shape { result.shape ≡ self.shape }
        ensures opening { result.opening ≡ self.opening }
        ensures blank { result.blank ≡ self.blank }
    {
        let mut parts = self;
        parts.dispatch.lends_from(first);
        parts
    }
}

impl<N: HubName> Hub<N> {
    /// Opens a hub under a name, which a caller's and a worker's type carries. It takes no memory. The participants
    /// give out its callers and workers.
    pub fn open(parts: HubParts) -> (Hub<N>, Participants<N>)
        requires layout { parts.shape ≡ N.layout }
        requires book { parts.opening.book ≡ N.book }
        requires lends { parts.dispatch.first_lent ≡ N.first_lent }
        requires ledger { (parts.blank.name ≡ N.name) × (parts.blank.parts ≡ N.parts) }
        ensures { result.1 ≡ all_free }
    {
        let HubParts {
            shape,
            dispatch,
            tail,
            opening,
            condvars,
            blank,
            is_dropping,
            turns,
        } = parts;
        let counts = shape.counts();
        let (publisher, readers) = opening.named::<N>();
        let start = publisher.prefix().again();
        let (entries, rest) = blank.open::<N>();
        let monitor = Monitor::new(dispatch, tail, publisher, entries);
        let participants = Participants::new(counts, readers, start, rest);
        (
            Hub::new(monitor, condvars, turns, shape, is_dropping),
            participants,
        )
    }
}
