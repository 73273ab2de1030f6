//! The summary of a history.
ghost use Rattle.std.specs.Prelude.{◌≡◌, ◌<◌, ◌≤◌, ◌*◌, true, [], ◌∷◌, length, IfOk};
ghost use Rattle.cmwq_model.specs.Prelude.{now, has_time, most_cpus, most_workers};
ghost use Rattle.cmwq_summary.specs.Figures.{counted, keys_of};
ghost use Rattle.cmwq_summary.specs.Openings.{start_waits_at};
ghost use Rattle.cmwq_summary.specs.Spans.{behind};
ghost use Rattle.cmwq_summary.specs.Spent.{spent_by};
ghost use Rattle.cmwq_summary.specs.TicketWaits.{longest_wait};
ghost use Rattle.cmwq_summary.specs.Peaks as peaks;
ghost use Rattle.cmwq_state.specs.Effects.{IsEffect};
ghost use Rattle.cmwq_state.specs.Pwqs.{AreActiveCounts};
ghost use Rattle.cmwq_summary.specs.Summed.{past_summed, summed_with};

use crate::activity::{Activity, IDLE, Spent, act, activity_in};
use crate::counter::Counter;
use crate::counters::Counters;
use crate::peaks::Peaks;
use crate::span::Span;
use crate::start_waits::StartWaits;
use crate::ticket_waits::TicketWaits;
use crate::waits::Waited;
use cmwq_model::{CallerId, Entry, NoMemory, Shape, WorkerId};
use cmwq_state::{Effect, Trail};
use std::alloc::Global;
use std::marker::Model;

/// The figures of a history, which are kept while its entries come. None of them looks back. Contracts see all entries.
#[derive(Drop)]
pub struct Summary {
    shape: Shape,
    entries: Trail<Entry>,
    time: u64,
    counters: Counters,
    ticket_waits: TicketWaits,
    start_waits: StartWaits,
    activities: Vec<Activity>,
    peaks: Peaks,
}

impl Model for Summary {
    ghost use Rattle.cmwq_model.specs.Prelude.{past_of};
    ghost use Rattle.cmwq_summary.specs.Parts.{IsSummary};
    ghost use Rattle.cmwq_summary.specs.Summed.{Summed};

    ghost Value = { Summed };

    ghost view = { λ s. record { layout = s.shape; entries = s.entries } };

    ghost invariant = { λ s. IsSummary s.shape (past_of s.entries) s.time s.counters s.ticket_waits
        s.start_waits s.activities.items s.peaks };
}

impl Summary {
    /// The summary of no entries. No later call takes memory; the error says that it ran out.
    pub fn new(alloc: Global, shape: Shape) -> Result<Summary, NoMemory>
        ensures { IfOk result (λ summary. summary ≡ record { layout = shape; entries = [] }) }
    {
        let counters = Counters::new(alloc, &shape)?;
        let ticket_waits = TicketWaits::new(alloc, &shape)?;
        let start_waits = StartWaits::new(alloc, &shape)?;
        let activities = vec![in alloc; IDLE; Counter::WorkerRuns.keys(&shape)]?;
        let peaks = Peaks::new(alloc, Counter::Queueings.keys(&shape))?;
        let entries = Trail::new();
        Ok(Summary {
            shape,
            entries,
            time: 0,
            counters,
            ticket_waits,
            start_waits,
            activities,
            peaks,
        })
    }

    /// One entry more, after which so many are active of each queue on each CPU.
    pub fn add(&mut self, effect: &Effect, active_counts: &[u32])
        requires effect { IsEffect self.old.layout (past_summed self.old) effect.now }
        requires time { has_time (past_summed self.old) effect.now.entry.call ≡ true }
        requires few { length self.old.entries < 4611686018427387904 }
        requires active { AreActiveCounts self.old.layout (effect.now.entry ∷ past_summed self.old) active_counts.now }
        ensures { self.new ≡ summed_with self.old effect.now.entry }
    {
        // it shows that the shape is inside the limits
        let _counts = self.shape.counts();
        self.time += u64::from(effect.entry.call.ticks());
        let now = Span {
            entries: self.entries.len() + 1,
            ticks: self.time,
        };
        self.counters.add(effect);
        self.ticket_waits.add(effect, now);
        self.start_waits.add(effect, now);
        act(&mut self.activities, &effect.entry, now);
        self.peaks.add(effect, active_counts);
        self.entries.push(&effect.entry);
    }

    /// The shape of the history.
    pub fn shape(&self) -> &Shape
        ensures { result.now ≡ self.now.layout }
    {
        &self.shape
    }

    /// How many entries there are.
    pub fn len(&self) -> u64
        ensures { result ≡ length self.now.entries }
    {
        self.entries.len()
    }

    /// How many ticks went by.
    pub fn time(&self) -> u64
        ensures { result ≡ now (past_summed self.now) }
    {
        self.time
    }

    /// How many entries a counter counts under this key.
    pub fn count(&self, counter: Counter, key: usize) -> u64
        requires { key < keys_of self.now.layout counter }
        ensures { result ≡ counted counter (past_summed self.now) key }
    {
        self.counters.count(counter, key)
    }

    /// How long the caller's longest wait for a ticket was. The wait for one that is unended goes on until now.
    pub fn longest_wait(&self, caller: CallerId) -> Span
        requires { caller.0 < self.now.layout.callers }
        ensures { result ≡ longest_wait (past_summed self.now) caller.0 }
    {
        let caller = usize::from(caller.0);
        let goes_on = self.ticket_waits.givings.waits(caller, self.span());
        self.ticket_waits.waits.at(caller).longest.longer(goes_on)
    }

    /// How long the worker's runs were awake, and how long they slept.
    pub fn spent(&self, worker: WorkerId) -> Spent
        requires here { worker.pool.cpu.0 < self.now.layout.cpus }
        requires index { worker.index < most_workers }
        ensures { result ≡ spent_by (past_summed self.now) worker }
    {
        activity_in(&self.activities, worker).until(self.span())
    }

    /// How many entries and ticks there are.
    fn span(&self) -> Span
        ensures is { result ≡ behind (past_summed self.now) }
        ensures few { result.entries ≤ 4611686018427387904 }
    {
        Span {
            entries: self.entries.len(),
            ticks: self.time,
        }
    }

    /// How many queueings of the place with this number were open at once, at most.
    pub fn most_open(&self, place: usize) -> u64
        requires { place < most_cpus * length self.now.layout.queues }
        ensures { result ≡ peaks.most_open_at place (past_summed self.now) }
    {
        self.peaks.most_open.count(place)
    }

    /// How many of them were active at once, at most.
    pub fn most_active(&self, place: usize) -> u64
        requires { place < most_cpus * length self.now.layout.queues }
        ensures { result ≡ peaks.most_active_at self.now.layout place (past_summed self.now) }
    {
        self.peaks.most_active.count(place)
    }

    /// How long the starts there were waited for.
    pub fn start_waits(&self, place: usize) -> Waited
        requires { place < most_cpus * length self.now.layout.queues }
        ensures { result ≡ start_waits_at (past_summed self.now) place }
    {
        self.start_waits.waits.at(place)
    }
}
