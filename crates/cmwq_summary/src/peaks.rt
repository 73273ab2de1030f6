//! The most that is open and active at once, by queue and CPU.
ghost use Rattle.std.specs.Prelude.{◌≡◌, ◌*◌, [], ◌∷◌, List, length, IfOk};
ghost use Rattle.cmwq_model.specs.declared.entry.Entry as entries;
ghost use Rattle.cmwq_model.specs.Prelude.{Layout, most_cpus};
ghost use Rattle.cmwq_state.specs.Pwqs.{AreActiveCounts};
ghost use Rattle.cmwq_summary.specs.Parts.{ArePeaks};
ghost use Rattle.cmwq_summary.specs.Summed.{IsNext};

use crate::key::place_in;
use crate::tally::Tally;
use cmwq_model::NoMemory;
use cmwq_state::Effect;
use std::alloc::Global;

/// How many queueings of each queue are open on each CPU; how many were at most, and how many of them were active at
/// most.
#[derive(Drop)]
pub(crate) struct Peaks {
    pub(crate) open: Tally,
    pub(crate) most_open: Tally,
    pub(crate) most_active: Tally,
}

impl Peaks {
    /// Those of no entries, at so many places. The error says that memory ran out.
    pub(crate) fn new(alloc: Global, places: usize) -> Result<Peaks, NoMemory>
        ensures { IfOk result (λ peaks. (s : Layout) → most_cpus * length s.queues ≡ places → ArePeaks s [] peaks) }
    {
        let open = Tally::new(alloc, places)?;
        let most_open = Tally::new(alloc, places)?;
        let most_active = Tally::new(alloc, places)?;
        Ok(Peaks {
            open,
            most_open,
            most_active,
        })
    }

    /// One entry more, after which so many are active of each queue on each CPU.
    pub(crate) fn add(&mut self, effect: &Effect, active_counts: &[u32])
        requires { (s : Layout) × (past : List entries.Entry) × IsNext s past effect.now
            × AreActiveCounts s (effect.now.entry ∷ past) active_counts.now × ArePeaks s past self.old }
        ensures { (s : Layout) (past : List entries.Entry) → IsNext s past effect.now
            → AreActiveCounts s (effect.now.entry ∷ past) active_counts.now → ArePeaks s past self.old
            → ArePeaks s (effect.now.entry ∷ past) self.new }
    {
        let opened = place_in(effect.opened);
        self.open.add(opened);
        self.open.remove(place_in(effect.ended));
        self.most_open.raise(opened, &self.open);
        if effect.entry.reply.keeps_widths() {
            self.most_active.raise_to(opened, active_counts);
        } else {
            self.most_active.raise_all(active_counts);
        }
    }
}
