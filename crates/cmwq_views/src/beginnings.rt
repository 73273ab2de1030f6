//! When that began which stands at the end of a history: the last entries of each kind, which are kept while they come.
ghost use Rattle.std.specs.Prelude.{◌≡◌, ◌∷◌, ℕ, List, IfOk, None, replicate};
ghost use Rattle.cmwq_model.specs.declared.entry.Entry.{Entry as TheEntry};
ghost use Rattle.cmwq_views.specs.Since.{AreLasts, last_at, noted, since_entry, table_of};
ghost use Rattle.cmwq_views.specs.declared.deed.Deed.TheVariants as deed;

use crate::deed::Deed;
use crate::number::OF_POOL;
use crate::since::Since;
use cmwq_base::{Entry, NoMemory, Shape};
use cmwq_history::{Fold, Step};
use std::alloc::Global;

/// A row for each worker, item or caller, with the last entry of it that does something.
type Table = Vec<Option<Since>>;

/// The last entries that do one of two things.
#[derive(Drop)]
pub(crate) struct Lasts {
    first: Table,
    second: Table,
}

/// A table of so many rows, of which no entry is.
fn new_table(alloc: Global, rows: usize) -> Result<Table, NoMemory>
    ensures { IfOk result (λ table. table.items ≡ replicate rows None) }
{
    Ok(vec![in alloc; None; rows]?)
}

/// An entry is the last of a row, if there is that row.
fn note(table: &mut Table, row: Option<usize>, since: Since)
    ensures { table.new.items ≡ noted table.old.items row since }
{
    if let Some(row) = row {
        if row < table.len() {
            table[row] = Some(since);
        }
    }
}

impl Lasts {
    /// Those of no entries.
    fn new(alloc: Global, rows: usize) -> Result<Lasts, NoMemory>
        ensures first { IfOk result (λ l. l.first.items ≡ replicate rows None) }
        ensures second { IfOk result (λ l. l.second.items ≡ replicate rows None) }
    {
        let first = new_table(alloc, rows)?;
        let second = new_table(alloc, rows)?;
        Ok(Lasts { first, second })
    }

    /// One entry more, after which it is now.
    fn note(&mut self, first: Deed, second: Deed, entry: &Entry, now: Since)
        ensures { (many : ℕ) → (past : List TheEntry) → now ≡ since_entry past entry.now
            → AreLasts first second many past self.old → AreLasts first second many (entry.now ∷ past) self.new }
    {
        note(&mut self.first, first.key(entry), now);
        note(&mut self.second, second.key(entry), now);
    }
}

/// When that began which may stand: the last entries of each worker, item and caller.
#[derive(Drop)]
pub(crate) struct Beginnings {
    workers: Lasts,
    items: Lasts,
    callers: Lasts,
}

impl Beginnings {
    /// One entry more, after which it is now.
    fn note(&mut self, entry: &Entry, now: Since)
        ensures workers { (many : ℕ) → (past : List TheEntry) → now ≡ since_entry past entry.now
            → AreLasts deed.Start deed.Sleep many past self.old.workers
            → AreLasts deed.Start deed.Sleep many (entry.now ∷ past) self.new.workers }
        ensures items { (many : ℕ) → (past : List TheEntry) → now ≡ since_entry past entry.now
            → AreLasts deed.Queue deed.Book many past self.old.items
            → AreLasts deed.Queue deed.Book many (entry.now ∷ past) self.new.items }
        ensures callers { (many : ℕ) → (past : List TheEntry) → now ≡ since_entry past entry.now
            → AreLasts deed.Wait deed.Other many past self.old.callers
            → AreLasts deed.Wait deed.Other many (entry.now ∷ past) self.new.callers }
    {
        self.workers.note(Deed::Start, Deed::Sleep, entry, now);
        self.items.note(Deed::Queue, Deed::Book, entry, now);
        self.callers.note(Deed::Wait, Deed::Other, entry, now);
    }

    fn table(&self, deed: Deed) -> &Table
        ensures { result.now.items ≡ table_of self.now deed }
    {
        match deed {
            Deed::Start => &self.workers.first,
            Deed::Sleep => &self.workers.second,
            Deed::Queue => &self.items.first,
            Deed::Book => &self.items.second,
            Deed::Wait => &self.callers.first,
            Deed::Other => &self.callers.second,
        }
    }

    /// The last entry of a row that does this.
    pub(crate) fn last(&self, deed: Deed, row: usize) -> Option<Since>
        ensures { result ≡ last_at (table_of self.now deed) row }
    {
        let table = self.table(deed);
        if row < table.len() { table[row] } else { None }
    }
}

impl Fold for Beginnings {
    ghost use Rattle.cmwq_views.specs.Since.{AreBeginnings};

    type Told = ();

    ghost is_of = { λ s past beginnings. AreBeginnings s past beginnings };

    fn begin(alloc: Global, shape: &Shape) -> Result<Self, NoMemory> {
        let counts = shape.counts();
        let workers = Lasts::new(alloc, 2 * OF_POOL * usize::from(counts.cpus))?;
        let items = Lasts::new(alloc, counts.items.into())?;
        let callers = Lasts::new(alloc, counts.callers.into())?;
        Ok(Beginnings {
            workers,
            items,
            callers,
        })
    }

    fn take(&mut self, step: &Step<'_, ()>) -> Result<(), NoMemory> {
        let now = Since {
            entry: step.at(),
            tick: step.state().time(),
        };
        self.note(step.entry(), now);
        Ok(())
    }
}
