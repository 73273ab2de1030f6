//! Who is to be woken.

ghost use Rattle.std.specs.Prelude.{◌≡◌, ℕ, true};
ghost use Rattle.std.specs.List.{list_any};
ghost use Rattle.cmwq_model.specs.declared.id.WorkerId.{WorkerId as Worker};
ghost use Rattle.cmwq_dispatch.specs.Naming.{NamesAll, NamesMore, NamesNobody, is_caller, is_worker, names_caller};
ghost use Rattle.cmwq_dispatch.specs.Naming.{names_completions, names_journal, names_worker};

use cmwq_model::{CallerId, WorkerId};

/// How many callers, and how many workers, are named one by one. Where there are more, all of them are named.
pub const MOST_NAMED: usize = 8;

/// Those who are named: each one by one, or all.
#[derive(Clone, Copy)]
pub struct Named {
    pub callers: [Option<CallerId>; MOST_NAMED],
    pub workers: [Option<WorkerId>; MOST_NAMED],
    pub all_callers: bool,
    pub all_workers: bool,
    /// Whoever writes the history down.
    pub journal: bool,
    /// All who sleep until something is completed.
    pub completions: bool,
}

/// Who is to be woken. It cannot be let go: who has it has to take out the names, and wake them.
pub struct Wakes {
    named: Named,
}

impl Wakes {
    /// Nobody is named.
    pub fn new() -> Wakes
        ensures { NamesNobody result }
    {
        Wakes {
            named: Named {
                callers: [None; MOST_NAMED],
                workers: [None; MOST_NAMED],
                all_callers: false,
                all_workers: false,
                journal: false,
                completions: false,
            },
        }
    }

    /// Takes out the names, for the one who wakes them.
    pub fn into_named(self) -> Named
        ensures { result ≡ self.named }
    {
        let Wakes { named } = self;
        named
    }

    /// Names a caller too, or all where there is no place left.
    pub(crate) fn add_caller(&mut self, caller: CallerId)
        ensures named { names_caller self.new caller.0 ≡ true }
        ensures more { NamesMore self.old self.new }
    {
        if add_caller(&mut self.named.callers, caller) {
            return;
        }
        self.named.all_callers = true;
    }

    /// Names a worker too, or all where there is no place left.
    pub(crate) fn add_worker(&mut self, worker: WorkerId)
        ensures named { names_worker self.new worker ≡ true }
        ensures more { NamesMore self.old self.new }
    {
        if add_worker(&mut self.named.workers, worker) {
            return;
        }
        self.named.all_workers = true;
    }

    /// Names everybody.
    pub(crate) fn add_all(&mut self)
        ensures all { NamesAll self.new }
        ensures more { NamesMore self.old self.new }
    {
        self.named.all_callers = true;
        self.named.all_workers = true;
        self.named.journal = true;
        self.named.completions = true;
    }

    /// Names whoever writes the history down.
    pub fn add_journal(&mut self)
        ensures named { names_journal self.new ≡ true }
        ensures more { NamesMore self.old self.new }
    {
        self.named.journal = true;
    }

    /// Names all who sleep until something is completed.
    pub fn add_completions(&mut self)
        ensures named { names_completions self.new ≡ true }
        ensures more { NamesMore self.old self.new }
    {
        self.named.completions = true;
    }
}

/// Puts a caller into the first free place. It returns false where there is none.
fn add_caller(places: &mut [Option<CallerId>], caller: CallerId) -> bool
    ensures added { result ≡ true → list_any (is_caller caller.0) places.new ≡ true }
    ensures kept { (c : ℕ) → list_any (is_caller c) places.old ≡ true → list_any (is_caller c) places.new ≡ true }
{
    for place in 0..places.len() {
        if places[place].is_none() {
            places[place] = Some(caller);
            return true;
        }
    }
    false
}

/// Puts a worker into the first free place. It returns false where there is none.
fn add_worker(places: &mut [Option<WorkerId>], worker: WorkerId) -> bool
    ensures added { result ≡ true → list_any (is_worker worker) places.new ≡ true }
    ensures kept { (v : Worker) → list_any (is_worker v) places.old ≡ true → list_any (is_worker v) places.new ≡ true }
{
    for place in 0..places.len() {
        if places[place].is_none() {
            places[place] = Some(worker);
            return true;
        }
    }
    false
}
