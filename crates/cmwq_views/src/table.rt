//! The tables of a page.
ghost use Rattle.std.specs.Prelude.{◌≡◌};
ghost use Rattle.cmwq_views.specs.Page.{counter_of};

use cmwq_summary::Counter;

/// What the rows of a page are told of.
#[derive(Clone, Copy)]
pub(crate) enum Table {
    /// A row for each kind of calls.
    Calls,
    /// A row for each kind of replies.
    Replies,
    /// A row for each queue on each CPU.
    Places,
    /// A row for each worker.
    Workers,
    /// A row for each item.
    Items,
    /// A row for each caller.
    Callers,
}

/// The tables of a page, in their order.
pub(crate) const TABLES: [Table; 6] = [
    Table::Calls,
    Table::Replies,
    Table::Places,
    Table::Workers,
    Table::Items,
    Table::Callers,
];

impl Table {
    /// What its rows are numbered by.
    pub(crate) fn counter(self) -> Counter
        ensures { result ≡ counter_of self }
    {
        match self {
            Table::Calls => Counter::Calls,
            Table::Replies => Counter::Replies,
            Table::Places => Counter::Queueings,
            Table::Workers => Counter::WorkerRuns,
            Table::Items => Counter::ItemRuns,
            Table::Callers => Counter::CallerCalls,
        }
    }
}
