use std::marker::Brand;
use std::sync::ledger::Ledger;

/// Names one hub: the log of its history, its shape, from which number on its callers are lent to runs, and the ledger
/// of its entries. Contracts alone read it.
pub trait HubName: Ledger {
    ghost use Rattle.logbook.specs.Pages.{Book};
    ghost use Rattle.cmwq_model.specs.Prelude.{Layout};
    ghost use Rattle.std.specs.Prelude.{ℕ};

    ghost book: { Book };

    ghost layout: { Layout };

    ghost first_lent: { ℕ };
}

impl HubName for Brand {
    ghost use Rattle.cmwq_publish.specs.Unnamed.{unnamed_book, no_layout};

    ghost book = { unnamed_book };

    ghost layout = { no_layout };

    ghost first_lent = { 0 };
}
