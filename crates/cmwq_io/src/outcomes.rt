//! How the calls of a source or a sink went.
ghost use Rattle.std.specs.Prelude.{◌≡◌, ◌∷◌, ◌++◌, []};
ghost use Rattle.cmwq_io.specs.Outcomes.{outcome_of};

use crate::trouble::Trouble;
use http_server::Log;
use std::marker::Model;

/// How each call so far went. Contracts alone see it: it takes no memory.
#[derive(Drop)]
pub(crate) struct Outcomes {
    all: Log<Option<Trouble>, ()>,
}

impl Model for Outcomes {
    ghost use Rattle.std.specs.Prelude.{List, Option, map};
    ghost use Rattle.cmwq_io.specs.declared.trouble.Trouble.{Trouble};

    ghost Value = { List (Option Trouble) };

    ghost view = { λ o. map (λ call. call.0) o.all.items };
}

impl Outcomes {
    /// No call yet.
    pub(crate) fn new() -> Outcomes
        ensures { result ≡ [] }
    {
        Outcomes { all: Log::new() }
    }

    /// One call more, which gave this answer.
    pub(crate) fn add<T>(&mut self, answer: &Result<T, Trouble>)
        ensures { self.new ≡ self.old ++ outcome_of answer.now ∷ [] }
    {
        let outcome = match answer {
            Ok(_) => None,
            Err(trouble) => Some(*trouble),
        };
        self.all = self.all.and(&outcome, &());
    }
}
