//! What comes of a trial.
ghost use Rattle.std.specs.Prelude.{◌≡◌};

use crate::party::Party;
use cmwq_model::Entry;
use cmwq_service::Fault;
use std::fmt::{self, Display, Formatter, Write};

/// A trial that came to its end.
#[derive(Debug, Drop)]
pub struct Tried {
    /// What was made, the oldest entry first.
    pub history: Vec<Entry>,
    /// How many turns there were: holds of the hub's lock, and looks and sleeps of the service.
    pub turns: u64,
}

/// Why a trial did not come to its end. The same seed tells the same again.
#[derive(Debug, Drop)]
pub enum Failure {
    /// Nobody could move any more, and not all had ended.
    Stuck {
        seed: u64,
        /// What was made until then, the oldest entry first.
        history: Vec<Entry>,
        /// All who took part, and what each waited for.
        parties: Vec<Party>,
    },
    /// A function of the service returned a fault, or memory or threads ran out.
    Stopped {
        seed: u64,
        fault: Fault,
        /// What was made until then, the oldest entry first.
        history: Vec<Entry>,
    },
}

impl Failure {
    ghost use Rattle.cmwq_trial.specs.Failing.{history_of, seed_of};

    /// The seed of the trial.
    pub fn seed(&self) -> u64
        ensures { result ≡ seed_of self.now }
    {
        match self {
            Failure::Stuck { seed, .. } | Failure::Stopped { seed, .. } => *seed,
        }
    }

    /// What was made until then, the oldest entry first.
    pub fn history(&self) -> &[Entry]
        ensures { result.now ≡ history_of self.now }
    {
        match self {
            Failure::Stuck { history, .. } | Failure::Stopped { history, .. } => history,
        }
    }
}

impl Display for Failure {
    fn fmt<W: Write>(&self, f: &mut Formatter<W>) -> fmt::Result {
        match self {
            Failure::Stuck {
                seed,
                history,
                parties,
            } => {
                write!(f, "seed {seed}: stuck after {} entries", history.len())?;
                for party in parties {
                    write!(f, "; {party}")?;
                }
                Ok(())
            }
            Failure::Stopped {
                seed,
                fault,
                history,
            } => write!(
                f,
                "seed {seed}: stopped after {} entries: {fault}",
                history.len()
            ),
        }
    }
}
