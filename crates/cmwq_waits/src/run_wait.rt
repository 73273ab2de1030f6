//! A run that waits.

use cmwq_model::{Queueing, Ticket};

/// A run that waits: the queueing that is run, and the ticket that it waits for, of a caller that is lent to it.
#[derive(Clone, Copy)]
pub struct RunWait {
    pub run: Queueing,
    pub ticket: Ticket,
}
