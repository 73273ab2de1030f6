ghost use Rattle.std.specs.Prelude.{◌<◌, ◌↔◌, All, AllPairs, Contains, IfSome, IfNone, IsTrue};
ghost use Rattle.cmwq_flush.specs.Served.{IsOlderServed, LacksTicket, HasTicketAt, tickets_of_served};

use cmwq_model::Number;

/// A flush that is served.
#[derive(Clone, Copy)]
pub struct Served {
    pub ticket: Number,
    /// It waits for the queueings below this number: those that were opened before it was served.
    pub bound: u64,
}

/// The place of the flush with this ticket, if it is served.
pub(crate) fn find_served(served: &[Served], ticket: Number) -> Option<usize>
    requires { AllPairs IsOlderServed served.now }
    ensures found { IfSome result (HasTicketAt served.now ticket) }
    ensures absent { IfNone result (LacksTicket served.now ticket) }
{
    served
        .binary_search_by_key(&ticket, |flush| flush.ticket)
        .ok()
}
