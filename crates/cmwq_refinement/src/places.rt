//! What is opened and what is waited for is of items, queues and CPUs that the layout has, so an entry can be applied
//! to the parts.

ghost use Rattle.cmwq_refinement.specs.Places.{OpenedAreThere, OpenAreThere, TicketsFit};

/// What is opened and what is waited for is of items, queues and CPUs that the layout has, so an entry can be applied
/// to the parts.
pub fn places_are_there()
    ensures opened_are_there { OpenedAreThere }
    ensures open_are_there { OpenAreThere }
    ensures unended_tickets_fit { TicketsFit }
{}
