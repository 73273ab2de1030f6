//! What one more entry does to the unended tickets, and which flushes it serves.

ghost use Rattle.cmwq_theory_steps.specs.TicketSteps.{UnendedGoOn, OneTicketEnds, ServedStay, BegunAreServed};
ghost use Rattle.cmwq_theory_steps.specs.TicketSteps.{OverflowedMoveUp, OneMovesUp, TicketsGoOn};

/// What one more entry does to the unended tickets, and which flushes it serves.
pub fn tickets_go_on()
    ensures unended_go_on { UnendedGoOn }
    ensures one_ticket_ends { OneTicketEnds }
    ensures served_stay { ServedStay }
    ensures begun_are_served { BegunAreServed }
    ensures overflowed_move_up { OverflowedMoveUp }
    ensures one_moves_up { OneMovesUp }
    ensures tickets_go_on { TicketsGoOn }
{}
