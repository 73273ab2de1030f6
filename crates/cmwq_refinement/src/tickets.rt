//! Where the tickets of callers are those of a history, the calls for one more entry make them those of the longer one,
//! and what they answer is what the definitions say.

ghost use Rattle.cmwq_refinement.specs.Tickets.{AllTicketsAreCounted, CancellingAlike, CrowdedAlike, DestroyedAlike};
ghost use Rattle.cmwq_refinement.specs.Tickets.{DrainingAlike, NoTicketsAtFirst, RowsForCallers, TicketsRefine};
ghost use Rattle.cmwq_refinement.specs.Tickets.{TicketsFoundAlike, EntriesApplyToTickets, TicketsOfAnyCaller};

/// Where the tickets of callers are those of a history, the calls for one more entry make them those of the longer one,
/// and what they answer is what the definitions say.
pub fn tickets_refine()
    ensures no_tickets_at_first { NoTicketsAtFirst }
    ensures tickets_refine { TicketsRefine }
    ensures entries_apply_to_tickets { EntriesApplyToTickets }
    ensures rows_for_callers { RowsForCallers }
    ensures crowded_alike { CrowdedAlike }
    ensures tickets_found_alike { TicketsFoundAlike }
    ensures tickets_of_any_caller { TicketsOfAnyCaller }
    ensures cancelling_alike { CancellingAlike }
    ensures draining_alike { DrainingAlike }
    ensures destroyed_alike { DestroyedAlike }
    ensures all_tickets_are_counted { AllTicketsAreCounted }
{}
