//! The definitions say what the field's words say.

ghost use Rattle.cmwq_theory_laws.specs.Fidelity.{NamesItself, StandByNumber, ActiveAreFirst, WaitsForLeast};
ghost use Rattle.cmwq_theory_laws.specs.Fidelity.{RunsAreItems};
ghost use Rattle.cmwq_theory_steps.specs.Order.{WorklistsAreInOrder};

/// A reply that opens a queueing or gives a ticket names its own entry.
pub fn replies_name_themselves()
    ensures { NamesItself }
{}

/// Queueings stand by their numbers, and so do the open ones.
pub fn queueings_stand_by_number()
    ensures { StandByNumber }
{}

/// The active queueings of a queue on a CPU are the first of its open ones there, as many as the queue is wide.
pub fn active_are_first()
    ensures { ActiveAreFirst }
{}

/// A pool's worklist has its active queueings that haven't started, and no others, in the order in which they became
/// active, and those of one event by number.
pub fn worklists_are_in_order()
    ensures { WorklistsAreInOrder }
{}

/// The run of a worker is the run of its item.
pub fn runs_are_items()
    ensures { RunsAreItems }
{}

/// The number that a ticket waits for is the least of the open queueings that hold it up.
pub fn tickets_wait_for_least()
    ensures { WaitsForLeast }
{}
