//! Where the flights are those of a history, the calls for each entry make them those of the longer history.

ghost use Rattle.cmwq_refinement.specs.Flights.{NoFlightsAtFirst, FlightsRefine, FlightsForItems, FlightsAreOfItems};
ghost use Rattle.cmwq_refinement.specs.Flights.{OpenAreInFlight, WorkersRunFlights, StartsAreUnstarted};
ghost use Rattle.cmwq_refinement.specs.Flights.{EntriesApplyToFlights};

/// Where the flights are those of a history, the calls for each entry make them those of the longer history.
pub fn flights_refine()
    ensures no_flights_at_first { NoFlightsAtFirst }
    ensures flights_refine { FlightsRefine }
    ensures flights_for_items { FlightsForItems }
    ensures flights_are_of_items { FlightsAreOfItems }
    ensures open_are_in_flight { OpenAreInFlight }
    ensures workers_run_flights { WorkersRunFlights }
    ensures starts_are_unstarted { StartsAreUnstarted }
    ensures entries_apply_to_flights { EntriesApplyToFlights }
{}
