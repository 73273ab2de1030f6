//! The waits of a history.

ghost use Rattle.cmwq_model.specs.Prelude.{past_of};
ghost use Rattle.cmwq_waiting.specs.Deadlocks.{AllowedAsleepToo, AllowedTrapNone, DeadlocksLast, EntriesTrapNone};
ghost use Rattle.cmwq_waiting.specs.Deadlocks.{NoDeadlockComesUp, RefusalsAreRefused, RefusedNeverEnd};
ghost use Rattle.cmwq_waiting.specs.Examples.{EntriesMayTrap, WhoWaits};
ghost use Rattle.cmwq_waiting.specs.Needed.{FrozenPremisesAreNeeded, LentPremisesAreNeeded, OverPremisesAreNeeded};
ghost use Rattle.cmwq_waiting.specs.Needed.{PremisesAreMet, PremisesAreNeeded};
ghost use Rattle.cmwq_waiting.specs.Rest.{AtRestNoneRuns, AtRestWaitsAreDeadlock, HubsNeverHang, NeverHangs};
ghost use Rattle.cmwq_waiting.specs.Rest.{NoneOpenAllReady};
ghost use Rattle.cmwq_waiting.specs.Rest.{OnlyFrozenAreOpen, OverStaysOver, UnreadyStayUnready};
ghost use Rattle.cmwq_waiting.specs.Waits.{EntriesGoOn, LentTicketsAreWaits, PairsAddOne, SleepsAddNone};
ghost use Rattle.cmwq_waits.specs.Begun.{WaitsAreApart, WaitsAreAsleep, WaitsAreFew, WaitsAreWaiting};

use cmwq_monitor::Monitor;
use cmwq_publish::HubName;

// ---- who waits

/// Each run that waits is what its worker runs, and sleeps.
pub fn waits_are_asleep()
    ensures { WaitsAreAsleep }
{}

/// Each run that waits is open and has started, and its ticket is unended.
pub fn waits_are_waiting()
    ensures { WaitsAreWaiting }
{}

/// No run waits twice.
pub fn waits_are_apart()
    ensures { WaitsAreApart }
{}

/// There are at most as many waits as workers whose runs sleep.
pub fn waits_are_few()
    ensures { WaitsAreFew }
{}

/// An entry that begins no wait takes out those whose run makes it or whose ticket it ends, and no others.
pub fn entries_go_on()
    ensures { EntriesGoOn }
{}

/// A sleep alone changes nothing.
pub fn sleeps_add_none()
    ensures { SleepsAddNone }
{}

/// A sleep and the call of a lent caller that follows add one wait, and end none.
pub fn pairs_add_one()
    ensures { PairsAddOne }
{}

/// If lent callers are given tickets only right after a run fell asleep, and runs that wait make no entry, then a run
/// waits for each unended ticket of a lent caller.
pub fn lent_tickets_are_waits()
    ensures { LentTicketsAreWaits }
{}

/// Without either of these two premises a lent caller may have an unended ticket for which no run waits.
pub fn lent_premises_are_needed()
    ensures { LentPremisesAreNeeded }
{}

/// Worked examples: which runs wait.
pub fn who_waits()
    ensures { WhoWaits }
{}

// ---- waits that could never end

/// A wait is refused where it would wait for its own run or could never end, and nowhere else.
pub fn refusals_are_refused()
    ensures { RefusalsAreRefused }
{}

/// A wait that is not refused is not refused either once its run has fallen asleep.
pub fn allowed_asleep_too()
    ensures { AllowedAsleepToo }
{}

/// Waits that are held up by one another never end, unless an entry lets them go.
pub fn deadlocks_last()
    ensures { DeadlocksLast }
{}

/// If a wait is refused and begun all the same, it never ends, unless an entry lets it go.
pub fn refused_never_end()
    ensures { RefusedNeverEnd }
{}

/// An entry that begins no wait makes no deadlock, unless it makes a queue narrower on which a run waits for what has
/// not started, or queues what a run waits for.
pub fn entries_trap_none()
    ensures { EntriesTrapNone }
{}

/// A wait that begins and was not refused makes no deadlock, unless its call queues what another run waits for.
pub fn allowed_trap_none()
    ensures { AllowedTrapNone }
{}

/// No waits are a deadlock if none was refused and no entry may trap them.
pub fn no_deadlock_comes_up()
    ensures { NoDeadlockComesUp }
{}

/// Worked examples: a queue gets narrower, or a run queues in a drain, and that makes a deadlock of a wait.
pub fn entries_may_trap()
    ensures { EntriesMayTrap }
{}

// ---- rest

/// Where no run is under way and no worker would start anything, what is open is on a queue that a freeze shuts down.
pub fn only_frozen_are_open()
    ensures { OnlyFrozenAreOpen }
{}

/// At rest, where each run waits and nothing open is shut down, all waits together are a deadlock.
pub fn at_rest_waits_are_deadlock()
    ensures { AtRestWaitsAreDeadlock }
{}

/// So no run is under way there, if no waits are a deadlock.
pub fn at_rest_none_runs()
    ensures { AtRestNoneRuns }
{}

/// A hub does not hang by itself: if it is at rest, each run waits by it, no wait was refused or trapped, and nothing
/// that is open is on a queue that a freeze shuts down, then nothing is open.
pub fn hubs_never_hang()
    ensures { HubsNeverHang }
{}

/// A hub keeps the premises about its waits: none was refused just before its run fell asleep. So it does not hang by
/// itself, if no entry may trap waits.
pub fn hub_never_hangs<N: HubName>(monitor: &Monitor<N>)
    ensures { NeverHangs N.first_lent N.layout (past_of monitor.now.history) }
{
    monitor.stands();
}

/// Where nothing is open, each ticket is ready.
pub fn none_open_all_ready()
    ensures { NoneOpenAllReady }
{}

/// A worked example: a run waits, its wait ends, and the history meets all premises of `hubs_never_hang`.
pub fn premises_are_met()
    ensures { PremisesAreMet }
{}

/// Without any one of these premises something may be left open.
pub fn premises_are_needed()
    ensures { PremisesAreNeeded }
{}

/// Without any one of the premises of `only_frozen_are_open`, something may be open on a queue that no freeze shuts
/// down.
pub fn frozen_premises_are_needed()
    ensures { FrozenPremisesAreNeeded }
{}

// ---- once a hub is over

/// Once no active queueing is open and callers do nothing but end tickets, what is open stays open and inactive, and
/// nothing more is queued.
pub fn over_stays_over()
    ensures { OverStaysOver }
{}

/// So a ticket that is not ready then never gets ready.
pub fn unready_stay_unready()
    ensures { UnreadyStayUnready }
{}

/// If an active queueing is open, or a caller makes another call, a ticket that is not ready may get ready.
pub fn over_premises_are_needed()
    ensures { OverPremisesAreNeeded }
{}
