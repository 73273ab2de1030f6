//! The parts of items, and how long they take.

ghost use Rattle.std.specs.Prelude.{◌≡◌, ◌+◌, ◌*◌, ◌≤◌, ◌<◌, ◌^◌, ◌∷◌, [], length, sum, drop, MatchOption, IfSome};
ghost use Rattle.std.specs.List.{AllByRecursion};
ghost use Rattle.cmwq_sim.specs.Plan.{plan_of, ms_of, plan_queue, whole_time};
ghost use Rattle.cmwq_sim.specs.Limits.{IsBetween, IsWithinLimits};

use crate::scenario::Scenario;

/// This part of an item, if it has so many.
pub(crate) fn part_at(scenario: &Scenario, item: u8, part: usize) -> Option<u16>
    ensures part { MatchOption result (drop part (ms_of (plan_of scenario.now) item) ≡ [])
        (λ n. drop part (ms_of (plan_of scenario.now) item) ≡ n ∷ drop (part + 1) (ms_of (plan_of scenario.now) item)) }
    ensures next { IfSome result (λ _. part < 2 ^ 62) }
{
    let item = scenario.items.get(usize::from(item))?;
    item.ms.get(part).copied()
}

fn time_of(ms: &[u16]) -> u32
    requires few { length ms.now ≤ 8 }
    requires short { AllByRecursion (IsBetween 1 1000) ms.now }
    ensures time { result ≡ sum ms.now }
    ensures within { result ≤ 8000 }
{
    let mut time: u32 = 0;
    for part in ms {
        time += u32::from(*part);
    }
    time
}

/// The time of all items, in milliseconds.
pub(crate) fn whole_time(scenario: &Scenario) -> u32
    requires { IsWithinLimits (plan_of scenario.now) }
    ensures time { result ≡ whole_time (plan_of scenario.now) }
    ensures within { result ≤ 64000 }
{
    let mut time: u32 = 0;
    for item in &scenario.items {
        time += time_of(&item.ms);
    }
    time
}

pub(crate) fn item_count(scenario: &Scenario) -> u8
    requires { IsWithinLimits (plan_of scenario.now) }
    ensures count { result ≡ length (plan_of scenario.now).items }
    ensures few { result ≤ 8 }
{
    scenario.items.len() as u8
}

/// The queue of an item.
pub(crate) fn queue_of(scenario: &Scenario, item: u8) -> u8
    requires { item < length (plan_of scenario.now).items }
    ensures { result ≡ plan_queue (plan_of scenario.now) item }
{
    scenario.items[usize::from(item)].queue
}
