ghost use Rattle.std.specs.Prelude.{◌≡◌, ◌≤◌, count_by, length};
ghost use Rattle.std.specs.List.{range_with_len};
ghost use Rattle.cmwq_model.specs.Prelude.{is_booked, still_open, unended_tickets, pool_workers, cpu_workers, workers};
ghost use Rattle.cmwq_model.specs.Prelude.{has_not_started, owed, room_needed, has_time};
ghost use Rattle.cmwq_plain.specs.Partial.{owed_by_runs};

use crate::bookings::is_booked;
use crate::fate::is_started;
use crate::layout::{cpus, items, workers};
use crate::past::Past;
use crate::queueings::open_at;
use crate::runs::{has_run, runs_asleep};
use crate::tally::now;
use crate::tickets::unended_at;
use crate::widths::is_frozen;
use cmwq_model::{Call, CpuId, PoolId, Shape, WorkerId};

/// The time that a history may come to.
const MOST_TIME: u64 = 4_611_686_018_427_387_904;

/// How many open queueings haven't started.
#[tactic(auto, using(cmwq_lemmas::proofs::Pushed::count_push, crate::proofs::PastSteps::open_ends))]
fn count_unstarted(past: &Past<'_>) -> usize
    ensures count { result ≡ count_by (has_not_started past.now) (still_open past.now) }
    ensures small { result ≤ 1000001 }
{
    let mut count: usize = 0;
    for k in 0..past.len() {
        if let Some(queueing) = open_at(past, k) {
            if !is_started(past, queueing.number) {
                count += 1;
            }
        }
    }
    count
}

/// How many tickets are unended.
#[tactic(auto, using(cmwq_lemmas::proofs::Pushed::length_push, crate::proofs::PastSteps::unended_ends))]
fn count_unended(past: &Past<'_>) -> usize
    ensures count { result ≡ length (unended_tickets past.now) }
    ensures small { result ≤ 1000001 }
{
    let mut count: usize = 0;
    for k in 0..past.len() {
        if let Some(_) = unended_at(past, k) {
            count += 1;
        }
    }
    count
}

/// How many items are delayed.
fn count_booked(shape: &Shape, past: &Past<'_>) -> usize
    ensures count { result ≡ count_by (is_booked past.now) (range_with_len 0 shape.now.items) }
    ensures small { result ≤ 65536 }
{
    (0..items(shape))
        .filter(|item| is_booked(past, *item))
        .count()
}

/// What the runs of the pool's workers owe: 1 entry each, and 1 more for each that sleeps.
#[tactic(auto, using(crate::proofs::Counts::pool_steps))]
fn pool_runs(shape: &Shape, past: &Past<'_>, pool: PoolId) -> usize
    ensures count { result ≡ owed_by_runs past.now (pool_workers shape.now pool) }
    ensures small { result ≤ 512 }
{
    let mut count: usize = 0;
    for index in 0..workers(shape) {
        let worker = WorkerId { pool, index };
        if has_run(past, worker) {
            count += 1;
        }
        if runs_asleep(past, worker) {
            count += 1;
        }
    }
    count
}

/// What the runs of a CPU's workers owe.
#[tactic(auto, using(cmwq_lemmas::proofs::Lists::count_append))]
fn cpu_runs(shape: &Shape, past: &Past<'_>, cpu: u8) -> usize
    ensures count { result ≡ owed_by_runs past.now (cpu_workers shape.now cpu) }
    ensures small { result ≤ 1024 }
{
    let cpu = CpuId(cpu);
    pool_runs(shape, past, PoolId { cpu, high: false })
        + pool_runs(shape, past, PoolId { cpu, high: true })
}

/// What the runs of all workers owe.
#[tactic(auto, using(crate::proofs::Counts::cpu_steps))]
fn all_runs(shape: &Shape, past: &Past<'_>) -> usize
    ensures count { result ≡ owed_by_runs past.now (workers shape.now) }
    ensures small { result ≤ 262144 }
{
    let mut count: usize = 0;
    for cpu in 0..cpus(shape) {
        count += cpu_runs(shape, past, cpu);
    }
    count
}

/// How many entries the history still owes, so that what has begun can end.
#[tactic(auto, unfolding(cmwq_model::specs::Room::owed))]
fn owed(shape: &Shape, past: &Past<'_>) -> usize
    ensures count { result ≡ owed shape.now past.now }
    ensures small { result ≤ 10000000 }
{
    2 * count_unstarted(past)
        + all_runs(shape, past)
        + 3 * count_booked(shape, past)
        + count_unended(past)
        + usize::from(is_frozen(past))
}

/// How many entries there are, and how many they owe.
pub fn needed(shape: &Shape, past: &Past<'_>) -> usize
    ensures { result ≡ room_needed shape.now past.now }
{
    past.len() + owed(shape, past)
}

/// Whether the time after this call is at most 2^62 ticks.
pub fn has_time(past: &Past<'_>, call: Call) -> bool
    ensures { result ≡ has_time past.now call }
{
    match call {
        Call::Tick { ticks } => now(past) + u64::from(ticks) <= MOST_TIME,
        _ => true,
    }
}
