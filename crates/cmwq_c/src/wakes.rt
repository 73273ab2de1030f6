//! Whom to wake, written for C.
ghost use Rattle.std.specs.Prelude.{◌≡◌};
ghost use Rattle.cmwq_c.specs.Wakes.{caller_number, flag_number, nobody_number, nobody_numbers, told_first};
ghost use Rattle.cmwq_c.specs.Wakes.{wakes_numbers, worker_numbers};

use crate::numbers::{WakesNumbers, WhoNumbers};
use crate::told::who_numbers;
use cmwq_dispatch::{Named, Wakes};
use cmwq_model::{CallerId, Who, WorkerId};

/// The kind of no worker, and the number of no caller.
const NOBODY: u8 = 255;

/// How many callers, and how many workers, are named one by one.
const NAMED: usize = 8;

/// The callers that are named one by one, and then nobody.
fn caller_numbers(named: &[Option<CallerId>; NAMED]) -> [u8; NAMED]
    ensures { result ≡ told_first caller_number nobody_number named.now }
{
    let mut told = [NOBODY; NAMED];
    let mut place = 0;
    for caller in named {
        if let Some(caller) = caller {
            told[place] = caller.0;
            place += 1;
        }
    }
    told
}

/// The workers that are named one by one, and then nobody.
fn worker_numbers(named: &[Option<WorkerId>; NAMED]) -> [WhoNumbers; NAMED]
    ensures { result ≡ told_first worker_numbers nobody_numbers named.now }
{
    let nobody = WhoNumbers {
        kind: NOBODY,
        index: 0,
        cpu: 0,
    };
    let mut told = [nobody; NAMED];
    let mut place = 0;
    for worker in named {
        if let Some(worker) = worker {
            told[place] = who_numbers(Who::Worker(*worker));
            place += 1;
        }
    }
    told
}

fn wakes_numbers(named: &Named) -> WakesNumbers
    ensures { result ≡ wakes_numbers named.now }
{
    WakesNumbers {
        workers: worker_numbers(&named.workers),
        callers: caller_numbers(&named.callers),
        all_workers: named.all_workers.into(),
        all_callers: named.all_callers.into(),
        clock: named.completions.into(),
    }
}

/// Tells whom to wake.
pub fn tell(wakes: Wakes, told: &mut WakesNumbers)
    ensures { told.new ≡ wakes_numbers wakes.named }
{
    *told = wakes_numbers(&wakes.into_named());
}

/// Lets wakes go that name nobody, since nothing was done.
pub fn forget(wakes: Wakes) {
    let _named = wakes.into_named();
}
