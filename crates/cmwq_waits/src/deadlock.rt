//! The search for waits of which each is held up by all of them.

ghost use Rattle.std.specs.Prelude.{◌≡◌, ◌≤◌, filter, length, vec_capacity};
ghost use Rattle.std.specs.List.{list_any};
ghost use Rattle.cmwq_waits.specs.Refused.{is_of_run, never_ends, stays};
ghost use Rattle.cmwq_waits.specs.Narrowing.{AreKnown};
ghost use Rattle.cmwq_waits.specs.Looks.{AreSeen};

use crate::look::Look;
use crate::run_wait::RunWait;
use cmwq_model::Number;
use std::mem::swap;

/// Of these waits, those that are held up by all of them.
fn narrow(look: &Look, set: &[RunWait], left: &mut Vec<RunWait>)
    requires seen { AreSeen look.now.past set.now }
    requires known { AreKnown look.now set.now }
    requires room { length set.now ≤ vec_capacity left.old }
    ensures left { left.new.items ≡ filter (stays look.now set.now) set.now }
    ensures capacity { vec_capacity left.new ≡ vec_capacity left.old }
{
    left.clear();
    for wait in set {
        if look.is_held_up(set, wait.ticket) {
            left.push_reserved(*wait);
        }
    }
}

/// Whether the wait of the run with this number is in a set of these waits of which each is held up by the set. All are
/// in it at first, and those that it doesn't hold up are taken out, as long as there are some.
pub(crate) fn never_ends(
    look: &Look,
    set: &mut Vec<RunWait>,
    spare: &mut Vec<RunWait>,
    run: Number,
) -> bool
    requires seen { AreSeen look.now.past set.old.items }
    requires known { AreKnown look.now set.old.items }
    requires room { length set.old.items ≤ vec_capacity spare.old }
    requires same { vec_capacity spare.old ≡ vec_capacity set.old }
    ensures never { result ≡ never_ends look.now set.old.items run }
    ensures capacity { vec_capacity set.new ≡ vec_capacity set.old }
    ensures spare { vec_capacity spare.new ≡ vec_capacity spare.old }
{
    let many = set.as_slice().len();
    for _ in 0..many {
        let before = set.as_slice().len();
        narrow(look, set, spare);
        if spare.as_slice().len() == before {
            return has_run(set, run);
        }
        swap(set, spare);
    }
    has_run(set, run)
}

/// Whether one of these waits is of the run with this number.
fn has_run(set: &[RunWait], run: Number) -> bool
    ensures { result ≡ list_any (is_of_run run) set.now }
{
    set.iter().any(|wait| wait.run.number == run)
}
