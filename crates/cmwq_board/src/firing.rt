//! Whoever may fire keeps a board from being over.

ghost use Rattle.std.specs.Prelude.{◌≡◌, ◌≤◌, ◌+◌, ◌&&◌, false, if◌then◌else◌, is_some, nat_lt, true};
ghost use Rattle.cmwq_dispatch.specs.Dispatched.{is_over};
ghost use Rattle.cmwq_model.specs.Prelude.{gives_ticket, is_drain};
ghost use Rattle.cmwq_board.specs.Waits.{Settles, TellsTime, with_firing};

use cmwq_dispatch::{Dispatch, Firing, Wakes};
use cmwq_model::{Call, Reply};
use std::mem::replace;

/// A caller may fire from now on, if none may yet.
pub(crate) fn begins_firing(dispatch: &mut Dispatch, firing: &mut Option<Firing>, wakes: &mut Wakes)
    requires lives { is_over dispatch.old ≡ false }
    requires token { dispatch.old.firing ≡ (if is_some firing.old then 1 else 0) }
    ensures token { is_some firing.new ≡ true }
    ensures new { dispatch.new ≡ with_firing dispatch.old }
    ensures nobody { wakes.new ≡ wakes.old }
{
    if firing.is_some() {
        return;
    }
    let begun = dispatch.begins_firing();
    if let Some(before) = replace(firing, begun) {
        dispatch.ends_firing(before, wakes);
    }
}

/// Nobody may fire any more if no drain is unended.
pub(crate) fn ends_firing(
    dispatch: &mut Dispatch,
    firing: &mut Option<Firing>,
    drains: u64,
    wakes: &mut Wakes,
)
    requires firing { dispatch.old.firing ≡ (if is_some firing.old then 1 else 0) }
    requires token { nat_lt 0 drains ≡ true → is_some firing.old ≡ true }
    ensures token { is_some firing.new ≡ nat_lt 0 drains }
    ensures settles { Settles drains dispatch.old dispatch.new wakes.old wakes.new }
{
    if drains > 0 {
        return;
    }
    if let Some(before) = firing.take() {
        dispatch.ends_firing(before, wakes);
    }
}

/// How many drains are unended once a call got this reply. There are at most so many entries.
pub(crate) fn more_drains(drains: u64, call: Call, reply: Reply, entries: u64) -> u64
    requires { drains + (if is_drain call && gives_ticket reply then 1 else 0) ≤ entries }
    ensures { result ≡ drains + (if is_drain call && gives_ticket reply then 1 else 0) }
{
    if call.is_drain() && reply.gives_ticket() {
        drains + 1
    } else {
        drains
    }
}

/// How many drains are unended once the ticket of this call is ended.
pub(crate) fn less_drains(drains: u64, call: Call) -> u64
    requires { (if is_drain call then 1 else 0) ≤ drains }
    ensures { result + (if is_drain call then 1 else 0) ≡ drains }
{
    if call.is_drain() { drains - 1 } else { drains }
}

/// Names whoever sleeps until something is completed, as whoever keeps the time does, if a drain has ended.
pub(crate) fn tells_time(call: Call, wakes: &mut Wakes)
    ensures { TellsTime (is_drain call) wakes.old wakes.new }
{
    if call.is_drain() {
        wakes.add_completions();
    }
}
