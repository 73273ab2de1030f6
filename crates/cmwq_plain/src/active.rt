ghost use Rattle.cmwq_model.specs.Prelude.{is_live, same_place, is_ahead, is_active, is_listed, next};
ghost use Rattle.cmwq_model.specs.Prelude.{is_below_max_active};
ghost use Rattle.std.specs.Prelude.{◌≡◌, ◌&&◌, ◌<◌, ◌+◌, length, if◌then◌else◌, option_map};
ghost use Rattle.cmwq_theory_steps.specs.Looks.{was_below_max_active};
ghost use Rattle.cmwq_plain.specs.Partial.{ahead_upto};
ghost use Rattle.cmwq_plain.specs.Earliest.{may_start, earliest_since, earlier, better, best_upto, queueing_of};

use crate::entries::is_same_pool;
use crate::fate::is_started;
use crate::layout::pool_at;
use crate::past::Past;
use crate::queueings::{is_live, opening_at};
use crate::runs::item_runs;
use crate::width::width;
use cmwq_model::{Number, Place, PoolId, Queueing, Shape};

/// A queueing that a pool may start, and the entry that made it active.
#[derive(Clone, Copy)]
struct Candidate {
    queueing: Queueing,
    since: Number,
}

fn is_same_place(a: Place, b: Place) -> bool
    ensures { result ≡ same_place a b }
{
    a.queue.0 == b.queue.0 && a.cpu.0 == b.cpu.0
}

/// Whether the other one is older and on the same queue and CPU.
fn is_ahead(queueing: &Queueing, other: &Queueing) -> bool
    ensures { result ≡ is_ahead queueing.now other.now }
{
    is_same_place(other.place, queueing.place) && other.number < queueing.number
}

/// Whether the entry with this number opened one that is still open and ahead of this.
#[tactic(auto, using(cmwq_lemmas::proofs::Pushed::filter_push, cmwq_lemmas::proofs::Pushed::count_push), unfolding(crate::specs::Partial::ahead_upto, crate::specs::Past::open_upto))]
fn is_ahead_at(past: &Past<'_>, queueing: &Queueing, number: usize) -> bool
    requires { number < length past.now }
    ensures { ahead_upto past.now queueing.now (number + 1)
        ≡ ahead_upto past.now queueing.now number + (if result then 1 else 0) }
{
    match opening_at(past, number) {
        None => false,
        Some(other) => is_ahead(queueing, &other) && is_live(past, &other),
    }
}

/// Whether fewer than the width of its queue stand ahead of the queueing.
#[tactic(auto, using(crate::proofs::Ahead::ahead_ends))]
fn is_below_max_active(shape: &Shape, past: &Past<'_>, queueing: &Queueing) -> bool
    ensures { result ≡ is_below_max_active shape.now past.now queueing.now }
{
    let width = width(shape, past, queueing.place.queue.0);
    let mut ahead: u32 = 0;
    for k in 0..past.len() {
        if ahead < width && is_ahead_at(past, queueing, k) {
            ahead += 1;
        }
    }
    ahead < width
}

fn is_open_below_max_active(shape: &Shape, past: &Past<'_>, queueing: &Queueing) -> bool
    ensures { result ≡ (is_live past.now queueing.now && is_below_max_active shape.now past.now queueing.now) }
{
    is_live(past, queueing) && is_below_max_active(shape, past, queueing)
}

/// Whether the queueing was below max_active just before an entry that changed a width.
#[tactic(auto, using(crate::proofs::Parts::ends, crate::proofs::WidthChanges::had_steps))]
fn was_below_max_active(shape: &Shape, past: &Past<'_>, queueing: &Queueing) -> bool
    ensures { result ≡ was_below_max_active shape.now past.now queueing.now }
{
    let mut had = false;
    for k in 0..past.len() {
        let entry = past.at(k);
        had = had
            || (!entry.reply.keeps_widths()
                && is_open_below_max_active(shape, &past.before(k), queueing));
    }
    had
}

/// Whether the queueing is active: open, and it is below max_active, or was before a width changed.
#[tactic(auto, using(cmwq_theory_steps::proofs::Looks::active_by_looks))]
fn is_active(shape: &Shape, past: &Past<'_>, queueing: &Queueing) -> bool
    ensures { result ≡ is_active shape.now past.now queueing.now }
{
    is_live(past, queueing)
        && (was_below_max_active(shape, past, queueing)
            || is_below_max_active(shape, past, queueing))
}

/// Whether the queueing is on the pool's worklist.
#[tactic(auto, using(cmwq_lemmas::proofs::Truth::and_false))]
fn is_listed(shape: &Shape, past: &Past<'_>, pool: PoolId, queueing: &Queueing) -> bool
    ensures { result ≡ is_listed shape.now past.now pool queueing.now }
{
    if !is_same_pool(pool_at(shape, queueing.place), pool) {
        return false;
    }
    if is_started(past, queueing.number) {
        return false;
    }
    is_active(shape, past, queueing)
}

/// Whether the pool may start the queueing.
fn may_start(shape: &Shape, past: &Past<'_>, pool: PoolId, queueing: &Queueing) -> bool
    ensures { result ≡ may_start shape.now past.now pool queueing.now }
{
    is_listed(shape, past, pool, queueing) && !item_runs(past, queueing.item.0)
}

/// The number of the entry that made the queueing active.
#[tactic(auto, using(crate::proofs::Parts::ends, crate::proofs::Earliest::since_steps))]
fn since(shape: &Shape, past: &Past<'_>, queueing: &Queueing) -> Option<Number>
    ensures { result ≡ earliest_since shape.now past.now queueing.now }
{
    let mut found = None;
    for k in 0..past.len() {
        if found.is_none() && is_active(shape, &past.before(k + 1), queueing) {
            found = Some(k as u64);
        }
    }
    found
}

fn earlier(best: Option<Candidate>, queueing: Queueing, since: Option<Number>) -> Option<Candidate>
    ensures { result ≡ earlier best queueing since }
{
    match since {
        None => best,
        Some(since) => match best {
            None => Some(Candidate { queueing, since }),
            Some(other) => {
                if since < other.since {
                    Some(Candidate { queueing, since })
                } else {
                    Some(other)
                }
            }
        },
    }
}

/// The better of a candidate and a queueing, if that may start.
fn better(
    shape: &Shape,
    past: &Past<'_>,
    pool: PoolId,
    best: Option<Candidate>,
    queueing: Queueing,
) -> Option<Candidate>
    ensures { result ≡ better shape.now past.now (may_start shape.now past.now pool) best queueing }
{
    if may_start(shape, past, pool, &queueing) {
        earlier(best, queueing, since(shape, past, &queueing))
    } else {
        best
    }
}

/// The next queueing that the pool starts: of those that it may start, the first that was made active, and of those
/// that one entry made active the least.
#[tactic(auto, using(crate::proofs::Earliest::best_steps), unfolding(crate::specs::Earliest::best_upto))]
pub fn next(shape: &Shape, past: &Past<'_>, pool: PoolId) -> Option<Queueing>
    ensures { result ≡ next shape.now past.now pool }
{
    let mut best: Option<Candidate> = None;
    for k in 0..past.len() {
        if let Some(queueing) = opening_at(past, k) {
            best = better(shape, past, pool, best, queueing);
        }
    }
    queueing_of(best)
}

fn queueing_of(best: Option<Candidate>) -> Option<Queueing>
    ensures { result ≡ option_map queueing_of best }
{
    Some(best?.queueing)
}
