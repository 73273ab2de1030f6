//! The pass over what waits, which finds what becomes active.

ghost use Rattle.std.specs.Prelude.{◌≡◌, Bool, ◌*◌, ◌+◌, ◌<◌, [], length, vec_len, vec_capacity};
ghost use Rattle.cmwq_model.specs.declared.record.Queueing.{Queueing};
ghost use Rattle.cmwq_model.specs.Prelude.{most_cpus};
ghost use Rattle.cmwq_pwq.specs.Pwqs.{ArePlaced, AreBelowMaxActive, Passes, place_of, width_by};

use crate::waiting::Waiting;
use cmwq_model::{MOST_CPUS, Place, QueueId, QueueShape, Queueing};

/// Where the active queueings of a queue on a CPU are counted.
pub(crate) fn place_of(place: Place) -> usize
    ensures { result ≡ place_of place.queue.0 place.cpu.0 }
{
    usize::from(MOST_CPUS) * usize::from(place.queue.0) + usize::from(place.cpu.0)
}

/// How wide a queue is: its max_active, and 0 while it is frozen.
pub fn width_by(queues: &[QueueShape], most: &[u32], frozen: bool, queue: QueueId) -> u32
    requires queue { queue.0 < length queues.now }
    requires most { queue.0 < length most.now }
    ensures { result ≡ width_by queues.now most.now frozen queue.0 }
{
    let queue = usize::from(queue.0);
    if queues[queue].freezable && frozen {
        0
    } else {
        most[queue]
    }
}

/// One pass over what waits, by number: what is below max_active is counted and activated, the rest goes on waiting.
pub(crate) fn pass(
    queues: &[QueueShape],
    most: &[u32],
    frozen: bool,
    waiting: &mut Waiting,
    counts: &mut Vec<u32>,
    activated: &mut Vec<Queueing>,
)
    requires most { length most.now ≡ length queues.now }
    requires counts { vec_len counts.old ≡ most_cpus * length queues.now }
    requires placed { ArePlaced (length queues.now) waiting.old.queueings }
    requires activated_none { activated.old.items ≡ [] }
    requires activated_room { waiting.old.items < vec_capacity activated.old }
    ensures passes { (way : Queueing → Bool)
        → AreBelowMaxActive way (width_by queues.now most.now frozen) counts.old.items waiting.old.queueings
        → Passes way waiting.old.queueings counts.old.items counts.new.items waiting.new.queueings activated.new.items }
    ensures many { vec_len counts.new ≡ vec_len counts.old }
    ensures sorted { length waiting.new.queueings + vec_len activated.new ≡ length waiting.old.queueings }
    ensures others { waiting.new ≡ record waiting.old { queueings = waiting.new.queueings } }
    ensures activated_capacity { vec_capacity activated.new ≡ vec_capacity activated.old }
{
    let mut next = waiting.first();
    for index in 0..waiting.len() {
        let Some(queueing) = next else { return };
        next = waiting.next(queueing);
        let place = place_of(queueing.place);
        if counts[place] < width_by(queues, most, frozen, queueing.place.queue) {
            counts[place] += 1;
            waiting.unlink(queueing.item);
            activated.push_reserved(queueing);
        }
    }
}
