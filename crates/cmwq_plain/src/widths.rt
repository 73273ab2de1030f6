ghost use Rattle.std.specs.Prelude.{◌≡◌};
ghost use Rattle.cmwq_model.specs.Prelude.{frozen_after, is_frozen, width_told, width_set};

use crate::past::Past;
use cmwq_model::{Call, Entry, Reply};

fn frozen_after(reply: Reply, frozen: bool) -> bool
    ensures { result ≡ frozen_after reply frozen }
{
    match reply {
        Reply::Frozen => true,
        Reply::Thawed => false,
        _ => frozen,
    }
}

/// Whether freezable queues are frozen.
#[tactic(auto, using(crate::proofs::Parts::ends, crate::proofs::PastSteps::frozen_steps))]
pub fn is_frozen(past: &Past<'_>) -> bool
    ensures { result ≡ is_frozen past.now }
{
    let mut frozen = false;
    for k in 0..past.len() {
        frozen = frozen_after(past.at(k).reply, frozen);
    }
    frozen
}

/// What the entry sets max_active of the queue to.
pub fn width_set(entry: &Entry, queue: u8) -> Option<u32>
    ensures { result ≡ width_set entry.now queue }
{
    match entry.call {
        Call::SetMax { queue: other, .. } => {
            if other.0 == queue {
                width_told(entry.reply)
            } else {
                None
            }
        }
        _ => None,
    }
}

fn width_told(reply: Reply) -> Option<u32>
    ensures { result ≡ width_told reply }
{
    match reply {
        Reply::Width(width) => Some(width),
        _ => None,
    }
}
