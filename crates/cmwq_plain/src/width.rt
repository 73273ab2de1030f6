ghost use Rattle.std.specs.Prelude.{◌≡◌};
ghost use Rattle.cmwq_model.specs.Prelude.{max_active, width};

use crate::layout::{first_width, is_freezable};
use crate::past::Past;
use crate::widths::{is_frozen, width_set};
use cmwq_model::Shape;

/// Max_active of the queue: what it was set to last.
#[tactic(auto, using(crate::proofs::Parts::ends, crate::proofs::WidthChanges::max_steps))]
fn max_active(shape: &Shape, past: &Past<'_>, queue: u8) -> u32
    ensures { result ≡ max_active shape.now past.now queue }
{
    let mut width = u32::from(first_width(shape, queue));
    for k in 0..past.len() {
        if let Some(set) = width_set(&past.at(k), queue) {
            width = set;
        }
    }
    width
}

/// How many queueings of the queue may be active on one CPU now.
#[tactic(auto, unfolding(cmwq_model::specs::Widths::width))]
pub fn width(shape: &Shape, past: &Past<'_>, queue: u8) -> u32
    ensures { result ≡ width shape.now past.now queue }
{
    if is_freezable(shape, queue) && is_frozen(past) {
        0
    } else {
        max_active(shape, past, queue)
    }
}
