ghost use Rattle.std.specs.Prelude.{◌≡◌, ◌<◌, ◌^◌};
ghost use Rattle.cmwq_model.specs.Prelude.{now, serial_of};

use crate::entries::is_by;
use crate::past::Past;
use cmwq_model::Who;

/// The serial of the next entry of this caller or worker: how many it has.
#[tactic(auto, using(crate::proofs::Parts::ends, crate::proofs::PastSteps::serial_step))]
pub fn serial_of(past: &Past<'_>, who: Who) -> u64
    ensures { result ≡ serial_of past.now who }
{
    let mut serial = 0;
    for number in 0..past.len() {
        if is_by(who, &past.at(number)) {
            serial += 1;
        }
    }
    serial
}

/// The tick that it is now.
#[tactic(auto, using(crate::proofs::Parts::ends, crate::proofs::PastSteps::now_step), unfolding(cmwq_model::specs::Calls::now))]
pub fn now(past: &Past<'_>) -> u64
    ensures total { result ≡ now past.now }
    ensures small { result < 2 ^ 53 }
{
    let mut total = 0;
    for number in 0..past.len() {
        total += u64::from(past.at(number).call.ticks());
    }
    total
}
