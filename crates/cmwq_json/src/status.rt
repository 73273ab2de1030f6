//! The exit status of a fault.

ghost use Rattle.std.specs.Prelude.{◌≡◌};
ghost use Rattle.cmwq_json.specs.Statuses.{fault_status};

use crate::fault::Fault;

/// The exit status of a run that failed so.
pub fn fault_status(fault: Fault) -> u8
    ensures { result ≡ fault_status fault }
{
    match fault {
        Fault::NoMemory => 4,
        Fault::ReadFault | Fault::WriteFault => 5,
        Fault::TooLong | Fault::NotJson | Fault::Member(_) => 1,
    }
}
