//! Why a run over a JSON input fails.

ghost use Rattle.std.specs.Prelude.{◌≡◌};
ghost use Rattle.cmwq_json.specs.declared.fault.Fault.TheVariants as fault;

use crate::refused::Refused;
use std::alloc::{AllocError, AllocFailed};
use thiserror::Error;

/// Why an input was refused, or what failed.
#[derive(Clone, Copy, Debug, PartialEq, Eq, Error)]
pub enum Fault {
    /// Memory ran out.
    #[error("no memory")]
    NoMemory,
    /// The input has more than 1,048,576 bytes.
    #[error("input too long")]
    TooLong,
    /// The input is no JSON: no text, or one of another form, or one that nests deeper than 127.
    #[error("not JSON")]
    NotJson,
    /// A member of the input is refused; it is the first.
    #[error("{0}: refused")]
    Member(Refused),
    /// The source failed.
    #[error("read fault")]
    ReadFault,
    /// The sink failed.
    #[error("write fault")]
    WriteFault,
}

impl From<AllocError> for Fault {
    ghost from_gives = { λ _ e. e ≡ fault.NoMemory };

    fn from(_error: AllocError) -> Fault {
        Fault::NoMemory
    }
}

impl<T: Drop> From<AllocFailed<T>> for Fault {
    ghost from_gives = { λ _ e. e ≡ fault.NoMemory };

    fn from(_error: AllocFailed<T>) -> Fault {
        Fault::NoMemory
    }
}

impl From<cmwq_model::NoMemory> for Fault {
    ghost from_gives = { λ _ e. e ≡ fault.NoMemory };

    fn from(_error: cmwq_model::NoMemory) -> Fault {
        Fault::NoMemory
    }
}

impl From<Refused> for Fault {
    ghost from_gives = { λ refused e. e ≡ fault.Member refused };

    fn from(refused: Refused) -> Fault {
        Fault::Member(refused)
    }
}

impl From<cmwq_io::ReadFault> for Fault {
    ghost from_gives = { λ _ e. e ≡ fault.ReadFault };

    fn from(_error: cmwq_io::ReadFault) -> Fault {
        Fault::ReadFault
    }
}

impl From<cmwq_io::WriteFault> for Fault {
    ghost from_gives = { λ _ e. e ≡ fault.WriteFault };

    fn from(_error: cmwq_io::WriteFault) -> Fault {
        Fault::WriteFault
    }
}
