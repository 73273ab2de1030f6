//! Reads an input into a JSON value.

ghost use Rattle.std.specs.Prelude.{◌≡◌, ◌⊎◌, IfOk, IfErr, IfSome, IsErrOf};
ghost use Rattle.serde_json.specs.View.{view};
ghost use Rattle.serde_json.specs.Errors.{IsMemory};
ghost use Rattle.cmwq_io.specs.Counts.{Rises};
ghost use Rattle.cmwq_json.specs.Inputs.{IsLong, IsJson, IsNoJson};

use crate::bytes::read_bytes;
use crate::fault::Fault;
use cmwq_io::Source;
use serde_json::{Error, Value};
use std::alloc::Global;

/// What is told of an error of the JSON reader.
fn fault_of(error: &Error) -> Fault
    ensures memory { IsMemory error.now → result ≡ Fault.NoMemory }
    ensures other { ¬ IsMemory error.now → result ≡ Fault.NotJson }
{
    if error.is_memory() {
        Fault::NoMemory
    } else {
        Fault::NotJson
    }
}

/// The value that the bytes of a source are as a JSON text. Reads the source to its end first.
///
/// # Errors
/// `TooLong` at more than 1,048,576 bytes; `NotJson` at bytes that are no text, or no JSON; `ReadFault` where the
/// source fails, `NoMemory` where memory runs out.
pub fn read_value<S: Source>(alloc: Global, source: &mut S) -> Result<Value, Fault>
    ensures value { IfOk result (λ value. IfSome (S.left source.old) (λ text. IsJson text (view value))) }
    ensures long { IsErrOf result Fault.TooLong → IfSome (S.left source.old) IsLong }
    ensures not_json { IsErrOf result Fault.NotJson → IfSome (S.left source.old) IsNoJson }
    ensures only { IfErr result
        (λ e. (e ≡ Fault.NoMemory) ⊎ (e ≡ Fault.TooLong) ⊎ (e ≡ Fault.NotJson) ⊎ (e ≡ Fault.ReadFault)) }
    ensures fault { IsErrOf result Fault.ReadFault → Rises (S.troubles source.old) (S.troubles source.new) }
{
    let bytes = read_bytes(alloc, source)?;
    match Value::from_slice(alloc, &bytes) {
        Ok(value) => Ok(value),
        Err(error) => Err(fault_of(&error)),
    }
}
