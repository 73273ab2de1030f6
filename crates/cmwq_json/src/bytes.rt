//! Reads an input whole.

ghost use Rattle.std.specs.Prelude.{◌≡◌, ◌⊎◌, IfOk, IfErr, IfSome, IsErrOf};
ghost use Rattle.cmwq_io.specs.Counts.{Rises};
ghost use Rattle.cmwq_json.specs.Inputs.{IsShort, IsLong};

use crate::fault::Fault;
use cmwq_io::{Source, read_some};
use std::alloc::Global;

/// The most bytes that an input may have.
pub const MOST_BYTES: usize = 1_048_576;

/// How many bytes are asked for at once.
const PIECE: usize = 8_192;

/// All the bytes of a source, where there are not too many. Of too many it reads at most a piece more than it may take.
pub fn read_bytes<S: Source>(alloc: Global, source: &mut S) -> Result<Vec<u8>, Fault>
    ensures whole { IfOk result (λ bytes. IfSome (S.left source.old) (λ text. (bytes.items ≡ text) × IsShort text)) }
    ensures long { IsErrOf result Fault.TooLong → IfSome (S.left source.old) IsLong }
    ensures only { IfErr result (λ e. (e ≡ Fault.NoMemory) ⊎ (e ≡ Fault.TooLong) ⊎ (e ≡ Fault.ReadFault)) }
    ensures fault { IsErrOf result Fault.ReadFault → Rises (S.troubles source.old) (S.troubles source.new) }
{
    let mut piece = [0u8; PIECE];
    let mut bytes = Vec::new(alloc);
    while bytes.len() <= MOST_BYTES {
        let count = read_some(source, &mut piece)?;
        if count == 0 {
            return Ok(bytes);
        }
        bytes.extend_from_slice(&piece[..count])?;
    }
    Err(Fault::TooLong)
}
