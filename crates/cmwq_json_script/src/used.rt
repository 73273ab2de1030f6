//! The gates and the locks that actions name.

ghost use Rattle.std.specs.Prelude.{◌≡◌, IfOk, option_map};
ghost use Rattle.serde_json.specs.View.{view};
ghost use Rattle.cmwq_json_script.specs.Used.{none_used, gate_said, lock_said};

use crate::numbering::Numbering;
use serde_json::Value;
use std::alloc::{AllocError, Global};

/// The gates and the locks that have been named so far.
#[derive(Drop)]
pub struct Used {
    pub gates: Numbering,
    pub locks: Numbering,
}

impl Used {
    /// No gate and no lock.
    pub fn new(alloc: Global) -> Used
        ensures { result ≡ none_used }
    {
        Used {
            gates: Numbering::new(alloc),
            locks: Numbering::new(alloc),
        }
    }

    /// The number of the gate that a value names.
    pub fn read_gate(&mut self, alloc: Global, value: &Value) -> Result<Option<u8>, AllocError>
        ensures { IfOk result (λ r. option_map (λ gate. (gate, self.new)) r ≡ gate_said self.old (view value.now)) }
    {
        self.gates.read(alloc, value)
    }

    /// The number of the lock that a value names.
    pub fn read_lock(&mut self, alloc: Global, value: &Value) -> Result<Option<u8>, AllocError>
        ensures { IfOk result (λ r. option_map (λ lock. (lock, self.new)) r ≡ lock_said self.old (view value.now)) }
    {
        self.locks.read(alloc, value)
    }
}
