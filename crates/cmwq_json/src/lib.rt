//! JSON inputs of the program: read whole into a value, the members that scenarios and scripts have in common (keys,
//! names, numbers and queues), and why an input is refused or a run over it fails.
#![tactic(auto)]

mod bytes;
mod fault;
mod keys;
mod names;
mod numbers;
mod output;
mod queues;
mod refused;
mod status;
mod value;

pub use bytes::{MOST_BYTES, read_bytes};
pub use fault::Fault;
pub use keys::{array_at, has_keys, has_keys_with_optional};
pub use names::{Members, in_order, is_name, number_of, read_name};
pub use numbers::{read_number, read_width};
pub use output::write_text;
pub use queues::read_parts;
pub use refused::{Part, Refused};
pub use status::fault_status;
pub use value::read_value;
