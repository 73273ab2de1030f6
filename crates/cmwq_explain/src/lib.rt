//! What `--explain` tells after a refusal: where in the input it is, what stands there, what was expected, and what was
//! likely meant.
#![tactic(auto)]

mod files;
mod gates;
mod kept;
mod looks;
mod nearest;
mod numbers;
mod place;
mod rooms;
mod text;
mod told;
mod verdict;
mod words;
mod wrong;

pub use files::{explain_calls, explain_history, explain_unkept};
pub use gates::explain_gate;
pub use kept::{Kept, MOST_KEPT};
pub use nearest::say_names;
pub use numbers::{say_count, say_limit};
pub use text::Text;
pub use told::tell_text;
