//! The published history: a log that only grows, and the bits of all items after it, which readers read without
//! waiting.
#![tactic(auto)]

mod log;
mod name;
mod opening;
mod prefix;
mod publisher;
mod publishing;
mod reader;
mod versions;

pub use name::HubName;
pub use opening::Opening;
pub use prefix::Prefix;
pub use publisher::Publisher;
pub use reader::{Reader, Readers};
pub use versions::Reading;
