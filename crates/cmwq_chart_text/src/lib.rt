//! The text of a picture: what a browser shows of the shapes of a history, as SVG.
#![tactic(auto)]

mod bands;
mod drawn;
mod figures;
mod filled;
mod notes;
mod page;
mod part;
mod picture;
mod spans;
mod templates;

pub use filled::write_filled;
pub use page::Window;
pub use picture::Picture;
