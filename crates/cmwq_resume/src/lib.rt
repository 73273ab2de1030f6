//! What a history leaves to a new program, and the calls by which a new history takes it over.
#![tactic(auto)]

mod calls;
mod laws;
mod left;

pub use calls::resume_calls;
pub use laws::{
    plans_play, resumed_are_steady, resumed_lose_nothing, resumes_have_room, resumes_play,
};
