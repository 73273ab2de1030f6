//! Levels: what is open and active of a queue on a CPU.

use cmwq_model::Place;

/// How many queueings of a queue are open on a CPU, how many of them are active, and how wide the queue is.
#[derive(Clone, Copy)]
pub struct Height {
    pub open_count: u32,
    pub active_count: u32,
    pub width: u32,
}

/// The height of a queue on a CPU, with the places of the first and the last entry after which it is so. A level that
/// goes on at the end has only the first.
#[derive(Clone, Copy)]
pub struct Level {
    pub place: Place,
    pub height: Height,
    pub from: u32,
    pub to: Option<u32>,
}
