use cmwq_model::Number;

/// What is kept of an item that a pool lists: its queueing's number, and whether the queue is CPU intensive.
#[derive(Clone, Copy)]
pub(crate) struct Note {
    pub(crate) number: Number,
    pub(crate) intensive: bool,
}
