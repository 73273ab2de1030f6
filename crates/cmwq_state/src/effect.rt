use cmwq_model::{Booking, Entry, ItemId, Queueing, Ticket};

/// An entry, with what it does to what stands. `effect_of` finds it, and each part of the state is given what it needs.
#[derive(Clone, Copy)]
pub struct Effect {
    pub entry: Entry,
    /// The queueing that it ends.
    pub ended: Option<Queueing>,
    /// The queueing that it starts.
    pub started: Option<Queueing>,
    /// The queueing that it opens.
    pub opened: Option<Queueing>,
    /// The ticket that it ends.
    pub done: Option<Ticket>,
    /// The ticket that it gives.
    pub begun: Option<Ticket>,
    /// The item that is booked anew or no more.
    pub settled: Option<ItemId>,
    /// Its new booking.
    pub booked: Option<Booking>,
    /// How many entries are owed after it.
    pub owing: u64,
}
