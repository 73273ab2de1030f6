use crate::call::Call;
use crate::id::{ItemId, Number, Who};
use crate::record::{Booking, Ticket};
use crate::reply::Reply;

/// One event of a history: who called what, as its how many-th entry from 0, and what it was answered.
#[derive(Clone, Copy, Debug)]
pub struct Entry {
    pub who: Who,
    pub serial: u64,
    pub call: Call,
    pub reply: Reply,
}

impl Entry {
    ghost use Rattle.std.specs.Prelude.{◌≡◌};
    ghost use Rattle.cmwq_model.specs.Calls.{item_number, item_of};
    ghost use Rattle.cmwq_model.specs.Bookings.{booking_of};
    ghost use Rattle.cmwq_model.specs.Tickets.{ticket_in};

    /// The item that stands in the call, or in the reply of a fire.
    pub fn item(self) -> Option<ItemId>
        ensures { item_number result ≡ item_of self }
    {
        match self.call.item() {
            Some(item) => Some(item),
            None => match self.reply {
                Reply::Fired(item, _) => Some(item),
                _ => None,
            },
        }
    }

    /// The booking that it makes, where it has this number.
    pub fn booking(self, number: Number) -> Option<Booking>
        ensures { result ≡ booking_of self number }
    {
        match self.reply {
            Reply::Booked(due) | Reply::Rebooked(due) => self.call.booked_by(number, due),
            _ => None,
        }
    }

    /// The ticket that it gives, where it has this number.
    pub fn ticket(self, number: Number) -> Option<Ticket>
        ensures { result ≡ ticket_in self number }
    {
        if !self.reply.gives_ticket() {
            return None;
        }
        match self.who {
            Who::Caller(caller) => Some(Ticket {
                caller,
                call: self.call,
                number,
            }),
            Who::Worker(_) => None,
        }
    }
}

/// An entry, and the one item whose bits it may change, with these bits after it.
#[derive(Clone, Copy, Debug)]
pub struct Mark {
    pub entry: Entry,
    pub item: Option<ItemId>,
    pub bits: u8,
}
