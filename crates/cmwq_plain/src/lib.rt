//! The answer to a call, found by looking back over the flat history and taking no memory.
//!
//! Each call takes the history as a list of at most 1,000,000 entries, oldest first. The list may be any list: where
//! no run of the system could have given it, the answers are still those of the definitions.
#![tactic(auto)]

mod active;
mod answers;
mod bookings;
mod entries;
mod fate;
mod fire;
mod layout;
mod past;
mod queueings;
mod room;
mod runs;
mod tally;
mod tickets;
mod verdict;
mod wait;
mod width;
mod widths;
mod worker;

ghost use Rattle.std.specs.Prelude.{◌≡◌, ◌≤◌, length};
ghost use Rattle.cmwq_model.specs.Calls as calls;
ghost use Rattle.cmwq_model.specs.Prelude.{answer, past_of};
ghost use Rattle.cmwq_model.specs.Room as room;

pub use bookings::{booking, is_booked, stands};
pub use cmwq_model::{Illegal, Wanted, all_fit};
use cmwq_model::{Call, Entry, Reply, Shape, Who};
pub use entries::{is_by, is_same_pool};
pub use fate::is_started;
pub use past::Past;
pub use queueings::{
    is_item_open, is_live, is_pending, open_at, opening_at, run_queue, runs_elsewhere, unstarted,
};
pub use runs::{has_run, item_run, item_runs, run, runs_asleep, runs_awake};
pub use tally::now;
pub use tickets::{
    flushes, is_being_destroyed, is_cancelling, is_crowded, is_draining, is_gone, ticket_of,
    unended_at,
};
pub use verdict::check;
pub use widths::{is_frozen, width_set};

/// The one right answer to the call after this history.
pub fn reply_of(shape: &Shape, entries: &[Entry], who: Who, call: Call) -> Reply
    requires { length entries.now ≤ 1000000 }
    ensures { result ≡ answer shape.now (past_of entries.now) who call }
{
    answers::answer(shape, &Past::new(entries), who, call)
}

/// The serial of the next entry of this caller or worker: how many entries it has.
pub fn serial_of(entries: &[Entry], who: Who) -> u64
    requires { length entries.now ≤ 1000000 }
    ensures { result ≡ calls.serial_of (past_of entries.now) who }
{
    tally::serial_of(&Past::new(entries), who)
}

/// Whether the history with the call's entry, and what it then still owes, is within the shape's room, and its time
/// within 2^62 ticks. A call without room is refused and has no entry.
pub fn has_room(shape: &Shape, entries: &[Entry], who: Who, call: Call) -> bool
    requires { length entries.now ≤ 1000000 }
    ensures { result ≡ room.has_room shape.now shape.now.room (past_of entries.now) who call }
{
    let entry = Entry {
        who,
        serial: serial_of(entries, who),
        call,
        reply: reply_of(shape, entries, who, call),
    };
    room::has_time(&Past::new(entries), call)
        && room::needed(shape, &Past::with(entries, entry)) <= layout::room_of(shape)
}
