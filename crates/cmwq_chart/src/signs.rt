//! Signs: what callers and workers did.
ghost use Rattle.std.specs.Prelude.{◌≡◌};
ghost use Rattle.cmwq_chart.specs.Signs as spec;

use crate::entries::item_of;
use cmwq_model::{Entry, Reply, Who};

/// What an entry did.
#[derive(Clone, Copy, PartialEq, Eq)]
pub enum SignKind {
    /// Queued an item, maybe anew.
    Queued,
    /// Delayed one, maybe anew.
    Delayed,
    /// Queued one whose tick had come.
    Fired,
    /// Took one back.
    Cancelled,
    /// Began to wait.
    Waits,
    /// Let ticks go by.
    Tick,
    /// Changed a width, froze or thawed, or retired a worker.
    Changed,
    /// Changed nothing.
    Refused,
}

/// What a caller or a worker did, of which item if of one, and the place of the entry.
#[derive(Clone, Copy)]
pub struct Sign {
    pub who: Who,
    pub kind: SignKind,
    pub item: Option<u16>,
    pub at: u32,
}

fn sign_kind(reply: Reply) -> Option<SignKind>
    ensures { result ≡ spec.sign_kind reply }
{
    match reply {
        Reply::Yes(_) | Reply::Again(_) | Reply::TicketQueued(_) => Some(SignKind::Queued),
        Reply::Booked(_) | Reply::Rebooked(_) => Some(SignKind::Delayed),
        Reply::Fired(_, _) => Some(SignKind::Fired),
        Reply::Cancelled(_)
        | Reply::Unbooked
        | Reply::TicketCancelled(_, _)
        | Reply::TicketUnbooked(_) => Some(SignKind::Cancelled),
        Reply::Ticket(_) | Reply::TicketNo(_) => Some(SignKind::Waits),
        Reply::Now(_) => Some(SignKind::Tick),
        Reply::Width(_) | Reply::Frozen | Reply::Thawed | Reply::Retired => Some(SignKind::Changed),
        Reply::Started(_)
        | Reply::StartedEnlist(_, _)
        | Reply::Finished(_)
        | Reply::Slept
        | Reply::Woke
        | Reply::Done
        | Reply::Waiting(_) => None,
        Reply::No
        | Reply::Foreign
        | Reply::Draining
        | Reply::Misuse
        | Reply::Nothing
        | Reply::Idle
        | Reply::Crowded
        | Reply::Held
        | Reply::Kept
        | Reply::Gone
        | Reply::Timers => Some(SignKind::Refused),
    }
}

/// The sign of an entry at this place.
pub(crate) fn sign_of(entry: Entry, place: u32) -> Option<Sign>
    ensures { result ≡ spec.sign_of entry place }
{
    let kind = sign_kind(entry.reply)?;
    Some(Sign {
        who: entry.who,
        kind,
        item: item_of(entry),
        at: place,
    })
}
