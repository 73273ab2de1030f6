//! Waits of runs that were left out, and what is told of them.
ghost use Rattle.std.specs.Prelude.{◌≡◌, ◌+◌, map, string_bytes, IfSome};
ghost use Rattle.cmwq_cmd_run.specs.Run.{IsNamed, told_count};

use arrayvec::ArrayString;
use cmwq_model::ItemId;
use cmwq_rt::{LeftOut, WaitFault};
use std::fmt;
use std::fmt::{Display, Formatter, Write};
use std::sync::{Mutex, Wait};

/// The name of an item: at most 16 bytes.
type ItemName = ArrayString<16>;

/// An action of an item, by the numbers of both.
#[derive(Clone, Copy, Debug)]
pub struct ActionId {
    pub item: ItemId,
    pub action: usize,
}

/// A wait that was left out: by which action, and why.
type Refusal = (ActionId, WaitFault);

/// The first of the waits that were left out so far, under locks: of those that had no room, and of those that were
/// refused.
#[derive(Drop)]
pub struct Refusals {
    without_room: Mutex<Option<Refusal>>,
    refused: Mutex<Option<Refusal>>,
}

impl Refusals {
    /// No wait.
    pub fn new() -> Refusals {
        Refusals {
            without_room: Mutex::new(None),
            refused: Mutex::new(None),
        }
    }

    /// One more, by the action at this place.
    pub fn add<R: Wait>(&self, rt: &R, place: ActionId, fault: WaitFault) {
        let first = match fault {
            WaitFault::Run { .. } => &self.without_room,
            WaitFault::Itself | WaitFault::Deadlock | WaitFault::NoCaller => &self.refused,
        };
        let mut first = first.lock(rt);
        if first.is_none() {
            *first = Some((place, fault));
        }
    }

    /// What is told where so many were left out, by these names of the items: of those that had no room if there are
    /// any, and else of those that were refused.
    pub fn told<R: Wait>(&self, rt: &R, names: &[String], left_out: LeftOut) -> Option<RefusedWaits>
        ensures named { IfSome result (λ waits. IsNamed (map string_bytes names.now) waits.item.bytes) }
        ensures count { IfSome result (λ waits. waits.more + 1 ≡ told_count left_out) }
    {
        let first = match left_out.without_room {
            0 => *self.refused.lock(rt),
            _ => *self.without_room.lock(rt),
        };
        let (place, fault) = first?;
        let more = told_count(left_out).checked_sub(1)?;
        let name = names.get(usize::from(place.item.0))?;
        Some(RefusedWaits {
            item: ItemName::from(name.as_str()).ok()?,
            action: place.action,
            fault,
            more,
        })
    }
}

/// How many waits are told of, where so many were left out.
fn told_count(left_out: LeftOut) -> u64
    ensures { result ≡ told_count left_out }
{
    if left_out.without_room == 0 {
        left_out.refused
    } else {
        left_out.without_room
    }
}

/// The first wait that was left out: by which action of which item, and why; and how many more were for such a reason.
#[derive(Clone, Copy, Debug)]
pub struct RefusedWaits {
    pub item: ItemName,
    pub action: usize,
    pub fault: WaitFault,
    pub more: u64,
}

impl Display for RefusedWaits {
    fn fmt<W: Write>(&self, f: &mut Formatter<W>) -> fmt::Result {
        let why = match self.fault {
            WaitFault::NoCaller => "too many runs wait",
            WaitFault::Run { .. } => "no room",
            WaitFault::Itself | WaitFault::Deadlock => "would wait for ever",
        };
        write!(f, "item {}, action {}: {why}", self.item, self.action)?;
        match self.more {
            0 => Ok(()),
            more => write!(f, " (and {more} more)"),
        }
    }
}
