//! What a play left out, had refused, or misused. No contract reads it: it is told, and changes nothing.

use cmwq_json_script::Holder;
use cmwq_model::ItemId;

/// An action of an item, by the numbers of both.
#[derive(Clone, Copy, Debug)]
pub struct ActionId {
    pub item: ItemId,
    pub action: usize,
}

/// Why a run does not wait.
#[derive(Clone, Copy, Debug, PartialEq, Eq)]
pub enum Unwaited {
    /// The wait could never end, or would be for the run itself.
    Refused,
    /// No caller is left for it.
    NoCaller,
    /// There is no room for it.
    NoRoom,
}

/// Who let a lock go that it did not hold.
#[derive(Clone, Copy, Debug)]
pub struct Misuse {
    pub holder: Holder,
    pub lock: u8,
}

/// What a play left out, had refused, or misused.
#[derive(Clone, Copy, Debug)]
pub struct Noted {
    /// How many calls of callers, and waits of runs, were left out for want of room.
    pub left_out: u64,
    /// How many waits of runs were refused, or found no caller.
    pub refused: u64,
    /// The first of them, and why.
    pub first_refused: Option<(ActionId, Unwaited)>,
    /// How many locks were let go by one who did not hold them.
    pub misused: u64,
    /// The first of them.
    pub first_misused: Option<Misuse>,
}

impl Noted {
    /// Nothing yet.
    pub(crate) fn nothing() -> Noted {
        Noted {
            left_out: 0,
            refused: 0,
            first_refused: None,
            misused: 0,
            first_misused: None,
        }
    }

    /// A call of a caller had no room.
    pub(crate) fn leaves_out(&mut self) {
        self.left_out = self.left_out.saturating_add(1);
    }

    /// A run does not wait by this action, for this reason.
    pub(crate) fn unwaited(&mut self, place: ActionId, why: Unwaited) {
        if why == Unwaited::NoRoom {
            return self.leaves_out();
        }
        self.refused = self.refused.saturating_add(1);
        if self.first_refused.is_none() {
            self.first_refused = Some((place, why));
        }
    }

    /// One lets a lock go that it does not hold.
    pub(crate) fn misuses(&mut self, holder: Holder, lock: u8) {
        self.misused = self.misused.saturating_add(1);
        if self.first_misused.is_none() {
            self.first_misused = Some(Misuse { holder, lock });
        }
    }
}
