//! What has changed of which no call told a shell: neither by what it returned, nor by whom it named.

ghost use Rattle.std.specs.Prelude.{◌≡◌};
ghost use Rattle.cmwq_board.specs.NewsAfter.{after_end, after_left, after_reply, quiet};

use cmwq_model::{Call, Reply};

/// What has changed since a shell asked last.
#[derive(Clone, Copy, Debug, PartialEq, Eq)]
pub struct News {
    /// A ticket that was left has ended, so its caller may be lent again, if it had as many as it may have.
    pub left_ended: bool,
    /// A drain has ended, or an item was delayed, so a timer may be due earlier.
    pub due_earlier: bool,
}

/// Nothing has changed.
pub(crate) const QUIET: News = News {
    left_ended: false,
    due_earlier: false,
};

impl News {
    /// After a call that got this reply.
    pub(crate) fn after_reply(self, reply: Reply) -> News
        ensures { result ≡ after_reply reply self }
    {
        News {
            left_ended: self.left_ended,
            due_earlier: self.due_earlier || matches!(reply, Reply::Booked(_) | Reply::Rebooked(_)),
        }
    }

    /// After the end of a ticket of this call.
    pub(crate) fn after_end(self, call: Call) -> News
        ensures { result ≡ after_end call self }
    {
        News {
            left_ended: self.left_ended,
            due_earlier: self.due_earlier || call.is_drain(),
        }
    }

    /// After the end of a ticket of this call that was left.
    pub(crate) fn after_left(self, call: Call) -> News
        ensures { result ≡ after_left call self }
    {
        News {
            left_ended: true,
            due_earlier: self.due_earlier || call.is_drain(),
        }
    }
}
