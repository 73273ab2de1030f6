//! How schedules ended, and the exit status of that.

ghost use Rattle.std.specs.Prelude.{◌≡◌};
ghost use Rattle.cmwq_cmd_explore.specs.Verdicts.{status_of, verdict_of};

/// How schedules ended.
#[derive(Clone, Copy, Debug, PartialEq, Eq)]
pub(crate) enum Verdict {
    AllEnd,
    /// One schedule ended, and so many calls and waits were left out of it for want of room, or waits refused.
    LeftOut(u64),
    Refused(u64),
    /// All ended, and in so many of them waits were refused.
    RefusedIn(u64),
    /// All ended, and in one of them a lock was let go by one who did not hold it, or held at the end.
    Misused,
    /// One at least got stuck.
    Stuck,
    /// None got stuck, but not all was tried.
    Bounded,
    /// More priority changes are asked for than the first schedule has moves, which is so many.
    TooDeep(u64),
    /// A path names nobody, or one who may not move.
    Unplayable,
    /// A history has another shape than the script.
    OtherShape,
    /// No schedule leaves more first entries of a history than so many.
    Strays(u64),
    /// Those that leave all of its entries go on in the same move.
    GoesOn,
}

/// How many of the schedules that were played came to each end, and in how many of those that ended something was
/// found.
#[derive(Clone, Copy)]
pub(crate) struct Ends {
    pub ended: u64,
    pub stuck: u64,
    pub cut: u64,
    pub short_of_room: u64,
    pub with_refusals: u64,
    pub with_misuse: u64,
}

impl Ends {
    /// The verdict on all that were to be played.
    pub(crate) fn verdict(&self) -> Verdict
        ensures { result ≡ verdict_of self.now }
    {
        if self.stuck > 0 {
            Verdict::Stuck
        } else if self.cut > 0 {
            Verdict::Bounded
        } else if self.with_misuse > 0 {
            Verdict::Misused
        } else if self.with_refusals > 0 {
            Verdict::RefusedIn(self.with_refusals)
        } else {
            Verdict::AllEnd
        }
    }
}

impl Verdict {
    /// The exit status.
    pub(crate) fn status(self) -> u8
        ensures { result ≡ status_of self }
    {
        match self {
            Verdict::AllEnd => 0,
            Verdict::Unplayable | Verdict::OtherShape => 1,
            Verdict::TooDeep(_) => 2,
            Verdict::Strays(_) | Verdict::GoesOn => 3,
            Verdict::LeftOut(_) => 4,
            Verdict::Refused(_) | Verdict::RefusedIn(_) => 6,
            Verdict::Stuck => 7,
            Verdict::Bounded => 8,
            Verdict::Misused => 9,
        }
    }
}
