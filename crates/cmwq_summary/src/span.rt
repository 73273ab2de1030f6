//! Spans of a history: how many entries, and how many ticks.
ghost use Rattle.std.specs.Prelude.{◌≡◌};
ghost use Rattle.cmwq_summary.specs.Spans.{longer, plus, stretch, IsSmall};

/// So many entries and so many ticks.
#[derive(Clone, Copy, PartialEq, Eq)]
pub struct Span {
    pub entries: u64,
    pub ticks: u64,
}

/// No entries and no ticks.
pub(crate) const NO_TIME: Span = Span {
    entries: 0,
    ticks: 0,
};

impl Span {
    /// Both together.
    pub(crate) fn plus(self, other: Span) -> Span
        requires this { IsSmall self }
        requires that { IsSmall other }
        ensures { result ≡ plus self other }
    {
        Span {
            entries: self.entries + other.entries,
            ticks: self.ticks + other.ticks,
        }
    }

    /// The stretch from this moment to another.
    pub(crate) fn until(self, to: Span) -> Span
        ensures { result ≡ stretch self to }
    {
        Span {
            entries: to.entries.saturating_sub(self.entries),
            ticks: to.ticks.saturating_sub(self.ticks),
        }
    }

    /// Of both the more entries, and the more ticks.
    pub(crate) fn longer(self, other: Span) -> Span
        ensures { result ≡ longer self other }
    {
        Span {
            entries: self.entries.max(other.entries),
            ticks: self.ticks.max(other.ticks),
        }
    }
}
