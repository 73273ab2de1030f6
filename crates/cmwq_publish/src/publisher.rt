ghost use Rattle.std.specs.Prelude.{◌≡◌, ◌<◌, ◌^◌, ◌++◌, ◌∷◌, [], length, drop, MatchResult};
ghost use Rattle.cmwq_publish.specs.Marked.{caller_number_of};
ghost use Rattle.cmwq_publish.specs.Next.{IsNextMark};
ghost use Rattle.cmwq_publish.specs.Published.{IsOut};

use crate::log::Head;
use crate::name::HubName;
use crate::prefix::Prefix;
use crate::publishing::publish_mark;
use crate::versions::{BitsWriter, Publish};
use cmwq_model::{CallerId, Mark, NoMemory, Who};
use std::marker::Model;
use std::sync::Wait;

/// What the lock keeps of the published history. Contracts see the entries that are published, the oldest first, and
/// whether they are shown to readers: where the hub has none, nothing is made for them.
pub struct Publisher<N: HubName> {
    head: Head<N>,
    prefix: Prefix<N>,
    writer: BitsWriter,
    is_shown: bool,
}

impl<N: HubName> Model for Publisher<N> {
    ghost use Rattle.std.specs.Prelude.{◌≡◌, drop, true};
    ghost use Rattle.cmwq_publish.specs.Publications.{Publication};
    ghost use Rattle.cmwq_publish.specs.Published.{IsOut};

    ghost Value = { Publication };

    ghost view = { λ s. record { entries = s.prefix; is_shown = s.is_shown } };

    ghost invariant = { λ s. s.is_shown ≡ true
        → IsOut N.layout N.book s.prefix s.writer.desk.shown.value (drop s.writer.behind s.writer.log.items) };
}

// The caller, where it is one.
fn caller_of(who: Who) -> Option<CallerId>
    ensures { result ≡ caller_number_of who }
{
    match who {
        Who::Caller(caller) => Some(caller),
        Who::Worker(_) => None,
    }
}

impl<N: HubName> Publisher<N> {
    // The publisher of a hub whose writer shows no entry.
    pub(crate) fn new(
        head: Head<N>,
        prefix: Prefix<N>,
        writer: BitsWriter,
        is_shown: bool,
    ) -> Publisher<N>
        requires { IsOut N.layout N.book prefix writer.desk.shown.value (drop writer.behind writer.log.items) }
        ensures { result ≡ record { entries = prefix; is_shown = is_shown } }
    {
        Publisher {
            head,
            prefix,
            writer,
            is_shown,
        }
    }

    /// Publishes one more entry, with the bits that its mark leaves. It waits for readers that still read the version
    /// before the last. After `NoMemory` nothing more is published, and each later call answers `NoMemory` too.
    pub fn publish<R: Wait>(&mut self, rt: &R, mark: &Mark) -> Result<(), NoMemory>
        requires next { IsNextMark N.layout self.old.entries mark.now }
        requires few { length self.old.entries < 2 ^ 62 }
        ensures { MatchResult result
            (λ _. self.new ≡ record self.old { entries = self.old.entries ++ mark.now.entry ∷ [] })
            (λ _. self.new ≡ self.old) }
    {
        let Some(prefix) = self.prefix.extended(&self.head, mark.entry) else {
            return Err(NoMemory);
        };
        if self.is_shown {
            let publish = Publish {
                item: mark.item,
                bits: mark.bits,
                caller: caller_of(mark.entry.who),
                serial: mark.entry.serial + 1,
                len: prefix.len(),
                seen: prefix.token(),
            };
            let Ok(()) = publish_mark(rt, &mut self.writer, publish) else {
                return Err(NoMemory);
            };
        }
        self.prefix = prefix;
        Ok(())
    }

    /// All that is published.
    pub fn prefix(&self) -> &Prefix<N>
        ensures { result.now ≡ self.now.entries }
    {
        &self.prefix
    }

    /// Waits for the readers to leave. From then on they find nothing.
    pub fn end<R: Wait>(self, rt: &R) {
        let Publisher {
            head: _head,
            prefix: _prefix,
            writer,
            is_shown: _,
        } = self;
        writer.take(rt);
    }
}
