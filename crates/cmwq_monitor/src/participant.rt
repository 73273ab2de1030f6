//! The participant of a caller or a worker: who it is, how many entries it made, and the history as far as it has seen
//! it.
ghost use Rattle.std.specs.Prelude.{◌≡◌, ◌+◌, ◌≤◌, [], length};
ghost use mathlib.Core.List.{IsPrefix};
ghost use Rattle.cmwq_model.specs.Prelude.{serial_of, past_of, IsLegal};
ghost use Rattle.cmwq_core.specs.History.{IsThere};
ghost use Rattle.cmwq_monitor.specs.Participants.{Agree, newcomer};

use cmwq_model::Who;
use cmwq_publish::{HubName, Prefix};
use std::marker::Model;
use std::sync::ledger;
use std::sync::ledger::Share;

/// What a caller or a worker of a hub holds. Contracts see who it is, its serial and the history that it has seen,
/// which is legal.
#[derive(Drop)]
pub struct Participant<N: HubName> {
    who: Who,
    serial: u64,
    share: Share<N>,
    prefix: Prefix<N>,
}

impl<N: HubName> Model for Participant<N> {
    ghost use Rattle.std.specs.Prelude.{◌≡◌, ◌≤◌};
    ghost use Rattle.cmwq_model.specs.Prelude.{serial_of, past_of};
    ghost use Rattle.cmwq_core.specs.History.{IsThere};
    ghost use Rattle.cmwq_monitor.specs.Participants.{View};

    ghost Value = { View };

    ghost view = { λ s. record { who = s.who; serial = s.serial; seen = s.prefix } };

    ghost invariant = { λ s. IsThere N.layout s.who × (s.serial ≤ serial_of (past_of s.prefix) s.who)
        × (s.share.parts ≡ 1)
        × (s.share.amount ≡ s.serial) };
}

impl<N: HubName> Participant<N> {
    /// The participant of one who has made no call.
    pub fn new(who: Who, prefix: Prefix<N>, share: Share<N>) -> Participant<N>
        requires there { IsThere N.layout who }
        requires empty { prefix ≡ [] }
        requires share { (share.parts ≡ 1) × (share.amount ≡ 0) }
        ensures { result ≡ newcomer who }
    {
        Participant {
            who,
            serial: 0,
            share,
            prefix,
        }
    }

    /// Who it is.
    pub fn who(&self) -> Who
        ensures who { result ≡ self.now.who }
        ensures there { IsThere N.layout self.now.who }
    {
        self.who
    }

    /// How many entries it has made.
    pub fn serial(&self) -> u64
        ensures serial { result ≡ self.now.serial }
        ensures own { self.now.serial ≤ serial_of (past_of self.now.seen) self.now.who }
    {
        self.serial
    }

    /// How many entries it has seen.
    pub fn seen(&self) -> u64
        ensures seen { result ≡ length self.now.seen }
        ensures legal { IsLegal N.layout (past_of self.now.seen) }
    {
        self.prefix.len()
    }

    /// Sees as much of the history as the prefix, which is no shorter.
    pub fn see(&mut self, prefix: &Prefix<N>)
        requires { length self.old.seen ≤ length prefix.now }
        ensures seen { self.new ≡ record self.old { seen = prefix.now } }
        ensures older { IsPrefix self.old.seen prefix.now }
    {
        self.begins(prefix);
        self.prefix = prefix.again();
    }

    /// What it has seen begins the prefix, which is no shorter. Nothing runs.
    pub fn begins(&self, prefix: &Prefix<N>)
        requires { length self.now.seen ≤ length prefix.now }
        ensures { IsPrefix self.now.seen prefix.now }
    {
        self.prefix.begins(prefix);
    }

    /// Of what two participants of a hub have seen the shorter begins the longer.
    pub fn agrees(&self, other: &Participant<N>)
        ensures { Agree self.now.seen other.now.seen }
    {
        let (own, others) = (self.seen(), other.seen());
        if own <= others {
            self.prefix.begins(&other.prefix);
        }
        if others <= own {
            other.prefix.begins(&self.prefix);
        }
    }

    /// The same after an entry of its own, which the ledger counts.
    pub fn count(&mut self, prefix: &Prefix<N>, serial: u64, entries: &mut ledger::Book<N>)
        requires longer { length self.old.seen ≤ length prefix.now }
        requires next { serial ≡ self.old.serial + 1 }
        requires own { serial ≤ serial_of (past_of prefix.now) self.old.who }
        ensures seen { self.new ≡ record self.old { serial = serial; seen = prefix.now } }
        ensures older { IsPrefix self.old.seen prefix.now }
        ensures counted { entries.new.total ≡ entries.old.total + 1 }
    {
        self.see(prefix);
        entries.add(&mut self.share, 1);
        self.serial = serial;
    }

    /// What the ledger has of it: as many entries as its serial says.
    pub fn into_share(self) -> Share<N>
        ensures { (result.parts ≡ 1) × (result.amount ≡ self.serial) }
    {
        let Participant {
            who: _,
            serial: _,
            share,
            prefix: _prefix,
        } = self;
        share
    }
}
