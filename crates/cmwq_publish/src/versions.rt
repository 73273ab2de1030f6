//! What readers read: the bits of all items after some beginning of the history.
ghost use Rattle.cmwq_publish.specs.Published.{AreVersions, AreVersionsOf, IsReading};

use crate::log::Token;
use crate::name::HubName;
use crate::prefix::Prefix;
use atomic_table::{Join, Split};
use cmwq_model::{CallerId, ItemId, Shape};
use crossbeam_utils::rule::{Outcome, Protocol};
use left_right::Absorb;
use left_right::reader::Reader;
use left_right::writer::Writer;
use std::alloc::AllocError;

/// The bits of all items, how many entries each caller has made, how many there are in all, and the token of these
/// entries.
#[derive(Drop)]
pub struct Versions {
    pub shape: Shape,
    pub bits: Vec<u8>,
    pub serials: Vec<u64>,
    pub len: u64,
    pub seen: Token,
}

/// The bits that one more entry leaves to one item, how many its caller has made then, how many there are in all, and
/// their token.
#[derive(Drop)]
pub struct Publish {
    pub item: Option<ItemId>,
    pub bits: u8,
    pub caller: Option<CallerId>,
    pub serial: u64,
    pub len: u64,
    pub seen: Token,
}

impl Absorb<Publish> for Versions {
    ghost use Rattle.cmwq_publish.specs.Marked.{bits_with_mark, counts_with_entry};

    type State = (Shape, [u8; 0], [u64; 0], u64, Token);

    ghost state = { λ v. (v.shape, v.bits.items, v.serials.items, v.len, v.seen) };

    ghost applied = { λ s op. (
      s.0,
      bits_with_mark s.1 op.item op.bits,
      counts_with_entry s.2 op.caller op.serial,
      op.len,
      op.seen,
    ) };

    ghost never_fails = { Unit {0} };

    fn absorb_first(&mut self, operation: &Publish, _other: &Versions) -> Result<(), AllocError> {
        if let Some(item) = operation.item {
            let item = usize::from(item.0);
            if item < self.bits.len() {
                self.bits[item] = operation.bits;
            }
        }
        if let Some(caller) = operation.caller {
            let caller = usize::from(caller.0);
            if caller < self.serials.len() {
                self.serials[caller] = operation.serial;
            }
        }
        self.len = operation.len;
        self.seen = operation.seen.again();
        Ok(())
    }
}

/// What a reader finds published: the entries, the bits of an item after them, and how many of them a caller has made.
#[derive(Drop)]
pub struct Reading<N: HubName> {
    pub prefix: Prefix<N>,
    pub bits: u8,
    pub serial: u64,
}

impl Versions {
    /// The entries that made the version, the bits of an item after them, and how many are this caller's.
    pub fn read<N: HubName>(&self, item: ItemId, caller: CallerId) -> Reading<N>
        requires version { AreVersions self.now }
        requires ours { AreVersionsOf N.layout N.book self.now }
        ensures { IsReading N.layout item caller result.prefix result.bits result.serial }
    {
        let bits = self.bits.get(usize::from(item.0)).copied();
        let serial = self.serials.get(usize::from(caller.0)).copied();
        Reading {
            prefix: Prefix::of(self.seen.again(), self.len),
            bits: bits.unwrap_or(0),
            serial: serial.unwrap_or(0),
        }
    }
}

/// Which hub a place at the versions is of: its shape, and a token of its log. No value of it is made.
pub struct Known {
    pub shape: Shape,
    pub token: Token,
}

/// The rule over the versions. A place that knows no hub yet is a newcomer.
pub struct Published;

impl Protocol<Versions, Option<Known>> for Published {
    ghost use Rattle.cmwq_publish.specs.Published.{HoldVersions, no_version};

    ghost holds = { HoldVersions };

    ghost first = { no_version };
}

/// What a publish and an enter tell: the place knows the hub of the published version, which is right.
pub struct Look;

impl Outcome<Versions, Option<Known>> for Look {
    ghost use Rattle.cmwq_publish.specs.Published.{Sees};

    ghost then = { Sees };
}

/// What the writer tells a new reader: all that it knows.
pub struct Notes;

impl Split<Option<Known>> for Notes {
    ghost left = { λ v. v };

    ghost right = { λ v. v };
}

impl Join<Option<Known>> for Notes {
    ghost use Rattle.cmwq_publish.specs.Published.{no_version};

    ghost both = { λ v w. w };

    ghost spent = { no_version };
}

/// What reads a hub's published versions.
pub type BitsReader = Reader<Versions, Option<Known>, Published>;

/// What publishes them.
pub type BitsWriter = Writer<Versions, Publish, Option<Known>, Published>;
