ghost use Rattle.std.specs.Prelude.{◌≡◌, [], length, drop, nat_le, replicate, All, IfOk};
ghost use Rattle.left_right.specs.Sides.{view};
ghost use Rattle.cmwq_publish.specs.Published.{AreVersions, IsOut, IsOurs};

use crate::log::{Head, Length, Log, Token};
use crate::name::HubName;
use crate::prefix::Prefix;
use crate::publisher::Publisher;
use crate::publishing::publish_mark;
use crate::reader::Readers;
use crate::versions::{BitsReader, BitsWriter, Notes, Publish, Versions};
use cmwq_model::{NoMemory, Shape};
use left_right::writer::Writer;
use std::alloc::{AllocError, Global};
use std::marker::{Model, PhantomData};
use std::sync::Wait;

// As many as a writer has places for.
const MOST_READERS: usize = 0xffff_ffff;

// No entry, no item that is pending or runs, and no caller that has made one.
fn empty(alloc: Global, shape: &Shape, seen: Token) -> Result<Versions, NoMemory>
    requires { seen.log ≡ [] }
    ensures { IfOk result (λ x. AreVersions x × (x.shape ≡ shape.now) × (x.seen ≡ seen) × (x.len ≡ 0)
        × (x.bits.items ≡ replicate shape.now.items 0) × (x.serials.items ≡ replicate shape.now.callers 0)) }
{
    let bits = Vec::from_elem(alloc, 0u8, usize::from(shape.counts().items))?;
    let serials = Vec::from_elem(alloc, 0u64, usize::from(shape.counts().callers))?;
    Ok(Versions {
        shape: shape.copy(alloc)?,
        bits,
        serials,
        len: 0,
        seen,
    })
}

// The writer of the history without entries, whose place knows which hub it is. It publishes a mark that changes
// nothing, so that its list of marks has its room from then on.
fn opened_writer<R: Wait>(
    rt: &R,
    alloc: Global,
    shape: &Shape,
    seen: &Token,
    readers: usize,
) -> Result<BitsWriter, NoMemory>
    requires { seen.now.log ≡ [] }
    ensures out { IfOk result (λ w. IsOut shape.now seen.now.book [] w.desk.shown.value (drop w.behind w.log.items)) }
    ensures knows { IfOk result (λ w. IsOurs shape.now seen.now.book (view w.desk.place)) }
{
    if readers > MOST_READERS {
        return Err(NoMemory);
    }
    let first = empty(alloc, shape, seen.again())?;
    let second = empty(alloc, shape, seen.again())?;
    let mut writer: BitsWriter = Writer::new(alloc, first, second, readers.max(1))?;
    let nothing = Publish {
        item: None,
        bits: 0,
        caller: None,
        serial: 0,
        len: 0,
        seen: seen.again(),
    };
    if publish_mark(rt, &mut writer, nothing).is_err() {
        writer.take(rt);
        return Err(NoMemory);
    }
    Ok(writer)
}

// A reader that the writer has told what it knows.
fn told(writer: &mut BitsWriter) -> Result<BitsReader, AllocError>
    ensures kept { (writer.new.desk.shown ≡ writer.old.desk.shown) × (writer.new.behind ≡ writer.old.behind)
        × (writer.new.log ≡ writer.old.log) × (view writer.new.desk.place ≡ view writer.old.desk.place) }
    ensures told { IfOk result (λ r. view r.place ≡ view writer.old.desk.place) }
{
    let mut reader = writer.factory().reader()?;
    reader.learn::<Notes>(writer.tell::<Notes>());
    Ok(reader)
}

// So many of them.
fn told_all(
    alloc: Global,
    writer: &mut BitsWriter,
    count: usize,
) -> Result<Vec<BitsReader>, AllocError>
    ensures kept { (writer.new.desk.shown ≡ writer.old.desk.shown) × (writer.new.behind ≡ writer.old.behind)
        × (writer.new.log ≡ writer.old.log) }
    ensures told { IfOk result
        (λ rs. (length rs.items ≡ count) × All (λ r. view r.place ≡ view writer.old.desk.place) rs.items) }
{
    let mut all = Vec::new(alloc);
    for _ in 0..count {
        all.push(told(writer)?)?;
    }
    Ok(all)
}

/// The published history of a hub that has no name yet, and its readers.
pub struct Opening {
    length: Length,
    seen: Token,
    writer: BitsWriter,
    readers: Vec<BitsReader>,
}

impl Model for Opening {
    ghost use Rattle.std.specs.Prelude.{◌≡◌, [], All, drop, length as count_of};
    ghost use Rattle.left_right.specs.Sides.{view as view_of};
    ghost use Rattle.cmwq_publish.specs.Log.{head_of};
    ghost use Rattle.cmwq_publish.specs.Published.{IsOut, IsOurs};
    ghost use Rattle.cmwq_publish.specs.Unnamed.{Unnamed};

    ghost Value = { Unnamed };

    ghost view = { λ o. record {
      layout = o.writer.desk.shown.value.shape;
      book = o.seen.book;
      readers =
          count_of o.readers.items;
    } };

    ghost invariant = { λ o. (o.seen.log ≡ []) × (o.length ≡ head_of o.seen.book)
        × IsOut o.writer.desk.shown.value.shape o.seen.book [] o.writer.desk.shown.value
        (drop o.writer.behind o.writer.log.items)
        × All (λ r. IsOurs o.writer.desk.shown.value.shape o.seen.book (view_of r.place)) o.readers.items };
}

impl Opening {
    /// A history without entries, and so many readers. All memory is taken here: no later call takes any. The error
    /// says that memory ran out, as it does for 2^32 readers or more.
    pub fn new<R: Wait>(
        rt: &R,
        alloc: Global,
        shape: &Shape,
        readers: usize,
    ) -> Result<Opening, NoMemory>
        ensures { IfOk result (λ o. (o.layout ≡ shape.now) × (o.readers ≡ readers)) }
    {
        let Log { length, seen } = Log::new();
        let mut writer = opened_writer(rt, alloc, shape, &seen, readers)?;
        match told_all(alloc, &mut writer, readers) {
            Ok(readers) => Ok(Opening {
                length,
                seen,
                writer,
                readers,
            }),
            Err(AllocError) => {
                writer.take(rt);
                Err(NoMemory)
            }
        }
    }

    /// The history of the hub of this name, and its readers. No memory is taken.
    pub fn named<N: HubName>(self) -> (Publisher<N>, Readers<N>)
        requires layout { self.layout ≡ N.layout }
        requires book { self.book ≡ N.book }
        ensures publisher { result.0 ≡ record { entries = []; is_shown = nat_le 1 self.readers } }
        ensures readers { result.1 ≡ self.readers }
    {
        let Opening {
            length,
            seen,
            writer,
            readers,
        } = self;
        let head = Head {
            length,
            of: PhantomData,
        };
        let is_shown = !readers.is_empty();
        (
            Publisher::new(head, Prefix::of(seen, 0), writer, is_shown),
            Readers::new(readers),
        )
    }

    /// For a hub that could not be opened.
    pub fn end<R: Wait>(self, rt: &R) {
        let Opening {
            length: _length,
            seen: _seen,
            writer,
            readers: _readers,
        } = self;
        writer.take(rt);
    }
}
