ghost use Rattle.std.specs.Prelude.{◌≡◌, ◌+◌, IfSome, MatchOption, All, length};
ghost use Rattle.left_right.specs.Sides.{view};
ghost use Rattle.cmwq_publish.specs.Published.{IsOurs, IsReading};

use crate::name::HubName;
use crate::versions::{BitsReader, Look, Reading};
use cmwq_model::{CallerId, ItemId};
use core::mem::replace_with;
use std::marker::{Model, PhantomData};

// What is published, and the bits of an item after it.
fn read<N: HubName>(
    reader: BitsReader,
    item: ItemId,
    caller: CallerId,
) -> (BitsReader, Option<Reading<N>>)
    requires { IsOurs N.layout N.book (view reader.place) }
    ensures ours { IsOurs N.layout N.book (view result.0.place) }
    ensures read { IfSome result.1 (λ g. IsReading N.layout item caller g.prefix g.bits g.serial) }
{
    match reader.enter_as::<Look>() {
        Ok(reading) => {
            let found = reading.get().read(item, caller);
            (reading.leave(), Some(found))
        }
        Err(reader) => (reader, None),
    }
}

/// One reader of the published bits. Contracts see nothing of it.
#[derive(Drop)]
pub struct Reader<N: HubName> {
    reader: BitsReader,
    of: PhantomData<N>,
}

impl<N: HubName> Model for Reader<N> {
    ghost use Rattle.left_right.specs.Sides.{view as view_of};
    ghost use Rattle.cmwq_publish.specs.Published.{IsOurs};

    ghost Value = { Unit {0} };

    ghost view = { λ s. tt };

    ghost invariant = { λ s. IsOurs N.layout N.book (view_of s.reader.place) };
}

impl<N: HubName> Reader<N> {
    /// What is published, the bits of an item after it: 1 if it is pending, plus 2 if it runs; 0 for an item that the
    /// hub doesn't have; and how many entries of it a caller has made; 0 for one that the hub doesn't have. It takes no
    /// lock and no memory, and waits for nobody. `None` only once the publisher is ended.
    pub fn read(&mut self, item: ItemId, caller: CallerId) -> Option<Reading<N>>
        ensures { IfSome result (λ g. IsReading N.layout item caller g.prefix g.bits g.serial) }
    {
        replace_with(
            &mut self.reader,
            (item, caller),
            |reader, (item, caller)| -> (BitsReader, Option<Reading<N>>)
                requires { IsOurs N.layout N.book (view reader.place) }
                ensures { IsOurs N.layout N.book (view result.0.place)
                    × IfSome result.1 (λ g. IsReading N.layout item caller g.prefix g.bits g.serial) }
            { read(reader, item, caller) },
        )
    }
}

/// The readers that nobody has yet. Contracts see it as their number. One thread at a time has it.
#[derive(Drop)]
pub struct Readers<N: HubName> {
    readers: Vec<BitsReader>,
    of: PhantomData<N>,
}

impl<N: HubName> Model for Readers<N> {
    ghost use Rattle.std.specs.Prelude.{ℕ, All, length};
    ghost use Rattle.left_right.specs.Sides.{view as view_of};
    ghost use Rattle.cmwq_publish.specs.Published.{IsOurs};

    ghost Value = { ℕ };

    ghost view = { λ r. length r.readers.items };

    ghost invariant = { λ r. All (λ x. IsOurs N.layout N.book (view_of x.place)) r.readers.items };
}

impl<N: HubName> Readers<N> {
    pub(crate) fn new(readers: Vec<BitsReader>) -> Readers<N>
        requires { All (λ x. IsOurs N.layout N.book (view x.place)) readers.items }
        ensures { result ≡ length readers.items }
    {
        Readers {
            readers,
            of: PhantomData,
        }
    }

    /// One of them, while there are some.
    pub fn next(&mut self) -> Option<Reader<N>>
        ensures { MatchOption result ((self.old ≡ 0) × (self.new ≡ 0)) (λ _. self.old ≡ self.new + 1) }
    {
        let reader = self.readers.pop()?;
        Some(Reader {
            reader,
            of: PhantomData,
        })
    }
}
