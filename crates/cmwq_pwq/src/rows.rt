ghost use Rattle.std.specs.Prelude.{◌≡◌, ◌<◌, length, slice_get, slice_set, IfOk};
ghost use Rattle.cmwq_pwq.specs.Waiting.{row_of};

use cmwq_model::{CpuId, ItemId, NoMemory, Number, Place, QueueId, Queueing};
use std::alloc::Global;
use std::marker::Model;

/// Of each item a queueing: the one that waits, or the last that did. It takes ten bytes an item, where queueings
/// beside one another would take sixteen.
#[derive(Drop)]
pub(crate) struct Rows {
    numbers: Vec<Number>,
    places: Vec<Place>,
}

impl Model for Rows {
    ghost use Rattle.std.specs.Prelude.{List};
    ghost use Rattle.cmwq_model.specs.declared.record.Queueing.{Queueing};
    ghost use Rattle.cmwq_pwq.specs.Rows.{AreRows, queueing_rows_from};

    ghost Value = { List Queueing };

    ghost view = { λ r. queueing_rows_from 0 r.numbers.items r.places.items };

    ghost invariant = { λ r. AreRows r.numbers.items r.places.items };
}

impl Rows {
    /// A row for each item, of whatever queueing. No later call takes memory; the error says that it ran out.
    pub(crate) fn new(alloc: Global, items: u16) -> Result<Rows, NoMemory>
        ensures { IfOk result (λ rows. length rows ≡ items) }
    {
        let items = usize::from(items);
        let place = Place {
            queue: QueueId(0),
            cpu: CpuId(0),
        };
        Ok(Rows {
            numbers: vec![in alloc; 0; items]?,
            places: vec![in alloc; place; items]?,
        })
    }

    /// Makes these rows a copy of the others, which are of as many items.
    pub(crate) fn copy_from(&mut self, other: &Rows)
        requires { length self.old ≡ length other.now }
        ensures { self.new ≡ other.now }
    {
        self.numbers.copy_from_slice(&other.numbers);
        self.places.copy_from_slice(&other.places);
    }

    /// The row of an item, if there is one.
    pub(crate) fn get(&self, item: u32) -> Option<Queueing>
        ensures { result ≡ slice_get self.now item }
    {
        if (item as usize) < self.numbers.len() {
            Some(self.at(item))
        } else {
            None
        }
    }

    /// The row of an item.
    pub(crate) fn at(&self, item: u32) -> Queueing
        requires { item < length self.now }
        ensures { result ≡ row_of self.now item }
    {
        let index = item as usize;
        let number = self.numbers[index];
        Queueing {
            item: ItemId(item as u16),
            place: self.places[index],
            number,
        }
    }

    /// Puts a queueing into its item's row.
    pub(crate) fn put(&mut self, queueing: Queueing)
        requires { queueing.item.0 < length self.old }
        ensures { self.new ≡ slice_set self.old queueing.item.0 queueing }
    {
        let index = usize::from(queueing.item.0);
        self.numbers[index] = queueing.number;
        self.places[index] = queueing.place;
    }
}
