//! What calls may name: items and queues, numbered by their names, and CPUs.

ghost use Rattle.std.specs.Prelude.{◌≡◌, ◌≤◌, [], length, map, string_bytes, IfOk, OnOk, option_map};
ghost use Rattle.serde_json.specs.View.{view, items_view};
ghost use Rattle.cmwq_json_script.specs.Known.{known_name, with_name, names_after};

use cmwq_json::{number_of, read_name};
use cmwq_model::{CpuId, ItemId, QueueId};
use indexmap::IndexSet;
use serde_json::Value;
use std::alloc::{AllocError, Global};
use std::marker::Model;

/// The name of a member.
pub fn name_at(value: &Value) -> Option<&str>
    ensures { option_map (λ name. name.now) result ≡ known_name (view value.now) }
{
    read_name(value.get("name")?)
}

/// Adds the name of an item, where it has one, it is new and there are fewer than `most`.
fn add_name(
    alloc: Global,
    most: usize,
    names: &mut IndexSet<String>,
    value: &Value,
) -> Result<(), AllocError>
    ensures { OnOk result
        (map string_bytes names.new.keys
        ≡ with_name most (map string_bytes names.old.keys) (known_name (view value.now))) }
{
    if let Some(name) = name_at(value) {
        if names.len() < most {
            names.insert(String::from_str(alloc, name)?)?;
        }
    }
    Ok(())
}

/// The names of all items that have one, each once, and `most` at most.
fn names_of(alloc: Global, most: usize, values: &[Value]) -> Result<IndexSet<String>, AllocError>
    ensures all { IfOk result (λ names. map string_bytes names.keys ≡ names_after most [] (items_view values.now)) }
    ensures few { IfOk result (λ names. length names.keys ≤ most) }
{
    let mut names = IndexSet::new(alloc);
    for value in values {
        add_name(alloc, most, &mut names, value)?;
    }
    Ok(names)
}

/// The names of all items and queues, and how many CPUs there are.
#[derive(Drop)]
pub struct Names {
    items: IndexSet<String>,
    queues: IndexSet<String>,
    cpus: u8,
}

impl Model for Names {
    ghost use Rattle.std.specs.Prelude.{◌≤◌, length, map, string_bytes};
    ghost use Rattle.cmwq_model.specs.Prelude.{most_items, most_queues};
    ghost use Rattle.cmwq_json_script.specs.Known.{Known};

    ghost Value = { Known };

    ghost view = { λ n. record {
      items = map string_bytes n.items.keys;
      queues = map string_bytes n.queues.keys;
      cpus = n.cpus;
    } };

    ghost invariant = { λ n. (length n.items.keys ≤ most_items) × (length n.queues.keys ≤ most_queues) };
}

impl Names {
    ghost use Rattle.cmwq_model.specs.Prelude.{most_items, most_queues};
    ghost use Rattle.cmwq_json_script.specs.Known.{item_known, queue_known, cpu_said};

    /// The names of these items, of which there are `most` at most, and of these queues.
    pub fn new(
        alloc: Global,
        most: usize,
        items: &[Value],
        queues: IndexSet<String>,
        cpus: u8,
    ) -> Result<Names, AllocError>
        requires few { length queues.keys ≤ most_queues }
        requires most { most ≤ most_items }
        ensures { IfOk result
            (λ names. names
            ≡ record {
              items = names_after most [] (items_view items.now);
              queues = map string_bytes queues.keys;
              cpus =
                  cpus;
            }) }
    {
        let items = names_of(alloc, most, items)?;
        Ok(Names {
            items,
            queues,
            cpus,
        })
    }

    /// The item that a value names.
    pub fn item(&self, value: &Value) -> Option<ItemId>
        ensures { result ≡ item_known self.now (view value.now) }
    {
        let number = number_of(&self.items, value.as_str()?)?;
        Some(ItemId(number as u16))
    }

    /// The queue that a value names.
    pub fn queue(&self, value: &Value) -> Option<QueueId>
        ensures { result ≡ queue_known self.now (view value.now) }
    {
        let number = number_of(&self.queues, value.as_str()?)?;
        Some(QueueId(number as u8))
    }

    /// The CPU that a value is the number of.
    pub fn cpu(&self, value: &Value) -> Option<CpuId>
        ensures { result ≡ cpu_said self.now (view value.now) }
    {
        let number = value.as_u64()?;
        if number < u64::from(self.cpus) {
            Some(CpuId(number as u8))
        } else {
            None
        }
    }
}
