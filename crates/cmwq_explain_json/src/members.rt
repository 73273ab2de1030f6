//! The keys of objects, and what the value at each must be.

use crate::world::{Grammar, World};
use cmwq_json::Part;
use cmwq_json_script::{MOST_KEPT, cpus_in, most_waits, room_in, workers_in};

/// A number of a script.
#[derive(Clone, Copy)]
pub enum Quantity {
    Cpus,
    Workers,
    Journal,
    Format,
    Room,
    Waits,
    MaxActive,
}

/// What a value must be.
#[derive(Clone, Copy)]
pub enum Kind {
    Name,
    /// The name of a queue.
    Queue,
    Flag,
    Number(Quantity),
    List,
    /// The burns and sleeps of an item of a scenario.
    Parts,
    /// The actions of an item of a script.
    Actions,
}

/// A key, what its value must be, and whether it may not be left out.
pub type Member = (&'static str, Kind, bool);

const SCRIPT: [Member; 9] = [
    ("cpus", Kind::Number(Quantity::Cpus), true),
    ("workers", Kind::Number(Quantity::Workers), true),
    ("journal", Kind::Number(Quantity::Journal), false),
    ("format", Kind::Number(Quantity::Format), false),
    ("room", Kind::Number(Quantity::Room), true),
    ("waits", Kind::Number(Quantity::Waits), false),
    ("queues", Kind::List, true),
    ("items", Kind::List, true),
    ("callers", Kind::List, true),
];

const SCRIPT_QUEUE: [Member; 5] = [
    ("name", Kind::Name, true),
    ("max_active", Kind::Number(Quantity::MaxActive), true),
    ("intensive", Kind::Flag, true),
    ("high", Kind::Flag, true),
    ("freezable", Kind::Flag, false),
];

const SCRIPT_ITEM: [Member; 2] = [("name", Kind::Name, true), ("does", Kind::Actions, true)];

const SCENARIO: [Member; 2] = [("queues", Kind::List, true), ("items", Kind::List, true)];

const SCENARIO_QUEUE: [Member; 3] = [
    ("name", Kind::Name, true),
    ("max_active", Kind::Number(Quantity::MaxActive), true),
    ("intensive", Kind::Flag, true),
];

const SCENARIO_ITEM: [Member; 3] = [
    ("name", Kind::Name, true),
    ("queue", Kind::Queue, true),
    ("ms", Kind::Parts, true),
];

/// The members of an object, in the order in which they are told.
pub fn members_of(grammar: Grammar, part: Part) -> &'static [Member] {
    match (grammar, part) {
        (Grammar::Script, Part::Top) => &SCRIPT,
        (Grammar::Script, Part::Queues) => &SCRIPT_QUEUE,
        (Grammar::Script, Part::Items) => &SCRIPT_ITEM,
        (Grammar::Scenario, Part::Top) => &SCENARIO,
        (Grammar::Scenario, Part::Queues) => &SCENARIO_QUEUE,
        (Grammar::Scenario, Part::Items) => &SCENARIO_ITEM,
        (_, Part::Callers) => &[],
    }
}

/// The least and the greatest of a number in this format.
pub fn limits(world: World<'_>, version: u8, quantity: Quantity) -> (u64, u64) {
    match quantity {
        Quantity::Cpus => (1, u64::from(cpus_in(version))),
        Quantity::Workers => (1, u64::from(workers_in(version))),
        Quantity::Journal => (1, MOST_KEPT),
        Quantity::Format if world.whole.get("journal").is_some() => (3, 3),
        Quantity::Format => (2, 3),
        Quantity::Room => (0, room_in(version)),
        Quantity::Waits => (0, u64::from(most_waits(version))),
        Quantity::MaxActive => (0, u64::from(u32::MAX)),
    }
}
