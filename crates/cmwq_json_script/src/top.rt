//! The top of a script: its keys, its numbers and its lists.

ghost use Rattle.std.specs.Prelude.{◌≡◌, ◌<◌, ◌≤◌, IfSome, option_map};
ghost use Rattle.std.specs.Option.{ForSome};
ghost use Rattle.serde_json.specs.View.{view};
ghost use Rattle.cmwq_model.specs.Prelude.{most_cpus, most_room, most_workers};
ghost use Rattle.cmwq_json_script.specs.Limits.{callers_in};
ghost use Rattle.cmwq_json_script.specs.Tops as spec;
ghost use Rattle.cmwq_json_script.specs.Tops.{AreJournalSettings};

use crate::limits::{cpus_in, most_waits, room_in, workers_in};
use cmwq_json::{array_at, has_keys_with_optional, read_number};
use serde_json::Value;

/// The numbers of a script, each inside its limits, and its lists.
#[derive(Drop)]
pub struct Top<'v> {
    pub cpus: u8,
    pub workers: u8,
    pub room: u64,
    /// The format of the history.
    pub version: u8,
    /// How many entries are kept at a time, where the history is written as it is made.
    pub journal: Option<u32>,
    /// How many runs may wait at once, if that is said.
    pub waits: Option<u8>,
    pub queues: &'v [Value],
    pub items: &'v [Value],
    pub callers: &'v [Value],
    ghost limits: { (1 ≤ cpus) × (cpus ≤ most_cpus) × (1 ≤ workers) × (workers ≤ most_workers) × (room ≤ most_room) },
    ghost few_waits: { ForSome waits (λ n. n < callers_in version) },
    ghost recorded: { AreJournalSettings version journal },
}

/// The greatest number of entries that are kept at a time.
pub const MOST_KEPT: u64 = 1_000_000;

/// Whether a value is an object with the keys of a script, of which `format`, `journal` and `waits` may be left out.
fn has_top_keys(value: &Value) -> bool
    ensures { result ≡ spec.has_top_keys (view value.now) }
{
    has_keys_with_optional(
        value,
        &["callers", "cpus", "items", "queues", "room", "workers"],
        &["format", "journal", "waits"],
    )
}

fn read_journal(value: &Value) -> Option<Option<u32>>
    ensures { result ≡ spec.journal_said (view value.now) }
{
    match value.get("journal") {
        Some(kept) => Some(Some(read_number(kept, 1, MOST_KEPT)? as u32)),
        None => Some(None),
    }
}

/// What a journal writes is of format 3.
fn least_version(journal: Option<u32>) -> u8
    ensures least { result ≡ spec.least_version journal }
    ensures recorded { AreJournalSettings result journal }
{
    match journal {
        Some(_) => 3,
        None => 2,
    }
}

fn read_version(value: &Value, journal: Option<u32>) -> Option<u8>
    ensures said { result ≡ spec.version_said journal (view value.now) }
    ensures recorded { IfSome result (λ version. AreJournalSettings version journal) }
{
    let least = least_version(journal);
    match value.get("format") {
        Some(format) => Some(read_number(format, u64::from(least), 3)? as u8),
        None => Some(least),
    }
}

fn read_waits(value: &Value, version: u8) -> Option<Option<u8>>
    ensures said { result ≡ spec.waits_said version (view value.now) }
    ensures few { IfSome result (λ waits. ForSome waits (λ n. n < callers_in version)) }
{
    match value.get("waits") {
        Some(waits) => Some(Some(read_number(waits, 0, u64::from(most_waits(version)))? as u8)),
        None => Some(None),
    }
}

impl<'v> Top<'v> {
    ghost use Rattle.cmwq_json_script.specs.Views.{top_of};

    /// The top of a script: an object with exactly its keys, numbers inside their limits, and lists.
    pub fn read(value: &'v Value) -> Option<Top<'v>>
        ensures { option_map top_of result ≡ spec.top_said (view value.now) }
    {
        if !has_top_keys(value) {
            return None;
        }
        let journal = read_journal(value)?;
        let version = read_version(value, journal)?;
        let cpus = read_number(value.get("cpus")?, 1, u64::from(cpus_in(version)))?;
        let workers = read_number(value.get("workers")?, 1, u64::from(workers_in(version)))?;
        let room = read_number(value.get("room")?, 0, room_in(version))?;
        let waits = read_waits(value, version)?;
        Some(Top {
            cpus: cpus as u8,
            workers: workers as u8,
            room,
            version,
            journal,
            waits,
            queues: array_at(value, "queues")?.as_slice(),
            items: array_at(value, "items")?.as_slice(),
            callers: array_at(value, "callers")?.as_slice(),
        })
    }
}
