//! What is told of an illegal history.

ghost use Rattle.std.specs.Prelude.{◌≡◌, ◌<◌, IfSome, length, true};
ghost use Rattle.cmwq_model.specs.Prelude.{AllFit, fits};

use crate::rooms::head_lines;
use crate::text::Text;
use crate::words::start_of;
use cmwq_base::{Entry, Listed, Wanted};
use cmwq_core::{Full, Judge};
use cmwq_text::entry_line;
use std::alloc::Global;

/// The entry with what a judge wants in it.
fn mended_by(entry: Entry, wanted: Wanted) -> Entry
    ensures who { result.who ≡ entry.who }
    ensures call { result.call ≡ entry.call }
{
    match wanted {
        Wanted::Serial(serial) => Entry { serial, ..entry },
        Wanted::Reply(reply) => Entry { reply, ..entry },
    }
}

/// The entry that should stand where one does in which its judge wants this: if it wants a serial, the reply may be
/// wrong too.
fn mended(judge: &mut Judge, entry: Entry, wanted: Wanted) -> Entry
    requires { fits judge.old.layout entry.who entry.call ≡ true }
{
    let entry = mended_by(entry, wanted);
    match judge.next::<()>(&entry) {
        Ok(Err(wanted)) => mended_by(entry, wanted),
        _ => entry,
    }
}

/// The first wrong entry of these: its place, what is wanted in it, and the entry that should stand there.
fn first_wrong(judge: &mut Judge, entries: &[Entry]) -> Option<(usize, Wanted, Entry)>
    requires { AllFit judge.old.layout entries.now }
    ensures { IfSome result (λ wrong. wrong.0 < length entries.now) }
{
    for at in 0..entries.len() {
        let entry = entries[at];
        match judge.next::<()>(&entry) {
            Ok(Ok(())) => {}
            Ok(Err(wanted)) => return Some((at, wanted, mended(judge, entry, wanted))),
            Err(Full) => return None,
        }
    }
    None
}

/// Tells the first entry of a history that is wrong, if one is: its line, what stands there, and what should.
pub fn tell_verdict(alloc: Global, text: &mut Text, version: u8, file: &Listed<Entry>)
    requires { AllFit file.now.shape file.now.items.items }
{
    let Ok(mut judge) = Judge::new(alloc, &file.shape) else {
        return;
    };
    let wrong = first_wrong(&mut judge, &file.items);
    judge.end();
    let Some((at, wanted, due)) = wrong else {
        return;
    };
    let entry = file.items[at];
    let number = head_lines(version, file.shape.queues().len())
        .saturating_add(at as u64)
        .saturating_add(1);
    let line = entry_line(&entry);
    let reply = line.as_bytes().iter().position(|byte| *byte == b'=');
    let start = match wanted {
        Wanted::Serial(_) => start_of(line.as_bytes(), 1),
        Wanted::Reply(_) => reply.unwrap_or(0).saturating_add(2),
    };
    text.place(number, start);
    say_entry(text, entry);
    text.say("; expected ");
    say_entry(text, due);
}

fn say_entry(text: &mut Text, entry: Entry) {
    let line = entry_line(&entry);
    text.quoted(line.as_bytes().strip_suffix(b"\n").unwrap_or(b""));
}
