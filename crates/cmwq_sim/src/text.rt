//! The text of lines.

ghost use Rattle.std.specs.Prelude.{◌≡◌, ◌++◌, OnOk, IfOk, map, string_bytes};
ghost use Rattle.std.specs.List.{flat_map};
ghost use Rattle.cmwq_sim.specs.Plan.{event_of};
ghost use Rattle.cmwq_sim.specs.Text as spec;

use crate::scenario::{LineKind, TableLine};
use itoa::Buffer;
use std::alloc::{AllocError, Global};

fn name_at(names: &[String], item: u8) -> &str
    ensures { result.now ≡ spec.name_at (map string_bytes names.now) item }
{
    match names.get(usize::from(item)) {
        Some(name) => name.as_str(),
        None => "",
    }
}

fn push_others(text: &mut String, names: &[String], others: &[u8]) -> Result<(), AllocError>
    ensures { OnOk result
        (string_bytes text.new ≡ string_bytes text.old
        ++ flat_map (spec.and_name (map string_bytes names.now)) others.now) }
{
    for other in others {
        text.push_str(" and ")?;
        text.push_str(name_at(names, *other))?;
    }
    Ok(())
}

fn push_names(text: &mut String, names: &[String], items: &[u8]) -> Result<(), AllocError>
    ensures { OnOk result
        (string_bytes text.new ≡ string_bytes text.old ++ spec.item_names_text (map string_bytes names.now) items.now) }
{
    if let Some((first, others)) = items.split_first() {
        text.push_str(name_at(names, *first))?;
        push_others(text, names, others)?;
    }
    Ok(())
}

fn deed_text(kind: LineKind, many: bool) -> &'static str
    ensures { result.now ≡ spec.deed_text kind many }
{
    match kind {
        LineKind::Starts if many => " start and burn CPU",
        LineKind::Starts => " starts and burns CPU",
        LineKind::Sleeps => " sleeps",
        LineKind::WakesBurns => " wakes up and burns CPU",
        LineKind::WakesEnds => " wakes up and finishes",
        LineKind::Ends => " finishes",
    }
}

fn push_line(text: &mut String, names: &[String], line: &TableLine) -> Result<(), AllocError>
    ensures { OnOk result
        (string_bytes text.new ≡ string_bytes text.old
        ++ spec.event_text (map string_bytes names.now) (event_of line.now)) }
{
    text.push_str(Buffer::new().format(line.at))?;
    text.push_str("\t")?;
    push_names(text, names, &line.items)?;
    text.push_str(deed_text(line.kind, line.items.len() > 1))?;
    text.push_str("\n")?;
    Ok(())
}

/// The table of lines, with the items' names: a heading, and then a line for each. What has no name is spelled as
/// nothing.
pub fn spell_lines(
    alloc: Global,
    names: &[String],
    lines: &[TableLine],
) -> Result<String, AllocError>
    ensures { IfOk result
        (λ text. string_bytes text ≡ spec.lines_text (map string_bytes names.now) (map event_of lines.now)) }
{
    let mut text = String::from_str(alloc, "TIME IN MSECS\tEVENT\n")?;
    for line in lines {
        push_line(&mut text, names, line)?;
    }
    Ok(text)
}
