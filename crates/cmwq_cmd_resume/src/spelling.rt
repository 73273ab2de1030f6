//! How the calls are spelled: as a file of calls.
ghost use Rattle.std.specs.Prelude.{◌≡◌, ◌-◌, ◌≤◌, ◌++◌, drop, flat_map, length, take, IfOk, OnOk};
ghost use Rattle.cmwq_model.specs.declared.id.Who.TheVariants.{Caller};
ghost use Rattle.cmwq_text.specs.CallText.{call_text};
ghost use Rattle.cmwq_text.specs.HistoryText.{calls_text, calls_version_text};
ghost use Rattle.cmwq_text.specs.ShapeText.{queue_text};
ghost use Rattle.cmwq_cmd_resume.specs.Resumed.{by_first, first_caller};

use cmwq_base::{Call, CallerId, Entry, NoMemory, QueueShape, Reply, Shape, Who};
use cmwq_text::{counts_line, entry_line, queue_line};
use std::alloc::{AllocError, Global};

/// What the line of an entry of the first caller has before its call, and after it if the reply is `no`.
const BEFORE: &str = "c0 0";

const AFTER: &str = " = no\n";

/// The line that says the format, if the format has one.
fn push_format(text: &mut Vec<u8>, version: u8) -> Result<(), AllocError>
    ensures { OnOk result (text.new.items ≡ text.old.items ++ calls_version_text version) }
{
    if version >= 3 {
        text.extend_from_slice(b"calls 3\n")?;
    }
    Ok(())
}

fn push_queues(text: &mut Vec<u8>, queues: &[QueueShape]) -> Result<(), AllocError>
    ensures { OnOk result (text.new.items ≡ text.old.items ++ flat_map queue_text queues.now) }
{
    for queue in queues {
        text.extend_from_slice(queue_line(queue).as_bytes())?;
    }
    Ok(())
}

/// The words of the call in the line of such an entry, each after a space.
fn words_of(line: &[u8]) -> &[u8]
    requires { 10 ≤ length line.now }
    ensures { result.now ≡ take (length line.now - 10) (drop 4 line.now) }
{
    &line[BEFORE.len()..line.len() - AFTER.len()]
}

/// The line of a call of the first caller.
fn push_call(text: &mut Vec<u8>, call: Call) -> Result<(), AllocError>
    ensures { OnOk result (text.new.items ≡ text.old.items ++ call_text (Caller first_caller) call) }
{
    let line = entry_line(&Entry {
        who: Who::Caller(CallerId(0)),
        serial: 0,
        call,
        reply: Reply::No,
    });
    text.extend_from_slice(b"c0")?;
    text.extend_from_slice(words_of(line.as_bytes()))?;
    text.extend_from_slice(b"\n")?;
    Ok(())
}

fn push_calls(text: &mut Vec<u8>, calls: &[Call]) -> Result<(), AllocError>
    ensures { OnOk result
        (text.new.items ≡ text.old.items ++ flat_map (call_text (Caller first_caller)) calls.now) }
{
    for call in calls {
        push_call(text, *call)?;
    }
    Ok(())
}

/// The text of a file with these calls of the first caller, in the format with this number.
pub(crate) fn spelled(
    alloc: Global,
    version: u8,
    shape: &Shape,
    calls: &[Call],
) -> Result<Vec<u8>, NoMemory>
    ensures { IfOk result (λ text. text.items ≡ calls_text version shape.now (by_first calls.now)) }
{
    let mut text = Vec::new(alloc);
    push_format(&mut text, version)?;
    text.extend_from_slice(counts_line(&shape.counts()).as_bytes())?;
    push_queues(&mut text, shape.queues())?;
    push_calls(&mut text, calls)?;
    Ok(text)
}
