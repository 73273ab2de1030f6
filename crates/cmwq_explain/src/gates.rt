//! What is told of a gate that was not opened.

ghost use Rattle.cmwq_explain.specs.Written.{WritesLittle};

use crate::text::Text;
use crate::told::tell_text;
use cmwq_io::Sink;

/// Tells of a gate that a run looked at in vain that so many calls of callers were left out for lack of room, as one
/// line. Where none were, nothing is written. A failing sink changes nothing.
pub fn explain_gate<E: Sink>(gate: &str, left_out: u64, errors: &mut E)
    ensures { WritesLittle (E.written errors.old) (E.written errors.new) }
{
    let mut text = Text::new();
    if left_out > 0 {
        text.say("gate ");
        text.raw(gate.as_bytes());
        text.say(": ");
        text.number(left_out);
        text.say(if left_out == 1 {
            " call of a caller was left out for lack of room; what it queues may open the gate"
        } else {
            " calls of callers were left out for lack of room; what they queue may open the gate"
        });
    }
    tell_text(errors, &text);
}
