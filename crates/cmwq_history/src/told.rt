//! What is told of a refusal: a line on standard error, and the exit status.

ghost use Rattle.std.specs.Prelude.{◌≡◌};
ghost use Rattle.cmwq_history.specs.Ends.{refusal_status};

use cmwq_base::{Illegal, Refusal, Sink, flush_all, tell, write_all};
use cmwq_text::illegal_line;

/// Tells how many calls were left out for want of room. Takes no memory; a failing sink changes nothing.
pub fn tell_full<E: Sink>(errors: &mut E, left_out: u64) {
    tell(errors, format_args!("full {left_out}"));
}

/// Tells how many bytes of an unfinished last line were left out, if any were. Takes no memory; a failing sink changes
/// nothing.
pub(crate) fn tell_left_out<E: Sink>(errors: &mut E, bytes: usize) {
    match bytes {
        0 => {}
        1 => tell(errors, "left out the last byte, an unfinished line"),
        _ => tell(
            errors,
            format_args!("left out the last {bytes} bytes, an unfinished line"),
        ),
    }
}

/// Tells the line of the first call for which there was no room. Takes no memory; a failing sink changes nothing.
pub fn tell_no_room<E: Sink>(errors: &mut E, line: u64) {
    tell(errors, format_args!("line {line}: no room"));
}

/// Tells the first entry that is wrong of an illegal history. Takes no memory; a failing sink changes nothing.
pub fn tell_illegal<E: Sink>(errors: &mut E, illegal: Illegal) {
    let _ = write_all(errors, illegal_line(&illegal).as_bytes());
    let _ = flush_all(errors);
}

/// The exit status of a refused run.
pub fn refusal_status(refusal: Refusal) -> u8
    ensures { result ≡ refusal_status refusal }
{
    match refusal {
        Refusal::NoMemory => 4,
        Refusal::ReadFault | Refusal::WriteFault => 5,
        _ => 1,
    }
}
