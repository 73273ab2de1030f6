//! Texts with numbers in them.
ghost use Rattle.std.specs.Prelude.{◌≡◌, ◌+◌, ◌≤◌, OnOk, OnErr, IsTrue, length, slice_index_or};
ghost use Rattle.std.specs.Io.KnownBytes.{Appends};
ghost use Rattle.cmwq_io.specs.Counts.{Rises};
ghost use Rattle.cmwq_io.specs.Moves.{AppendsFront};
ghost use Rattle.cmwq_chart_text.specs.Filled.{is_hole, piece, filled_template, filled_from, plain_length};

use cmwq_base::{Sink, WriteFault, write_all};
use itoa::Buffer;

fn is_hole(character: u8) -> bool
    ensures { result ≡ is_hole character }
{
    character == b'$' || character == b'~'
}

/// How many characters of a template stand before its first hole.
fn plain_length(template: &[u8]) -> usize
    ensures length { result ≡ plain_length template.now }
    ensures within { result ≤ length template.now }
{
    for k in 0..template.len() {
        if is_hole(template[k]) {
            return k;
        }
    }
    template.len()
}

/// The number that is the next, or 0 after the last.
fn number_at(numbers: &[u64], next: usize) -> u64
    ensures { result ≡ slice_index_or numbers.now next 0 }
{
    match numbers.get(next) {
        Some(number) => *number,
        None => 0,
    }
}

/// Writes the number that stands for a hole.
fn write_number<W: Sink>(sink: &mut W, hole: u8, number: u64) -> Result<(), WriteFault>
    requires { IsTrue (is_hole hole) }
    ensures ok { OnOk result (Appends (W.written sink.old) (W.written sink.new) (piece hole number)) }
    ensures err { OnErr result (AppendsFront (W.written sink.old) (W.written sink.new) (piece hole number)) }
    ensures grown { W.troubles sink.old ≤ W.troubles sink.new }
    ensures fault { OnErr result (Rises (W.troubles sink.old) (W.troubles sink.new)) }
{
    if hole == b'$' {
        write_all(sink, Buffer::new().format(number).as_bytes())
    } else {
        write_all(sink, &[(number % 256) as u8])
    }
}

/// Writes a template whose first hole stands for the number at a place, and the others for those after it.
fn write_from<W: Sink>(
    sink: &mut W,
    template: &[u8],
    numbers: &[u64],
    next: usize,
) -> Result<(), WriteFault>
    requires { next + length template.now ≤ 9223372036854775807 }
    ensures ok { OnOk result
        (Appends (W.written sink.old) (W.written sink.new) (filled_from template.now numbers.now next)) }
    ensures err { OnErr result
        (AppendsFront (W.written sink.old) (W.written sink.new) (filled_from template.now numbers.now next)) }
    ensures grown { W.troubles sink.old ≤ W.troubles sink.new }
    ensures fault { OnErr result (Rises (W.troubles sink.old) (W.troubles sink.new)) }
{
    let plain = plain_length(template);
    write_all(sink, &template[..plain])?;
    if plain == template.len() {
        return Ok(());
    }
    write_number(sink, template[plain], number_at(numbers, next))?;
    write_from(sink, &template[plain + 1..], numbers, next + 1)?;
    Ok(())
}

/// Writes a template, in which each `$` stands for the next number, and each `~` for the character that the next number
/// is.
pub fn write_filled<W: Sink>(
    sink: &mut W,
    template: &str,
    numbers: &[u64],
) -> Result<(), WriteFault>
    ensures ok { OnOk result
        (Appends (W.written sink.old) (W.written sink.new) (filled_template template.now numbers.now)) }
    ensures err { OnErr result
        (AppendsFront (W.written sink.old) (W.written sink.new) (filled_template template.now numbers.now)) }
    ensures grown { W.troubles sink.old ≤ W.troubles sink.new }
    ensures fault { OnErr result (Rises (W.troubles sink.old) (W.troubles sink.new)) }
{
    write_from(sink, template.as_bytes(), numbers, 0)
}
