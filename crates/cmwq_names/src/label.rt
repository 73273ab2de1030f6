//! Names of the rows of a chart, which have little room.
ghost use Rattle.std.specs.Prelude.{◌≡◌, ◌++◌, ◌<◌, ◌≤◌, OnOk, length};
ghost use Rattle.cmwq_names.specs.Labels.{beside, cut_label, is_inner, is_label, label, room_of, whole_front};
ghost use Rattle.cmwq_names.specs.Escapes.{escaped};

use crate::escape::push_escaped;
use crate::form::{Form, is_after};
use crate::kind::Kind;
use std::alloc::AllocError;

/// Whether the number of a row follows these words.
pub(crate) fn is_label(form: Form, words: &[u8]) -> bool
    ensures { result ≡ is_label form words.now }
{
    match form {
        Form::Xml => is_after(words, &["\">q", "\">c"]),
        Form::Plain | Form::Json => false,
    }
}

/// How many bytes of a name a row has room for.
fn room_of(kind: Kind) -> usize
    ensures is { result ≡ room_of kind }
    ensures some { 2 ≤ result }
{
    match kind {
        Kind::Queue => 6,
        Kind::Item | Kind::Caller => 12,
    }
}

/// Whether a byte is inside of a letter, and not its first.
fn is_inner(byte: u8) -> bool
    ensures { result ≡ is_inner byte }
{
    byte / 64 == 2
}

/// How many bytes the whole letters have that stand in so many bytes of a name.
fn whole_front(name: &[u8], most: usize) -> usize
    requires { most < length name.now }
    ensures is { result ≡ whole_front name.now most }
    ensures within { result ≤ most }
{
    let mut end = most;
    while end > 0 && is_inner(name[end]) {
        end -= 1;
    }
    end
}

/// Adds digits and a name beside them.
pub(crate) fn push_beside(
    out: &mut Vec<u8>,
    form: Form,
    digits: &[u8],
    name: &[u8],
) -> Result<(), AllocError>
    ensures { OnOk result (out.new.items ≡ out.old.items ++ beside digits.now (escaped form name.now)) }
{
    out.extend_from_slice(digits)?;
    out.extend_from_slice(" (".as_bytes())?;
    push_escaped(out, form, name)?;
    out.extend_from_slice(")".as_bytes())
}

/// Adds digits and the front of a name beside them, and the whole name as the tooltip.
fn push_cut(out: &mut Vec<u8>, digits: &[u8], name: &[u8], most: usize) -> Result<(), AllocError>
    requires { most < length name.now }
    ensures { OnOk result (out.new.items ≡ out.old.items ++ cut_label digits.now name.now most) }
{
    out.extend_from_slice(digits)?;
    out.extend_from_slice(" (".as_bytes())?;
    push_escaped(out, Form::Xml, &name[..whole_front(name, most)])?;
    out.extend_from_slice("..)<title>".as_bytes())?;
    push_escaped(out, Form::Xml, name)?;
    out.extend_from_slice("</title>".as_bytes())
}

/// Adds the digits of a row and its name beside them, of which the front alone is shown if it is long.
pub(crate) fn push_label(
    out: &mut Vec<u8>,
    kind: Kind,
    digits: &[u8],
    name: &[u8],
) -> Result<(), AllocError>
    ensures { OnOk result (out.new.items ≡ out.old.items ++ label kind digits.now name.now) }
{
    let room = room_of(kind);
    if name.len() <= room {
        push_beside(out, Form::Xml, digits, name)
    } else {
        push_cut(out, digits, name, room - 2)
    }
}
