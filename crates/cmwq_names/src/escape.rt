//! Names as forms of text take them.
ghost use Rattle.std.specs.Prelude.{◌≡◌, ◌++◌, ◌<◌, IfOk, OnOk, codes, drop, length, slice_index_or};
ghost use Rattle.cmwq_names.specs.Escapes.{control_text, escaped, escaped_byte, hex, in_form, in_json, in_xml};
ghost use Rattle.cmwq_names.specs.Escapes.{first_escaped, is_control, is_no_character, is_upper_control};
ghost use Rattle.cmwq_names.specs.Escapes.{escaped_behind, more_of_first};

use crate::form::Form;
use std::alloc::AllocError;

/// Whether a byte is a control character.
fn is_control(byte: u8) -> bool
    ensures { result ≡ is_control byte }
{
    byte < 32 || byte == 127
}

/// A hexadecimal digit.
fn hex(digit: u8) -> u8
    requires { digit < 16 }
    ensures { result ≡ hex digit }
{
    if digit < 10 { digit + b'0' } else { digit + 87 }
}

/// Adds a control character, escaped.
fn push_control(out: &mut Vec<u8>, byte: u8) -> Result<(), AllocError>
    ensures { OnOk result (out.new.items ≡ out.old.items ++ control_text byte) }
{
    out.extend_from_slice("\\u00".as_bytes())?;
    out.extend_from_slice(&[hex(byte / 16), hex(byte % 16)])
}

/// Adds a byte to JSON.
fn push_json(out: &mut Vec<u8>, byte: u8) -> Result<(), AllocError>
    ensures { OnOk result (out.new.items ≡ out.old.items ++ in_json byte) }
{
    match byte {
        b'"' => out.extend_from_slice("\\\"".as_bytes()),
        b'\\' => out.extend_from_slice("\\\\".as_bytes()),
        b'<' => out.extend_from_slice("\\u003c".as_bytes()),
        _ => out.extend_from_slice(&[byte]),
    }
}

/// Adds a byte to XML.
fn push_xml(out: &mut Vec<u8>, byte: u8) -> Result<(), AllocError>
    ensures { OnOk result (out.new.items ≡ out.old.items ++ in_xml byte) }
{
    match byte {
        b'&' => out.extend_from_slice("&amp;".as_bytes()),
        b'<' => out.extend_from_slice("&lt;".as_bytes()),
        b'>' => out.extend_from_slice("&gt;".as_bytes()),
        b'"' => out.extend_from_slice("&quot;".as_bytes()),
        b'\'' => out.extend_from_slice("&#39;".as_bytes()),
        _ => out.extend_from_slice(&[byte]),
    }
}

/// Adds a byte that is no control character.
fn push_in_form(out: &mut Vec<u8>, form: Form, byte: u8) -> Result<(), AllocError>
    ensures { OnOk result (out.new.items ≡ out.old.items ++ in_form form byte) }
{
    match form {
        Form::Plain => out.extend_from_slice(&[byte]),
        Form::Json => push_json(out, byte),
        Form::Xml => push_xml(out, byte),
    }
}

/// Adds a byte of a name.
fn push_byte(out: &mut Vec<u8>, form: Form, byte: u8) -> Result<(), AllocError>
    ensures { OnOk result (out.new.items ≡ out.old.items ++ escaped_byte form byte) }
{
    if is_control(byte) {
        push_control(out, byte)
    } else {
        push_in_form(out, form, byte)
    }
}

/// The byte at this place, or 0 behind the end.
fn byte_at(text: &[u8], place: usize) -> u8
    ensures { result ≡ slice_index_or text.now place 0 }
{
    text.get(place).copied().unwrap_or(0)
}

/// Whether a text begins with a control character of two bytes, U+0080 to U+009F.
fn is_upper_control(text: &[u8]) -> bool
    ensures { result ≡ is_upper_control text.now }
{
    let next = byte_at(text, 1);
    byte_at(text, 0) == 0xc2 && (next >= 0x80 && next < 0xa0)
}

/// Whether a text begins with U+FFFE or U+FFFF, which are no characters.
fn is_no_character(text: &[u8]) -> bool
    ensures { result ≡ is_no_character text.now }
{
    let last = byte_at(text, 2);
    byte_at(text, 0) == 0xef && (byte_at(text, 1) == 0xbf && (last == 0xbe || last == 0xbf))
}

/// Adds the letter or the byte with which a text begins. Returns how many bytes more such a letter has.
fn push_first(out: &mut Vec<u8>, form: Form, text: &[u8]) -> Result<usize, AllocError>
    ensures text { OnOk result (out.new.items ≡ out.old.items ++ first_escaped form text.now) }
    ensures more { IfOk result (λ more. more ≡ more_of_first text.now) }
{
    if is_upper_control(text) {
        push_control(out, byte_at(text, 1))?;
        Ok(1)
    } else if is_no_character(text) {
        let words = if byte_at(text, 2) == 0xbe {
            "\\ufffe"
        } else {
            "\\uffff"
        };
        out.extend_from_slice(words.as_bytes())?;
        Ok(2)
    } else {
        push_byte(out, form, byte_at(text, 0))?;
        Ok(0)
    }
}

/// Adds the first byte of a text, of which so many are left of a letter before. Returns how many are left then.
fn push_next(out: &mut Vec<u8>, form: Form, text: &[u8], more: usize) -> Result<usize, AllocError>
    requires { 0 < length text.now }
    ensures { IfOk result
        (λ left. out.new.items ++ escaped_behind left form (drop 1 text.now)
        ≡ out.old.items ++ escaped_behind more form text.now) }
{
    if more > 0 {
        return Ok(more - 1);
    }
    let left = push_first(out, form, text)?;
    Ok(left)
}

/// Adds a name.
pub(crate) fn push_escaped(out: &mut Vec<u8>, form: Form, name: &[u8]) -> Result<(), AllocError>
    ensures { OnOk result (out.new.items ≡ out.old.items ++ escaped form name.now) }
{
    let (mut rest, mut more) = (name, 0);
    while !rest.is_empty() {
        more = push_next(out, form, rest, more)?;
        rest = rest.split_at(1).1;
    }
    Ok(())
}
