//! A page with the script that gives its names.
ghost use Rattle.std.specs.Prelude.{◌≡◌, ◌++◌, flat_map, IfOk, OnOk};
ghost use Rattle.cmwq_names.specs.Escapes.{in_element, script_element};

use std::alloc::{AllocError, Global};

/// Adds a byte of JSON to an element.
fn push_byte(out: &mut Vec<u8>, byte: u8) -> Result<(), AllocError>
    ensures { OnOk result (out.new.items ≡ out.old.items ++ in_element byte) }
{
    match byte {
        b'<' => out.extend_from_slice("\\u003c".as_bytes()),
        _ => out.extend_from_slice(&[byte]),
    }
}

/// Adds JSON to an element.
fn push_json(out: &mut Vec<u8>, json: &str) -> Result<(), AllocError>
    ensures { OnOk result (out.new.items ≡ out.old.items ++ flat_map in_element json.now) }
{
    let bytes = json.as_bytes();
    for byte in bytes {
        push_byte(out, *byte)?;
    }
    Ok(())
}

/// A page with an element more at its end, which has a script, given as JSON: the page shows the names in it.
pub fn with_script(alloc: Global, page: &[u8], script: &str) -> Result<Vec<u8>, AllocError>
    ensures { IfOk result (λ out. out.items ≡ page.now ++ script_element script.now) }
{
    let mut out = Vec::new(alloc);
    out.extend_from_slice(page)?;
    out.extend_from_slice("<script type=\"application/json\" id=\"names\">".as_bytes())?;
    push_json(&mut out, script)?;
    out.extend_from_slice("</script>\n".as_bytes())?;
    Ok(out)
}
