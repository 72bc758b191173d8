//! Texts in quotes of which a quote and a backslash alone are told apart: those of TOML, where a
//! text has no control character, and of Graphviz.
ghost use Rattle.std.specs.Prelude.{◌≡◌, ◌++◌, ◌∷◌, [], OnOk};
ghost use Rattle.dr_base_quoted.specs.Escaping.{escaped, escaped_byte, in_quotes};

use dr_base::Text;
use std::alloc::AllocError;

const QUOTE: u8 = 34;

const BACKSLASH: u8 = 92;

/// Adds a byte as it stands between quotes.
fn put_escaped_byte(out: &mut Vec<u8>, byte: u8) -> Result<(), AllocError>
    ensures { OnOk result (out.new.items ≡ out.old.items ++ escaped_byte byte) }
{
    if byte == QUOTE {
        return out.extend_from_slice(&[BACKSLASH, QUOTE]);
    }
    if byte == BACKSLASH {
        return out.extend_from_slice(&[BACKSLASH, BACKSLASH]);
    }
    out.extend_from_slice(&[byte])
}

/// Adds bytes as they stand between quotes.
fn put_escaped_bytes(out: &mut Vec<u8>, bytes: &[u8]) -> Result<(), AllocError>
    ensures { OnOk result (out.new.items ≡ out.old.items ++ escaped bytes.now) }
{
    for byte in bytes {
        put_escaped_byte(out, *byte)?;
    }
    Ok(())
}

/// Adds a text as it stands between quotes.
pub fn put_escaped(out: &mut Vec<u8>, text: &Text) -> Result<(), AllocError>
    ensures { OnOk result (out.new.items ≡ out.old.items ++ escaped text.now) }
{
    put_escaped_bytes(out, text.as_bytes())
}

/// Adds a text in quotes.
pub fn put_in_quotes(out: &mut Vec<u8>, text: &Text) -> Result<(), AllocError>
    ensures { OnOk result (out.new.items ≡ out.old.items ++ in_quotes text.now) }
{
    out.extend_from_slice(b"\"")?;
    put_escaped(out, text)?;
    out.extend_from_slice(b"\"")
}
