//! Bytes that a peer sent, as characters of a document.
ghost use Rattle.std.specs.Prelude.{◌≡◌, ◌<◌, ◌∷◌, [], ◌++◌, ◌/◌, ◌%◌, OnOk};
ghost use Rattle.dr_run_page.specs.Markup.{is_markup, stands_in_markup, in_markup, markup_byte};

use dr_base_quoted::hex_digit;
use std::alloc::AllocError;

/// Whether markup is made of the byte.
fn is_markup(byte: u8) -> bool
    ensures { result ≡ is_markup byte }
{
    byte == b'<' || byte == b'>' || byte == b'&' || byte == b'"' || byte == b'\''
}

/// Whether the byte stands as it is.
fn stands_in_markup(byte: u8) -> bool
    ensures { result ≡ stands_in_markup byte }
{
    32 <= byte && byte <= 126 && !is_markup(byte) && byte != b'\\'
}

/// Adds what stands for a byte.
fn put_byte(out: &mut Vec<u8>, byte: u8) -> Result<(), AllocError>
    ensures { OnOk result (out.new.items ≡ out.old.items ++ markup_byte byte) }
{
    if stands_in_markup(byte) {
        return out.extend_from_slice(&[byte]);
    }
    out.extend_from_slice(&[b'\\', b'x', hex_digit(byte / 16), hex_digit(byte % 16)])
}

/// Adds what stands for the bytes.
pub(crate) fn put_shown(out: &mut Vec<u8>, bytes: &[u8]) -> Result<(), AllocError>
    ensures { OnOk result (out.new.items ≡ out.old.items ++ in_markup bytes.now) }
{
    for byte in bytes {
        put_byte(out, *byte)?;
    }
    Ok(())
}
