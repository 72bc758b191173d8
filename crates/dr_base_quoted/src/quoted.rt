//! Texts between quotes.
ghost use Rattle.std.specs.Prelude.{◌≡◌, ◌<◌, ◌++◌, ◌/◌, ◌%◌, ◌∷◌, [], OnOk, flat_map};
ghost use Rattle.dr_base_quoted.specs.Quoting.{hex_digit, is_plain, quoted, quoted_byte};

use dr_base::Text;
use std::alloc::AllocError;

const QUOTE: u8 = 34;

const BACKSLASH: u8 = 92;

/// Whether a byte stands as it is: it prints, or is a blank, and is neither a quote nor a
/// backslash.
pub fn is_plain(byte: u8) -> bool
    ensures { result ≡ is_plain byte }
{
    byte >= 32 && byte <= 126 && byte != QUOTE && byte != BACKSLASH
}

/// The digit, 0 to 9 or a to f, of a number below sixteen.
pub fn hex_digit(number: u8) -> u8
    requires { number < 16 }
    ensures value { result ≡ hex_digit number }
    ensures small { result < 128 }
{
    if number < 10 {
        return 48 + number;
    }
    87 + number
}

/// A backslash and the byte.
fn put_behind(out: &mut Vec<u8>, byte: u8) -> Result<(), AllocError>
    ensures { OnOk result (out.new.items ≡ out.old.items ++ (92 ∷ byte ∷ [])) }
{
    out.push(BACKSLASH)?;
    out.push(byte)?;
    Ok(())
}

/// The byte as the number of a character.
fn put_hex(out: &mut Vec<u8>, byte: u8) -> Result<(), AllocError>
    ensures { OnOk result (out.new.items ≡ out.old.items
        ++ (92 ∷ 117 ∷ 48 ∷ 48 ∷ hex_digit (byte / 16) ∷ hex_digit (byte % 16) ∷ [])) }
{
    out.extend_from_slice(b"\\u00")?;
    out.push(hex_digit(byte / 16))?;
    out.push(hex_digit(byte % 16))?;
    Ok(())
}

/// Adds a byte as it stands between quotes.
pub fn put_quoted_byte(out: &mut Vec<u8>, byte: u8) -> Result<(), AllocError>
    ensures { OnOk result (out.new.items ≡ out.old.items ++ quoted_byte byte) }
{
    if is_plain(byte) {
        out.push(byte)?;
        return Ok(());
    }
    if byte == b'\n' {
        return put_behind(out, b'n');
    }
    if byte == QUOTE || byte == BACKSLASH {
        return put_behind(out, byte);
    }
    put_hex(out, byte)
}

fn put_bytes(out: &mut Vec<u8>, bytes: &[u8]) -> Result<(), AllocError>
    ensures { OnOk result (out.new.items ≡ out.old.items ++ flat_map quoted_byte bytes.now) }
{
    for byte in bytes {
        put_quoted_byte(out, *byte)?;
    }
    Ok(())
}

/// Adds a text between quotes.
pub fn put_quoted(out: &mut Vec<u8>, bytes: &[u8]) -> Result<(), AllocError>
    ensures { OnOk result (out.new.items ≡ out.old.items ++ quoted bytes.now) }
{
    out.push(QUOTE)?;
    put_bytes(out, bytes)?;
    out.push(QUOTE)?;
    Ok(())
}

/// The same of a `Text`.
pub fn put_text(out: &mut Vec<u8>, text: &Text) -> Result<(), AllocError>
    ensures { OnOk result (out.new.items ≡ out.old.items ++ quoted text.now) }
{
    put_quoted(out, text.as_bytes())
}

/// The same of words.
pub fn put_words(out: &mut Vec<u8>, words: &str) -> Result<(), AllocError>
    ensures { OnOk result (out.new.items ≡ out.old.items ++ quoted words.now) }
{
    put_quoted(out, words.as_bytes())
}
