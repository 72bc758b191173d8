//! Words for people.
ghost use Rattle.std.specs.Prelude.{◌≡◌, ◌<◌, ◌++◌, ◌/◌, ◌%◌, ◌∷◌, [], OnOk, flat_map};
ghost use Rattle.dr_base_quoted.specs.Quoting.{hex_digit};
ghost use Rattle.dr_plan_places.specs.Shown.{is_printable, shown_byte, shown, shown_name};

use dr_base::Text;
use dr_base::fields::add_decimal;
use std::alloc::AllocError;

const QUOTE: u8 = 34;

const BACKSLASH: u8 = 92;

/// Adds the number of what stands at this index, which counts from 0, while numbers count from 1.
pub fn add_index(out: &mut Vec<u8>, index: usize) -> Result<(), AllocError> {
    add_decimal(out, index.saturating_add(1) as u64)
}

/// The digit in hexadecimal.
fn digit(nibble: u8) -> u8
    requires { nibble < 16 }
    ensures { result ≡ hex_digit nibble }
{
    if nibble < 10 {
        return 48 + nibble;
    }
    87 + nibble
}

/// Whether the byte is a character that prints, or a blank.
fn is_printable(byte: u8) -> bool
    ensures { result ≡ is_printable byte }
{
    byte >= 32 && byte <= 126
}

/// A backslash and the byte.
fn add_behind(out: &mut Vec<u8>, byte: u8) -> Result<(), AllocError>
    ensures { OnOk result (out.new.items ≡ out.old.items ++ (92 ∷ byte ∷ [])) }
{
    out.push(BACKSLASH)?;
    out.push(byte)?;
    Ok(())
}

/// The byte by its two hexadecimal digits.
fn add_hex(out: &mut Vec<u8>, byte: u8) -> Result<(), AllocError>
    ensures { OnOk result (out.new.items ≡ out.old.items
        ++ (92 ∷ 120 ∷ hex_digit (byte / 16) ∷ hex_digit (byte % 16) ∷ [])) }
{
    out.extend_from_slice(b"\\x")?;
    out.push(digit(byte / 16))?;
    out.push(digit(byte % 16))?;
    Ok(())
}

/// Adds a byte as it is shown between quotes: what isn't printable by its two hexadecimal digits,
/// so that no text of a plan reaches a terminal as a command.
fn add_shown_byte(out: &mut Vec<u8>, byte: u8) -> Result<(), AllocError>
    ensures { OnOk result (out.new.items ≡ out.old.items ++ shown_byte byte) }
{
    if byte == QUOTE || byte == BACKSLASH {
        return add_behind(out, byte);
    }
    if is_printable(byte) {
        out.push(byte)?;
        return Ok(());
    }
    add_hex(out, byte)
}

/// Adds the bytes of a text as they are shown between quotes.
fn add_shown_bytes(out: &mut Vec<u8>, text: &[u8]) -> Result<(), AllocError>
    ensures { OnOk result (out.new.items ≡ out.old.items ++ flat_map shown_byte text.now) }
{
    for byte in text {
        add_shown_byte(out, *byte)?;
    }
    Ok(())
}

/// Adds a text in quotes.
pub fn add_quoted(out: &mut Vec<u8>, text: &[u8]) -> Result<(), AllocError>
    ensures { OnOk result (out.new.items ≡ out.old.items ++ shown text.now) }
{
    out.push(QUOTE)?;
    add_shown_bytes(out, text)?;
    out.push(QUOTE)?;
    Ok(())
}

/// Adds a name in quotes, and a question mark for none.
pub fn add_name(out: &mut Vec<u8>, name: Option<&Text>) -> Result<(), AllocError>
    ensures { OnOk result (out.new.items ≡ out.old.items ++ shown_name name.entry) }
{
    match name {
        Some(name) => add_quoted(out, name.as_bytes()),
        None => out.extend_from_slice(b"?"),
    }
}
