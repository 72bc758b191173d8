//! Bytes as a line shows them.
ghost use Rattle.std.specs.Prelude.{◌≡◌, ◌<◌, ◌≤◌, ◌/◌, ◌%◌, ◌∷◌, ◌++◌, [], codes, length, take};
ghost use Rattle.std.specs.Fmt.{WritesOnOk};
ghost use Rattle.dr_base_quoted.specs.Quoting.{hex_digit};
ghost use Rattle.dr_run_shown.specs.Showing.{escaped_bytes, byte_escape, shown, shown_byte};

use dr_base_quoted::{hex_digit, is_plain};
use std::fmt;
use std::fmt::{Display, Formatter};

const QUOTE: u8 = 34;

const BACKSLASH: u8 = 92;

/// So many bytes are shown of a text at most. The names and UIDs of the standard are shorter.
const MOST: usize = 128;

/// Bytes that another node sent, or that a person gave, as a line shows them, also between quotes.
#[derive(Clone, Copy, Drop)]
pub struct Escaped<'a>(pub &'a [u8]);

fn write_byte<W: fmt::Write>(f: &mut Formatter<W>, byte: u8) -> fmt::Result
    requires { byte < 128 }
    ensures { WritesOnOk W.write_str_gives f.old result (byte ∷ []) f.new }
{
    f.write_char(char::from(byte))
}

/// A backslash and the byte.
fn write_behind<W: fmt::Write>(f: &mut Formatter<W>, byte: u8) -> fmt::Result
    requires { byte < 128 }
    ensures { WritesOnOk W.write_str_gives f.old result (92 ∷ byte ∷ []) f.new }
{
    write_byte(f, BACKSLASH)?;
    write_byte(f, byte)
}

/// Both hexadecimal digits of a byte.
fn write_digits<W: fmt::Write>(f: &mut Formatter<W>, byte: u8) -> fmt::Result
    ensures { WritesOnOk W.write_str_gives f.old result
        (hex_digit (byte / 16) ∷ hex_digit (byte % 16) ∷ []) f.new }
{
    write_byte(f, hex_digit(byte / 16))?;
    write_byte(f, hex_digit(byte % 16))
}

fn write_hex<W: fmt::Write>(f: &mut Formatter<W>, byte: u8) -> fmt::Result
    ensures { WritesOnOk W.write_str_gives f.old result (byte_escape byte) f.new }
{
    write_behind(f, b'x')?;
    write_digits(f, byte)
}

fn write_shown<W: fmt::Write>(f: &mut Formatter<W>, byte: u8) -> fmt::Result
    ensures { WritesOnOk W.write_str_gives f.old result (shown_byte byte) f.new }
{
    if is_plain(byte) {
        return write_byte(f, byte);
    }
    if byte == b'\n' {
        return write_behind(f, b'n');
    }
    if byte == QUOTE || byte == BACKSLASH {
        return write_behind(f, byte);
    }
    write_hex(f, byte)
}

fn write_escaped<W: fmt::Write>(f: &mut Formatter<W>, bytes: &[u8]) -> fmt::Result
    ensures { WritesOnOk W.write_str_gives f.old result (escaped_bytes bytes.now) f.new }
{
    for byte in bytes {
        write_shown(f, *byte)?;
    }
    Ok(())
}

/// The bytes that are shown of a text that is longer.
fn first_bytes(bytes: &[u8]) -> &[u8]
    requires { 128 < length bytes.now }
    ensures { result.now ≡ take 128 bytes.now }
{
    &bytes[..128]
}

/// What is longer is cut, and a mark says so, which no text has.
fn write_cut<W: fmt::Write>(f: &mut Formatter<W>, bytes: &[u8]) -> fmt::Result
    requires { 128 < length bytes.now }
    ensures { WritesOnOk W.write_str_gives f.old result
        (escaped_bytes (take 128 bytes.now) ++ codes "\\..") f.new }
{
    write_escaped(f, first_bytes(bytes))?;
    f.write_str("\\..")
}

/// A text that isn't longer is shown whole.
fn write_bounded<W: fmt::Write>(f: &mut Formatter<W>, bytes: &[u8]) -> fmt::Result
    ensures { WritesOnOk W.write_str_gives f.old result (shown bytes.now) f.new }
{
    if bytes.len() <= MOST {
        return write_escaped(f, bytes);
    }
    write_cut(f, bytes)
}

impl<'a> Display for Escaped<'a> {
    ghost use Rattle.std.specs.Prelude.{Some};
    ghost use Rattle.dr_run_shown.specs.Showing.{shown};

    ghost output = { λ s. Some (shown s.0.now) };

    fn fmt<W: fmt::Write>(&self, f: &mut Formatter<W>) -> fmt::Result {
        write_bounded(f, self.0)
    }
}
