//! Names, UIDs and titles without their padding (PS3.5 section 6.2).
ghost use Rattle.std.specs.Prelude.{◌≡◌};
ghost use Rattle.dr_base.specs.Padding.{is_padding, unpadded, without_spaces, trimmed};

fn is_pad(byte: u8) -> bool
    ensures { result ≡ is_padding byte }
{
    byte == 0 || byte == b' '
}

/// The bytes without the NULs and spaces at their end, as names and UIDs are read.
pub fn unpadded(bytes: &[u8]) -> &[u8]
    ensures { result.now ≡ unpadded bytes.now }
{
    let mut text = bytes;
    while let [front @ .., last] = text {
        if !is_pad(*last) {
            return text;
        }
        text = front;
    }
    text
}

fn without_spaces(bytes: &[u8]) -> &[u8]
    ensures { result.now ≡ without_spaces bytes.now }
{
    let mut text = bytes;
    while let [b' ', rest @ ..] = text {
        text = rest;
    }
    text
}

/// The bytes without the spaces in front and the NULs and spaces at their end, as titles are read.
pub fn trimmed(bytes: &[u8]) -> &[u8]
    ensures { result.now ≡ trimmed bytes.now }
{
    unpadded(without_spaces(bytes))
}
