//! Headers of elements (PS3.5 section 7.1).
ghost use Rattle.std.specs.Prelude.{◌≡◌, length};
ghost use Rattle.dr_dataset.specs.Elements.{is_short, inside};
ghost use Rattle.dr_dataset.specs.DataSet.{has_tag};
ghost use Rattle.dr_dataset.specs.Reading.{Gives, GivesSome, short_of, long_of, tag_of, form_of};
ghost use Rattle.dr_dataset.specs.Reading.{explicit_form_of, long_form_of, are_capitals};

use crate::fault::DataFault;
use dr_base::Syntax;

/// A data element's tag.
#[derive(Clone, Copy, Debug, PartialEq, Eq)]
pub struct Tag {
    pub group: u16,
    pub element: u16,
}

impl Tag {
    /// Whether it is that tag.
    pub fn is(self, group: u16, element: u16) -> bool
        ensures { result ≡ has_tag group element self }
    {
        self.group == group && self.element == element
    }
}

/// A value representation: two letters.
#[derive(Clone, Copy, Debug, PartialEq, Eq)]
pub struct Vr {
    pub first: u8,
    pub second: u8,
}

/// What stands between a tag and a value: the value representation, which the implicit syntax
/// leaves out, and the length in bytes.
#[derive(Clone, Copy, Debug, PartialEq, Eq)]
pub struct HeaderForm {
    pub vr: Option<Vr>,
    pub len: u32,
}

/// The length of an element or an item that ends by a mark.
pub const UNDEFINED: u32 = 0xFFFF_FFFF;

impl Vr {
    fn is_of_capitals(self) -> bool
        ensures { result ≡ are_capitals self }
    {
        self.first.is_ascii_uppercase() && self.second.is_ascii_uppercase()
    }

    /// Whether its length has two bytes (PS3.5 table 7.1-2); any other two capitals have the long
    /// form.
    fn is_short(self) -> bool
        ensures { result ≡ is_short self }
    {
        matches!(
            (self.first, self.second),
            (b'A', b'E' | b'S' | b'T')
                | (b'C', b'S')
                | (b'D', b'A' | b'S' | b'T')
                | (b'F', b'D' | b'L')
                | (b'I', b'S')
                | (b'L', b'O' | b'T')
                | (b'P', b'N')
                | (b'S', b'H' | b'L' | b'S' | b'T')
                | (b'T', b'M')
                | (b'U', b'I' | b'L' | b'S')
        )
    }
}

fn short_at(text: &[u8]) -> Option<(u16, &[u8])>
    ensures { GivesSome result (short_of text.now) }
{
    let [a, b, rest @ ..] = text else {
        return None;
    };
    Some((u16::from_le_bytes([*a, *b]), rest))
}

/// The number of four bytes that the text begins with, and what follows.
pub fn long_at(text: &[u8]) -> Option<(u32, &[u8])>
    ensures { GivesSome result (long_of text.now) }
{
    let [a, b, c, d, rest @ ..] = text else {
        return None;
    };
    Some((u32::from_le_bytes([*a, *b, *c, *d]), rest))
}

/// The tag that the text begins with, and what follows.
pub fn tag_at(text: &[u8]) -> Option<(Tag, &[u8])>
    ensures { GivesSome result (tag_of text.now) }
{
    let [a, b, c, d, rest @ ..] = text else {
        return None;
    };
    let tag = Tag {
        group: u16::from_le_bytes([*a, *b]),
        element: u16::from_le_bytes([*c, *d]),
    };
    Some((tag, rest))
}

/// What stands behind the tag of an element, and what follows.
pub fn form_at(text: &[u8], syntax: Syntax) -> Result<(HeaderForm, &[u8]), DataFault>
    ensures { Gives result (form_of syntax text.now) }
{
    match syntax {
        Syntax::Implicit => {
            let Some((len, rest)) = long_at(text) else {
                return Err(DataFault::Truncated);
            };
            Ok((HeaderForm { vr: None, len }, rest))
        }
        Syntax::Explicit => explicit_form_at(text),
    }
}

fn explicit_form_at(text: &[u8]) -> Result<(HeaderForm, &[u8]), DataFault>
    ensures { Gives result (explicit_form_of text.now) }
{
    let [first, second, rest @ ..] = text else {
        return Err(DataFault::Truncated);
    };
    let vr = Vr {
        first: *first,
        second: *second,
    };
    if !vr.is_of_capitals() {
        return Err(DataFault::BadVr);
    }
    if !vr.is_short() {
        return long_form_at(rest, vr);
    }
    let Some((len, rest)) = short_at(rest) else {
        return Err(DataFault::Truncated);
    };
    Ok((
        HeaderForm {
            vr: Some(vr),
            len: u32::from(len),
        },
        rest,
    ))
}

/// Two reserved bytes and a length of four.
fn long_form_at(text: &[u8], vr: Vr) -> Result<(HeaderForm, &[u8]), DataFault>
    ensures { Gives result (long_form_of vr text.now) }
{
    let [_, _, rest @ ..] = text else {
        return Err(DataFault::Truncated);
    };
    let Some((len, rest)) = long_at(rest) else {
        return Err(DataFault::Truncated);
    };
    Ok((HeaderForm { vr: Some(vr), len }, rest))
}

/// The syntax inside an element of undefined length, if it is a sequence.
pub fn syntax_inside(syntax: Syntax, vr: Option<Vr>) -> Option<Syntax>
    ensures { result ≡ inside syntax vr }
{
    match (syntax, vr) {
        (Syntax::Implicit, _) => Some(Syntax::Implicit),
        (
            Syntax::Explicit,
            Some(
                Vr {
                    first: b'S',
                    second: b'Q',
                },
            ),
        ) => Some(Syntax::Explicit),
        (
            Syntax::Explicit,
            Some(
                Vr {
                    first: b'U',
                    second: b'N',
                },
            ),
        ) => Some(Syntax::Implicit),
        (Syntax::Explicit, _) => None,
    }
}
