//! The elements of a command set: tag, length (4), value, in Implicit VR Little Endian (PS3.7
//! section 6.3.1).
ghost use Rattle.std.specs.Prelude.{◌≡◌, [], IsTrue, ◌↔◌, ℕ, List, MatchOption};
ghost use Rattle.std.specs.Option.{option_copied};
ghost use Rattle.dr_base.specs.Runs.{Run};
ghost use Rattle.dr_dimse.specs.Commands.{CommandElement as ElementText, StartsCommandElement};
ghost use Rattle.dr_dimse.specs.Commands.{first_value, HasNumber, HasTwoBytes, AreNumbers};
ghost use Rattle.dr_dimse.specs.Reads.{Reads, element, elements};

use crate::fault::DimseFault;
use std::alloc::Global;

/// The length of an element that ends by a mark, which no command has.
const UNDEFINED: u32 = 0xFFFF_FFFF;

/// An element of group 0000 where it stands in its text.
#[derive(Clone, Copy)]
pub struct Element<'a> {
    pub number: u16,
    pub value: &'a [u8],
}

/// The first element of a text that isn't empty, and what follows it.
fn element_at(text: &[u8]) -> Result<(Element<'_>, &[u8]), DimseFault>
    ensures { Reads {Y = ElementText × List ℕ}
        (λ x. (element x.0, x.1.now)) result
        (λ x. StartsCommandElement text.now x.0 x.1) }
{
    let [group_low, group_high, low, high, a, b, c, d, rest @ ..] = text else {
        return Err(DimseFault::BadCommand);
    };
    if *group_low != 0 {
        return Err(DimseFault::BadCommand);
    }
    if *group_high != 0 {
        return Err(DimseFault::BadCommand);
    }
    let len = u32::from_le_bytes([*a, *b, *c, *d]);
    if len == UNDEFINED {
        return Err(DimseFault::BadCommand);
    }
    let len = len as usize;
    if rest.len() < len {
        return Err(DimseFault::BadCommand);
    }
    let (value, rest) = rest.split_at(len);
    let number = u16::from_le_bytes([*low, *high]);
    Ok((Element { number, value }, rest))
}

/// The elements of a text, in order.
pub fn elements_of(alloc: Global, text: &[u8]) -> Result<Vec<Element<'_>>, DimseFault>
    ensures { Reads (λ v. elements v.items) result (λ es. Run StartsCommandElement es text.now []) }
{
    let mut found = Vec::new(alloc);
    let mut rest = text;
    while !rest.is_empty() {
        let (element, after) = element_at(rest)?;
        found.push(element)?;
        rest = after;
    }
    Ok(found)
}

/// The value of the first element of that number.
pub fn first<'a>(found: &[Element<'a>], number: u16) -> Option<&'a [u8]>
    ensures { option_copied result ≡ first_value number (elements found.now) }
{
    for element in found {
        if element.number == number {
            return Some(element.value);
        }
    }
    None
}

/// The number of two bytes that the first element of that number is.
pub fn number_of(found: &[Element<'_>], number: u16) -> Option<u16>
    ensures { MatchOption result ((n : ℕ) → HasNumber (elements found.now) number n → ⊥)
        (λ n. HasNumber (elements found.now) number n) }
{
    let Some(value) = first(found, number) else {
        return None;
    };
    let [low, high] = value else {
        return None;
    };
    Some(u16::from_le_bytes([*low, *high]))
}

/// Whether the first element of that number has two bytes, if it is there.
fn is_short(found: &[Element<'_>], number: u16) -> bool
    ensures { IsTrue result ↔ HasTwoBytes (elements found.now) number }
{
    let Some(value) = first(found, number) else {
        return true;
    };
    value.len() == 2
}

/// Whether the numbers of a command have two bytes: command field, message id, id that is answered,
/// priority, data set type, status, and the move originator's message id.
pub fn are_numbers(found: &[Element<'_>]) -> bool
    ensures { IsTrue result ↔ AreNumbers (elements found.now) }
{
    is_short(found, 0x0100)
        && is_short(found, 0x0110)
        && is_short(found, 0x0120)
        && is_short(found, 0x0700)
        && is_short(found, 0x0800)
        && is_short(found, 0x0900)
        && is_short(found, 0x1031)
}
