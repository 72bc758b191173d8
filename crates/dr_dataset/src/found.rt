//! The four values of a data set while it is read.
ghost use Rattle.std.specs.Prelude.{◌≡◌, ◌++◌, ℕ, [], List, unwrap_or, is_some, if◌then◌else◌};
ghost use Rattle.std.specs.Option.{option_copied, option_or};
ghost use Rattle.dr_dataset.specs.Elements.{Element};
ghost use Rattle.dr_dataset.specs.Wholes.{AreFound, elements_of};

use crate::header::Tag;
use crate::whole::Whole;

/// SOP class UID, SOP instance UID, modality and station name: the bytes of the first element with
/// each tag.
#[derive(Clone, Copy)]
pub struct ElementsFound<'a> {
    pub class: Option<&'a [u8]>,
    pub instance: Option<&'a [u8]>,
    pub modality: Option<&'a [u8]>,
    pub station: Option<&'a [u8]>,
}

/// The bytes, none where there is no value.
pub fn bytes_of(value: Option<&[u8]>) -> &[u8]
    ensures { result.now ≡ unwrap_or (option_copied value.entry) [] }
{
    match value {
        None => &[],
        Some(bytes) => bytes,
    }
}

/// The bytes that were found first, or else those of this element if it is the one.
pub fn first_of<'a>(found: Option<&'a [u8]>, is_it: bool, value: &'a [u8]) -> Option<&'a [u8]>
    ensures { option_copied result
        ≡ option_or (option_copied found.entry) (if is_it then Some value.now else None) }
{
    if found.is_none() && is_it {
        return Some(value);
    }
    found
}

impl<'a> ElementsFound<'a> {
    /// Nothing is found yet.
    pub fn nothing() -> ElementsFound<'a>
        ensures { AreFound result [] }
    {
        ElementsFound {
            class: None,
            instance: None,
            modality: None,
            station: None,
        }
    }

    /// Behind one more element, or none: the first with each tag counts, one of undefined length
    /// too.
    pub fn with(self, element: Option<Whole<'a>>) -> ElementsFound<'a>
        ensures { (es : List Element) → AreFound self.entry es
            → AreFound result (es ++ elements_of element.entry) }
    {
        match element {
            None => self,
            Some(element) => self.with_one(element),
        }
    }

    fn with_one(self, element: Whole<'a>) -> ElementsFound<'a>
        ensures { (es : List Element) → AreFound self.entry es
            → AreFound result (es ++ elements_of (Some element.entry)) }
    {
        let tag = element.tag;
        let bytes = bytes_of(element.value);
        ElementsFound {
            class: first_of(self.class, tag.is(0x0008, 0x0016), bytes),
            instance: first_of(self.instance, tag.is(0x0008, 0x0018), bytes),
            modality: first_of(self.modality, tag.is(0x0008, 0x0060), bytes),
            station: first_of(self.station, tag.is(0x0008, 0x1010), bytes),
        }
    }
}
