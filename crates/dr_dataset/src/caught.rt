//! The four values of a data set while it is heard: copies, since what was heard isn't kept.
ghost use Rattle.std.specs.Prelude.{true, ◌≡◌, ◌≤◌, ◌∷◌, ◌++◌, ℕ, [], List, length, option_map};
ghost use Rattle.std.specs.Prelude.{unwrap_or, if◌then◌else◌};
ghost use Rattle.std.specs.Option.{option_copied, option_or};
ghost use Rattle.dr_dataset.specs.Elements.{Element};
ghost use Rattle.dr_dataset.specs.DataSet.{is_key};
ghost use Rattle.dr_dataset.specs.Wholes.{elements_of};
ghost use Rattle.dr_dataset.specs.Hearing.{AreCaught, bytes_of_slot, IsShortKey};

use crate::found::bytes_of;
use crate::header::Tag;
use crate::whole::Whole;
use arrayvec::ArrayVec;

/// A value of at most 1024 bytes.
pub type Kept = ArrayVec<u8, 1024>;

/// SOP class UID, SOP instance UID, modality and station name: the bytes of the first element with
/// each tag.
#[derive(Drop)]
pub struct Caught {
    pub class: Option<Kept>,
    pub instance: Option<Kept>,
    pub modality: Option<Kept>,
    pub station: Option<Kept>,
}

/// The bytes that were caught first, or else these if they are the ones.
fn keep(slot: &mut Option<Kept>, is_it: bool, bytes: &[u8])
    ensures { (is_it ≡ true → length bytes.now ≤ 1024)
        → bytes_of_slot slot.new
        ≡ option_or (bytes_of_slot slot.old) (if is_it then Some bytes.now else None) }
{
    if slot.is_some() || !is_it {
        return;
    }
    let mut kept = ArrayVec::new();
    let _ = kept.try_extend_from_slice(bytes);
    *slot = Some(kept);
}

impl Caught {
    /// Nothing is caught yet.
    pub fn nothing() -> Caught
        ensures { AreCaught result [] }
    {
        Caught {
            class: None,
            instance: None,
            modality: None,
            station: None,
        }
    }

    /// One more element, or none: the first with each tag counts, one of undefined length too.
    pub fn note(&mut self, element: Option<Whole<'_>>)
        ensures { (es : List Element) → IsShortKey element.entry → AreCaught self.old es
            → AreCaught self.new (es ++ elements_of element.entry) }
    {
        match element {
            None => {}
            Some(element) => self.note_one(element.tag, bytes_of(element.value)),
        }
    }

    fn note_one(&mut self, tag: Tag, bytes: &[u8])
        ensures { (es : List Element) (e : Element) → e.tag ≡ tag → unwrap_or e.value [] ≡ bytes.now
            → (is_key tag ≡ true → length bytes.now ≤ 1024)
            → AreCaught self.old es → AreCaught self.new (es ++ e ∷ []) }
    {
        keep(&mut self.class, tag.is(0x0008, 0x0016), bytes);
        keep(&mut self.instance, tag.is(0x0008, 0x0018), bytes);
        keep(&mut self.modality, tag.is(0x0008, 0x0060), bytes);
        keep(&mut self.station, tag.is(0x0008, 0x1010), bytes);
    }
}
