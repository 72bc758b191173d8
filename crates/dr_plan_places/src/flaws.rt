//! What is wrong with a name.
ghost use Rattle.std.specs.Prelude.{MatchOption};
ghost use Rattle.dr_plan_model.specs.Formed.{IsName};
ghost use Rattle.dr_plan_places.specs.Flaws.{IsNameByte, IsNoNameByte, HasNameFlaw};

use crate::first::{Look, first};
use dr_plan_core::is_reserved;
use dr_plan_text::forms::is_trimmed;

/// Why a text isn't a name: the first of these that it shows.
#[derive(Clone, Copy, PartialEq, Eq)]
pub enum NameFlaw {
    /// It has no byte.
    Empty,
    /// It has more than 16.
    Long,
    /// It is `*` or `-`, which stand for any caller and for the local one.
    Reserved,
    /// The byte at this index isn't printable, or is the backslash.
    Unprintable(usize),
    /// A space stands at its start or at its end.
    Blank,
}

/// A search for a byte that no name has.
#[derive(Drop)]
struct NameBytes;

impl Look for NameBytes {
    type Value = u8;

    type Place = ();

    ghost is_free = { λ _ byte. IsNameByte byte };

    ghost is_at = { λ _ byte _. IsNoNameByte byte };

    fn look(&self, byte: &u8) -> Option<()> {
        if *byte < 32 {
            return Some(());
        }
        if *byte >= 127 {
            return Some(());
        }
        if *byte == b'\\' {
            return Some(());
        }
        None
    }
}

/// Why the text isn't a name, and None where it is one.
pub fn name_flaw(text: &[u8]) -> Option<NameFlaw>
    ensures { MatchOption result (IsName text.now) (HasNameFlaw text.now) }
{
    if text.is_empty() {
        return Some(NameFlaw::Empty);
    }
    if text.len() > 16 {
        return Some(NameFlaw::Long);
    }
    if is_reserved(text) {
        return Some(NameFlaw::Reserved);
    }
    if let Some((index, ())) = first(&NameBytes, text) {
        return Some(NameFlaw::Unprintable(index));
    }
    if is_trimmed(text) {
        return None;
    }
    Some(NameFlaw::Blank)
}
