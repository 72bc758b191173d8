//! What the standard calls a class of a UID.
ghost use Rattle.std.specs.Prelude.{◌≡◌, ◌↔◌, IsTrue, MatchOption, map};
ghost use Rattle.dr_base.specs.Texts.{Text as Words};
ghost use Rattle.dr_plan_expand.specs.Words.{Calls, HasName, IsKnownIn, entry, entries};

use crate::find::{Test, first};
use crate::known::{KnownUid, Table};

/// Whether that is its UID.
fn is_of(known: &KnownUid, uid: &[u8]) -> bool
    ensures { IsTrue result ↔ ((entry known.now).2 ≡ uid.now) }
{
    known.2.as_bytes() == uid
}

/// An entry has this UID.
#[derive(Drop)]
struct OfUid<'a>(&'a [u8]);

impl<'a> Test for OfUid<'a> {
    type Item = KnownUid;

    ghost holds = { λ of known. (entry known).2 ≡ of.0.now };

    fn test(&self, known: &KnownUid) -> bool {
        is_of(known, self.0)
    }
}

/// The name of the first entry of a table that has this UID.
fn name_in(table: &[KnownUid], uid: &[u8]) -> Option<&'static str>
    ensures { MatchOption result ((name : Words) → HasName (map entry table.now) uid.now name → ⊥)
        (λ name. HasName (map entry table.now) uid.now name.now) }
{
    match first(&OfUid(uid), table) {
        Some(known) => Some(known.1),
        None => None,
    }
}

/// A table has an entry with this UID.
#[derive(Drop)]
struct Knows<'a>(&'a [u8]);

impl<'a> Test for Knows<'a> {
    type Item = Table;

    ghost holds = { λ knows table. IsKnownIn knows.0.now (entries table) };

    fn test(&self, table: &Table) -> bool {
        match name_in(table, self.0) {
            Some(_) => true,
            None => false,
        }
    }
}

/// The name of this UID in the first table that has an entry with it.
pub fn name_of(tables: &[Table], uid: &[u8]) -> Option<&'static str>
    ensures { MatchOption result ((name : Words) → Calls (map entries tables.now) uid.now name → ⊥)
        (λ name. Calls (map entries tables.now) uid.now name.now) }
{
    match first(&Knows(uid), tables) {
        Some(table) => name_in(table, uid),
        None => None,
    }
}
